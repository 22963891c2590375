//! Answers that are owed.
ghost use Rattle.std.specs.Prelude.{◌≡◌, ◌++◌, [], ◌∷◌, OnOk, OnErr};

use ipc_ids::{CallNo, Code, NoMemory};
use std::alloc::Global;
use std::marker::Model;

/// Answers that are owed, in the order in which they are to be given.
#[derive(Drop)]
pub struct Owed {
    items: Vec<(CallNo, Code)>,
}

impl Model for Owed {
    ghost use Rattle.std.specs.Prelude.{List};
    ghost use Rattle.ipc_ids.specs.declared.numbers.CallNo.{CallNo};
    ghost use Rattle.ipc_ids.specs.declared.numbers.Code.{Code};

    ghost Value = { List (CallNo × Code) };

    ghost view = { λ owed. owed.items.items };
}

impl Owed {
    /// No answers; it takes no memory.
    pub fn new(alloc: Global) -> Owed
        ensures { result ≡ [] }
    {
        Owed {
            items: Vec::new(alloc),
        }
    }

    /// Adds an answer at the end.
    ///
    /// # Errors
    ///
    /// `NoMemory` where no memory was found. Nothing has changed then.
    pub fn push(&mut self, item: (CallNo, Code)) -> Result<(), NoMemory>
        ensures ok { OnOk result (self.new ≡ self.old ++ item ∷ []) }
        ensures err { OnErr result (self.new ≡ self.old) }
    {
        match self.items.push(item) {
            Ok(()) => Ok(()),
            Err(_) => Err(NoMemory),
        }
    }

    /// The answers in their order. Takes no memory.
    pub fn as_slice(&self) -> &[(CallNo, Code)]
        ensures { result.now ≡ self.now }
    {
        self.items.as_slice()
    }
}
