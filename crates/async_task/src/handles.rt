//! The handles of a fibril.
ghost use Rattle.std.specs.Prelude.{◌≡◌, None, length, replicate, slice_get};
ghost use Rattle.async_task.specs.Contexts.{handle_in};
ghost use Rattle.async_task.specs.Handles.{with_named};

use ipc_ids::ExchangeNo;
use std::marker::Model;

/// How many handles a fibril has.
const HANDLES: usize = 8;

/// What the 8 handles of a fibril name. They take 72 bytes, where 8 options would take 128.
#[derive(Drop)]
pub struct Handles {
    // The exchange of each handle that names one. Of the others no number here counts.
    numbers: [ExchangeNo; 8],
    // Whether each handle names one.
    named: [bool; 8],
}

impl Model for Handles {
    ghost use Rattle.std.specs.Prelude.{List, Option, ◌≡◌, length};
    ghost use Rattle.ipc_ids.specs.declared.numbers.ExchangeNo.{ExchangeNo};
    ghost use Rattle.async_task.specs.Handles.{names_of};

    ghost Value = { List (Option ExchangeNo) };

    ghost view = { λ handles. names_of handles.numbers handles.named };

    ghost invariant = { λ handles. length handles.numbers ≡ 8 };
}

impl Handles {
    /// None names an exchange.
    pub(crate) fn new() -> Handles
        ensures { result ≡ replicate 8 None }
    {
        Handles {
            numbers: [ExchangeNo(0); 8],
            named: [false; 8],
        }
    }

    /// How many handles there are: 8. Takes no memory.
    pub fn count(&self) -> u32
        ensures { result ≡ length self.now }
    {
        self.numbers.as_slice().len() as u32
    }

    /// The exchange that a handle names; one from 8 on names none. Takes no memory.
    #[tactic(auto, using(crate::proofs::Named::named_at, crate::proofs::Named::unnamed_at, crate::proofs::Named::named_past))]
    pub fn get(&self, handle: u32) -> Option<ExchangeNo>
        ensures { result ≡ handle_in (slice_get self.now handle) }
    {
        let place = handle as usize;
        match self.numbers.get(place) {
            Some(number) if self.named[place] => Some(*number),
            _ => None,
        }
    }

    /// A handle names that. There is none from 8 on.
    #[tactic(auto, using(crate::proofs::Named::set_some, crate::proofs::Named::set_none))]
    pub(crate) fn set(&mut self, handle: u32, names: Option<ExchangeNo>)
        ensures { self.new ≡ with_named self.old handle names }
    {
        let place = handle as usize;
        if place >= HANDLES {
            return;
        }
        match names {
            Some(number) => {
                self.numbers[place] = number;
                self.named[place] = true;
            }
            None => self.named[place] = false,
        }
    }
}
