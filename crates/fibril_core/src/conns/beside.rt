//! A call that the program does not make, for who uses the crate alone. The program starts a
//! connection by `reserve` and `start_reserved`.
ghost use Rattle.std.specs.Prelude.{◌≡◌, None, OnOk, OnErr};
ghost use Rattle.fibril_core.specs.Conns.{conn_of_fibril, start};

use super::Conns;
use ipc_ids::{FibrilNo, Label, NoMemory};

impl Conns {
    /// Starts a connection, which the fibril serves. An older one with that label loses the label
    /// and is closed.
    ///
    /// # Errors
    ///
    /// `NoMemory` where there was no room and no memory was found. Nothing has changed then.
    pub fn start(&mut self, label: Label, f: FibrilNo) -> Result<(), NoMemory>
        requires serves_none { conn_of_fibril f self.old.conns ≡ None }
        ensures conns { OnOk result (self.new.conns ≡ start label f self.old.conns) }
        ensures unchanged { OnErr result (self.new.conns ≡ self.old.conns) }
        ensures full { OnErr result (self.old.spare ≡ 0) }
    {
        match self.reserve() {
            Ok(()) => {
                self.start_reserved(label, f);
                Ok(())
            }
            Err(e) => Err(e),
        }
    }
}
