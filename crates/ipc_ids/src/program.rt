//! What every kind of program does.
ghost use Rattle.std.specs.Prelude.{◌≡◌, ◌+◌, ◌^◌, ◌<◌, ◌++◌, ℕ, List, true, OnOk, OnErr};
ghost use Rattle.ipc_ids.specs.declared.entry.Entry.{Entry as Line};
ghost use Rattle.ipc_ids.specs.declared.message.Request.{Request as Asked};
ghost use Rattle.ipc_ids.specs.declared.message.Outcome.{Outcome as Told};
ghost use Rattle.ipc_ids.specs.Program.{fits};

use crate::message::{Outcome, Request};
use crate::trace::{NoMemory, Trace};

/// A program of a task. It asks for one thing at a time, and takes the outcome.
pub trait Program {
    /// What it asks next.
    ghost wanted: { Self → Asked };

    /// What it is after an outcome.
    ghost after: { Self → Told → Self };

    /// The entries of its own that it makes of an outcome.
    ghost entries: { Self → Told → List Line };

    /// How many outcomes it took.
    ghost taken: { Self → ℕ };

    /// What it asks next. Takes no memory.
    fn next(&self) -> Request
        ensures { result ≡ wanted self.now };

    /// Takes the outcome of what `next` gives, and puts the program's own entries at the end of
    /// `out`.
    ///
    /// # Errors
    ///
    /// `NoMemory` where no memory was found. Nothing has changed then.
    fn take(&mut self, got: &Outcome, out: &mut Trace) -> Result<(), NoMemory>
        requires few { taken self.old < 2 ^ 24 }
        requires fits { fits (wanted self.old) got.now ≡ true }
        ensures state { OnOk result (self.new ≡ after self.old got.now) }
        ensures entries { OnOk result (out.new.entries
            ≡ out.old.entries ++ entries self.old got.now) }
        ensures taken { OnOk result (taken self.new ≡ taken self.old + 1) }
        ensures unchanged { OnErr result (self.new ≡ self.old) }
        ensures trace_unchanged { OnErr result (out.new.entries ≡ out.old.entries) };

    /// How many outcomes it took so far. Takes no memory.
    fn taken(&self) -> u64
        ensures { result ≡ taken self.now };
}
