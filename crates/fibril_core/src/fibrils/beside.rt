//! Calls that the program does not make, for who uses the crate alone. The program makes a fibril by
//! `reserve` and `spawn_reserved`, and wakes the one that its own record of awaited calls names.
ghost use Rattle.std.specs.Prelude.{◌≡◌, OnOk, OnErr, IfOk};
ghost use Rattle.fibril_core.specs.Fibrils.{first_blocked, next_number, IsWithinBounds, spawned, wake_first};

use super::{Fibrils, Status};
use ipc_ids::{CallNo, FibrilNo, NoMemory, Why};

impl Fibrils {
    /// Makes a fibril, which is ready behind the others, and gives its number.
    ///
    /// # Errors
    ///
    /// `NoMemory` where there was no room and no memory was found. Nothing has changed then.
    pub fn spawn(&mut self) -> Result<FibrilNo, NoMemory>
        requires bounds { IsWithinBounds self.old.order }
        ensures number { IfOk result (λ f. f ≡ next_number self.old.order) }
        ensures order { OnOk result (self.new.order ≡ spawned self.old.order) }
        ensures unchanged { OnErr result (self.new.order ≡ self.old.order) }
        ensures full { OnErr result (self.old.spare ≡ 0) }
    {
        match self.reserve() {
            Ok(()) => Ok(self.spawn_reserved()),
            Err(e) => Err(e),
        }
    }

    /// Makes ready, and gives, the fibril that blocked first on the answer of this call.
    pub fn wake_answer(&mut self, call: CallNo) -> Option<FibrilNo>
        requires bounds { IsWithinBounds self.old.order }
        ensures fibril { result ≡ first_blocked self.old.order (Why.Answer call) }
        ensures order { self.new.order ≡ wake_first self.old.order (Why.Answer call) }
        ensures spare { self.new.spare ≡ self.old.spare }
    {
        let first = self.live.first(Status::Blocked(Why::Answer(call)));
        if let Some(f) = first {
            self.make_ready(f);
        }
        first
    }
}
