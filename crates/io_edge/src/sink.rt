//! Where text goes.
ghost use Rattle.std.specs.Prelude.{◌≡◌, ◌≤◌, ◌<◌, ◌^◌, List, ℕ, OnOk, OnErr, Option};
ghost use Rattle.std.specs.Io.KnownBytes.{Appends};
ghost use Rattle.io_edge.specs.Edge.{AppendsStart, Rose};

use thiserror::Error;

/// A piece was not written whole.
#[derive(Clone, Copy, Debug, PartialEq, Eq, Drop, Error)]
#[error("cannot write")]
pub struct PutFailed;

/// A place that takes bytes.
pub trait Sink {
    /// The bytes that were written, where the sink tells them.
    ghost written: { Self → Option (List ℕ) };

    /// How often a put failed. The count stays at the last value of a `u64`; a sink whose count
    /// stands there is spent, and a put of it that fails leaves the count as it is.
    ghost faults: { Self → ℕ };

    /// Writes a piece at the end; after `PutFailed` a prefix of it was written.
    fn put(&mut self, piece: &[u8]) -> Result<(), PutFailed>
        ensures ok { OnOk result (Appends (written self.old) (written self.new) piece.now) }
        ensures err { OnErr result (AppendsStart (written self.old) (written self.new) piece.now) }
        ensures none { OnOk result (faults self.new ≡ faults self.old) }
        ensures cause { OnErr result (Rose (faults self.old) (faults self.new)) }
        ensures later { faults self.old ≤ faults self.new }
        ensures last { faults self.new < 2 ^ 64 };
}
