//! Files that are loaded by name.
ghost use Rattle.std.specs.Prelude.{◌≡◌, ◌≤◌, ◌++◌, [], ◌∷◌, List, ℕ, length, IfOk, OnOk, IsErrOf};
ghost use Rattle.std.specs.Prelude.{Option};
ghost use Rattle.io_edge.specs.declared.shelf.LoadFault.TheVariants.{Failed, NoMemory};
ghost use Rattle.io_edge.specs.Edge.{Gives};

use std::alloc::{AllocError, AllocFailed, Global};
use thiserror::Error;

/// Why a file was not loaded.
#[derive(Clone, Copy, Debug, PartialEq, Eq, Drop, Error)]
pub enum LoadFault {
    /// There is no such file, or a part of it could not be read.
    #[error("cannot read")]
    Failed,
    /// Memory was wanted and not found.
    #[error("out of memory")]
    NoMemory,
}

impl From<AllocError> for LoadFault {
    ghost from_gives = { λ _ fault. fault ≡ NoMemory };

    fn from(_: AllocError) -> Self {
        LoadFault::NoMemory
    }
}

impl<T: Drop> From<AllocFailed<T>> for LoadFault {
    ghost from_gives = { λ _ fault. fault ≡ NoMemory };

    fn from(_: AllocFailed<T>) -> Self {
        LoadFault::NoMemory
    }
}

/// A place that has files under names.
pub trait Shelf {
    /// The files, each a name and its bytes, where the shelf tells them. Of one name the first
    /// counts.
    ghost files: { Self → Option (List (List ℕ × List ℕ)) };

    /// The names whose load failed, in the order of the loads.
    ghost failed: { Self → List (List ℕ) };

    /// The first `most` bytes of the named file, or all where it is shorter.
    fn load(&mut self, alloc: Global, name: &str, most: usize) -> Result<Vec<u8>, LoadFault>
        ensures bytes { IfOk result (λ bytes. Gives (files self.old) name.now most bytes.items) }
        ensures most { IfOk result (λ bytes. length bytes.items ≤ most) }
        ensures files { files self.new ≡ files self.old }
        ensures ok { OnOk result (failed self.new ≡ failed self.old) }
        ensures no_memory { IsErrOf result NoMemory → failed self.new ≡ failed self.old }
        ensures failed { IsErrOf result Failed →
            failed self.new ≡ failed self.old ++ name.now ∷ [] };
}
