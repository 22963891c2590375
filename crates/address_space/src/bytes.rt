//! The bytes of a store.
ghost use Rattle.std.specs.Prelude.{◌≡◌, ◌+◌, ◌≤◌, IfOk, length, replicate};
ghost use Rattle.address_space.specs.Stores.{written_over};

use ipc_ids::NoMemory;
use std::alloc::Global;
use std::marker::Model;

/// Bytes that may be written, as many as there were at first. Contracts see them as a list.
#[derive(Drop)]
pub struct Bytes {
    bytes: Vec<u8>,
}

impl Model for Bytes {
    ghost use Rattle.std.specs.Prelude.{ℕ, List};

    ghost Value = { List ℕ };

    ghost view = { λ a. a.bytes.items };
}

impl Bytes {
    /// So many zeros.
    pub fn zeros(alloc: Global, count: usize) -> Result<Bytes, NoMemory>
        ensures { IfOk result (λ bytes. bytes ≡ replicate count 0) }
    {
        match Vec::from_elem(alloc, 0u8, count) {
            Ok(bytes) => Ok(Bytes { bytes }),
            Err(_) => Err(NoMemory),
        }
    }

    pub fn as_slice(&self) -> &[u8]
        ensures { result.now ≡ self.now }
    {
        self.bytes.as_slice()
    }

    /// Writes these bytes, the first of them at `at`.
    pub fn write(&mut self, at: usize, bytes: &[u8])
        requires { at + length bytes.now ≤ length self.old }
        ensures { self.new ≡ written_over self.old at bytes.now }
    {
        let _len = self.bytes.len();
        let end = at + bytes.len();
        self.bytes[at..end].copy_from_slice(bytes);
    }
}
