//! The codes of places.
ghost use Rattle.std.specs.Prelude.{◌≡◌, ◌++◌, ◌∷◌, [], true, IfOk, OnOk, length};
ghost use Rattle.search_core.specs.Kept.{IsKept};
ghost use Rattle.search_core.specs.Packed.{unpacked};

use crate::packed::packed;
use std::alloc::{AllocError, Global};

/// The codes of places, each packed, one behind the other.
#[derive(Drop)]
pub struct Codes {
    pub bytes: Vec<u8>,
    /// Where each begins, and where the last ends.
    pub bounds: Vec<usize>,
}

impl Codes {
    /// That of the first place alone.
    pub fn new(alloc: Global, code: &[u64]) -> Result<Codes, AllocError>
        ensures bytes { IfOk result (λ codes. unpacked codes.bytes.items ≡ code.now) }
        ensures bounds { IfOk result (λ codes. codes.bounds.items
            ≡ 0 ∷ length codes.bytes.items ∷ []) }
    {
        let bytes = packed(alloc, code)?;
        let bounds = Vec::from_array(alloc, [0, bytes.len()])?;
        Ok(Codes { bytes, bounds })
    }

    /// Whether the place of this number has this one.
    pub fn is_of(&self, place: u32, packed: &[u8]) -> bool
        ensures { result ≡ true → IsKept self.now place packed.now }
    {
        let at = place as usize;
        if at + 1 >= self.bounds.len() {
            return false;
        }
        match self
            .bytes
            .as_slice()
            .get(self.bounds[at]..self.bounds[at + 1])
        {
            Some(bytes) => bytes == packed,
            None => false,
        }
    }

    /// That of one place more.
    pub fn push(&mut self, packed: &[u8]) -> Result<(), AllocError>
        ensures bytes { OnOk result (self.new.bytes.items ≡ self.old.bytes.items ++ packed.now) }
        ensures bounds { OnOk result (self.new.bounds.items
            ≡ self.old.bounds.items ++ length self.new.bytes.items ∷ []) }
    {
        self.bytes.extend_from_slice(packed)?;
        self.bounds.push(self.bytes.len())?;
        Ok(())
    }
}
