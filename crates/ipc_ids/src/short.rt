//! Short strings of bytes.
ghost use Rattle.std.specs.Prelude.{◌≡◌, ◌≤◌, ◌↔◌, length, IsSome, IfSome, nat_eq};
ghost use Rattle.std.specs.Cmp.{partial_equiv_from_equiv};
ghost use Rattle.std.specs.Cmp.Lexicographic.{pointwise, nat_list_eq_equiv};

use arrayvec::ArrayVec;
use std::marker::Model;

/// Up to 64 bytes, which take no memory of their own. Contracts see them as a list.
#[derive(Drop)]
pub struct Short {
    bytes: ArrayVec<u8, 64>,
}

impl Model for Short {
    ghost use Rattle.std.specs.Prelude.{◌≤◌, ℕ, List, length};

    ghost Value = { List ℕ };

    ghost view = { λ short. short.bytes.items };

    ghost invariant = { λ short. length short.bytes.items ≤ 64 };
}

impl PartialEq for Short {
    ghost eq = { pointwise nat_eq };

    ghost laws = { partial_equiv_from_equiv nat_list_eq_equiv };

    fn eq(&self, other: &Short) -> bool {
        self.as_slice() == other.as_slice()
    }
}

impl Eq for Short {
    ghost laws = { nat_list_eq_equiv };
}

impl Short {
    /// These bytes; `None` where there are more than 64. It takes no memory.
    pub fn from_slice(bytes: &[u8]) -> Option<Short>
        ensures fits { IsSome result ↔ (length bytes.now ≤ 64) }
        ensures bytes { IfSome result (λ short. short ≡ bytes.now) }
    {
        let mut short = ArrayVec::new();
        match short.try_extend_from_slice(bytes) {
            Ok(()) => Some(Short { bytes: short }),
            Err(_) => None,
        }
    }

    /// The bytes in their order, 64 at most.
    pub fn as_slice(&self) -> &[u8]
        ensures bytes { result.now ≡ self.now }
        ensures few { length result.now ≤ 64 }
    {
        self.bytes.as_slice()
    }

    /// The same bytes once more.
    pub fn copy(&self) -> Short
        ensures { result ≡ self.now }
    {
        Short::from_slice(self.as_slice()).unwrap()
    }
}
