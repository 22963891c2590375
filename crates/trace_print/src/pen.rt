//! What the text of an entry is written with.
ghost use Rattle.std.specs.Prelude.{◌≡◌, ◌+◌, ◌≤◌, ◌++◌, ℕ, List, [], ◌∷◌, length, decimal, map};
ghost use Rattle.trace_print.specs.Text.{bytes_text};

use crate::bytes::push_bytes;
use crate::number::push_number;
use crate::text::Text;

/// What the text of an entry is written with: bytes that have room for it, or a count that only
/// needs to know how long it is.
pub trait Pen {
    /// What was written, as far as the pen keeps it.
    ghost seen: { Self → List ℕ };

    /// For how many bytes more there is room.
    ghost left: { Self → ℕ };

    /// What the pen keeps of a byte.
    ghost mark: { ℕ → ℕ };

    fn byte(&mut self, byte: u8)
        requires room { 1 ≤ left self.old }
        ensures text { seen self.new ≡ seen self.old ++ mark byte ∷ [] }
        ensures left { left self.old ≤ left self.new + 1 };

    fn word(&mut self, word: &[u8])
        requires room { length word.now ≤ left self.old }
        ensures text { seen self.new ≡ seen self.old ++ map mark word.now }
        ensures left { left self.old ≤ left self.new + length word.now };

    /// A number in decimal, of at most 20 digits.
    fn number(&mut self, number: u64)
        requires room { 20 ≤ left self.old }
        ensures text { seen self.new ≡ seen self.old ++ map mark (decimal number) }
        ensures left { left self.old ≤ left self.new + 20 };

    /// Bytes as digits in lower case, two for each, or `-` for none.
    fn bytes(&mut self, bytes: &[u8])
        requires few { length bytes.now ≤ 64 }
        requires room { 128 ≤ left self.old }
        ensures text { seen self.new ≡ seen self.old ++ map mark (bytes_text bytes.now) }
        ensures left { left self.old ≤ left self.new + 128 };
}

// Text keeps each byte as it is.
#[tactic(auto, using(crate::proofs::Marks::map_same))]
impl<T: Text> Pen for T {
    ghost seen = { T.bytes };

    ghost left = { T.left };

    ghost mark = { λ byte. byte };

    #[inline(always)]
    fn byte(&mut self, byte: u8) {
        self.push(byte);
    }

    #[inline(always)]
    fn word(&mut self, word: &[u8]) {
        self.extend(word);
    }

    #[inline(always)]
    fn number(&mut self, number: u64) {
        push_number(self, number);
    }

    fn bytes(&mut self, bytes: &[u8]) {
        push_bytes(self, bytes);
    }
}
