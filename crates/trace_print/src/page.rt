//! Text in room for so many bytes.
ghost use Rattle.std.specs.Prelude.{◌≡◌, ◌+◌, ◌-◌, ◌≤◌, ◌==◌, [], length};

use crate::text::Text;
use std::marker::Model;

/// Text in room for `SIZE` bytes, which lie in the value itself. Contracts see the bytes of the text.
#[derive(Drop)]
pub struct Page<const SIZE: usize> {
    bytes: [u8; SIZE],
    len: usize,
}

impl<const SIZE: usize> Model for Page<SIZE> {
    ghost use Rattle.std.specs.Prelude.{◌≡◌, ◌≤◌, ℕ, List, length, take};

    ghost Value = { List ℕ };

    ghost view = { λ page. take page.len page.bytes };

    ghost invariant = { λ page. (page.len ≤ SIZE) × (length page.bytes ≡ SIZE) };
}

impl<const SIZE: usize> Page<SIZE> {
    /// No text.
    pub fn new() -> Page<SIZE>
        ensures { result ≡ [] }
    {
        Page {
            bytes: [0; SIZE],
            len: 0,
        }
    }

    /// The bytes of the text.
    pub fn as_slice(&self) -> &[u8]
        ensures text { result.now ≡ self.now }
        ensures fits { length self.now ≤ SIZE }
    {
        &self.bytes[..self.len]
    }

    /// Whether there is no text.
    #[inline]
    pub(crate) fn is_empty(&self) -> bool
        ensures { result ≡ (length self.now == 0) }
    {
        self.len == 0
    }

    /// For how many bytes more there is room.
    pub fn room(&self) -> usize
        ensures { result + length self.now ≡ SIZE }
    {
        SIZE - self.len
    }

    /// Takes all text out.
    pub fn clear(&mut self)
        ensures { self.new ≡ [] }
    {
        self.len = 0;
    }
}

impl<const SIZE: usize> Text for Page<SIZE> {
    ghost bytes = { λ page. page };

    ghost left = { λ page. SIZE - length page };

    #[inline(always)]
    fn push(&mut self, byte: u8) {
        let len = self.len;
        self.bytes[len] = byte;
        self.len = len + 1;
    }

    #[inline(always)]
    fn extend(&mut self, more: &[u8]) {
        let (len, end) = (self.len, self.len + more.len());
        let bytes = &mut self.bytes[..];
        bytes[len..end].copy_from_slice(more);
        self.len = end;
    }
}
