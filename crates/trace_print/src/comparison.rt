//! A line that is compared with a text as that is written, which takes no memory.
ghost use Rattle.std.specs.Prelude.{◌≡◌, ◌↔◌, ◌+◌, ◌-◌, ◌≤◌, ◌++◌, [], ◌∷◌, length, take, IsTrue};
ghost use Rattle.trace_print.specs.Comparison.{compared};

use crate::page::Page;
use crate::text::Text;

/// A line that is compared with a text: so many of its bytes were written, and then these others.
#[derive(Drop)]
pub struct Comparison<'a> {
    line: &'a [u8],
    same: usize,
    other: Page<256>,
    ghost within: { same ≤ length line.now },
}

/// The line begins with the word. A short one is compared byte by byte: where the word is known when
/// the code is compiled, no length is asked.
#[inline(always)]
fn begins_with(line: &[u8], word: &[u8]) -> bool
    ensures { IsTrue result → (length word.now ≤ length line.now)
        × (take (length word.now) line.now ≡ word.now) }
{
    if word.len() > 16 {
        return line.starts_with(word);
    }
    if line.len() < word.len() {
        return false;
    }
    for i in 0..word.len() {
        if line[i] != word[i] {
            return false;
        }
    }
    true
}

impl<'a> Comparison<'a> {
    /// Before any line and any text.
    pub fn new() -> Comparison<'a> {
        Comparison {
            line: &[],
            same: 0,
            other: Page::new(),
        }
    }

    /// Before any text, with another line.
    pub(crate) fn begin(&mut self, line: &'a [u8])
        ensures none { compared self.new.line.now self.new.same self.new.other
            ≡ length line.now ∷ line.now }
        ensures count { self.new.same + length self.new.other ≡ 0 }
    {
        self.line = line;
        self.same = 0;
        self.other.clear();
    }

    /// The text is the line and a line feed.
    pub(crate) fn is_whole(&self) -> bool
        ensures { IsTrue result ↔ (take self.now.same self.now.line.now ++ self.now.other
            ≡ self.now.line.now ++ 10 ∷ []) }
    {
        match self.other.as_slice().split_last() {
            Some((last, text)) => *last == b'\n' && text == &self.line[self.same..],
            None => false,
        }
    }
}

impl<'a> Text for Comparison<'a> {
    ghost bytes = { λ c. compared c.line.now c.same c.other };

    ghost left = { λ c. 256 - (c.same + length c.other) };

    #[inline(always)]
    fn push(&mut self, byte: u8) {
        if self.other.is_empty() && self.same < self.line.len() && self.line[self.same] == byte {
            self.same += 1;
        } else {
            self.other.push(byte);
        }
    }

    #[inline(always)]
    fn extend(&mut self, more: &[u8]) {
        if self.other.is_empty() && begins_with(&self.line[self.same..], more) {
            self.same += more.len();
        } else {
            self.other.extend(more);
        }
    }
}
