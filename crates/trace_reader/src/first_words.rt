//! The words of a line.
ghost use Rattle.std.specs.Prelude.{◌≡◌, ◌≤◌, ◌<◌, ◌==◌, ◌++◌, ◌∷◌, [], length};
ghost use Rattle.trace_reader.specs.Read.{nth, texts};

use std::marker::Model;

/// The first words of a line, thirteen at most, as no entry has more. Contracts see these words.
#[derive(Drop)]
pub struct Words<'a> {
    words: [&'a [u8]; 13],
    count: usize,
}

impl<'a> Model for Words<'a> {
    ghost use Rattle.std.specs.Prelude.{◌≡◌, ◌≤◌, ℕ, List, length, take};
    ghost use Rattle.std.specs.Borrow.{Bor};

    ghost Value = { List (Bor (List ℕ)) };

    ghost view = { λ words. take words.count words.words };

    ghost invariant = { λ words. (words.count ≤ 13) × (length words.words ≡ 13) };
}

impl<'a> Words<'a> {
    /// No words.
    pub fn new() -> Words<'a>
        ensures { result ≡ [] }
    {
        Words {
            words: [&[]; 13],
            count: 0,
        }
    }

    /// Takes all words out.
    pub fn clear(&mut self)
        ensures { self.new ≡ [] }
    {
        self.count = 0;
    }

    /// Whether there is room for no more.
    pub fn is_full(&self) -> bool
        ensures value { result ≡ (length self.now == 13) }
        ensures fits { length self.now ≤ 13 }
    {
        self.count == 13
    }

    /// Adds a word.
    #[inline(always)]
    pub fn push(&mut self, word: &'a [u8])
        requires { length self.old < 13 }
        ensures { self.new ≡ self.old ++ word.entry ∷ [] }
    {
        let count = self.count;
        self.words[count] = word;
        self.count = count + 1;
    }

    /// The word with this index; no bytes where there is none.
    #[inline(always)]
    pub fn word(&self, index: usize) -> &'a [u8]
        ensures { result.now ≡ nth (texts self.now) index }
    {
        if index < self.count {
            self.words[index]
        } else {
            &[]
        }
    }
}
