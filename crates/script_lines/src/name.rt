//! Names of tasks.
ghost use Rattle.std.specs.Prelude.{◌≡◌};
ghost use Rattle.std.specs.List.{list_all};
ghost use Rattle.script_lines.specs.Names.{ns_name};
ghost use Rattle.script_lines.specs.Word.{is_name, is_name_byte, name_of};

use arrayvec::ArrayVec;
use std::marker::Model;

/// The name of a task: 1 to 15 bytes, each `a` to `z`, `0` to `9` or `_`, the first a letter.
/// Contracts see it as the list of its bytes.
#[derive(Drop)]
pub struct Name {
    text: ArrayVec<u8, 15>,
}

impl Model for Name {
    ghost use Rattle.std.specs.Prelude.{◌≡◌, List, ℕ, true};
    ghost use Rattle.script_lines.specs.Word.{is_name};

    ghost Value = { List ℕ };

    ghost view = { λ name. name.text.items };

    ghost invariant = { λ name. is_name name.text.items ≡ true };
}

/// Whether a byte may stand in a name.
pub fn is_name_byte(byte: u8) -> bool
    ensures { result ≡ is_name_byte byte }
{
    byte.is_ascii_lowercase() || byte.is_ascii_digit() || byte == b'_'
}

fn all_name_bytes(word: &[u8]) -> bool
    ensures { result ≡ list_all is_name_byte word.now }
{
    word.iter().all(|byte| is_name_byte(*byte))
}

/// Whether a word is a name.
#[tactic(auto, unfolding(crate::specs::Word::is_name))]
pub fn is_name(word: &[u8]) -> bool
    ensures { result ≡ is_name word.now }
{
    match word {
        [first, ..] => first.is_ascii_lowercase() && word.len() <= 15 && all_name_bytes(word),
        [] => false,
    }
}

impl Name {
    /// The name that these bytes are, or `None` where they are no name. Takes no memory.
    #[tactic(auto, unfolding(crate::specs::Word::is_name, crate::specs::Word::name_of))]
    pub fn from_slice(bytes: &[u8]) -> Option<Name>
        ensures { result ≡ name_of bytes.now }
    {
        if !is_name(bytes) {
            return None;
        }
        let mut text = ArrayVec::new();
        text.try_extend_from_slice(bytes).ok()?;
        Some(Name { text })
    }

    /// The name of the naming service.
    #[tactic(auto, unfolding(crate::specs::Word::is_name))]
    pub fn ns() -> Name
        ensures { result ≡ ns_name }
    {
        let mut text = ArrayVec::new();
        text.push(b'n');
        text.push(b's');
        Name { text }
    }

    /// The same name once more.
    #[tactic(auto, unfolding(crate::specs::Word::name_of))]
    pub fn copy(&self) -> Name
        ensures { result ≡ self.now }
    {
        Name::from_slice(self.text.as_slice()).unwrap()
    }

    /// The bytes of the name.
    pub fn as_slice(&self) -> &[u8]
        ensures { result.now ≡ self.now }
    {
        self.text.as_slice()
    }
}
