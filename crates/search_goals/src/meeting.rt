//! Whether the entries of an event meet a goal.
ghost use Rattle.std.specs.Prelude.{◌≡◌, ◌∷◌, [], ◌<◌, length, IfSome, IfNone};
ghost use Rattle.std.specs.List.{list_any};
ghost use Rattle.std.specs.Str.{bytes_eq};
ghost use Rattle.search_goals.specs.Goals.{text_words, fits, begins, entry_fits, meets_line, listed};

use crate::stops::{Stop, cut_at};
use ipc_ids::Entry;
use trace_print::{Page, push_entry};

/// The first word, and what stands behind it; `None` where there is none.
pub(crate) fn next_word(text: &[u8]) -> Option<(&[u8], &[u8])>
    ensures some { IfSome result (λ cut. text_words text.now ≡ cut.0.now ∷ text_words cut.1.now) }
    ensures none { IfNone result (text_words text.now ≡ []) }
    ensures shorter { IfSome result (λ cut. length cut.1.now < length text.now) }
{
    let (_, rest) = cut_at(Stop::Word, text);
    let (word, others) = cut_at(Stop::Gap, rest);
    if word.is_empty() {
        return None;
    }
    Some((word, others))
}

/// Whether two words are the same.
pub(crate) fn is_word(word: &[u8], other: &[u8]) -> bool
    ensures { result ≡ bytes_eq word.now other.now }
{
    word == other
}

/// Whether a word is the one that is asked for, or any is.
fn fits(asked: &[u8], word: &[u8]) -> bool
    ensures { result ≡ fits asked.now word.now }
{
    is_word(asked, b"*") || is_word(asked, word)
}

/// Whether the words of a text begin with those that are asked for.
fn begins(asked: &[Vec<u8>], text: &[u8]) -> bool
    ensures { result ≡ begins (listed asked.now) (text_words text.now) }
{
    let mut rest = text;
    for word in asked {
        match next_word(rest) {
            None => return false,
            Some((found, others)) => {
                if !fits(word.as_slice(), found) {
                    return false;
                }
                rest = others;
            }
        }
    }
    true
}

/// Whether the line of an entry begins with these words, where `*` is any word. Takes no memory.
pub fn entry_fits(asked: &[Vec<u8>], entry: &Entry) -> bool
    ensures { result ≡ entry_fits (listed asked.now) entry.now }
{
    let mut page = Page::<256>::new();
    push_entry(entry, &mut page);
    begins(asked, page.as_slice())
}

/// Whether the line of some entry begins with these words.
fn any_fits(asked: &[Vec<u8>], entries: &[Entry]) -> bool
    ensures { result ≡ list_any (entry_fits (listed asked.now)) entries.now }
{
    for entry in entries {
        if entry_fits(asked, entry) {
            return true;
        }
    }
    false
}

/// Whether the first line of an event begins with the words of `head`, and some line of it with
/// those that are asked for. Takes no memory.
pub fn meets_line(head: &[Vec<u8>], asked: &[Vec<u8>], entries: &[Entry]) -> bool
    ensures { result ≡ meets_line (listed head.now) (listed asked.now) entries.now }
{
    match entries {
        [] => false,
        [first, ..] => entry_fits(head, first) && any_fits(asked, entries),
    }
}
