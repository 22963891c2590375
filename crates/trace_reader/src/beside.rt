//! Calls that the program does not make, for who uses the crate alone: a whole trace, and one line.
//! The program has a `Reader` give it one entry after the other.
ghost use Rattle.std.specs.Prelude.{◌≡◌, ◌≢◌, ◌++◌, ◌∷◌, [], List, ℕ, Ok, Err, IfOk, IfSome, IfNone};
ghost use Rattle.ipc_ids.specs.declared.entry.Entry.{Entry};
ghost use Rattle.trace_print.specs.Text.{text_of, text_of_entry};
ghost use Rattle.trace_reader.specs.Line.{IsBuilt};
ghost use Rattle.trace_reader.specs.Read.{HasWords, texts};
ghost use Rattle.trace_reader.specs.Trace.{IsFirstBad, IsTrace, AreBuilt, IsOnly};

use crate::first_words::Words;
use crate::line::entry_in;
use crate::part::first_line;
use crate::trace::Reader;
use ipc_ids::{Entry, NoMemory, Trace};
use std::alloc::Global;
use trace_print::Comparison;

/// Why bytes are no trace.
#[derive(Clone, Copy, Debug, PartialEq, Eq)]
pub enum TraceFault {
    /// The first line, from 1 on, that is the text of no entry, or lacks its line feed.
    Bad { line: u64 },
    /// Memory ran out.
    NoMemory,
}

/// The entries whose text the bytes are: no other entries without a refusal that says EOK have it.
///
/// # Errors
///
/// `Bad` just where the bytes are the text of no entries, with the first line that is none's text or
/// lacks its line feed; `NoMemory` where memory ran out, which may come for any bytes.
pub fn read_trace(alloc: Global, bytes: &[u8]) -> Result<Trace, TraceFault>
    ensures read { IfOk result (λ trace. IsTrace trace.entries bytes.now) }
    ensures only { (es : List Entry) → AreBuilt es → text_of es ≡ bytes.now → IsOnly es result }
    ensures bad { (line : ℕ) → result ≡ Err (TraceFault.Bad line) → IsFirstBad bytes.now line }
{
    let mut trace = Trace::new(alloc);
    let mut reader = Reader::new();
    let mut rest = bytes;
    while !rest.is_empty() {
        match reader.first_entry(rest) {
            Some((entry, behind)) => {
                if trace.reserve(1).is_err() {
                    return Err(TraceFault::NoMemory);
                }
                trace.push(entry);
                rest = behind;
            }
            None => {
                return Err(TraceFault::Bad {
                    line: trace.entries().len() as u64 + 1,
                })
            }
        }
    }
    Ok(trace)
}

/// The entry whose text is this line, which has these words, and a line feed.
fn entry_of<'a>(words: &Words, line: &'a [u8], comparison: &mut Comparison<'a>) -> Option<Entry>
    requires { HasWords (texts words.now) line.now }
    ensures some { IfSome result (λ e. text_of_entry e ≡ line.now ++ 10 ∷ []) }
    ensures built { IfSome result (λ e. IsBuilt e) }
    ensures none { IfNone result ((e : Entry) → IsBuilt e → text_of_entry e ≡ line.now ++ 10 ∷ []
        → ⊥) }
{
    let entry = entry_in(words);
    if comparison.is_of(&entry, line) {
        Some(entry)
    } else {
        None
    }
}

/// The entry whose text is this line and a line feed; `None` where the line is the text of no entry
/// whose values fit their types. `= EOK` is read as `Done`. It takes no memory.
pub fn read_entry(line: &[u8]) -> Option<Entry>
    ensures some { IfSome result (λ e. text_of_entry e ≡ line.now ++ 10 ∷ []) }
    ensures built { IfSome result (λ e. IsBuilt e) }
    ensures none { IfNone result ((e : Entry) → IsBuilt e → text_of_entry e ≡ line.now ++ 10 ∷ []
        → ⊥) }
{
    let mut words = Words::new();
    let count = first_line(line, &mut words);
    if count < line.len() {
        return None;
    }
    entry_of(&words, line, &mut Comparison::new())
}
