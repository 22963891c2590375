//! Reads the entries of a trace.
ghost use Rattle.std.specs.Prelude.{◌≡◌, ◌<◌, ◌++◌, IfSome, IfNone, length};
ghost use Rattle.trace_print.specs.Text.{text_of_entry};
ghost use Rattle.trace_reader.specs.Line.{IsBuilt};
ghost use Rattle.trace_reader.specs.Trace.{IsNoLine};

use crate::first_words::Words;
use crate::line::entry_in;
use crate::part::first_line;
use ipc_ids::Entry;
use trace_print::Comparison;

/// What reads entries one after the other. It takes no memory.
#[derive(Drop)]
pub struct Reader<'a> {
    words: Words<'a>,
    comparison: Comparison<'a>,
}

impl<'a> Reader<'a> {
    /// Before the first entry.
    pub fn new() -> Reader<'a> {
        Reader {
            words: Words::new(),
            comparison: Comparison::new(),
        }
    }

    /// The entry whose text the bytes begin with, and the bytes behind it; `None` where they begin
    /// with that of none, as no bytes do.
    pub fn first_entry(&mut self, bytes: &'a [u8]) -> Option<(Entry, &'a [u8])>
        ensures some { IfSome result (λ first. bytes.now ≡ text_of_entry first.0 ++ first.1.now) }
        ensures built { IfSome result (λ first. IsBuilt first.0) }
        ensures shorter { IfSome result (λ first. length first.1.now < length bytes.now) }
        ensures none { IfNone result (IsNoLine bytes.now) }
    {
        self.words.clear();
        let count = first_line(bytes, &mut self.words);
        if count == bytes.len() {
            return None;
        }
        let entry = entry_in(&self.words);
        if self.comparison.is_of(&entry, &bytes[..count]) {
            Some((entry, &bytes[count + 1..]))
        } else {
            None
        }
    }
}
