//! The text of entries on its way to a sink.
ghost use Rattle.std.specs.Prelude.{◌≡◌, ◌≤◌, ◌⊎◌, ◌++◌, [], length, OnOk, OnErr};
ghost use Rattle.std.specs.Io.KnownBytes.{Appends};
ghost use Rattle.io_edge.specs.Edge.{AppendsStart, Rose};
ghost use Rattle.trace_print.specs.Text.{text_of_entry, text_of};
ghost use Rattle.schedule_replay.specs.Streaming.{Sent};

use io_edge::{PutFailed, Sink};
use ipc_ids::Entry;
use std::marker::Model;
use trace_print::{Page, push_entry};

/// How many bytes a buffer holds.
const SIZE: usize = 4096;

/// No line of an entry is longer.
const LONGEST_LINE: usize = 256;

/// Text that waits for its put, in room for 4,096 bytes. Contracts see its bytes.
#[derive(Drop)]
pub struct TextBuffer {
    page: Page<SIZE>,
}

impl Model for TextBuffer {
    ghost use Rattle.std.specs.Prelude.{List, ℕ};

    ghost Value = { List ℕ };

    ghost view = { λ buffer. buffer.page };
}

impl TextBuffer {
    /// An empty buffer, with its whole room. It takes no memory.
    pub fn new() -> TextBuffer
        ensures { result ≡ [] }
    {
        TextBuffer { page: Page::new() }
    }

    /// Puts all bytes.
    pub fn flush<K: Sink>(&mut self, sink: &mut K) -> Result<(), PutFailed>
        ensures ok { OnOk result (Appends (K.written sink.old) (K.written sink.new) self.old) }
        ensures empty { OnOk result (self.new ≡ []) }
        ensures part { AppendsStart (K.written sink.old) (K.written sink.new) self.old }
        ensures short { length self.old ≤ 4096 }
        ensures none { OnOk result (K.faults sink.new ≡ K.faults sink.old) }
        ensures cause { OnErr result (Rose (K.faults sink.old) (K.faults sink.new)) }
        ensures later { K.faults sink.old ≤ K.faults sink.new }
    {
        match sink.put(self.page.as_slice()) {
            Ok(()) => {
                self.page.clear();
                Ok(())
            }
            Err(PutFailed) => Err(PutFailed),
        }
    }

    /// Puts all bytes, if the sink takes them.
    pub fn try_flush<K: Sink>(&mut self, sink: &mut K)
        ensures part { AppendsStart (K.written sink.old) (K.written sink.new) self.old }
        ensures whole { Rose (K.faults sink.old) (K.faults sink.new)
            ⊎ Appends (K.written sink.old) (K.written sink.new) self.old }
        ensures short { length self.old ≤ 4096 }
        ensures later { K.faults sink.old ≤ K.faults sink.new }
    {
        let _told = self.flush(sink);
    }

    /// Writes the line of an entry, through the buffer.
    fn write_entry<K: Sink>(&mut self, entry: &Entry, sink: &mut K) -> Result<(), PutFailed>
        ensures ok { OnOk result (Sent (K.written sink.old) (K.written sink.new)
            self.new (self.old ++ text_of_entry entry.now)) }
        ensures err { OnErr result (
            AppendsStart (K.written sink.old) (K.written sink.new) self.old) }
        ensures none { OnOk result (K.faults sink.new ≡ K.faults sink.old) }
        ensures cause { OnErr result (Rose (K.faults sink.old) (K.faults sink.new)) }
        ensures later { K.faults sink.old ≤ K.faults sink.new }
    {
        if self.page.room() < LONGEST_LINE {
            match self.flush(sink) {
                Ok(()) => {}
                Err(PutFailed) => return Err(PutFailed),
            }
        }
        push_entry(entry, &mut self.page);
        Ok(())
    }

    /// Writes the lines of entries, through the buffer.
    pub fn write_entries<K: Sink>(
        &mut self,
        entries: &[Entry],
        sink: &mut K,
    ) -> Result<(), PutFailed>
        ensures ok { OnOk result (Sent (K.written sink.old) (K.written sink.new)
            self.new (self.old ++ text_of entries.now)) }
        ensures err { OnErr result (AppendsStart (K.written sink.old) (K.written sink.new)
            (self.old ++ text_of entries.now)) }
        ensures short { length self.old ≤ 4096 }
        ensures none { OnOk result (K.faults sink.new ≡ K.faults sink.old) }
        ensures cause { OnErr result (Rose (K.faults sink.old) (K.faults sink.new)) }
        ensures later { K.faults sink.old ≤ K.faults sink.new }
    {
        // The proof rests on how many bytes a buffer holds at most.
        let _text = self.page.as_slice();
        for entry in entries {
            match self.write_entry(entry, sink) {
                Ok(()) => {}
                Err(PutFailed) => return Err(PutFailed),
            }
        }
        Ok(())
    }
}
