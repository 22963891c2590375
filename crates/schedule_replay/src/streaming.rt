//! The run of a script under the events of a feed, written event by event.
ghost use Rattle.std.specs.Prelude.{◌≡◌, ◌≤◌, ◌<◌, ◌⊎◌, [], length, OnOk, OnErr, IsErr, IsErrOf};
ghost use Rattle.std.specs.Io.KnownBytes.{Appends};
ghost use Rattle.io_edge.specs.Edge.{AppendsStart, Rose};
ghost use Rattle.trace_print.specs.Text.{text_of};
ghost use Rattle.script_reader.specs.Schedule.{MayAllCome};
ghost use Rattle.task_system.specs.Run.{run};
ghost use Rattle.run_laws.specs.LawfulRun.{IsLawfulRun};
ghost use Rattle.schedule_replay.specs.Streaming.{KeepsUp};
ghost use Rattle.schedule_replay.specs.declared.streaming.ReplayFault.TheVariants as fault;

use crate::feed::Feed;
use crate::machine::Replay;
use crate::text_buffer::TextBuffer;
use io_edge::{PutFailed, Sink};
use ipc_ids::{NoMemory, Trace};
use script_reader::Script;
use std::alloc::Global;
use thiserror::Error;

/// Why a replay ended early.
#[derive(Clone, Copy, Debug, PartialEq, Eq, Drop, Error)]
pub enum ReplayFault {
    /// A piece of the text was not written whole.
    #[error("cannot write")]
    Sink,
    /// Memory was wanted and not found.
    #[error("out of memory")]
    NoMemory,
}

impl From<PutFailed> for ReplayFault {
    ghost from_gives = { λ _ e. e ≡ fault.Sink };

    fn from(_: PutFailed) -> Self {
        ReplayFault::Sink
    }
}

impl From<NoMemory> for ReplayFault {
    ghost from_gives = { λ _ e. e ≡ fault.NoMemory };

    fn from(_: NoMemory) -> Self {
        ReplayFault::NoMemory
    }
}

/// Runs the events that the feed has left on the tasks of a script, one after the other, and
/// writes the text of each on the way, through a buffer of 4,096 bytes.
///
/// # Errors
///
/// `Sink` where a put failed; no event is taken after it. `NoMemory` where no memory was found, at
/// the start or in an event; the text of the events before that one is written, if the sink takes
/// it.
#[inline(always)]
pub fn replay<F: Feed, K: Sink>(
    alloc: Global,
    script: &Script,
    feed: &mut F,
    sink: &mut K,
) -> Result<(), ReplayFault>
    requires few { length (F.left feed.old) ≤ 65536 }
    requires may { MayAllCome (length script.now.tasks) (length script.now.templates)
        (F.left feed.old) }
    // With Ok the whole text of the run was written, and no event is left; else a prefix of it.
    ensures ok { OnOk result (Appends (K.written sink.old) (K.written sink.new)
        (text_of (run script.now (F.left feed.old)))) }
    ensures end { OnOk result (F.left feed.new ≡ []) }
    ensures err { OnErr result (AppendsStart (K.written sink.old) (K.written sink.new)
        (text_of (run script.now (F.left feed.old)))) }
    // After an error the text of the events that were taken, the last one left out, is at most
    // 4,096 bytes longer than what was written; after want of memory it was written whole, unless
    // a put failed too.
    ensures keeps_up { OnErr result (KeepsUp 4096 script.now (F.left feed.old) (F.left feed.new)
        (K.written sink.old) (K.written sink.new)) }
    ensures memory { IsErrOf result fault.NoMemory → Rose (K.faults sink.old) (K.faults sink.new)
        ⊎ KeepsUp 0 script.now (F.left feed.old) (F.left feed.new)
        (K.written sink.old) (K.written sink.new) }
    // Sink comes where the sink's count of faults rose, or stood at its last value.
    ensures cause { IsErrOf result fault.Sink → Rose (K.faults sink.old) (K.faults sink.new) }
    ensures risen { K.faults sink.old < K.faults sink.new → IsErr result }
    ensures later { K.faults sink.old ≤ K.faults sink.new }
    // The run keeps the laws, and no fibril of it loses a wake-up.
    ensures lawful { IsLawfulRun script.now (F.left feed.old) }
{
    // The proof rests on what every script keeps.
    let _tasks = &script.tasks;
    let mut buffer = TextBuffer::new();
    let mut replay = Replay::new(alloc, script)?;
    let mut trace = Trace::new(alloc);
    while let Some(event) = feed.next() {
        trace.clear();
        match replay.step(&event, &mut trace) {
            Ok(()) => {}
            Err(NoMemory) => {
                replay.close();
                buffer.try_flush(sink);
                return Err(ReplayFault::NoMemory);
            }
        }
        match buffer.write_entries(trace.entries(), sink) {
            Ok(()) => {}
            Err(PutFailed) => {
                replay.close();
                return Err(ReplayFault::Sink);
            }
        }
    }
    replay.close();
    buffer.flush(sink)?;
    Ok(())
}
