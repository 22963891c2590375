//! Replays a schedule over a script of tasks that call each other, and writes what happened; or runs
//! generated input, and sums it up; or checks a trace.
#![tactic(auto)]

ghost use Rattle.std.specs.Prelude.{◌≡◌, ◌≤◌, ◌<◌, ◌⊎◌};
ghost use Rattle.std.specs.Io.KnownBytes.{Keeps};
ghost use Rattle.std.specs.Process.{exit_status};
ghost use Rattle.io_edge.specs.Edge.{Rose};
ghost use Rattle.command_line.specs.declared.status.Status.{Status};
ghost use Rattle.command_line.specs.declared.status.Status.TheVariants.{Done, BadTrace, WriteFailed, NoMemory as Memory};
ghost use Rattle.command_line.specs.Command.{texts};
ghost use Rattle.command_line.specs.Due.{files_of, Due, Whole, Part, LosesOneAtMost};
ghost use Rattle.command_line.specs.LawfulRun.{WritesLawfulRunOf, RefusesTraceOf};
ghost use Rattle.command_line.specs.Status.{number_of};

use command_line::{Status, run};
use io_edge::{FileShelf, OutSink, Shelf, Sink, words_behind_name};
use ipc_ids::NoMemory;
use std::alloc::Global;
use std::process::ExitCode;
use std::rt::Env;

// Does what the words of a command line ask, and says how the process ends.
#[tactic(auto, using(crate::proofs::Numbers::same_status))]
fn answer<S: Shelf, K: Sink>(
    alloc: Global,
    words: &[String],
    shelf: &mut S,
    sink: &mut K,
) -> ExitCode
    // It ends with the number of a status. But for WriteFailed and NoMemory, that status is the one
    // that is due, its text written whole.
    ensures whole { (status : Status) × (exit_status result ≡ number_of status) × Whole
        (Due (texts words.now) (S.files shelf.old) (S.failed shelf.old) (S.failed shelf.new))
        (K.written sink.old) (K.written sink.new) status }
    // Else a prefix of a text that is due was written; after want of memory maybe nothing.
    ensures part { exit_status result ≡ number_of WriteFailed → Part
        (Due (texts words.now) (S.files shelf.old) (S.failed shelf.old) (S.failed shelf.new))
        (K.written sink.old) (K.written sink.new) }
    ensures memory { exit_status result ≡ number_of Memory →
        Keeps (K.written sink.old) (K.written sink.new) ⊎ Part
        (Due (texts words.now) (S.files shelf.old) (S.failed shelf.old) (S.failed shelf.new))
        (K.written sink.old) (K.written sink.new) }
    // Where the sink's count of faults rose, it is the number of WriteFailed, or of NoMemory; and
    // that of WriteFailed comes only there, or from a sink that was spent before the call.
    ensures write_failed { exit_status result ≡ number_of WriteFailed →
        Rose (K.faults sink.old) (K.faults sink.new) }
    ensures risen { K.faults sink.old < K.faults sink.new →
        (exit_status result ≡ number_of WriteFailed) ⊎ (exit_status result ≡ number_of Memory) }
    ensures later { K.faults sink.old ≤ K.faults sink.new }
    ensures files { S.files shelf.new ≡ S.files shelf.old }
    ensures failed { LosesOneAtMost (files_of (texts words.now))
        (S.failed shelf.old) (S.failed shelf.new) }
    ensures laws { exit_status result ≡ number_of Done →
        WritesLawfulRunOf (texts words.now) (S.files shelf.old)
        (K.written sink.old) (K.written sink.new) }
    ensures refused { exit_status result ≡ number_of BadTrace →
        RefusesTraceOf (texts words.now) (S.files shelf.old) }
{
    run(alloc, words, shelf, sink).exit_code()
}

fn main(rt: HostRuntime) -> ExitCode {
    match words_behind_name(&rt, rt.alloc()) {
        Ok(words) => {
            let mut shelf = FileShelf::new(&rt, rt.alloc());
            let mut sink = OutSink::new(rt.stdout());
            answer(rt.alloc(), &words, &mut shelf, &mut sink)
        }
        Err(NoMemory) => Status::NoMemory.exit_code(),
    }
}
