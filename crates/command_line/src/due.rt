//! Does what is due for a command line: words, files, and the sink that takes the text.
ghost use Rattle.std.specs.Prelude.{◌≡◌, ◌≢◌, ◌≤◌, ◌<◌, ◌++◌, ◌⊎◌, ◌∷◌, [], IfOk, Some};
ghost use Rattle.std.specs.Io.KnownBytes.{Appends, Keeps};
ghost use Rattle.io_edge.specs.Edge.{AppendsStart, Rose};
ghost use Rattle.command_line.specs.Command.{texts};
ghost use Rattle.command_line.specs.Due.{files_of, cannot_line, Due, DueForFiles, DueForTraceFile, lost, Whole, Part, LosesOneAtMost};
ghost use Rattle.command_line.specs.LawfulRun.{WritesLawfulRunOf, WritesLawfulRunOfFiles, RefusesTraceOf, HasLawfulTrace, HasNoLawfulTrace};
ghost use Rattle.command_line.specs.declared.status.Status.TheVariants.{Done, CannotRead, BadTrace, WriteFailed, NoMemory as Memory};

use crate::Status;
use crate::answer::{replay_bytes, tell};
use crate::check::check_bytes;
use crate::command::{Command, command_of};
use crate::summary::tell_summary;
use io_edge::{LoadFault, Shelf, Sink};
use ipc_ids::NoMemory;
use std::alloc::Global;

// One more byte than a file may have, so that a longer one shows.
const MOST: usize = 1_048_577;

// The same of a trace.
const MOST_TRACE: usize = 16_777_217;

const USAGE: &[u8] = b"usage: hipc replay SCRIPT SCHEDULE\n";

// The line that names a file that could not be loaded.
fn cannot_text(alloc: Global, name: &str) -> Result<Vec<u8>, NoMemory>
    ensures { IfOk result (λ text. text.items ≡ cannot_line name.now) }
{
    let text = format!(in alloc; "cannot read {name}\n")?;
    Ok(text.into_bytes())
}

// Tells that a file could not be loaded.
fn tell_cannot<K: Sink>(alloc: Global, name: &str, sink: &mut K) -> Status
    ensures ok { result ≢ WriteFailed → result ≢ Memory → (result ≡ CannotRead)
        × Appends (K.written sink.old) (K.written sink.new) (cannot_line name.now) }
    ensures part { result ≡ WriteFailed →
        AppendsStart (K.written sink.old) (K.written sink.new) (cannot_line name.now) }
    ensures memory { result ≡ Memory → Keeps (K.written sink.old) (K.written sink.new) }
    ensures cause { result ≡ WriteFailed → Rose (K.faults sink.old) (K.faults sink.new) }
    ensures risen { K.faults sink.old < K.faults sink.new → result ≡ WriteFailed }
    ensures later { K.faults sink.old ≤ K.faults sink.new }
{
    match cannot_text(alloc, name) {
        Ok(text) => tell(Status::CannotRead, &text, sink),
        Err(NoMemory) => Status::NoMemory,
    }
}

// Loads the two files, the script first, and replays them.
fn replay_files<S: Shelf, K: Sink>(
    alloc: Global,
    script: &str,
    schedule: &str,
    shelf: &mut S,
    sink: &mut K,
) -> Status
    ensures whole { Whole
        (DueForFiles (S.files shelf.old) (S.failed shelf.old) (S.failed shelf.new)
        script.now schedule.now)
        (K.written sink.old) (K.written sink.new) result }
    ensures part { result ≡ WriteFailed → Part
        (DueForFiles (S.files shelf.old) (S.failed shelf.old) (S.failed shelf.new)
        script.now schedule.now)
        (K.written sink.old) (K.written sink.new) }
    ensures memory { result ≡ Memory → Keeps (K.written sink.old) (K.written sink.new) ⊎ Part
        (DueForFiles (S.files shelf.old) (S.failed shelf.old) (S.failed shelf.new)
        script.now schedule.now)
        (K.written sink.old) (K.written sink.new) }
    ensures write_failed { result ≡ WriteFailed → Rose (K.faults sink.old) (K.faults sink.new) }
    ensures risen { K.faults sink.old < K.faults sink.new →
        (result ≡ WriteFailed) ⊎ (result ≡ Memory) }
    ensures later { K.faults sink.old ≤ K.faults sink.new }
    ensures files { S.files shelf.new ≡ S.files shelf.old }
    ensures failed { LosesOneAtMost (Some (script.now, schedule.now))
        (S.failed shelf.old) (S.failed shelf.new) }
    ensures laws { result ≡ Done → WritesLawfulRunOfFiles (S.files shelf.old)
        script.now schedule.now (K.written sink.old) (K.written sink.new) }
    ensures other { result ≢ BadTrace }
{
    let first = match shelf.load(alloc, script, MOST) {
        Ok(bytes) => bytes,
        Err(LoadFault::Failed) => return tell_cannot(alloc, script, sink),
        Err(LoadFault::NoMemory) => return Status::NoMemory,
    };
    let second = match shelf.load(alloc, schedule, MOST) {
        Ok(bytes) => bytes,
        Err(LoadFault::Failed) => return tell_cannot(alloc, schedule, sink),
        Err(LoadFault::NoMemory) => return Status::NoMemory,
    };
    replay_bytes(alloc, &first, &second, sink)
}

// Loads the file of a trace, and checks it.
fn check_file<S: Shelf, K: Sink>(alloc: Global, trace: &str, shelf: &mut S, sink: &mut K) -> Status
    ensures whole { Whole (DueForTraceFile (S.files shelf.old) trace.now
        (lost (S.failed shelf.old) (S.failed shelf.new) trace.now))
        (K.written sink.old) (K.written sink.new) result }
    ensures part { result ≡ WriteFailed → Part (DueForTraceFile (S.files shelf.old) trace.now
        (lost (S.failed shelf.old) (S.failed shelf.new) trace.now))
        (K.written sink.old) (K.written sink.new) }
    ensures memory { result ≡ Memory → Keeps (K.written sink.old) (K.written sink.new) }
    ensures write_failed { result ≡ WriteFailed → Rose (K.faults sink.old) (K.faults sink.new) }
    ensures risen { K.faults sink.old < K.faults sink.new → result ≡ WriteFailed }
    ensures later { K.faults sink.old ≤ K.faults sink.new }
    ensures files { S.files shelf.new ≡ S.files shelf.old }
    ensures failed { LosesOneAtMost (Some (trace.now, trace.now))
        (S.failed shelf.old) (S.failed shelf.new) }
    ensures done { result ≡ Done → HasLawfulTrace (S.files shelf.old) trace.now }
    ensures bad { result ≡ BadTrace → HasNoLawfulTrace (S.files shelf.old) trace.now }
{
    match shelf.load(alloc, trace, MOST_TRACE) {
        Ok(bytes) => check_bytes(alloc, &bytes, sink),
        Err(LoadFault::Failed) => tell_cannot(alloc, trace, sink),
        Err(LoadFault::NoMemory) => Status::NoMemory,
    }
}

/// Does what the words of a command line ask: `replay SCRIPT SCHEDULE` loads the two files from the
/// shelf and writes the text of their run, or the line of what is wrong; `gen SEED EVENTS` runs
/// generated input and writes the line that sums it up.
pub fn run<S: Shelf, K: Sink>(
    alloc: Global,
    words: &[String],
    shelf: &mut S,
    sink: &mut K,
) -> Status
    // But for WriteFailed and NoMemory, the status is the one that is due, its text written whole.
    ensures whole { Whole
        (Due (texts words.now) (S.files shelf.old) (S.failed shelf.old) (S.failed shelf.new))
        (K.written sink.old) (K.written sink.new) result }
    // Else a prefix of a text that is due was written; after want of memory maybe nothing.
    ensures part { result ≡ WriteFailed → Part
        (Due (texts words.now) (S.files shelf.old) (S.failed shelf.old) (S.failed shelf.new))
        (K.written sink.old) (K.written sink.new) }
    ensures memory { result ≡ Memory → Keeps (K.written sink.old) (K.written sink.new) ⊎ Part
        (Due (texts words.now) (S.files shelf.old) (S.failed shelf.old) (S.failed shelf.new))
        (K.written sink.old) (K.written sink.new) }
    // Where the sink's count of faults rose, it is WriteFailed, or NoMemory; and WriteFailed comes
    // only there, or from a sink that was spent before the call.
    ensures write_failed { result ≡ WriteFailed → Rose (K.faults sink.old) (K.faults sink.new) }
    ensures risen { K.faults sink.old < K.faults sink.new →
        (result ≡ WriteFailed) ⊎ (result ≡ Memory) }
    ensures later { K.faults sink.old ≤ K.faults sink.new }
    // The shelf keeps its files, and no name but that of a file of the command comes to those that
    // failed.
    ensures files { S.files shelf.new ≡ S.files shelf.old }
    ensures failed { LosesOneAtMost (files_of (texts words.now))
        (S.failed shelf.old) (S.failed shelf.new) }
    // With Done, what was written is the text of a run that keeps the laws, or sums one up.
    ensures laws { result ≡ Done → WritesLawfulRunOf (texts words.now) (S.files shelf.old)
        (K.written sink.old) (K.written sink.new) }
    // A trace is refused only where its file has no text of entries that satisfy the laws.
    ensures refused { result ≡ BadTrace →
        RefusesTraceOf (texts words.now) (S.files shelf.old) }
{
    match command_of(words) {
        Some(Command::Replay(script, schedule)) => {
            replay_files(alloc, script, schedule, shelf, sink)
        }
        Some(Command::Generate(seed, events)) => tell_summary(alloc, seed, events, sink),
        Some(Command::Check(trace)) => check_file(alloc, trace, shelf, sink),
        None => tell(Status::Usage, USAGE, sink),
    }
}
