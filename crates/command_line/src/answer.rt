//! What is answered for the bytes of a script and a schedule.
ghost use Rattle.std.specs.Prelude.{◌≡◌, ◌≢◌, ◌≤◌, ◌<◌, ◌⊎◌, length, IfOk};
ghost use Rattle.std.specs.Io.KnownBytes.{Appends, Keeps};
ghost use Rattle.io_edge.specs.Edge.{AppendsStart, Rose};
ghost use Rattle.trace_print.specs.Text.{text_of};
ghost use Rattle.script_reader.specs.Schedule.{MayAllCome};
ghost use Rattle.task_system.specs.Run.{run};
ghost use Rattle.command_line.specs.Answer.{fault_line};
ghost use Rattle.command_line.specs.Due.{DueForBytes, DueForSchedule, Whole, Part};
ghost use Rattle.command_line.specs.LawfulRun.{WritesLawfulRun, WritesRun};
ghost use Rattle.command_line.specs.declared.status.Status.TheVariants.{Done, BadTrace, WriteFailed, NoMemory as Memory};

use crate::Status;
use io_edge::{PutFailed, Sink};
use ipc_ids::NoMemory;
use schedule_replay::{ReplayFault, replay};
use script_reader::{
    EventsLeft, Reason, RepeatedEvents, ScheduleFault, Script, ScriptFault, read_repeated_events,
    read_script,
};
use std::alloc::Global;

/// Writes a text, and answers the status; or `WriteFailed` if the text was not written whole.
pub fn tell<K: Sink>(status: Status, text: &[u8], sink: &mut K) -> Status
    requires { status ≢ WriteFailed }
    ensures ok { result ≢ WriteFailed →
        (result ≡ status) × Appends (K.written sink.old) (K.written sink.new) text.now }
    ensures part { result ≡ WriteFailed →
        AppendsStart (K.written sink.old) (K.written sink.new) text.now }
    ensures cause { result ≡ WriteFailed → Rose (K.faults sink.old) (K.faults sink.new) }
    ensures risen { K.faults sink.old < K.faults sink.new → result ≡ WriteFailed }
    ensures later { K.faults sink.old ≤ K.faults sink.new }
{
    match sink.put(text) {
        Ok(()) => status,
        Err(PutFailed) => Status::WriteFailed,
    }
}

// The line that tells the first fault of a file.
fn fault_text(alloc: Global, file: &str, line: u64, reason: Reason) -> Result<Vec<u8>, NoMemory>
    ensures { IfOk result (λ text. text.items ≡ fault_line file.now (line, reason)) }
{
    let text = format!(in alloc; "{file} line {line}: {reason}\n")?;
    Ok(text.into_bytes())
}

// Writes the line of the first fault of a file.
fn tell_fault<K: Sink>(
    alloc: Global,
    status: Status,
    file: &str,
    line: u64,
    reason: Reason,
    sink: &mut K,
) -> Status
    requires { status ≢ WriteFailed }
    ensures ok { result ≢ WriteFailed → result ≢ Memory → (result ≡ status)
        × Appends (K.written sink.old) (K.written sink.new) (fault_line file.now (line, reason)) }
    ensures part { result ≡ WriteFailed →
        AppendsStart (K.written sink.old) (K.written sink.new)
        (fault_line file.now (line, reason)) }
    ensures memory { result ≡ Memory → status ≢ Memory →
        Keeps (K.written sink.old) (K.written sink.new) }
    ensures cause { result ≡ WriteFailed → Rose (K.faults sink.old) (K.faults sink.new) }
    ensures risen { K.faults sink.old < K.faults sink.new → result ≡ WriteFailed }
    ensures later { K.faults sink.old ≤ K.faults sink.new }
{
    match fault_text(alloc, file, line, reason) {
        Ok(text) => tell(status, &text, sink),
        Err(NoMemory) => Status::NoMemory,
    }
}

// Runs the events of a schedule over a script, and writes the text of the run.
fn replay_events<K: Sink>(
    alloc: Global,
    script: &Script,
    events: &RepeatedEvents,
    sink: &mut K,
) -> Status
    requires few { length events.now ≤ 65536 }
    requires may { MayAllCome (length script.now.tasks) (length script.now.templates) events.now }
    ensures ok { result ≢ WriteFailed → result ≢ Memory → (result ≡ Done)
        × Appends (K.written sink.old) (K.written sink.new) (text_of (run script.now events.now)) }
    ensures part { (result ≡ WriteFailed) ⊎ (result ≡ Memory) →
        AppendsStart (K.written sink.old) (K.written sink.new)
        (text_of (run script.now events.now)) }
    ensures cause { result ≡ WriteFailed → Rose (K.faults sink.old) (K.faults sink.new) }
    ensures risen { K.faults sink.old < K.faults sink.new →
        (result ≡ WriteFailed) ⊎ (result ≡ Memory) }
    ensures later { K.faults sink.old ≤ K.faults sink.new }
{
    let mut feed = EventsLeft::new(events);
    match replay(alloc, script, &mut feed, sink) {
        Ok(()) => Status::Done,
        Err(ReplayFault::Sink) => Status::WriteFailed,
        Err(ReplayFault::NoMemory) => Status::NoMemory,
    }
}

// Reads a schedule over a script that was read, runs it, and writes the text of the run, or the line
// of the first fault.
fn replay_schedule<K: Sink>(alloc: Global, script: &Script, schedule: &[u8], sink: &mut K) -> Status
    ensures whole { Whole (DueForSchedule script.now schedule.now)
        (K.written sink.old) (K.written sink.new) result }
    ensures part { result ≡ WriteFailed →
        Part (DueForSchedule script.now schedule.now) (K.written sink.old) (K.written sink.new) }
    ensures memory { result ≡ Memory → Keeps (K.written sink.old) (K.written sink.new)
        ⊎ Part (DueForSchedule script.now schedule.now) (K.written sink.old) (K.written sink.new) }
    ensures write_failed { result ≡ WriteFailed → Rose (K.faults sink.old) (K.faults sink.new) }
    ensures risen { K.faults sink.old < K.faults sink.new →
        (result ≡ WriteFailed) ⊎ (result ≡ Memory) }
    ensures later { K.faults sink.old ≤ K.faults sink.new }
    ensures done { result ≡ Done → WritesRun script.now schedule.now
        (K.written sink.old) (K.written sink.new) }
    ensures other { result ≢ BadTrace }
{
    match read_repeated_events(alloc, schedule, script) {
        Ok(events) => replay_events(alloc, script, &events, sink),
        Err(ScheduleFault::Bad { line, reason }) => {
            tell_fault(alloc, Status::BadSchedule, "schedule", line, reason, sink)
        }
        Err(ScheduleFault::NoMemory) => Status::NoMemory,
    }
}

/// Reads a script and a schedule, runs them, and writes the text of the run, or the line of the
/// first fault.
pub fn replay_bytes<K: Sink>(alloc: Global, script: &[u8], schedule: &[u8], sink: &mut K) -> Status
    // But for WriteFailed and NoMemory, the status is the one that is due, its text written whole.
    ensures whole { Whole (DueForBytes script.now schedule.now)
        (K.written sink.old) (K.written sink.new) result }
    // Else a prefix of the text that is due was written; after want of memory maybe nothing.
    ensures part { result ≡ WriteFailed →
        Part (DueForBytes script.now schedule.now) (K.written sink.old) (K.written sink.new) }
    ensures memory { result ≡ Memory → Keeps (K.written sink.old) (K.written sink.new)
        ⊎ Part (DueForBytes script.now schedule.now) (K.written sink.old) (K.written sink.new) }
    // Where the sink's count of faults rose, it is WriteFailed, or NoMemory; and WriteFailed comes
    // only there, or from a sink that was spent before the call.
    ensures write_failed { result ≡ WriteFailed → Rose (K.faults sink.old) (K.faults sink.new) }
    ensures risen { K.faults sink.old < K.faults sink.new →
        (result ≡ WriteFailed) ⊎ (result ≡ Memory) }
    ensures later { K.faults sink.old ≤ K.faults sink.new }
    // With Done, what was written is the text of a run that keeps the laws.
    ensures laws { result ≡ Done → WritesLawfulRun script.now schedule.now
        (K.written sink.old) (K.written sink.new) }
    ensures other { result ≢ BadTrace }
{
    let script = match read_script(alloc, script) {
        Ok(script) => script,
        Err(ScriptFault::Bad { line, reason }) => {
            return tell_fault(alloc, Status::BadScript, "script", line, reason, sink);
        }
        Err(ScriptFault::NoMemory) => return Status::NoMemory,
    };
    replay_schedule(alloc, &script, schedule, sink)
}
