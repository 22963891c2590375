//! Does what is due for a command line: words, files, and the sink that takes the text.
ghost use Rattle.std.specs.Prelude.{◌≡◌, ◌≢◌, ◌≤◌, ◌<◌, ◌++◌, ◌∷◌, ◌⊎◌, [], true, Ok, Some, IfOk, length};
ghost use Rattle.std.specs.Io.KnownBytes.{Appends, Keeps};
ghost use Rattle.std.specs.Option.{option_map};
ghost use Rattle.io_edge.specs.Edge.{AppendsStart, Rose};
ghost use Rattle.script_reader.specs.Schedule.{MayAllCome};
ghost use Rattle.search_goals.specs.GoalList.{all_precede, said_all, sought_by};
ghost use Rattle.search_goals.specs.Writing.{IsNamed};
ghost use Rattle.command_line.specs.Command.{texts};
ghost use Rattle.command_line.specs.Due.{LosesOneAtMost};
ghost use Rattle.hipc_search.specs.Asking.{search_with, MayStand};
ghost use Rattle.hipc_search.specs.Command.{said};
ghost use Rattle.hipc_search.specs.Schedule.{Precedes};
ghost use Rattle.hipc_search.specs.Due.{DueForAsked, DueForEvents, DueForPlan, DueForBytes, DueForFiles, Due, files_of, loaded_by, IsOfText, Whole, Part};
ghost use Rattle.hipc_search.specs.declared.status.Status.TheVariants.{WriteFailed, NoMemory as Memory};

use crate::answer::{Answer, cannot_answer, fault_answer, goal_fault_answer, usage_answer};
use crate::command::{Command, command_of};
use crate::goal::{asked_for, first_events};
use crate::lists::{ListsFault, list_place, lists_in};
use crate::moves::moves_of;
use crate::status::Status;
use crate::survey::asks_answer;
use io_edge::{LoadFault, PutFailed, Shelf, Sink};
use ipc_ids::{Event, NoMemory};
use schedule_search::Problem;
use script_reader::{ScheduleFault, Script, ScriptFault, read_script};
use search_goals::{Goals, GoalsFault, TaskNames};
use std::alloc::Global;

// One more byte than a file may have, so that a longer one shows.
const MOST: usize = 1_048_577;

/// Reads the lists of kills, of hangups and of templates, and searches or surveys.
fn with_goals(
    alloc: Global,
    command: &Command<'_>,
    script: &Script,
    from: &[Event],
    names: &mut TaskNames,
    before: &[u8],
    goals: &Goals,
) -> Result<Answer, NoMemory>
    requires events { command.now.events ≤ 10000 }
    requires named { IsNamed script.now }
    requires may { MayAllCome (length script.now.tasks) (length script.now.templates) from.now }
    requires few { length from.now ≤ 32768 }
    requires short { length before.now ≤ 524289 }
    requires first { Precedes script.now before.now
        (record { events = from.now; names = names.old }) }
    requires allowed { MayStand (said command.now).asks }
    requires precede { all_precede (said_all goals.now.earlier.items) ≡ true }
    ensures { IfOk result (λ answer. DueForAsked (said command.now) before.now
        (search_with (said command.now) script.now
        (record { events = from.now; names = names.old }) (Ok (sought_by goals.now)))
        answer.status answer.text.items) }
{
    let lists = match lists_in(alloc, script, names, command) {
        Ok(lists) => lists,
        Err(ListsFault::Bad { list, word, reason }) => {
            return fault_answer(alloc, Status::BadGoal, list_place(list), word, reason);
        }
        Err(ListsFault::NoMemory) => return Err(NoMemory),
    };
    let moves = moves_of(
        alloc,
        names.len() as u64,
        lists.killed.as_slice(),
        lists.hangups.as_slice(),
        lists.bounds.as_slice(),
    )?;
    let problem = Problem {
        script,
        from,
        moves: moves.as_slice(),
        kills: command.kills,
        spawns: lists.bounds.as_slice(),
        earlier: goals.earlier.as_slice(),
        goal: &goals.last,
    };
    asks_answer(alloc, &problem, command, names, before)
}

/// Reads what is looked for, and searches behind the events that come first, whose bytes stand before
/// what is found, and behind which the tasks have these names.
fn with_events(
    alloc: Global,
    command: &Command<'_>,
    script: &Script,
    from: &[Event],
    names: &mut TaskNames,
    before: &[u8],
) -> Result<Answer, NoMemory>
    requires events { command.now.events ≤ 10000 }
    requires named { IsNamed script.now }
    requires may { MayAllCome (length script.now.tasks) (length script.now.templates) from.now }
    requires few { length from.now ≤ 32768 }
    requires short { length before.now ≤ 524289 }
    requires first { Precedes script.now before.now
        (record { events = from.now; names = names.old }) }
    ensures { IfOk result (λ answer. DueForEvents (said command.now) script.now before.now
        (Ok (record { events = from.now; names = names.old })) answer.status answer.text.items) }
{
    match asked_for(alloc, names, script, command.asks) {
        Ok(goals) => with_goals(alloc, command, script, from, names, before, &goals),
        Err(GoalsFault::Bad { goal, word, reason }) => {
            goal_fault_answer(alloc, goal, word, reason)
        }
        Err(GoalsFault::NoMemory) => Err(NoMemory),
    }
}

/// The bytes of a schedule, and the end of its last line.
fn with_feed(alloc: Global, bytes: &[u8]) -> Result<Vec<u8>, NoMemory>
    ensures { IfOk result (λ before. before.items ≡ bytes.now ++ 10 ∷ []) }
{
    let mut before = Vec::from_slice(alloc, bytes)?;
    before.push(b'\n')?;
    Ok(before)
}

/// Searches behind the events of a schedule that comes first.
fn with_first(
    alloc: Global,
    command: &Command<'_>,
    script: &Script,
    bytes: &[u8],
) -> Result<Answer, NoMemory>
    requires events { command.now.events ≤ 10000 }
    requires named { IsNamed script.now }
    ensures { IfOk result (λ answer. DueForPlan (said command.now) script.now (Some bytes.now)
        answer.status answer.text.items) }
{
    let (from, mut names) = match first_events(alloc, script, bytes) {
        Ok(first) => first,
        Err(ScheduleFault::Bad { line, reason }) => {
            return fault_answer(alloc, Status::BadSchedule, "schedule line", line, reason);
        }
        Err(ScheduleFault::NoMemory) => return Err(NoMemory),
    };
    let before = with_feed(alloc, bytes)?;
    with_events(
        alloc,
        command,
        script,
        from.as_slice(),
        &mut names,
        before.as_slice(),
    )
}

/// Searches from the start of a script.
fn with_no_events(alloc: Global, command: &Command<'_>, script: &Script) -> Result<Answer, NoMemory>
    requires events { command.now.events ≤ 10000 }
    requires named { IsNamed script.now }
    ensures { IfOk result (λ answer. DueForPlan (said command.now) script.now None
        answer.status answer.text.items) }
{
    let mut names = TaskNames::of_script(alloc, script)?;
    with_events(alloc, command, script, &[], &mut names, &[])
}

/// Searches over a script that was read.
fn with_script(
    alloc: Global,
    command: &Command<'_>,
    script: &Script,
    first: Option<&[u8]>,
) -> Result<Answer, NoMemory>
    requires events { command.now.events ≤ 10000 }
    requires named { IsNamed script.now }
    ensures { IfOk result (λ answer. DueForPlan (said command.now) script.now
        (option_map (λ bytes. bytes.now) first.entry) answer.status answer.text.items) }
{
    match first {
        None => with_no_events(alloc, command, script),
        Some(bytes) => with_first(alloc, command, script, bytes),
    }
}

/// Reads the bytes of a script, and searches.
fn with_bytes(
    alloc: Global,
    command: &Command<'_>,
    bytes: &[u8],
    first: Option<&[u8]>,
) -> Result<Answer, NoMemory>
    requires { command.now.events ≤ 10000 }
    ensures { IfOk result (λ answer. DueForBytes (said command.now) bytes.now
        (option_map (λ bytes. bytes.now) first.entry) answer.status answer.text.items) }
{
    match read_script(alloc, bytes) {
        Ok(script) => with_script(alloc, command, &script, first),
        Err(ScriptFault::Bad { line, reason }) => {
            fault_answer(alloc, Status::BadScript, "script line", line, reason)
        }
        Err(ScriptFault::NoMemory) => Err(NoMemory),
    }
}

/// Loads the script, and searches.
fn with_one_file<S: Shelf>(
    alloc: Global,
    command: &Command<'_>,
    shelf: &mut S,
) -> Result<Answer, NoMemory>
    requires { command.now.events ≤ 10000 }
    ensures due { IfOk result (λ answer. DueForFiles (S.files shelf.old) (S.failed shelf.old)
        (S.failed shelf.new) (said command.now) None answer.status answer.text.items) }
    ensures files { S.files shelf.new ≡ S.files shelf.old }
    ensures failed { LosesOneAtMost (Some (command.now.script.now, command.now.script.now))
        (S.failed shelf.old) (S.failed shelf.new) }
{
    match shelf.load(alloc, command.script, MOST) {
        Ok(bytes) => with_bytes(alloc, command, bytes.as_slice(), None),
        Err(LoadFault::Failed) => cannot_answer(alloc, command.script),
        Err(LoadFault::NoMemory) => Err(NoMemory),
    }
}

/// Loads the script, and then the schedule that comes first, and searches.
fn with_both_files<S: Shelf>(
    alloc: Global,
    command: &Command<'_>,
    name: &str,
    shelf: &mut S,
) -> Result<Answer, NoMemory>
    requires { command.now.events ≤ 10000 }
    ensures due { IfOk result (λ answer. DueForFiles (S.files shelf.old) (S.failed shelf.old)
        (S.failed shelf.new) (said command.now) (Some name.now) answer.status answer.text.items) }
    ensures files { S.files shelf.new ≡ S.files shelf.old }
    ensures failed { LosesOneAtMost (Some (command.now.script.now, name.now))
        (S.failed shelf.old) (S.failed shelf.new) }
{
    let script = match shelf.load(alloc, command.script, MOST) {
        Ok(bytes) => bytes,
        Err(LoadFault::Failed) => return cannot_answer(alloc, command.script),
        Err(LoadFault::NoMemory) => return Err(NoMemory),
    };
    let first = match shelf.load(alloc, name, MOST) {
        Ok(bytes) => bytes,
        Err(LoadFault::Failed) => return cannot_answer(alloc, name),
        Err(LoadFault::NoMemory) => return Err(NoMemory),
    };
    with_bytes(alloc, command, script.as_slice(), Some(first.as_slice()))
}

/// Loads the files of a command, and searches.
fn with_files<S: Shelf>(
    alloc: Global,
    command: &Command<'_>,
    shelf: &mut S,
) -> Result<Answer, NoMemory>
    requires { command.now.events ≤ 10000 }
    ensures due { IfOk result (λ answer. DueForFiles (S.files shelf.old) (S.failed shelf.old)
        (S.failed shelf.new) (said command.now) (said command.now).from
        answer.status answer.text.items) }
    ensures files { S.files shelf.new ≡ S.files shelf.old }
    ensures failed { LosesOneAtMost (Some (loaded_by (said command.now)))
        (S.failed shelf.old) (S.failed shelf.new) }
{
    match command.from {
        None => with_one_file(alloc, command, shelf),
        Some(name) => with_both_files(alloc, command, name, shelf),
    }
}

/// What is answered for the words of a command line.
fn answer_of<S: Shelf>(alloc: Global, words: &[String], shelf: &mut S) -> Result<Answer, NoMemory>
    ensures due { IfOk result (λ answer. Due (texts words.now) (S.files shelf.old)
        (S.failed shelf.old) (S.failed shelf.new) answer.status answer.text.items) }
    ensures files { S.files shelf.new ≡ S.files shelf.old }
    ensures failed { LosesOneAtMost (files_of (texts words.now))
        (S.failed shelf.old) (S.failed shelf.new) }
{
    match command_of(words) {
        Some(command) => with_files(alloc, &command, shelf),
        None => usage_answer(alloc),
    }
}

/// Writes a text, and answers the status; or `WriteFailed` if the text was not written whole.
fn tell<K: Sink>(status: Status, text: &[u8], sink: &mut K) -> Status
    requires { IsOfText status }
    ensures ok { result ≢ WriteFailed →
        (result ≡ status) × Appends (K.written sink.old) (K.written sink.new) text.now }
    ensures part { result ≡ WriteFailed →
        AppendsStart (K.written sink.old) (K.written sink.new) text.now }
    ensures cause { result ≡ WriteFailed → Rose (K.faults sink.old) (K.faults sink.new) }
    ensures risen { K.faults sink.old < K.faults sink.new → result ≡ WriteFailed }
    ensures later { K.faults sink.old ≤ K.faults sink.new }
{
    match sink.put(text) {
        Ok(()) => status,
        Err(PutFailed) => Status::WriteFailed,
    }
}

/// Does what the words of a command line ask: loads the script, and the schedule that comes first,
/// from the shelf, searches, and writes what was found, the line of why there is nothing, or the
/// line of what is wrong.
pub fn run<S: Shelf, K: Sink>(
    alloc: Global,
    words: &[String],
    shelf: &mut S,
    sink: &mut K,
) -> Status
    // But for WriteFailed and NoMemory, the status is the one that is due, its text written whole.
    ensures whole { Whole
        (Due (texts words.now) (S.files shelf.old) (S.failed shelf.old) (S.failed shelf.new))
        (K.written sink.old) (K.written sink.new) result }
    // Else a prefix of a text that is due was written; after want of memory nothing.
    ensures part { result ≡ WriteFailed → Part
        (Due (texts words.now) (S.files shelf.old) (S.failed shelf.old) (S.failed shelf.new))
        (K.written sink.old) (K.written sink.new) }
    ensures memory { result ≡ Memory → Keeps (K.written sink.old) (K.written sink.new) }
    // Where the sink's count of faults rose, it is WriteFailed; and WriteFailed comes only there,
    // or from a sink that was spent before the call.
    ensures write_failed { result ≡ WriteFailed → Rose (K.faults sink.old) (K.faults sink.new) }
    ensures risen { K.faults sink.old < K.faults sink.new → result ≡ WriteFailed }
    ensures later { K.faults sink.old ≤ K.faults sink.new }
    // The shelf keeps its files, and no name but that of a file of the command comes to those that
    // failed.
    ensures files { S.files shelf.new ≡ S.files shelf.old }
    ensures failed { LosesOneAtMost (files_of (texts words.now))
        (S.failed shelf.old) (S.failed shelf.new) }
{
    match answer_of(alloc, words, shelf) {
        Ok(answer) => tell(answer.status, answer.text.as_slice(), sink),
        Err(NoMemory) => Status::NoMemory,
    }
}
