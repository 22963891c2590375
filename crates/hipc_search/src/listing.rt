//! The text of the states at rest that a survey lists.
ghost use Rattle.std.specs.Prelude.{◌≡◌, ◌≤◌, ◌++◌, ℕ, List, Some, IfOk, OnOk, codes, drop, length, slice_get};
ghost use Rattle.ipc_ids.specs.declared.message.Event.{Event};
ghost use Rattle.task_system.specs.Run.{run};
ghost use Rattle.trace_print.specs.Text.{text_of_entry};
ghost use Rattle.schedule_search.specs.Search.{Made};
ghost use Rattle.schedule_search.specs.Problem.{search_of, CanDo};
ghost use Rattle.schedule_search.specs.Survey.{schedules_of};
ghost use Rattle.hipc_search.specs.Schedule.{MayBeListed};
ghost use Rattle.hipc_search.specs.Told.{entry_of, told_text};
ghost use Rattle.hipc_search.specs.Survey.{state_name, heading, counts_end, outcome_lines, AddsState, AreStates, IsListing};

use crate::known::names_behind;
use crate::schedule::push_comment;
use crate::told::last_outcome;
use ipc_ids::{Entry, Event, NoMemory, TaskNo};
use schedule_search::{Problem, told_by};
use search_goals::{TaskNames, push_events};
use std::alloc::Global;
use trace_print::entry_text;

/// What stands behind the first byte.
fn behind_first(bytes: &[u8]) -> &[u8]
    ensures { result.now ≡ drop 1 bytes.now }
{
    match bytes {
        [] => bytes,
        [_, others @ ..] => others,
    }
}

/// Adds the line of an entry behind a colon, without its first byte.
fn push_line(alloc: Global, text: &mut Vec<u8>, entry: &Entry) -> Result<(), NoMemory>
    ensures { OnOk result (text.new.items
        ≡ text.old.items ++ (codes ":" ++ drop 1 (text_of_entry entry.now))) }
{
    text.push(b':')?;
    let mut line = Vec::new(alloc);
    entry_text(entry, &mut line)?;
    text.extend_from_slice(behind_first(line.as_slice()))?;
    Ok(())
}

/// Adds that there was no outcome.
fn push_nothing(text: &mut Vec<u8>) -> Result<(), NoMemory>
    ensures { OnOk result (text.new.items ≡ text.old.items ++ codes ": no outcome\n") }
{
    text.extend_from_slice(b": no outcome\n")?;
    Ok(())
}

/// Adds what stands behind the name of a task.
fn push_told(alloc: Global, text: &mut Vec<u8>, last: Option<&Entry>) -> Result<(), NoMemory>
    ensures { OnOk result (text.new.items ≡ text.old.items ++ told_text (entry_of last.entry)) }
{
    match last {
        None => push_nothing(text),
        Some(entry) => push_line(alloc, text, entry),
    }
}

/// Adds the line of a task with its last outcome.
fn push_outcome(
    alloc: Global,
    text: &mut Vec<u8>,
    name: &[u8],
    last: Option<&Entry>,
) -> Result<(), NoMemory>
    ensures { OnOk result (text.new.items
        ≡ text.old.items ++ (codes "#   " ++ (name.now ++ told_text (entry_of last.entry)))) }
{
    text.extend_from_slice(b"#   ")?;
    text.extend_from_slice(name)?;
    push_told(alloc, text, last)
}

/// Adds the line of each task of these names, after a run that told these entries.
fn push_outcomes(
    alloc: Global,
    text: &mut Vec<u8>,
    names: &TaskNames,
    entries: &[Entry],
) -> Result<(), NoMemory>
    ensures { OnOk result (text.new.items
        ≡ text.old.items ++ outcome_lines 1 names.now entries.now) }
{
    for place in 0..names.len() as u64 {
        let task = place + 1;
        let last = last_outcome(entries, task);
        push_outcome(alloc, text, names.name_of(TaskNo(task)), last)?;
    }
    Ok(())
}

/// Adds the line of each task of these names, behind the events of a problem that come first and these.
fn push_outcomes_behind(
    alloc: Global,
    text: &mut Vec<u8>,
    problem: &Problem<'_>,
    names: &TaskNames,
    events: &[Event],
) -> Result<(), NoMemory>
    requires can { CanDo (search_of problem.now) events.now }
    ensures { OnOk result (text.new.items ≡ text.old.items ++ outcome_lines 1 names.now
        (run problem.now.script.now (problem.now.from.now ++ events.now))) }
{
    let told = told_by(alloc, problem, events)?;
    push_outcomes(alloc, text, names, told.entries())
}

/// The place of a state, of how many.
fn state_name(alloc: Global, place: usize, count: usize) -> Result<Vec<u8>, NoMemory>
    ensures { IfOk result (λ name. name.items ≡ state_name place count) }
{
    let name = format!(in alloc; "state {place} of {count}")?;
    Ok(name.into_bytes())
}

/// Adds the heading of a state.
fn push_heading(
    alloc: Global,
    text: &mut Vec<u8>,
    place: usize,
    count: usize,
    events: usize,
) -> Result<(), NoMemory>
    ensures { OnOk result (text.new.items ≡ text.old.items ++ heading place count events) }
{
    let name = state_name(alloc, place, count)?;
    push_comment(alloc, text, name.as_slice(), events)
}

/// Adds the text of a state to which these events lead. Its tasks have the names that are known behind
/// the bytes that come first, and those of the tasks that its own events make.
fn push_state(
    alloc: Global,
    text: &mut Vec<u8>,
    problem: &Problem<'_>,
    before: &[u8],
    events: &[Event],
    place: usize,
    count: usize,
) -> Result<(), NoMemory>
    requires may { MayBeListed (search_of problem.now) before.now }
    requires made { Made (search_of problem.now) events.now }
    requires few { length events.now ≤ 10000 }
    ensures { OnOk result (AddsState (search_of problem.now) before.now place count events.now
        text.old.items text.new.items) }
{
    push_heading(alloc, text, place, count, events.len())?;
    text.extend_from_slice(before)?;
    let mut names = names_behind(alloc, problem.script, before)?;
    push_events(alloc, text, problem.script, &mut names, events)?;
    push_outcomes_behind(alloc, text, problem, &names, events)
}

/// The texts of the states to which schedules lead, one behind the other.
fn states_text(
    alloc: Global,
    problem: &Problem<'_>,
    before: &[u8],
    schedules: &[Vec<Event>],
) -> Result<Vec<u8>, NoMemory>
    requires may { MayBeListed (search_of problem.now) before.now }
    requires listed { (k : ℕ) (es : List Event) → slice_get (schedules_of schedules.now) k ≡ Some es
        → Made (search_of problem.now) es × (length es ≤ 10000) }
    ensures { IfOk result (λ text. AreStates (search_of problem.now) before.now 1
        (length (schedules_of schedules.now)) (schedules_of schedules.now) text.items) }
{
    let mut text = Vec::new(alloc);
    let count = schedules.len();
    for (place, events) in schedules.iter().enumerate() {
        push_state(
            alloc,
            &mut text,
            problem,
            before,
            events.as_slice(),
            place + 1,
            count,
        )?;
    }
    Ok(text)
}

/// How many states are listed, of how many.
fn counts_end(alloc: Global, listed: usize, states: u64) -> Result<Vec<u8>, NoMemory>
    ensures { IfOk result (λ text. text.items ≡ counts_end listed states) }
{
    let text = format!(in alloc; "{listed} of {states} states\n")?;
    Ok(text.into_bytes())
}

/// The texts of the states, and a last line that begins so and says how many of all they are.
pub(crate) fn listing(
    alloc: Global,
    problem: &Problem<'_>,
    before: &[u8],
    schedules: &[Vec<Event>],
    start: &[u8],
    states: u64,
) -> Result<Vec<u8>, NoMemory>
    requires may { MayBeListed (search_of problem.now) before.now }
    requires listed { (k : ℕ) (es : List Event) → slice_get (schedules_of schedules.now) k ≡ Some es
        → Made (search_of problem.now) es × (length es ≤ 10000) }
    ensures { IfOk result (λ text. IsListing (search_of problem.now) before.now
        (schedules_of schedules.now)
        (start.now ++ counts_end (length (schedules_of schedules.now)) states) text.items) }
{
    let end = counts_end(alloc, schedules.len(), states)?;
    let mut text = states_text(alloc, problem, before, schedules)?;
    text.extend_from_slice(start)?;
    text.extend_from_slice(end.as_slice())?;
    Ok(text)
}
