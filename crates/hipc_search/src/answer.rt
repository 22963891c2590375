//! What is answered: a status with a text.
ghost use Rattle.std.specs.Prelude.{◌≡◌, ◌≤◌, ◌++◌, true, IfOk, decimal};
ghost use Rattle.std.specs.List.{list_all};
ghost use Rattle.script_lines.specs.Text.{is_allowed};
ghost use Rattle.command_line.specs.Due.{cannot_line};
ghost use Rattle.schedule_search.specs.Problem.{search_of};
ghost use Rattle.hipc_search.specs.Line.{usage_line, fault_line, goal_place, none_within_line, not_known_line};
ghost use Rattle.hipc_search.specs.Schedule.{MayFollow};
ghost use Rattle.hipc_search.specs.Due.{Says, IsOfText, DueForSearch};
ghost use Rattle.hipc_search.specs.declared.status.Status.TheVariants.{BadGoal, CannotRead, Usage};

use crate::command::Command;
use crate::schedule::found_text;
use crate::status::Status;
use ipc_ids::NoMemory;
use schedule_search::{Outcome, Problem, search_schedules};
use script_reader::Reason;
use search_goals::TaskNames;
use std::alloc::Global;

const USAGE: &[u8] = b"usage: hipc-search SCRIPT [GOAL | --survey] [--kill NAME,..] [--kills N] \
[--hangup NAME.PHONE,..] [--spawn TEMPLATE:N,..] [--from SCHEDULE] [--events N] [--states N] \
[--then GOAL]..\n";

/// A status, and the text that is due with it.
#[derive(Drop)]
pub(crate) struct Answer {
    pub status: Status,
    pub text: Vec<u8>,
    ghost told: { IsOfText status },
}

/// The answer to words that are no command.
pub(crate) fn usage_answer(alloc: Global) -> Result<Answer, NoMemory>
    ensures { IfOk result (λ answer. Says Usage usage_line answer.status answer.text.items) }
{
    let text = Vec::from_slice(alloc, USAGE)?;
    Ok(Answer {
        status: Status::Usage,
        text,
    })
}

/// The answer where a file could not be loaded.
pub(crate) fn cannot_answer(alloc: Global, name: &str) -> Result<Answer, NoMemory>
    ensures { IfOk result (λ answer. Says CannotRead (cannot_line name.now)
        answer.status answer.text.items) }
{
    let text = format!(in alloc; "cannot read {name}\n")?;
    Ok(Answer {
        status: Status::CannotRead,
        text: text.into_bytes(),
    })
}

/// The answer for the first fault at a place, as a line of a file or a word.
pub(crate) fn fault_answer(
    alloc: Global,
    status: Status,
    place: &str,
    number: u64,
    reason: Reason,
) -> Result<Answer, NoMemory>
    requires { IsOfText status }
    ensures { IfOk result (λ answer. Says status (fault_line place.now (number, reason))
        answer.status answer.text.items) }
{
    let text = format!(in alloc; "{place} {number}: {reason}\n")?;
    Ok(Answer {
        status,
        text: text.into_bytes(),
    })
}

/// The same for a goal, of which each but the first has a number.
pub(crate) fn goal_fault_answer(
    alloc: Global,
    goal: u64,
    word: u64,
    reason: Reason,
) -> Result<Answer, NoMemory>
    ensures { IfOk result (λ answer. Says BadGoal (fault_line (goal_place goal) (word, reason))
        answer.status answer.text.items) }
{
    if goal == 1 {
        return fault_answer(alloc, Status::BadGoal, "goal word", word, reason);
    }
    let place = format!(in alloc; "goal {goal} word")?;
    fault_answer(alloc, Status::BadGoal, place.as_str(), word, reason)
}

/// A number, with these texts before and behind it.
pub(crate) fn numbered(
    alloc: Global,
    before: &str,
    number: u64,
    behind: &str,
) -> Result<Vec<u8>, NoMemory>
    ensures { IfOk result (λ text. text.items ≡ before.now ++ decimal number ++ behind.now) }
{
    let text = format!(in alloc; "{before}{number}{behind}")?;
    Ok(text.into_bytes())
}

/// The line for a search that found no schedule of so many events.
fn none_within_text(alloc: Global, most: u32, states: u64) -> Result<Vec<u8>, NoMemory>
    ensures { IfOk result (λ text. text.items ≡ none_within_line most states) }
{
    let mut text = numbered(alloc, "# none within ", u64::from(most), " events: ")?;
    let end = numbered(alloc, "", states, " states\n")?;
    text.extend_from_slice(end.as_slice())?;
    Ok(text)
}

/// The line for a search that had no room for all states.
pub(crate) fn not_known_text(alloc: Global, room: u32) -> Result<Vec<u8>, NoMemory>
    ensures { IfOk result (λ text. text.items ≡ not_known_line room) }
{
    let room = u64::from(room);
    numbered(alloc, "# not known: more than ", room, " states\n")
}

/// Searches, and answers the outcome; behind the events that come first the tasks have these names.
pub(crate) fn search_answer(
    alloc: Global,
    problem: &Problem<'_>,
    command: &Command<'_>,
    names: &mut TaskNames,
    before: &[u8],
    goal: &[u8],
) -> Result<Answer, NoMemory>
    requires may { MayFollow (search_of problem.now) before.now names.old }
    requires few { command.now.events ≤ 10000 }
    requires allowed { list_all is_allowed goal.now ≡ true }
    ensures { IfOk result (λ answer. DueForSearch (search_of problem.now) command.now.events
        command.now.states before.now goal.now answer.status answer.text.items) }
{
    let outcome = search_schedules(alloc, problem, command.events, command.states)?;
    match outcome {
        Outcome::Found(events) => {
            let text = found_text(alloc, problem, before, goal, names, events.as_slice())?;
            Ok(Answer {
                status: Status::Found,
                text,
            })
        }
        Outcome::NoneWithin(states) => {
            let text = none_within_text(alloc, command.events, states)?;
            Ok(Answer {
                status: Status::NoneWithin,
                text,
            })
        }
        Outcome::NoneAtAll(states) => {
            let text = numbered(alloc, "# none, of any length: ", states, " states\n")?;
            Ok(Answer {
                status: Status::NoneAtAll,
                text,
            })
        }
        Outcome::NoRoom => {
            let text = not_known_text(alloc, command.states)?;
            Ok(Answer {
                status: Status::NotKnown,
                text,
            })
        }
    }
}
