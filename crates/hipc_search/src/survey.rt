//! Surveys the states at rest, and answers what comes of it.
ghost use Rattle.std.specs.Prelude.{◌≡◌, ◌≤◌, IfOk};
ghost use Rattle.schedule_search.specs.Problem.{search_of};
ghost use Rattle.schedule_search.specs.Survey.{IsSurvey};
ghost use Rattle.hipc_search.specs.Asking.{MayStand};
ghost use Rattle.hipc_search.specs.Command.{said};
ghost use Rattle.hipc_search.specs.Schedule.{MayFollow, MayBeListed};
ghost use Rattle.hipc_search.specs.Survey.{all_within_start};
ghost use Rattle.hipc_search.specs.Due.{IsOfText, DueForResting, DueForSurvey, DueForAsks};

use crate::answer::{Answer, not_known_text, numbered, search_answer};
use crate::command::{Asks, Command};
use crate::listing::listing;
use crate::schedule::goals_text;
use crate::status::Status;
use ipc_ids::NoMemory;
use schedule_search::{Problem, RestingStates, survey_schedules};
use search_goals::TaskNames;
use std::alloc::Global;

/// How the last line begins where all states at rest are listed.
const ALL_START: &[u8] = b"# all states at rest, of any length: ";

/// Of how many events the schedules are at most.
fn all_within_start(alloc: Global, most: u32) -> Result<Vec<u8>, NoMemory>
    ensures { IfOk result (λ text. text.items ≡ all_within_start most) }
{
    let most = u64::from(most);
    numbered(alloc, "# all states at rest within ", most, " events: ")
}

/// Answers the states at rest of a survey, each with a schedule that leads there behind the bytes of
/// those events that come first.
fn resting_answer(
    alloc: Global,
    problem: &Problem<'_>,
    command: &Command<'_>,
    before: &[u8],
    resting: &RestingStates,
) -> Result<Answer, NoMemory>
    requires may { MayBeListed (search_of problem.now) before.now }
    requires few { command.now.events ≤ 10000 }
    requires right { IsSurvey (search_of problem.now) command.now.events resting.now }
    ensures { IfOk result (λ answer. DueForResting (search_of problem.now) command.now.events
        command.now.states before.now resting.now answer.status answer.text.items) }
{
    match resting {
        RestingStates::All { schedules, states } => {
            let schedules = schedules.as_slice();
            let text = listing(alloc, problem, before, schedules, ALL_START, *states)?;
            Ok(Answer {
                status: Status::Found,
                text,
            })
        }
        RestingStates::Within { schedules, states } => {
            let start = all_within_start(alloc, command.events)?;
            let schedules = schedules.as_slice();
            let text = listing(alloc, problem, before, schedules, start.as_slice(), *states)?;
            Ok(Answer {
                status: Status::FoundWithin,
                text,
            })
        }
        RestingStates::NoRoom => {
            let text = not_known_text(alloc, command.states)?;
            Ok(Answer {
                status: Status::NotKnown,
                text,
            })
        }
    }
}

/// Surveys, and answers the states at rest.
fn survey_answer(
    alloc: Global,
    problem: &Problem<'_>,
    command: &Command<'_>,
    before: &[u8],
) -> Result<Answer, NoMemory>
    requires may { MayBeListed (search_of problem.now) before.now }
    requires few { command.now.events ≤ 10000 }
    ensures { IfOk result (λ answer. DueForSurvey (search_of problem.now) command.now.events
        command.now.states before.now answer.status answer.text.items) }
{
    let resting = survey_schedules(alloc, problem, command.events, command.states)?;
    resting_answer(alloc, problem, command, before, &resting)
}

/// Searches or surveys, and answers what comes of it; behind the events that come first the tasks have
/// these names.
pub(crate) fn asks_answer(
    alloc: Global,
    problem: &Problem<'_>,
    command: &Command<'_>,
    names: &mut TaskNames,
    before: &[u8],
) -> Result<Answer, NoMemory>
    requires may { MayFollow (search_of problem.now) before.now names.old }
    requires few { command.now.events ≤ 10000 }
    requires allowed { MayStand (said command.now).asks }
    ensures { IfOk result (λ answer. DueForAsks (search_of problem.now) command.now.events
        command.now.states before.now (said command.now).asks answer.status answer.text.items) }
{
    match command.asks {
        Asks::Goals { first, later } => {
            let goal = goals_text(alloc, first, later)?;
            search_answer(alloc, problem, command, names, before, goal.as_slice())
        }
        Asks::Survey => survey_answer(alloc, problem, command, before),
    }
}
