//! Whether a goal is met behind events.
ghost use Rattle.std.specs.Prelude.{◌≡◌, ◌++◌, true, false, Some, IfOk};
ghost use Rattle.search_goals.specs.GoalText.{said};
ghost use Rattle.schedule_search.specs.Search.{state_behind};
ghost use Rattle.schedule_search.specs.Meeting.{IsMet};
ghost use Rattle.schedule_search.specs.Left.{is_met};
ghost use Rattle.schedule_search.specs.Problem.{search_of, CanDo};

use crate::holding::all_hold;
use crate::lost_calls::has_lost_call;
use crate::problem::Problem;
use crate::rest::{is_at_rest, is_stuck};
use ipc_ids::{Event, Trace};
use schedule_replay::Replay;
use search_goals::{Goal, may_precede, meets_line};
use std::alloc::{AllocError, Global};

/// All events that lead to a state.
pub(crate) fn all_events(
    alloc: Global,
    first: &[Event],
    later: &[Event],
) -> Result<Vec<Event>, AllocError>
    ensures { IfOk result (λ all. all.items ≡ first.now ++ later.now) }
{
    let mut all = Vec::from_slice(alloc, first)?;
    all.extend_from_slice(later)?;
    Ok(all)
}

/// Whether what a goal asks is in the state behind these events, where `replay` stands, or in the
/// entries that were told last. That a call is lost they do not tell.
pub(crate) fn is_met(
    alloc: Global,
    problem: &Problem<'_>,
    goal: &Goal,
    events: &[Event],
    replay: &Replay,
    told: &Trace,
) -> Result<bool, AllocError>
    requires can { CanDo (search_of problem.now) events.now }
    requires here { replay.now.state ≡ state_behind (search_of problem.now) events.now }
    ensures { IfOk result (λ met. met
        ≡ is_met (said goal.now) replay.now.state told.now.entries) }
{
    match goal {
        Goal::Lost => Ok(false),
        Goal::Rest => is_at_rest(alloc, problem, events, replay),
        Goal::Stuck(task) => is_stuck(alloc, problem, events, replay, *task),
        Goal::When(conditions) => {
            let all = all_events(alloc, problem.from, events)?;
            Ok(all_hold(
                conditions.as_slice(),
                problem.script,
                all.as_slice(),
                replay.system(),
            ))
        }
        Goal::Line { head, asked } => Ok(meets_line(
            head.as_slice(),
            asked.as_slice(),
            told.entries(),
        )),
    }
}

/// The same of the last goal, that may ask for a lost call; `None` where there is no room to tell.
pub(crate) fn is_last_met(
    alloc: Global,
    problem: &Problem<'_>,
    events: &[Event],
    replay: &Replay,
    told: &Trace,
    room: u32,
) -> Result<Option<bool>, AllocError>
    requires can { CanDo (search_of problem.now) events.now }
    requires here { replay.now.state ≡ state_behind (search_of problem.now) events.now }
    ensures met { IfOk result (λ o. o ≡ Some true
        → IsMet (said problem.now.goal.now) replay.now.state told.now.entries) }
    ensures unmet { IfOk result (λ o. o ≡ Some false
        → IsMet (said problem.now.goal.now) replay.now.state told.now.entries → ⊥) }
{
    if !may_precede(problem.goal) {
        return has_lost_call(alloc, problem, events, replay, room);
    }
    let met = is_met(alloc, problem, problem.goal, events, replay, told)?;
    Ok(Some(met))
}
