//! How many of the goals that come before the last are left behind events.
ghost use Rattle.std.specs.Prelude.{◌≡◌, ◌≤◌, [], IfOk, OnOk};
ghost use Rattle.search_goals.specs.GoalList.{said_all};
ghost use Rattle.schedule_search.specs.Search.{first_state, state_behind};
ghost use Rattle.schedule_search.specs.Left.{left_here, left_behind};
ghost use Rattle.schedule_search.specs.Code.{goals_left};
ghost use Rattle.schedule_search.specs.Problem.{search_of, CanDo};

use crate::meeting::is_met;
use crate::place::do_event;
use crate::problem::Problem;
use ipc_ids::{Event, Trace};
use schedule_replay::Replay;
use search_goals::Goal;
use std::alloc::{AllocError, Global};

/// What is left of goals behind these events, where `replay` stands: not those at the front that are
/// met there. Behind the first of them what was told counts no more.
fn left_here<'a>(
    alloc: Global,
    problem: &Problem<'_>,
    goals: &'a [Goal],
    events: &[Event],
    replay: &Replay,
    told: &mut Trace,
) -> Result<&'a [Goal], AllocError>
    requires can { CanDo (search_of problem.now) events.now }
    requires here { replay.now.state ≡ state_behind (search_of problem.now) events.now }
    ensures { IfOk result (λ left.
        record { goals = said_all left.now; told = told.new.entries }
        ≡ left_here (said_all goals.now) replay.now.state told.old.entries) }
{
    for i in 0..goals.len() {
        let met = is_met(alloc, problem, &goals[i], events, replay, told)?;
        if !met {
            return Ok(&goals[i..]);
        }
        told.clear();
    }
    Ok(&[])
}

/// How many of the goals before the last are left behind these events, through which `replay` is led
/// from where it stands before them. What counts for the next goal is told.
pub(crate) fn goals_left(
    alloc: Global,
    problem: &Problem<'_>,
    events: &[Event],
    replay: &mut Replay,
    told: &mut Trace,
) -> Result<usize, AllocError>
    requires can { CanDo (search_of problem.now) events.now }
    requires here { replay.old.state ≡ first_state (search_of problem.now) }
    requires entries { told.old.entries ≡ [] }
    requires few { replay.old.state.kernel.events ≤ 65536 }
    ensures state { OnOk result (replay.new.state
        ≡ state_behind (search_of problem.now) events.now) }
    ensures left { IfOk result (λ left. left ≡ goals_left (search_of problem.now) events.now) }
    ensures entries { OnOk result (told.new.entries
        ≡ (left_behind (search_of problem.now) events.now).told) }
{
    let mut left = left_here(alloc, problem, problem.earlier, &[], replay, told)?;
    for i in 0..events.len() {
        do_event(replay, told, &events[i])?;
        left = left_here(alloc, problem, left, &events[..i + 1], replay, told)?;
    }
    Ok(left.len())
}
