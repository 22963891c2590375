//! The text of a schedule that was found.
ghost use Rattle.std.specs.Prelude.{◌≡◌, ◌≤◌, ◌<◌, ◌^◌, ◌++◌, true, IfOk, OnOk, length, take};
ghost use Rattle.std.specs.List.{list_all};
ghost use Rattle.command_line.specs.Command.{texts};
ghost use Rattle.script_lines.specs.Text.{is_allowed};
ghost use Rattle.search_goals.specs.GoalText.{said as said_goal};
ghost use Rattle.search_goals.specs.Lines.{comment_text};
ghost use Rattle.search_goals.specs.Writing.{tasks_behind};
ghost use Rattle.schedule_search.specs.Search.{may_try, first_tasks};
ghost use Rattle.schedule_search.specs.Problem.{search_of};
ghost use Rattle.hipc_search.specs.Command.{goals_in, goals_text};
ghost use Rattle.hipc_search.specs.Schedule.{found_comment, asks_for_end, closing, IsSchedule, MayFollow};

use crate::command::next_pair;
use crate::moves::push_living;
use ipc_ids::{Event, NoMemory};
use schedule_search::Problem;
use search_goals::{Goal, TaskNames, push_events};
use std::alloc::Global;

const MOST_GOAL: usize = 1024;

/// The first bytes of a goal.
fn cut(goal: &[u8]) -> &[u8]
    ensures { result.now ≡ take 1024 goal.now }
{
    if goal.len() <= MOST_GOAL {
        return goal;
    }
    goal.split_at(MOST_GOAL).0
}

/// Adds the comment that says the goal and how many events there are; of a state its name in place of
/// the goal.
pub(crate) fn push_comment(
    alloc: Global,
    text: &mut Vec<u8>,
    goal: &[u8],
    events: usize,
) -> Result<(), NoMemory>
    ensures { OnOk result (text.new.items
        ≡ text.old.items ++ comment_text (found_comment goal.now events)) }
{
    let count = format!(in alloc; ": {events} events")?;
    text.extend_from_slice(b"# ")?;
    text.extend_from_slice(cut(goal))?;
    text.extend_from_slice(count.as_bytes())?;
    text.push(b'\n')?;
    Ok(())
}

/// Whether a state is looked for behind which something never comes.
fn asks_for_end(goal: &Goal) -> bool
    ensures { result ≡ asks_for_end (said_goal goal.now) }
{
    match goal {
        Goal::Lost | Goal::Rest | Goal::Stuck(_) => true,
        Goal::When(_) | Goal::Line { .. } => false,
    }
}

/// The steps behind events that were found, by which a replay shows that nothing comes; so many tasks
/// there are then.
fn closing(
    alloc: Global,
    problem: &Problem<'_>,
    events: &[Event],
    tasks: u64,
) -> Result<Vec<Event>, NoMemory>
    requires few { tasks ≤ 64 }
    requires all { tasks ≡ tasks_behind (first_tasks (search_of problem.now)) events.now }
    ensures { IfOk result (λ steps. steps.items ≡ closing (search_of problem.now) events.now) }
{
    let mut steps = Vec::new(alloc);
    if !asks_for_end(problem.goal) {
        return Ok(steps);
    }
    push_living(problem.from, events, tasks, &mut steps)?;
    Ok(steps)
}

/// The texts of goals as the comment has them: the first, and those in words, in which each stands
/// behind `--then`.
pub(crate) fn goals_text(alloc: Global, first: &str, later: &[String]) -> Result<Vec<u8>, NoMemory>
    ensures { IfOk result (λ text. text.items
        ≡ goals_text first.now (goals_in (texts later.now))) }
{
    let mut text = Vec::from_slice(alloc, first.as_bytes())?;
    let mut left = later;
    while let Some(pair) = next_pair(left) {
        text.extend_from_slice(b", then ")?;
        text.extend_from_slice(pair.value.as_bytes())?;
        left = pair.others;
    }
    Ok(text)
}

/// Adds the comment of the events that were found, their lines, and the steps behind them, to the bytes
/// of the events that come first, behind which the tasks have these names.
fn push_found(
    alloc: Global,
    text: &mut Vec<u8>,
    problem: &Problem<'_>,
    goal: &[u8],
    names: &mut TaskNames,
    events: &[Event],
) -> Result<(), NoMemory>
    requires may { MayFollow (search_of problem.now) text.old.items names.old }
    requires allowed { list_all is_allowed goal.now ≡ true }
    requires tried { may_try (search_of problem.now) events.now ≡ true }
    requires few { length events.now ≤ 10000 }
    ensures { OnOk result (IsSchedule (search_of problem.now) text.old.items goal.now events.now
        text.new.items) }
{
    push_comment(alloc, text, goal, events.len())?;
    push_events(alloc, text, problem.script, names, events)?;
    let steps = closing(alloc, problem, events, names.len() as u64)?;
    push_events(alloc, text, problem.script, names, steps.as_slice())
}

/// The schedule of the events that were found, behind the bytes of those that come first, where the
/// tasks have these names.
pub(crate) fn found_text(
    alloc: Global,
    problem: &Problem<'_>,
    before: &[u8],
    goal: &[u8],
    names: &mut TaskNames,
    events: &[Event],
) -> Result<Vec<u8>, NoMemory>
    requires may { MayFollow (search_of problem.now) before.now names.old }
    requires allowed { list_all is_allowed goal.now ≡ true }
    requires tried { may_try (search_of problem.now) events.now ≡ true }
    requires few { length events.now ≤ 10000 }
    ensures { IfOk result (λ text. IsSchedule (search_of problem.now) before.now goal.now events.now
        text.items) }
{
    let mut text = Vec::from_slice(alloc, before)?;
    push_found(alloc, &mut text, problem, goal, names, events)?;
    Ok(text)
}
