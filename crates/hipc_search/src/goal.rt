//! What is asked of a script: goals, and the events that come first.
ghost use Rattle.std.specs.Prelude.{◌≡◌, ◌≤◌, true, Ok, IfOk, length};
ghost use Rattle.std.specs.List.{list_all};
ghost use Rattle.command_line.specs.Command.{texts};
ghost use Rattle.script_lines.specs.Text.{is_allowed, texts as line_words};
ghost use Rattle.script_reader.specs.EventLine.{no_events, after_event};
ghost use Rattle.script_reader.specs.Reading.{reading, fault_in_schedule, Agrees};
ghost use Rattle.script_reader.specs.Schedule.{MayAllCome};
ghost use Rattle.search_goals.specs.GoalList.{all_precede, goals_of, said_all, AnswersGoals};
ghost use Rattle.search_goals.specs.Writing.{AreNamed};
ghost use Rattle.hipc_search.specs.Asking.{first_events, said_first, first_in, asked_by, MayStand};
ghost use Rattle.hipc_search.specs.Command.{goals_in, goals_text, said_asks};

use crate::command::{Asks, next_pair};
use crate::known::names_behind;
use ipc_ids::{Event, NoMemory};
use script_lines::Names;
use script_reader::{Reason, ScheduleFault, Script, read_schedule};
use search_goals::{Goal, Goals, GoalsFault, TaskNames, read_goals_for};
use std::alloc::Global;

const MOST_FIRST_BYTES: usize = 524_288;

const MOST_FIRST_EVENTS: usize = 32_768;

/// The texts of the goals in words, in which each stands behind `--then`.
fn goal_texts(alloc: Global, words: &[String]) -> Result<Vec<&[u8]>, NoMemory>
    ensures { IfOk result (λ goals. line_words goals.items ≡ goals_in (texts words.now)) }
{
    let mut goals = Vec::new(alloc);
    let mut left = words;
    while let Some(pair) = next_pair(left) {
        goals.push(pair.value.as_bytes())?;
        left = pair.others;
    }
    Ok(goals)
}

/// The goals that texts say, of the tasks of a table.
#[tactic(auto, using(crate::proofs::Looking::are_allowed))]
fn goals_by(
    alloc: Global,
    table: &Names,
    script: &Script,
    first: &str,
    later: &[String],
) -> Result<Goals, GoalsFault>
    ensures value { AnswersGoals result
        (goals_of table.now script.now.tasks first.now (goals_in (texts later.now))) }
    ensures precede { IfOk result (λ goals. all_precede (said_all goals.earlier.items) ≡ true) }
    ensures allowed { IfOk result (λ _.
        list_all is_allowed (goals_text first.now (goals_in (texts later.now))) ≡ true) }
{
    let texts = goal_texts(alloc, later)?;
    let tasks = script.tasks.as_slice();
    match read_goals_for(alloc, table, tasks, first.as_bytes(), texts.as_slice()) {
        Ok(goals) => Ok(goals),
        Err(fault) => Err(fault),
    }
}

/// The goals that texts say, of tasks of these names.
fn goals_for(
    alloc: Global,
    names: &TaskNames,
    script: &Script,
    first: &str,
    later: &[String],
) -> Result<Goals, GoalsFault>
    ensures value { AnswersGoals result
        (goals_of names.now script.now.tasks first.now (goals_in (texts later.now))) }
    ensures precede { IfOk result (λ goals. all_precede (said_all goals.earlier.items) ≡ true) }
    ensures allowed { IfOk result (λ _.
        list_all is_allowed (goals_text first.now (goals_in (texts later.now))) ≡ true) }
{
    match names.to_table(alloc) {
        Ok(table) => goals_by(alloc, &table, script, first, later),
        Err(NoMemory) => Err(GoalsFault::NoMemory),
    }
}

/// What is looked for, of tasks of these names; for a survey states at rest.
pub(crate) fn asked_for(
    alloc: Global,
    names: &TaskNames,
    script: &Script,
    asks: Asks<'_>,
) -> Result<Goals, GoalsFault>
    ensures value { AnswersGoals result
        (asked_by names.now script.now.tasks (said_asks asks.entry)) }
    ensures precede { IfOk result (λ goals. all_precede (said_all goals.earlier.items) ≡ true) }
    ensures allowed { IfOk result (λ _. MayStand (said_asks asks.entry)) }
{
    match asks {
        Asks::Goals { first, later } => goals_for(alloc, names, script, first, later),
        Asks::Survey => Ok(Goals {
            earlier: Vec::new(alloc),
            last: Goal::Rest,
        }),
    }
}

/// The events of a schedule that comes first, and the names of all tasks behind them.
#[tactic(auto, unfolding(crate::specs::Asking::first_events))]
pub(crate) fn first_events(
    alloc: Global,
    script: &Script,
    bytes: &[u8],
) -> Result<(Vec<Event>, TaskNames), ScheduleFault>
    requires { AreNamed script.now.tasks }
    ensures value { Agrees fault_in_schedule (first_in result)
        (first_events script.now bytes.now) }
    ensures spelled { IfOk result (λ first. reading (after_event script.now) (no_events script.now)
        bytes.now ≡ Ok (said_first first)) }
    ensures short { IfOk result (λ _. length bytes.now ≤ 524288) }
    ensures few { IfOk result (λ first. length first.0.items ≤ 32768) }
    ensures may { IfOk result (λ first. MayAllCome (length script.now.tasks)
        (length script.now.templates) first.0.items) }
{
    if bytes.len() > MOST_FIRST_BYTES {
        return Err(ScheduleFault::Bad {
            line: 0,
            reason: Reason::TooLong,
        });
    }
    let events = read_schedule(alloc, bytes, script)?;
    if events.len() > MOST_FIRST_EVENTS {
        return Err(ScheduleFault::Bad {
            line: 0,
            reason: Reason::TooManyEvents,
        });
    }
    let names = names_behind(alloc, script, bytes)?;
    Ok((events, names))
}
