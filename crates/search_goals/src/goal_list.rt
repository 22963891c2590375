//! Reads several goals, each of which is looked for behind the one before it.
ghost use Rattle.std.specs.Prelude.{◌≡◌, true, IfOk, OnOk};
ghost use Rattle.std.specs.Result.{result_map_both};
ghost use Rattle.script_lines.specs.Text.{texts};
ghost use Rattle.search_goals.specs.declared.goal_list.GoalsFault.TheVariants as faults;
ghost use Rattle.search_goals.specs.GoalText.{said};
ghost use Rattle.search_goals.specs.GoalList.{fault_in, may_precede, all_precede, first_goal, with_last, with_goal, goals_of, said_all, sought_by, AnswersGoals};

use crate::goal::{Goal, GoalFault, read_goal_for};
use ipc_ids::NoMemory;
use script_lines::{Names, Reason, TaskPlan};
use std::alloc::Global;
use std::mem::replace;

const MOST_GOALS: usize = 8;

/// Goals that a schedule meets in turn: those that come first, in their order, and the last.
#[derive(Drop)]
pub struct Goals {
    pub earlier: Vec<Goal>,
    pub last: Goal,
}

/// Why goals are not read.
#[derive(Clone, Copy)]
pub enum GoalsFault {
    /// The first goal at fault, numbered from 1, and its first word at fault as `GoalFault` has it.
    Bad {
        goal: u64,
        word: u64,
        reason: Reason,
    },
    /// No memory was found.
    NoMemory,
}

impl From<NoMemory> for GoalsFault {
    ghost from_gives = { λ _ e. e ≡ faults.NoMemory };

    fn from(_error: NoMemory) -> GoalsFault {
        GoalsFault::NoMemory
    }
}

/// The fault of the goal of this number.
fn fault_in(goal: u64, fault: GoalFault) -> GoalsFault
    ensures { result ≡ fault_in goal fault }
{
    match fault {
        GoalFault::Bad { word, reason } => GoalsFault::Bad { goal, word, reason },
        GoalFault::NoMemory => GoalsFault::NoMemory,
    }
}

/// Whether other goals may come behind this one: one state and the entries of one event tell that it
/// is met.
pub fn may_precede(goal: &Goal) -> bool
    ensures { result ≡ may_precede (said goal.now) }
{
    match goal {
        Goal::Lost => false,
        Goal::Rest | Goal::Stuck(_) | Goal::When(_) | Goal::Line { .. } => true,
    }
}

/// Puts this goal behind the goals.
fn put_last(goals: &mut Goals, last: Goal) -> Result<(), NoMemory>
    ensures { OnOk result (sought_by goals.new ≡ with_last (sought_by goals.old) (said last)) }
{
    let before = replace(&mut goals.last, last);
    goals.earlier.push(before)?;
    Ok(())
}

/// Puts the goal of this text behind the goals.
#[tactic(auto, unfolding(crate::specs::GoalList::with_goal))]
fn put_behind(
    alloc: Global,
    names: &Names,
    tasks: &[TaskPlan],
    goals: &mut Goals,
    text: &[u8],
) -> Result<(), GoalsFault>
    ensures { AnswersGoals (result_map_both (λ _. goals.new) (λ fault. fault) result)
        (with_goal names.now tasks.now (sought_by goals.old) text.now) }
{
    let count = goals.earlier.len();
    if !may_precede(&goals.last) {
        return Err(GoalsFault::Bad {
            goal: count as u64 + 1,
            word: 1,
            reason: Reason::OutOfPlace,
        });
    }
    if count + 1 >= MOST_GOALS {
        return Err(GoalsFault::Bad {
            goal: count as u64 + 2,
            word: 0,
            reason: Reason::TooMany,
        });
    }
    match read_goal_for(alloc, names, tasks, text) {
        Ok(last) => match put_last(goals, last) {
            Ok(()) => Ok(()),
            Err(NoMemory) => Err(GoalsFault::NoMemory),
        },
        Err(fault) => Err(fault_in(count as u64 + 2, fault)),
    }
}

/// The goal of this text alone.
fn first_goal(
    alloc: Global,
    names: &Names,
    tasks: &[TaskPlan],
    text: &[u8],
) -> Result<Goals, GoalsFault>
    ensures { AnswersGoals result (first_goal names.now tasks.now text.now) }
{
    match read_goal_for(alloc, names, tasks, text) {
        Ok(last) => Ok(Goals {
            earlier: Vec::new(alloc),
            last,
        }),
        Err(fault) => Err(fault_in(1, fault)),
    }
}

/// The goals that texts say, each as `read_goal_for` reads it, for tasks of these names. The first of the
/// tasks are those of a script, of which the operations are known.
///
/// # Errors
///
/// `Bad` for the first goal at fault: one with a fault of its own, one that asks for a call that is
/// lost where another stands behind it, and a ninth. `NoMemory` where no memory was found.
#[tactic(auto, unfolding(crate::specs::GoalList::goals_of))]
pub fn read_goals_for(
    alloc: Global,
    names: &Names,
    tasks: &[TaskPlan],
    first: &[u8],
    later: &[&[u8]],
) -> Result<Goals, GoalsFault>
    ensures value { AnswersGoals result
        (goals_of names.now tasks.now first.now (texts later.now)) }
    ensures precede { IfOk result (λ goals. all_precede (said_all goals.earlier.items) ≡ true) }
{
    let mut goals = first_goal(alloc, names, tasks, first)?;
    for text in later {
        if let Err(fault) = put_behind(alloc, names, tasks, &mut goals, *text) {
            drop(goals);
            return Err(fault);
        }
    }
    Ok(goals)
}
