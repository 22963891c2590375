//! Which operations a goal may ask for.
ghost use Rattle.std.specs.Prelude.{◌≡◌};
ghost use Rattle.std.specs.Option.{option_copied};
ghost use Rattle.search_goals.specs.Places.{plan_of, has_operation, is_known, is_known_of};

use crate::conditions::Condition;
use ipc_ids::{Body, TaskNo};
use script_lines::TaskPlan;

/// The plan of a task of the script; none of a task that was made.
pub(crate) fn plan_of(tasks: &[TaskPlan], task: TaskNo) -> Option<&TaskPlan>
    ensures { option_copied result ≡ plan_of tasks.now task }
{
    tasks.get((task.0 as usize).saturating_sub(1))
}

/// Whether some body has the operation of this number.
fn has_operation(bodies: &[Body], place: u64) -> bool
    ensures { result ≡ has_operation bodies.now place }
{
    for body in bodies {
        if place < body.ops.as_slice().len() as u64 {
            return true;
        }
    }
    false
}

/// Whether some body has the operation that a condition asks for, where it asks for one.
fn is_known(bodies: &[Body], condition: &Condition) -> bool
    ensures { result ≡ is_known bodies.now condition.now }
{
    match condition {
        Condition::At(_, place) => has_operation(bodies, *place),
        Condition::Holds(_, _, _) | Condition::AtEnd(_) | Condition::Killed(_) => true,
    }
}

/// The same of a task by its plan. Of a task that was made nothing is known, so it may have each.
pub(crate) fn is_known_of(plan: Option<&TaskPlan>, condition: &Condition) -> bool
    ensures { result ≡ is_known_of (option_copied plan.entry) condition.now }
{
    match plan {
        None => true,
        Some(plan) => is_known(plan.bodies.as_slice(), condition),
    }
}
