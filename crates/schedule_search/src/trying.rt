//! Whether events may be tried.
ghost use Rattle.std.specs.Prelude.{◌≡◌};
ghost use Rattle.schedule_search.specs.Search.{may_try};
ghost use Rattle.schedule_search.specs.Problem.{search_of, CanTry};

use crate::kills::{is_within, kills_in};
use crate::problem::Problem;
use crate::spawns::{are_few, may_all_come, tasks_behind};
use ipc_ids::Event;

/// Whether there may be so many kills and so many tasks of each template, and each event is on a task
/// that there is by then.
pub(crate) fn may_try(problem: &Problem<'_>, events: &[Event]) -> bool
    requires { CanTry (search_of problem.now) events.now }
    ensures { result ≡ may_try (search_of problem.now) events.now }
{
    let script = problem.script;
    let tasks = tasks_behind(script.tasks.as_slice().len(), problem.from);
    let templates = script.templates.as_slice().len();
    is_within(problem.kills, kills_in(events))
        && (are_few(problem.spawns, events) && may_all_come(tasks, templates, events))
}
