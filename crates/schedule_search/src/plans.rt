//! The bodies of the tasks of a run, by the script and the spawns.
ghost use Rattle.std.specs.Prelude.{◌≡◌, ◌-◌, slice_get};
ghost use Rattle.std.specs.Option.{option_copied};
ghost use Rattle.run_words.specs.Reached.{spawns_of};
ghost use Rattle.schedule_search.specs.Plans.{template_of, spawned_plans, plan_at, bodies_of};

use ipc_ids::{Body, Event, TaskNo};
use script_reader::{Script, TaskPlan};

/// The template from which an event makes a task.
fn template_of<'a>(templates: &'a [TaskPlan], event: &Event) -> Option<&'a TaskPlan>
    ensures { option_copied result ≡ template_of templates.now event.now }
{
    match event {
        Event::Spawn(place) => templates.get(*place as usize),
        Event::Step(_) | Event::Kill(_) | Event::Hangup(_, _) => None,
    }
}

/// The template of a task that these events made, before which they made so many.
#[tactic(auto, using(crate::proofs::Bodies::one_spawned))]
fn spawned_plan<'a>(templates: &'a [TaskPlan], from: &[Event], place: usize) -> Option<&'a TaskPlan>
    ensures { option_copied result
        ≡ slice_get (spawned_plans templates.now (spawns_of from.now)) place }
{
    let mut rest = from;
    let mut left = place;
    while let [event, others @ ..] = rest {
        if let Some(plan) = template_of(templates, event) {
            if left == 0 {
                return Some(plan);
            }
            left -= 1;
        }
        rest = others;
    }
    None
}

/// The plan of a task: of the script, or of those that the spawns among these events made.
#[tactic(auto, using(crate::proofs::Bodies::of_script, crate::proofs::Bodies::of_spawn))]
fn plan_of<'a>(script: &'a Script, from: &[Event], task: TaskNo) -> Option<&'a TaskPlan>
    ensures { option_copied result ≡ plan_at script.now (spawns_of from.now) task }
{
    let tasks = script.tasks.as_slice();
    let place = (task.0 as usize).saturating_sub(1);
    if place < tasks.len() {
        return tasks.get(place);
    }
    spawned_plan(script.templates.as_slice(), from, place - tasks.len())
}

/// The bodies of a task; none where it has no plan.
pub(crate) fn bodies_of<'a>(script: &'a Script, from: &[Event], task: TaskNo) -> &'a [Body]
    ensures { result.now ≡ bodies_of script.now (spawns_of from.now) task }
{
    match plan_of(script, from, task) {
        Some(plan) => plan.bodies.as_slice(),
        None => &[],
    }
}
