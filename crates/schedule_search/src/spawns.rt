//! How many tasks there are behind events, and which events may come there.
ghost use Rattle.std.specs.Prelude.{◌≡◌, ◌≤◌, ◌+◌, ◌^◌, ◌<◌, length};
ghost use Rattle.script_reader.specs.Schedule.{tasks_after};
ghost use Rattle.search_goals.specs.Writing.{tasks_behind};
ghost use Rattle.schedule_search.specs.Search.{makes, made_in, are_few, is_task, may_come, may_all_come};

use crate::problem::MostMade;
use ipc_ids::{Event, TaskNo};

/// The most tasks that there can be.
const MOST_TASKS: usize = 64;

/// How many tasks there are behind an event, before which there are so many.
fn tasks_after(tasks: usize, event: &Event) -> usize
    requires { tasks + 1 < 2 ^ 64 }
    ensures value { result ≡ tasks_after tasks event.now }
    ensures few { result ≤ tasks + 1 }
{
    match event {
        Event::Spawn(_) => tasks + 1,
        Event::Step(_) | Event::Kill(_) | Event::Hangup(_, _) => tasks,
    }
}

/// How many tasks there are behind events, before which there are so many.
pub fn tasks_behind(tasks: usize, events: &[Event]) -> usize
    requires { tasks + length events.now < 2 ^ 64 }
    ensures value { result ≡ tasks_behind tasks events.now }
    ensures few { result ≤ tasks + length events.now }
{
    let mut count = tasks;
    for event in events {
        count = tasks_after(count, event);
    }
    count
}

/// Whether a task of this template is made.
fn makes(place: u32, event: &Event) -> bool
    ensures { result ≡ makes place event.now }
{
    match event {
        Event::Spawn(other) => *other == place,
        Event::Step(_) | Event::Kill(_) | Event::Hangup(_, _) => false,
    }
}

/// How many tasks of this template the events make.
fn made_in(place: u32, events: &[Event]) -> usize
    ensures { result ≡ made_in place events.now }
{
    events.iter().filter(|event| makes(place, *event)).count()
}

/// Whether of no template that is named more are made than may be.
pub(crate) fn are_few(bounds: &[MostMade], events: &[Event]) -> bool
    ensures { result ≡ are_few bounds.now events.now }
{
    bounds.iter().all(|bound| made_in(bound.place, events) <= bound.most as usize)
}

/// Whether of so many tasks one has this number.
fn is_task(tasks: usize, task: TaskNo) -> bool
    ensures { result ≡ is_task tasks task.0 }
{
    1 <= task.0 && task.0 <= tasks as u64
}

/// Whether the event is on a task that there is, or makes one while there are few.
fn may_come(tasks: usize, templates: usize, event: &Event) -> bool
    ensures { result ≡ may_come tasks templates event.now }
{
    match event {
        Event::Step(task) => is_task(tasks, *task),
        Event::Kill(task) => is_task(tasks, *task),
        Event::Hangup(task, _) => is_task(tasks, *task),
        Event::Spawn(place) => (*place as usize) < templates && tasks < MOST_TASKS,
    }
}

/// Whether so does each of these, after those before it.
pub(crate) fn may_all_come(tasks: usize, templates: usize, events: &[Event]) -> bool
    requires { tasks + length events.now < 2 ^ 64 }
    ensures { result ≡ may_all_come tasks templates events.now }
{
    let mut count = tasks;
    for event in events {
        if !may_come(count, templates, event) {
            return false;
        }
        count = tasks_after(count, event);
    }
    true
}
