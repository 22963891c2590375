//! Makes a run of a number: a script of sixteen tasks that call one another, and events on them.
ghost use Rattle.std.specs.Prelude.{◌≡◌, ◌<◌, ◌≤◌, ◌++◌, length, IfOk, OnOk};
ghost use Rattle.ipc_ids.specs.Tables.{most_events};
ghost use Rattle.script_reader.specs.Schedule.{MayAllCome};
ghost use Rattle.schedule_replay.specs.Generator.{event_of, generated_count, generated_events, generated_name, generated_operations, generated_plan, generated_task, next_number, wires_of};

use crate::feed::Feed;
use ipc_ids::{Bodies, Body, Code, Event, NoMemory, Op, Ops, PhoneNo, TaskNo, Value};
use script_reader::{Kind, Name, Script, TaskPlan, TaskPlans, Wire, Wires};
use std::alloc::Global;
use std::marker::Model;

/// How many tasks a made script has, each of which calls each other one.
const TASKS: u64 = 16;

/// How many phones of each task lead to a task.
const WIRED: u32 = 15;

/// A method of the tasks' own.
const METHOD: u64 = 512;

const NO_ARGUMENTS: [Value; 5] = [Value::Number(0); 5];

/// The events of a seed, each made as it is asked for. Contracts see the list of those that are
/// left.
#[derive(Drop)]
pub struct GeneratedFeed {
    // The number of the last event, and at first the seed.
    number: u64,
    // How many events are left.
    left: u64,
}

impl Model for GeneratedFeed {
    ghost use Rattle.std.specs.Prelude.{List};
    ghost use Rattle.ipc_ids.specs.declared.message.Event.{Event};
    ghost use Rattle.schedule_replay.specs.Generator.{generated_events};

    ghost Value = { List Event };

    ghost view = { λ feed. generated_events feed.number feed.left };
}

impl GeneratedFeed {
    /// A feed with all events that `generate` makes of the seed left, so many, at most 65,536. Takes
    /// no memory.
    #[tactic(auto, using(crate::proofs::GeneratedScript::generated_may, crate::proofs::GeneratedScript::generated_events_count))]
    pub fn new(seed: u64, events: u64) -> GeneratedFeed
        requires { events ≤ most_events }
        ensures events { result ≡ generated_events seed events }
        ensures count { length result ≡ events }
        ensures may { MayAllCome (length generated_plan.tasks) (length generated_plan.templates)
            result }
    {
        GeneratedFeed {
            number: seed,
            left: events,
        }
    }
}

impl Feed for GeneratedFeed {
    ghost left = { λ events. events };

    #[tactic(auto, using(crate::proofs::GeneratedScript::next_generated))]
    fn next(&mut self) -> Option<Event> {
        let left = self.left.checked_sub(1)?;
        self.left = left;
        self.number = next_number(self.number);
        Some(event_of(self.number))
    }
}

/// The name of task `gK`.
#[tactic(auto, using(crate::proofs::GeneratedScript::short_name, crate::proofs::GeneratedScript::long_name))]
fn name_of_task(k: u64) -> Name
    requires { k < generated_count }
    ensures { result ≡ generated_name k }
{
    let digit = b'0' + (k % 10) as u8;
    if k < 10 {
        Name::from_slice(&[b'g', digit]).unwrap()
    } else {
        Name::from_slice(&[b'g', b'1', digit]).unwrap()
    }
}

/// A call over each wired phone; then it waits for a call, answers it, and begins again.
#[tactic(auto, using(crate::proofs::GeneratedScript::made_more, crate::proofs::GeneratedScript::four_more), unfolding(crate::specs::Generator::generated_operations))]
fn operations(alloc: Global) -> Result<Ops, NoMemory>
    ensures { IfOk result (λ made. made ≡ generated_operations) }
{
    let mut ops = Ops::new(alloc);
    for phone in 0..WIRED as u64 {
        ops.push(Op::Call {
            phone: Value::Number(phone),
            method: Value::Number(METHOD),
            args: NO_ARGUMENTS,
        })?;
    }
    ops.push(Op::Receive)?;
    ops.push(Op::Answer {
        call: Value::Register(2),
        code: Value::Number(Code::EOK.0),
        args: NO_ARGUMENTS,
    })?;
    ops.push(Op::Receive)?;
    ops.push(Op::Jump(0))?;
    Ok(ops)
}

/// Task `gK`, with as many phones as a task can have.
fn task(alloc: Global, k: u64) -> Result<TaskPlan, NoMemory>
    requires { k < generated_count }
    ensures { IfOk result (λ made. made ≡ generated_task k) }
{
    let ops = operations(alloc)?;
    let mut bodies = Bodies::new(alloc);
    bodies.push(Body {
        connection: false,
        ops,
    })?;
    Ok(TaskPlan {
        name: name_of_task(k),
        kind: Kind::Raw,
        limit: 64,
        bodies,
        blocks: 0,
        service: None,
    })
}

#[tactic(auto, using(crate::proofs::GeneratedScript::made_more))]
fn tasks(alloc: Global) -> Result<TaskPlans, NoMemory>
    ensures { IfOk result (λ made. made ≡ generated_plan.tasks) }
{
    let mut tasks = TaskPlans::new(alloc);
    for k in 0..TASKS {
        tasks.push(task(alloc, k)?)?;
    }
    Ok(tasks)
}

/// Adds the wires of task `gK`: each phone leads to the task that many and one more after it, round
/// from the last to the first.
#[tactic(auto, using(crate::proofs::GeneratedScript::joined_more))]
fn add_wires(wires: &mut Wires, k: u64) -> Result<(), NoMemory>
    requires { k < generated_count }
    ensures { OnOk result (wires.new ≡ wires.old ++ wires_of k) }
{
    for phone in 0..WIRED {
        wires.push(Wire {
            from: TaskNo(k + 1),
            phone: PhoneNo(phone),
            to: TaskNo((k + phone as u64 + 1) % TASKS + 1),
        })?;
    }
    Ok(())
}

#[tactic(auto, using(crate::proofs::GeneratedScript::pieces_more))]
fn wires(alloc: Global) -> Result<Wires, NoMemory>
    ensures { IfOk result (λ made. made ≡ generated_plan.wires) }
{
    let mut wires = Wires::new(alloc);
    for k in 0..TASKS {
        add_wires(&mut wires, k)?;
    }
    Ok(wires)
}

/// The script of sixteen tasks that all generated runs have.
///
/// # Errors
///
/// `NoMemory` where no memory was found.
pub fn generated_script(alloc: Global) -> Result<Script, NoMemory>
    ensures { IfOk result (λ made. made ≡ generated_plan) }
{
    let tasks = tasks(alloc)?;
    let wires = wires(alloc)?;
    Ok(Script {
        tasks,
        wires,
        templates: TaskPlans::new(alloc),
    })
}

/// What the number becomes by an event: a linear congruence over 64 bits.
#[tactic(auto, unfolding(crate::specs::Generator::next_number))]
pub(crate) fn next_number(number: u64) -> u64
    ensures { result ≡ next_number number }
{
    number
        .wrapping_mul(6364136223846793005)
        .wrapping_add(1442695040888963407)
}

/// The event of a number: the highest 4 bits say which task, and where the 12 below them are 0, the
/// task is killed.
#[tactic(auto, unfolding(crate::specs::Generator::event_of))]
pub(crate) fn event_of(number: u64) -> Event
    ensures { result ≡ event_of number }
{
    let task = TaskNo((number >> 60) + 1);
    if (number >> 48) % 4096 == 0 {
        Event::Kill(task)
    } else {
        Event::Step(task)
    }
}
