//! Whether conditions hold in the state of a run.
ghost use Rattle.std.specs.Prelude.{◌≡◌, is_some, slice_get};
ghost use Rattle.std.specs.Option.{option_copied};
ghost use Rattle.async_task.specs.AsyncState.{context_at, op_in};
ghost use Rattle.task_system.specs.Run.{ops_of};
ghost use Rattle.run_words.specs.Constants.{constant};
ghost use Rattle.run_words.specs.Reached.{IsReached, spawns_of};
ghost use Rattle.schedule_search.specs.Plans.{DoesBodies};
ghost use Rattle.schedule_search.specs.Holding.{task_of, named_fibril, or_first, is_number, holds_at};
ghost use Rattle.schedule_search.specs.Holding.{holds_of_ended, holds_of_raw, holds_kept, was_made};
ghost use Rattle.schedule_search.specs.Holding.{holds_of_fibril, holds_of, is_killed, program_with};
ghost use Rattle.schedule_search.specs.Holding.{holds, all_hold};

use crate::plans::bodies_of;
use async_task::{AsyncProgram, Context};
use ipc_ids::{Body, Event, FibrilNo, TaskNo};
use raw_program::RawProgram;
use script_reader::Script;
use search_goals::{Condition, Subject};
use task_system::{AnyProgram, System};

/// The task that a condition is about, and the fibril that it names, if it names one.
fn subject_of(condition: &Condition) -> Subject
    ensures task { result.task ≡ task_of condition.now }
    ensures fibril { result.fibril ≡ named_fibril condition.now }
{
    match condition {
        Condition::At(subject, _) => *subject,
        Condition::Holds(subject, _, _) => *subject,
        Condition::AtEnd(subject) => *subject,
        Condition::Killed(task) => Subject {
            task: *task,
            fibril: None,
        },
    }
}

/// The fibril that is named; where none is, the first.
fn or_first(fibril: Option<FibrilNo>) -> FibrilNo
    ensures { result ≡ or_first fibril }
{
    match fibril {
        Some(fibril) => fibril,
        None => FibrilNo(1),
    }
}

/// Whether a register is there and holds that.
fn is_number(registers: &[u64], register: u32, number: u64) -> bool
    ensures { result ≡ is_number number (slice_get registers.now register) }
{
    match registers.get(register as usize) {
        Some(held) => *held == number,
        None => false,
    }
}

/// Whether what is asked of a body holds, by whether there is a next operation, its number and the
/// registers.
fn holds_at(condition: &Condition, goes_on: bool, place: usize, registers: &[u64]) -> bool
    ensures { result ≡ holds_at condition.now goes_on place registers.now }
{
    match condition {
        Condition::At(_, number) => goes_on && place as u64 == *number,
        Condition::Holds(_, register, number) => is_number(registers, *register, *number),
        Condition::AtEnd(_) => !goes_on,
        Condition::Killed(_) => false,
    }
}

/// The same of a fibril that has ended.
fn holds_of_ended(condition: &Condition) -> bool
    ensures { result ≡ holds_of_ended condition.now }
{
    match condition {
        Condition::AtEnd(_) => true,
        Condition::At(_, _) | Condition::Holds(_, _, _) | Condition::Killed(_) => false,
    }
}

/// Whether there is an operation at a place of a body.
fn goes_on(bodies: &[Body], body: usize, place: usize) -> bool
    ensures { result ≡ is_some (op_in (slice_get bodies.now body) place) }
{
    match bodies.get(body) {
        Some(body) => place < body.ops.as_slice().len(),
        None => false,
    }
}

/// Whether a condition holds of a raw task with these bodies; not where it names a fibril.
#[tactic(auto, using(crate::proofs::Bodies::first_body))]
fn holds_of_raw(
    condition: &Condition,
    fibril: Option<FibrilNo>,
    program: &RawProgram,
    bodies: &[Body],
) -> bool
    requires { program.now.ops ≡ ops_of bodies.now }
    ensures { result ≡ holds_of_raw condition.now fibril program.now }
{
    match fibril {
        Some(_) => false,
        None => {
            let place = program.place();
            let going = goes_on(bodies, 0, place);
            holds_at(condition, going, place, program.registers())
        }
    }
}

/// Whether a condition holds of a fibril that keeps this, or keeps nothing any more.
fn holds_kept(condition: &Condition, bodies: &[Body], context: Option<&Context>) -> bool
    ensures { result ≡ holds_kept condition.now bodies.now (option_copied context.entry) }
{
    match context {
        Some(context) => {
            let going = goes_on(bodies, context.body, context.place);
            holds_at(
                condition,
                going,
                context.place,
                context.registers.as_slice(),
            )
        }
        None => holds_of_ended(condition),
    }
}

/// Whether a fibril of this number was made.
fn was_made(program: &AsyncProgram, fibril: FibrilNo) -> bool
    ensures { result ≡ was_made program.now.state fibril }
{
    0 < fibril.0 && fibril.0 <= program.contexts().made() as u64
}

/// What a fibril keeps.
fn context_at(program: &AsyncProgram, fibril: FibrilNo) -> Option<&Context>
    ensures { option_copied result ≡ context_at program.now.state fibril }
{
    program
        .contexts()
        .get((fibril.0 as usize).saturating_sub(1))
}

/// Whether a condition holds of a fibril of a task with these bodies.
fn holds_of_fibril(
    condition: &Condition,
    fibril: FibrilNo,
    program: &AsyncProgram,
    bodies: &[Body],
) -> bool
    requires { program.now.state.bodies ≡ bodies.now }
    ensures { result ≡ holds_of_fibril condition.now program.now.state fibril }
{
    if !was_made(program, fibril) {
        return false;
    }
    holds_kept(condition, bodies, context_at(program, fibril))
}

/// Whether a condition holds of the program of a task with these bodies.
fn holds_of(condition: &Condition, program: &AnyProgram, bodies: &[Body]) -> bool
    requires { DoesBodies (constant program.now) bodies.now }
    ensures { result ≡ holds_of condition.now program.now }
{
    let fibril = subject_of(condition).fibril;
    match program {
        AnyProgram::Raw(program) => holds_of_raw(condition, fibril, program, bodies),
        AnyProgram::Async(program) => {
            holds_of_fibril(condition, or_first(fibril), program, bodies)
        }
        AnyProgram::Naming(_) | AnyProgram::Block(_) => false,
    }
}

/// Whether what is asked is that a task was killed, and it has ended.
fn is_killed(condition: &Condition, system: &System) -> bool
    ensures { result ≡ is_killed condition.now system.now.kernel }
{
    match condition {
        Condition::Killed(task) => !system.kernel().alive(*task),
        Condition::At(_, _) | Condition::Holds(_, _, _) | Condition::AtEnd(_) => false,
    }
}

/// The program of a task, also of one that has ended.
fn program_with(system: &System, task: TaskNo) -> Option<&AnyProgram>
    ensures { option_copied result ≡ program_with system.now task }
{
    if task.0 == 0 {
        return None;
    }
    system.programs().get((task.0 as usize).saturating_sub(1))
}

/// Whether a condition holds in a state of a run of the script, which events led to whose spawns are
/// those of `from`. Takes no memory.
///
/// Operations count from 0, as a jump counts them, and those of a fibril in its own body. In an async
/// task a condition that names no fibril is about fibril 1. A fibril that has ended is at its end,
/// and at no operation, and its registers hold nothing. A task that was killed keeps its place and
/// its registers as they were. Of the naming service and of a block server nothing holds but that it
/// was killed, and of a task or a fibril that was never made nothing at all; a raw task has no
/// fibrils.
pub(crate) fn holds(condition: &Condition, script: &Script, from: &[Event], system: &System) -> bool
    requires reached { IsReached script.now (spawns_of from.now) system.now }
    ensures { result ≡ holds condition.now system.now }
{
    let task = subject_of(condition).task;
    match program_with(system, task) {
        Some(program) => {
            let bodies = bodies_of(script, from, task);
            is_killed(condition, system) || holds_of(condition, program, bodies)
        }
        None => false,
    }
}

/// Whether each of these holds there. Takes no memory.
pub(crate) fn all_hold(
    conditions: &[Condition],
    script: &Script,
    from: &[Event],
    system: &System,
) -> bool
    requires reached { IsReached script.now (spawns_of from.now) system.now }
    ensures { result ≡ all_hold conditions.now system.now }
{
    for condition in conditions {
        if !holds(condition, script, from, system) {
            return false;
        }
    }
    true
}
