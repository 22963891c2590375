//! Whether a call is ever answered, whatever steps of tasks come behind events.
ghost use Rattle.std.specs.Prelude.{◌≡◌, ◌≤◌, ◌<◌, true, false, Some, IfOk, length};
ghost use Rattle.schedule_search.specs.Search.{state_behind};
ghost use Rattle.schedule_search.specs.Problem.{search_of, CanDo, IsAtStart};
ghost use Rattle.schedule_search.specs.Lost.{IsLost, HasLostCall};

use crate::ahead::Ahead;
use crate::open_calls::is_open;
use crate::place::{all_calls, do_event, lead, started, tasks};
use crate::problem::Problem;
use ipc_ids::{CallNo, Event, TaskNo, Trace};
use schedule_replay::Replay;
use search_core::{Answer, search};
use std::alloc::{AllocError, Global};

/// In how many orders, and for how many steps of each task, a call is looked for before all orders.
const ORDERS: u64 = 8;

const STEPS: u64 = 64;

/// The most tasks, and the most steps of them, behind which a call is looked for.
const MOST_TASKS: usize = 4096;

const MOST_STEPS: u32 = 1_048_575;

/// The number behind another, where they go all over the place.
fn next_number(number: u64) -> u64 {
    number
        .wrapping_mul(6_364_136_223_846_793_005)
        .wrapping_add(1_442_695_040_888_963_407)
}

/// Whether the call is closed behind these events by steps of so many tasks in one order, through which
/// `replay` is led from where it starts. If not, others may close it.
fn closes_by_steps(
    alloc: Global,
    problem: &Problem<'_>,
    events: &[Event],
    replay: &mut Replay,
    tasks: u64,
    call: CallNo,
    order: u64,
) -> Result<bool, AllocError>
    requires can { CanDo (search_of problem.now) events.now }
    requires at_start { IsAtStart problem.now.script.now replay.old.state }
    requires count { tasks ≡ length (state_behind (search_of problem.now) events.now).kernel.tasks.alive }
    requires some { 0 < tasks }
    requires few { tasks ≤ 4096 }
    ensures { IfOk result (λ closes. closes ≡ true
        → IsLost (state_behind (search_of problem.now) events.now) call.0 → ⊥) }
{
    lead(alloc, problem, events, replay)?;
    let mut told = Trace::new(alloc);
    let mut number = order;
    let steps = STEPS * tasks;
    for i in 0..steps {
        number = next_number(number);
        let task = (number >> 33) % tasks + 1;
        do_event(replay, &mut told, &Event::Step(TaskNo(task)))?;
        if !is_open(None, all_calls(replay).get(call)) {
            return Ok(true);
        }
    }
    Ok(false)
}

/// Whether the call is closed behind these events, and steps of so many tasks in one order.
fn closes_in_order(
    alloc: Global,
    problem: &Problem<'_>,
    events: &[Event],
    tasks: u64,
    call: CallNo,
    order: u64,
) -> Result<bool, AllocError>
    requires can { CanDo (search_of problem.now) events.now }
    requires count { tasks ≡ length (state_behind (search_of problem.now) events.now).kernel.tasks.alive }
    requires few { tasks ≤ 4096 }
    ensures { IfOk result (λ closes. closes ≡ true
        → IsLost (state_behind (search_of problem.now) events.now) call.0 → ⊥) }
{
    if tasks == 0 {
        return Ok(false);
    }
    let mut replay = started(alloc, problem.script)?;
    let closes = closes_by_steps(alloc, problem, events, &mut replay, tasks, call, order);
    replay.close();
    closes
}

/// Whether it is in one of some orders.
fn closes_in_some(
    alloc: Global,
    problem: &Problem<'_>,
    events: &[Event],
    tasks: u64,
    call: CallNo,
) -> Result<bool, AllocError>
    requires can { CanDo (search_of problem.now) events.now }
    requires count { tasks ≡ length (state_behind (search_of problem.now) events.now).kernel.tasks.alive }
    requires few { tasks ≤ 4096 }
    ensures { IfOk result (λ closes. closes ≡ true
        → IsLost (state_behind (search_of problem.now) events.now) call.0 → ⊥) }
{
    for order in 0..ORDERS {
        if closes_in_order(alloc, problem, events, tasks, call, order)? {
            return Ok(true);
        }
    }
    Ok(false)
}

/// Whether a call is lost behind these events, where `replay` stands; `None` where there are more
/// states behind them than there is room for.
fn is_lost(
    alloc: Global,
    problem: &Problem<'_>,
    events: &[Event],
    replay: &Replay,
    call: CallNo,
    room: u32,
) -> Result<Option<bool>, AllocError>
    requires can { CanDo (search_of problem.now) events.now }
    requires here { replay.now.state ≡ state_behind (search_of problem.now) events.now }
    ensures lost { IfOk result (λ o. o ≡ Some true → IsLost replay.now.state call.0) }
    ensures answered { IfOk result (λ o. o ≡ Some false → IsLost replay.now.state call.0 → ⊥) }
{
    let open = is_open(None, all_calls(replay).get(call));
    if !open {
        return Ok(Some(false));
    }
    let count = tasks(replay);
    if count > MOST_TASKS {
        return Ok(None);
    }
    let soon = closes_in_some(alloc, problem, events, count as u64, call)?;
    if soon {
        return Ok(Some(false));
    }
    let ahead = Ahead {
        problem,
        events,
        tasks: count as u32,
        call,
    };
    let answer = search(alloc, &ahead, MOST_STEPS, room)?;
    match answer {
        Answer::Found(_) => return Ok(Some(false)),
        Answer::NoneAtAll(_) => return Ok(Some(true)),
        Answer::NoneWithin(_) | Answer::NoRoom => {}
    }
    Ok(None)
}

/// Whether a call is lost behind these events, where `replay` stands; `None` where there is no room
/// to tell.
pub(crate) fn has_lost_call(
    alloc: Global,
    problem: &Problem<'_>,
    events: &[Event],
    replay: &Replay,
    room: u32,
) -> Result<Option<bool>, AllocError>
    requires can { CanDo (search_of problem.now) events.now }
    requires here { replay.now.state ≡ state_behind (search_of problem.now) events.now }
    ensures lost { IfOk result (λ o. o ≡ Some true → HasLostCall replay.now.state) }
    ensures none { IfOk result (λ o. o ≡ Some false → HasLostCall replay.now.state → ⊥) }
{
    let next = all_calls(replay).next_number().0;
    for n in 0..next {
        let Some(lost) = is_lost(alloc, problem, events, replay, CallNo(n), room)? else {
            return Ok(None);
        };
        if lost {
            return Ok(Some(true));
        }
    }
    Ok(Some(false))
}
