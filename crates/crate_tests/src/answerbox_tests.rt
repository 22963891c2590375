//! Many calls come to one place and leave, in the order of their arrival and from the middle. Small
//! functions test what a call of the boxes wants.
ghost use Rattle.std.specs.Prelude.{◌≡◌, ◌<◌, ◌≤◌, Some, IsSome, OnOk, []};
ghost use Rattle.answerbox.specs.Calls.{call_at, task_of};

use answerbox::Boxes;
use call_slab::{Call, Place};
use ipc_ids::{Buffer, CallNo, Code, Label, Msg, NoMemory, PhoneNo, Reply, Steps, TaskNo};
use std::alloc::Global;
use std::marker::Brand;
use std::sync::ledger::{Blank, Ledger};
use std::test::Fail;

/// What numbers and stamps stay below here.
pub(crate) const FAR: u64 = 1 << 40;

const ONE: TaskNo = TaskNo(1);

const TWO: TaskNo = TaskNo(2);

/// The place that calls come to.
const INCOMING: Place = Place::Incoming(TWO);

/// Whom calls come from.
const FROM: Label = Label {
    task: ONE,
    phone: PhoneNo(0),
};

/// A call from there that stands at that place.
pub(crate) fn call_from(alloc: Global, number: CallNo, from: Label, msg: Msg, place: Place) -> Call
    ensures number { result.number ≡ number }
    ensures caller { result.caller ≡ Some from.task }
    ensures place { result.place ≡ place }
    ensures buffer { result.buffer ≡ [] }
{
    Call {
        number,
        caller: Some(from.task),
        from,
        label: from,
        request: msg,
        msg,
        reply: Reply::bare(Code::EOK),
        discard: false,
        buffer: Buffer::new(alloc),
        reserved: None,
        place,
        stamp: 0,
    }
}

fn number_of(call: Option<CallNo>) -> u64 {
    match call {
        Some(call) => call.0,
        None => 0,
    }
}

/// A call comes from one of three tasks to a place of one of them.
pub(crate) fn send(boxes: &mut Boxes, from: Label, msg: Msg, place: Place) -> Result<(), Fail>
    requires tasks { boxes.old.tasks ≡ 3 }
    requires caller { from.task.0 ≤ 3 }
    requires place { task_of place ≤ 3 }
    ensures tasks { boxes.new.tasks ≡ 3 }
{
    boxes.reserve(1)?;
    let number = boxes.next_number();
    if number.0 >= FAR || boxes.next_stamp() >= FAR {
        return Err(Fail::new("too many calls"));
    }
    let _used = boxes.used();
    let call = call_from(boxes.alloc(), number, from, msg, place);
    boxes.enqueue(call);
    Ok(())
}

/// Whether the call leaves, which is live.
fn leaves(boxes: &mut Boxes, number: u64) -> Result<bool, Fail>
    requires tasks { boxes.old.tasks ≡ 3 }
    ensures tasks { boxes.new.tasks ≡ 3 }
{
    let call = CallNo(number);
    if boxes.get(call).is_none() {
        return Err(Fail::new("the call is gone"));
    }
    let gone = leave_counted::<Brand>(boxes, call, Blank::new(1));
    Ok(gone.number == call)
}

fn leave_counted<L: Ledger>(boxes: &mut Boxes, call: CallNo, blank: Blank) -> Call
    requires blank { (blank.name ≡ L.name) × (blank.parts ≡ L.parts) × (0 < blank.parts) }
    requires live { IsSome (call_at boxes.old.calls call.0) }
    ensures tasks { boxes.new.tasks ≡ boxes.old.tasks }
{
    let mut steps = Steps::<L>::new(blank);
    boxes.leave(call, &mut steps)
}

/// The number of the call at the front, or 0.
fn front(boxes: &Boxes) -> u64
    requires tasks { boxes.now.tasks ≡ 3 }
{
    number_of(front_counted::<Brand>(boxes, Blank::new(1)))
}

fn front_counted<L: Ledger>(boxes: &Boxes, blank: Blank) -> Option<CallNo>
    requires blank { (blank.name ≡ L.name) × (blank.parts ≡ L.parts) × (0 < blank.parts) }
    requires tasks { boxes.now.tasks ≡ 3 }
{
    let mut steps = Steps::<L>::new(blank);
    boxes.front(INCOMING, &mut steps)
}

/// Whether no call stands at the place, and the first task has made none that is live.
fn is_empty(boxes: &Boxes) -> bool
    requires tasks { boxes.now.tasks ≡ 3 }
{
    front(boxes) == 0 && number_of(boxes.calls_of(ONE)) == 0
}

pub(crate) fn three_tasks(boxes: &mut Boxes) -> Result<(), NoMemory>
    requires none { boxes.old.tasks ≡ 0 }
    ensures tasks { OnOk result (boxes.new.tasks ≡ 3) }
{
    boxes.add_task()?;
    boxes.add_task()?;
    boxes.add_task()
}

/// That many calls of the first task come.
fn sends(boxes: &mut Boxes, count: u64) -> Result<(), Fail>
    requires tasks { boxes.old.tasks ≡ 3 }
    ensures tasks { boxes.new.tasks ≡ 3 }
{
    boxes.reserve(count as usize)?;
    for _ in 0..count {
        send(boxes, FROM, Msg::bare(512), INCOMING)?;
    }
    Ok(())
}

/// Whether so many calls leave from the front, whose numbers rise by `step` from `number` on.
fn come_to_the_front(boxes: &mut Boxes, number: u64, step: u64, count: u64) -> Result<bool, Fail>
    requires tasks { boxes.old.tasks ≡ 3 }
    ensures tasks { boxes.new.tasks ≡ 3 }
{
    for i in 0..count {
        let next = number.saturating_add(step.saturating_mul(i));
        if front(boxes) != next || !leaves(boxes, next)? {
            return Ok(false);
        }
    }
    Ok(true)
}

/// Whether the calls with even numbers up to twice the count leave, the highest first where they
/// fall.
fn even_leave(boxes: &mut Boxes, count: u64, falls: bool) -> Result<bool, Fail>
    requires tasks { boxes.old.tasks ≡ 3 }
    ensures tasks { boxes.new.tasks ≡ 3 }
{
    for i in 0..count {
        let half = if falls { count - i } else { i + 1 };
        if !leaves(boxes, half.saturating_mul(2))? {
            return Ok(false);
        }
    }
    Ok(true)
}

/// Whether twice `half` calls come, every second one leaves, `more` come, and all leave in order.
fn arrive(boxes: &mut Boxes, half: u64, falls: bool, more: u64) -> Result<bool, Fail>
    requires tasks { boxes.old.tasks ≡ 3 }
    ensures tasks { boxes.new.tasks ≡ 3 }
{
    let count = half.saturating_mul(2);
    sends(boxes, count)?;
    let left = even_leave(boxes, half, falls)?;
    sends(boxes, more)?;
    let held = half.saturating_add(more) as usize;
    let are_held = boxes.calls_at(INCOMING) == held && boxes.calls_by(ONE) == held;
    let odd = come_to_the_front(boxes, 1, 2, half)?;
    Ok(left && are_held && odd && come_to_the_front(boxes, count.saturating_add(1), 1, more)?)
}

/// Whether they do so where there are no tasks yet, and no call is left.
fn leave_in_order(boxes: &mut Boxes, half: u64, falls: bool, more: u64) -> Result<bool, Fail>
    requires none { boxes.old.tasks ≡ 0 }
{
    three_tasks(boxes)?;
    let in_order = arrive(boxes, half, falls, more)?;
    Ok(in_order && is_empty(boxes))
}

fn calls_leave(alloc: Global, half: u64, falls: bool, more: u64) -> Result<bool, Fail> {
    let mut boxes = Boxes::new(alloc);
    leave_in_order(&mut boxes, half, falls, more)
}

#[test]
fn calls_leave_in_the_order_of_arrival(rt: HostRuntime) -> Result<(), Fail> {
    assert!(rt; calls_leave(rt.alloc(), 500, false, 500)?);
    Ok(())
}

#[test]
fn many_calls_leave_one_queue(rt: HostRuntime) -> Result<(), Fail> {
    assert!(rt; calls_leave(rt.alloc(), 200_000, true, 0)?);
    Ok(())
}
