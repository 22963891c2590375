//! What is tested before a call goes on, what its next receiver sees, and a call that goes on.
ghost use Rattle.std.specs.Prelude.{◌≡◌};

use crate::answerbox_tests::{FAR, call_from, send, three_tasks};
use answerbox::Boxes;
use call_slab::{Call, Place};
use forwarding::{ForwardFault, Forwarded, label_after, msg_after, receiver_of, route};
use ipc_ids::methods::CONNECT_ME_TO;
use ipc_ids::{CallNo, Label, Mode, Msg, PhoneNo, PhoneState, TaskNo};
use std::alloc::Global;
use std::test::Fail;

const ONE: TaskNo = TaskNo(1);

const TWO: TaskNo = TaskNo(2);

const THREE: TaskNo = TaskNo(3);

const FROM: Label = Label {
    task: ONE,
    phone: PhoneNo(5),
};

const BY_FORWARDER: Label = Label {
    task: TWO,
    phone: PhoneNo(4),
};

const USERS: Msg = Msg {
    method: 512,
    args: [21, 22, 23, 24, 25],
};

const CONNECTS: Msg = Msg {
    method: CONNECT_ME_TO,
    args: [1, 2, 3, 4, 70],
};

const CHANGE: Msg = Msg {
    method: 700,
    args: [11, 12, 13, 14, 15],
};

const CHANGED: Msg = Msg {
    method: CONNECT_ME_TO,
    args: [11, 12, 13, 14, 70],
};

/// A call of the first task, which the second holds.
fn held_call(alloc: Global, msg: Msg) -> Call {
    call_from(alloc, CallNo(1), FROM, msg, Place::Dispatched(TWO))
}

/// Whether of several causes the first counts, and without one the call goes to the third task.
fn goes_by_the_first_cause(call: &Call) -> bool {
    let (change, of_system) = (Some(CHANGE), Some(Msg::bare(511)));
    receiver_of(call, THREE, None, of_system) == Err(ForwardFault::NotHeld)
        && receiver_of(call, TWO, None, of_system) == Err(ForwardFault::NotForwardable)
        && receiver_of(call, TWO, None, change) == Err(ForwardFault::NotConnected)
        && receiver_of(call, TWO, Some(PhoneState::Connected(THREE)), change) == Ok(THREE)
}

/// Whether the next receiver sees the change and, with `Route`, who passed the call on.
fn shows_the_change(call: &Call) -> bool {
    msg_after(call, None) == USERS
        && msg_after(call, Some(CHANGE)) == CHANGE
        && label_after(call, TWO, PhoneNo(4), Mode::Plain) == FROM
        && label_after(call, TWO, PhoneNo(4), Mode::Route) == BY_FORWARDER
}

fn a_users_call_goes_on(alloc: Global) -> bool {
    let call = held_call(alloc, USERS);
    goes_by_the_first_cause(&call) && shows_the_change(&call)
}

fn keeps_method_and_argument_5(alloc: Global) -> bool {
    let call = held_call(alloc, CONNECTS);
    msg_after(&call, Some(CHANGE)) == CHANGED
}

/// Whether the call goes to the third task.
fn is_routed(boxes: &mut Boxes) -> Result<bool, Fail>
    requires tasks { boxes.old.tasks ≡ 3 }
{
    if boxes.next_stamp() >= FAR {
        return Err(Fail::new("too many moves"));
    }
    let phone = Some(PhoneState::Connected(THREE));
    let passed = Forwarded {
        call: CallNo(1),
        to: THREE,
    };
    if route(boxes, TWO, phone, 4, 1, Mode::Route, Some(CHANGE)) != Ok(passed) {
        return Ok(false);
    }
    match boxes.get(CallNo(1)) {
        Some(call) => Ok(call.place == Place::Incoming(THREE) && call.label == BY_FORWARDER),
        None => Ok(false),
    }
}

/// Whether three tasks come, and the call to the second of them, and it goes to the third.
fn comes_and_goes_on(boxes: &mut Boxes) -> Result<bool, Fail>
    requires none { boxes.old.tasks ≡ 0 }
{
    three_tasks(boxes)?;
    send(boxes, FROM, USERS, Place::Dispatched(TWO))?;
    is_routed(boxes)
}

fn routes(alloc: Global) -> Result<bool, Fail> {
    let mut boxes = Boxes::new(alloc);
    comes_and_goes_on(&mut boxes)
}

#[test]
fn a_forward_is_refused_by_the_first_cause(rt: HostRuntime) {
    assert!(rt; a_users_call_goes_on(rt.alloc()));
}

#[test]
fn a_connect_call_keeps_its_method_and_argument_5(rt: HostRuntime) {
    assert!(rt; keeps_method_and_argument_5(rt.alloc()));
}

#[test]
fn a_call_goes_on_in_one_call(rt: HostRuntime) -> Result<(), Fail> {
    assert!(rt; routes(rt.alloc())?);
    Ok(())
}
