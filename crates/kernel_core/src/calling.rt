//! A call over a phone.
ghost use Rattle.std.specs.Prelude.{◌≡◌, ◌<◌, ◌≤◌, ◌^◌, IsSome, None, length};
ghost use Rattle.answerbox.specs.Calls.{active_calls};
ghost use Rattle.switchboard.specs.State.{phone_at};
ghost use Rattle.switchboard.specs.Board.{IsAdded, IsNewCall, LeadsToAdded};
ghost use Rattle.switchboard.specs.Rooms.{HasRoom, UsesRoom};
ghost use Rattle.switchboard.specs.Serving.{ServesOrLeaves};
ghost use Rattle.kernel_core.specs.Calling.{call as call_of, call_tested, call_through, is_callable, sent_to};
ghost use Rattle.kernel_core.specs.Moments.{before_send};

use crate::moments::before_send;
use address_space::SpaceFault;
use call_slab::{Call, Place};
use ipc_ids::{Code, Label, MethodKind, Msg, NoMemory, Outcome, PhoneState, TaskNo, Trace};
use switchboard::{Switchboard, label};

/// Active calls over a phone before a further call is refused.
const MOST_ACTIVE: u32 = 64;

/// Calls over the task's phone. It refuses with `ENOENT` where the task has no such phone or the
/// phone leads and led nowhere, with `EPERM` where no task calls with the method, and with `ELIMIT`
/// where too many calls are active over the phone.
pub(crate) fn call(
    board: &mut Switchboard,
    who: TaskNo,
    phone: u64,
    msg: &Msg,
    out: &mut Trace,
) -> Result<Outcome, NoMemory>
    requires added { IsAdded board.old.state who }
    requires few { length board.old.state.tasks.alive ≤ 64 }
    requires room { HasRoom board.old out.old 1 1 2 }
    ensures served { ServesOrLeaves result board.old board.new out.old out.new
        (call_of board.old.state who phone msg.now) }
    ensures room { UsesRoom board.old board.new out.old out.new 1 1 2 }
{
    match board.phone(who, phone) {
        None | Some(PhoneState::Free | PhoneState::Connecting) => Ok(Outcome::Refused(
            Code::ENOENT,
        )),
        Some(state) => call_tested(board, label(who, phone), msg, state, out),
    }
}

/// Tests the method and the active calls, and then makes the call.
fn call_tested(
    board: &mut Switchboard,
    from: Label,
    msg: &Msg,
    state: PhoneState,
    out: &mut Trace,
) -> Result<Outcome, NoMemory>
    requires added { IsAdded board.old.state from.task }
    requires there { IsSome (phone_at board.old.state from.task from.phone.0) }
    requires leads { LeadsToAdded board.old.state state }
    requires few { length board.old.state.tasks.alive ≤ 64 }
    requires room { HasRoom board.old out.old 1 1 2 }
    ensures served { ServesOrLeaves result board.old board.new out.old out.new
        (call_tested board.old.state from.task from.phone.0 msg.now state) }
    ensures room { UsesRoom board.old board.new out.old out.new 1 1 2 }
{
    if !is_callable(MethodKind::of(msg.method)) {
        return Ok(Outcome::Refused(Code::EPERM));
    }
    if board.active(from) >= MOST_ACTIVE {
        return Ok(Outcome::Refused(Code::ELIMIT));
    }
    call_through(board, from, msg, state, out)
}

/// Whether a task may call with a method of this kind.
fn is_callable(kind: MethodKind) -> bool
    ensures { result ≡ is_callable kind }
{
    match kind {
        MethodKind::ConnectToMe
        | MethodKind::ConnectMeTo
        | MethodKind::DataWrite
        | MethodKind::DataRead
        | MethodKind::ShareOut
        | MethodKind::ShareIn
        | MethodKind::User => true,
        MethodKind::PhoneHungUp | MethodKind::Unused => false,
    }
}

/// Makes the call over a phone in this state. It stands apart, since a refused call has no record.
#[inline(never)]
fn call_through(
    board: &mut Switchboard,
    from: Label,
    msg: &Msg,
    state: PhoneState,
    out: &mut Trace,
) -> Result<Outcome, NoMemory>
    requires added { IsAdded board.old.state from.task }
    requires there { IsSome (phone_at board.old.state from.task from.phone.0) }
    requires leads { LeadsToAdded board.old.state state }
    requires few_tasks { length board.old.state.tasks.alive ≤ 64 }
    requires few { active_calls board.old.state.calls from < 2 ^ 31 }
    requires room { HasRoom board.old out.old 1 1 2 }
    ensures served { ServesOrLeaves result board.old board.new out.old out.new
        (call_through board.old.state from.task from.phone.0 msg.now state) }
    ensures room { UsesRoom board.old board.new out.old out.new 1 1 2 }
{
    match state {
        PhoneState::Free | PhoneState::Connecting => Ok(Outcome::Refused(Code::ENOENT)),
        PhoneState::Connected(to) => {
            let call = board.new_call(from, msg, Place::Incoming(to));
            send(board, call, to, out)
        }
        PhoneState::HungUp => {
            let call = board.new_call(from, msg, Place::Answers(from.task));
            Ok(board.answer_at_once(call, Code::EHANGUP, out))
        }
        PhoneState::Slammed => {
            let call = board.new_call(from, msg, Place::Answers(from.task));
            Ok(board.answer_at_once(call, Code::ENOENT, out))
        }
    }
}

/// Sends the new call to the task, or answers it at once where its method does not allow it to be
/// sent.
fn send(
    board: &mut Switchboard,
    mut call: Call,
    to: TaskNo,
    out: &mut Trace,
) -> Result<Outcome, NoMemory>
    requires new_call { IsNewCall board.old.state call }
    requires added { IsAdded board.old.state call.from.task }
    requires few { call.from.task.0 ≤ 64 }
    requires unreserved { call.reserved ≡ None }
    requires room { HasRoom board.old out.old 1 1 2 }
    ensures served { ServesOrLeaves result board.old board.new out.old out.new
        (sent_to to board.old.state call (before_send board.old.state call)) }
    ensures room { UsesRoom board.old board.new out.old out.new 1 1 2 }
{
    match before_send(board, &mut call) {
        Ok(note) => Ok(board.accept(call, note, Some(to), out)),
        Err(SpaceFault::Refused(code)) => {
            call.place = Place::Answers(call.from.task);
            Ok(board.answer_at_once(call, code, out))
        }
        Err(SpaceFault::NoMemory) => Err(NoMemory),
    }
}
