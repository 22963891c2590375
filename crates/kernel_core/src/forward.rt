//! A forward of a call that a task holds.
ghost use Rattle.std.specs.Prelude.{◌≡◌, IfSome};
ghost use Rattle.answerbox.specs.Calls.{call_at};
ghost use Rattle.switchboard.specs.Board.{IsAdded, IsPending};
ghost use Rattle.switchboard.specs.Rooms.{HasRoom, UsesRoom};
ghost use Rattle.switchboard.specs.Serving.{Serves};
ghost use Rattle.kernel_core.specs.Forward.{forward as forward_of, failed_forward};

use answerbox::Found;
use forwarding::{ForwardFault, label_after, msg_after, receiver_of};
use ipc_ids::{CallNo, Code, Mode, Msg, Outcome, PhoneNo, Reply, TaskNo, Trace};
use switchboard::Switchboard;

/// Passes the call on over the task's phone. It refuses with `ENOENT` where the task does not hold
/// the call, and else with the code of the first test that fails; the kernel then answers the call
/// with `EFORWARD`.
pub(crate) fn forward(
    board: &mut Switchboard,
    who: TaskNo,
    call: CallNo,
    phone: u64,
    mode: Mode,
    change: Option<Msg>,
    out: &mut Trace,
) -> Outcome
    requires added { IsAdded board.old.state who }
    requires room { HasRoom board.old out.old 0 1 2 }
    ensures served { Serves board.new result out.old out.new
        (forward_of board.old.state who call.0 phone mode change) }
    ensures room { UsesRoom board.old board.new out.old out.new 0 1 2 }
{
    let state = board.phone(who, phone);
    let Some(found) = board.find(call) else {
        return Outcome::Refused(Code::ENOENT);
    };
    let record = board.read(found);
    let caller = record.caller;
    match receiver_of(record, who, state, change) {
        Ok(to) => {
            let msg = msg_after(record, change);
            let label = label_after(record, who, PhoneNo(phone as u32), mode);
            board.pass_on(found, msg, label, who, to, out);
            Outcome::Done
        }
        Err(ForwardFault::NotHeld) => Outcome::Refused(Code::ENOENT),
        Err(ForwardFault::NotForwardable) => fail_forward(board, found, caller, Code::EPERM, out),
        Err(ForwardFault::NotConnected) => fail_forward(board, found, caller, Code::ENOENT, out),
    }
}

/// Answers a call that cannot be passed on in the kernel's name, and refuses the task with the
/// code.
fn fail_forward(
    board: &mut Switchboard,
    found: Found,
    caller: Option<TaskNo>,
    code: Code,
    out: &mut Trace,
) -> Outcome
    requires pending { IsPending (call_at board.old.state.calls found.number.0) }
    requires number { IfSome (call_at board.old.state.calls found.number.0)
        (λ c. c.number ≡ found.number) }
    requires caller { IfSome (call_at board.old.state.calls found.number.0)
        (λ c. c.caller ≡ caller) }
    requires room { HasRoom board.old out.old 0 1 2 }
    ensures served { Serves board.new result out.old out.new
        (failed_forward board.old.state (call_at board.old.state.calls found.number.0) code) }
    ensures room { UsesRoom board.old board.new out.old out.new 0 1 2 }
{
    board.settle_for(found, caller, &Reply::bare(Code::EFORWARD), None, out);
    Outcome::Refused(code)
}
