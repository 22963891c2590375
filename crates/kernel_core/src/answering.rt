//! The answer of a task to a call that it holds.
ghost use Rattle.std.specs.Prelude.{◌≡◌, true};
ghost use Rattle.answerbox.specs.Calls.{call_at};
ghost use Rattle.switchboard.specs.Board.{IsAdded};
ghost use Rattle.switchboard.specs.Joins.{lives, on_call};
ghost use Rattle.switchboard.specs.Kept.{accepts};
ghost use Rattle.switchboard.specs.Rooms.{HasRoom, UsesRoom};
ghost use Rattle.switchboard.specs.Serving.{DoesOrLeaves, ServesOrLeaves};
ghost use Rattle.kernel_core.specs.Answering.{answer as answer_of, answer_held, accept_for};
ghost use Rattle.kernel_core.specs.Handing.{IsHeldOf};

use crate::moments::on_accept;
use answerbox::Found;
use forwarding::is_held;
use ipc_ids::{CallNo, Code, MethodKind, NoMemory, Outcome, Reply, TaskNo, Trace};
use switchboard::Switchboard;

/// Answers the call, where the task holds it; refuses with `ENOENT` otherwise.
pub(crate) fn answer(
    board: &mut Switchboard,
    who: TaskNo,
    call: CallNo,
    reply: &Reply,
    out: &mut Trace,
) -> Result<Outcome, NoMemory>
    requires added { IsAdded board.old.state who }
    requires room { HasRoom board.old out.old 0 1 2 }
    ensures served { ServesOrLeaves result board.old board.new out.old out.new
        (answer_of board.old.state who call.0 reply.now) }
    ensures room { UsesRoom board.old board.new out.old out.new 0 1 2 }
{
    let Some(found) = board.find(call) else {
        return Ok(Outcome::Refused(Code::ENOENT));
    };
    let record = board.read(found);
    if is_held(record, who) {
        let (caller, kind) = (record.caller, MethodKind::of(record.request.method));
        answer_held(board, found, kind, reply, who, caller, out)
    } else {
        Ok(Outcome::Refused(Code::ENOENT))
    }
}

/// Answers the call, which the task holds.
fn answer_held(
    board: &mut Switchboard,
    found: Found,
    kind: MethodKind,
    reply: &Reply,
    who: TaskNo,
    caller: Option<TaskNo>,
    out: &mut Trace,
) -> Result<Outcome, NoMemory>
    requires held { IsHeldOf (call_at board.old.state.calls found.number.0)
        found.number kind who caller }
    requires added { IsAdded board.old.state who }
    requires room { HasRoom board.old out.old 0 1 2 }
    ensures served { ServesOrLeaves result board.old board.new out.old out.new
        (answer_held board.old.state who reply.now (call_at board.old.state.calls found.number.0)) }
    ensures room { UsesRoom board.old board.new out.old out.new 0 1 2 }
{
    if reply.code != Code::EOK {
        board.settle_for(found, caller, reply, Some(who), out);
        return Ok(Outcome::Done);
    }
    match accept(board, found, kind, reply, who, caller, out) {
        Ok(()) => Ok(Outcome::Done),
        Err(NoMemory) => Err(NoMemory),
    }
}

/// Accepts the call, which the task holds; it vanishes where its caller has ended.
fn accept(
    board: &mut Switchboard,
    found: Found,
    kind: MethodKind,
    reply: &Reply,
    who: TaskNo,
    caller: Option<TaskNo>,
    out: &mut Trace,
) -> Result<(), NoMemory>
    requires held { IsHeldOf (call_at board.old.state.calls found.number.0)
        found.number kind who caller }
    requires accepts { accepts reply.now.code ≡ true }
    requires added { IsAdded board.old.state who }
    requires room { HasRoom board.old out.old 0 1 2 }
    ensures step { DoesOrLeaves result board.old board.new out.old out.new
        (on_call (λ k c. accept_for k who reply.now c c.caller (lives k c.caller))
        board.old.state found.number.0) }
    ensures room { UsesRoom board.old board.new out.old out.new 0 1 2 }
{
    match caller {
        Some(caller) if board.is_alive(caller) => {
            on_accept(board, found, kind, reply, who, caller, out)
        }
        _ => {
            board.vanish(found, out);
            Ok(())
        }
    }
}
