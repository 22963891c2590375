//! What a task receives: answers first, and then calls.
ghost use Rattle.std.specs.Prelude.{◌≡◌, ◌+◌, ◌*◌, IsSome, IfSome, IfNone, None};
ghost use Rattle.call_slab.specs.declared.call.Place.TheVariants.{Incoming, Answers};
ghost use Rattle.answerbox.specs.Calls.{call_at, calls_at};
ghost use Rattle.answerbox.specs.Places.{IsAt};
ghost use Rattle.switchboard.specs.Board.{IsAdded};
ghost use Rattle.switchboard.specs.Rooms.{HasRoom, UsesRoom};
ghost use Rattle.switchboard.specs.Serving.{Does, Serves};
ghost use Rattle.kernel_core.specs.Receiving.{receive as receive_of, receive_first, receive_now as receive_now_of, next_unawaited as next_unawaited_of, drop_unawaited as drop_unawaited_of};

use crate::moments::{brings_bytes, on_delivery, on_receive};
use answerbox::Found;
use call_slab::Place;
use ipc_ids::{Outcome, TaskNo, Trace};
use switchboard::Switchboard;

/// Drops the answers at the front that nobody waits for, and gives the task its first answer, or
/// else its first call.
pub(crate) fn receive(board: &mut Switchboard, who: TaskNo, out: &mut Trace) -> Outcome
    requires added { IsAdded board.old.state who }
    requires room { HasRoom board.old out.old 0 1
        (2 * calls_at board.old.state.calls (Answers who) + 2) }
    ensures served { Serves board.new result out.old out.new (receive_of board.old.state who) }
    ensures room { UsesRoom board.old board.new out.old out.new 0 1
        (2 * calls_at board.old.state.calls (Answers who) + 2) }
{
    drop_unawaited(board, who, out);
    receive_now(board, who, out)
}

/// The first answer of the task, where nobody waits for it.
fn next_unawaited(board: &Switchboard, who: TaskNo) -> Option<Found>
    requires added { IsAdded board.now.state who }
    ensures none { IfNone result (next_unawaited_of who board.now.state ≡ None) }
    ensures some { IfSome result (λ found. next_unawaited_of who board.now.state
        ≡ call_at board.now.state.calls found.number.0) }
    ensures live { IfSome result (λ found. IsSome (call_at board.now.state.calls found.number.0)) }
{
    match board.front(Place::Answers(who)) {
        Some(found) if board.read(found).discard => Some(found),
        _ => None,
    }
}

/// Drops the answers at the front that nobody waits for.
fn drop_unawaited(board: &mut Switchboard, who: TaskNo, out: &mut Trace)
    requires added { IsAdded board.old.state who }
    requires room { HasRoom board.old out.old 0 0
        (2 * calls_at board.old.state.calls (Answers who)) }
    ensures step { Does board.new out.old out.new (drop_unawaited_of who board.old.state) }
    ensures room { UsesRoom board.old board.new out.old out.new 0 0
        (2 * calls_at board.old.state.calls (Answers who)) }
{
    for _ in 0..board.calls_at(Place::Answers(who)) {
        match next_unawaited(board, who) {
            Some(found) => board.drop_answer(found, who, out),
            None => return,
        }
    }
}

/// Gives the task its first answer, or else its first call.
fn receive_now(board: &mut Switchboard, who: TaskNo, out: &mut Trace) -> Outcome
    requires added { IsAdded board.old.state who }
    requires room { HasRoom board.old out.old 0 1 2 }
    ensures served { Serves board.new result out.old out.new (receive_now_of who board.old.state) }
    ensures room { UsesRoom board.old board.new out.old out.new 0 1 2 }
{
    if let Some(found) = board.front(Place::Answers(who)) {
        return give_answer(board, found, who, out);
    }
    match board.front(Place::Incoming(who)) {
        Some(found) => give_call(board, found, who, out),
        None => Outcome::Empty,
    }
}

/// Delivers the answer to the task.
fn give_answer(board: &mut Switchboard, found: Found, who: TaskNo, out: &mut Trace) -> Outcome
    requires live { IsSome (call_at board.old.state.calls found.number.0) }
    requires added { IsAdded board.old.state who }
    requires room { HasRoom board.old out.old 0 0 2 }
    ensures served { Serves board.new result out.old out.new
        (receive_first board.old.state who (call_at board.old.state.calls found.number.0) None) }
    ensures room { UsesRoom board.old board.new out.old out.new 0 0 2 }
{
    let call = board.read(found);
    if brings_bytes(call) {
        return board.deliver_read(found, who, out);
    }
    let reply = on_delivery(call);
    board.deliver(found, reply, who, out)
}

/// Hands the call over to the task.
fn give_call(board: &mut Switchboard, found: Found, who: TaskNo, out: &mut Trace) -> Outcome
    requires live { IsSome (call_at board.old.state.calls found.number.0) }
    requires incoming { IsAt board.old.state.calls found.number.0 (Incoming who) }
    requires added { IsAdded board.old.state who }
    requires room { HasRoom board.old out.old 0 1 2 }
    ensures served { Serves board.new result out.old out.new
        (receive_first board.old.state who None (call_at board.old.state.calls found.number.0)) }
    ensures room { UsesRoom board.old board.new out.old out.new 0 1 2 }
{
    let arrival = on_receive(board, found, who);
    board.hand_over(found, arrival, who, out)
}
