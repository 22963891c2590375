//! What each request does, and the room that it needs.
ghost use Rattle.std.specs.Prelude.{◌≡◌, ◌<◌, ◌≤◌, ◌^◌, length};
ghost use Rattle.switchboard.specs.State.{live_calls};
ghost use Rattle.switchboard.specs.Board.{IsAdded, FewActive};
ghost use Rattle.switchboard.specs.Rooms.{HasRoom, UsesRoom};
ghost use Rattle.switchboard.specs.Serving.{ServesOrLeaves};
ghost use Rattle.kernel_core.specs.Request.{serve_request as serve_request_of, most_calls, most_entries};

use crate::answering::answer;
use crate::calling::call;
use crate::forward::forward;
use crate::hanging_up::hangup;
use crate::receiving::receive;
use call_slab::Place;
use ipc_ids::{CallNo, NoMemory, Outcome, Request, TaskNo, Trace};
use switchboard::Switchboard;

/// How many calls the task's request adds at most, and how many entries it makes.
pub(crate) fn room_of(board: &Switchboard, who: TaskNo, request: &Request) -> (usize, usize)
    requires { live_calls board.now.state < 2 ^ 62 }
    ensures calls { result.0 ≡ most_calls request.now }
    ensures entries { result.1 ≡ most_entries board.now.state who request.now }
{
    match request {
        Request::Call { .. } => (1, 2),
        Request::Receive => (0, 2 * board.calls_at(Place::Answers(who)) + 2),
        Request::Answer { .. } => (0, 2),
        Request::Forward { .. } => (0, 2),
        Request::Hangup { .. } => (1, 2),
        Request::AreaMake { .. } | Request::AreaDrop { .. } | Request::Poke { .. } => (0, 1),
        Request::Peek { .. } => (0, 0),
        Request::Nothing => (0, 0),
    }
}

/// Does what the task asks. There is room for its calls and its entries.
pub(crate) fn serve_request(
    board: &mut Switchboard,
    who: TaskNo,
    request: &Request,
    out: &mut Trace,
) -> Result<Outcome, NoMemory>
    requires added { IsAdded board.old.state who }
    requires few { FewActive board.old.state }
    requires few_tasks { length board.old.state.tasks.alive ≤ 64 }
    requires few_stores { board.old.state.memory.next_store ≤ 2 ^ 32 }
    requires room { HasRoom board.old out.old (most_calls request.now) 1
        (most_entries board.old.state who request.now) }
    ensures served { ServesOrLeaves result board.old board.new out.old out.new
        (serve_request_of board.old.state who request.now) }
    ensures room { UsesRoom board.old board.new out.old out.new 1 1
        (most_entries board.old.state who request.now) }
{
    match request {
        Request::Call { phone, msg } => call(board, who, *phone, msg, out),
        Request::Receive => Ok(receive(board, who, out)),
        Request::Answer { call, reply } => answer(board, who, CallNo(*call), reply, out),
        Request::Hangup { phone } => Ok(hangup(board, who, *phone, out)),
        Request::AreaMake {
            base,
            pages,
            rights,
        } => board.make_area(who, *base, *pages, *rights, out),
        Request::AreaDrop { base } => Ok(board.drop_area(who, *base, out)),
        Request::Poke { at, bytes } => Ok(board.poke(who, *at, bytes, out)),
        Request::Peek { at, count } => Ok(board.peek(who, *at, *count)),
        Request::Nothing => Ok(Outcome::Done),
        Request::Forward {
            call,
            phone,
            mode,
            change,
        } => {
            let call = CallNo(*call);
            Ok(forward(board, who, call, *phone, *mode, *change, out))
        }
    }
}
