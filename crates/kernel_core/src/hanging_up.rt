//! A hangup of a phone.
ghost use Rattle.switchboard.specs.Board.{IsAdded, FewActive};
ghost use Rattle.switchboard.specs.Rooms.{HasRoom, UsesRoom};
ghost use Rattle.switchboard.specs.Serving.{Serves};
ghost use Rattle.kernel_core.specs.HangingUp.{hangup as hangup_of};

use ipc_ids::{Code, Outcome, TaskNo, Trace};
use switchboard::{Switchboard, label};

/// Hangs the task's phone up. It refuses with `ENOENT` where the task has no such phone, and with
/// `EINVAL` where the phone leads and led nowhere or was hung up before.
pub(crate) fn hangup(board: &mut Switchboard, who: TaskNo, phone: u64, out: &mut Trace) -> Outcome
    requires added { IsAdded board.old.state who }
    requires few { FewActive board.old.state }
    requires room { HasRoom board.old out.old 1 1 2 }
    ensures served { Serves board.new result out.old out.new (hangup_of board.old.state who phone) }
    ensures room { UsesRoom board.old board.new out.old out.new 1 1 2 }
{
    match board.phone(who, phone) {
        None => Outcome::Refused(Code::ENOENT),
        Some(_) => match board.hang_up(label(who, phone), out) {
            Ok(()) => Outcome::Done,
            Err(code) => Outcome::Refused(code),
        },
    }
}
