//! A task that is made while others run.
ghost use Rattle.std.specs.Prelude.{◌≡◌, ◌<◌, ◌≤◌, ◌++◌, length, IfOk, OnOk, OnErr};
ghost use Rattle.switchboard.specs.Board.{IsLimit};
ghost use Rattle.kernel_core.specs.Kernel.{next_task, named, spawn as spawn_of};

use ipc_ids::{Entry, NoMemory, PhoneNo, PhoneState, TaskNo, Trace};
use switchboard::{Switchboard, label};

/// The task, where it is given and has not ended.
fn named(board: &Switchboard, task: Option<TaskNo>) -> Option<TaskNo>
    ensures { result ≡ named board.now.state task }
{
    match task {
        Some(task) if board.is_alive(task) => Some(task),
        _ => None,
    }
}

/// Makes a task with so many phones. The first leads to the other task, where that is given and has
/// not ended; all others are free.
///
/// # Errors
///
/// `NoMemory` where no memory was found; then nothing has changed.
pub(crate) fn spawn(
    board: &mut Switchboard,
    limit: u32,
    names: Option<TaskNo>,
    out: &mut Trace,
) -> Result<TaskNo, NoMemory>
    requires limit { IsLimit limit }
    requires few_tasks { length board.old.state.tasks.alive < 64 }
    requires paired { length board.old.state.tasks.phones ≡ length board.old.state.tasks.alive }
    requires room { 2 ≤ out.old.spare }
    ensures state { OnOk result (board.new.state ≡ (spawn_of board.old.state limit names).state) }
    ensures entries { OnOk result (out.new.entries
        ≡ out.old.entries ++ (spawn_of board.old.state limit names).entries) }
    ensures number { IfOk result (λ t. t ≡ next_task board.old.state) }
    ensures unchanged { OnErr result (board.new.state ≡ board.old.state) }
    ensures trace_unchanged { OnErr result (out.new.entries ≡ out.old.entries) }
{
    let names = named(board, names);
    let task = match board.add_task(limit) {
        Ok(task) => task,
        Err(NoMemory) => return Err(NoMemory),
    };
    out.push(Entry::Spawn(task));
    match names {
        Some(to) => {
            board.wire(task, PhoneNo(0), to);
            out.push(Entry::PhoneIs {
                phone: label(task, 0),
                state: PhoneState::Connected(to),
            });
            Ok(task)
        }
        None => Ok(task),
    }
}
