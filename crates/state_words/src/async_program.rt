//! An async task as words.
ghost use Rattle.std.specs.Prelude.{◌≡◌, ◌++◌, OnOk};
ghost use Rattle.state_words.specs.AsyncWords.{async_words};

use crate::worded::{push_both, push_four};
use async_task::AsyncProgram;
use std::alloc::AllocError;

/// The words of an async task: its fibrils, what they keep, its connections, its sessions and
/// exchanges, the calls whose answers are awaited, and the answers that are owed.
///
/// # Errors
///
/// `AllocError` where no memory was found.
pub fn push_async_program(task: &AsyncProgram, out: &mut Vec<u64>) -> Result<(), AllocError>
    ensures { OnOk result (out.new.items ≡ out.old.items ++ async_words task.now.state) }
{
    push_four(
        task.fibrils(),
        task.contexts(),
        task.conns(),
        task.sessions(),
        out,
    )?;
    let (front, back) = task.awaited();
    push_both(front, back, out)?;
    let (first, others) = task.work();
    push_both(first, others, out)
}
