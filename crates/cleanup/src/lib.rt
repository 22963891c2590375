//! The end of a task: its phones, those of others that lead to it, its calls and its areas.
//!
//! `end` brings a task of a switchboard to its end, as the definition `kill` says, by the joins of
//! the switchboard. `end_task` does the same to calls, phones and areas alone.
#![tactic(auto)]

mod beside;
mod kill;
mod kill_room;
mod laws;

pub use beside::end_task;
pub use kill::end;
pub use laws::active_calls_are_few;
