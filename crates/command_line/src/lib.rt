//! What the words of a command line ask: to replay a schedule over a script of tasks that call each
//! other and write what happened, to run generated input and sum it up, or to check a trace.
//!
//! `run` loads files from a shelf and writes to a sink, and answers a `Status`; `replay_bytes` does the
//! same of the bytes of a script and a schedule. What is due for the words is said in specs/Due.antt.
#![tactic(auto)]

mod answer;
mod check;
mod command;
mod due;
mod status;
mod summary;

pub use answer::replay_bytes;
pub use due::run;
pub use status::Status;
