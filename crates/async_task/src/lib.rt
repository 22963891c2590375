//! The program of an async task: fibrils, each with a body of operations, that share the task's one
//! request an event, and a manager that receives for them all.
//!
//! Contracts see an `AsyncProgram` as an `AsyncTask`: the state of the task and how many outcomes
//! it took. Where answers are owed, the first of them is the next request; else the fibril that has
//! been ready longest does its present operation; else the manager receives. An outcome changes the
//! state and makes the entries that say what the fibrils did.
#![tactic(auto)]

mod answers;
mod awaited;
mod calls;
mod connections;
mod context;
mod contexts;
mod exchanges;
mod handles;
mod machine;
mod program;
mod slots;
mod step;
mod wanted;

pub use awaited::Awaited;
pub use context::{Context, Slot};
pub use contexts::Contexts;
pub use handles::Handles;
pub use program::AsyncProgram;
pub use slots::FibrilSlots;
