//! The kernel with the program of each task, one event at a time.
//!
//! Contracts see a `System` as a `RunState`. `System::turn` does one event: its entries are the head,
//! what the kernel did, the outcome, and then the program's own. What a run is, from the tasks of a
//! script on, is said in specs/Run.antt.
#![tactic(auto)]

mod any;
mod starting;
mod system;

pub use any::AnyProgram;
pub use system::System;
