//! The calls of all tasks, each in one place of one task's answerbox.
//!
//! A place is a queue: its front is the call that came to it first, that with the least stamp.
#![tactic(auto)]

mod boxes;
mod chains;
mod found;
mod moves;

pub use boxes::Boxes;
pub use found::Found;
