//! Reads the lines of scripts: words, operations, and what each line adds to a script.
//!
//! A script says which tasks there are, how their phones are wired, what each task does, and from
//! which templates more tasks can be made. Contracts see a `Script` as a `Plan`, a list of tasks, a
//! list of wires and a list of templates, which is sound: `IsSound` says what holds of each.
//! `add_line` adds what one line says to the `Drafts` of a script, or answers why it is at fault.
#![tactic(auto)]

/// What a word of a line was read as; a word that is not of its kind is at fault.
macro_rules! needed {
    ($part:expr) => {
        match $part {
            Some(part) => part,
            None => return Err(Reason::BadWord),
        }
    };
}

mod draft;
mod fault;
mod line;
mod name;
mod names;
mod operation;
mod plan;
mod same;
mod text;
mod word;

pub use draft::{Drafts, MOST_TASKS, is_ns};
pub use fault::{LineFault, Reason, ScheduleFault, ScriptFault};
pub use line::add_line;
pub use name::{Name, is_name, is_name_byte};
pub use names::{Names, names_of};
pub use plan::{Kind, Script, TaskPlan, TaskPlans, Wire, Wires};
pub use text::{MOST_BYTES, split_line};
pub use word::number;
