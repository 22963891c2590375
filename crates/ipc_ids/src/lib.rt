//! The words that all crates share: numbers of tasks, phones and calls, methods, messages and
//! replies, what a task asks and is told, what a script says, what each kind of program does, and
//! the entries of a trace. The laws of calls stand here too, over a list of entries alone.
//!
//! Contracts see every type as the record or enum that it is, but for `Ops`, `Bodies`,
//! `Buffer` and `Short`, which they see as lists, `Trace`, a list of entries with room for more, and
//! `Steps`, a number.
#![tactic(auto)]

mod buffer;
mod digits;
mod entry;
mod laws;
mod message;
pub mod methods;
mod numbers;
mod op;
mod program;
mod short;
mod steps;
mod tables;
mod trace;

pub use buffer::Buffer;
pub use digits::in_base;
pub use entry::Entry;
pub use laws::lawful_lists_keep_the_laws;
pub use message::{Event, ExchangeMode, Mode, Msg, Outcome, PhoneState, Reply, Request, Why};
pub use methods::MethodKind;
pub use numbers::{CallNo, Code, ExchangeNo, FibrilNo, Label, PhoneNo, StoreNo, TaskNo};
pub use op::{Bodies, Body, Op, Ops, Value};
pub use program::Program;
pub use short::Short;
pub use steps::Steps;
pub use tables::{CODE_NAMES, METHOD_NAMES, code_named, look_up, method_named};
pub use trace::{NoMemory, Trace};
