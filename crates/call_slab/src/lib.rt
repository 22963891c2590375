//! The records of calls, each under a key, with an index from number to key.
//!
//! A call has one record from its acceptance to its end, and stands in exactly one place. Contracts
//! see the live calls as a `CallsState`: the slots by key, the keys by number, and the room for more.
#![tactic(auto)]

mod call;
mod calls;
mod change;
mod index;
mod links;
mod slots;

pub use call::{Call, Place};
pub use calls::Calls;
pub use change::Change;
pub use links::{CallKey, Links};
