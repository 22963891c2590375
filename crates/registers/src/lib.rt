//! The registers `r0` to `r31` of a body of operations: what an operation reads from them and writes
//! into them, and where the body goes on.
//!
//! Contracts see `Registers` as the list of what they hold, and a place in a body as a number.
#![tactic(auto)]

mod place;
mod registers;

pub use place::next_place;
pub use registers::Registers;
