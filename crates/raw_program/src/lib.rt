//! The raw program: one body of operations, done one at a time, over the registers `r0` to `r31`.
//!
//! Contracts see a `RawProgram` as a `RawState`: its operations, the number of the next one, the
//! registers, and how many outcomes it took. Each operation asks one request, and what the outcome
//! says goes into the registers.
#![tactic(auto)]

mod operations;
mod raw;

pub use raw::RawProgram;
