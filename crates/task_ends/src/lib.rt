//! The tasks that introduced themselves, what they leave, and who waits for their end.
//!
//! Contracts see an `Ends` as an `EndsState`: the introduced tasks and the calls that wait, each in
//! the order in which they came. What each request makes of them is defined in specs/Ends.antt. The
//! law of ends (`WaitersGetTheSameEnd`) is in specs/EndLaw.antt.
#![tactic(auto)]

mod ends;
mod introduced;
mod laws;
mod waits;

pub use ends::{Ends, Freed, Waited};
pub use introduced::{End, Introduced, Wait};
pub use laws::lawful_doings_keep_the_law_of_ends;
pub use waits::Waits;
