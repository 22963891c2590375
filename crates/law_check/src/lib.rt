//! Tells whether a list of entries, or the text of a trace, satisfies the laws of calls and of shared
//! areas. All laws are tested in one pass, which keeps no entry. Its time is linear in the list up to
//! a logarithm, but for writes where areas of a task over one store overlap: a write passes over those
//! areas of its task, over its store, that begin between the area around it and the address. Where
//! none overlap, that is at most one.
#![tactic(auto)]

mod areas;
mod beside;
mod finding;
mod held;
mod kills;
mod lives;
mod reading;
mod stores;
mod verdict;

pub use areas::is_head;
pub use beside::check_laws;
pub use finding::{Finding, check_trace, finding_text};
pub use verdict::{Laws, Verdict};
