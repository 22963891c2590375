//! The phones, the calls and the areas of all tasks in step.
//!
//! A `Switchboard` is seen as `BoardState`: the kernel's state, and for how many more calls there
//! is room. Its private changes keep the counts of active calls right; its joins are one change
//! each, with the entries that tell of it. The kernel's requests and the parts of a kill are made
//! of joins.
#![tactic(auto)]

mod areas;
mod board;
mod counts;
mod data;
mod joins;
mod kept;
mod phones;
mod sharing;

pub use board::Switchboard;
pub use counts::label;
pub use joins::Arrival;
pub use kept::kept_note;
pub use phones::width;
pub use sharing::Share;
