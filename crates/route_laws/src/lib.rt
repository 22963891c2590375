//! The law of phones, over every list of entries that the kernel can tell.
//!
//! The law itself, in specs/PhoneLaw.antt, reads a list of entries and the wires with which its
//! run began, and no state of the kernel. A call goes to the task that its phone leads to, so does
//! one that is passed on, and who receives it is told its label. A phone leads to a task from the
//! answer that connects it until it is hung up or slammed. The functions have empty bodies; what
//! they promise is proved of the definitions that `kernel_core`, `cleanup`, `switchboard` and the crates below
//! meet.
#![tactic(auto)]

mod laws;

pub use laws::{events_keep_the_phones, fitting_histories_keep_the_law_of_phones};
