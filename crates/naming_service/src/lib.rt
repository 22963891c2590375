//! The naming service: it knows which phone leads to which service, and passes calls that want a
//! service on to it.
//!
//! It also knows the tasks that introduced themselves, what each of them leaves, and who waits for its
//! end.
//!
//! Contracts see a `NamingService` as a `NamingState`: its registry, the calls that wait for a
//! service, the tasks and waits, its work, and how many outcomes it took. What it asks and what an outcome makes of it
//! is defined in specs/Naming.antt, one equation for each thing that a received call may ask.
#![tactic(auto)]

mod laws;
mod lists;
mod naming;
mod received;

pub use laws::{
    an_end_answers_who_waits, events_keep_the_fit, fitting_doings_keep_the_law, no_call_is_lost,
    registrations_lose_no_call,
};
pub use naming::NamingService;
pub use received::{Asked, ReceivedCall, Work};
