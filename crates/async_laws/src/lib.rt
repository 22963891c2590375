//! What the state of an async task says of the entries of a run so far, and that each event of the
//! run keeps it; so the laws of replies and of exchanges hold of every run, and no wake-up is lost.
//!
//! The crate has no code: each of its functions has an empty body, and its clauses are laws over
//! lists of entries and the definitions of async tasks.
#![tactic(auto)]

mod laws;

pub use laws::{
    calls_are_kept_once, events_keep_the_fit, fibrils_and_calls_keep_their_order,
    fitting_entries_keep_the_laws, lawful_runs_keep_the_fit, laws_of_calls_keep_the_promises,
    limits_are_kept_in_mind, next_tells_the_first_call, no_wake_up_is_lost,
    received_calls_are_not_lost,
};
