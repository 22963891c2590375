//! The state of a run as words, by which states of one script are told apart: all but what no event
//! changes, how many events there were, how many outcomes each program took, and what the stamps of
//! calls are, of which their order within each place alone is told. Where it is the same words, the
//! same events tell the same and lead to the same words again.
//!
//! A kernel counts its events, a program its outcomes, so that their numbers are known to be few, and
//! a kernel stamps each call as it comes to its place. The laws of `counts` and `stamps` say that a run
//! goes on alike whatever these are.
#![tactic(auto)]

mod counts;
mod kernel;
mod kernels;
mod laws;
mod run;
mod stamps;

pub use counts::{
    counts_change_nothing, outcome_counts_change_nothing, spawns_alone_change_constants,
    the_event_count_changes_nothing,
};
pub use kernel::push_kernel_words;
pub use kernels::{kernels_of_the_same_words_go_on_alike, words_tell_sound_kernels_apart};
pub use laws::{events_lead_on, runs_of_the_same_words_go_on_alike, words_tell_runs_apart};
pub use run::{push_program, push_run};
pub use stamps::only_the_order_of_stamps_counts;
