//! The laws of the kernel leave nothing open: whatever keeps all of them is the kernel.
//!
//! Each request, a kill and a spawn have one relation in `specs/`, which says all that they do: who
//! gets which call and why he, what came first, what a message becomes, which phones change and
//! which bytes move, which code is the first cause, what is told in which order, and what stays.
//! The relations are said of any machine. The definitions of the kernel keep them, and a machine
//! that keeps them equals the definitions. What the definitions do with memory is said of any sound
//! memory, and what is kept for connect calls of any sound state.
#![tactic(auto)]

mod memory;
mod requests;
mod states;

pub use memory::{
    areas_are_refused_by_the_first_cause, data_calls_move_what_they_name, reads_are_of_one_area,
    shares_give_what_they_name, writes_change_what_they_name,
};
pub use requests::{
    answers_are_determined, areas_are_determined, calls_are_determined, changed_kills_break_a_law,
    changed_requests_break_a_law, forwards_are_determined, hangups_are_determined,
    kills_are_determined, pokes_and_peeks_are_determined, receives_are_determined,
    spawns_are_determined, the_kernel_keeps_its_laws, the_laws_determine_the_kernel,
};
pub use states::{
    active_calls_have_one_count, connect_calls_keep_their_phones,
    forwards_are_refused_by_the_first_cause,
};
