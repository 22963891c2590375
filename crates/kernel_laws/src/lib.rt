//! Laws of the kernel over all its events, and the words in which the law of each event is said.
//!
//! The definitions of requests, of a kill, of a spawn and of the pool go through the same steps as the
//! code, so that a wrong step in both would still be proved. What each event does is said whole by the
//! relations of `kernel_determined`, one for each request, a kill and a spawn; the words in `specs/` for
//! phones, checks, areas and bytes are theirs too. The laws here say in a sentence what no single
//! relation says: where calls go and phones lead, what a live call keeps from event to event, what a
//! kill comes to from its first part to its last, what each event does to the pool, and that the entries
//! of any event agree with its outcome. The functions have empty bodies; what they promise is proved of
//! the definitions that `kernel_core`, `cleanup`, `switchboard` and the crates below meet.
#![tactic(auto)]

mod carrying;
mod laws;
mod routes;

pub use carrying::{argument_five_tells_the_phone, calls_keep_what_they_carry};
pub use laws::{events_are_honest, kills_leave_nothing, the_pool_is_balanced};
pub use routes::{calls_go_where_phones_lead, phones_lead_where_they_are_connected};
