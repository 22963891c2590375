//! The sessions of a task and their exchanges.
//!
//! A session is a phone under a number below 16, with a mode that says how exchanges share it. A
//! fibril begins an exchange and ends it. Over an atomic session any number are begun at a time,
//! over a serialized one a single one, all over the session's phone. Over a parallel one each has
//! a phone of its own, keeps it when it ends, and is idle until it is begun again.
//!
//! `Sessions` decides what a begin, an end and a close come to. It makes no calls and blocks no
//! fibril: its answers say what the caller has to do. `Exchanges` keeps the exchanges by number,
//! counts the begun ones of each session and has the idle ones in a list of their own, so that no
//! call looks through all of them.
#![tactic(auto)]

mod exchanges;
mod finding;
mod groups;
mod laws;
mod sessions;

pub use laws::{
    begins_answer_by_the_table, calls_keep_sessions_sound, closes_answer_by_the_table,
    dropped_exchanges_are_gone, ends_change_one_exchange, searches_find_the_exchange_of_the_fibril,
};
pub use sessions::{Begin, Close, Ended, Exchange, Held, Session, Sessions};
