//! The fibrils of a task and the connections that some of them serve.
//!
//! `Fibrils` says which fibrils are ready, which are blocked and on what, and which have ended, and
//! since when. The present one is the ready one that has been ready longest. `Conns` keeps the
//! calls that came for each connection until its fibril takes them.
#![tactic(auto)]

mod conn;
mod conns;
mod fibrils;
mod laws;
mod live_fibrils;
mod owed;

pub use conn::{Conn, Queue, Queued, Routed, Taken};
pub use conns::Conns;
pub use fibrils::{Fibril, Fibrils, Status};
pub use laws::{
    calls_change_one_connection, calls_change_one_fibril, calls_keep_connections_sound,
    calls_keep_fibrils_sound, close_calls_are_answered_last, searches_find_the_connection,
    searches_find_the_least_stamp, wakes_keep_the_order_of_blocking,
};
pub use owed::Owed;
