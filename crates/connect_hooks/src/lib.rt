//! What the connecting methods do to the phones of a task: CONNECT_TO_ME asks the receiver to keep a
//! phone that leads to the caller, CONNECT_ME_TO asks for a phone that leads to the task that answers.
//!
//! Each function is what one method does at one moment of its call, as the definition of its name
//! says. A phone is kept for a connection (CONNECTING) from the first moment on, until it is
//! connected or freed.
#![tactic(auto)]

mod connecting;

pub use connecting::{accept_me_to, accept_to_me, before_send, on_receive, release};
