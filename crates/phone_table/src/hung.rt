//! What a hangup does.

use ipc_ids::TaskNo;

/// Whom a hangup is told.
#[derive(Clone, Copy)]
pub enum Hung {
    /// The task at the other end gets a `PHONE_HUNGUP` call.
    Sent(TaskNo),
    /// The other end is gone.
    Silent,
}
