//! What the data methods do to memory: DATA_WRITE carries bytes of the caller to the task that
//! answers, DATA_READ bytes of that task to the caller.
//!
//! Each function is what one method does at one moment of its call, as the definition of its name
//! says. The first two arguments of a call say where bytes of the caller begin and how many they
//! are; the first two of a reply say it of the task that answers. 0 bytes lie anywhere.
#![tactic(auto)]

mod pool;
mod read;
mod write;

pub use pool::cut_args;
pub use read::{read_accept, read_before_send, read_deliver};
pub use write::{write_accept, write_before_send};

/// How many bytes one call may carry.
const MOST_DATA: u64 = 65536;

/// How many bytes all calls may carry together.
const MOST_BUFFERED: u64 = 67_108_864;
