//! The memory of all tasks: areas of addresses over stores of bytes.
//!
//! An area is 1 to 16 pages of 4,096 bytes, with rights to read, to write or both. Its store has
//! the bytes, and lives as long as an area stands over it. Each call of `Spaces` does just what
//! the definition of its name says, and after a refusal nothing has changed.
#![tactic(auto)]

mod area;
mod areas;
mod bytes;
mod facts;
mod laws;
mod spaces;
mod stores;

pub use area::{HeldArea, is_subset};
pub use areas::TaskAreas;
pub use bytes::Bytes;
pub use facts::Area;
pub use laws::{
    requests_keep_memory_sound, requests_leave_no_store_alone, shared_bytes_are_seen,
    stores_stay_while_used, writes_are_read_back,
};
pub use spaces::{SpaceFault, Spaces};
