//! What is told of an area.

use ipc_ids::StoreNo;

/// How long an area is, what may be done with its bytes, and which store has them.
#[derive(Clone, Copy, PartialEq, Eq)]
pub struct Area {
    pub pages: u64,
    pub rights: u64,
    pub store: StoreNo,
}
