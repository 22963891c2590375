//! An area of a task.
ghost use Rattle.std.specs.Prelude.{◌≡◌, ◌+◌, ◌*◌, ◌^◌, ◌≤◌, false};
ghost use Rattle.address_space.specs.Areas.{IsInRange, end_of, allows, holds, overlaps, is_malformed, is_subset};

use std::marker::Model;

/// The bytes of a page.
pub const PAGE: u64 = 4096;

/// The first address behind the address range.
const RANGE_END: u64 = 1 << 32;

/// What may be done with the bytes of an area.
#[derive(Clone, Copy, PartialEq, Eq)]
pub enum Right {
    Read,
    Write,
}

/// Pages of a task's addresses, from `base` on, over a store.
#[derive(Drop)]
pub struct HeldArea {
    base: u64,
    pages: u64,
    rights: u64,
    store: u64,
}

impl Model for HeldArea {
    ghost use Rattle.address_space.specs.Areas.{Area, area_code, IsInRange};

    ghost Value = { Area };

    ghost coded = { area_code };

    ghost view = { λ a. record { base = a.base; pages = a.pages; rights = a.rights; store = a.store } };

    ghost invariant = { λ a. IsInRange a.base a.pages a.rights };
}

/// An array wants an area in each place that is not used.
impl Default for HeldArea {
    fn default() -> HeldArea {
        HeldArea {
            base: 0,
            pages: 1,
            rights: 1,
            store: 0,
        }
    }
}

impl HeldArea {
    pub fn new(base: u64, pages: u64, rights: u64, store: u64) -> HeldArea
        requires { IsInRange base pages rights }
        ensures { result ≡ record { base = base; pages = pages; rights = rights; store = store } }
    {
        HeldArea {
            base,
            pages,
            rights,
            store,
        }
    }

    pub fn base(&self) -> u64
        ensures { result ≡ self.now.base }
    {
        self.base
    }

    pub fn pages(&self) -> u64
        ensures { result ≡ self.now.pages }
    {
        self.pages
    }

    pub fn rights(&self) -> u64
        ensures { result ≡ self.now.rights }
    {
        self.rights
    }

    /// The number of its store.
    pub fn store(&self) -> u64
        ensures { result ≡ self.now.store }
    {
        self.store
    }

    /// The first address behind it.
    fn end(&self) -> u64
        ensures { result ≡ end_of self.now }
    {
        self.base + self.pages * PAGE
    }

    /// Whether one of its bytes is among those from `base` to `end`.
    pub fn overlaps(&self, base: u64, end: u64) -> bool
        ensures { result ≡ overlaps base end self.now }
    {
        self.base < end && base < self.end()
    }

    /// Whether so many bytes from `at` on lie in it, and it has that right.
    pub fn holds(&self, at: u64, count: u64, right: Right) -> bool
        ensures { result ≡ holds at count right self.now }
    {
        let end = self.end();
        allows(self.rights, right) && self.base <= at && at <= end && count <= end - at
    }
}

/// Whether these rights have that one.
fn allows(rights: u64, right: Right) -> bool
    ensures { result ≡ allows rights right }
{
    match right {
        Right::Read => rights == 1 || rights == 3,
        Right::Write => rights == 2 || rights == 3,
    }
}

/// Whether these rights, as bits, are all among those.
pub fn is_subset(rights: u64, all: u64) -> bool
    ensures { result ≡ is_subset rights all }
{
    rights & all == rights
}

/// Whether there can be no such area, in any task.
pub fn is_malformed(base: u64, pages: u64, rights: u64) -> bool
    ensures malformed { result ≡ is_malformed base pages rights }
    ensures in_range { result ≡ false → IsInRange base pages rights }
{
    base % PAGE != 0
        || pages < 1
        || pages > 16
        || rights < 1
        || rights > 3
        || base > RANGE_END - pages * PAGE
}
