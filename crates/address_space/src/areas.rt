//! The areas of one task.
ghost use Rattle.std.specs.Prelude.{◌≡◌, ◌+◌, ◌*◌, ◌^◌, ◌<◌, ◌≤◌, [], ◌∷◌, ◌++◌, remove, length, IfNone, IfSome, Some, false, slice_get};
ghost use Rattle.std.specs.List.{list_any};
ghost use Rattle.std.specs.Option.{option_copied};
ghost use Rattle.address_space.specs.Areas.{IsInRange, holder, place_of, stands_over, is_taken, least_base, refusal};

use crate::area::{HeldArea, PAGE, Right, is_malformed};
use arrayvec::ArrayVec;
use ipc_ids::Code;
use std::marker::Model;

/// Up to 16 areas, in the order in which they were made.
#[derive(Drop)]
pub struct TaskAreas {
    areas: ArrayVec<HeldArea, 16>,
}

impl Model for TaskAreas {
    ghost use Rattle.std.specs.Prelude.{List};
    ghost use Rattle.address_space.specs.Areas.{Area};

    ghost Value = { List Area };

    ghost view = { λ a. a.areas.items };
}

impl TaskAreas {
    pub fn new() -> TaskAreas
        ensures { result ≡ [] }
    {
        TaskAreas {
            areas: ArrayVec::new(),
        }
    }

    pub fn len(&self) -> usize
        ensures count { result ≡ length self.now }
        ensures few { result ≤ 16 }
    {
        self.areas.len()
    }

    /// All of them.
    pub fn as_slice(&self) -> &[HeldArea]
        ensures { result.now ≡ self.now }
    {
        self.areas.as_slice()
    }

    /// The area that holds all these bytes with that right.
    pub fn holder(&self, at: u64, count: u64, right: Right) -> Option<&HeldArea>
        ensures { option_copied result ≡ holder at count right self.now }
    {
        first_holder(self.areas.as_slice(), at, count, right)
    }

    /// Where the area with this base stands.
    pub fn place_of(&self, base: u64) -> Option<usize>
        ensures place { result ≡ place_of base self.now }
        ensures in_range { IfSome result (λ i. i < length self.now) }
    {
        self.areas.iter().position(|a| a.base() == base)
    }

    /// The area at a place.
    pub fn at(&self, place: usize) -> &HeldArea
        requires { place < length self.now }
        ensures { slice_get self.now place ≡ Some result.now }
    {
        &self.areas[place]
    }

    /// The least base of an area; `None` where there is no area.
    pub fn least_base(&self) -> Option<u64>
        ensures { result ≡ least_base self.now }
    {
        least_of(self.areas.as_slice())
    }

    /// Whether one of them stands over that store.
    pub fn stand_over(&self, store: u64) -> bool
        ensures { result ≡ list_any (stands_over store) self.now }
    {
        self.areas.iter().any(|a| a.store() == store)
    }

    /// Why the task can have no such area, if so.
    pub fn refusal(&self, base: u64, pages: u64, rights: u64) -> Option<Code>
        ensures refusal { result ≡ refusal base pages rights self.now }
        ensures in_range { IfNone result (IsInRange base pages rights) }
        ensures free { IfNone result (is_taken base pages self.now ≡ false) }
        ensures room { IfNone result (length self.now < 16) }
    {
        if is_malformed(base, pages, rights) {
            return Some(Code::EINVAL);
        }
        if self.is_taken(base, pages) {
            return Some(Code::EEXIST);
        }
        if self.len() >= 16 {
            return Some(Code::ELIMIT);
        }
        None
    }

    /// Whether one of them has a byte of such an area.
    fn is_taken(&self, base: u64, pages: u64) -> bool
        requires { base + pages * 4096 ≤ 2 ^ 32 }
        ensures { result ≡ is_taken base pages self.now }
    {
        let end = base + pages * PAGE;
        self.areas.iter().any(|a| a.overlaps(base, end))
    }

    pub fn push(&mut self, area: HeldArea)
        requires { length self.old < 16 }
        ensures { self.new ≡ self.old ++ area ∷ [] }
    {
        self.areas.push(area);
    }

    pub fn remove(&mut self, place: usize) -> HeldArea
        requires { place < length self.old }
        ensures area { slice_get self.old place ≡ Some result }
        ensures areas { self.new ≡ remove self.old place }
    {
        self.areas.remove(place)
    }
}

/// The first of the areas that holds all these bytes with that right.
fn first_holder(areas: &[HeldArea], at: u64, count: u64, right: Right) -> Option<&HeldArea>
    ensures { option_copied result ≡ holder at count right areas.now }
{
    for area in areas {
        if area.holds(at, count, right) {
            return Some(area);
        }
    }
    None
}

/// The least base of these areas.
fn least_of(areas: &[HeldArea]) -> Option<u64>
    ensures { result ≡ least_base areas.now }
{
    let mut least: Option<u64> = None;
    for area in areas {
        if least.is_none_or(|base| area.base() < base) {
            least = Some(area.base());
        }
    }
    least
}
