//! The areas that tasks hold, found by their bases and by their stores.
ghost use Rattle.std.specs.Prelude.{◌≡◌, ◌↔◌, ◌==◌, ◌&&◌, ℕ, Option, Some, None, OnOk, IsTrue, if◌then◌else◌, true};
ghost use Rattle.law_check.specs.Held.{area_at, over_store, AreByStore};
ghost use Rattle.law_check.specs.Stores.{placed_in, IsAround, AreBounded};

use crate::stores::Stores;
use ipc_ids::NoMemory;
use std::alloc::Global;
use std::collections::BTreeMap;

/// An area that a task holds.
#[derive(Clone, Copy)]
pub struct Area {
    pub pages: u64,
    pub rights: u64,
    pub store: u64,
}

/// The areas that tasks hold: by task and base, and by task, store and base.
#[derive(Drop)]
pub struct Held {
    areas: BTreeMap<(u64, u64), Area>,
    stores: Stores,
}

/// The task's area with this base is no longer found by its store.
fn take_out(stores: &mut Stores, task: u64, base: u64, area: Option<Area>)
    ensures placed { ((store : ℕ) → placed_in stores.old.areas task store base ≡ over_store store area)
        → (t store b : ℕ) → placed_in stores.new.areas t store b
        ≡ (if (task == t) && (base == b) then None else placed_in stores.old.areas t store b) }
    ensures bounded { AreBounded stores.old.areas stores.old.blocks
        → AreBounded stores.new.areas stores.new.blocks }
{
    if let Some(area) = area {
        stores.remove(task, base, area.store);
    }
}

impl Held {
    pub fn new(alloc: Global) -> Held
        ensures areas { (t b : ℕ) → area_at result t b ≡ None }
        ensures by_store { AreByStore result }
    {
        Held {
            areas: BTreeMap::new(alloc),
            stores: Stores::new(alloc),
        }
    }

    /// The area with this base that the task holds.
    pub fn at(&self, task: u64, base: u64) -> Option<Area>
        ensures { result ≡ area_at self.now task base }
    {
        self.areas.get(&(task, base)).copied()
    }

    /// The task gets an area, in place of the one with this base.
    pub fn insert(&mut self, task: u64, base: u64, area: Area) -> Result<(), NoMemory>
        ensures areas { OnOk result ((t b : ℕ) → area_at self.new t b
            ≡ (if (task == t) && (base == b) then Some area else area_at self.old t b)) }
        ensures by_store { AreByStore self.old → OnOk result (AreByStore self.new) }
    {
        let old = self.areas.insert((task, base), area)?;
        take_out(&mut self.stores, task, base, old);
        self.stores.insert(task, base, area)?;
        Ok(())
    }

    /// The task has the area with this base no longer.
    pub fn remove(&mut self, task: u64, base: u64)
        ensures areas { (t b : ℕ) → area_at self.new t b
            ≡ (if (task == t) && (base == b) then None else area_at self.old t b) }
        ensures by_store { AreByStore self.old → AreByStore self.new }
    {
        let old = self.areas.remove(&(task, base));
        take_out(&mut self.stores, task, base, old);
    }

    /// Before a write is looked for: what is kept to find its area soon.
    pub fn prepare(&mut self, task: u64, at: u64, count: u64, store: u64)
        ensures areas { self.new.areas ≡ self.old.areas }
        ensures by_store { AreByStore self.old → AreByStore self.new }
    {
        self.stores.prepare(task, at, count, store);
    }

    /// The task holds an area over this store that it may write around so many bytes.
    pub fn covers(&self, task: u64, at: u64, count: u64, store: u64) -> bool
        ensures { AreByStore self.now
            → (IsTrue result ↔ IsAround self.now.stores.areas task at count store) }
    {
        self.stores.covers(task, at, count, store)
    }
}
