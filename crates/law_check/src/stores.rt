//! The areas of each task over each store, found by their bases.
ghost use Rattle.std.specs.Prelude.{◌≡◌, ◌↔◌, ◌≤◌, ◌==◌, ◌&&◌, ℕ, Some, None, OnOk, IfOk, IsTrue, if◌then◌else◌, true};
ghost use Rattle.law_check.specs.declared.held.Area.{Area};
ghost use Rattle.law_check.specs.Stores.{reach, reaches, holds, ByStore, placed_in, IsAround, IsBounded, AreBounded, Bounds, IsTight, Changes};

use crate::held::Area;
use ipc_ids::NoMemory;
use std::alloc::Global;
use std::collections::BTreeMap;

/// How many areas a block has as it is made.
const FEW: u32 = 64;

/// How many blocks of one area are added before all blocks are made anew.
const MOST_ADDED: u32 = 256;

/// The areas of a task over a store with a base from `first` to `last`: none of them reaches beyond
/// `end`.
#[derive(Clone, Copy)]
pub struct Block {
    pub first: u64,
    pub last: u64,
    pub end: u128,
}

/// Blocks that hold all areas of a task over a store.
#[derive(Drop)]
pub struct Blocks {
    pub list: Vec<Block>,
    /// How many blocks were added since they were made.
    pub added: u32,
}

/// The areas of tasks, by task, store and base. Blocks save time alone: a task has them over a store
/// once it writes into an area that is not the nearest one to the address.
#[derive(Drop)]
pub struct Stores {
    alloc: Global,
    areas: BTreeMap<(u64, u64, u64), Area>,
    blocks: BTreeMap<(u64, u64), Blocks>,
}

/// One more than the end of the area with this base; 0 where it may not be written.
fn reach(base: u64, area: Area) -> u128
    ensures { result ≡ reach base area }
{
    if 2 & area.rights == 2 {
        base as u128 + area.pages as u128 * 4096 + 1
    } else {
        0
    }
}

/// The area with this base may be written around so many bytes.
fn reaches(base: u64, area: Area, at: u64, count: u64) -> bool
    ensures { result ≡ reaches base area at count }
{
    base <= at && at as u128 + (count as u128) < reach(base, area)
}

impl Stores {
    pub fn new(alloc: Global) -> Stores
        ensures areas { (t store base : ℕ) → placed_in result.areas t store base ≡ None }
        ensures bounded { AreBounded result.areas result.blocks }
    {
        Stores {
            alloc,
            areas: BTreeMap::new(alloc),
            blocks: BTreeMap::new(alloc),
        }
    }

    /// How far the task's areas over this store reach that have a base from `first` to `last`.
    fn greatest(&self, task: u64, store: u64, first: u64, last: u64) -> u128
        ensures bounds { Bounds self.now.areas task store first last result }
        ensures tight { IsTight self.now.areas task store last result }
    {
        let mut most = 0u128;
        if last < first {
            return most;
        }
        let areas = self.areas.range((task, store, first)..=(task, store, last));
        for (key, area) in areas.rev() {
            most = most.max(reach(key.2, *area));
        }
        most
    }

    /// The block of the task's areas over this store that have a base from `first` to `last`.
    fn block(&self, task: u64, store: u64, first: u64, last: u64) -> Block
        ensures { (base : ℕ) (area : Area) → placed_in self.now.areas task store base ≡ Some area
            → first ≤ base → base ≤ last → holds base area result ≡ true }
    {
        Block {
            first,
            last,
            end: self.greatest(task, store, first, last),
        }
    }

    /// All areas of the task over this store, in blocks.
    fn blocks_of(&self, task: u64, store: u64) -> Result<Vec<Block>, NoMemory>
        ensures { IfOk result (λ list. IsBounded self.now.areas task store list.items) }
    {
        let mut list = Vec::new(self.alloc);
        let mut first = 0;
        let mut count = 0;
        let areas = self.areas.range((task, store, 0)..=(task, store, u64::MAX));
        for (key, _) in areas {
            let last = key.2;
            if count < FEW {
                count += 1;
                continue;
            }
            if last == u64::MAX {
                continue;
            }
            list.push(self.block(task, store, first, last))?;
            first = last + 1;
            count = 0;
        }
        list.push(self.block(task, store, first, u64::MAX))?;
        Ok(list)
    }

    /// The nearest of the task's areas over this store may be written around so many bytes.
    fn is_near(&self, task: u64, at: u64, count: u64, store: u64) -> bool {
        let mut areas = self.areas.range((task, store, 0)..=(task, store, at));
        match areas.next_back() {
            Some((key, area)) => reaches(key.2, *area, at, count),
            None => true,
        }
    }

    /// Before a write is looked for, its task's areas over this store are put into blocks, where the
    /// nearest one is not around it. With no memory they stay as they are.
    pub fn prepare(&mut self, task: u64, at: u64, count: u64, store: u64)
        ensures areas { self.new.areas ≡ self.old.areas }
        ensures bounded { AreBounded self.old.areas self.old.blocks
            → AreBounded self.new.areas self.new.blocks }
    {
        if self.is_near(task, at, count, store) || self.blocks.contains_key(&(task, store)) {
            return;
        }
        if let Ok(list) = self.blocks_of(task, store) {
            let _old = self.blocks.insert((task, store), Blocks { list, added: 0 });
        }
    }

    /// An area in this block may be written around so many bytes.
    fn is_in_block(&self, block: Block, task: u64, at: u64, count: u64, store: u64) -> bool
        ensures yes { IsTrue result → IsAround self.now.areas task at count store }
        ensures no { (base : ℕ) (area : Area) → placed_in self.now.areas task store base ≡ Some area
            → reaches base area at count ≡ true → holds base area block ≡ true → IsTrue result }
    {
        let end = at as u128 + count as u128;
        if at < block.first {
            return false;
        }
        if block.end <= end {
            return false;
        }
        end < self.greatest(task, store, block.first, block.last.min(at))
    }

    /// An area in one of these blocks may be written around so many bytes.
    fn is_in(&self, list: &[Block], task: u64, at: u64, count: u64, store: u64) -> bool
        ensures { IsBounded self.now.areas task store list.now
            → (IsTrue result ↔ IsAround self.now.areas task at count store) }
    {
        for block in list {
            if self.is_in_block(*block, task, at, count, store) {
                return true;
            }
        }
        false
    }

    /// One of the task's areas over this store may be written around so many bytes. The nearest to
    /// the address are tried first.
    fn is_found(&self, task: u64, at: u64, count: u64, store: u64) -> bool
        ensures { IsTrue result ↔ IsAround self.now.areas task at count store }
    {
        let areas = self.areas.range((task, store, 0)..=(task, store, at));
        for (key, area) in areas.rev() {
            if reaches(key.2, *area, at, count) {
                return true;
            }
        }
        false
    }

    /// One of the task's areas over this store may be written around so many bytes.
    pub fn covers(&self, task: u64, at: u64, count: u64, store: u64) -> bool
        ensures { AreBounded self.now.areas self.now.blocks
            → (IsTrue result ↔ IsAround self.now.areas task at count store) }
    {
        match self.blocks.get(&(task, store)) {
            Some(blocks) => self.is_in(&blocks.list, task, at, count, store),
            None => self.is_found(task, at, count, store),
        }
    }

    /// A block of this area is added to those of the task and the store, if they have any. With no
    /// memory, or too many of such blocks, they have none any more.
    fn add(&mut self, task: u64, base: u64, area: Area)
        ensures areas { self.new.areas ≡ self.old.areas }
        ensures bounded { (areas : ByStore) → Changes self.old.areas areas task area.store base (Some area)
            → AreBounded self.old.areas self.old.blocks → AreBounded areas self.new.blocks }
    {
        let Some(mut blocks) = self.blocks.remove(&(task, area.store)) else {
            return;
        };
        let block = Block {
            first: base,
            last: base,
            end: reach(base, area),
        };
        if blocks.added >= MOST_ADDED {
            return;
        }
        if blocks.list.push(block).is_err() {
            return;
        }
        blocks.added += 1;
        let _old = self.blocks.insert((task, area.store), blocks);
    }

    /// The block, if it holds this base, as its areas are now.
    fn tight(&self, block: Block, task: u64, base: u64, store: u64) -> Block
        ensures { (b : ℕ) (area : Area) → placed_in self.now.areas task store b ≡ Some area
            → holds b area block ≡ true → holds b area result ≡ true }
    {
        if base < block.first {
            return block;
        }
        if block.last < base {
            return block;
        }
        self.block(task, store, block.first, block.last)
    }

    /// The blocks of the task over this store that hold this base reach no further than their areas.
    fn tighten(&mut self, task: u64, base: u64, store: u64)
        ensures areas { self.new.areas ≡ self.old.areas }
        ensures bounded { AreBounded self.old.areas self.old.blocks
            → AreBounded self.new.areas self.new.blocks }
    {
        let Some(mut blocks) = self.blocks.remove(&(task, store)) else {
            return;
        };
        for i in 0..blocks.list.len() {
            blocks.list[i] = self.tight(blocks.list[i], task, base, store);
        }
        let _old = self.blocks.insert((task, store), blocks);
    }

    /// The task gets an area.
    pub fn insert(&mut self, task: u64, base: u64, area: Area) -> Result<(), NoMemory>
        ensures areas { OnOk result
            (Changes self.old.areas self.new.areas task area.store base (Some area)) }
        ensures bounded { AreBounded self.old.areas self.old.blocks
            → OnOk result (AreBounded self.new.areas self.new.blocks) }
    {
        self.add(task, base, area);
        self.areas.insert((task, area.store, base), area)?;
        Ok(())
    }

    /// The task has the area over this store no longer.
    pub fn remove(&mut self, task: u64, base: u64, store: u64)
        ensures areas { Changes self.old.areas self.new.areas task store base None }
        ensures bounded { AreBounded self.old.areas self.old.blocks
            → AreBounded self.new.areas self.new.blocks }
    {
        self.areas.remove(&(task, store, base));
        self.tighten(task, base, store);
    }
}
