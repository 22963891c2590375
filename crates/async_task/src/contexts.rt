//! What the fibrils of a task keep, each at the place that its number gives it.
//!
//! What stands at a place lies in a map until it is removed. So what an ended fibril kept takes no
//! memory, and the places themselves take none.
ghost use Rattle.std.specs.Prelude.{◌≡◌, ◌<◌, ◌++◌, ◌∷◌, [], None, Some, OnOk, length, slice_set};
ghost use Rattle.std.specs.Option.{option_copied, option_copied_mut};
ghost use Rattle.async_task.specs.Kept.{kept_at, StandsAt};

use crate::context::Context;
use indexmap::IndexMap;
use ipc_ids::NoMemory;
use std::alloc::Global;
use std::marker::Model;

/// How many places there may be.
const MOST: usize = 1 << 62;

/// What the fibrils keep.
#[derive(Drop)]
pub struct Contexts {
    // How many places were made.
    made: usize,
    // What stands at the places where something does.
    kept: IndexMap<usize, Context>,
    // Where among the entries that stood which was changed last. It is looked at first.
    last: usize,
}

impl Model for Contexts {
    ghost use Rattle.std.specs.Prelude.{if◌then◌else◌, nat_lt, ◌^◌};
    ghost use Rattle.indexmap.specs.IndexMap.{spare};
    ghost use Rattle.async_task.specs.Kept.{ContextsState, listed, AreBelow};

    ghost Value = { ContextsState };

    ghost view = { λ c. record {
      kept = listed c.made c.kept.entries;
      spare = if nat_lt c.made (2 ^ 62) then spare c.kept else 0;
    } };

    ghost invariant = { λ c. AreBelow c.made c.kept.entries };
}

impl Contexts {
    ghost use Rattle.std.specs.Borrow.{sem};
    ghost use Rattle.async_task.specs.Lends.{lends_context};

    /// No places.
    pub(crate) fn new(alloc: Global) -> Contexts
        ensures kept { result.kept ≡ [] }
    {
        Contexts {
            made: 0,
            kept: IndexMap::new(alloc),
            last: 0,
        }
    }

    /// Makes room for one more.
    ///
    /// # Errors
    ///
    /// `NoMemory` where memory or the places have run out.
    pub(crate) fn reserve(&mut self) -> Result<(), NoMemory>
        ensures kept { self.new.kept ≡ self.old.kept }
        ensures room { OnOk result (0 < self.new.spare) }
    {
        if self.made >= MOST || self.kept.reserve(1).is_err() {
            return Err(NoMemory);
        }
        Ok(())
    }

    /// Makes a place, at which this stands.
    pub(crate) fn push(&mut self, t: Context)
        requires room { 0 < self.old.spare }
        ensures kept { self.new.kept ≡ self.old.kept ++ Some t ∷ [] }
    {
        self.kept.insert(self.made, t).unwrap();
        self.made += 1;
    }

    /// How many places were made. Takes no memory.
    #[tactic(auto, using(crate::proofs::Listed::length_listed))]
    pub fn made(&self) -> usize
        ensures { result ≡ length self.now.kept }
    {
        self.made
    }

    /// What stands at a place. Takes no memory.
    pub fn get(&self, place: usize) -> Option<&Context>
        ensures { option_copied result ≡ kept_at self.now.kept place }
    {
        match position_of(&self.kept, self.last, place) {
            Some(position) => match self.kept.get_index(position) {
                Some((_, t)) => Some(t),
                None => None,
            },
            None => None,
        }
    }

    /// What stands at a place, to be changed.
    pub(crate) fn get_mut(&mut self, place: usize) -> Option<&mut Context>
        ensures* writes_back { sem 𝓛 (lends_context self.entry place result) }
        ensures context { option_copied_mut result ≡ kept_at self.old.kept place }
    {
        match position_of(&self.kept, self.last, place) {
            Some(position) => {
                self.last = position;
                self.kept.get_index_mut(position)
            }
            None => None,
        }
    }

    /// Nothing stands at this place from now on.
    pub(crate) fn remove(&mut self, place: usize)
        ensures kept { self.new.kept ≡ slice_set self.old.kept place None }
    {
        self.kept.swap_remove(&place);
    }
}

/// Where among the entries stands that of a place, which may be at `last`.
#[inline(always)]
fn position_of(kept: &IndexMap<usize, Context>, last: usize, place: usize) -> Option<usize>
    ensures { StandsAt kept.now.entries place result }
{
    match kept.get_index(last) {
        Some((key, _)) if *key == place => Some(last),
        _ => search(kept, place),
    }
}

/// The same by a search in the map.
#[inline(never)]
fn search(kept: &IndexMap<usize, Context>, place: usize) -> Option<usize>
    ensures { StandsAt kept.now.entries place result }
{
    match kept.get_full(&place) {
        Some((position, _, _)) => Some(position),
        None => None,
    }
}
