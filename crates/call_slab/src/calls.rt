//! The live calls under keys that stay the same, with the links of the lists that they stand in.
ghost use Rattle.std.specs.Prelude.{◌≡◌, ◌+◌, ◌<◌, ◌≤◌, None, Some, IsSome, IfSome, IfNone, OnOk};
ghost use Rattle.std.specs.FinMap.{empty, get, remove};
ghost use Rattle.call_slab.specs.Calls.{put, set_links, set_place, change_call, clear_caller, call_of, links_of, name_of, HasNoCall, IsUnder};
ghost use Rattle.call_slab.specs.Change.{changed};

use crate::call::{Call, Place};
use crate::change::{Change, give};
use crate::index::Index;
use crate::links::{CallKey, Links, link};
use crate::slots::Slots;
use ipc_ids::{CallNo, NoMemory, Steps};
use std::alloc::Global;
use std::marker::Model;
use std::sync::ledger::Ledger;

/// The live calls, with room for `spare` more.
#[derive(Drop)]
pub struct Calls {
    slots: Slots,
    keys: Index,
    // The greatest number under which a call was put.
    last: u64,
}

impl Model for Calls {
    ghost use Rattle.std.specs.Prelude.{min};
    ghost use Rattle.call_slab.specs.Calls.{CallsState, calls_code, IsKeyed};
    ghost use Rattle.call_slab.specs.contracts.slots.Slot as slot;

    ghost Value = { CallsState };

    ghost coded = { calls_code slot.the_row.coded };

    ghost view = { λ a. record {
      slots = a.slots.slots;
      keys = a.keys.keys;
      last = a.last;
      spare = min a.slots.spare a.keys.spare;
    } };

    ghost invariant = { λ a. IsKeyed a.slots.slots a.keys.keys a.last };
}

impl Calls {
    ghost use Rattle.std.specs.Prelude.{◌≡◌, ◌+◌, ◌<◌, ◌≤◌, None, Some, IsSome, IfSome, IfNone, OnOk};
    ghost use Rattle.std.specs.Borrow.{sem};
    ghost use Rattle.std.specs.FinMap.{empty, get, remove};
    ghost use Rattle.call_slab.specs.Calls.{put, set_links, set_place, change_call, clear_caller, call_of, links_of, name_of, HasNoCall, IsUnder};
    ghost use Rattle.call_slab.specs.Change.{changed};
    ghost use Rattle.call_slab.specs.Lends.{lends_call};

    /// No calls; it takes no memory.
    pub fn new(alloc: Global) -> Calls
        ensures slots { result.slots ≡ empty }
        ensures keys { result.keys ≡ empty }
        ensures last { result.last ≡ 0 }
    {
        Calls {
            slots: Slots::new(alloc),
            keys: Index::new(alloc),
            last: 0,
        }
    }

    /// The allocator of the records, which a new call may use for its bytes.
    pub fn alloc(&self) -> Global {
        self.slots.alloc()
    }

    /// Makes room for `n` more calls.
    ///
    /// # Errors
    ///
    /// `NoMemory` where memory has run out. The calls stay, and no room is lost.
    pub fn reserve(&mut self, n: usize) -> Result<(), NoMemory>
        ensures slots { self.new.slots ≡ self.old.slots }
        ensures keys { self.new.keys ≡ self.old.keys }
        ensures last { self.new.last ≡ self.old.last }
        ensures room { OnOk result (n ≤ self.new.spare) }
        ensures spare { self.old.spare ≤ self.new.spare }
    {
        self.slots.reserve(n)?;
        self.keys.reserve(n)
    }

    /// Puts a call under a key that no live call has, and under its number, with no links. Its
    /// number is above those of all that were put before.
    #[inline(always)]
    pub fn put(&mut self, call: Call) -> CallKey
        requires room { 0 < self.old.spare }
        requires above { self.old.last < call.number.0 }
        ensures fresh { get self.old.slots result ≡ None }
        ensures slots { self.new.slots ≡ (put self.old call result).slots }
        ensures keys { self.new.keys ≡ (put self.old call result).keys }
        ensures last { self.new.last ≡ call.number.0 }
        ensures spare { self.old.spare ≤ self.new.spare + 1 }
    {
        let name = call.number.0;
        let key = self.slots.put(name, call);
        self.keys.put(name, key);
        self.last = name;
        key
    }

    /// The key of the live call that was put under this number; `None` exactly where no live call
    /// was.
    pub fn key_of<L: Ledger>(&self, number: CallNo, steps: &mut Steps<L>) -> Option<CallKey>
        ensures key { result ≡ get self.now.keys number.0 }
        ensures some { IfSome result (λ key. IsUnder self.now number.0 key) }
        ensures none { IfNone result (HasNoCall self.now number.0) }
        ensures steps { steps.new ≡ steps.old + 1 }
    {
        steps.tick();
        self.keys.get(number.0)
    }

    /// The key that was kept as `kept`, where the call under it was put under this number.
    #[inline(always)]
    pub fn key_kept(&self, number: CallNo, kept: u32) -> Option<CallKey>
        ensures { IfSome result (λ key. get self.now.keys number.0 ≡ Some key) }
    {
        match link(kept) {
            Some(key) if number.0 != 0 && self.slots.has_name(key, number.0) => Some(key),
            _ => None,
        }
    }

    /// The call under this key.
    pub fn get<L: Ledger>(&self, key: CallKey, steps: &mut Steps<L>) -> &Call
        requires live { IsSome (get self.now.slots key) }
        ensures call { call_of (get self.now.slots key) ≡ Some result.now }
        ensures steps { steps.new ≡ steps.old + 1 }
    {
        steps.tick();
        self.slots.call(key)
    }

    /// The call under this key, to be written.
    pub fn get_mut<L: Ledger>(&mut self, key: CallKey, steps: &mut Steps<L>) -> &mut Call
        requires live { IsSome (get self.old.slots key) }
        ensures* writes_back { sem 𝓛 (lends_call self.entry key result) }
        ensures call { call_of (get self.old.slots key) ≡ Some result.now }
        ensures steps { steps.new ≡ steps.old + 1 }
    {
        steps.tick();
        self.slots.call_mut(key)
    }

    /// The links of the call under this key.
    pub fn links<L: Ledger>(&self, key: CallKey, steps: &mut Steps<L>) -> Links
        requires live { IsSome (get self.now.slots key) }
        ensures links { result ≡ links_of (get self.now.slots key) }
        ensures steps { steps.new ≡ steps.old + 1 }
    {
        steps.tick();
        self.slots.links(key)
    }

    /// Gives the call under this key these links.
    pub fn set_links<L: Ledger>(&mut self, key: CallKey, links: Links, steps: &mut Steps<L>)
        requires live { IsSome (get self.old.slots key) }
        ensures calls { self.new ≡ set_links self.old key links }
        ensures steps { steps.new ≡ steps.old + 1 }
    {
        steps.tick();
        self.slots.set_links(key, links);
    }

    /// Takes the call out, which frees its key.
    #[inline(always)]
    pub fn take_out<L: Ledger>(&mut self, key: CallKey, steps: &mut Steps<L>) -> Call
        requires live { IsSome (get self.old.slots key) }
        ensures call { call_of (get self.old.slots key) ≡ Some result }
        ensures slots { self.new.slots ≡ remove self.old.slots key }
        ensures keys { self.new.keys ≡ remove self.old.keys (name_of (get self.old.slots key)) }
        ensures last { self.new.last ≡ self.old.last }
        ensures spare { self.old.spare ≤ self.new.spare }
        ensures steps { steps.new ≡ steps.old + 1 }
    {
        steps.tick();
        let slot = self.slots.take_out(key);
        self.keys.remove(slot.name);
        slot.call
    }

    /// Gives the call this place and this stamp.
    pub fn set_place<L: Ledger>(
        &mut self,
        key: CallKey,
        place: Place,
        stamp: u64,
        steps: &mut Steps<L>,
    )
        requires live { IsSome (get self.old.slots key) }
        ensures calls { self.new ≡ set_place self.old key place stamp }
        ensures steps { steps.new ≡ steps.old + 1 }
    {
        let call = self.get_mut(key, steps);
        call.place = place;
        call.stamp = stamp;
    }

    /// Gives the call what is in `change`.
    #[inline(always)]
    pub fn change<L: Ledger>(&mut self, key: CallKey, change: Change, steps: &mut Steps<L>)
        requires live { IsSome (get self.old.slots key) }
        ensures calls { self.new ≡ change_call self.old key (changed change) }
        ensures steps { steps.new ≡ steps.old + 1 }
    {
        give(self.get_mut(key, steps), change);
    }

    /// Clears the caller of the call, which has ended.
    pub fn clear_caller<L: Ledger>(&mut self, key: CallKey, steps: &mut Steps<L>)
        requires live { IsSome (get self.old.slots key) }
        ensures calls { self.new ≡ clear_caller self.old key }
        ensures steps { steps.new ≡ steps.old + 1 }
    {
        self.get_mut(key, steps).caller = None;
    }
}
