//! The slots of the live calls, each under a key of four bytes.
ghost use Rattle.std.specs.Prelude.{◌≡◌, ◌+◌, ◌<◌, ◌≤◌, None, Some, IsSome, OnOk};
ghost use Rattle.std.specs.FinMap.{empty, get, insert, remove};
ghost use Rattle.call_slab.specs.Calls.{call_of, links_of};
ghost use Rattle.call_slab.specs.Slots.{slot_with, with_links};

use crate::call::{Call, Place};
use crate::links::{CallKey, KeptLinks, Links, NO_KEY};
use ipc_ids::{Buffer, CallNo, Code, Label, Msg, NoMemory, PhoneNo, Reply, TaskNo};
use slab::Slab;
use std::alloc::Global;
use std::marker::Model;
use std::mem::replace;

/// A call, the number under which it was put, and its links. A slot that waits for a call has the
/// number 0, which no call has.
#[derive(Drop)]
pub struct Slot {
    pub(crate) name: u64,
    pub(crate) call: Call,
    links: KeptLinks,
}

impl Slot {
    /// A slot that waits for a call.
    fn vacant(alloc: Global) -> Slot
        ensures { result.name ≡ 0 }
    {
        Slot {
            name: 0,
            call: no_call(alloc),
            links: KeptLinks::none(),
        }
    }

    /// Takes the call out, and leaves a slot that waits for one.
    #[inline(always)]
    fn leave(&mut self, alloc: Global) -> Slot
        ensures slot { result ≡ self.old }
        ensures vacant { self.new.name ≡ 0 }
    {
        Slot {
            name: replace(&mut self.name, 0),
            call: take(&mut self.call, alloc),
            links: self.links.same(),
        }
    }
}

/// What stands where there is no call.
fn no_call(alloc: Global) -> Call {
    let label = Label {
        task: TaskNo(0),
        phone: PhoneNo(0),
    };
    let msg = Msg {
        method: 0,
        args: [0; 5],
    };
    Call {
        number: CallNo(0),
        caller: None,
        from: label,
        label,
        request: msg,
        msg,
        reply: Reply {
            code: Code(0),
            args: [0; 5],
        },
        discard: false,
        buffer: Buffer::new(alloc),
        reserved: None,
        place: Place::Answers(TaskNo(0)),
        stamp: 0,
    }
}

/// Takes the call, with its bytes, out of a record that has no more use.
#[inline(always)]
fn take(call: &mut Call, alloc: Global) -> Call
    ensures { result ≡ call.old }
{
    Call {
        number: call.number,
        caller: call.caller,
        from: call.from,
        label: call.label,
        request: call.request,
        msg: call.msg,
        reply: call.reply,
        discard: call.discard,
        buffer: replace(&mut call.buffer, Buffer::new(alloc)),
        reserved: call.reserved,
        place: call.place,
        stamp: call.stamp,
    }
}

/// The slots of the live calls, and those that are ready for one: their keys were seen to fit in
/// four bytes. What a call leaves is made ready again where the list of these has room, and goes
/// back to the slab where it has none.
#[derive(Drop)]
pub struct Slots {
    slab: Slab<Slot>,
    ready: Vec<u32>,
}

impl Model for Slots {
    ghost use Rattle.std.specs.Prelude.{length};
    ghost use Rattle.call_slab.specs.Slots.{SlotsState, slots_code, live_slots, AreReady};
    ghost use Rattle.call_slab.specs.contracts.slots.Slot as slot;

    ghost Value = { SlotsState };

    ghost coded = { slots_code slot.the_row.coded };

    ghost view = { λ a. record { slots = live_slots a.slab; spare = length a.ready.items } };

    ghost invariant = { λ a. AreReady a.slab a.ready.items };
}

impl Slots {
    ghost use Rattle.std.specs.Prelude.{◌≡◌, ◌+◌, ◌<◌, ◌≤◌, None, Some, IsSome, IsTrue, OnOk, option_map};
    ghost use Rattle.std.specs.Borrow.{sem};
    ghost use Rattle.std.specs.FinMap.{empty, get, insert, remove};
    ghost use Rattle.call_slab.specs.Calls.{call_of, links_of};
    ghost use Rattle.call_slab.specs.Slots.{slot_with, with_links};
    ghost use Rattle.call_slab.specs.Lends.{lends_slot_call};

    /// No slots; it takes no memory.
    pub fn new(alloc: Global) -> Slots
        ensures slots { result.slots ≡ empty }
    {
        Slots {
            slab: Slab::new(alloc),
            ready: Vec::new(alloc),
        }
    }

    /// The allocator of the slots.
    pub fn alloc(&self) -> Global {
        *self.ready.allocator()
    }

    /// Makes `n` slots ready.
    ///
    /// # Errors
    ///
    /// `NoMemory` where memory has run out, or where a key does not fit in four bytes.
    pub fn reserve(&mut self, n: usize) -> Result<(), NoMemory>
        ensures slots { self.new.slots ≡ self.old.slots }
        ensures room { OnOk result (n ≤ self.new.spare) }
        ensures spare { self.old.spare ≤ self.new.spare }
    {
        while self.ready.len() < n {
            self.make_ready()?;
        }
        Ok(())
    }

    /// Makes one more slot ready.
    #[inline(never)]
    fn make_ready(&mut self) -> Result<(), NoMemory>
        ensures slots { self.new.slots ≡ self.old.slots }
        ensures room { OnOk result (self.new.spare ≡ self.old.spare + 1) }
        ensures spare { self.old.spare ≤ self.new.spare }
    {
        if self.ready.reserve(1).is_err() {
            return Err(NoMemory);
        }
        let vacant = Slot::vacant(self.alloc());
        let Ok(key) = self.slab.insert(vacant) else {
            return Err(NoMemory);
        };
        if key >= NO_KEY as usize {
            self.slab.remove(key);
            return Err(NoMemory);
        }
        self.ready.push_reserved(key as u32);
        Ok(())
    }

    /// Puts a call into a slot that is ready, under this number, with no links.
    #[inline(always)]
    pub fn put(&mut self, name: u64, call: Call) -> CallKey
        requires room { 0 < self.old.spare }
        requires named { 0 < name }
        ensures fresh { get self.old.slots result ≡ None }
        ensures slots { self.new.slots ≡ insert self.old.slots result (slot_with name call) }
        ensures spare { self.new.spare + 1 ≡ self.old.spare }
    {
        let key = self.ready.pop().unwrap();
        self.slab[key as usize] = Slot {
            name,
            call,
            links: KeptLinks::none(),
        };
        CallKey::of(key)
    }

    /// Whether a call stands under this key that was put under this number.
    #[inline(always)]
    pub fn has_name(&self, key: CallKey, name: u64) -> bool
        requires named { 0 < name }
        ensures { IsTrue result → option_map (λ s. s.name) (get self.now.slots key) ≡ Some name }
    {
        match self.slab.get(key.kept() as usize) {
            Some(slot) => slot.name == name,
            None => false,
        }
    }

    /// The call under this key.
    #[inline(always)]
    pub fn call(&self, key: CallKey) -> &Call
        requires live { IsSome (get self.now.slots key) }
        ensures { call_of (get self.now.slots key) ≡ Some result.now }
    {
        &self.slab[key.kept() as usize].call
    }

    /// The call under this key, to be written.
    #[inline(always)]
    pub fn call_mut(&mut self, key: CallKey) -> &mut Call
        requires live { IsSome (get self.old.slots key) }
        ensures* writes_back { sem 𝓛 (lends_slot_call self.entry key result) }
        ensures call { call_of (get self.old.slots key) ≡ Some result.now }
    {
        let slot = &mut self.slab[key.kept() as usize];
        &mut slot.call
    }

    /// The links of the call under this key.
    #[inline(always)]
    pub fn links(&self, key: CallKey) -> Links
        requires live { IsSome (get self.now.slots key) }
        ensures { result ≡ links_of (get self.now.slots key) }
    {
        self.slab[key.kept() as usize].links.links()
    }

    /// Gives the call under this key these links.
    #[inline(always)]
    pub fn set_links(&mut self, key: CallKey, links: Links)
        requires live { IsSome (get self.old.slots key) }
        ensures { self.new ≡ with_links self.old key links }
    {
        self.slab[key.kept() as usize].links = KeptLinks::of(links);
    }

    /// Takes out the slot with its call.
    #[inline(always)]
    pub fn take_out(&mut self, key: CallKey) -> Slot
        requires live { IsSome (get self.old.slots key) }
        ensures slot { get self.old.slots key ≡ Some result }
        ensures slots { self.new.slots ≡ remove self.old.slots key }
        ensures spare { self.old.spare ≤ self.new.spare }
    {
        if self.ready.len() < self.ready.capacity() {
            let alloc = self.alloc();
            self.ready.push_reserved(key.kept());
            self.slab[key.kept() as usize].leave(alloc)
        } else {
            self.slab.remove(key.kept() as usize)
        }
    }
}
