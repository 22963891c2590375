//! The slots of a fibril.
ghost use Rattle.std.specs.Prelude.{◌≡◌, ◌<◌, ◌≤◌, OnOk, OnErr, length, replicate, slice_get};
ghost use Rattle.async_task.specs.Contexts.{slot_in};
ghost use Rattle.async_task.specs.Slots.{filled, with_held};

use crate::context::Slot;
use ipc_ids::NoMemory;
use std::alloc::Global;
use std::marker::Model;

/// How many slots a fibril has.
const SLOTS: usize = 8;

/// What the 8 slots of a fibril hold. Those behind the last that was ever used take no memory.
#[derive(Drop)]
pub struct FibrilSlots {
    // What the first slots hold. The others are closed.
    used: Vec<Slot>,
}

impl Model for FibrilSlots {
    ghost use Rattle.std.specs.Prelude.{List, ◌≤◌, length};
    ghost use Rattle.async_task.specs.declared.context.Slot.{Slot};
    ghost use Rattle.async_task.specs.Slots.{filled};

    ghost Value = { List Slot };

    ghost view = { λ slots. filled slots.used.items };

    ghost invariant = { λ slots. length slots.used.items ≤ 8 };
}

impl FibrilSlots {
    /// All are closed; they take no memory.
    pub(crate) fn new(alloc: Global) -> FibrilSlots
        ensures { result ≡ replicate 8 Slot.Closed }
    {
        FibrilSlots {
            used: Vec::new(alloc),
        }
    }

    /// How many slots there are: 8. Takes no memory.
    #[tactic(auto, using(crate::proofs::Filled::length_filled))]
    pub fn count(&self) -> u32
        ensures { result ≡ length self.now }
    {
        let used = self.used.len();
        (used + (SLOTS - used)) as u32
    }

    /// What a slot holds; a slot from 8 on is closed. Takes no memory.
    pub fn get(&self, slot: u32) -> Slot
        ensures { result ≡ slot_in (slice_get self.now slot) }
    {
        match self.used.as_slice().get(slot as usize) {
            Some(slot) => *slot,
            None => Slot::Closed,
        }
    }

    /// A slot holds that. There is none from 8 on.
    ///
    /// # Errors
    ///
    /// `NoMemory` where no memory was found. Nothing has changed then.
    #[tactic(auto, using(crate::proofs::Filled::filled_set))]
    pub(crate) fn hold(&mut self, slot: u32, holds: Slot) -> Result<(), NoMemory>
        ensures ok { OnOk result (self.new ≡ with_held self.old slot holds) }
        ensures unchanged { OnErr result (self.new ≡ self.old) }
    {
        let place = slot as usize;
        if place >= SLOTS {
            return Ok(());
        }
        reach(&mut self.used, place)?;
        self.used[place] = holds;
        Ok(())
    }

    /// A slot is closed.
    pub(crate) fn close(&mut self, slot: u32)
        ensures { self.new ≡ with_held self.old slot Slot.Closed }
    {
        let place = slot as usize;
        if place < self.used.len() {
            self.used[place] = Slot::Closed;
        }
    }
}

/// Makes room for the slots up to this one. What they hold stays: the new ones are closed.
fn reach(used: &mut Vec<Slot>, place: usize) -> Result<(), NoMemory>
    requires few { length used.old.items ≤ 8 }
    requires there { place < 8 }
    ensures held { filled used.new.items ≡ filled used.old.items }
    ensures few { length used.new.items ≤ 8 }
    ensures reached { OnOk result (place < length used.new.items) }
{
    if place < used.len() {
        return Ok(());
    }
    let more = place + 1 - used.len();
    if used.reserve_exact(more).is_err() || used.resize(place + 1, Slot::Closed).is_err() {
        return Err(NoMemory);
    }
    Ok(())
}
