//! The exchanges of a task.
ghost use Rattle.std.specs.Prelude.{◌≡◌, ◌<◌, ◌≤◌, ◌+◌, ◌^◌, OnErr, OnOk};
ghost use Rattle.std.specs.Option.{option_copied};
ghost use Rattle.async_sessions.specs.Sessions.{exchange_at, any_begun, first_idle};
ghost use Rattle.async_sessions.specs.ExchangeGroups.{none_kept, with_new, with_changed, without};

use crate::finding::{first_idle, is_any_begun, place_of};
use crate::groups::Groups;
use crate::sessions::{Exchange, Held};
use ipc_ids::{ExchangeNo, NoMemory};
use std::alloc::Global;
use std::marker::Model;

/// The exchanges of a task by number, with room for `spare` more.
#[derive(Drop)]
pub(crate) struct Exchanges {
    /// By rising number.
    listed: Vec<Exchange>,
    /// The same by how they are held. There is room for all to be idle, so that an end takes no
    /// memory.
    groups: Groups,
    next_number: u64,
}

impl Model for Exchanges {
    ghost use Rattle.std.specs.Prelude.{◌-◌, min, vec_len};
    ghost use Rattle.std.specs.Vec.{vec_capacity};
    ghost use Rattle.async_sessions.specs.ExchangeGroups.{ExchangesState, AreKept};

    ghost Value = { ExchangesState };

    ghost view = { λ a. record {
      now = record { listed = a.listed.items; next_number = a.next_number };
      spare = min (vec_capacity a.listed) (vec_capacity a.groups.idle) - vec_len a.listed;
    } };

    ghost invariant = { λ a. AreKept a.listed.items a.next_number a.groups.begun
        a.groups.idle.items (vec_capacity a.groups.idle) };
}

impl Exchanges {
    /// No exchanges; it takes no memory.
    pub(crate) fn new(alloc: Global) -> Exchanges
        ensures { result.now ≡ none_kept }
    {
        Exchanges {
            listed: Vec::new(alloc),
            groups: Groups {
                begun: [0; 16],
                idle: Vec::new(alloc),
            },
            next_number: 1,
        }
    }

    /// The exchanges by rising number.
    pub(crate) fn as_slice(&self) -> &[Exchange]
        ensures { result.now ≡ self.now.now.listed }
    {
        self.listed.as_slice()
    }

    /// Makes room for one more exchange.
    ///
    /// # Errors
    ///
    /// `NoMemory` where there was no room and no memory was found.
    pub(crate) fn reserve(&mut self) -> Result<(), NoMemory>
        ensures same { self.new.now ≡ self.old.now }
        ensures room { OnOk result (0 < self.new.spare) }
        ensures full { OnErr result (self.old.spare ≡ 0) }
        ensures spare { self.old.spare ≤ self.new.spare }
    {
        match self.listed.reserve(1) {
            Ok(()) => self.groups.reserve(self.listed.len() + 1),
            Err(_) => Err(NoMemory),
        }
    }

    /// The number that the next new exchange gets.
    pub(crate) fn next_number(&self) -> ExchangeNo
        ensures { result.0 ≡ self.now.now.next_number }
    {
        ExchangeNo(self.next_number)
    }

    /// The exchange with this number, if there is one.
    pub(crate) fn exchange_at(&self, e: ExchangeNo) -> Option<&Exchange>
        ensures { option_copied result ≡ exchange_at e self.now.now.listed }
    {
        match place_of(&self.listed, e) {
            Some(i) => Some(&self.listed[i]),
            None => None,
        }
    }

    /// Whether an exchange of the session is begun.
    pub(crate) fn is_any_begun(&self, s: u32) -> bool
        ensures { result ≡ any_begun s self.now.now.listed }
    {
        match self.groups.begun.get(s as usize) {
            Some(count) => *count != 0,
            // No session in use has such a number.
            None => is_any_begun(&self.listed, s),
        }
    }

    /// The exchange that has been idle longest, of this session or, with `None`, of any.
    pub(crate) fn first_idle(&self, s: Option<u32>) -> Option<&Exchange>
        ensures { option_copied result ≡ first_idle s self.now.now.listed }
    {
        first_idle(&self.groups.idle, s)
    }

    /// Adds an exchange, which has the next number. There is room for it.
    pub(crate) fn add(&mut self, x: Exchange)
        requires room { 0 < self.old.spare }
        requires few_numbers { self.old.now.next_number < 2 ^ 62 }
        requires number { x.number.0 ≡ self.old.now.next_number }
        ensures after { self.new.now ≡ with_new x self.old.now }
        ensures spare { self.new.spare + 1 ≡ self.old.spare }
    {
        self.groups.enter(x);
        self.listed.push_reserved(x);
        self.next_number += 1;
    }

    /// The exchange with this number, if there is one, is held so from now on, and has this stamp.
    #[inline(always)]
    pub(crate) fn change(&mut self, e: ExchangeNo, held: Held, stamp: u64)
        ensures { self.new.now ≡ with_changed e held stamp self.old.now }
    {
        if let Some(i) = place_of(&self.listed, e) {
            let was = self.listed[i];
            let now = Exchange { held, stamp, ..was };
            self.listed[i] = now;
            self.groups.leave(&was);
            self.groups.enter(now);
        }
    }

    /// Removes the exchange with this number, if there is one.
    pub(crate) fn drop_exchange(&mut self, e: ExchangeNo)
        ensures { self.new.now ≡ without e self.old.now }
    {
        if let Some(i) = place_of(&self.listed, e) {
            let x = self.listed.remove(i);
            self.groups.leave(&x);
        }
    }
}
