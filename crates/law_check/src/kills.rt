//! The law of a kill, as entries come whose calls live lawfully.
ghost use Rattle.std.specs.Prelude.{◌≡◌, ◌↔◌, ◌<◌, ◌≤◌, ◌+◌, ◌-◌, ◌^◌, ℕ, List, [], ◌∷◌, Some, IfOk, OnOk, IsTrue, false};
ghost use Rattle.ipc_ids.specs.Tales.{Tale, tale, tales};
ghost use Rattle.ipc_ids.specs.Laws.{IsAllowed, LivesAreLawful, KillEndsHeldCalls};
ghost use Rattle.ipc_ids.specs.declared.entry.Entry.{Entry};
ghost use Rattle.ipc_ids.specs.Lawful.{Follows};
ghost use Rattle.law_check.specs.Lives.{KnowsNext, life_at, earlier_kill_at};
ghost use Rattle.law_check.specs.Passing.{KillsStand, in_order};
ghost use Rattle.law_check.specs.KillState.{KnowsKills, TakesKill, number_at, is_late, is_dead, kind, since_put};

use crate::lives::{KnownCall, Lives, Place};
use ipc_ids::{Entry, NoMemory};
use std::alloc::Global;

/// What the entries so far say of kills: what they say of calls and tasks, and since which event
/// call `n` is at its place, at `n - 1`.
#[derive(Drop)]
pub struct Kills {
    pub lives: Lives,
    since: Vec<u64>,
}

/// What an entry is: one on this call, or another.
pub enum Kind {
    On(u64),
    Other,
}

fn kind_of(entry: &Entry) -> Kind
    ensures { result ≡ kind (tale entry.now) }
{
    match entry {
        Entry::Accepted { call, .. } => Kind::On(call.0),
        Entry::Received { call, .. } => Kind::On(call.0),
        Entry::Forwarded { call, .. } => Kind::On(call.0),
        Entry::Answered { call, .. } => Kind::On(call.0),
        Entry::Vanished(call) => Kind::On(call.0),
        Entry::Delivered { call, .. } => Kind::On(call.0),
        Entry::Dropped { call, .. } => Kind::On(call.0),
        Entry::Forgotten(call) => Kind::On(call.0),
        _ => Kind::Other,
    }
}

impl Kills {
    pub fn new(alloc: Global) -> Kills
        ensures knows { KnowsKills [] result }
        ensures events { result.lives.events ≡ 0 }
    {
        Kills {
            lives: Lives::new(alloc),
            since: Vec::new(alloc),
        }
    }

    fn since_at(&self, call: u64) -> u64
        ensures { result ≡ number_at self.now.since.items call }
    {
        if call == 0 {
            return 0;
        }
        self.since.get(call as usize - 1).copied().unwrap_or(0)
    }

    /// An earlier kill should have taken the call from its place.
    fn is_late(&self, call: u64) -> bool
        ensures { result ≡ is_late (life_at self.now.lives.calls.items call)
            (number_at self.now.since.items call) (earlier_kill_at self.now.lives) }
    {
        match self.lives.known(call) {
            Some(
                KnownCall {
                    place: Place::Incoming(holder),
                    ..
                },
            ) => self.since_at(call) <= self.lives.earlier_kill_at(holder),
            Some(
                KnownCall {
                    place: Place::Dispatched(holder),
                    ..
                },
            ) => self.since_at(call) <= self.lives.earlier_kill_at(holder),
            Some(
                KnownCall {
                    place: Place::Answers,
                    caller,
                },
            ) => self.since_at(call) < self.lives.earlier_kill_at(caller),
            _ => false,
        }
    }

    /// The call stands at a task that was killed in an earlier event.
    fn is_dead(&self, call: u64) -> bool
        ensures { result ≡ is_dead (life_at self.now.lives.calls.items call)
            (earlier_kill_at self.now.lives) }
    {
        match self.lives.known(call) {
            Some(
                KnownCall {
                    place: Place::Incoming(holder),
                    ..
                },
            ) => 0 < self.lives.earlier_kill_at(holder),
            Some(
                KnownCall {
                    place: Place::Dispatched(holder),
                    ..
                },
            ) => 0 < self.lives.earlier_kill_at(holder),
            Some(
                KnownCall {
                    place: Place::Answers,
                    caller,
                },
            ) => 0 < self.lives.earlier_kill_at(caller),
            _ => false,
        }
    }

    /// No call is late.
    fn none_is_late(&self) -> bool
        ensures { IsTrue result ↔ ((n : ℕ)
            → is_late (life_at self.now.lives.calls.items n) (number_at self.now.since.items n)
            (earlier_kill_at self.now.lives) ≡ false) }
    {
        for i in 0..self.lives.calls.len() {
            if self.is_late(i as u64 + 1) {
                return false;
            }
        }
        true
    }

    /// The call comes to a place in this event, if the entry moves it.
    fn come(&mut self, call: u64, entry: &Entry) -> Result<(), NoMemory>
        ensures since { OnOk result (self.new.since.items
            ≡ since_put (tale entry.now) call self.old.lives.events self.old.since.items) }
        ensures lives { self.new.lives ≡ self.old.lives }
    {
        match entry {
            Entry::Accepted { .. } => self.since.push(self.lives.events)?,
            Entry::Forgotten(_) => (),
            _ => {
                if 0 < call && call <= self.since.len() as u64 {
                    self.since[call as usize - 1] = self.lives.events;
                }
            }
        }
        Ok(())
    }

    /// Takes a lawful entry on a call.
    fn note(&mut self, call: u64, entry: &Entry) -> Result<(), NoMemory>
        requires { self.old.lives.events < 2 ^ 63 }
        ensures knows { (p : List Tale) → KnowsKills p self.old → Follows p (tale entry.now)
            → IsAllowed p (tale entry.now) → kind (tale entry.now) ≡ Kind.On call
            → OnOk result (KnowsKills (tale entry.now ∷ p) self.new) }
        ensures events { self.new.lives.events ≤ self.old.lives.events + 1 }
        ensures lives { KnowsNext self.old.lives (tale entry.now) result self.new.lives }
    {
        self.come(call, entry)?;
        self.lives.note(entry)?;
        Ok(())
    }

    /// Takes a lawful entry of another kind.
    fn pass(&mut self, entry: &Entry) -> Result<(), NoMemory>
        requires { self.old.lives.events < 2 ^ 63 }
        ensures knows { (p : List Tale) → KnowsKills p self.old → Follows p (tale entry.now)
            → IsAllowed p (tale entry.now) → kind (tale entry.now) ≡ Kind.Other
            → OnOk result (KnowsKills (tale entry.now ∷ p) self.new) }
        ensures events { self.new.lives.events ≤ self.old.lives.events + 1 }
        ensures lives { KnowsNext self.old.lives (tale entry.now) result self.new.lives }
    {
        self.lives.note(entry)?;
        Ok(())
    }

    /// Takes the next entry, unless the law is broken.
    fn take(&mut self, entry: &Entry) -> Result<bool, NoMemory>
        requires { self.old.lives.events < 2 ^ 63 }
        ensures takes { (p : List Tale) → KnowsKills p self.old → Follows p (tale entry.now)
            → IsAllowed p (tale entry.now)
            → IfOk result (λ yes. TakesKill p (tale entry.now) self.new yes) }
        ensures events { self.new.lives.events ≤ self.old.lives.events + 1 }
        ensures lives { KnowsNext self.old.lives (tale entry.now) result self.new.lives }
    {
        match kind_of(entry) {
            Kind::On(call) => {
                let late = self.is_late(call);
                self.note(call, entry)?;
                if late {
                    return Ok(false);
                }
                Ok(!self.is_dead(call))
            }
            Kind::Other => {
                self.pass(entry)?;
                Ok(true)
            }
        }
    }

    /// Takes a lawful entry, and tells whether the law still holds, as it did before or not.
    pub fn go_on(&mut self, holds: bool, entry: &Entry) -> Result<bool, NoMemory>
        requires { self.old.lives.events < 2 ^ 63 }
        ensures stand { (p : List Entry) → KillsStand p holds self.old
            → Follows (tales p) (tale entry.now) → IsAllowed (tales p) (tale entry.now)
            → IfOk result (λ yes. KillsStand (entry.now ∷ p) yes self.new) }
        ensures events { self.new.lives.events ≤ self.old.lives.events + 1 }
    {
        if holds {
            return self.take(entry);
        }
        self.lives.note(entry)?;
        Ok(false)
    }

    /// The entries that were taken satisfy the law of a kill, which held so far or not.
    pub fn hold(&mut self, holds: bool) -> bool
        ensures lawful { (p : List Entry) → KillsStand p holds self.old
            → LivesAreLawful (in_order p [])
            → (IsTrue result ↔ KillEndsHeldCalls (in_order p [])) }
        ensures calls { self.new.lives.calls ≡ self.old.lives.calls }
    {
        if !holds {
            return false;
        }
        self.lives.end();
        self.none_is_late()
    }
}
