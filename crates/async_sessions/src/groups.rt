//! Exchanges by how they are held.
ghost use Rattle.std.specs.Prelude.{◌≡◌, ◌<◌, ◌≤◌, ◌+◌, ◌^◌, slice_index, vec_len};
ghost use Rattle.std.specs.List.{filter};
ghost use Rattle.std.specs.Vec.{vec_capacity};
ghost use Rattle.async_sessions.specs.Sessions.{is_other};
ghost use Rattle.async_sessions.specs.ExchangeOrder.{AreRising, HasNone};
ghost use Rattle.async_sessions.specs.ExchangeGroups.{CanEnter, CanLeave, MakesRoom, placed};
ghost use Rattle.async_sessions.specs.ExchangeGroups.{one_more, one_less};
ghost use Rattle.async_sessions.specs.ExchangeGroups.{counted_with, counted_without};
ghost use Rattle.async_sessions.specs.ExchangeGroups.{idle_with, idle_without};

use crate::finding::place_of;
use crate::sessions::{Exchange, Held};
use ipc_ids::{ExchangeNo, NoMemory};

/// How many exchanges of each session are begun, and those that are idle, so that no call looks
/// through all exchanges for them.
#[derive(Drop)]
pub(crate) struct Groups {
    /// By session.
    pub(crate) begun: [usize; 16],
    /// By rising number.
    pub(crate) idle: Vec<Exchange>,
}

impl Groups {
    /// Makes room for this many idle exchanges in all.
    pub(crate) fn reserve(&mut self, count: usize) -> Result<(), NoMemory>
        requires { vec_len self.old.idle ≤ count }
        ensures begun { self.new.begun ≡ self.old.begun }
        ensures idle { self.new.idle.items ≡ self.old.idle.items }
        ensures capacity { MakesRoom result count (vec_capacity self.old.idle)
            (vec_capacity self.new.idle) }
    {
        match self.idle.reserve(count - self.idle.len()) {
            Ok(()) => Ok(()),
            Err(_) => Err(NoMemory),
        }
    }

    /// An exchange comes: it is counted if it is begun, and listed if it is idle.
    #[inline(always)]
    pub(crate) fn enter(&mut self, x: Exchange)
        requires { CanEnter x self.old.begun self.old.idle.items (vec_capacity self.old.idle) }
        ensures begun { self.new.begun ≡ counted_with x self.old.begun }
        ensures idle { self.new.idle.items ≡ idle_with x self.old.idle.items }
        ensures capacity { vec_capacity self.new.idle ≡ vec_capacity self.old.idle }
    {
        match x.held {
            Held::By(_) => count_one_more(&mut self.begun, x.session),
            Held::Idle => put_at_its_place(&mut self.idle, x),
        }
    }

    /// An exchange goes: it is counted or listed no longer.
    #[inline(always)]
    pub(crate) fn leave(&mut self, x: &Exchange)
        requires { CanLeave x.now self.old.begun self.old.idle.items }
        ensures begun { self.new.begun ≡ counted_without x.now self.old.begun }
        ensures idle { self.new.idle.items ≡ idle_without x.now self.old.idle.items }
        ensures capacity { vec_capacity self.new.idle ≡ vec_capacity self.old.idle }
    {
        match x.held {
            Held::By(_) => count_one_less(&mut self.begun, x.session),
            Held::Idle => take_from_its_place(&mut self.idle, x.number),
        }
    }
}

/// One exchange more of this session is begun.
fn count_one_more(begun: &mut [usize; 16], s: u32)
    requires { s < 16 → slice_index begun.old s + 1 < 2 ^ 64 }
    ensures { begun.new ≡ one_more s begun.old }
{
    if s < 16 {
        begun[s as usize] += 1;
    }
}

/// One exchange less of this session is begun.
fn count_one_less(begun: &mut [usize; 16], s: u32)
    requires { s < 16 → 0 < slice_index begun.old s }
    ensures { begun.new ≡ one_less s begun.old }
{
    if s < 16 {
        begun[s as usize] -= 1;
    }
}

/// Puts an exchange among these, whose numbers rise. There is room for it.
fn put_at_its_place(exchanges: &mut Vec<Exchange>, x: Exchange)
    requires rise { AreRising 0 exchanges.old.items }
    requires absent { HasNone x.number exchanges.old.items }
    requires room { vec_len exchanges.old < vec_capacity exchanges.old }
    ensures items { exchanges.new.items ≡ placed x exchanges.old.items }
    ensures capacity { vec_capacity exchanges.new ≡ vec_capacity exchanges.old }
{
    if let Err(i) = exchanges.binary_search_by_key(&x.number.0, |y| y.number.0) {
        let _ = exchanges.insert(i, x);
    }
}

/// Takes the exchange with this number out of these, whose numbers rise, if it is among them.
fn take_from_its_place(exchanges: &mut Vec<Exchange>, e: ExchangeNo)
    requires rise { AreRising 0 exchanges.old.items }
    ensures items { exchanges.new.items ≡ filter (is_other e) exchanges.old.items }
    ensures capacity { vec_capacity exchanges.new ≡ vec_capacity exchanges.old }
{
    if let Some(i) = place_of(exchanges, e) {
        exchanges.remove(i);
    }
}
