//! The fibrils that have not ended, by number.
ghost use Rattle.std.specs.Prelude.{◌≡◌, ◌≢◌, ◌+◌, ◌^◌, ◌<◌, ◌≤◌, ℕ, true, Some, OnOk, OnErr};
ghost use Rattle.std.specs.Prelude.{◌++◌, IfSome, length, slice_get};
ghost use Rattle.std.specs.List.Sorted.{IsNonDecreasingBy};
ghost use Rattle.std.specs.Option.{IfNone, option_copied};
ghost use Rattle.fibril_core.specs.Fibrils.{no_fibrils, first_with, next_number, why_in, why_of};
ghost use Rattle.fibril_core.specs.Fibrils.{IsWithinBounds, spawned, with_status, put_fibril};
ghost use Rattle.fibril_core.specs.Fibrils.{fibril_at, number_of, sooner};
ghost use Rattle.fibril_core.specs.LiveFibrils.{AreLive, goes_on, GoesOn, is_live, count, ended};
ghost use Rattle.fibril_core.specs.LiveFibrils.{first_from};

use crate::fibrils::{Fibril, Status};
use ipc_ids::{FibrilNo, NoMemory, Why};
use std::alloc::Global;
use std::collections::VecDeque;
use std::marker::Model;

/// The fibrils of a task, with room for `spare` more.
#[derive(Drop)]
pub(crate) struct LiveFibrils {
    /// Those that have not ended, by rising number. The others take no memory.
    fibrils: VecDeque<Fibril>,
    /// How many were ever made.
    made: u64,
    next_stamp: u64,
}

impl Model for LiveFibrils {
    ghost use Rattle.std.specs.Prelude.{◌-◌};
    ghost use Rattle.std.specs.VecDeque.{deque_capacity, deque_len};
    ghost use Rattle.fibril_core.specs.Fibrils.{FibrilsState};
    ghost use Rattle.fibril_core.specs.LiveFibrils.{AreLive, all_of};

    ghost Value = { FibrilsState };

    ghost view = { λ a. record {
      order = record { fibrils = all_of a.made a.fibrils.items; next_stamp = a.next_stamp };
      spare = deque_capacity a.fibrils - deque_len a.fibrils;
    } };

    ghost invariant = { λ a. AreLive a.fibrils.items (all_of a.made a.fibrils.items) };
}

impl LiveFibrils {
    /// No fibrils; it takes no memory.
    pub(crate) fn new(alloc: Global) -> LiveFibrils
        ensures { result.order ≡ no_fibrils }
    {
        LiveFibrils {
            fibrils: VecDeque::new(alloc),
            made: 0,
            next_stamp: 1,
        }
    }

    /// Makes room for one more fibril.
    ///
    /// # Errors
    ///
    /// `NoMemory` where there was no room and no memory was found.
    pub(crate) fn reserve(&mut self) -> Result<(), NoMemory>
        ensures order { self.new.order ≡ self.old.order }
        ensures room { OnOk result (0 < self.new.spare) }
        ensures full { OnErr result (self.old.spare ≡ 0) }
        ensures spare { self.old.spare ≤ self.new.spare }
    {
        match self.fibrils.reserve(1) {
            Ok(()) => Ok(()),
            Err(_) => Err(NoMemory),
        }
    }

    /// How many were ever made.
    #[tactic(auto, using(crate::proofs::Rebuilt::length_all))]
    pub(crate) fn made(&self) -> u64
        ensures { result ≡ length self.now.order.fibrils }
    {
        self.made
    }

    /// The stamp that the next fibril gets that becomes ready or blocked.
    pub(crate) fn next_stamp(&self) -> u64
        ensures { result ≡ self.now.order.next_stamp }
    {
        self.next_stamp
    }

    /// The fibril with this number, if one was made. Of one that has ended nothing else is kept.
    pub(crate) fn fibril(&self, f: FibrilNo) -> Option<Fibril>
        ensures { result ≡ fibril_at self.now.order f.0 }
    {
        if f.0 == 0 || self.made < f.0 {
            return None;
        }
        match place_of(&self.fibrils, f) {
            Some(i) => Some(self.fibrils[i]),
            None => Some(ended(f)),
        }
    }

    /// How many have not ended.
    #[tactic(auto, using(crate::proofs::Live::length_live))]
    pub(crate) fn len(&self) -> usize
        ensures value { result ≡ count is_live self.now.order.fibrils }
        ensures few { result < 2 ^ 63 }
    {
        self.fibrils.len()
    }

    /// Those that have not ended, by rising number, in two slices.
    pub(crate) fn as_slices(&self) -> (&[Fibril], &[Fibril])
        ensures { AreLive (result.0.now ++ result.1.now) self.now.order.fibrils }
    {
        self.fibrils.as_slices()
    }

    /// Makes a fibril, which is ready behind the others, and gives its number. There is room for
    /// it.
    pub(crate) fn spawn_reserved(&mut self) -> FibrilNo
        requires room { 0 < self.old.spare }
        requires bounds { IsWithinBounds self.old.order }
        ensures number { result ≡ next_number self.old.order }
        ensures order { self.new.order ≡ spawned self.old.order }
        ensures spare { self.old.spare ≤ self.new.spare + 1 }
    {
        let number = FibrilNo(self.made + 1);
        self.fibrils.push_back_reserved(Fibril {
            number,
            status: Status::Ready,
            stamp: self.next_stamp,
        });
        self.made += 1;
        self.next_stamp += 1;
        number
    }

    /// What the fibril is blocked on, if it is.
    pub(crate) fn why(&self, f: FibrilNo) -> Option<Why>
        ensures { result ≡ why_of self.now.order f }
    {
        match place_of(&self.fibrils, f) {
            Some(i) => why_in(self.fibrils[i].status),
            None => None,
        }
    }

    /// The fibril that has had this status longest.
    #[tactic(auto, using(crate::proofs::Live::first_live))]
    pub(crate) fn first(&self, status: Status) -> Option<FibrilNo>
        requires status { goes_on status ≡ true }
        ensures { result ≡ number_of (first_with status self.now.order.fibrils) }
    {
        match first_with(&self.fibrils, status) {
            Some(fibril) => Some(fibril.number),
            None => None,
        }
    }

    /// The fibril, which has not ended, has this status from now on.
    #[inline(always)]
    pub(crate) fn stamp(&mut self, f: FibrilNo, status: Status)
        requires few_stamps { self.old.order.next_stamp < 2 ^ 63 }
        requires goes_on { GoesOn (fibril_at self.old.order f.0) }
        requires status { goes_on status ≡ true }
        ensures order { self.new.order ≡ with_status self.old.order f status }
        ensures spare { self.new.spare ≡ self.old.spare }
    {
        let stamp = self.next_stamp;
        if let Some(i) = place_of(&self.fibrils, f) {
            self.fibrils[i] = Fibril {
                number: f,
                status,
                stamp,
            };
            self.next_stamp = stamp + 1;
        }
    }

    /// The fibril, which has not ended, ends. Nothing but its number is kept.
    pub(crate) fn end(&mut self, f: FibrilNo)
        requires goes_on { GoesOn (fibril_at self.old.order f.0) }
        ensures order { self.new.order ≡ put_fibril self.old.order (ended f.0) }
        ensures spare { self.old.spare ≤ self.new.spare }
    {
        if let Some(i) = place_of(&self.fibrils, f) {
            self.fibrils.remove(i);
        }
    }
}

/// Where the record with this number stands among these, which stand by rising number.
fn place_of(fibrils: &VecDeque<Fibril>, f: FibrilNo) -> Option<usize>
    requires rise { IsNonDecreasingBy (λ x. x.number.0) fibrils.now.items }
    ensures found { IfSome result (λ i. number_of (slice_get fibrils.now.items i) ≡ Some f) }
    ensures none { IfNone result ((i : ℕ) → number_of (slice_get fibrils.now.items i) ≢ Some f) }
{
    match fibrils.binary_search_by_key(&f.0, |x| x.number.0) {
        Ok(i) => Some(i),
        Err(_) => None,
    }
}

/// A fibril that has ended.
fn ended(number: FibrilNo) -> Fibril
    ensures { result ≡ ended number.0 }
{
    Fibril {
        number,
        status: Status::Ended,
        stamp: 0,
    }
}

/// What this status is blocked on.
fn why_in(status: Status) -> Option<Why>
    ensures { result ≡ why_in status }
{
    match status {
        Status::Blocked(why) => Some(why),
        Status::Ready | Status::Ended => None,
    }
}

/// The fibril that has had this status longest.
#[tactic(auto, using(crate::proofs::Live::first_in_parts))]
fn first_with(fibrils: &VecDeque<Fibril>, status: Status) -> Option<&Fibril>
    ensures { option_copied result ≡ first_with status fibrils.now.items }
{
    let (front, back) = fibrils.as_slices();
    first_among(first_among(None, front, status), back, status)
}

/// Of a fibril, if there is one, and these the one that has had this status longest.
fn first_among<'a>(
    best: Option<&'a Fibril>,
    fibrils: &'a [Fibril],
    status: Status,
) -> Option<&'a Fibril>
    ensures { option_copied result ≡ first_from status (option_copied best.entry) fibrils.now }
{
    let mut first = best;
    for fibril in fibrils {
        if fibril.status == status {
            first = Some(sooner(first, fibril));
        }
    }
    first
}

/// Of a fibril, if there is one, and this the one with the smaller stamp.
fn sooner<'a>(best: Option<&'a Fibril>, fibril: &'a Fibril) -> &'a Fibril
    ensures { Some result.now ≡ sooner (option_copied best.entry) fibril.now }
{
    match best {
        Some(best) if best.stamp <= fibril.stamp => best,
        _ => fibril,
    }
}
