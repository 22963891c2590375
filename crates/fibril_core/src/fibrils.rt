//! Fibrils by number, and since when each is ready or blocked.
ghost use Rattle.std.specs.Prelude.{◌≡◌, ◌+◌, ◌++◌, ◌^◌, ◌<◌, ◌≤◌, ◌==◌, true, length, position, OnOk, OnErr, IsSome};
ghost use Rattle.std.specs.Prelude.{min};
ghost use Rattle.std.specs.VecDeque.{deque_capacity, deque_len};
ghost use Rattle.fibril_core.specs.Fibrils.{no_fibrils, current, first_blocked, next_number, fibril_at};
ghost use Rattle.fibril_core.specs.Fibrils.{why_of, IsWithinBounds, spawned, block_on, yield_now};
ghost use Rattle.fibril_core.specs.Fibrils.{end_current, make_ready, wake_all};
ghost use Rattle.fibril_core.specs.FibrilLaws.{IsSound, IsQueue, IsQueueBut};
ghost use Rattle.fibril_core.specs.LiveFibrils.{AreLive, waits, is_waiting, MakesRoom};

mod beside;

use crate::live_fibrils::LiveFibrils;
use ipc_ids::{FibrilNo, NoMemory, Why};
use std::alloc::Global;
use std::collections::VecDeque;
use std::marker::Model;

/// Whether a fibril goes on.
#[derive(Clone, Copy, PartialEq, Eq)]
pub enum Status {
    Ready,
    Blocked(Why),
    Ended,
}

/// A fibril. The stamp says when it last became ready or blocked, and is 0 once it has ended.
#[derive(Clone, Copy)]
pub struct Fibril {
    pub number: FibrilNo,
    pub status: Status,
    pub stamp: u64,
}

/// The fibrils of a task, with room for `spare` more.
#[derive(Drop)]
pub struct Fibrils {
    live: LiveFibrils,
    /// Those that are ready, by rising stamps. It has room for all that have not ended.
    ready: VecDeque<FibrilNo>,
    /// Likewise those that are blocked on a mutex or a phone.
    waiting: VecDeque<FibrilNo>,
}

impl Model for Fibrils {
    ghost use Rattle.std.specs.Prelude.{min};
    ghost use Rattle.std.specs.VecDeque.{deque_capacity};
    ghost use Rattle.fibril_core.specs.Fibrils.{FibrilsState};
    ghost use Rattle.fibril_core.specs.FibrilLaws.{AreQueued};
    ghost use Rattle.fibril_core.specs.LiveFibrils.{spare_of};

    ghost Value = { FibrilsState };

    ghost view = { λ a. record {
      order = a.live.order;
      spare = spare_of a.live (min (deque_capacity a.ready) (deque_capacity a.waiting));
    } };

    ghost invariant = { λ a. AreQueued a.live.order a.ready.items a.waiting.items
        (min (deque_capacity a.ready) (deque_capacity a.waiting)) };
}

impl Fibrils {
    /// No fibrils; it takes no memory.
    pub fn new(alloc: Global) -> Fibrils
        ensures { result.order ≡ no_fibrils }
    {
        Fibrils {
            live: LiveFibrils::new(alloc),
            ready: VecDeque::new(alloc),
            waiting: VecDeque::new(alloc),
        }
    }

    /// Makes room for one more fibril.
    ///
    /// # Errors
    ///
    /// `NoMemory` where there was no room and no memory was found.
    pub fn reserve(&mut self) -> Result<(), NoMemory>
        ensures order { self.new.order ≡ self.old.order }
        ensures room { OnOk result (0 < self.new.spare) }
        ensures full { OnErr result (self.old.spare ≡ 0) }
        ensures spare { self.old.spare ≤ self.new.spare }
    {
        match reserve_places(&mut self.ready, &mut self.waiting, self.live.len()) {
            Ok(()) => self.live.reserve(),
            Err(e) => Err(e),
        }
    }

    /// How many were ever made. Takes no memory.
    pub fn made(&self) -> u64
        ensures { result ≡ length self.now.order.fibrils }
    {
        self.live.made()
    }

    /// The stamp that the next fibril gets that becomes ready or blocked. Takes no memory.
    pub fn next_stamp(&self) -> u64
        ensures { result ≡ self.now.order.next_stamp }
    {
        self.live.next_stamp()
    }

    /// The fibril with this number, if one was made. Takes no memory.
    pub fn fibril(&self, f: FibrilNo) -> Option<Fibril>
        ensures { result ≡ fibril_at self.now.order f.0 }
    {
        self.live.fibril(f)
    }

    /// The number that the next fibril gets.
    pub fn next_number(&self) -> FibrilNo
        requires bounds { IsWithinBounds self.now.order }
        ensures { result ≡ next_number self.now.order }
    {
        FibrilNo(self.live.made() + 1)
    }

    /// Makes a fibril, which is ready behind the others, and gives its number. There is room for
    /// it.
    pub fn spawn_reserved(&mut self) -> FibrilNo
        requires room { 0 < self.old.spare }
        requires bounds { IsWithinBounds self.old.order }
        ensures number { result ≡ next_number self.old.order }
        ensures order { self.new.order ≡ spawned self.old.order }
        ensures spare { self.old.spare ≤ self.new.spare + 1 }
    {
        let number = self.live.spawn_reserved();
        self.ready.push_back_reserved(number);
        number
    }

    /// Those that have not ended, by rising number, in two slices. Takes no memory.
    pub fn live(&self) -> (&[Fibril], &[Fibril])
        ensures { AreLive (result.0.now ++ result.1.now) self.now.order.fibrils }
    {
        self.live.as_slices()
    }

    /// The fibril that has been ready longest. Takes no memory.
    pub fn current(&self) -> Option<FibrilNo>
        ensures { result ≡ current self.now.order }
    {
        match self.ready.front() {
            Some(f) => Some(*f),
            None => None,
        }
    }

    /// What the fibril is blocked on, if it is. Takes no memory.
    pub fn why(&self, f: FibrilNo) -> Option<Why>
        ensures { result ≡ why_of self.now.order f }
    {
        self.live.why(f)
    }

    /// The present fibril blocks.
    #[inline(always)]
    pub fn block_on(&mut self, why: Why)
        requires current { IsSome (current self.old.order) }
        requires bounds { IsWithinBounds self.old.order }
        ensures order { self.new.order ≡ block_on self.old.order why }
        ensures spare { self.new.spare ≡ self.old.spare }
    {
        if let Some(present) = self.ready.pop_front() {
            self.live.stamp(present, Status::Blocked(why));
            if waits(why) {
                self.waiting.push_back_reserved(present);
            }
        }
    }

    /// The present fibril is ready behind the others.
    pub fn yield_now(&mut self)
        requires current { IsSome (current self.old.order) }
        requires bounds { IsWithinBounds self.old.order }
        ensures order { self.new.order ≡ yield_now self.old.order }
        ensures spare { self.new.spare ≡ self.old.spare }
    {
        if let Some(present) = self.ready.pop_front() {
            self.live.stamp(present, Status::Ready);
            self.ready.push_back_reserved(present);
        }
    }

    /// The present fibril ends. Nothing but its number is kept.
    pub fn end_current(&mut self)
        requires current { IsSome (current self.old.order) }
        ensures order { self.new.order ≡ end_current self.old.order }
        ensures spare { self.old.spare ≤ self.new.spare }
    {
        if let Some(present) = self.ready.pop_front() {
            self.live.end(present);
        }
    }

    /// A blocked fibril is ready behind the others.
    pub fn wake_fibril(&mut self, f: FibrilNo)
        requires blocked { IsSome (why_of self.old.order f) }
        requires bounds { IsWithinBounds self.old.order }
        ensures order { self.new.order ≡ make_ready self.old.order f }
        ensures spare { self.new.spare ≡ self.old.spare }
    {
        self.make_ready(f);
    }

    /// Makes all fibrils ready that are blocked on the mutex of the session, in the order of their
    /// blocking.
    pub fn wake_mutex(&mut self, session: u32)
        requires bounds { IsWithinBounds self.old.order }
        ensures order { self.new.order ≡ wake_all self.old.order (Why.Mutex session) }
        ensures spare { self.new.spare ≡ self.old.spare }
    {
        self.wake_all(Why::Mutex(session));
    }

    /// Makes all fibrils ready that are blocked on a phone, in the order of their blocking.
    pub fn wake_phone(&mut self)
        requires bounds { IsWithinBounds self.old.order }
        ensures order { self.new.order ≡ wake_all self.old.order Why.Phone }
        ensures spare { self.new.spare ≡ self.old.spare }
    {
        self.wake_all(Why::Phone);
    }

    fn wake_all(&mut self, why: Why)
        requires waits { waits (Status.Blocked why) ≡ true }
        requires bounds { IsWithinBounds self.old.order }
        ensures order { self.new.order ≡ wake_all self.old.order why }
        ensures spare { self.new.spare ≡ self.old.spare }
    {
        for _ in 0..self.live.made() {
            match first_on(&self.waiting, &self.live, why) {
                Some(f) => self.make_ready(f),
                None => break,
            }
        }
    }

    /// A blocked fibril is ready behind the others.
    #[inline(always)]
    fn make_ready(&mut self, f: FibrilNo)
        requires blocked { IsSome (why_of self.old.order f) }
        requires few_stamps { self.old.order.next_stamp < 2 ^ 63 }
        ensures order { self.new.order ≡ make_ready self.old.order f }
        ensures spare { self.new.spare ≡ self.old.spare }
    {
        leave(&mut self.waiting, &self.live, f);
        self.live.stamp(f, Status::Ready);
        self.ready.push_back_reserved(f);
    }
}

/// Whether a fibril that is blocked on that waits for a mutex or a phone.
fn waits(why: Why) -> bool
    ensures { result ≡ waits (Status.Blocked why) }
{
    matches!(why, Why::Mutex(_) | Why::Phone)
}

/// Gives each of two queues room for more than so many.
fn reserve_places(
    ready: &mut VecDeque<FibrilNo>,
    waiting: &mut VecDeque<FibrilNo>,
    live: usize,
) -> Result<(), NoMemory>
    requires ready { deque_len ready.old ≤ live }
    requires waiting { deque_len waiting.old ≤ live }
    requires few { live < 2 ^ 63 }
    ensures ready { ready.new.items ≡ ready.old.items }
    ensures waiting { waiting.new.items ≡ waiting.old.items }
    ensures room { MakesRoom result live (min (deque_capacity ready.old) (deque_capacity waiting.old))
        (min (deque_capacity ready.new) (deque_capacity waiting.new)) }
{
    match reserve_place(ready, live) {
        Ok(()) => reserve_place(waiting, live),
        Err(e) => Err(e),
    }
}

/// Gives the queue room for more than so many.
fn reserve_place(queue: &mut VecDeque<FibrilNo>, live: usize) -> Result<(), NoMemory>
    requires held { deque_len queue.old ≤ live }
    requires few { live < 2 ^ 63 }
    ensures items { queue.new.items ≡ queue.old.items }
    ensures room { MakesRoom result live (deque_capacity queue.old) (deque_capacity queue.new) }
{
    if live < queue.capacity() {
        return Ok(());
    }
    // Twice as many, since a queue that is short would grow by one place at a time.
    match queue.reserve(2 * live + 1 - queue.len()) {
        Ok(()) => Ok(()),
        Err(_) => Err(NoMemory),
    }
}

/// Of those that wait for a mutex or a phone the one that blocked first on that.
fn first_on(waiting: &VecDeque<FibrilNo>, live: &LiveFibrils, why: Why) -> Option<FibrilNo>
    requires waits { waits (Status.Blocked why) ≡ true }
    requires sound { IsSound live.now.order }
    requires queue { IsQueue is_waiting live.now.order waiting.now.items }
    ensures { result ≡ first_blocked live.now.order why }
{
    for i in 0..waiting.len() {
        let f = waiting[i];
        if live.why(f) == Some(why) {
            return Some(f);
        }
    }
    None
}

/// The fibril leaves the queue of those that wait for a mutex or a phone, where it stands there.
fn leave(waiting: &mut VecDeque<FibrilNo>, live: &LiveFibrils, f: FibrilNo)
    requires queue { IsQueue is_waiting live.now.order waiting.old.items }
    ensures queue { IsQueueBut is_waiting live.now.order f.0 waiting.new.items }
    ensures capacity { deque_capacity waiting.new ≡ deque_capacity waiting.old }
{
    match live.why(f) {
        Some(why) if waits(why) => {
            if let Some(i) = place_in(waiting, f) {
                waiting.remove(i);
            }
        }
        _ => {}
    }
}

/// Where the fibril stands in the queue.
fn place_in(queue: &VecDeque<FibrilNo>, f: FibrilNo) -> Option<usize>
    ensures { result ≡ position (λ g. g.0 == f.0) queue.now.items }
{
    queue.iter().position(|g| *g == f)
}
