//! The calls whose answers a task awaits.
//!
//! They stand in the order in which they were sent. While each has a greater number than the one
//! before it, a call is found by halves and removed from its place.
ghost use Rattle.std.specs.Prelude.{◌≡◌, ◌<◌, ◌++◌, ◌∷◌, [], ◌==◌, OnOk, true};
ghost use Rattle.std.specs.List.{find, filter, list_any};
ghost use Rattle.std.specs.Option.{option_copied};
ghost use Rattle.async_task.specs.Answers.{is_of_call, is_of_other_call, is_of_other_fibril};
ghost use Rattle.async_task.specs.AwaitedCalls.{DoRise, IsPlaceOf};

use ipc_ids::{CallNo, FibrilNo, NoMemory};
use std::alloc::Global;
use std::collections::VecDeque;
use std::marker::Model;

/// A call whose answer a fibril awaits, in a slot or for a begin.
#[derive(Clone, Copy)]
pub struct Awaited {
    pub call: CallNo,
    pub fibril: FibrilNo,
    /// `None` where the call is the connect call of a begin.
    pub slot: Option<u32>,
}

/// The calls whose answers are awaited, in the order in which they were sent.
#[derive(Drop)]
pub(crate) struct AwaitedCalls {
    calls: VecDeque<Awaited>,
    /// Whether the numbers of the calls rise. So they do where each call gets a new number.
    rising: bool,
}

impl Model for AwaitedCalls {
    ghost use Rattle.std.specs.Prelude.{◌≡◌, ◌-◌, true};
    ghost use Rattle.std.specs.VecDeque.{deque_capacity, deque_len};
    ghost use Rattle.async_task.specs.AwaitedCalls.{AwaitedState, DoRise};

    ghost Value = { AwaitedState };

    ghost view = { λ a. record {
      calls = a.calls.items;
      spare = deque_capacity a.calls - deque_len a.calls;
    } };

    ghost invariant = { λ a. a.rising ≡ true → DoRise a.calls.items };
}

impl AwaitedCalls {
    /// No call is awaited.
    pub(crate) fn new(alloc: Global) -> AwaitedCalls
        ensures { result.calls ≡ [] }
    {
        AwaitedCalls {
            calls: VecDeque::new(alloc),
            rising: true,
        }
    }

    /// The calls in the order in which they were sent, in two slices.
    pub(crate) fn as_slices(&self) -> (&[Awaited], &[Awaited])
        ensures { result.0.now ++ result.1.now ≡ self.now.calls }
    {
        self.calls.as_slices()
    }

    /// Makes room for one more.
    ///
    /// # Errors
    ///
    /// `NoMemory` where no memory was found.
    pub(crate) fn reserve(&mut self) -> Result<(), NoMemory>
        ensures calls { self.new.calls ≡ self.old.calls }
        ensures room { OnOk result (0 < self.new.spare) }
    {
        match self.calls.reserve(1) {
            Ok(()) => Ok(()),
            Err(_) => Err(NoMemory),
        }
    }

    /// This call is awaited from now on. There is room for it.
    pub(crate) fn push_reserved(&mut self, awaited: Awaited)
        requires room { 0 < self.old.spare }
        ensures { self.new.calls ≡ self.old.calls ++ awaited ∷ [] }
    {
        self.rising = rise_with(&self.calls, self.rising, awaited);
        self.calls.push_back_reserved(awaited);
    }

    /// Who awaits the answer of this call.
    pub(crate) fn awaiting(&self, call: CallNo) -> Option<&Awaited>
        ensures { option_copied result ≡ find (is_of_call call) self.now.calls }
    {
        if !self.rising {
            return self.calls.iter().find(|w| w.call == call);
        }
        match place_among_rising(&self.calls, call) {
            Some(i) => Some(&self.calls[i]),
            None => None,
        }
    }

    /// This call is awaited no more.
    pub(crate) fn forget_call(&mut self, call: CallNo)
        ensures { self.new.calls ≡ filter (is_of_other_call call) self.old.calls }
    {
        if !self.rising {
            self.calls.retain(|w| w.call.0 != call.0);
        } else if let Some(i) = place_among_rising(&self.calls, call) {
            self.calls.remove(i);
        }
    }

    /// The calls of this fibril are awaited no more.
    pub(crate) fn forget_calls_of(&mut self, f: FibrilNo)
        ensures { self.new.calls ≡ filter (is_of_other_fibril f) self.old.calls }
    {
        // Mostly there are none, and a look at each takes less than a move of each.
        if is_any_of(&self.calls, f) {
            keep_others(&mut self.calls, f);
        }
    }
}

/// Where this call stands among calls whose numbers rise.
fn place_among_rising(calls: &VecDeque<Awaited>, call: CallNo) -> Option<usize>
    requires rise { DoRise calls.now.items }
    ensures { IsPlaceOf call calls.now.items result }
{
    match calls.binary_search_by_key(&call.0, |w| w.call.0) {
        Ok(i) => Some(i),
        Err(_) => None,
    }
}

/// Whether there is a call of this fibril.
fn is_any_of(calls: &VecDeque<Awaited>, f: FibrilNo) -> bool
    ensures { result ≡ list_any (λ w. w.fibril.0 == f.0) calls.now.items }
{
    calls.iter().any(|w| w.fibril.0 == f.0)
}

/// The calls of other fibrils are kept, and no others.
fn keep_others(calls: &mut VecDeque<Awaited>, f: FibrilNo)
    ensures { calls.new.items ≡ filter (is_of_other_fibril f) calls.old.items }
{
    calls.retain(|w| w.fibril.0 != f.0);
}

/// Whether the numbers of the calls rise when this one comes behind them.
fn rise_with(calls: &VecDeque<Awaited>, rising: bool, awaited: Awaited) -> bool
    requires rise { rising ≡ true → DoRise calls.now.items }
    ensures { result ≡ true → DoRise (calls.now.items ++ awaited ∷ []) }
{
    match calls.back() {
        Some(last) => rising && last.call.0 < awaited.call.0,
        None => true,
    }
}
