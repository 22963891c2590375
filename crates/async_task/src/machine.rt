//! What a task stands on: its fibrils, connections, sessions and awaited calls, with room for more.
ghost use Rattle.std.specs.Prelude.{◌≡◌, ◌-◌, ◌<◌, ◌≤◌, OnOk, OnErr, IfOk, IsSome};
ghost use Rattle.std.specs.Prelude.{option_copied, slice_get, false};
ghost use Rattle.async_task.specs.AsyncState.{context_at, context_or_new, with_context};
ghost use Rattle.async_task.specs.AsyncState.{op_in, present_op};
ghost use Rattle.async_task.specs.Contexts.{at_next, after_done, after_refused, after_outcome};
ghost use Rattle.async_task.specs.Contexts.{after_accepted, after_answered, with_slot};
ghost use Rattle.async_task.specs.Contexts.{with_received, after_begun, after_ended, with_short};
ghost use Rattle.async_task.specs.Calls.{after_present};
ghost use Rattle.async_task.specs.Steps.{bare_task};

use crate::awaited::AwaitedCalls;
use crate::context::{Context, Slot};
use crate::contexts::Contexts;
use async_sessions::Sessions;
use fibril_core::{Conns, Fibrils};
use ipc_ids::{
    Bodies, CallNo, Code, ExchangeNo, FibrilNo, Label, Msg, NoMemory, Op, Outcome, Reply, TaskNo,
};
use std::alloc::Global;
use std::collections::VecDeque;
use std::marker::Model;

/// A task, with room for more of what it may add.
#[derive(Drop)]
pub(crate) struct Machine {
    pub(crate) me: TaskNo,
    pub(crate) bodies: Bodies,
    pub(crate) fibrils: Fibrils,
    pub(crate) contexts: Contexts,
    pub(crate) conns: Conns,
    pub(crate) sessions: Sessions,
    pub(crate) awaited: AwaitedCalls,
    pub(crate) work: VecDeque<(CallNo, Code)>,
}

impl Model for Machine {
    ghost use Rattle.std.specs.Prelude.{◌-◌};
    ghost use Rattle.std.specs.VecDeque.{deque_capacity, deque_len};
    ghost use Rattle.async_task.specs.AsyncState.{MachineState};

    ghost Value = { MachineState };

    ghost view = { λ m. record {
      state = record {
        me = m.me;
        bodies = m.bodies;
        order = m.fibrils.order;
        contexts = m.contexts.kept;
        conns = m.conns.conns;
        pool = m.sessions.now;
        awaited = m.awaited.calls;
        work = m.work.items;
      };
      room = record {
        fibrils = m.fibrils.spare;
        contexts = m.contexts.spare;
        exchanges = m.sessions.spare;
        awaited = m.awaited.spare;
        work = deque_capacity m.work - deque_len m.work;
      };
      conn_room = m.conns.spare;
    } };
}

impl Machine {
    /// A task before its fibrils start.
    pub(crate) fn new(alloc: Global, me: TaskNo, bodies: Bodies) -> Machine
        ensures { result.state ≡ bare_task me bodies }
    {
        Machine {
            me,
            bodies,
            fibrils: Fibrils::new(alloc),
            contexts: Contexts::new(alloc),
            conns: Conns::new(alloc),
            sessions: Sessions::new(alloc),
            awaited: AwaitedCalls::new(alloc),
            work: VecDeque::new(alloc),
        }
    }

    /// The allocator of the task.
    pub(crate) fn alloc(&self) -> Global {
        *self.work.allocator()
    }

    /// What a fibril keeps.
    pub(crate) fn context(&self, f: FibrilNo) -> Option<&Context>
        ensures { option_copied result ≡ context_at self.now.state f }
    {
        self.contexts.get(place_of(f))
    }

    /// The present operation of a fibril.
    pub(crate) fn present_op<'a>(&'a self, t: &Context) -> Option<&'a Op>
        ensures { option_copied result ≡ present_op self.now.state t.now }
    {
        op_at(&self.bodies, t.body, t.place)
    }

    /// The fibril is at its next operation.
    pub(crate) fn advance_at(&mut self, f: FibrilNo)
        ensures state { self.new.state
            ≡ with_context self.old.state f (at_next (context_or_new self.old.state f)) }
        ensures room { self.new.room ≡ self.old.room }
    {
        if let Some(t) = self.contexts.get_mut(place_of(f)) {
            t.advance();
        }
    }

    /// The present operation of the fibril, which has no need of fibrils, is done. There is one.
    pub(crate) fn raw_at(&mut self, f: FibrilNo, got: &Outcome)
        requires op { IsSome (present_op self.old.state (context_or_new self.old.state f)) }
        ensures state { self.new.state ≡ with_context self.old.state f
            (after_present (context_or_new self.old.state f) got.now
            (present_op self.old.state (context_or_new self.old.state f))) }
        ensures room { self.new.room ≡ self.old.room }
    {
        if let Some(t) = self.contexts.get_mut(place_of(f)) {
            if let Some(op) = op_at(&self.bodies, t.body, t.place) {
                t.raw(op, got);
            }
        }
    }

    /// An operation of the fibril was done.
    pub(crate) fn done_at(&mut self, f: FibrilNo)
        ensures state { self.new.state
            ≡ with_context self.old.state f (after_done (context_or_new self.old.state f)) }
        ensures room { self.new.room ≡ self.old.room }
    {
        if let Some(t) = self.contexts.get_mut(place_of(f)) {
            t.done();
        }
    }

    /// An operation of the fibril was refused.
    pub(crate) fn refused_at(&mut self, f: FibrilNo, code: Code)
        ensures state { self.new.state
            ≡ with_context self.old.state f (after_refused (context_or_new self.old.state f) code) }
        ensures room { self.new.room ≡ self.old.room }
    {
        if let Some(t) = self.contexts.get_mut(place_of(f)) {
            t.refused(code);
        }
    }

    /// The request of the fibril's operation was done or refused.
    pub(crate) fn outcome_at(&mut self, f: FibrilNo, got: &Outcome)
        ensures state { self.new.state
            ≡ with_context self.old.state f
            (after_outcome (context_or_new self.old.state f) got.now) }
        ensures room { self.new.room ≡ self.old.room }
    {
        if let Some(t) = self.contexts.get_mut(place_of(f)) {
            t.outcome(got);
        }
    }

    /// The call of a slot of the fibril was accepted.
    ///
    /// # Errors
    ///
    /// `NoMemory` where no memory was found. Nothing has changed then.
    #[tactic(auto, using(crate::proofs::Listed::set_same))]
    pub(crate) fn accepted_at(
        &mut self,
        f: FibrilNo,
        slot: u32,
        call: CallNo,
    ) -> Result<(), NoMemory>
        ensures state { OnOk result (self.new.state
            ≡ with_context self.old.state f
            (after_accepted (context_or_new self.old.state f) slot call)) }
        ensures unchanged { OnErr result (self.new.state ≡ self.old.state) }
        ensures room { self.new.room ≡ self.old.room }
    {
        match self.contexts.get_mut(place_of(f)) {
            Some(t) => t.accepted(slot, call),
            None => Ok(()),
        }
    }

    /// The fibril takes the answer from its slot.
    #[inline(always)]
    pub(crate) fn answered_at(&mut self, f: FibrilNo, slot: u32, call: CallNo, reply: &Reply)
        ensures state { self.new.state
            ≡ with_context self.old.state f
            (after_answered (context_or_new self.old.state f) slot call reply.now) }
        ensures room { self.new.room ≡ self.old.room }
    {
        if let Some(t) = self.contexts.get_mut(place_of(f)) {
            t.answered(slot, call, reply);
        }
    }

    /// The answer of a slot of the fibril came, and stays there.
    ///
    /// # Errors
    ///
    /// `NoMemory` where no memory was found. Nothing has changed then.
    #[tactic(auto, using(crate::proofs::Listed::set_same))]
    pub(crate) fn filled_at(
        &mut self,
        f: FibrilNo,
        slot: u32,
        call: CallNo,
        reply: &Reply,
    ) -> Result<(), NoMemory>
        ensures state { OnOk result (self.new.state
            ≡ with_context self.old.state f
            (with_slot (context_or_new self.old.state f) slot (Slot.Answered call reply.now))) }
        ensures unchanged { OnErr result (self.new.state ≡ self.old.state) }
        ensures room { self.new.room ≡ self.old.room }
    {
        match self.contexts.get_mut(place_of(f)) {
            Some(t) => t.hold(slot, Slot::Answered(call, *reply)),
            None => Ok(()),
        }
    }

    /// The fibril received a call.
    pub(crate) fn received_at(&mut self, f: FibrilNo, call: CallNo, msg: &Msg, label: Label)
        ensures state { self.new.state
            ≡ with_context self.old.state f
            (at_next (with_received (context_or_new self.old.state f) call msg.now label)) }
        ensures room { self.new.room ≡ self.old.room }
    {
        if let Some(t) = self.contexts.get_mut(place_of(f)) {
            t.received(call, msg, label);
            t.advance();
        }
    }

    /// A begin of the fibril ended with that exchange.
    pub(crate) fn begun_at(&mut self, f: FibrilNo, handle: u32, exchange: ExchangeNo)
        ensures state { self.new.state
            ≡ with_context self.old.state f
            (after_begun (context_or_new self.old.state f) handle exchange) }
        ensures room { self.new.room ≡ self.old.room }
    {
        if let Some(t) = self.contexts.get_mut(place_of(f)) {
            t.begun(handle, exchange);
        }
    }

    /// The exchange that a handle of the fibril named ended.
    pub(crate) fn ended_at(&mut self, f: FibrilNo, handle: u32)
        ensures state { self.new.state
            ≡ with_context self.old.state f (after_ended (context_or_new self.old.state f) handle) }
        ensures room { self.new.room ≡ self.old.room }
    {
        if let Some(t) = self.contexts.get_mut(place_of(f)) {
            t.ended(handle);
        }
    }

    /// Whether a connect call of the fibril's present begin met the limit.
    pub(crate) fn short_at(&mut self, f: FibrilNo, short: bool)
        ensures state { self.new.state
            ≡ with_context self.old.state f (with_short (context_or_new self.old.state f) short) }
        ensures room { self.new.room ≡ self.old.room }
    {
        if let Some(t) = self.contexts.get_mut(place_of(f)) {
            t.set_short(short);
        }
    }

    /// Makes room for one exchange, one awaited call and one answer.
    pub(crate) fn reserve(&mut self) -> Result<(), NoMemory>
        ensures state { self.new.state ≡ self.old.state }
        ensures exchanges { OnOk result (0 < self.new.room.exchanges) }
        ensures awaited { OnOk result (0 < self.new.room.awaited) }
        ensures work { OnOk result (0 < self.new.room.work) }
    {
        self.sessions.reserve()?;
        self.awaited.reserve()?;
        self.reserve_work(1)
    }

    /// Makes room for so many answers.
    #[inline(always)]
    pub(crate) fn reserve_work(&mut self, more: usize) -> Result<(), NoMemory>
        ensures state { self.new.state ≡ self.old.state }
        ensures room { OnOk result (more ≤ self.new.room.work) }
        ensures exchanges { self.new.room.exchanges ≡ self.old.room.exchanges }
        ensures awaited { self.new.room.awaited ≡ self.old.room.awaited }
    {
        if more <= self.work.capacity() - self.work.len() {
            return Ok(());
        }
        self.grow_work(more)
    }

    /// Takes memory for so many answers.
    #[cold]
    #[inline(never)]
    fn grow_work(&mut self, more: usize) -> Result<(), NoMemory>
        ensures state { self.new.state ≡ self.old.state }
        ensures room { OnOk result (more ≤ self.new.room.work) }
        ensures exchanges { self.new.room.exchanges ≡ self.old.room.exchanges }
        ensures awaited { self.new.room.awaited ≡ self.old.room.awaited }
    {
        match self.work.reserve(more) {
            Ok(()) => Ok(()),
            Err(_) => Err(NoMemory),
        }
    }
}

/// Where stands what a fibril keeps.
pub(crate) fn place_of(f: FibrilNo) -> usize
    ensures { result ≡ f.0 - 1 }
{
    (f.0 as usize).saturating_sub(1)
}

/// The operation at a place of a body.
fn op_at(bodies: &Bodies, body: usize, place: usize) -> Option<&Op>
    ensures { option_copied result ≡ op_in (slice_get bodies.now body) place }
{
    match bodies.as_slice().get(body) {
        Some(body) => body.ops.as_slice().get(place),
        None => None,
    }
}
