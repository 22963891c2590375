//! Answers that come, and where they go.
ghost use Rattle.std.specs.Prelude.{◌≡◌, ◌+◌, ◌^◌, ◌<◌, [], ◌∷◌, OnOk, OnErr, None, Some};
ghost use Rattle.std.specs.List.{find};
ghost use Rattle.fibril_core.specs.Fibrils.{IsWithinBounds, why_of};
ghost use Rattle.async_sessions.specs.Sessions.{session_at, mode_answer};
ghost use Rattle.ipc_ids.specs.declared.entry.Entry.TheVariants as entry;
ghost use Rattle.async_task.specs.AsyncState.{Does, Stays, IsReady, context_or_new};
ghost use Rattle.async_task.specs.Answers.{is_of_call, answer_slot, connect, answer_begin};
ghost use Rattle.async_task.specs.Answers.{is_for, wake_if};
ghost use Rattle.async_task.specs.Answers.{forget_call, deliver, take_answer};

use crate::awaited::Awaited;
use crate::machine::Machine;
use ipc_ids::{CallNo, Code, Entry, ExchangeMode, FibrilNo, NoMemory, Op, Reply, Trace, Why};

impl Machine {
    /// An answer came. One that nobody awaits is passed over.
    ///
    /// # Errors
    ///
    /// `NoMemory` where no memory was found. Nothing has changed then.
    #[inline(always)]
    pub(crate) fn take_answer(
        &mut self,
        call: CallNo,
        reply: &Reply,
        out: &mut Trace,
    ) -> Result<(), NoMemory>
        requires ready { IsReady self.old out.old }
        ensures ok { OnOk result (Does self.new out.old out.new (take_answer self.old.state call
            reply.now (find (is_of_call call) self.old.state.awaited))) }
        ensures unchanged { OnErr result (Stays self.old self.new out.old out.new) }
    {
        match self.awaiting(call) {
            Some(awaited) => self.deliver(awaited, call, reply, out),
            None => Ok(()),
        }
    }

    fn awaiting(&self, call: CallNo) -> Option<Awaited>
        ensures { result ≡ find (is_of_call call) self.now.state.awaited }
    {
        match self.awaited.awaiting(call) {
            Some(awaited) => Some(*awaited),
            None => None,
        }
    }

    /// The answer goes where it is awaited.
    fn deliver(
        &mut self,
        awaited: Awaited,
        call: CallNo,
        reply: &Reply,
        out: &mut Trace,
    ) -> Result<(), NoMemory>
        requires ready { IsReady self.old out.old }
        ensures ok { OnOk result
            (Does self.new out.old out.new (deliver self.old.state awaited call reply.now)) }
        ensures unchanged { OnErr result (Stays self.old self.new out.old out.new) }
    {
        match awaited.slot {
            Some(slot) => self.deliver_to_slot(awaited, slot, call, reply, out),
            None => {
                self.deliver_to_begin(awaited, call, reply, out);
                Ok(())
            }
        }
    }

    /// The answer goes to that slot.
    fn deliver_to_slot(
        &mut self,
        awaited: Awaited,
        slot: u32,
        call: CallNo,
        reply: &Reply,
        out: &mut Trace,
    ) -> Result<(), NoMemory>
        requires ready { IsReady self.old out.old }
        requires slot { awaited.slot ≡ Some slot }
        ensures ok { OnOk result
            (Does self.new out.old out.new (deliver self.old.state awaited call reply.now)) }
        ensures unchanged { OnErr result (Stays self.old self.new out.old out.new) }
    {
        match self.answer_slot(awaited.fibril, slot, call, reply) {
            Ok(()) => {
                self.end_wait(awaited, call, reply, out);
                Ok(())
            }
            Err(e) => Err(e),
        }
    }

    /// The answer for a slot comes: a fibril that is blocked on it takes it at once, else it stays
    /// there.
    fn answer_slot(
        &mut self,
        f: FibrilNo,
        slot: u32,
        call: CallNo,
        reply: &Reply,
    ) -> Result<(), NoMemory>
        ensures state { OnOk result (self.new.state
            ≡ answer_slot self.old.state f slot call reply.now
            (is_for call (why_of self.old.state.order f)) (context_or_new self.old.state f)) }
        ensures unchanged { OnErr result (self.new.state ≡ self.old.state) }
        ensures order { self.new.state.order ≡ self.old.state.order }
    {
        if self.is_blocked_on(f, call) {
            self.answered_at(f, slot, call, reply);
            Ok(())
        } else {
            self.filled_at(f, slot, call, reply)
        }
    }

    /// Whether the fibril is blocked on the answer of this call.
    fn is_blocked_on(&self, f: FibrilNo, call: CallNo) -> bool
        ensures { result ≡ is_for call (why_of self.now.state.order f) }
    {
        match self.fibrils.why(f) {
            Some(Why::Answer(awaited)) => awaited.0 == call.0,
            _ => false,
        }
    }

    /// The answer goes to the begin that is the present operation of its fibril.
    fn deliver_to_begin(&mut self, awaited: Awaited, call: CallNo, reply: &Reply, out: &mut Trace)
        requires ready { IsReady self.old out.old }
        requires begin { awaited.slot ≡ None }
        ensures { Does self.new out.old out.new (deliver self.old.state awaited call reply.now) }
    {
        let f = awaited.fibril;
        self.end_wait(awaited, call, reply, out);
        let Some(t) = self.context(f) else {
            return;
        };
        let Some(op) = self.present_op(t) else {
            return;
        };
        if let Op::Begin { handle, session } = *op {
            self.answer_begin(f, handle, session, reply, out);
        }
    }

    /// The call is awaited no more, and the fibril is ready where it was blocked on its answer.
    #[inline(always)]
    fn end_wait(&mut self, awaited: Awaited, call: CallNo, reply: &Reply, out: &mut Trace)
        requires entry { 0 < out.old.spare }
        requires bounds { IsWithinBounds self.old.state.order }
        ensures ended { Does self.new out.old out.new (record {
          state = forget_call (wake_if self.old.state awaited.fibril
              (is_for call (why_of self.old.state.order awaited.fibril))) call;
          entries = entry.Gets self.old.state.me awaited.fibril call awaited.slot reply.now ∷ [];
        }) }
        ensures spare { out.new.spare + 1 ≡ out.old.spare }
        ensures exchanges { self.new.room.exchanges ≡ self.old.room.exchanges }
    {
        self.wake_for(awaited.fibril, call);
        self.awaited.forget_call(call);
        out.push(Entry::Gets {
            task: self.me,
            fibril: awaited.fibril,
            call,
            slot: awaited.slot,
            reply: *reply,
        });
    }

    /// The fibril is ready where it was blocked on the answer of this call.
    fn wake_for(&mut self, f: FibrilNo, call: CallNo)
        requires bounds { IsWithinBounds self.old.state.order }
        ensures state { self.new.state
            ≡ wake_if self.old.state f (is_for call (why_of self.old.state.order f)) }
        ensures room { self.new.room ≡ self.old.room }
    {
        if self.is_blocked_on(f, call) {
            self.fibrils.wake_fibril(f);
        }
    }

    fn answer_begin(
        &mut self,
        f: FibrilNo,
        handle: u32,
        session: u32,
        reply: &Reply,
        out: &mut Trace,
    )
        requires entry { 0 < out.old.spare }
        requires exchange { 0 < self.old.room.exchanges }
        requires exchanges { self.old.state.pool.next_number < 2 ^ 62 }
        ensures { Does self.new out.old out.new
            (answer_begin self.old.state f
            (context_or_new self.old.state f) handle session reply.now) }
    {
        if reply.code.0 == Code::EOK.0 {
            self.connect(f, handle, session, reply.args[4], out);
        } else {
            self.connect_refused(f, reply.code, out);
        }
    }

    /// The connect call of a begin gave a phone. Where the session is gone or another one, nothing
    /// is begun.
    fn connect(&mut self, f: FibrilNo, handle: u32, session: u32, phone: u64, out: &mut Trace)
        requires entry { 0 < out.old.spare }
        requires exchange { 0 < self.old.room.exchanges }
        requires exchanges { self.old.state.pool.next_number < 2 ^ 62 }
        ensures { Does self.new out.old out.new
            (connect self.old.state f (context_or_new self.old.state f) handle session phone
            (mode_answer (session_at self.old.state.pool session))) }
    {
        match self.sessions.mode_of(session) {
            Some(ExchangeMode::Parallel) => {
                let exchange = self.sessions.next_number();
                let mode = ExchangeMode::Parallel;
                self.sessions.add(f, session, phone, mode);
                self.finish_begin(f, handle, session, exchange, mode, phone, out);
            }
            _ => {}
        }
    }
}
