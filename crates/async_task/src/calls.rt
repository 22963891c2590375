//! Operations that call, wait and yield.
ghost use Rattle.std.specs.Prelude.{◌≡◌, ◌^◌, ◌<◌, OnOk, OnErr, Some};
ghost use Rattle.fibril_core.specs.Fibrils.{current, IsWithinBounds};
ghost use Rattle.fibril_core.specs.Conns.{conn_of_fibril, take_answer};
ghost use Rattle.async_task.specs.AsyncState.{Does, Stays, IsReady, context_or_new};
ghost use Rattle.async_task.specs.Contexts.{slot_at};
ghost use Rattle.async_task.specs.Calls.{refuse_op, block, send_call, call_outcome, call_slot};
ghost use Rattle.async_task.specs.Calls.{send_over, wait_slot, next_call, with_taken, yield_op};

use crate::awaited::Awaited;
use crate::context::Slot;
use crate::machine::Machine;
use fibril_core::Taken;
use ipc_ids::{CallNo, Code, Entry, FibrilNo, Msg, NoMemory, Outcome, Trace, Why};

impl Machine {
    /// The task refuses the operation.
    pub(crate) fn refuse_op(&mut self, f: FibrilNo, code: Code, out: &mut Trace)
        requires entry { 0 < out.old.spare }
        ensures { Does self.new out.old out.new
            (refuse_op self.old.state f (context_or_new self.old.state f) code) }
    {
        self.refused_at(f, code);
        out.push(Entry::RefusedOp {
            task: self.me,
            fibril: f,
            code,
        });
    }

    /// The present fibril, which is `f`, blocks.
    #[inline(always)]
    pub(crate) fn block(&mut self, f: FibrilNo, why: Why, out: &mut Trace)
        requires entry { 0 < out.old.spare }
        requires bounds { IsWithinBounds self.old.state.order }
        requires present { current self.old.state.order ≡ Some f }
        ensures { Does self.new out.old out.new (block self.old.state f why) }
    {
        self.fibrils.block_on(why);
        out.push(Entry::Blocks {
            task: self.me,
            fibril: f,
            why,
        });
    }

    /// What a slot of a fibril holds.
    #[inline(always)]
    fn slot_at(&self, f: FibrilNo, slot: u32) -> Slot
        ensures { result ≡ slot_at (context_or_new self.now.state f) slot }
    {
        match self.context(f) {
            Some(t) => t.slot(slot),
            None => Slot::Closed,
        }
    }

    /// A call from a slot.
    ///
    /// # Errors
    ///
    /// `NoMemory` where no memory was found. Nothing has changed then.
    #[inline(always)]
    pub(crate) fn call_slot(
        &mut self,
        f: FibrilNo,
        slot: u32,
        got: &Outcome,
        out: &mut Trace,
    ) -> Result<(), NoMemory>
        requires ready { IsReady self.old out.old }
        ensures ok { OnOk result (Does self.new out.old out.new
            (call_slot self.old.state f (context_or_new self.old.state f) slot got.now
            (slot_at (context_or_new self.old.state f) slot))) }
        ensures unchanged { OnErr result (Stays self.old self.new out.old out.new) }
    {
        match self.slot_at(f, slot) {
            Slot::Closed => self.call_outcome(f, slot, got, out),
            Slot::Sent(_) | Slot::Answered(_, _) => {
                self.refuse_op(f, Code::EBUSY, out);
                Ok(())
            }
        }
    }

    /// A call from a slot over the phone of an exchange, if that is begun.
    ///
    /// # Errors
    ///
    /// `NoMemory` where no memory was found. Nothing has changed then.
    pub(crate) fn send_over(
        &mut self,
        f: FibrilNo,
        slot: u32,
        phone: Option<u64>,
        got: &Outcome,
        out: &mut Trace,
    ) -> Result<(), NoMemory>
        requires ready { IsReady self.old out.old }
        ensures ok { OnOk result (Does self.new out.old out.new
            (send_over self.old.state f (context_or_new self.old.state f) slot got.now
            (slot_at (context_or_new self.old.state f) slot) phone)) }
        ensures unchanged { OnErr result (Stays self.old self.new out.old out.new) }
    {
        match phone {
            Some(_) => self.call_slot(f, slot, got, out),
            None => {
                self.refuse_op(f, Code::ENOENT, out);
                Ok(())
            }
        }
    }

    #[inline(always)]
    fn call_outcome(
        &mut self,
        f: FibrilNo,
        slot: u32,
        got: &Outcome,
        out: &mut Trace,
    ) -> Result<(), NoMemory>
        requires ready { IsReady self.old out.old }
        ensures ok { OnOk result (Does self.new out.old out.new
            (call_outcome self.old.state f (context_or_new self.old.state f) slot got.now)) }
        ensures unchanged { OnErr result (Stays self.old self.new out.old out.new) }
    {
        match got {
            Outcome::Accepted(call) => self.send_call(f, slot, *call, out),
            Outcome::Refused(code) => {
                self.refused_at(f, *code);
                Ok(())
            }
            _ => Ok(()),
        }
    }

    fn send_call(
        &mut self,
        f: FibrilNo,
        slot: u32,
        call: CallNo,
        out: &mut Trace,
    ) -> Result<(), NoMemory>
        requires ready { IsReady self.old out.old }
        ensures ok { OnOk result (Does self.new out.old out.new
            (send_call self.old.state f (context_or_new self.old.state f) slot call)) }
        ensures unchanged { OnErr result (Stays self.old self.new out.old out.new) }
    {
        self.accepted_at(f, slot, call)?;
        self.awaited.push_reserved(Awaited {
            call,
            fibril: f,
            slot: Some(slot),
        });
        out.push(Entry::Sent {
            task: self.me,
            fibril: f,
            call,
            slot: Some(slot),
        });
        Ok(())
    }

    /// Waits for the answer in a slot. `f` is the present fibril.
    #[inline(always)]
    pub(crate) fn wait_slot(&mut self, f: FibrilNo, slot: u32, out: &mut Trace)
        requires ready { IsReady self.old out.old }
        requires present { current self.old.state.order ≡ Some f }
        ensures { Does self.new out.old out.new
            (wait_slot self.old.state f (context_or_new self.old.state f) slot
            (slot_at (context_or_new self.old.state f) slot)) }
    {
        match self.slot_at(f, slot) {
            Slot::Closed => self.refuse_op(f, Code::ENOENT, out),
            Slot::Sent(call) => self.block(f, Why::Answer(call), out),
            Slot::Answered(call, reply) => {
                self.answered_at(f, slot, call, &reply);
            }
        }
    }

    /// Asks the connection for its next call. `f` is the present fibril.
    #[inline(always)]
    pub(crate) fn next_call(&mut self, f: FibrilNo, out: &mut Trace)
        requires ready { IsReady self.old out.old }
        requires present { current self.old.state.order ≡ Some f }
        ensures { Does self.new out.old out.new
            (next_call (with_taken self.old.state f) f (context_or_new self.old.state f)
            (take_answer (conn_of_fibril f self.old.state.conns))) }
    {
        match self.conns.take_next(f) {
            Taken::Call(call, msg, label) => {
                self.received_at(f, call, &msg, label);
            }
            Taken::HungUp(label) => {
                self.received_at(f, CallNo(0), &Msg::bare(0), label);
            }
            Taken::Wait => self.block(f, Why::Message, out),
            Taken::NoConnection => self.refuse_op(f, Code::ENOENT, out),
        }
    }

    /// Lets the other fibrils go on first. `f` is the present one.
    pub(crate) fn yield_op(&mut self, f: FibrilNo)
        requires bounds { IsWithinBounds self.old.state.order }
        requires present { current self.old.state.order ≡ Some f }
        ensures { self.new.state ≡ yield_op self.old.state f (context_or_new self.old.state f) }
    {
        self.advance_at(f);
        self.fibrils.yield_now();
    }
}
