//! What a fibril keeps.
ghost use Rattle.std.specs.Prelude.{◌≡◌, OnOk, OnErr};
ghost use Rattle.async_task.specs.Contexts.{new_context, at_next, slot_at};
ghost use Rattle.async_task.specs.Contexts.{with_slot, handle_at, with_handle, with_short};
ghost use Rattle.async_task.specs.Contexts.{after_done, after_refused, after_outcome};
ghost use Rattle.async_task.specs.Contexts.{with_received, after_accepted, after_answered};
ghost use Rattle.async_task.specs.Contexts.{after_begun, after_ended};
ghost use Rattle.async_task.specs.Calls.{after_raw};

use crate::handles::Handles;
use crate::slots::FibrilSlots;
use ipc_ids::{CallNo, Code, ExchangeNo, Label, Msg, NoMemory, Op, Outcome, Reply};
use registers::{Registers, next_place};
use std::alloc::Global;

/// What a slot holds.
#[derive(Clone, Copy)]
pub enum Slot {
    Closed,
    /// A call whose answer has not come.
    Sent(CallNo),
    Answered(CallNo, Reply),
}

/// A fibril's body by its number, its place in it, 32 registers, 8 slots and 8 handles of
/// exchanges, and whether a connect call of its present begin met the limit.
#[derive(Drop)]
pub struct Context {
    pub body: usize,
    pub place: usize,
    pub registers: Registers,
    pub slots: FibrilSlots,
    pub handles: Handles,
    pub short: bool,
}

impl Context {
    /// A fibril before the first operation of a body.
    pub(crate) fn new(alloc: Global, body: usize) -> Context
        ensures { result ≡ new_context body }
    {
        Context {
            body,
            place: 0,
            registers: Registers::new(),
            slots: FibrilSlots::new(alloc),
            handles: Handles::new(),
            short: false,
        }
    }

    /// At the next operation.
    pub(crate) fn advance(&mut self)
        ensures { self.new ≡ at_next self.old }
    {
        self.place = next_place(self.place);
    }

    /// What a slot holds.
    pub(crate) fn slot(&self, slot: u32) -> Slot
        ensures { result ≡ slot_at self.now slot }
    {
        self.slots.get(slot)
    }

    /// A slot holds that. There is none from 8 on.
    ///
    /// # Errors
    ///
    /// `NoMemory` where no memory was found. Nothing has changed then.
    pub(crate) fn hold(&mut self, slot: u32, holds: Slot) -> Result<(), NoMemory>
        ensures ok { OnOk result (self.new ≡ with_slot self.old slot holds) }
        ensures unchanged { OnErr result (self.new ≡ self.old) }
    {
        self.slots.hold(slot, holds)
    }

    /// A slot is closed.
    fn close_slot(&mut self, slot: u32)
        ensures { self.new ≡ with_slot self.old slot Slot.Closed }
    {
        self.slots.close(slot);
    }

    /// The exchange that a handle names.
    pub(crate) fn handle(&self, handle: u32) -> Option<ExchangeNo>
        ensures { result ≡ handle_at self.now handle }
    {
        self.handles.get(handle)
    }

    /// A handle names that. There is none from 8 on.
    fn set_handle(&mut self, handle: u32, names: Option<ExchangeNo>)
        ensures { self.new ≡ with_handle self.old handle names }
    {
        self.handles.set(handle, names);
    }

    /// Whether a connect call of the present begin met the limit.
    pub(crate) fn set_short(&mut self, short: bool)
        ensures { self.new ≡ with_short self.old short }
    {
        self.short = short;
    }

    /// An operation was done.
    pub(crate) fn done(&mut self)
        ensures { self.new ≡ after_done self.old }
    {
        self.registers.tell_done();
        self.advance();
    }

    /// An operation was refused.
    pub(crate) fn refused(&mut self, code: Code)
        ensures { self.new ≡ after_refused self.old code }
    {
        self.registers.tell_refused(code);
        self.advance();
    }

    /// The request of an operation had this outcome.
    pub(crate) fn outcome(&mut self, got: &Outcome)
        ensures { self.new ≡ after_outcome self.old got.now }
    {
        self.registers.tell(got);
        self.advance();
    }

    /// What an operation changes that has no need of fibrils.
    pub(crate) fn raw(&mut self, op: &Op, got: &Outcome)
        ensures { self.new ≡ after_raw self.old op.now got.now }
    {
        self.place = self.registers.step(self.place, op, got);
    }

    /// A call was received.
    pub(crate) fn received(&mut self, call: CallNo, msg: &Msg, label: Label)
        ensures { self.new ≡ with_received self.old call msg.now label }
    {
        self.registers.tell_received(call, msg, label);
    }

    /// The call of the slot was accepted.
    ///
    /// # Errors
    ///
    /// `NoMemory` where no memory was found. Nothing has changed then.
    pub(crate) fn accepted(&mut self, slot: u32, call: CallNo) -> Result<(), NoMemory>
        ensures ok { OnOk result (self.new ≡ after_accepted self.old slot call) }
        ensures unchanged { OnErr result (self.new ≡ self.old) }
    {
        self.hold(slot, Slot::Sent(call))?;
        self.registers.tell_accepted(call);
        self.advance();
        Ok(())
    }

    /// The answer was taken from the slot.
    pub(crate) fn answered(&mut self, slot: u32, call: CallNo, reply: &Reply)
        ensures { self.new ≡ after_answered self.old slot call reply.now }
    {
        self.registers.tell_answered(call, reply);
        self.close_slot(slot);
        self.advance();
    }

    /// A begin ended with that exchange, which the handle names from now on.
    pub(crate) fn begun(&mut self, handle: u32, exchange: ExchangeNo)
        ensures { self.new ≡ after_begun self.old handle exchange }
    {
        self.set_short(false);
        self.set_handle(handle, Some(exchange));
        self.done();
    }

    /// The exchange that the handle named ended.
    pub(crate) fn ended(&mut self, handle: u32)
        ensures { self.new ≡ after_ended self.old handle }
    {
        self.set_handle(handle, None);
        self.done();
    }
}
