//! One event of a task.
ghost use Rattle.std.specs.Prelude.{◌≡◌, ◌^◌, ◌<◌, OnOk, OnErr, Some};
ghost use Rattle.fibril_core.specs.Fibrils.{current};
ghost use Rattle.async_task.specs.AsyncState.{Does, Stays, IsReady, IsWithinLimits, context_at};
ghost use Rattle.async_task.specs.Turns.{fibril_turn, turn_of};
ghost use Rattle.async_task.specs.Steps.{step_in, manage, rest_of, step};

use crate::machine::Machine;
use ipc_ids::{FibrilNo, NoMemory, Op, Outcome, Trace};

impl Machine {
    /// Takes the outcome of what `next` gives.
    ///
    /// # Errors
    ///
    /// `NoMemory` where no memory was found. Nothing has changed then.
    pub(crate) fn step(&mut self, got: &Outcome, out: &mut Trace) -> Result<(), NoMemory>
        requires limits { IsWithinLimits self.old.state }
        ensures ok { OnOk result (Does self.new out.old out.new (step self.old.state got.now)) }
        ensures unchanged { OnErr result (Stays self.old self.new out.old out.new) }
    {
        out.reserve(2)?;
        self.reserve()?;
        if self.work.is_empty() {
            self.fibril_step(got, out)
        } else {
            self.drop_work();
            Ok(())
        }
    }

    fn fibril_step(&mut self, got: &Outcome, out: &mut Trace) -> Result<(), NoMemory>
        requires ready { IsReady self.old out.old }
        ensures ok { OnOk result (Does self.new out.old out.new (step_in self.old.state got.now
            (fibril_turn self.old.state (current self.old.state.order)))) }
        ensures unchanged { OnErr result (Stays self.old self.new out.old out.new) }
    {
        match self.fibrils.current() {
            Some(f) => self.run(f, got, out),
            None => self.manage(got, out),
        }
    }

    /// The present fibril, which is `f`, does its present operation, or ends.
    fn run(&mut self, f: FibrilNo, got: &Outcome, out: &mut Trace) -> Result<(), NoMemory>
        requires ready { IsReady self.old out.old }
        requires present { current self.old.state.order ≡ Some f }
        ensures ok { OnOk result (Does self.new out.old out.new (step_in self.old.state got.now
            (turn_of self.old.state f (context_at self.old.state f)))) }
        ensures unchanged { OnErr result (Stays self.old self.new out.old out.new) }
    {
        let Some(t) = self.context(f) else {
            return self.manage(got, out);
        };
        let Some(op) = self.present_op(t) else {
            return self.end_fibril(f, out);
        };
        match *op {
            Op::CallSlot { slot, .. } => return self.call_slot(f, slot, got, out),
            Op::Send { slot, handle, .. } => {
                let phone = self.phone_by(f, t.handle(handle));
                return self.send_over(f, slot, phone, got, out);
            }
            Op::Wait(slot) => self.wait_slot(f, slot, out),
            Op::Next => self.next_call(f, out),
            Op::Yield => self.yield_op(f),
            Op::OpenSession {
                session,
                phone,
                mode,
            } => {
                let phone = t.registers.value(phone);
                self.open_session(f, session, phone, mode, out);
            }
            Op::Begin { handle, session } => {
                let plan = self.plan_begin(f, t, handle, session);
                self.begin_op(f, handle, session, got, &plan, out);
            }
            Op::End(handle) => {
                let names = t.handle(handle);
                self.end_op(f, handle, names, out);
            }
            Op::Close(session) => self.close_op(f, session, got, out),
            _ => self.raw_at(f, got),
        }
        Ok(())
    }

    /// The first answer that was owed is made.
    fn drop_work(&mut self)
        ensures { self.new.state ≡ record self.old.state { work = rest_of self.old.state.work } }
    {
        let _ = self.work.pop_front();
    }

    /// The manager received something, or nothing.
    #[inline(always)]
    fn manage(&mut self, got: &Outcome, out: &mut Trace) -> Result<(), NoMemory>
        requires ready { IsReady self.old out.old }
        ensures ok { OnOk result (Does self.new out.old out.new (manage self.old.state got.now)) }
        ensures unchanged { OnErr result (Stays self.old self.new out.old out.new) }
    {
        match got {
            Outcome::Received { call, msg, label } => self.receive_call(*call, msg, *label, out),
            Outcome::Answered { call, reply } => self.take_answer(*call, reply, out),
            _ => Ok(()),
        }
    }
}
