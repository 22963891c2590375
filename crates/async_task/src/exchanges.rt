//! Operations on sessions and exchanges.
ghost use Rattle.std.specs.Prelude.{◌≡◌, ◌^◌, ◌<◌, ◌++◌, Some};
ghost use Rattle.fibril_core.specs.Fibrils.{current, IsWithinBounds};
ghost use Rattle.async_sessions.specs.Sessions.{session_at, mode_answer};
ghost use Rattle.async_task.specs.AsyncState.{Does, IsReady, context_or_new};
ghost use Rattle.async_task.specs.Wanted.{plan_close};
ghost use Rattle.async_task.specs.Exchanges.{open_session, finish_begin, begin_exchange};
ghost use Rattle.async_task.specs.Exchanges.{refuse_begin, send_connect, connect_refused};
ghost use Rattle.async_task.specs.Exchanges.{connect_outcome, drop_idle, begin_op, wake_waiters};
ghost use Rattle.async_task.specs.Exchanges.{end_outcome, end_op, close_outcome, close_op};

use crate::awaited::Awaited;
use crate::machine::Machine;
use async_sessions::{Begin, Close, Ended};
use ipc_ids::{CallNo, Code, Entry, ExchangeMode, ExchangeNo, FibrilNo, Outcome, Trace, Why};

impl Machine {
    /// Makes a session over a phone.
    pub(crate) fn open_session(
        &mut self,
        f: FibrilNo,
        session: u32,
        phone: u64,
        mode: ExchangeMode,
        out: &mut Trace,
    )
        requires ready { IsReady self.old out.old }
        ensures { Does self.new out.old out.new
            (open_session self.old.state f (context_or_new self.old.state f) session phone mode) }
    {
        match self.sessions.make(session, phone, mode) {
            Ok(()) => self.done_at(f),
            Err(code) => self.refuse_op(f, code, out),
        }
    }

    /// Begins an exchange of the session, which comes to `plan`. `f` is the present fibril.
    #[inline(always)]
    pub(crate) fn begin_op(
        &mut self,
        f: FibrilNo,
        handle: u32,
        session: u32,
        got: &Outcome,
        plan: &Begin,
        out: &mut Trace,
    )
        requires ready { IsReady self.old out.old }
        requires present { current self.old.state.order ≡ Some f }
        ensures { Does self.new out.old out.new
            (begin_op self.old.state f
            (context_or_new self.old.state f) handle session got.now plan.now) }
    {
        match plan {
            Begin::Begun(exchange, phone) => {
                self.begin_exchange(f, handle, session, *exchange, *phone, out);
            }
            Begin::Connect(_) => self.connect_outcome(f, got, out),
            Begin::HangIdle(exchange, _) => {
                self.short_at(f, false);
                self.drop_idle(f, *exchange, out);
            }
            Begin::WaitMutex => self.block(f, Why::Mutex(session), out),
            Begin::WaitPhone => {
                self.short_at(f, false);
                self.block(f, Why::Phone, out);
            }
            Begin::Refused(code) => self.refuse_begin(f, *code, out),
            Begin::NoMemory => {}
        }
    }

    fn begin_exchange(
        &mut self,
        f: FibrilNo,
        handle: u32,
        session: u32,
        exchange: ExchangeNo,
        phone: u64,
        out: &mut Trace,
    )
        requires ready { IsReady self.old out.old }
        ensures { Does self.new out.old out.new
            (begin_exchange self.old.state f
            (context_or_new self.old.state f) handle session exchange phone
            (mode_answer (session_at self.old.state.pool session))) }
    {
        match self.sessions.mode_of(session) {
            Some(mode) => {
                self.sessions
                    .begin_exchange(f, session, exchange, phone, mode);
                self.finish_begin(f, handle, session, exchange, mode, phone, out);
            }
            None => {}
        }
    }

    /// A begin ends with an exchange.
    #[inline(always)]
    pub(crate) fn finish_begin(
        &mut self,
        f: FibrilNo,
        handle: u32,
        session: u32,
        exchange: ExchangeNo,
        mode: ExchangeMode,
        phone: u64,
        out: &mut Trace,
    )
        requires entry { 0 < out.old.spare }
        ensures { Does self.new out.old out.new
            (finish_begin self.old.state f
            (context_or_new self.old.state f) handle session exchange mode phone) }
    {
        self.begun_at(f, handle, exchange);
        out.push(Entry::Begins {
            task: self.me,
            fibril: f,
            exchange,
            mode,
            session,
            phone,
        });
    }

    fn refuse_begin(&mut self, f: FibrilNo, code: Code, out: &mut Trace)
        requires entry { 0 < out.old.spare }
        ensures { Does self.new out.old out.new
            (refuse_begin self.old.state f (context_or_new self.old.state f) code) }
    {
        self.short_at(f, false);
        self.refuse_op(f, code, out);
    }

    fn connect_outcome(&mut self, f: FibrilNo, got: &Outcome, out: &mut Trace)
        requires ready { IsReady self.old out.old }
        requires present { current self.old.state.order ≡ Some f }
        ensures { Does self.new out.old out.new
            (connect_outcome self.old.state f (context_or_new self.old.state f) got.now) }
    {
        match got {
            Outcome::Accepted(call) => self.send_connect(f, *call, out),
            Outcome::Refused(code) => self.connect_refused(f, *code, out),
            _ => {}
        }
    }

    /// The connect call of a begin was accepted.
    fn send_connect(&mut self, f: FibrilNo, call: CallNo, out: &mut Trace)
        requires ready { IsReady self.old out.old }
        requires present { current self.old.state.order ≡ Some f }
        ensures { Does self.new out.old out.new (send_connect self.old.state f call) }
    {
        self.fibrils.block_on(Why::Answer(call));
        self.awaited.push_reserved(Awaited {
            call,
            fibril: f,
            slot: None,
        });
        out.push(Entry::Sent {
            task: self.me,
            fibril: f,
            call,
            slot: None,
        });
        out.push(Entry::Blocks {
            task: self.me,
            fibril: f,
            why: Why::Answer(call),
        });
    }

    /// The connect call of a begin was refused, by the kernel or by an answer. At the limit the
    /// begin goes on without it.
    pub(crate) fn connect_refused(&mut self, f: FibrilNo, code: Code, out: &mut Trace)
        requires entry { 0 < out.old.spare }
        ensures { Does self.new out.old out.new
            (connect_refused self.old.state f (context_or_new self.old.state f) code) }
    {
        if code.0 == Code::ELIMIT.0 {
            self.short_at(f, true);
        } else {
            self.refuse_begin(f, code, out);
        }
    }

    /// An idle exchange, whose phone is hung up, leaves the task.
    fn drop_idle(&mut self, f: FibrilNo, exchange: ExchangeNo, out: &mut Trace)
        requires entry { 0 < out.old.spare }
        ensures { Does self.new out.old out.new (drop_idle self.old.state f exchange) }
    {
        self.sessions.drop_exchange(exchange);
        out.push(Entry::Drops {
            task: self.me,
            fibril: f,
            exchange,
        });
    }

    /// Ends the exchange that the handle names.
    #[inline(always)]
    pub(crate) fn end_op(
        &mut self,
        f: FibrilNo,
        handle: u32,
        names: Option<ExchangeNo>,
        out: &mut Trace,
    )
        requires ready { IsReady self.old out.old }
        ensures { Does self.new out.old out.new
            (end_op self.old.state f (context_or_new self.old.state f) handle names) }
    {
        match names {
            Some(exchange) => {
                let ended = self.sessions.end(f, exchange);
                self.end_outcome(f, handle, exchange, &ended, out);
            }
            None => self.refuse_op(f, Code::ENOENT, out),
        }
    }

    #[inline(always)]
    fn end_outcome(
        &mut self,
        f: FibrilNo,
        handle: u32,
        exchange: ExchangeNo,
        ended: &Result<Ended, Code>,
        out: &mut Trace,
    )
        requires entry { 0 < out.old.spare }
        requires bounds { IsWithinBounds self.old.state.order }
        ensures { Does self.new out.old out.new
            (end_outcome self.old.state f
            (context_or_new self.old.state f) handle exchange ended.now) }
    {
        match ended {
            Ok(of) => {
                self.ended_at(f, handle);
                self.wake_waiters(of.mode, of.session);
                out.push(Entry::ExchangeEnds {
                    task: self.me,
                    fibril: f,
                    exchange,
                });
            }
            Err(code) => self.refuse_op(f, *code, out),
        }
    }

    /// Those who wait for the end of an exchange are ready.
    fn wake_waiters(&mut self, mode: ExchangeMode, session: u32)
        requires bounds { IsWithinBounds self.old.state.order }
        ensures { self.new.state
            ≡ record self.old.state { order = wake_waiters self.old.state.order mode session } }
    {
        match mode {
            ExchangeMode::Atomic => {}
            ExchangeMode::Serialize => self.fibrils.wake_mutex(session),
            ExchangeMode::Parallel => self.fibrils.wake_phone(),
        }
    }

    /// Closes the session, or hangs up the phone of one of its idle exchanges.
    pub(crate) fn close_op(&mut self, f: FibrilNo, session: u32, got: &Outcome, out: &mut Trace)
        requires ready { IsReady self.old out.old }
        ensures { Does self.new out.old out.new
            (close_op self.old.state f (context_or_new self.old.state f) session got.now
            (plan_close self.old.state session)) }
    {
        let waits = self.any_waits(session);
        let plan = self.sessions.close(session, waits);
        self.close_outcome(f, got, &plan, out);
    }

    fn close_outcome(&mut self, f: FibrilNo, got: &Outcome, plan: &Close, out: &mut Trace)
        requires entry { 0 < out.old.spare }
        ensures { Does self.new out.old out.new
            (close_outcome self.old.state f (context_or_new self.old.state f) got.now plan.now) }
    {
        match plan {
            Close::HangIdle(exchange, _) => {
                out.push(Entry::Drops {
                    task: self.me,
                    fibril: f,
                    exchange: *exchange,
                });
            }
            Close::Last(_) => self.outcome_at(f, got),
            Close::Refused(code) => self.refuse_op(f, *code, out),
        }
    }
}
