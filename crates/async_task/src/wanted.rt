//! What a task asks next.
ghost use Rattle.std.specs.Prelude.{◌≡◌, length, option_copied};
ghost use Rattle.std.specs.List.{list_any};
ghost use Rattle.fibril_core.specs.Fibrils.{current};
ghost use Rattle.async_task.specs.Turns.{fibril_turn, turn_of};
ghost use Rattle.async_task.specs.Wanted.{wanted_in};
ghost use Rattle.async_task.specs.AsyncState.{context_at};
ghost use Rattle.async_task.specs.Wanted.{wanted, wanted_op, wanted_call, wanted_send};
ghost use Rattle.async_task.specs.Wanted.{wanted_begin, wanted_close, phone_by, plan_begin};
ghost use Rattle.async_task.specs.Wanted.{plan_close, waits_for, any_waits, begins_in, is_begin_of};

use crate::context::{Context, Slot};
use crate::machine::Machine;
use async_sessions::{Begin, Close};
use fibril_core::Fibril;
use ipc_ids::methods::CONNECT_ME_TO;
use ipc_ids::{Code, ExchangeNo, FibrilNo, Msg, Op, Reply, Request, Value};

impl Machine {
    /// What the task asks next.
    pub(crate) fn next(&self) -> Request
        ensures { result ≡ wanted self.now.state }
    {
        match self.work.front() {
            Some(owed) => Request::Answer {
                call: owed.0.0,
                reply: Reply::bare(owed.1),
            },
            None => self.fibril_wants(),
        }
    }

    fn fibril_wants(&self) -> Request
        ensures { result
            ≡ wanted_in self.now.state (fibril_turn self.now.state (current self.now.state.order)) }
    {
        match self.fibrils.current() {
            Some(f) => self.wants(f),
            None => Request::Receive,
        }
    }

    fn wants(&self, f: FibrilNo) -> Request
        ensures { result
            ≡ wanted_in self.now.state (turn_of self.now.state f (context_at self.now.state f)) }
    {
        match self.context(f) {
            Some(t) => match self.present_op(t) {
                Some(op) => self.wanted_op(f, t, op),
                None => Request::Nothing,
            },
            None => Request::Receive,
        }
    }

    fn wanted_op(&self, f: FibrilNo, t: &Context, op: &Op) -> Request
        ensures { result ≡ wanted_op self.now.state f t.now op.now }
    {
        match op {
            Op::CallSlot {
                slot,
                phone,
                method,
                args,
            } => wanted_call(t, *phone, *method, args, t.slot(*slot)),
            Op::Send {
                slot,
                handle,
                method,
                args,
            } => wanted_send(
                t,
                *method,
                args,
                t.slot(*slot),
                self.phone_by(f, t.handle(*handle)),
            ),
            Op::Begin { handle, session } => wanted_begin(&self.plan_begin(
                f, t, *handle, *session,
            )),
            Op::Close(session) => wanted_close(&self.plan_close(*session)),
            _ => t.registers.request(op),
        }
    }

    /// The phone of the exchange that the fibril has begun under a handle.
    pub(crate) fn phone_by(&self, f: FibrilNo, handle: Option<ExchangeNo>) -> Option<u64>
        ensures { result ≡ phone_by self.now.state.pool f handle }
    {
        match handle {
            Some(exchange) => self.sessions.phone_of(f, exchange),
            None => None,
        }
    }

    /// What a begin of the session under a handle comes to.
    #[inline(always)]
    pub(crate) fn plan_begin(&self, f: FibrilNo, t: &Context, handle: u32, session: u32) -> Begin
        ensures { result ≡ plan_begin self.now.state f t.now handle session }
    {
        match self.sessions.plan_begin(f, session, t.short) {
            Begin::Refused(code) => Begin::Refused(code),
            plan => match self.phone_by(f, t.handle(handle)) {
                None => plan,
                Some(_) => Begin::Refused(Code::EBUSY),
            },
        }
    }

    /// What a close of the session comes to.
    pub(crate) fn plan_close(&self, session: u32) -> Close
        ensures { result ≡ plan_close self.now.state session }
    {
        self.sessions.plan_close(session, self.any_waits(session))
    }

    /// Whether a fibril is blocked in a begin of the session.
    pub(crate) fn any_waits(&self, session: u32) -> bool
        ensures { result ≡ any_waits (length self.now.state.contexts) self.now.state session }
    {
        let (front, back) = self.fibrils.live();
        self.any_among(session, front) || self.any_among(session, back)
    }

    /// Whether one of these is blocked in a begin of the session.
    fn any_among(&self, session: u32, fibrils: &[Fibril]) -> bool
        ensures { result ≡ list_any (λ x. waits_for self.now.state session x.number) fibrils.now }
    {
        let mut found = false;
        for fibril in fibrils {
            found = found || self.waits_for(session, fibril.number);
        }
        found
    }

    fn waits_for(&self, session: u32, f: FibrilNo) -> bool
        ensures { result ≡ waits_for self.now.state session f }
    {
        match self.fibrils.why(f) {
            Some(_) => self.begins_in(session, f),
            None => false,
        }
    }

    fn begins_in(&self, session: u32, f: FibrilNo) -> bool
        ensures { result ≡ begins_in self.now.state session (context_at self.now.state f) }
    {
        match self.context(f) {
            Some(t) => is_begin_of(session, self.present_op(t)),
            None => false,
        }
    }
}

fn wanted_call(t: &Context, phone: Value, method: Value, args: &[Value; 5], slot: Slot) -> Request
    ensures { result ≡ wanted_call t.now phone method args.now slot }
{
    match slot {
        Slot::Closed => Request::Call {
            phone: t.registers.value(phone),
            msg: t.registers.msg(method, args),
        },
        Slot::Sent(_) | Slot::Answered(_, _) => Request::Nothing,
    }
}

fn wanted_send(
    t: &Context,
    method: Value,
    args: &[Value; 5],
    slot: Slot,
    phone: Option<u64>,
) -> Request
    ensures { result ≡ wanted_send t.now method args.now slot phone }
{
    match phone {
        Some(phone) => wanted_call(t, Value::Number(phone), method, args, slot),
        None => Request::Nothing,
    }
}

fn wanted_begin(plan: &Begin) -> Request
    ensures { result ≡ wanted_begin plan.now }
{
    match plan {
        Begin::Connect(phone) => Request::Call {
            phone: *phone,
            msg: Msg::bare(CONNECT_ME_TO),
        },
        Begin::HangIdle(_, phone) => Request::Hangup { phone: *phone },
        Begin::Begun(_, _)
        | Begin::WaitMutex
        | Begin::WaitPhone
        | Begin::Refused(_)
        | Begin::NoMemory => Request::Nothing,
    }
}

fn wanted_close(plan: &Close) -> Request
    ensures { result ≡ wanted_close plan.now }
{
    match plan {
        Close::HangIdle(_, phone) => Request::Hangup { phone: *phone },
        Close::Last(phone) => Request::Hangup { phone: *phone },
        Close::Refused(_) => Request::Nothing,
    }
}

/// Whether an operation is a begin of the session.
fn is_begin_of(session: u32, op: Option<&Op>) -> bool
    ensures { result ≡ is_begin_of session (option_copied op.entry) }
{
    match op {
        Some(Op::Begin { session: other, .. }) => *other == session,
        _ => false,
    }
}
