//! Calls that come, the connections that they belong to, and how fibrils start and end.
ghost use Rattle.std.specs.Prelude.{◌≡◌, ◌+◌, ◌^◌, ◌<◌, ◌≤◌, ◌++◌, OnOk, OnErr, None, Some, IsSome};
ghost use Rattle.std.specs.Prelude.{length, position, ◌-◌};
ghost use Rattle.std.specs.VecDeque.{deque_capacity, deque_len};
ghost use Rattle.fibril_core.specs.Fibrils.{IsWithinBounds, current, why_of};
ghost use Rattle.fibril_core.specs.Conns.{conn_of_fibril};
ghost use Rattle.async_task.specs.AsyncState.{Does, Stays, IsReady, IsWithinLimits, context_at};
ghost use Rattle.async_task.specs.Connections.{hand_over, wake_reader, reach, after_route};
ghost use Rattle.async_task.specs.Connections.{route_call, reach_holder, called_label};
ghost use Rattle.async_task.specs.Connections.{with_connection, with_fibril, start_connection};
ghost use Rattle.async_task.specs.Connections.{is_of_connections, connect_call, receive_call};
ghost use Rattle.async_task.specs.Connections.{end_owing, end_fibril};

use crate::context::Context;
use crate::machine::{Machine, place_of};
use fibril_core::{Owed, Routed, Taken};
use ipc_ids::methods::CONNECT_ME_TO;
use ipc_ids::{
    Body, CallNo, Code, Entry, FibrilNo, Label, Msg, NoMemory, PhoneNo, TaskNo, Trace, Why,
};
use std::collections::VecDeque;

impl Machine {
    /// A call came.
    ///
    /// # Errors
    ///
    /// `NoMemory` where no memory was found. Nothing has changed then.
    #[inline(always)]
    pub(crate) fn receive_call(
        &mut self,
        call: CallNo,
        msg: &Msg,
        label: Label,
        out: &mut Trace,
    ) -> Result<(), NoMemory>
        requires ready { IsReady self.old out.old }
        ensures ok { OnOk result
            (Does self.new out.old out.new (receive_call self.old.state call msg.now label)) }
        ensures unchanged { OnErr result (Stays self.old self.new out.old out.new) }
    {
        if msg.method == CONNECT_ME_TO {
            self.connect_call(call, msg, label, out)
        } else {
            self.route_call(call, msg, label)
        }
    }

    /// A call came that asks to connect.
    fn connect_call(
        &mut self,
        call: CallNo,
        msg: &Msg,
        label: Label,
        out: &mut Trace,
    ) -> Result<(), NoMemory>
        requires ready { IsReady self.old out.old }
        ensures ok { OnOk result (Does self.new out.old out.new (connect_call self.old.state call
            msg.now label (position is_of_connections self.old.state.bodies))) }
        ensures unchanged { OnErr result (Stays self.old self.new out.old out.new) }
    {
        match body_of_connections(self.bodies.as_slice()) {
            Some(body) => match self.reserve_connection() {
                Ok(()) => {
                    self.start_connection(call, msg, label, body, called_label(msg), out);
                    Ok(())
                }
                Err(e) => Err(e),
            },
            None => self.route_call(call, msg, label),
        }
    }

    /// Makes room for a connection and its fibril.
    fn reserve_connection(&mut self) -> Result<(), NoMemory>
        ensures state { self.new.state ≡ self.old.state }
        ensures fibrils { OnOk result (0 < self.new.room.fibrils) }
        ensures contexts { OnOk result (0 < self.new.room.contexts) }
        ensures conns { OnOk result (0 < self.new.conn_room) }
    {
        self.conns.reserve()?;
        self.reserve_fibril()
    }

    /// Makes room for a fibril.
    pub(crate) fn reserve_fibril(&mut self) -> Result<(), NoMemory>
        ensures state { self.new.state ≡ self.old.state }
        ensures fibrils { OnOk result (0 < self.new.room.fibrils) }
        ensures contexts { OnOk result (0 < self.new.room.contexts) }
        ensures conns { self.new.conn_room ≡ self.old.conn_room }
    {
        self.fibrils.reserve()?;
        self.contexts.reserve()
    }

    /// A connection starts, with its fibril. An older one with that label is closed.
    #[tactic(auto, using(crate::proofs::Served::serves_none))]
    fn start_connection(
        &mut self,
        call: CallNo,
        msg: &Msg,
        from: Label,
        body: usize,
        label: Label,
        out: &mut Trace,
    )
        requires entry { 0 < out.old.spare }
        requires fibrils { 0 < self.old.room.fibrils }
        requires contexts { 0 < self.old.room.contexts }
        requires conns { 0 < self.old.conn_room }
        requires limits { IsWithinLimits self.old.state }
        ensures { Does self.new out.old out.new
            (start_connection self.old.state call msg.now from body label) }
    {
        let holder = self.conns.holder(label);
        let f = self.fibrils.next_number();
        let me = self.me;
        self.add_connection(label, f);
        self.reach_holder(holder);
        let mut t = Context::new(self.alloc(), body);
        t.received(call, msg, from);
        self.add_fibril(t);
        out.push(Entry::Starts {
            task: me,
            fibril: f,
            label,
        });
    }

    fn add_connection(&mut self, label: Label, f: FibrilNo)
        requires conns { 0 < self.old.conn_room }
        requires serves_none { conn_of_fibril f self.old.state.conns ≡ None }
        ensures state { self.new.state ≡ with_connection self.old.state label f }
        ensures room { self.new.room ≡ self.old.room }
    {
        self.conns.start_reserved(label, f);
    }

    /// A new fibril, which keeps that.
    #[inline(always)]
    pub(crate) fn add_fibril(&mut self, t: Context)
        requires fibrils { 0 < self.old.room.fibrils }
        requires contexts { 0 < self.old.room.contexts }
        requires bounds { IsWithinBounds self.old.state.order }
        ensures { self.new.state ≡ with_fibril self.old.state t }
    {
        self.fibrils.spawn_reserved();
        self.contexts.push(t);
    }

    /// The older connection of a label finds itself closed.
    fn reach_holder(&mut self, holder: Option<FibrilNo>)
        requires bounds { IsWithinBounds self.old.state.order }
        ensures state { self.new.state ≡ reach_holder self.old.state holder }
        ensures room { self.new.room ≡ self.old.room }
        ensures fibrils { length self.new.state.order.fibrils
            ≡ length self.old.state.order.fibrils }
        ensures stamps { self.new.state.order.next_stamp
            ≤ self.old.state.order.next_stamp + 1 }
    {
        match holder {
            Some(f) => self.reach(f),
            None => {}
        }
    }

    /// A call came that goes to the connection to which its label leads.
    #[inline(always)]
    fn route_call(&mut self, call: CallNo, msg: &Msg, label: Label) -> Result<(), NoMemory>
        requires work { 0 < self.old.room.work }
        requires bounds { IsWithinBounds self.old.state.order }
        ensures ok { OnOk result
            (self.new.state ≡ route_call self.old.state call msg.now label) }
        ensures unchanged { OnErr result (self.new.state ≡ self.old.state) }
    {
        match self.conns.route(label, call, *msg) {
            Ok(routed) => {
                self.after_route(call, &routed);
                Ok(())
            }
            Err(e) => Err(e),
        }
    }

    fn after_route(&mut self, call: CallNo, routed: &Routed)
        requires work { 0 < self.old.room.work }
        requires bounds { IsWithinBounds self.old.state.order }
        ensures { self.new.state ≡ after_route self.old.state call routed.now }
    {
        match routed {
            Routed::Queued(f) => self.reach(*f),
            Routed::Closed(f) => self.reach(*f),
            Routed::Unknown => self.work.push_back_reserved((call, Code::EHANGUP)),
        }
    }

    /// Where the fibril waits for the next call of its connection, it takes that.
    #[inline(always)]
    fn reach(&mut self, f: FibrilNo)
        requires bounds { IsWithinBounds self.old.state.order }
        ensures state { self.new.state ≡ reach self.old.state f }
        ensures room { self.new.room ≡ self.old.room }
        ensures fibrils { length self.new.state.order.fibrils
            ≡ length self.old.state.order.fibrils }
        ensures stamps { self.new.state.order.next_stamp
            ≤ self.old.state.order.next_stamp + 1 }
    {
        match self.fibrils.why(f) {
            Some(Why::Message) => self.wake_reader(f),
            _ => {}
        }
    }

    #[inline(always)]
    fn wake_reader(&mut self, f: FibrilNo)
        requires blocked { IsSome (why_of self.old.state.order f) }
        requires bounds { IsWithinBounds self.old.state.order }
        ensures state { self.new.state ≡ wake_reader self.old.state f }
        ensures room { self.new.room ≡ self.old.room }
        ensures fibrils { length self.new.state.order.fibrils
            ≡ length self.old.state.order.fibrils }
        ensures stamps { self.new.state.order.next_stamp
            ≤ self.old.state.order.next_stamp + 1 }
    {
        let taken = self.conns.take_next(f);
        self.fibrils.wake_fibril(f);
        self.hand_over(f, &taken);
    }

    fn hand_over(&mut self, f: FibrilNo, taken: &Taken)
        ensures state { self.new.state
            ≡ hand_over self.old.state f taken.now (context_at self.old.state f) }
        ensures order { self.new.state.order ≡ self.old.state.order }
        ensures room { self.new.room ≡ self.old.room }
    {
        match taken {
            Taken::Call(call, msg, label) => self.received_at(f, *call, msg, *label),
            Taken::HungUp(label) => self.received_at(f, CallNo(0), &Msg::bare(0), *label),
            Taken::Wait | Taken::NoConnection => {}
        }
    }

    /// The present fibril, which is `f`, ends, and so does its connection.
    ///
    /// # Errors
    ///
    /// `NoMemory` where no memory was found. Nothing has changed then.
    pub(crate) fn end_fibril(&mut self, f: FibrilNo, out: &mut Trace) -> Result<(), NoMemory>
        requires entry { 0 < out.old.spare }
        requires present { current self.old.state.order ≡ Some f }
        ensures ok { OnOk result (Does self.new out.old out.new (end_fibril self.old.state f)) }
        ensures unchanged { OnErr result (Stays self.old self.new out.old out.new) }
    {
        let more = self.conns.owed(f);
        self.reserve_work(more as usize)?;
        match self.conns.finish(f) {
            Ok(owed) => {
                self.end_owing(f, &owed, out);
                Ok(())
            }
            Err(e) => Err(e),
        }
    }

    fn end_owing(&mut self, f: FibrilNo, owed: &Owed, out: &mut Trace)
        requires entry { 0 < out.old.spare }
        requires work { length owed.now ≤ self.old.room.work }
        requires present { current self.old.state.order ≡ Some f }
        ensures { Does self.new out.old out.new (end_owing self.old.state f owed.now) }
    {
        self.fibrils.end_current();
        self.contexts.remove(place_of(f));
        self.awaited.forget_calls_of(f);
        add_work(&mut self.work, owed.as_slice());
        out.push(Entry::Ends {
            task: self.me,
            fibril: f,
        });
    }
}

/// Adds these answers at the end.
fn add_work(work: &mut VecDeque<(CallNo, Code)>, owed: &[(CallNo, Code)])
    requires room { length owed.now ≤ deque_capacity work.old - deque_len work.old }
    ensures { work.new.items ≡ work.old.items ++ owed.now }
{
    for item in owed {
        work.push_back_reserved(*item);
    }
}

/// The body of connections.
fn body_of_connections(bodies: &[Body]) -> Option<usize>
    ensures { result ≡ position is_of_connections bodies.now }
{
    bodies.iter().position(|body| body.connection)
}

/// The label that a connect call gives its connection.
fn called_label(msg: &Msg) -> Label
    ensures { result ≡ called_label msg.now }
{
    Label {
        task: TaskNo(msg.args[4] / 64),
        phone: PhoneNo((msg.args[4] % 64) as u32),
    }
}
