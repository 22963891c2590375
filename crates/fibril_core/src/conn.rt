//! One connection, and what is done with it.
ghost use Rattle.std.specs.Prelude.{◌≡◌, ◌^◌, ◌<◌, ◌++◌, [], ◌∷◌, OnOk, OnErr, Some, IfOk, length};
ghost use Rattle.std.specs.Prelude.{map};
ghost use Rattle.std.specs.Option.{option_copied};
ghost use Rattle.fibril_core.specs.Conns.{first_of, rest_of, fibril_of, lose_label, take_answer};
ghost use Rattle.fibril_core.specs.Conns.{take_first, route_answer, route_to, owed_by, hung_up};
ghost use Rattle.fibril_core.specs.Conns.{close_answer};

use crate::owed::Owed;
use ipc_ids::{CallNo, Code, FibrilNo, Label, Msg, NoMemory};
use std::alloc::Global;
use std::collections::VecDeque;
use std::marker::Model;

/// A call that came for a connection.
#[derive(Clone, Copy)]
pub struct Queued {
    pub call: CallNo,
    pub msg: Msg,
}

/// Calls in the order of their coming. It takes no memory while it is empty, and room for one call
/// where one comes to the empty queue; further room is made as for any `VecDeque`, and all of it is
/// given back when the last call is taken.
#[derive(Drop)]
pub struct Queue {
    items: VecDeque<Queued>,
}

impl Model for Queue {
    ghost use Rattle.std.specs.Prelude.{List};
    ghost use Rattle.fibril_core.specs.declared.conn.Queued.{Queued};

    ghost Value = { List Queued };

    ghost view = { λ queue. queue.items.items };
}

impl Queue {
    /// No calls; it takes no memory.
    pub(crate) fn new(alloc: Global) -> Queue
        ensures { result ≡ [] }
    {
        Queue {
            items: VecDeque::new(alloc),
        }
    }

    /// How many calls. Takes no memory.
    pub fn len(&self) -> usize
        ensures count { result ≡ length self.now }
        ensures few { length self.now < 2 ^ 63 }
    {
        self.items.len()
    }

    /// The calls in their order, in two slices. Takes no memory.
    pub fn as_slices(&self) -> (&[Queued], &[Queued])
        ensures { result.0.now ++ result.1.now ≡ self.now }
    {
        self.items.as_slices()
    }

    fn push(&mut self, call: CallNo, msg: Msg) -> Result<(), NoMemory>
        ensures ok { OnOk result (self.new ≡ self.old ++ record { call = call; msg = msg } ∷ []) }
        ensures err { OnErr result (self.new ≡ self.old) }
    {
        if self.items.is_empty() {
            self.items.reserve_exact(1)?;
        }
        match self.items.push_back(Queued { call, msg }) {
            Ok(()) => Ok(()),
            Err(_) => Err(NoMemory),
        }
    }

    /// The first, which leaves the queue. The last one's room is given back.
    fn take(&mut self) -> Option<Queued>
        ensures first { result ≡ first_of self.old }
        ensures rest { self.new ≡ rest_of self.old }
    {
        let first = self.items.pop_front();
        if self.items.is_empty() {
            self.items.shrink_to_fit();
        }
        first
    }
}

/// A connection.
#[derive(Drop)]
pub struct Conn {
    /// The fibril that serves it.
    pub fibril: FibrilNo,
    pub label: Label,
    /// Whether the label leads here. A newer connection may have taken it.
    pub routes: bool,
    /// The calls that its fibril has not taken yet.
    pub queue: Queue,
    pub closed: bool,
    /// The call that closed it, if one did.
    pub close_call: Option<CallNo>,
}

/// Where a received call went.
#[derive(Clone, Copy)]
pub enum Routed {
    /// To the end of the queue of this fibril's connection.
    Queued(FibrilNo),
    /// It closed the connection of this fibril.
    Closed(FibrilNo),
    /// To no connection: its label leads to none.
    Unknown,
}

/// What a fibril finds that asks its connection for the next call.
#[derive(Clone, Copy)]
pub enum Taken {
    Call(CallNo, Msg, Label),
    /// The connection is closed and all its calls are taken.
    HungUp(Label),
    /// No call has come yet.
    Wait,
    NoConnection,
}

/// The fibril of the connection.
pub(crate) fn fibril_of(conn: Option<&Conn>) -> Option<FibrilNo>
    ensures { result ≡ fibril_of (option_copied conn.entry) }
{
    match conn {
        Some(conn) => Some(conn.fibril),
        None => None,
    }
}

/// Where the label led to the connection, it does so no more, and the connection is closed.
pub(crate) fn lose_label(conn: &mut Conn, label: Label)
    ensures { conn.new ≡ lose_label label conn.old }
{
    if conn.routes && conn.label == label {
        conn.routes = false;
        conn.closed = true;
    }
}

/// A hangup closes a connection that has no close call. Every other call goes to the end of the
/// queue.
pub(crate) fn route_to(conn: &mut Conn, call: CallNo, msg: Msg) -> Result<Routed, NoMemory>
    ensures told { IfOk result (λ r. r ≡ route_answer msg.method (Some conn.old)) }
    ensures conn { OnOk result (conn.new ≡ route_to call msg conn.old) }
    ensures unchanged { OnErr result (conn.new ≡ conn.old) }
{
    if msg.method == 0 && conn.close_call.is_none() {
        conn.close_call = Some(call);
        conn.closed = true;
        return Ok(Routed::Closed(conn.fibril));
    }
    match conn.queue.push(call, msg) {
        Ok(()) => Ok(Routed::Queued(conn.fibril)),
        Err(e) => Err(e),
    }
}

/// Takes the first call of the queue, if there is one.
pub(crate) fn take_first(conn: &mut Conn) -> Taken
    ensures told { result ≡ take_answer (Some conn.old) }
    ensures conn { conn.new ≡ take_first conn.old }
{
    match conn.queue.take() {
        Some(queued) => Taken::Call(queued.call, queued.msg, conn.label),
        None => {
            if conn.closed {
                Taken::HungUp(conn.label)
            } else {
                Taken::Wait
            }
        }
    }
}

/// How many answers a connection owes at its end.
pub(crate) fn count_owed(conn: &Conn) -> u64
    ensures { result ≡ length (owed_by (Some conn.now)) }
{
    let waiting = conn.queue.len() as u64;
    match conn.close_call {
        Some(_) => waiting + 1,
        None => waiting,
    }
}

/// `EHANGUP` for each queued call in order, then `EOK` for the close call.
pub(crate) fn owed_by(alloc: Global, conn: Option<&Conn>) -> Result<Owed, NoMemory>
    ensures { IfOk result (λ owed. owed ≡ owed_by (option_copied conn.entry)) }
{
    let mut owed = Owed::new(alloc);
    if let Some(conn) = conn {
        add_owed(&mut owed, conn)?;
    }
    Ok(owed)
}

/// Adds `EHANGUP` for each queued call in order, then `EOK` for the close call, if there is one.
fn add_owed(owed: &mut Owed, conn: &Conn) -> Result<(), NoMemory>
    ensures { OnOk result (owed.new ≡ owed.old ++ owed_by (Some conn.now)) }
{
    hang_up_queued(owed, &conn.queue)?;
    answer_close(owed, conn.close_call)
}

/// Adds `EHANGUP` for each queued call in order.
fn hang_up_queued(owed: &mut Owed, queue: &Queue) -> Result<(), NoMemory>
    ensures { OnOk result (owed.new ≡ owed.old ++ map hung_up queue.now) }
{
    let (front, back) = queue.as_slices();
    hang_up_each(owed, front)?;
    hang_up_each(owed, back)
}

/// Adds `EHANGUP` for each of these calls in order.
fn hang_up_each(owed: &mut Owed, calls: &[Queued]) -> Result<(), NoMemory>
    ensures { OnOk result (owed.new ≡ owed.old ++ map hung_up calls.now) }
{
    for queued in calls {
        owed.push((queued.call, Code::EHANGUP))?;
    }
    Ok(())
}

/// Adds `EOK` for the close call, if there is one.
fn answer_close(owed: &mut Owed, close_call: Option<CallNo>) -> Result<(), NoMemory>
    ensures { OnOk result (owed.new ≡ owed.old ++ close_answer close_call) }
{
    match close_call {
        Some(call) => owed.push((call, Code::EOK)),
        None => Ok(()),
    }
}
