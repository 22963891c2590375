//! The entries of a trace.

use crate::message::{ExchangeMode, Outcome, PhoneState, Reply, Request, Why};
use crate::numbers::{CallNo, Code, ExchangeNo, FibrilNo, Label, StoreNo, TaskNo};

/// One line of a trace: the head of an event, an effect, an outcome, or what a program tells of its
/// fibrils.
#[derive(Drop)]
pub enum Entry {
    /// The task asks for this.
    Head(TaskNo, Request),
    /// The task is killed.
    Kill(TaskNo),
    /// The event named a task that has ended.
    Gone(TaskNo),
    /// The task is made.
    Spawn(TaskNo),
    /// The call goes to that task; where `to` is `None`, it is answered at once.
    Accepted {
        call: CallNo,
        from: Label,
        method: u64,
        to: Option<TaskNo>,
    },
    /// The task has the call from now on, and is to answer it.
    Received {
        call: CallNo,
        by: TaskNo,
    },
    /// The label is the one that the next receiver sees.
    Forwarded {
        call: CallNo,
        by: TaskNo,
        to: TaskNo,
        label: Label,
    },
    /// Answered by a task, or by the kernel where `by` is `None`.
    Answered {
        call: CallNo,
        reply: Reply,
        by: Option<TaskNo>,
    },
    /// The call is over: its caller has ended.
    Vanished(CallNo),
    /// The caller has the answer, and the call is over.
    Delivered {
        call: CallNo,
        to: TaskNo,
    },
    /// An answer that nobody waits for.
    Dropped {
        call: CallNo,
        at: TaskNo,
    },
    /// The caller of the call has ended; its receiver still has it.
    Forgotten(CallNo),
    /// The phone is in this state from now on.
    PhoneIs {
        phone: Label,
        state: PhoneState,
    },
    /// The task has a new area of so many pages, over that store.
    AreaMade {
        task: TaskNo,
        base: u64,
        pages: u64,
        rights: u64,
        store: StoreNo,
    },
    /// The task has no longer the area with this base.
    AreaGone {
        task: TaskNo,
        base: u64,
    },
    /// So many bytes, at least one, were written from an address of the task on, into that store.
    Wrote {
        task: TaskNo,
        at: u64,
        count: u64,
        store: StoreNo,
    },
    /// What the task is told.
    Outcome(Outcome),
    /// The fibril sent the call, from this slot; where `slot` is `None`, for the exchange that it
    /// begins.
    Sent {
        task: TaskNo,
        fibril: FibrilNo,
        call: CallNo,
        slot: Option<u32>,
    },
    /// The answer of the call, which the fibril sent from this slot or for the exchange that it
    /// begins, went to the fibril.
    Gets {
        task: TaskNo,
        fibril: FibrilNo,
        call: CallNo,
        slot: Option<u32>,
        reply: Reply,
    },
    /// The fibril waits for this.
    Blocks {
        task: TaskNo,
        fibril: FibrilNo,
        why: Why,
    },
    /// The fibril of a new connection, which this label leads to.
    Starts {
        task: TaskNo,
        fibril: FibrilNo,
        label: Label,
    },
    /// The fibril has ended.
    Ends {
        task: TaskNo,
        fibril: FibrilNo,
    },
    /// The fibril has begun the exchange: a new one, or a parallel one that was idle.
    Begins {
        task: TaskNo,
        fibril: FibrilNo,
        exchange: ExchangeNo,
        mode: ExchangeMode,
        session: u32,
        phone: u64,
    },
    /// The fibril has ended the exchange.
    ExchangeEnds {
        task: TaskNo,
        fibril: FibrilNo,
        exchange: ExchangeNo,
    },
    /// The task has the idle exchange no longer: its phone is hung up.
    Drops {
        task: TaskNo,
        fibril: FibrilNo,
        exchange: ExchangeNo,
    },
    /// The program itself refused what the fibril asked.
    RefusedOp {
        task: TaskNo,
        fibril: FibrilNo,
        code: Code,
    },
}
