//! The record of a call, as `call_t` of HelenOS, and the queues of an answerbox.

use ipc_ids::{Buffer, CallNo, Label, Msg, Reply, TaskNo};

/// A queue of a task's answerbox.
#[derive(Clone, Copy, PartialEq, Eq)]
pub enum Place {
    /// Calls that the task has not received yet.
    Incoming(TaskNo),
    /// Calls that the task has received and not answered.
    Dispatched(TaskNo),
    /// Answers to the task's own calls.
    Answers(TaskNo),
}

/// A call from its acceptance to its end.
#[derive(Drop)]
pub struct Call {
    pub number: CallNo,
    /// `None` once the caller has ended.
    pub caller: Option<TaskNo>,
    /// The caller and the phone that it called over.
    pub from: Label,
    /// What the receiver sees as the sender.
    pub label: Label,
    /// The method and the arguments as they were accepted.
    pub request: Msg,
    /// What the receiver sees of them.
    pub msg: Msg,
    pub reply: Reply,
    /// Whether nobody waits for the answer.
    pub discard: bool,
    /// The bytes that the call carries.
    pub buffer: Buffer,
    /// The phone that is kept for a connection.
    pub reserved: Option<Label>,
    pub place: Place,
    /// When the call came to its place: greater than that of every call that came before.
    pub stamp: u64,
}
