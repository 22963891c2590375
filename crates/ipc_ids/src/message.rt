//! Messages and replies, what a task asks of the kernel and what it is told, how exchanges share a
//! phone and what a fibril waits for, and the events of a schedule.
ghost use Rattle.std.specs.Prelude.{◌≡◌, replicate};

use crate::numbers::{CallNo, Code, Label, TaskNo};
use crate::short::Short;

/// What a call asks: a method, one of `methods` or a user's own, and five arguments.
#[derive(Clone, Copy, PartialEq, Eq)]
pub struct Msg {
    pub method: u64,
    pub args: [u64; 5],
}

/// What an answer gives.
#[derive(Clone, Copy, PartialEq, Eq)]
pub struct Reply {
    pub code: Code,
    pub args: [u64; 5],
}

/// Where a phone leads.
#[derive(Clone, Copy, PartialEq, Eq)]
pub enum PhoneState {
    /// Nowhere; a connection may take it.
    Free,
    /// It is kept for a connection that is being made.
    Connecting,
    /// To that task.
    Connected(TaskNo),
    /// Nowhere: it was hung up.
    HungUp,
    /// Nowhere: the task that it led to has ended.
    Slammed,
}

/// Whether a forwarded call shows its forwarder as the sender (`ROUTE_FROM_ME`).
#[derive(Clone, Copy, PartialEq, Eq)]
pub enum Mode {
    /// The sender stays who it was.
    Plain,
    /// The forwarder is shown.
    Route,
}

/// What a task asks of the kernel in one step.
#[derive(Drop)]
pub enum Request {
    /// Sends a call over the phone.
    Call {
        phone: u64,
        msg: Msg,
    },
    /// Takes the next answer, or else the next call.
    Receive,
    /// Answers a call that the task has received.
    Answer {
        call: u64,
        reply: Reply,
    },
    /// Passes on a call that the task has received. A `change` is what the next receiver sees in place of the message.
    Forward {
        call: u64,
        phone: u64,
        mode: Mode,
        change: Option<Msg>,
    },
    /// Hangs up the phone.
    Hangup {
        phone: u64,
    },
    /// Makes an area of so many pages from `base` on. Rights are 1 to read, 2 to write, 3 for
    /// both.
    AreaMake {
        base: u64,
        pages: u64,
        rights: u64,
    },
    /// Drops the area with this base.
    AreaDrop {
        base: u64,
    },
    /// Writes these bytes from an address on.
    Poke {
        at: u64,
        bytes: Short,
    },
    /// Reads so many bytes from an address on.
    Peek {
        at: u64,
        count: u64,
    },
    /// The step asks for nothing.
    Nothing,
}

/// What the kernel tells the task.
#[derive(PartialEq, Eq, Drop)]
pub enum Outcome {
    /// The request was done.
    Done,
    /// Nothing was done, for this reason.
    Refused(Code),
    /// The call was accepted, and has this number.
    Accepted(CallNo),
    /// A call, its message and its sender.
    Received {
        call: CallNo,
        msg: Msg,
        label: Label,
    },
    /// The answer to a call of the task.
    Answered {
        call: CallNo,
        reply: Reply,
    },
    /// There was nothing to receive.
    Empty,
    /// What a peek read.
    Bytes(Short),
}

/// How the exchanges of a session share its phone.
#[derive(Clone, Copy, PartialEq, Eq)]
pub enum ExchangeMode {
    /// Any number at a time, all over the session's phone.
    Atomic,
    /// One at a time, over the session's phone.
    Serialize,
    /// Any number at a time, each over a phone of its own.
    Parallel,
}

/// What a fibril waits for.
#[derive(Clone, Copy, PartialEq, Eq)]
pub enum Why {
    /// The answer of this call.
    Answer(CallNo),
    /// The end of the exchange that is begun of this session, from 0 to 15.
    Mutex(u32),
    /// The end of some exchange, whose phone it may then use.
    Phone,
    /// A call of its connection.
    Message,
}

/// One event of a schedule.
#[derive(Clone, Copy, PartialEq, Eq)]
pub enum Event {
    /// The task makes one step.
    Step(TaskNo),
    /// The task is killed.
    Kill(TaskNo),
    /// The phone of the task is hung up.
    Hangup(TaskNo, u64),
    /// The next task is made from the template at this place, from 0 on.
    Spawn(u32),
}

impl Outcome {
    /// The same outcome once more.
    pub fn copy(&self) -> Outcome
        ensures { result ≡ self.now }
    {
        match self {
            Outcome::Done => Outcome::Done,
            Outcome::Refused(code) => Outcome::Refused(*code),
            Outcome::Accepted(call) => Outcome::Accepted(*call),
            Outcome::Received { call, msg, label } => Outcome::Received {
                call: *call,
                msg: *msg,
                label: *label,
            },
            Outcome::Answered { call, reply } => Outcome::Answered {
                call: *call,
                reply: *reply,
            },
            Outcome::Empty => Outcome::Empty,
            Outcome::Bytes(bytes) => Outcome::Bytes(bytes.copy()),
        }
    }
}

impl Msg {
    /// A message whose arguments are 0.
    pub fn bare(method: u64) -> Msg
        ensures { result ≡ record { method = method; args = replicate 5 0 } }
    {
        Msg {
            method,
            args: [0; 5],
        }
    }
}

impl Reply {
    /// A reply whose arguments are 0, as all replies of the kernel.
    pub fn bare(code: Code) -> Reply
        ensures { result ≡ record { code = code; args = replicate 5 0 } }
    {
        Reply { code, args: [0; 5] }
    }
}
