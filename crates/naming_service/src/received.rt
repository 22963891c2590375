//! A call as the naming service received it, what it asks, and what the service does to it.
ghost use Rattle.std.specs.Prelude.{◌≡◌};
ghost use Rattle.naming_service.specs.Naming.{asked_by, answering, forwarding};
ghost use Rattle.naming_service.specs.Naming.{telling};
ghost use Rattle.task_ends.specs.EndLaw.{end_arguments};
ghost use Rattle.naming_service.specs.Naming.{service_of, phone_given, is_blocking};

use ipc_ids::methods::{CONNECT_ME_TO, CONNECT_TO_ME, PHONE_HUNGUP};
use ipc_ids::{CallNo, Code, Label, Msg, Reply};
use task_ends::End;

/// The caller's task introduces itself.
pub const INTRODUCE_SELF: u64 = 512;

/// The caller's task leaves a value.
pub const LEAVE_VALUE: u64 = 513;

/// The caller waits for the end of a task.
pub const WAIT_FOR: u64 = 514;

/// A call that the service has received and not dealt with.
#[derive(Clone, Copy)]
pub struct ReceivedCall {
    pub number: CallNo,
    pub msg: Msg,
    pub label: Label,
}

/// What the service will do to a call that it holds.
#[derive(Clone, Copy)]
pub enum Work {
    Answer { call: CallNo, reply: Reply },
    /// The next receiver sees this message.
    Forward { call: CallNo, phone: u64, msg: Msg },
}

/// What a received call asks of the service.
#[derive(Clone, Copy)]
pub enum Asked {
    /// The caller is a service from now on, at the phone that leads to it.
    Register,
    /// The caller wants a phone that leads to a service.
    Connect,
    /// The caller's task introduces itself.
    Introduce,
    /// The caller's task leaves a value.
    Leave,
    /// The caller waits for the end of a task.
    Wait,
    /// Nothing: a phone was hung up.
    HungUp,
    /// What the service does not know.
    Other,
}

impl Asked {
    /// What a call with this method asks.
    pub fn by(method: u64) -> Asked
        ensures { result ≡ asked_by method }
    {
        match method {
            PHONE_HUNGUP => Asked::HungUp,
            CONNECT_TO_ME => Asked::Register,
            CONNECT_ME_TO => Asked::Connect,
            INTRODUCE_SELF => Asked::Introduce,
            LEAVE_VALUE => Asked::Leave,
            WAIT_FOR => Asked::Wait,
            _ => Asked::Other,
        }
    }
}

impl ReceivedCall {
    /// The service that the call names.
    pub fn service(&self) -> u64
        ensures { result ≡ service_of self.now }
    {
        self.msg.args[0]
    }

    /// The phone that leads to the caller, once the call is accepted.
    pub fn phone_given(&self) -> u64
        ensures { result ≡ phone_given self.now }
    {
        self.msg.args[4]
    }

    /// Whether the call waits for a service that is not there yet.
    pub fn is_blocking(&self) -> bool
        ensures { result ≡ is_blocking self.now }
    {
        self.msg.args[3] == 1
    }
}

/// The arguments of an answer that tells of an end.
fn end_arguments(end: End) -> [u64; 5]
    ensures { result ≡ end_arguments end }
{
    if end.has {
        [1, end.value, 0, 0, 0]
    } else {
        [0; 5]
    }
}

impl Work {
    /// Tells the call of an end.
    pub fn telling(end: End, call: CallNo) -> Work
        ensures { result ≡ telling end call }
    {
        Work::Answer {
            call,
            reply: Reply {
                code: Code::EOK,
                args: end_arguments(end),
            },
        }
    }

    /// Answers the call with a code and no arguments.
    pub fn answering(call: CallNo, code: Code) -> Work
        ensures { result ≡ answering call code }
    {
        Work::Answer {
            call,
            reply: Reply::bare(code),
        }
    }

    /// Passes the call on over a phone, with its second and its third argument.
    pub fn forwarding(received: &ReceivedCall, phone: u64) -> Work
        ensures { result ≡ forwarding phone received.now }
    {
        let args = received.msg.args;
        Work::Forward {
            call: received.number,
            phone,
            msg: Msg {
                method: CONNECT_ME_TO,
                args: [args[1], args[2], 0, 0, 0],
            },
        }
    }
}
