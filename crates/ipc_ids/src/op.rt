//! What a script says: operations, and bodies of them.
ghost use Rattle.std.specs.Prelude.{◌≡◌, [], ◌∷◌, ◌++◌, OnOk, OnErr};

use crate::message::{ExchangeMode, Mode};
use crate::short::Short;
use crate::trace::NoMemory;
use std::alloc::Global;
use std::marker::Model;

/// A number, or what a register holds, `r0` to `r31`.
#[derive(Clone, Copy, PartialEq, Eq)]
pub enum Value {
    /// This number.
    Number(u64),
    /// What the register with this number from 0 to 31 holds.
    Register(u32),
}

/// One operation of a body. An argument that the script leaves out is `Value::Number(0)`. Those from
/// `CallSlot` on are those of fibrils. Slots and handles have the numbers 0 to 7, sessions 0 to 15.
#[derive(Drop)]
pub enum Op {
    /// Sends a call over the phone.
    Call {
        phone: Value,
        method: Value,
        args: [Value; 5],
    },
    /// Takes the next answer, or else the next call.
    Receive,
    /// Answers the call.
    Answer {
        call: Value,
        code: Value,
        args: [Value; 5],
    },
    /// Passes the call on over the phone.
    Forward {
        call: Value,
        phone: Value,
        mode: Mode,
    },
    /// Passes the call on with another method and other arguments.
    ForwardWith {
        call: Value,
        phone: Value,
        mode: Mode,
        method: Value,
        args: [Value; 5],
    },
    /// Hangs up the phone.
    Hangup(Value),
    /// Makes an area of so many pages.
    Area {
        base: Value,
        pages: Value,
        rights: Value,
    },
    /// Drops the area with this base.
    Unarea(Value),
    /// Writes these bytes from an address on.
    Poke {
        at: Value,
        bytes: Short,
    },
    /// Reads so many bytes from an address on.
    Peek {
        at: Value,
        count: Value,
    },
    /// Gives the register a value.
    Set {
        register: u32,
        value: Value,
    },
    /// Goes on at this place of the body.
    Jump(u32),
    /// Goes on at this place where both values are one.
    JumpEqual {
        left: Value,
        right: Value,
        to: u32,
    },
    /// Goes on at this place where the values differ.
    JumpDiffer {
        left: Value,
        right: Value,
        to: u32,
    },
    /// A call from a slot, which has no call yet.
    CallSlot {
        slot: u32,
        phone: Value,
        method: Value,
        args: [Value; 5],
    },
    /// A call from a slot, over the phone of the exchange that the handle names.
    Send {
        slot: u32,
        handle: u32,
        method: Value,
        args: [Value; 5],
    },
    /// Waits for the answer of the slot's call.
    Wait(u32),
    /// Waits for the next call of the fibril's connection.
    Next,
    /// Lets the other fibrils go on first.
    Yield,
    /// Makes a session over a phone.
    OpenSession {
        session: u32,
        phone: Value,
        mode: ExchangeMode,
    },
    /// Begins an exchange of the session, which the handle names from then on.
    Begin {
        handle: u32,
        session: u32,
    },
    /// Ends the exchange that the handle names.
    End(u32),
    /// Closes the session.
    Close(u32),
}

impl Op {
    /// The same operation once more.
    pub fn copy(&self) -> Op
        ensures { result ≡ self.now }
    {
        match self {
            Op::Call {
                phone,
                method,
                args,
            } => Op::Call {
                phone: *phone,
                method: *method,
                args: *args,
            },
            Op::Receive => Op::Receive,
            Op::Answer { call, code, args } => Op::Answer {
                call: *call,
                code: *code,
                args: *args,
            },
            Op::Forward { call, phone, mode } => Op::Forward {
                call: *call,
                phone: *phone,
                mode: *mode,
            },
            Op::ForwardWith {
                call,
                phone,
                mode,
                method,
                args,
            } => Op::ForwardWith {
                call: *call,
                phone: *phone,
                mode: *mode,
                method: *method,
                args: *args,
            },
            Op::Hangup(phone) => Op::Hangup(*phone),
            Op::Area {
                base,
                pages,
                rights,
            } => Op::Area {
                base: *base,
                pages: *pages,
                rights: *rights,
            },
            Op::Unarea(base) => Op::Unarea(*base),
            Op::Poke { at, bytes } => Op::Poke {
                at: *at,
                bytes: bytes.copy(),
            },
            Op::Peek { at, count } => Op::Peek {
                at: *at,
                count: *count,
            },
            Op::Set { register, value } => Op::Set {
                register: *register,
                value: *value,
            },
            Op::Jump(to) => Op::Jump(*to),
            Op::JumpEqual { left, right, to } => Op::JumpEqual {
                left: *left,
                right: *right,
                to: *to,
            },
            Op::JumpDiffer { left, right, to } => Op::JumpDiffer {
                left: *left,
                right: *right,
                to: *to,
            },
            Op::CallSlot {
                slot,
                phone,
                method,
                args,
            } => Op::CallSlot {
                slot: *slot,
                phone: *phone,
                method: *method,
                args: *args,
            },
            Op::Send {
                slot,
                handle,
                method,
                args,
            } => Op::Send {
                slot: *slot,
                handle: *handle,
                method: *method,
                args: *args,
            },
            Op::Wait(slot) => Op::Wait(*slot),
            Op::Next => Op::Next,
            Op::Yield => Op::Yield,
            Op::OpenSession {
                session,
                phone,
                mode,
            } => Op::OpenSession {
                session: *session,
                phone: *phone,
                mode: *mode,
            },
            Op::Begin { handle, session } => Op::Begin {
                handle: *handle,
                session: *session,
            },
            Op::End(handle) => Op::End(*handle),
            Op::Close(session) => Op::Close(*session),
        }
    }
}

/// Operations in their order.
#[derive(Drop)]
pub struct Ops {
    items: Vec<Op>,
}

impl Model for Ops {
    ghost use Rattle.std.specs.Prelude.{List};
    ghost use Rattle.ipc_ids.specs.declared.op.Op.{Op};

    ghost Value = { List Op };

    ghost view = { λ ops. ops.items.items };
}

/// What one fibril of a task does. The body of a task's connections is marked.
#[derive(Drop)]
pub struct Body {
    pub connection: bool,
    pub ops: Ops,
}

/// Bodies in the order of the script.
#[derive(Drop)]
pub struct Bodies {
    items: Vec<Body>,
}

impl Model for Bodies {
    ghost use Rattle.std.specs.Prelude.{List};
    ghost use Rattle.ipc_ids.specs.declared.op.Body.{Body};

    ghost Value = { List Body };

    ghost view = { λ bodies. bodies.items.items };
}

impl Ops {
    /// No operations; it takes no memory.
    pub fn new(alloc: Global) -> Ops
        ensures { result ≡ [] }
    {
        Ops {
            items: Vec::new(alloc),
        }
    }

    /// Adds the operation at the end.
    ///
    /// # Errors
    ///
    /// `NoMemory` where no memory was found. Nothing has changed then.
    pub fn push(&mut self, item: Op) -> Result<(), NoMemory>
        ensures ok { OnOk result (self.new ≡ self.old ++ item ∷ []) }
        ensures err { OnErr result (self.new ≡ self.old) }
    {
        match self.items.push(item) {
            Ok(()) => Ok(()),
            Err(_) => Err(NoMemory),
        }
    }

    /// The operations in their order.
    pub fn as_slice(&self) -> &[Op]
        ensures { result.now ≡ self.now }
    {
        self.items.as_slice()
    }
}

impl Bodies {
    /// No bodies; it takes no memory.
    pub fn new(alloc: Global) -> Bodies
        ensures { result ≡ [] }
    {
        Bodies {
            items: Vec::new(alloc),
        }
    }

    /// Adds the body at the end.
    ///
    /// # Errors
    ///
    /// `NoMemory` where no memory was found. Nothing has changed then.
    pub fn push(&mut self, item: Body) -> Result<(), NoMemory>
        ensures ok { OnOk result (self.new ≡ self.old ++ item ∷ []) }
        ensures err { OnErr result (self.new ≡ self.old) }
    {
        match self.items.push(item) {
            Ok(()) => Ok(()),
            Err(_) => Err(NoMemory),
        }
    }

    /// The bodies in their order.
    pub fn as_slice(&self) -> &[Body]
        ensures { result.now ≡ self.now }
    {
        self.items.as_slice()
    }
}
