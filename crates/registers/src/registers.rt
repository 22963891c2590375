//! What the registers of a body hold.
ghost use Rattle.std.specs.Prelude.{◌≡◌, ◌<◌, replicate};
ghost use Rattle.ipc_ids.specs.declared.message.Outcome.TheVariants as got;
ghost use Rattle.registers.specs.Registers.{value_in, values_in, msg_in, reply_in};
ghost use Rattle.registers.specs.Registers.{memory_request_in, request_in, with_register, with_five};
ghost use Rattle.registers.specs.Registers.{told, registers_after, place_after};

use crate::place::{next_place, place_behind, place_if};
use ipc_ids::{CallNo, Code, Label, Msg, Op, Outcome, Reply, Request, Value};
use std::marker::Model;

/// The registers `r0` to `r31`.
#[derive(Drop)]
pub struct Registers {
    held: [u64; 32],
}

impl Model for Registers {
    ghost use Rattle.std.specs.Prelude.{ℕ, List};

    ghost Value = { List ℕ };

    ghost view = { λ registers. registers.held };
}

impl Registers {
    /// All hold 0.
    pub fn new() -> Registers
        ensures { result ≡ replicate 32 0 }
    {
        Registers { held: [0; 32] }
    }

    /// What each of them holds, from `r0` on.
    pub fn as_slice(&self) -> &[u64]
        ensures { result.now ≡ self.now }
    {
        self.held.as_slice()
    }

    /// A number, or what a register holds: 0 where there is none.
    pub fn value(&self, value: Value) -> u64
        ensures { result ≡ value_in self.now value }
    {
        match value {
            Value::Number(number) => number,
            Value::Register(register) => self.held.get(register as usize).copied().unwrap_or(0),
        }
    }

    #[inline(always)]
    fn values(&self, args: &[Value; 5]) -> [u64; 5]
        ensures { result ≡ values_in self.now args.now }
    {
        [
            self.value(args[0]),
            self.value(args[1]),
            self.value(args[2]),
            self.value(args[3]),
            self.value(args[4]),
        ]
    }

    /// The message of a call, or of a forward that changes it.
    pub fn msg(&self, method: Value, args: &[Value; 5]) -> Msg
        ensures { result ≡ msg_in self.now method args.now }
    {
        Msg {
            method: self.value(method),
            args: self.values(args),
        }
    }

    fn reply(&self, code: Value, args: &[Value; 5]) -> Reply
        ensures { result ≡ reply_in self.now code args.now }
    {
        Reply {
            code: Code(self.value(code)),
            args: self.values(args),
        }
    }

    /// What an operation asks that bodies of every kind have: on a held call, or on memory. The
    /// others ask nothing.
    #[inline(always)]
    pub fn request(&self, op: &Op) -> Request
        ensures { result ≡ request_in self.now op.now }
    {
        match op {
            Op::Answer { call, code, args } => Request::Answer {
                call: self.value(*call),
                reply: self.reply(*code, args),
            },
            Op::Forward { call, phone, mode } => Request::Forward {
                call: self.value(*call),
                phone: self.value(*phone),
                mode: *mode,
                change: None,
            },
            Op::ForwardWith {
                call,
                phone,
                mode,
                method,
                args,
            } => Request::Forward {
                call: self.value(*call),
                phone: self.value(*phone),
                mode: *mode,
                change: Some(self.msg(*method, args)),
            },
            _ => self.memory_request(op),
        }
    }

    #[inline(always)]
    fn memory_request(&self, op: &Op) -> Request
        ensures { result ≡ memory_request_in self.now op.now }
    {
        match op {
            Op::Area {
                base,
                pages,
                rights,
            } => Request::AreaMake {
                base: self.value(*base),
                pages: self.value(*pages),
                rights: self.value(*rights),
            },
            Op::Unarea(base) => Request::AreaDrop {
                base: self.value(*base),
            },
            Op::Poke { at, bytes } => Request::Poke {
                at: self.value(*at),
                bytes: bytes.copy(),
            },
            Op::Peek { at, count } => Request::Peek {
                at: self.value(*at),
                count: self.value(*count),
            },
            _ => Request::Nothing,
        }
    }

    /// Does the operation at a place, whose request had this outcome, and gives the place after it.
    #[inline(always)]
    pub fn step(&mut self, place: usize, op: &Op, got: &Outcome) -> usize
        ensures registers { self.new ≡ registers_after self.old op.now got.now }
        ensures place { result ≡ place_after self.old place op.now got.now }
    {
        match op {
            Op::Set { register, value } => {
                let value = self.value(*value);
                self.set(*register, value);
                next_place(place)
            }
            Op::Jump(to) => *to as usize,
            Op::JumpEqual { left, right, to } => {
                place_if(self.value(*left) == self.value(*right), *to, place)
            }
            Op::JumpDiffer { left, right, to } => {
                place_if(self.value(*left) != self.value(*right), *to, place)
            }
            _ => {
                self.tell(got);
                place_behind(place, got)
            }
        }
    }

    /// What an outcome says is in them from now on.
    #[inline(always)]
    pub fn tell(&mut self, got: &Outcome)
        ensures { self.new ≡ told self.old got.now }
    {
        match got {
            Outcome::Done | Outcome::Bytes(_) => self.tell_done(),
            Outcome::Refused(code) => self.tell_refused(*code),
            Outcome::Accepted(call) => self.tell_accepted(*call),
            Outcome::Received { call, msg, label } => self.tell_received(*call, msg, *label),
            Outcome::Answered { call, reply } => self.tell_answered(*call, reply),
            Outcome::Empty => {}
        }
    }

    /// That it was done.
    pub fn tell_done(&mut self)
        ensures { self.new ≡ told self.old got.Done }
    {
        self.set(0, 0);
    }

    /// Why it was refused.
    pub fn tell_refused(&mut self, code: Code)
        ensures { self.new ≡ told self.old (got.Refused code) }
    {
        self.set(0, code.0);
    }

    /// The number of a call that was accepted.
    pub fn tell_accepted(&mut self, call: CallNo)
        ensures { self.new ≡ told self.old (got.Accepted call) }
    {
        self.set(0, 0);
        self.set(1, call.0);
    }

    /// A call that was received.
    pub fn tell_received(&mut self, call: CallNo, msg: &Msg, label: Label)
        ensures { self.new ≡ told self.old (got.Received call msg.now label) }
    {
        self.set(0, 0);
        self.set(2, call.0);
        self.set(3, msg.method);
        self.set_five(4, &msg.args);
        self.set(16, label.task.0);
        self.set(17, label.phone.0 as u64);
    }

    /// The answer of a call.
    pub fn tell_answered(&mut self, call: CallNo, reply: &Reply)
        ensures { self.new ≡ told self.old (got.Answered call reply.now) }
    {
        self.set(0, 0);
        self.set(9, call.0);
        self.set(10, reply.code.0);
        self.set_five(11, &reply.args);
    }

    /// A register holds that. There is none from 32 on.
    fn set(&mut self, register: u32, value: u64)
        ensures { self.new ≡ with_register self.old register value }
    {
        if register < 32 {
            self.held[register as usize] = value;
        }
    }

    /// Five registers, from `first` on.
    fn set_five(&mut self, first: u32, values: &[u64; 5])
        requires { first < 1000 }
        ensures { self.new ≡ with_five self.old first values.now }
    {
        self.set(first, values[0]);
        self.set(first + 1, values[1]);
        self.set(first + 2, values[2]);
        self.set(first + 3, values[3]);
        self.set(first + 4, values[4]);
    }
}
