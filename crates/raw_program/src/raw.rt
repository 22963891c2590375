//! The raw program, which does one operation of its body at a time.
ghost use Rattle.std.specs.Prelude.{◌≡◌, ◌+◌, ◌^◌, ◌<◌, ◌++◌, true, IfOk, IsOk};
ghost use Rattle.ipc_ids.specs.Program.{fits};
ghost use Rattle.raw_program.specs.Raw.{started, request_of, wanted, after, entries, taken};

use crate::operations::Operations;
use ipc_ids::{NoMemory, Op, Outcome, Program, Request, Trace};
use registers::Registers;
use std::alloc::Global;
use std::marker::Model;

/// Operations, the number of the next one, the registers `r0` to `r31`, and how many outcomes came.
#[derive(Drop)]
pub struct RawProgram {
    ops: Operations,
    place: usize,
    registers: Registers,
    taken: u64,
}

impl Model for RawProgram {
    ghost use Rattle.raw_program.specs.Raw.{RawState};

    ghost Value = { RawState };

    ghost view = { λ a. record {
      ops = a.ops;
      place = a.place;
      registers = a.registers;
      taken = a.taken;
    } };
}

impl Program for RawProgram {
    ghost wanted = { wanted };

    ghost after = { after };

    ghost entries = { entries };

    ghost taken = { taken };

    fn next(&self) -> Request {
        match self.ops.get(self.place) {
            Some(op) => self.request(op),
            None => Request::Nothing,
        }
    }

    /// Takes the outcome of what `next` gives. Takes no memory.
    fn take(&mut self, got: &Outcome, out: &mut Trace) -> Result<(), NoMemory>
        requires few { taken self.old < 2 ^ 24 }
        requires fits { fits (wanted self.old) got.now ≡ true }
        ensures no_want { IsOk result }
        ensures state { self.new ≡ after self.old got.now }
        ensures entries { out.new.entries ≡ out.old.entries ++ entries self.old got.now }
        ensures taken { taken self.new ≡ taken self.old + 1 }
    {
        if let Some(op) = self.ops.get(self.place) {
            self.place = self.registers.step(self.place, op, got);
        }
        self.taken += 1;
        Ok(())
    }

    fn taken(&self) -> u64 {
        self.taken
    }
}

impl RawProgram {
    /// A program before its first operation, with 0 in all registers.
    ///
    /// # Errors
    ///
    /// `NoMemory` where no memory was found.
    pub fn new(alloc: Global, ops: &[Op]) -> Result<RawProgram, NoMemory>
        ensures { IfOk result (λ raw. raw ≡ started ops.now) }
    {
        Ok(RawProgram {
            ops: Operations::copy_of(alloc, ops)?,
            place: 0,
            registers: Registers::new(),
            taken: 0,
        })
    }

    /// The number of the next operation, from 0 on. At or past the end of the body there is none.
    pub fn place(&self) -> usize
        ensures { result ≡ self.now.place }
    {
        self.place
    }

    /// What each of the 32 registers holds, from `r0` on. Takes no memory.
    pub fn registers(&self) -> &[u64]
        ensures { result.now ≡ self.now.registers }
    {
        self.registers.as_slice()
    }

    fn request(&self, op: &Op) -> Request
        ensures { result ≡ request_of self.now.registers op.now }
    {
        match op {
            Op::Call {
                phone,
                method,
                args,
            } => Request::Call {
                phone: self.registers.value(*phone),
                msg: self.registers.msg(*method, args),
            },
            Op::Receive => Request::Receive,
            Op::Hangup(phone) => Request::Hangup {
                phone: self.registers.value(*phone),
            },
            _ => self.registers.request(op),
        }
    }
}
