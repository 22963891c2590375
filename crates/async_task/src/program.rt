//! The program of an async task.
ghost use Rattle.std.specs.Prelude.{◌≡◌, ◌+◌, ◌++◌, ◌^◌, ◌<◌, ◌≤◌, OnOk, IfOk, length, slice_get, true};
ghost use Rattle.fibril_core.specs.Fibrils.{IsWithinBounds};
ghost use Rattle.async_task.specs.AsyncState.{Grows};
ghost use Rattle.async_task.specs.Steps.{start_bodies, start_at, start_in};
ghost use Rattle.async_task.specs.Program.{wanted, after, entries, taken, started};

use crate::awaited::Awaited;
use crate::context::Context;
use crate::contexts::Contexts;
use crate::machine::Machine;
use async_sessions::Sessions;
use fibril_core::{Conns, Fibrils};
use ipc_ids::{
    Bodies, Body, CallNo, Code, NoMemory, Op, Ops, Outcome, Program, Request, TaskNo, Trace,
};
use std::alloc::Global;
use std::marker::Model;

/// The program of a task whose bodies run in fibrils, and how many outcomes it took.
#[derive(Drop)]
pub struct AsyncProgram {
    machine: Machine,
    taken: u64,
}

impl Model for AsyncProgram {
    ghost use Rattle.async_task.specs.Program.{AsyncTask, IsWithinCount};

    ghost Value = { AsyncTask };

    ghost view = { λ p. record { state = p.machine.state; taken = p.taken } };

    ghost invariant = { λ p. IsWithinCount p.machine.state p.taken };
}

impl Program for AsyncProgram {
    ghost wanted = { wanted };

    ghost after = { after };

    ghost entries = { entries };

    ghost taken = { taken };

    fn next(&self) -> Request {
        self.machine.next()
    }

    fn take(&mut self, got: &Outcome, out: &mut Trace) -> Result<(), NoMemory> {
        self.machine.step(got, out)?;
        self.taken += 1;
        Ok(())
    }

    fn taken(&self) -> u64 {
        self.taken
    }
}

impl AsyncProgram {
    /// The program of a task of that number: a fibril before the first operation of each body, but
    /// for that of connections, in which a fibril starts with each connection.
    ///
    /// # Errors
    ///
    /// `NoMemory` where no memory was found.
    pub fn new(alloc: Global, me: TaskNo, bodies: &[Body]) -> Result<AsyncProgram, NoMemory>
        requires few { length bodies.now ≤ 2 ^ 16 }
        ensures { IfOk result (λ task. task ≡ record { state = started me bodies.now; taken = 0 }) }
    {
        let mut machine = Machine::new(alloc, me, copies_of(alloc, bodies)?);
        machine.start_bodies(bodies.len())?;
        Ok(AsyncProgram { machine, taken: 0 })
    }

    /// The fibrils of the task. Takes no memory.
    pub fn fibrils(&self) -> &Fibrils
        ensures { result.now.order ≡ self.now.state.order }
    {
        &self.machine.fibrils
    }

    /// What the fibrils keep: fibril 1 at place 0, and so on. Takes no memory.
    pub fn contexts(&self) -> &Contexts
        ensures { result.now.kept ≡ self.now.state.contexts }
    {
        &self.machine.contexts
    }

    /// The connections of the task. Takes no memory.
    pub fn conns(&self) -> &Conns
        ensures { result.now.conns ≡ self.now.state.conns }
    {
        &self.machine.conns
    }

    /// The sessions of the task and their exchanges. Takes no memory.
    pub fn sessions(&self) -> &Sessions
        ensures { result.now.now ≡ self.now.state.pool }
    {
        &self.machine.sessions
    }

    /// The calls whose answers are awaited, in the order in which they were sent, in two slices.
    /// Takes no memory.
    pub fn awaited(&self) -> (&[Awaited], &[Awaited])
        ensures { result.0.now ++ result.1.now ≡ self.now.state.awaited }
    {
        self.machine.awaited.as_slices()
    }

    /// The answers that the task owes, in the order in which it gives them, in two slices. Takes no
    /// memory.
    pub fn work(&self) -> (&[(CallNo, Code)], &[(CallNo, Code)])
        ensures { result.0.now ++ result.1.now ≡ self.now.state.work }
    {
        self.machine.work.as_slices()
    }
}

impl Machine {
    /// A fibril starts in each of the first `n` bodies, but for that of connections.
    fn start_bodies(&mut self, n: usize) -> Result<(), NoMemory>
        requires few { length self.old.state.order.fibrils + n < 2 ^ 32 }
        requires few_stamps { self.old.state.order.next_stamp + n < 2 ^ 61 }
        ensures state { OnOk result (self.new.state ≡ start_bodies n self.old.state) }
        ensures grows { OnOk result (Grows n self.old.state self.new.state) }
    {
        for i in 0..n {
            self.start_at(i)?;
        }
        Ok(())
    }

    /// A fibril starts in the body with this number, unless that is the body of connections.
    fn start_at(&mut self, i: usize) -> Result<(), NoMemory>
        requires bounds { IsWithinBounds self.old.state.order }
        ensures state { OnOk result (self.new.state
            ≡ start_at i (slice_get self.old.state.bodies i) self.old.state) }
        ensures grows { OnOk result (Grows 1 self.old.state self.new.state) }
    {
        match self.bodies.as_slice().get(i) {
            Some(body) => {
                let connection = body.connection;
                self.start_in(i, connection)
            }
            None => Ok(()),
        }
    }

    fn start_in(&mut self, i: usize, connection: bool) -> Result<(), NoMemory>
        requires bounds { IsWithinBounds self.old.state.order }
        ensures state { OnOk result (self.new.state ≡ start_in i connection self.old.state) }
        ensures grows { OnOk result (Grows 1 self.old.state self.new.state) }
    {
        if connection {
            return Ok(());
        }
        self.reserve_fibril()?;
        self.add_fibril(Context::new(self.alloc(), i));
        Ok(())
    }
}

/// Each body once more.
fn copies_of(alloc: Global, bodies: &[Body]) -> Result<Bodies, NoMemory>
    ensures { IfOk result (λ copies. copies ≡ bodies.now) }
{
    let mut copies = Bodies::new(alloc);
    for body in bodies {
        let ops = copies_of_ops(alloc, body.ops.as_slice())?;
        copies.push(Body {
            connection: body.connection,
            ops,
        })?;
    }
    Ok(copies)
}

/// Each operation once more.
fn copies_of_ops(alloc: Global, ops: &[Op]) -> Result<Ops, NoMemory>
    ensures { IfOk result (λ copies. copies ≡ ops.now) }
{
    let mut copies = Ops::new(alloc);
    for op in ops {
        copies.push(op.copy())?;
    }
    Ok(copies)
}
