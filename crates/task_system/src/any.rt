//! Programs of all kinds.
ghost use Rattle.task_system.specs.Any.{wanted, after, entries, taken};

use async_task::AsyncProgram;
use block_server::BlockServer;
use ipc_ids::{NoMemory, Outcome, Program, Request, Trace};
use naming_service::NamingService;
use raw_program::RawProgram;

/// The program of a task, by the task's kind.
#[derive(Drop)]
pub enum AnyProgram {
    Raw(RawProgram),
    Naming(NamingService),
    Async(AsyncProgram),
    Block(BlockServer),
}

impl Program for AnyProgram {
    ghost wanted = { wanted };

    ghost after = { after };

    ghost entries = { entries };

    ghost taken = { taken };

    fn next(&self) -> Request {
        match self {
            AnyProgram::Raw(program) => program.next(),
            AnyProgram::Naming(program) => program.next(),
            AnyProgram::Async(program) => program.next(),
            AnyProgram::Block(program) => program.next(),
        }
    }

    fn take(&mut self, got: &Outcome, out: &mut Trace) -> Result<(), NoMemory> {
        match self {
            AnyProgram::Raw(program) => program.take(got, out),
            AnyProgram::Naming(program) => program.take(got, out),
            AnyProgram::Async(program) => program.take(got, out),
            AnyProgram::Block(program) => program.take(got, out),
        }
    }

    fn taken(&self) -> u64 {
        match self {
            AnyProgram::Raw(program) => program.taken(),
            AnyProgram::Naming(program) => program.taken(),
            AnyProgram::Async(program) => program.taken(),
            AnyProgram::Block(program) => program.taken(),
        }
    }
}
