//! A run as words.
ghost use Rattle.std.specs.Prelude.{◌≡◌, ◌++◌, OnOk};
ghost use Rattle.std.specs.List.{flat_map};
ghost use Rattle.run_words.specs.RunWords.{any_words, run_words};

use crate::kernel::push_kernel_words;
use state_words::{push_async_program, push_block_server, push_naming_service, push_raw_program};
use std::alloc::AllocError;
use task_system::{AnyProgram, System};

/// The words of a program.
///
/// # Errors
///
/// `AllocError` where no memory was found.
pub fn push_program(program: &AnyProgram, out: &mut Vec<u64>) -> Result<(), AllocError>
    ensures { OnOk result (out.new.items ≡ out.old.items ++ any_words program.now) }
{
    match program {
        AnyProgram::Raw(program) => push_raw_program(program, out),
        AnyProgram::Naming(program) => push_naming_service(program, out),
        AnyProgram::Async(program) => push_async_program(program, out),
        AnyProgram::Block(program) => push_block_server(program, out),
    }
}

/// Those of each program.
fn push_programs(programs: &[AnyProgram], out: &mut Vec<u64>) -> Result<(), AllocError>
    ensures { OnOk result (out.new.items
        ≡ out.old.items ++ flat_map any_words programs.now) }
{
    for program in programs {
        push_program(program, out)?;
    }
    Ok(())
}

/// The words of a run's state, behind those that are there: its kernel, and then the program of each
/// task in turn. Where it fails, some of them may have been put there.
///
/// # Errors
///
/// `AllocError` where no memory was found.
pub fn push_run(system: &System, out: &mut Vec<u64>) -> Result<(), AllocError>
    ensures { OnOk result (out.new.items ≡ out.old.items ++ run_words system.now) }
{
    push_kernel_words(system.kernel(), out)?;
    push_programs(system.programs(), out)
}
