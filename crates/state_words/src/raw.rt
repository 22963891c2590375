//! A raw program as words.
ghost use Rattle.std.specs.Prelude.{◌≡◌, ◌++◌, OnOk};
ghost use Rattle.state_words.specs.ProgramWords.{raw_words};

use crate::parts::push_numbers;
use raw_program::RawProgram;
use std::alloc::AllocError;

/// The number of the next operation, and what the registers hold.
pub fn push_raw_program(program: &RawProgram, out: &mut Vec<u64>) -> Result<(), AllocError>
    ensures { OnOk result (out.new.items ≡ out.old.items ++ raw_words program.now) }
{
    out.push(program.place() as u64)?;
    push_numbers(program.registers(), out)
}
