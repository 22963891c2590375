//! A call that the program does not make, for who uses the crate alone: the laws of a whole list at
//! once. The program gives its entries to `Laws` one by one.
ghost use Rattle.std.specs.Prelude.{IfOk};
ghost use Rattle.law_check.specs.Verdict.{IsVerdict};

use crate::areas::is_head;
use crate::verdict::{Laws, Verdict};
use ipc_ids::{Entry, NoMemory};
use std::alloc::Global;

/// Tells whether the entries satisfy the law of a call's life, of one answer, of a kill and of
/// shared areas, and if not, which of them is the first that fails. Any list may be given.
///
/// # Errors
///
/// `NoMemory` where memory ran out.
pub fn check_laws(alloc: Global, entries: &[Entry]) -> Result<Verdict, NoMemory>
    ensures { IfOk result (λ verdict. IsVerdict entries.now verdict) }
{
    let mut laws = Laws::new(alloc);
    let mut now = None;
    let mut last = None;
    for entry in entries {
        laws.take(now, last, entry)?;
        if is_head(entry) {
            now = Some(entry);
        }
        last = Some(entry);
    }
    Ok(laws.verdict())
}
