//! How many bytes a call keeps, and whether there is room for them beside those of all other calls.
ghost use Rattle.std.specs.Prelude.{◌≡◌, ◌≢◌, ◌≤◌, ◌+◌, length, IfOk};
ghost use Rattle.ipc_ids.specs.Tables.{most_buffered};
ghost use Rattle.address_space.specs.Memory.{IsAdded, Tells, read};
ghost use Rattle.data_hooks.specs.DataMoments.{cut_args, kept_count, pooled};

use crate::{MOST_BUFFERED, MOST_DATA};
use address_space::{SpaceFault, Spaces};
use ipc_ids::{Buffer, Code, TaskNo};
use std::alloc::Global;

/// How many bytes a call keeps: as many as it asks for, or the most where it asks for more and, by
/// its third argument, to be cut down.
///
/// # Errors
///
/// `ELIMIT` above 65,536 bytes.
pub(crate) fn kept_count(args: &[u64; 5]) -> Result<u64, Code>
    ensures { result ≡ kept_count args.now }
{
    if args[1] > MOST_DATA {
        if args[2] == 1 {
            return Ok(MOST_DATA);
        }
        return Err(Code::ELIMIT);
    }
    Ok(args[1])
}

/// The arguments of a call, with the second cut down to the most.
pub fn cut_args(args: &[u64; 5]) -> [u64; 5]
    ensures { result ≡ cut_args args.now }
{
    let mut cut = *args;
    if cut[1] > MOST_DATA {
        cut[1] = MOST_DATA;
    }
    cut
}

/// Copies bytes of a task, where there is room for them.
///
/// # Errors
///
/// `EPERM` where the task may not read them all; `ENOMEM` where all calls would carry more than
/// 67,108,864 bytes; `NoMemory`.
#[tactic(auto, using(crate::proofs::Pooled::full_pooled, crate::proofs::Pooled::refused_pooled, crate::proofs::Pooled::room_pooled))]
#[inline(always)]
pub(crate) fn read_pooled(
    alloc: Global,
    spaces: &Spaces,
    t: TaskNo,
    at: u64,
    count: u64,
    used: u64,
) -> Result<Buffer, SpaceFault>
    requires added { IsAdded spaces.now t }
    ensures told { Tells result (pooled used count (read spaces.now t at count)) }
    ensures empty { count ≡ 0 → result ≢ Err SpaceFault.NoMemory }
    ensures fits { IfOk result (λ bytes. used + length bytes ≤ most_buffered) }
{
    if used.saturating_add(count) > MOST_BUFFERED {
        return match spaces.may_read(t, at, count) {
            Ok(()) => Err(SpaceFault::Refused(Code::ENOMEM)),
            Err(code) => Err(SpaceFault::Refused(code)),
        };
    }
    spaces.read(alloc, t, at, count)
}
