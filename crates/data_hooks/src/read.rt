//! The moments of a DATA_READ.
ghost use Rattle.std.specs.Prelude.{◌≡◌, ◌≢◌, ◌≤◌, ◌+◌, length, IfOk};
ghost use Rattle.ipc_ids.specs.Tables.{most_buffered};
ghost use Rattle.address_space.specs.Memory.{Did, IsAdded, Tells};
ghost use Rattle.data_hooks.specs.DataMoments.{count_of, read_before_send, read_accept, read_deliver};

use crate::pool::{kept_count, read_pooled};
use address_space::{SpaceFault, Spaces};
use ipc_ids::{Buffer, Code, Reply, StoreNo, TaskNo};
use std::alloc::Global;

/// How many bytes a DATA_READ that is sent may bring.
///
/// # Errors
///
/// `ELIMIT` above 65,536 bytes, unless the call asks to be cut down.
pub fn read_before_send(args: &[u64; 5]) -> Result<u64, Code>
    ensures { result ≡ read_before_send args.now }
{
    kept_count(args)
}

/// Copies bytes of the task that answers, where a DATA_READ is answered with `EOK`; 0 bytes take
/// no memory.
///
/// # Errors
///
/// `ELIMIT` where they are more than the caller wants; `EPERM` where the task that answers may not
/// read them all; `ENOMEM` where all calls, which carry `used` bytes so far, would carry more than
/// 67,108,864 bytes; `NoMemory`.
pub fn read_accept(
    alloc: Global,
    spaces: &Spaces,
    answerer: TaskNo,
    args: &[u64; 5],
    reply: &Reply,
    used: u64,
) -> Result<Buffer, SpaceFault>
    requires added { IsAdded spaces.now answerer }
    ensures told { Tells result (read_accept spaces.now answerer args.now reply.now used) }
    ensures empty { count_of reply.now.args ≡ 0 → result ≢ Err SpaceFault.NoMemory }
    ensures fits { IfOk result (λ bytes. used + length bytes ≤ most_buffered) }
{
    if reply.args[1] > args[1] {
        return Err(SpaceFault::Refused(Code::ELIMIT));
    }
    read_pooled(alloc, spaces, answerer, reply.args[0], reply.args[1], used)
}

/// Writes the buffer to the caller, where the answer of a DATA_READ is delivered with `EOK`, and
/// tells the store; `None` where there are no bytes. It takes no memory.
///
/// # Errors
///
/// `EPERM` where the caller may not write them all; then nothing has changed.
pub fn read_deliver(
    spaces: &mut Spaces,
    caller: TaskNo,
    args: &[u64; 5],
    buffer: &Buffer,
) -> Result<Option<StoreNo>, Code>
    requires added { IsAdded spaces.old caller }
    ensures { Did spaces.new result (read_deliver spaces.old caller args.now buffer.now) }
{
    spaces.write(caller, args[0], buffer.as_slice())
}
