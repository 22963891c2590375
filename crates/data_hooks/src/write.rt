//! The moments of a DATA_WRITE.
ghost use Rattle.std.specs.Prelude.{◌≡◌, ◌≢◌, ◌≤◌, ◌+◌, length, IfOk};
ghost use Rattle.ipc_ids.specs.Tables.{most_buffered};
ghost use Rattle.address_space.specs.Memory.{Did, IsAdded, Tells};
ghost use Rattle.data_hooks.specs.DataMoments.{count_of, write_before_send, write_accept};

use crate::pool::{kept_count, read_pooled};
use address_space::{SpaceFault, Spaces};
use ipc_ids::{Buffer, Code, Reply, StoreNo, TaskNo};
use std::alloc::Global;

/// Copies the caller's bytes, before a DATA_WRITE is sent; 0 bytes take no memory.
///
/// # Errors
///
/// `ELIMIT` above 65,536 bytes, unless the call asks to be cut down; `EPERM` where the caller may
/// not read them all; `ENOMEM` where all calls, which carry `used` bytes so far, would carry more
/// than 67,108,864 bytes; `NoMemory`.
pub fn write_before_send(
    alloc: Global,
    spaces: &Spaces,
    caller: TaskNo,
    args: &[u64; 5],
    used: u64,
) -> Result<Buffer, SpaceFault>
    requires added { IsAdded spaces.now caller }
    ensures told { Tells result (write_before_send spaces.now caller args.now used) }
    ensures empty { count_of args.now ≡ 0 → result ≢ Err SpaceFault.NoMemory }
    ensures fits { IfOk result (λ bytes. used + length bytes ≤ most_buffered) }
{
    match kept_count(args) {
        Ok(count) => read_pooled(alloc, spaces, caller, args[0], count, used),
        Err(code) => Err(SpaceFault::Refused(code)),
    }
}

/// Writes the first bytes of the buffer, as many as the reply wants, where a DATA_WRITE is
/// answered with `EOK`, and tells the store; `None` where there are no bytes. It takes no memory.
///
/// # Errors
///
/// `ELIMIT` where the buffer has fewer bytes; `EPERM` where the task that answers may not write
/// them all; then nothing has changed.
pub fn write_accept(
    spaces: &mut Spaces,
    answerer: TaskNo,
    buffer: &Buffer,
    reply: &Reply,
) -> Result<Option<StoreNo>, Code>
    requires added { IsAdded spaces.old answerer }
    ensures { Did spaces.new result (write_accept spaces.old answerer buffer.now reply.now) }
{
    let bytes = buffer.as_slice();
    if reply.args[1] > bytes.len() as u64 {
        return Err(Code::ELIMIT);
    }
    spaces.write(answerer, reply.args[0], &bytes[..reply.args[1] as usize])
}
