//! The moments of a SHARE_IN.
ghost use Rattle.std.specs.Prelude.{◌≡◌};
ghost use Rattle.address_space.specs.Memory.{Did, IsAdded};
ghost use Rattle.share_hooks.specs.ShareMoments.{in_before_send, in_accept};

use address_space::Spaces;
use ipc_ids::{Code, Reply, StoreNo, TaskNo};

/// Whether a SHARE_IN may be sent. It takes no memory.
///
/// # Errors
///
/// `EPERM` where no area can have so many pages, or there are no such rights.
pub fn in_before_send(args: &[u64; 5]) -> Result<(), Code>
    ensures { result ≡ in_before_send args.now }
{
    if args[1] < 1 || args[1] > 16 || args[2] < 1 || args[2] > 3 {
        return Err(Code::EPERM);
    }
    Ok(())
}

/// Gives the caller an area over the store of an area of the task that answers, where a SHARE_IN
/// is answered with `EOK`, and tells the store. It takes no memory.
///
/// # Errors
///
/// Those of `Spaces::share`; then nothing has changed.
pub fn in_accept(
    spaces: &mut Spaces,
    caller: TaskNo,
    answerer: TaskNo,
    args: &[u64; 5],
    reply: &Reply,
) -> Result<StoreNo, Code>
    requires caller_added { IsAdded spaces.old caller }
    requires answerer_added { IsAdded spaces.old answerer }
    ensures { Did spaces.new result (in_accept spaces.old caller answerer args.now reply.now) }
{
    spaces.share(answerer, reply.args[0], caller, args[0], args[1], args[2])
}
