//! The moments of a SHARE_OUT.
ghost use Rattle.std.specs.Prelude.{◌≡◌};
ghost use Rattle.address_space.specs.Memory.{Did, IsAdded};
ghost use Rattle.share_hooks.specs.ShareMoments.{out_before_send, out_accept};

use address_space::{Spaces, is_subset};
use ipc_ids::{Code, Reply, StoreNo, TaskNo};

/// Whether a SHARE_OUT may be sent. It takes no memory.
///
/// # Errors
///
/// `ENOENT` where the caller has no area of this base; `EPERM` where the area has other pages, or
/// the rights are none or not among its rights.
pub fn out_before_send(spaces: &Spaces, caller: TaskNo, args: &[u64; 5]) -> Result<(), Code>
    requires added { IsAdded spaces.now caller }
    ensures { result ≡ out_before_send spaces.now caller args.now }
{
    let Some(area) = spaces.area(caller, args[0]) else {
        return Err(Code::ENOENT);
    };
    if area.pages != args[1] {
        return Err(Code::EPERM);
    }
    if args[2] < 1 || args[2] > 3 || !is_subset(args[2], area.rights) {
        return Err(Code::EPERM);
    }
    Ok(())
}

/// Gives the task that answers an area over the store of the caller's, where a SHARE_OUT is
/// answered with `EOK`, and tells the store. It takes no memory.
///
/// # Errors
///
/// Those of `Spaces::share`; then nothing has changed.
pub fn out_accept(
    spaces: &mut Spaces,
    caller: TaskNo,
    answerer: TaskNo,
    args: &[u64; 5],
    reply: &Reply,
) -> Result<StoreNo, Code>
    requires caller_added { IsAdded spaces.old caller }
    requires answerer_added { IsAdded spaces.old answerer }
    ensures { Did spaces.new result (out_accept spaces.old caller answerer args.now reply.now) }
{
    spaces.share(caller, args[0], answerer, reply.args[0], args[1], args[2])
}
