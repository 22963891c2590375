//! The moments of the connecting methods.
ghost use Rattle.std.specs.Prelude.{◌≡◌, Some, slice_get};
ghost use Rattle.phone_table.specs.Phones.{with_phone};
ghost use Rattle.connect_hooks.specs.Connecting.{before_send, on_receive, accept_to_me, Did, IsKept};

use ipc_ids::{Code, PhoneNo, PhoneState, TaskNo};
use phone_table::Phones;

/// Keeps the caller's first usable phone, before a CONNECT_ME_TO is sent.
///
/// # Errors
///
/// `ELIMIT` where no phone is usable; then nothing has changed.
pub fn before_send(phones: &mut Phones) -> Result<PhoneNo, Code>
    ensures { Did phones.new result (before_send phones.old) }
{
    match phones.first_usable() {
        Some(p) => {
            phones.reserve(p);
            Ok(p)
        }
        None => Err(Code::ELIMIT),
    }
}

/// Keeps the receiver's first usable phone, where a CONNECT_TO_ME is received; `None` where no
/// phone is usable.
pub fn on_receive(phones: &mut Phones) -> Option<PhoneNo>
    ensures { Did phones.new result (on_receive phones.old) }
{
    match phones.first_usable() {
        Some(p) => {
            phones.reserve(p);
            Some(p)
        }
        None => None,
    }
}

/// Connects the phone that the receiver kept to the caller, where a CONNECT_TO_ME is answered with
/// `EOK`, and tells the code of the answer: `ELIMIT` where no phone was kept.
pub fn accept_to_me(phones: &mut Phones, kept: Option<PhoneNo>, caller: TaskNo) -> Code
    requires { IsKept phones.old kept }
    ensures { Did phones.new result (accept_to_me phones.old kept caller) }
{
    match kept {
        Some(p) => {
            phones.connect(p, caller);
            Code::EOK
        }
        None => Code::ELIMIT,
    }
}

/// Connects the phone that the caller kept to the task that answers, where a CONNECT_ME_TO is
/// answered with `EOK`.
pub fn accept_me_to(phones: &mut Phones, kept: PhoneNo, answerer: TaskNo)
    requires { slice_get phones.old.states kept.0 ≡ Some PhoneState.Connecting }
    ensures { phones.new ≡ with_phone phones.old kept.0 (PhoneState.Connected answerer) }
{
    phones.connect(kept, answerer);
}

/// Frees a kept phone, where no connection comes of the call.
pub fn release(phones: &mut Phones, kept: PhoneNo)
    requires { slice_get phones.old.states kept.0 ≡ Some PhoneState.Connecting }
    ensures { phones.new ≡ with_phone phones.old kept.0 PhoneState.Free }
{
    phones.free(kept);
}
