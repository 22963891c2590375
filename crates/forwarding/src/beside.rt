//! A call that the program does not make, for who has boxes and no kernel: a whole forward. The
//! kernel asks `receiver_of`, `msg_after` and `label_after`, and then has its switchboard pass the
//! call on.
ghost use Rattle.std.specs.Prelude.{◌≡◌, ◌+◌, ◌<◌, ◌≤◌, ◌^◌, IfSome};
ghost use Rattle.forwarding.specs.Forwarding.{LeadsWithin};
ghost use Rattle.forwarding.specs.Routes.{forward_answer, table_after, KeepsActive};

use crate::passing::{ForwardFault, Forwarded, label_after, msg_after, receiver_of};
use answerbox::Boxes;
use call_slab::{Change, Place};
use ipc_ids::{CallNo, Mode, Msg, PhoneNo, PhoneState, TaskNo};

/// Passes the call `call`, which `by` holds, on over its phone `through`, whose state is `phone`.
/// A phone that the call keeps stays with it.
///
/// # Errors
///
/// `NotHeld`, `NotForwardable` and `NotConnected`, tested in this order; then nothing has changed.
pub fn route(
    boxes: &mut Boxes,
    by: TaskNo,
    phone: Option<PhoneState>,
    through: u64,
    call: u64,
    mode: Mode,
    change: Option<Msg>,
) -> Result<Forwarded, ForwardFault>
    requires through { IfSome phone (λ _. through < 64) }
    requires task { LeadsWithin boxes.old.tasks phone }
    requires few_stamps { boxes.old.calls.next_stamp < 2 ^ 63 }
    ensures answer { result ≡ forward_answer boxes.old.calls by phone call change }
    ensures calls { boxes.new.calls ≡ table_after boxes.old.calls by through mode change result }
    ensures tasks { boxes.new.tasks ≡ boxes.old.tasks }
    ensures spare { boxes.new.spare ≡ boxes.old.spare }
    ensures stamps { boxes.new.calls.next_stamp ≤ boxes.old.calls.next_stamp + 1 }
    ensures active { KeepsActive boxes.old.calls boxes.new.calls }
{
    let Some(found) = boxes.find(CallNo(call)) else {
        return Err(ForwardFault::NotHeld);
    };
    let record = boxes.read(found);
    match receiver_of(record, by, phone, change) {
        Err(fault) => Err(fault),
        Ok(to) => {
            let msg = msg_after(record, change);
            let label = label_after(record, by, PhoneNo(through as u32), mode);
            let change = Change::Address(msg, label, record.reserved);
            boxes.go_uncounted(found, change, Place::Incoming(to));
            let call = found.number;
            Ok(Forwarded { call, to })
        }
    }
}
