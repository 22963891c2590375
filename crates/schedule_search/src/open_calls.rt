//! Calls that are not answered.
ghost use Rattle.std.specs.Prelude.{◌≡◌};
ghost use Rattle.std.specs.Option.{option_copied};
ghost use Rattle.schedule_search.specs.OpenCalls.{is_waiting, is_asked, is_open, has_open_call};

use answerbox::Boxes;
use call_slab::{Call, Place};
use ipc_ids::{CallNo, TaskNo};

/// Whether a call at this place is not answered yet.
fn is_waiting(place: Place) -> bool
    ensures { result ≡ is_waiting place }
{
    match place {
        Place::Incoming(_) | Place::Dispatched(_) => true,
        Place::Answers(_) => false,
    }
}

/// Whether the caller has not ended, and is the one that is asked for, if one is.
fn is_asked(asked: Option<TaskNo>, caller: Option<TaskNo>) -> bool
    ensures { result ≡ is_asked asked caller }
{
    match (asked, caller) {
        (_, None) => false,
        (None, Some(_)) => true,
        (Some(task), Some(caller)) => caller.0 == task.0,
    }
}

/// Whether a call that is not over is not answered, someone waits for its answer, and it is of such
/// a caller.
pub(crate) fn is_open(asked: Option<TaskNo>, call: Option<&Call>) -> bool
    ensures { result ≡ is_open asked (option_copied call.entry) }
{
    match call {
        None => false,
        Some(call) => !call.discard && (is_waiting(call.place) && is_asked(asked, call.caller)),
    }
}

/// Whether one of the calls so far is such a call.
pub(crate) fn has_open_call(asked: Option<TaskNo>, boxes: &Boxes) -> bool
    ensures { result ≡ has_open_call asked boxes.now.calls }
{
    let next = boxes.next_number().0;
    for n in 0..next {
        if is_open(asked, boxes.get(CallNo(n))) {
            return true;
        }
    }
    false
}
