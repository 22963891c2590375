//! Where calls stand, and in which order they came there.
ghost use Rattle.std.specs.Prelude.{◌≡◌, ◌++◌, OnOk, IfOk};
ghost use Rattle.std.specs.Option.{option_copied};
ghost use Rattle.answerbox.specs.Calls.{same_place};
ghost use Rattle.state_words.specs.Order.{stand_of, found_stand, stands, is_sooner, rank_among};

use answerbox::Boxes;
use call_slab::{Call, Place};
use ipc_ids::CallNo;
use std::alloc::AllocError;

/// The place of a call, and its stamp.
#[derive(Clone, Copy)]
pub struct Stand {
    pub place: Place,
    pub stamp: u64,
}

/// Where a call stands, and its stamp.
pub(crate) fn stand_of(call: &Call) -> Stand
    ensures { result ≡ stand_of call.now }
{
    Stand {
        place: call.place,
        stamp: call.stamp,
    }
}

/// Whether two places are one.
fn are_one(one: Place, other: Place) -> bool
    ensures { result ≡ same_place one other }
{
    match (one, other) {
        (Place::Incoming(t), Place::Incoming(u)) => t.0 == u.0,
        (Place::Dispatched(t), Place::Dispatched(u)) => t.0 == u.0,
        (Place::Answers(t), Place::Answers(u)) => t.0 == u.0,
        _ => false,
    }
}

/// Whether one stands at the same place, and came there before.
fn is_sooner(one: Stand, other: Stand) -> bool
    ensures { result ≡ is_sooner one other }
{
    are_one(one.place, other.place) && one.stamp < other.stamp
}

/// How many of these stand at the place of this one and came there before.
pub(crate) fn rank_among(stands: &[Stand], stand: Stand) -> u64
    ensures { result ≡ rank_among stands.now stand }
{
    let mut rank = 0;
    for one in stands {
        if is_sooner(*one, stand) {
            rank += 1;
        }
    }
    rank
}

/// Puts the stand of a call behind the others, where there is a call.
fn push_stand(call: Option<&Call>, out: &mut Vec<Stand>) -> Result<(), AllocError>
    ensures { OnOk result (out.new.items ≡ out.old.items ++ found_stand (option_copied call.entry)) }
{
    match call {
        None => Ok(()),
        Some(call) => {
            out.push(stand_of(call))?;
            Ok(())
        }
    }
}

/// The stands of all live calls, by their numbers.
pub(crate) fn stands_of(boxes: &Boxes) -> Result<Vec<Stand>, AllocError>
    ensures { IfOk result (λ found. found.items ≡ stands boxes.now.calls) }
{
    let mut found = Vec::new(boxes.alloc());
    let next = boxes.next_number().0;
    for n in 0..next {
        push_stand(boxes.get(CallNo(n)), &mut found)?;
    }
    Ok(found)
}
