//! A live call that was found, and the key of its record.
ghost use Rattle.std.specs.Prelude.{◌≡◌, ◌+◌, ◌≤◌, Some, IsSome};
ghost use Rattle.std.specs.FinMap.{get};

use call_slab::{CallKey, Calls};
use ipc_ids::{CallNo, Steps};
use std::sync::ledger::Ledger;

/// A live call that was found, with the key of its record, as it is kept. Who reads or changes the
/// call looks its number up no more.
#[derive(Clone, Copy)]
pub struct Found {
    pub number: CallNo,
    pub(crate) kept: u32,
}

/// The key of the live call.
#[inline(always)]
pub(crate) fn key_for<L: Ledger>(calls: &Calls, found: Found, steps: &mut Steps<L>) -> CallKey
    requires live { IsSome (get calls.now.keys found.number.0) }
    ensures key { get calls.now.keys found.number.0 ≡ Some result }
    ensures steps { steps.new ≤ steps.old + 1 }
{
    match calls.key_kept(found.number, found.kept) {
        Some(key) => key,
        // A call has one key as long as it lives, so that this is not reached: with it no clause
        // has to say that the key is right.
        None => look_up(calls, found.number, steps),
    }
}

/// Looks the key of the live call with this number up.
#[cold]
#[inline(never)]
fn look_up<L: Ledger>(calls: &Calls, number: CallNo, steps: &mut Steps<L>) -> CallKey
    requires live { IsSome (get calls.now.keys number.0) }
    ensures key { get calls.now.keys number.0 ≡ Some result }
    ensures steps { steps.new ≡ steps.old + 1 }
{
    calls.key_of(number, steps).unwrap()
}
