//! How a call comes to its two lists, moves, is forgotten and leaves.
ghost use Rattle.std.specs.Prelude.{◌≡◌, ◌+◌, ◌*◌, ◌^◌, ◌<◌, ◌≤◌, None, Some, IsSome, IfSome, length};
ghost use Rattle.std.specs.FinMap.{get, insert, remove};
ghost use Rattle.call_slab.specs.Calls.{name_of, call_of};
ghost use Rattle.answerbox.specs.declared.chains.Chain.TheVariants.{Queue, Own};
ghost use Rattle.answerbox.specs.Calls.{task_of};
ghost use Rattle.answerbox.specs.Chain.{place_index, row_of, with_slots, Chained, AreLinked, AreFew, appended_rows};
ghost use Rattle.answerbox.specs.Moving.{out_rows, moved_slots, moved_rows, new_slots, MayCome, left_slots, forgotten_slots};

use crate::chains::{Chain, Ends, append, index_of, unlink};
use call_slab::{Call, CallKey, Calls, Place};
use ipc_ids::Steps;
use std::sync::ledger::{Blank, Ledger};

/// Moves a call to the end of the queue of that place, with that stamp.
#[inline(always)]
pub fn relocate<L: Ledger>(
    calls: &mut Calls,
    queues: &mut Vec<Ends>,
    key: CallKey,
    place: Place,
    stamp: u64,
    steps: &mut Steps<L>,
)
    requires queued { Chained Queue calls.old.slots queues.old.items stamp }
    requires live { IsSome (get calls.old.slots key) }
    requires within { place_index place < length queues.old.items }
    requires counts { AreFew queues.old.items }
    requires few { length queues.old.items < 2 ^ 63 }
    ensures calls { calls.new ≡ with_slots calls.old
        (moved_slots calls.old.slots queues.old.items key place stamp) }
    ensures rows { queues.new.items ≡ moved_rows calls.old.slots queues.old.items key place }
    ensures steps { steps.new ≤ steps.old + 11 }
{
    let row = Chain::Queue.row_of(calls.get(key, steps));
    let links = calls.links(key, steps);
    unlink(calls, queues, Chain::Queue, row, &links, steps);
    calls.set_place(key, place, stamp, steps);
    append(
        calls,
        queues,
        Chain::Queue,
        Some(index_of(place)),
        key,
        steps,
    );
}

/// Puts a new call at the end of its queue and of the list of its caller.
#[inline(always)]
pub fn admit<L: Ledger>(
    calls: &mut Calls,
    queues: &mut Vec<Ends>,
    owns: &mut Vec<Ends>,
    call: Call,
    blank: Blank,
) -> CallKey
    requires blank { (blank.name ≡ L.name) × (blank.parts ≡ L.parts) × (0 < blank.parts) }
    requires may { MayCome calls.old queues.old.items owns.old.items call }
    requires few { length queues.old.items < 2 ^ 63 }
    ensures fresh { get calls.old.slots result ≡ None }
    ensures slots { calls.new.slots ≡
        new_slots calls.old.slots queues.old.items owns.old.items result call }
    ensures keys { calls.new.keys ≡ insert calls.old.keys call.number.0 result }
    ensures last { calls.new.last ≡ call.number.0 }
    ensures spare { calls.old.spare ≤ calls.new.spare + 1 }
    ensures queues { queues.new.items ≡ appended_rows queues.old.items (row_of Queue call) result }
    ensures owns { owns.new.items ≡ appended_rows owns.old.items (row_of Own call) result }
{
    let mut steps = Steps::<L>::new(blank);
    let row = Chain::Queue.row_of(&call);
    let own = Chain::Own.row_of(&call);
    let key = calls.put(call);
    append(calls, queues, Chain::Queue, row, key, &mut steps);
    append(calls, owns, Chain::Own, own, key, &mut steps);
    key
}

/// Takes a call out of its queue and of the list of its caller, and returns its record.
#[inline(always)]
pub fn dismiss<L: Ledger>(
    calls: &mut Calls,
    queues: &mut Vec<Ends>,
    owns: &mut Vec<Ends>,
    key: CallKey,
    steps: &mut Steps<L>,
) -> Call
    requires lists { AreLinked calls.old.slots queues.old.items owns.old.items }
    requires live { IsSome (get calls.old.slots key) }
    requires few { length queues.old.items < 2 ^ 63 }
    ensures call { call_of (get calls.old.slots key) ≡ Some result }
    ensures slots { calls.new.slots ≡ left_slots calls.old.slots key }
    ensures keys { calls.new.keys ≡ remove calls.old.keys (name_of (get calls.old.slots key)) }
    ensures last { calls.new.last ≡ calls.old.last }
    ensures spare { calls.old.spare ≤ calls.new.spare }
    ensures rows { (queues.new.items ≡ out_rows Queue calls.old.slots queues.old.items key)
        × (owns.new.items ≡ out_rows Own calls.old.slots owns.old.items key) }
    ensures steps { steps.new ≤ steps.old + 11 }
{
    let call = calls.get(key, steps);
    let row = Chain::Queue.row_of(call);
    let own = Chain::Own.row_of(call);
    let links = calls.links(key, steps);
    unlink(calls, queues, Chain::Queue, row, &links, steps);
    unlink(calls, owns, Chain::Own, own, &links, steps);
    calls.take_out(key, steps)
}

/// Takes a call out of the list of its caller, who has ended.
pub fn disown<L: Ledger>(
    calls: &mut Calls,
    queues: &[Ends],
    owns: &mut Vec<Ends>,
    key: CallKey,
    steps: &mut Steps<L>,
)
    requires lists { AreLinked calls.old.slots queues.now owns.old.items }
    requires live { IsSome (get calls.old.slots key) }
    requires few { length queues.now < 2 ^ 63 }
    ensures calls { calls.new ≡ with_slots calls.old (forgotten_slots calls.old.slots key) }
    ensures owns { owns.new.items ≡ out_rows Own calls.old.slots owns.old.items key }
{
    let row = Chain::Own.row_of(calls.get(key, steps));
    let links = calls.links(key, steps);
    unlink(calls, owns, Chain::Own, row, &links, steps);
    calls.clear_caller(key, steps);
}
