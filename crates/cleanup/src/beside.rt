//! The call that the program does not make: the end of a task, for who has its phones, calls and areas alone.
ghost use Rattle.std.specs.Prelude.{◌≡◌, ◌-◌, ◌<◌, ◌≤◌, ◌^◌, ◌++◌, [], Bool, true, List, IfOk, OnOk, OnErr, length, slice_set};
ghost use Rattle.std.specs.FinMap.{len};
ghost use Rattle.switchboard.specs.Sound.{IsSound};
ghost use Rattle.switchboard.specs.State.{state_from};
ghost use Rattle.switchboard.specs.Counts.{HasCounts};
ghost use Rattle.cleanup.specs.Kill.{end_parts};
ghost use Rattle.cleanup.specs.KillRoom.{kill_entries as kill_entries_of, own_calls};
ghost use Rattle.cleanup.specs.Ending.{AreUnchanged, IsJustEnded, HasFewActive, HasNumbers, UsesNumbers, state_of, all_alive};

use crate::kill::end_reserved;
use crate::kill_room::{kill_calls, kill_entries};
use address_space::Spaces;
use answerbox::Boxes;
use ipc_ids::{NoMemory, TaskNo, Trace};
use phone_table::PhoneRows;
use std::alloc::Global;
use std::mem;
use switchboard::Switchboard;

/// Brings the task, which was just marked as ended, to its end: its phones, those of others that
/// lead to it, its calls and its areas.
///
/// The marks of who is alive are the caller's, `alive`, and are not read: before the mark they
/// made a sound state with the phones, the calls and the areas, so that the kernel answers each
/// call whose caller is not the task itself.
///
/// # Errors
///
/// `NoMemory` where no memory was found for all calls and entries; then nothing has changed.
pub fn end_task(
    who: TaskNo,
    boxes: &mut Boxes,
    phones: &mut PhoneRows,
    spaces: &mut Spaces,
    out: &mut Trace,
) -> Result<(), NoMemory>
    ghost alive: { List Bool }
    requires ended { IsJustEnded alive who }
    requires sound { IsSound (state_of (slice_set alive (who.0 - 1) true) phones.old boxes.old
        spaces.old) }
    requires active { HasFewActive phones.old.counts boxes.old.calls }
    requires numbers { HasNumbers boxes.old.calls }
    requires places { length alive ≤ boxes.old.tasks }
    ensures calls { OnOk result (boxes.new.calls
        ≡ (end_parts who (state_of alive phones.old boxes.old spaces.old)).state.calls) }
    ensures phones { OnOk result (phones.new.states
        ≡ (end_parts who (state_of alive phones.old boxes.old spaces.old)).state.tasks.phones) }
    ensures areas { OnOk result (spaces.new
        ≡ (end_parts who (state_of alive phones.old boxes.old spaces.old)).state.memory) }
    ensures entries { OnOk result (out.new.entries ≡ out.old.entries
        ++ (end_parts who (state_of alive phones.old boxes.old spaces.old)).entries) }
    ensures counts { OnOk result (HasCounts phones.new.states phones.new.counts boxes.new.calls) }
    ensures used { UsesNumbers who phones.old boxes.old boxes.new }
    ensures unchanged { OnErr result (AreUnchanged boxes.old boxes.new phones.old phones.new
        spaces.old spaces.new) }
    ensures trace_unchanged { OnErr result (out.new.entries ≡ out.old.entries) }
{
    phones.check_counts();
    let _next = boxes.next_number();
    let marks = room_for_end(who, boxes, phones, spaces, out)?;
    let alloc = boxes.alloc();
    let mut board = Switchboard::of(
        marks,
        mem::replace(phones, PhoneRows::new(alloc)),
        mem::replace(boxes, Boxes::new(alloc)),
        mem::replace(spaces, Spaces::new(alloc)),
    );
    end_reserved(&mut board, who, out);
    let (rows, calls, areas) = board.into_parts();
    *phones = rows;
    *boxes = calls;
    *spaces = areas;
    Ok(())
}

/// Takes room for all calls and entries of the end of the task; the result marks every task as
/// alive.
fn room_for_end(
    who: TaskNo,
    boxes: &mut Boxes,
    phones: &PhoneRows,
    spaces: &Spaces,
    out: &mut Trace,
) -> Result<Vec<bool>, NoMemory>
    requires from_one { 1 ≤ who.0 }
    requires task { who.0 ≤ length phones.now.states }
    requires areas { who.0 ≤ length spaces.now.areas }
    requires few_calls { len boxes.old.calls.records < 2 ^ 61 }
    ensures marks { IfOk result (λ marks. marks.items ≡ all_alive (length phones.now.states)) }
    ensures few { own_calls phones.now.states who ≤ 64 }
    ensures calls_room { OnOk result (own_calls phones.now.states who ≤ boxes.new.spare) }
    ensures entries_room { OnOk result (
        kill_entries_of (state_from [] phones.now.states boxes.old.calls spaces.now 0) who
        ≤ out.new.spare) }
    ensures calls { boxes.new.calls ≡ boxes.old.calls }
    ensures places { boxes.new.tasks ≡ boxes.old.tasks }
    ensures entries { out.new.entries ≡ out.old.entries }
{
    let new_calls = kill_calls(who, phones);
    let marks = all_alive(boxes.alloc(), phones.tasks() as usize)?;
    let entries = kill_entries(who, phones, boxes, spaces)?;
    boxes.reserve(new_calls)?;
    out.reserve(entries)?;
    Ok(marks)
}

/// So many tasks that are alive.
fn all_alive(alloc: Global, n: usize) -> Result<Vec<bool>, NoMemory>
    ensures { IfOk result (λ alive. alive.items ≡ all_alive n) }
{
    match vec![in alloc; true; n] {
        Ok(alive) => Ok(alive),
        Err(_) => Err(NoMemory),
    }
}
