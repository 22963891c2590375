//! The end of a task that is alone, for who has its phones, calls and areas.
ghost use Rattle.std.specs.Prelude.{◌≡◌, OnOk};
ghost use Rattle.address_space.specs.Memory.{no_memory};
ghost use Rattle.answerbox.specs.Calls.{no_calls};
ghost use Rattle.phone_table.specs.Phones.{no_rows};
ghost use Rattle.crate_tests.specs.EndStart.{own_phones, no_counts, own_area};

use address_space::Spaces;
use answerbox::Boxes;
use cleanup::end_task;
use ipc_ids::{CallNo, Entry, NoMemory, PhoneNo, PhoneState, TaskNo, Trace};
use phone_table::{PhoneRows, Phones};
use std::alloc::Global;
use std::test::Fail;

/// One task comes, with an area of a page.
fn one_area(spaces: &mut Spaces) -> Result<(), NoMemory>
    requires none { spaces.old ≡ no_memory }
    ensures { OnOk result (spaces.new ≡ own_area) }
{
    spaces.add_task()?;
    match spaces.make(TaskNo(1), 4096, 1, 3) {
        Ok(_store) => Ok(()),
        Err(_) => Err(NoMemory),
    }
}

/// One task comes, whose first of two phones leads to itself.
fn own_phone(phones: &mut PhoneRows) -> Result<(), NoMemory>
    requires none { phones.old ≡ no_rows }
    ensures { OnOk result (phones.new ≡ record { states = own_phones; counts = no_counts }) }
{
    let mut row = Phones::new(2);
    row.wire(PhoneNo(0), TaskNo(1));
    phones.add(row)
}

/// A hangup that the task tells itself is accepted.
fn is_accepted(entry: &Entry) -> bool {
    matches!(
        entry,
        Entry::Accepted {
            call: CallNo(1),
            method: 0,
            to: Some(TaskNo(1)),
            ..
        }
    )
}

fn is_hung_up(entry: &Entry) -> bool {
    matches!(
        entry,
        Entry::PhoneIs {
            state: PhoneState::HungUp,
            ..
        }
    )
}

fn has_vanished(entry: &Entry) -> bool {
    matches!(entry, Entry::Vanished(CallNo(1)))
}

fn is_gone(entry: &Entry) -> bool {
    matches!(
        entry,
        Entry::AreaGone {
            task: TaskNo(1),
            base: 4096
        }
    )
}

/// The entries of a hangup that the task tells itself, and of an area.
fn are_of_the_end(entries: &[Entry]) -> bool {
    match entries {
        [call, phone, end, area] => {
            is_accepted(call) && is_hung_up(phone) && has_vanished(end) && is_gone(area)
        }
        _ => false,
    }
}

/// Whether the task ends with these entries, and nothing of it is left.
fn is_ended(
    boxes: &mut Boxes,
    phones: &mut PhoneRows,
    spaces: &mut Spaces,
    out: &mut Trace,
) -> Result<bool, NoMemory>
    requires calls { boxes.old.calls ≡ no_calls }
    requires tasks { boxes.old.tasks ≡ 1 }
    requires phones { phones.old ≡ record { states = own_phones; counts = no_counts } }
    requires spaces { spaces.old ≡ own_area }
{
    end_task(TaskNo(1), boxes, phones, spaces, out)?;
    let is_over = boxes.get(CallNo(1)).is_none() && phones.tasks() == 1;
    Ok(is_over && are_of_the_end(out.entries()))
}

/// Whether it does so, where there is no task yet.
fn comes_and_ends(
    boxes: &mut Boxes,
    phones: &mut PhoneRows,
    spaces: &mut Spaces,
    out: &mut Trace,
) -> Result<bool, NoMemory>
    requires calls { boxes.old.calls ≡ no_calls }
    requires tasks { boxes.old.tasks ≡ 0 }
    requires phones { phones.old ≡ no_rows }
    requires spaces { spaces.old ≡ no_memory }
{
    boxes.add_task()?;
    own_phone(phones)?;
    one_area(spaces)?;
    is_ended(boxes, phones, spaces, out)
}

fn ends(alloc: Global) -> Result<bool, NoMemory> {
    let mut boxes = Boxes::new(alloc);
    let mut phones = PhoneRows::new(alloc);
    let mut spaces = Spaces::new(alloc);
    let mut out = Trace::new(alloc);
    comes_and_ends(&mut boxes, &mut phones, &mut spaces, &mut out)
}

#[test]
fn a_hangup_that_a_task_tells_itself_vanishes_and_its_area_goes(
    rt: HostRuntime,
) -> Result<(), Fail> {
    assert!(rt; ends(rt.alloc())?);
    Ok(())
}
