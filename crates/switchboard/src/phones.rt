//! The phones alone.
ghost use Rattle.std.specs.Prelude.{◌≡◌, ◌≤◌, length};
ghost use Rattle.phone_table.specs.Phones.{state_at, hangup_answer};
ghost use Rattle.phone_table.specs.Usable.{IsConnected};
ghost use Rattle.switchboard.specs.State.{with_state_at, width as width_of};
ghost use Rattle.switchboard.specs.Board.{hung_rows};
ghost use Rattle.switchboard.specs.Kept.{WaitsIn, kept_rows};

use connect_hooks::accept_me_to;
use ipc_ids::{Code, Label, PhoneNo, PhoneState, TaskNo};
use phone_table::{Hung, PhoneRows};

/// Hangs the phone up, where it leads or led to a task, and says whom to tell.
pub(crate) fn hang_phone(from: Label, phones: &mut PhoneRows) -> Result<Hung, Code>
    requires from_one { 1 ≤ from.task.0 }
    requires task { from.task.0 ≤ length phones.old.states }
    ensures answer { result
        ≡ hangup_answer (state_at phones.old.states from.task.0 from.phone.0) }
    ensures states { phones.new.states
        ≡ hung_rows phones.old.states from.task.0 from.phone.0 result }
    ensures counts { phones.new.counts ≡ phones.old.counts }
{
    phones.row_mut(from.task).hangup(u64::from(from.phone.0))
}

/// How many phones the task has.
pub fn width(t: TaskNo, phones: &PhoneRows) -> u64
    requires from_one { 1 ≤ t.0 }
    requires task { t.0 ≤ length phones.now.states }
    ensures width { result ≡ width_of phones.now.states t.0 }
    ensures few { result ≤ 64 }
{
    let row = phones.row(t);
    let mut number = 0;
    while row.state(number).is_some() {
        number += 1;
    }
    number
}

/// The phone, which leads to a task, is slammed.
pub(crate) fn slam_phone(t: TaskNo, phone: PhoneNo, phones: &mut PhoneRows)
    requires from_one { 1 ≤ t.0 }
    requires task { t.0 ≤ length phones.old.states }
    requires leads { IsConnected (state_at phones.old.states t.0 phone.0) }
    ensures states { phones.new.states
        ≡ with_state_at phones.old.states t.0 phone.0 PhoneState.Slammed }
    ensures counts { phones.new.counts ≡ phones.old.counts }
{
    phones.row_mut(t).slam(phone);
}

/// Connects the phone that the caller kept for a CONNECT_ME_TO to the task that answers.
pub(crate) fn connect_to_answerer(kept: Option<Label>, answerer: TaskNo, phones: &mut PhoneRows)
    requires waits { WaitsIn phones.old.states kept }
    ensures states { phones.new.states
        ≡ kept_rows phones.old.states kept (PhoneState.Connected answerer) }
    ensures counts { phones.new.counts ≡ phones.old.counts }
{
    if let Some(label) = kept {
        accept_me_to(phones.row_mut(label.task), label.phone, answerer);
    }
}
