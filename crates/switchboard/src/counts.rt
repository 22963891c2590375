//! The counts of active calls at the phones.
ghost use Rattle.std.specs.Prelude.{◌≡◌, ◌+◌, ◌-◌, ◌^◌, ◌<◌, true, Some, IsSome, IsSomeAnd};
ghost use Rattle.answerbox.specs.Calls.{is_caller};
ghost use Rattle.phone_table.specs.Phones.{state_at, count_at};
ghost use Rattle.switchboard.specs.State.{label_of};
ghost use Rattle.switchboard.specs.Counts.{recount, counts_without};

use ipc_ids::{Label, PhoneNo, TaskNo};
use phone_table::PhoneRows;

/// A phone of a task.
pub fn label(task: TaskNo, phone: u64) -> Label
    requires { phone < 64 }
    ensures { result ≡ label_of task phone }
{
    Label {
        task,
        phone: PhoneNo(phone as u32),
    }
}

/// One call more is active over that phone.
pub(crate) fn count_up(phones: &mut PhoneRows, from: Label)
    requires there { IsSome (state_at phones.old.states from.task.0 from.phone.0) }
    requires few { IsSomeAnd (count_at phones.old.counts from.task.0 from.phone.0)
        (λ n. n < 2 ^ 31) }
    ensures states { phones.new.states ≡ phones.old.states }
    ensures counts { phones.new.counts
        ≡ recount (λ n. n + 1) phones.old.counts from.task.0 from.phone.0 }
{
    phones.row_mut(from.task).count_up(from.phone);
}

/// A call over that phone is active no more, unless its caller had ended.
pub(crate) fn count_out(phones: &mut PhoneRows, caller: Option<TaskNo>, from: Label)
    requires there { IsSome (state_at phones.old.states from.task.0 from.phone.0) }
    requires counted { IsSomeAnd (count_at phones.old.counts from.task.0 from.phone.0)
        (λ n. is_caller from.task caller ≡ true → 0 < n) }
    ensures states { phones.new.states ≡ phones.old.states }
    ensures counts { phones.new.counts ≡ counts_without phones.old.counts caller from }
{
    match caller {
        Some(caller) if caller.0 == from.task.0 => {
            phones.row_mut(from.task).count_down(from.phone);
        }
        _ => {}
    }
}
