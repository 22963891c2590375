//! The law of the active calls of a phone.
ghost use Rattle.std.specs.Prelude.{◌≡◌, ℕ, ◌≤◌, true, Some};
ghost use Rattle.ipc_ids.specs.declared.numbers.TaskNo.{TaskNo};
ghost use Rattle.switchboard.specs.State.{KernelState, is_alive, label_of};
ghost use Rattle.switchboard.specs.Sound.{IsSound};
ghost use Rattle.answerbox.specs.Calls.{active_calls};
ghost use Rattle.phone_table.specs.Phones.{Row, first_usable};
ghost use Rattle.switchboard.specs.Counts.{label_at};
ghost use Rattle.cleanup.specs.Limits.{IsWithinLimits, IsRowOf};
ghost use Rattle.cleanup.specs.Kill.{kill};

/// Where each phone is within its limits, it has at most 65 active calls, and none where it is the
/// one that is handed out; a kill keeps the limits.
pub fn active_calls_are_few()
    ensures most { (k : KernelState) (t p : ℕ) → IsWithinLimits k
        → active_calls k.calls (label_at t p) ≤ 65 }
    ensures handed_out { (k : KernelState) (t : TaskNo) (row : Row) (p : ℕ)
        → IsWithinLimits k → IsRowOf k t row → first_usable row ≡ Some p
        → active_calls k.calls (label_of t p) ≡ 0 }
    ensures kill { (k : KernelState) (t : TaskNo) → IsSound k → is_alive k t ≡ true
        → IsWithinLimits k → IsWithinLimits (kill k t).state }
{}
