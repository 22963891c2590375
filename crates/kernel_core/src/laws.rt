//! The laws of calls and of shared areas, for the entries of any events.
ghost use Rattle.std.specs.Prelude.{List, ℕ, ◌≡◌, ◌<◌, ◌≤◌, Option};
ghost use Rattle.ipc_ids.specs.declared.numbers.TaskNo.{TaskNo};
ghost use Rattle.ipc_ids.specs.declared.numbers.CallNo.{CallNo};
ghost use Rattle.ipc_ids.specs.declared.message.Msg.{Msg};
ghost use Rattle.ipc_ids.specs.declared.message.Request.{Request};
ghost use Rattle.ipc_ids.specs.declared.message.Outcome.TheVariants.{Accepted};
ghost use Rattle.answerbox.specs.Calls.{active_calls};
ghost use Rattle.ipc_ids.specs.declared.entry.Entry.{Entry};
ghost use Rattle.ipc_ids.specs.Laws.{LivesAreLawful, AnsweredAtMostOnce, KillEndsHeldCalls};
ghost use Rattle.ipc_ids.specs.AreaLaw.{AreasAreLawful};
ghost use Rattle.switchboard.specs.State.{KernelState, label_of};
ghost use Rattle.switchboard.specs.Counts.{label_at};
ghost use Rattle.cleanup.specs.Limits.{IsWithinLimits};
ghost use Rattle.switchboard.specs.Sound.{IsSound};
ghost use Rattle.kernel_core.specs.History.{HistoryFits};
ghost use Rattle.kernel_core.specs.Calling.{call};
ghost use Rattle.kernel_core.specs.Kernel.{serve, spawn_event};

/// A history that fits a state of the kernel keeps the laws of calls and that of shared areas: so
/// the entries of any system calls and kills do, whoever asks for them.
pub fn fitting_histories_keep_the_laws()
    ensures life { (h : List Entry) (k : KernelState) → HistoryFits h k → LivesAreLawful h }
    ensures answers { (h : List Entry) (k : KernelState) → HistoryFits h k → AnsweredAtMostOnce h }
    ensures kills { (h : List Entry) (k : KernelState) → HistoryFits h k → KillEndsHeldCalls h }
    ensures areas { (h : List Entry) (k : KernelState) → HistoryFits h k → AreasAreLawful h }
{}

/// A call is accepted only over a phone with fewer than 64 active ones, every request and every spawn
/// keeps the limits of all phones, and so no phone ever has more than 65 active calls.
pub fn calls_stay_within_limits()
    ensures accepted { (k : KernelState) (t : TaskNo) (p : ℕ) (msg : Msg) (n : CallNo)
        → (call k t p msg).outcome ≡ Accepted n → active_calls k.calls (label_of t p) < 64 }
    ensures kept { (k : KernelState) (t : TaskNo) (asked : Request) → IsSound k
        → IsWithinLimits k → IsWithinLimits (serve k t asked).state }
    ensures spawned { (k : KernelState) (limit : ℕ) (names : Option TaskNo) → IsSound k → 1 ≤ limit
        → IsWithinLimits k → IsWithinLimits (spawn_event k limit names).state }
    ensures most { (h : List Entry) (k : KernelState) (t p : ℕ) → HistoryFits h k
        → active_calls k.calls (label_at t p) ≤ 65 }
{}
