//! A kernel does the same with other stamps of the same order.
ghost use Rattle.std.specs.Prelude.{◌≡◌, ◌≤◌, ℕ, Option};
ghost use Rattle.ipc_ids.specs.declared.numbers.TaskNo.{TaskNo};
ghost use Rattle.ipc_ids.specs.declared.message.Request.{Request};
ghost use Rattle.call_slab.specs.declared.call.Place.{Place};
ghost use Rattle.switchboard.specs.State.{KernelState};
ghost use Rattle.kernel_core.specs.Kernel.{serve, kill_event, spawn_event};
ghost use Rattle.run_words.specs.Stamped.{Rises, Shifts, with_stamps, step_with_stamps, served_with_stamps};

/// A request, a kill and a spawn come to the same with other stamps of the calls, where these have
/// the same order within each place, and each stamp that is still to be given is d more: to the same
/// outcome, the same entries and the same state, but for those other stamps.
pub fn only_the_order_of_stamps_counts()
    ensures requests { (f : Place → ℕ → ℕ) (n d : ℕ) (k : KernelState) (t : TaskNo) (asked : Request)
        → Rises f → Shifts n d f → n ≤ k.calls.next_stamp
        → serve (with_stamps f d k) t asked ≡ served_with_stamps f d (serve k t asked) }
    ensures kills { (f : Place → ℕ → ℕ) (n d : ℕ) (k : KernelState) (t : TaskNo)
        → Rises f → Shifts n d f → n ≤ k.calls.next_stamp
        → kill_event (with_stamps f d k) t ≡ step_with_stamps f d (kill_event k t) }
    ensures spawns { (f : Place → ℕ → ℕ) (d : ℕ) (k : KernelState) (limit : ℕ) (names : Option TaskNo)
        → spawn_event (with_stamps f d k) limit names
        ≡ step_with_stamps f d (spawn_event k limit names) }
{}
