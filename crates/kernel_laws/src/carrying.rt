//! What live calls keep from event to event.
ghost use Rattle.std.specs.Prelude.{ℕ, Option};
ghost use Rattle.ipc_ids.specs.declared.numbers.TaskNo.{TaskNo};
ghost use Rattle.ipc_ids.specs.declared.message.Request.{Request};
ghost use Rattle.switchboard.specs.State.{KernelState, start};
ghost use Rattle.switchboard.specs.Sound.{IsSound};
ghost use Rattle.kernel_core.specs.Kernel.{serve, kill_event, spawn_event};
ghost use Rattle.kernel_laws.specs.Carrying.{Forwards, AreCarried};
ghost use Rattle.kernel_laws.specs.Connecting.{TellPhones, HasFive};

/// From event to event a live call keeps what it asks for, a `DATA_WRITE` its bytes, an answer its code,
/// its arguments and its bytes, and a user's call its message, unless the request passes it on.
pub fn calls_keep_what_they_carry()
    ensures serves { (k : KernelState) (t : TaskNo) (asked : Request) → IsSound k
        → AreCarried (Forwards asked) k.calls (serve k t asked).state.calls }
    ensures kills { (k : KernelState) (t : TaskNo) → IsSound k
        → AreCarried (λ n. ⊥) k.calls (kill_event k t).state.calls }
{}

/// Argument 5 of each live connect call tells the phone that is kept for it: so it is where there is no
/// call yet, and each event keeps it so.
pub fn argument_five_tells_the_phone()
    ensures start { TellPhones start.calls }
    ensures serves { (k : KernelState) (t : TaskNo) (asked : Request) → TellPhones k.calls
        → HasFive asked → TellPhones (serve k t asked).state.calls }
    ensures kills { (k : KernelState) (t : TaskNo) → TellPhones k.calls
        → TellPhones (kill_event k t).state.calls }
    ensures spawns { (k : KernelState) (limit : ℕ) (names : Option TaskNo) → TellPhones k.calls
        → TellPhones (spawn_event k limit names).state.calls }
{}
