//! What holds of states by themselves, and of a forward in any state.
ghost use Rattle.std.specs.Prelude.{◌≡◌, ℕ, List, Option, length};
ghost use Rattle.ipc_ids.specs.declared.message.Mode.{Mode};
ghost use Rattle.ipc_ids.specs.declared.message.Msg.{Msg};
ghost use Rattle.ipc_ids.specs.declared.numbers.TaskNo.{TaskNo};
ghost use Rattle.answerbox.specs.Calls.{CallTable};
ghost use Rattle.switchboard.specs.State.{KernelState};
ghost use Rattle.switchboard.specs.Sound.{IsSound};
ghost use Rattle.kernel_core.specs.Forward.{forward};
ghost use Rattle.kernel_laws.specs.ActiveCalls.{HasActive, AreTheActive};
ghost use Rattle.kernel_determined.specs.ForwardCauses.{HasFirstCause};
ghost use Rattle.kernel_determined.specs.StateLaws.{KeepTheirPhones};

/// The phone that is kept for a `CONNECT_ME_TO` is one of its caller, and waits for its connection
/// until the call is accepted. That of a `CONNECT_TO_ME` is one of the task that holds the call.
pub fn connect_calls_keep_their_phones()
    ensures { (k : KernelState) → IsSound k → KeepTheirPhones k }
{}

/// The active calls of a phone can be counted, each once, and there is but one count of them. So the
/// limit of a phone, of which the law of a call speaks, is one number.
pub fn active_calls_have_one_count()
    ensures counted { (calls : CallTable) (t : TaskNo) (p : ℕ) → HasActive calls t p }
    ensures one { (calls : CallTable) (t : TaskNo) (p : ℕ) (ns ms : List ℕ)
        → AreTheActive calls t p ns → AreTheActive calls t p ms → length ns ≡ length ms }
{}

/// In any state a forward is refused with `ENOENT` where its task does not hold the call, else with
/// `EPERM` where the call may not be passed on, else with `ENOENT` where the phone leads nowhere; the
/// kernel then answers the call with `EFORWARD`, where its caller is alive. Else it is done.
pub fn forwards_are_refused_by_the_first_cause()
    ensures { (k : KernelState) (t : TaskNo) (n p : ℕ) (mode : Mode) (change : Option Msg)
        → HasFirstCause t n p change k (forward k t n p mode change) }
{}
