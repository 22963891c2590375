//! What a kill comes to, how effects and outcomes agree, and what each event does to the pool.
ghost use Rattle.std.specs.Prelude.{◌≡◌, ℕ, ◌≤◌, true, false, Option};
ghost use Rattle.ipc_ids.specs.declared.numbers.TaskNo.{TaskNo};
ghost use Rattle.ipc_ids.specs.declared.message.Msg.{Msg};
ghost use Rattle.ipc_ids.specs.declared.message.Request.{Request};
ghost use Rattle.ipc_ids.specs.Codes.{enomem};
ghost use Rattle.ipc_ids.specs.Tables.{most_buffered};
ghost use Rattle.switchboard.specs.State.{KernelState, is_alive};
ghost use Rattle.switchboard.specs.Sound.{IsSound};
ghost use Rattle.cleanup.specs.Kill.{kill};
ghost use Rattle.kernel_core.specs.Calling.{call};
ghost use Rattle.kernel_core.specs.Kernel.{serve, kill_event, spawn_event};
ghost use Rattle.ipc_ids.specs.Effects.{AreEffects, has_delivery, IsHonest};
ghost use Rattle.kernel_laws.specs.KillLaws.{EndsTask, LeavesNothingOf, EndsWaitingFirst, ClosesPhones, ClosesCalls, ClosesAreas, TellsWhereItLed};
ghost use Rattle.kernel_laws.specs.PoolLaws.{pool, bytes_asked, HasAnswer, IsFullFor, IsBalanced, IsGivenBack};

/// A kill ends the task and no other, leaves nothing of it, ends what waited at it before what it
/// held, and closes its phones, its calls and its areas, and no others. Each other task that a phone
/// of it led to is told of that phone's hangup by a new call, and by one alone.
pub fn kills_leave_nothing()
    ensures task { (k : KernelState) (t : TaskNo) → is_alive k t ≡ true
        → EndsTask t k (kill k t).state }
    ensures nothing { (k : KernelState) (t : TaskNo) → IsSound k → is_alive k t ≡ true
        → LeavesNothingOf t (kill k t).state }
    ensures order { (k : KernelState) (t : TaskNo) → IsSound k → is_alive k t ≡ true
        → EndsWaitingFirst t k (kill k t).entries }
    ensures phones { (k : KernelState) (t : TaskNo) → IsSound k → is_alive k t ≡ true
        → ClosesPhones t k (kill k t).state }
    ensures calls { (k : KernelState) (t : TaskNo) → IsSound k → is_alive k t ≡ true
        → ClosesCalls t k (kill k t).state }
    ensures areas { (k : KernelState) (t : TaskNo) → is_alive k t ≡ true
        → ClosesAreas t k (kill k t).state }
    ensures told { (k : KernelState) (t : TaskNo) → IsSound k → is_alive k t ≡ true
        → TellsWhereItLed t k (kill k t).state }
{}

/// The kernel tells of a request and of a kill by effects alone. A task is told that its call was
/// accepted only where an effect says so, and of an answer just where an effect delivers it. A kill
/// delivers none.
pub fn events_are_honest()
    ensures serves { (k : KernelState) (t : TaskNo) (asked : Request)
        → IsHonest (serve k t asked).entries (serve k t asked).outcome }
    ensures kills { (k : KernelState) (t : TaskNo) → AreEffects (kill_event k t).entries }
    ensures answers { (k : KernelState) (t : TaskNo) (n : ℕ)
        → has_delivery n (kill_event k t).entries ≡ false }
{}

/// No event leaves more than the pool's bytes in the live calls. A call is answered `ENOMEM` at once
/// only where its bytes have no room. What is accepted or answered in an event brings its bytes to
/// the pool, and what is over gives them back; a kill brings none, and a spawn changes nothing.
pub fn the_pool_is_balanced()
    ensures serves_within { (k : KernelState) (t : TaskNo) (asked : Request) → IsSound k
        → is_alive k t ≡ true → pool (serve k t asked).state ≤ most_buffered }
    ensures kills_within { (k : KernelState) (t : TaskNo) → IsSound k → is_alive k t ≡ true
        → pool (kill_event k t).state ≤ most_buffered }
    ensures full { (k : KernelState) (t : TaskNo) (p : ℕ) (msg : Msg)
        → HasAnswer enomem (call k t p msg).entries → IsFullFor k (bytes_asked msg.args) }
    ensures serves { (k : KernelState) (t : TaskNo) (asked : Request) → IsSound k
        → IsBalanced k (serve k t asked).entries (serve k t asked).state }
    ensures kills { (k : KernelState) (t : TaskNo) → IsSound k
        → IsGivenBack k (kill_event k t).entries (kill_event k t).state }
    ensures spawns { (k : KernelState) (limit : ℕ) (names : Option TaskNo)
        → pool (spawn_event k limit names).state ≡ pool k }
{}
