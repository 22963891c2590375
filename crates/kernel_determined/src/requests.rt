//! Whatever keeps the laws of the kernel is the kernel.
ghost use Rattle.std.specs.Prelude.{◌≡◌, ℕ, ◌≤◌, true, List, Option, Some, length};
ghost use Rattle.ipc_ids.specs.declared.message.Mode.{Mode};
ghost use Rattle.ipc_ids.specs.declared.message.Msg.{Msg};
ghost use Rattle.ipc_ids.specs.declared.message.Reply.{Reply};
ghost use Rattle.ipc_ids.specs.declared.numbers.TaskNo.{TaskNo};
ghost use Rattle.ipc_ids.specs.declared.message.Request.{Request};
ghost use Rattle.ipc_ids.specs.declared.message.Request.TheVariants as request;
ghost use Rattle.switchboard.specs.State.{KernelState, Transition, is_alive, phone_at, with_memory, with_phone};
ghost use Rattle.switchboard.specs.Serving.{Served};
ghost use Rattle.switchboard.specs.Sound.{IsSound};
ghost use Rattle.kernel_core.specs.Kernel.{serve, kill_event, spawn_event};
ghost use Rattle.kernel_determined.specs.AnswerLaw.{IsAnswer};
ghost use Rattle.kernel_determined.specs.CallLaw.{IsCall};
ghost use Rattle.kernel_determined.specs.ForwardLaw.{IsForward};
ghost use Rattle.kernel_determined.specs.HangupLaw.{IsNothing, IsHangup};
ghost use Rattle.kernel_determined.specs.KernelLaw.{MayAct, IsServed, IsKernel, IsTheKernel};
ghost use Rattle.kernel_determined.specs.Changed.{served_to, served_telling, ended_in, ended_telling, other_call};
ghost use Rattle.ipc_ids.specs.declared.message.PhoneState.{PhoneState};
ghost use Rattle.ipc_ids.specs.declared.entry.Entry.{Entry};
ghost use Rattle.call_slab.specs.declared.call.Call.{Call};
ghost use Rattle.answerbox.specs.Calls.{call_at};
ghost use Rattle.address_space.specs.Memory.{Memory};
ghost use Rattle.kernel_determined.specs.KillLaw.{IsKill};
ghost use Rattle.kernel_determined.specs.MemoryLaw.{IsPoke, IsPeek, IsAreaMake, IsAreaDrop};
ghost use Rattle.kernel_determined.specs.ReceiveLaw.{IsReceive, TellsTheFirst};
ghost use Rattle.kernel_determined.specs.SpawnLaw.{IsSpawn};

/// A hangup does what its law says, and whatever does all that it says does the same.
pub fn hangups_are_determined()
    ensures kept { (k : KernelState) (t : TaskNo) (p : ℕ)
        → IsHangup (phone_at k t p) t p k (serve k t (request.Hangup p)) }
    ensures determined { (k : KernelState) (t : TaskNo) (p : ℕ) (done : Served)
        → IsHangup (phone_at k t p) t p k done → done ≡ serve k t (request.Hangup p) }
    ensures nothing { (k : KernelState) (t : TaskNo) (done : Served)
        → IsNothing k done → done ≡ serve k t request.Nothing }
{}

/// A receive does what its law says, and whatever does all that it says does the same: it tells the
/// first answer that is awaited, or else the first call that waits.
pub fn receives_are_determined()
    ensures kept { (k : KernelState) (t : TaskNo) → IsSound k
        → IsReceive t k (serve k t request.Receive) }
    ensures determined { (k : KernelState) (t : TaskNo) (done : Served) → IsSound k
        → IsReceive t k done → done ≡ serve k t request.Receive }
    ensures first { (k : KernelState) (t : TaskNo) (done : Served) → IsSound k
        → IsReceive t k done → TellsTheFirst t k done }
{}

/// A forward does what its law says, and whatever does all that it says does the same.
pub fn forwards_are_determined()
    ensures kept { (k : KernelState) (t : TaskNo) (n p : ℕ) (mode : Mode) (change : Option Msg)
        → IsSound k
        → IsForward t n p mode change k (serve k t (request.Forward n p mode change)) }
    ensures determined { (k : KernelState) (t : TaskNo) (n p : ℕ) (mode : Mode)
        (change : Option Msg) (done : Served) → IsSound k → IsForward t n p mode change k done
        → done ≡ serve k t (request.Forward n p mode change) }
{}

/// A call does what its law says, and whatever does all that it says does the same.
pub fn calls_are_determined()
    ensures kept { (k : KernelState) (t : TaskNo) (p : ℕ) (msg : Msg)
        → IsCall t p msg k (serve k t (request.Call p msg)) }
    ensures determined { (k : KernelState) (t : TaskNo) (p : ℕ) (msg : Msg) (done : Served)
        → IsSound k → IsCall t p msg k done → done ≡ serve k t (request.Call p msg) }
{}

/// An answer does what its law says, and whatever does all that it says does the same.
pub fn answers_are_determined()
    ensures kept { (k : KernelState) (t : TaskNo) (n : ℕ) (reply : Reply) → IsSound k
        → IsAnswer t n reply k (serve k t (request.Answer n reply)) }
    ensures determined { (k : KernelState) (t : TaskNo) (n : ℕ) (reply : Reply) (done : Served)
        → IsSound k → IsAnswer t n reply k done → done ≡ serve k t (request.Answer n reply) }
{}

/// A poke and a peek do what their laws say, and whatever does all that these say does the same.
pub fn pokes_and_peeks_are_determined()
    ensures pokes { (k : KernelState) (t : TaskNo) (at : ℕ) (new : List ℕ) → IsSound k
        → IsPoke t at new k (serve k t (request.Poke at new)) }
    ensures peeks { (k : KernelState) (t : TaskNo) (at count : ℕ) → IsSound k
        → IsPeek t at count k (serve k t (request.Peek at count)) }
    ensures one_poke { (k : KernelState) (t : TaskNo) (at : ℕ) (new : List ℕ) (a b : Served)
        → IsPoke t at new k a → IsPoke t at new k b → a ≡ b }
    ensures one_peek { (k : KernelState) (t : TaskNo) (at count : ℕ) (a b : Served)
        → IsPeek t at count k a → IsPeek t at count k b → a ≡ b }
{}

/// An area is made and dropped as the laws say, and whatever does all that they say does the same.
pub fn areas_are_determined()
    ensures made { (k : KernelState) (t : TaskNo) (base pages rights : ℕ) → IsSound k
        → is_alive k t ≡ true
        → IsAreaMake t base pages rights k (serve k t (request.AreaMake base pages rights)) }
    ensures one_made { (k : KernelState) (t : TaskNo) (base pages rights : ℕ) (a b : Served)
        → IsSound k → is_alive k t ≡ true → IsAreaMake t base pages rights k a
        → IsAreaMake t base pages rights k b → a ≡ b }
    ensures dropped { (k : KernelState) (t : TaskNo) (base : ℕ)
        → IsAreaDrop t base k (serve k t (request.AreaDrop base)) }
    ensures one_dropped { (k : KernelState) (t : TaskNo) (base : ℕ) (a b : Served) → IsSound k
        → is_alive k t ≡ true → IsAreaDrop t base k a → IsAreaDrop t base k b → a ≡ b }
{}

/// A spawn does what its law says, whatever does all that it says does the same, and the state stays
/// sound.
pub fn spawns_are_determined()
    ensures kept { (k : KernelState) (limit : ℕ) (names : Option TaskNo) → IsSound k → 1 ≤ limit
        → IsSpawn limit names k (spawn_event k limit names) }
    ensures determined { (limit : ℕ) (names : Option TaskNo) (k : KernelState)
        (done : Transition) → IsSound k → 1 ≤ limit → IsSpawn limit names k done
        → done ≡ spawn_event k limit names }
    ensures sound { (k : KernelState) (limit : ℕ) (names : Option TaskNo) → IsSound k → 1 ≤ limit
        → IsSound (spawn_event k limit names).state }
{}

/// A kill does what its law says, and whatever does all that it says does the same.
pub fn kills_are_determined()
    ensures kept { (k : KernelState) (t : TaskNo) → IsSound k → is_alive k t ≡ true
        → IsKill t k (kill_event k t) }
    ensures determined { (k : KernelState) (t : TaskNo) (done : Transition) → IsSound k
        → is_alive k t ≡ true → IsKill t k done → done ≡ kill_event k t }
{}

/// The definitions of the kernel keep all of its laws.
pub fn the_kernel_keeps_its_laws()
    ensures { IsKernel serve kill_event spawn_event }
{}

/// Whatever keeps the laws of the kernel does just what the definitions say: in state, outcome and
/// entries, with each request of a task that is alive, a kill of one, and a spawn, on every sound
/// state.
pub fn the_laws_determine_the_kernel()
    ensures { (serves : KernelState → TaskNo → Request → Served)
        (kills : KernelState → TaskNo → Transition)
        (spawns : KernelState → ℕ → Option TaskNo → Transition)
        → IsKernel serves kills spawns → IsTheKernel serves kills spawns }
{}

/// What a machine does with a request is lawful in one form only: with another memory, another
/// state of a phone, another record of a call (its place, stamp, message, label, answer, bytes,
/// phone or caller), or other entries, it is not.
pub fn changed_requests_break_a_law()
    ensures one { (k : KernelState) (t : TaskNo) (asked : Request) (a b : Served)
        → MayAct k t → IsServed k t asked a → IsServed k t asked b → a ≡ b }
    ensures memory { (k : KernelState) (t : TaskNo) (asked : Request) (done : Served)
        → MayAct k t → IsServed k t asked done → (m : Memory)
        → IsServed k t asked (served_to done (with_memory done.state m))
        → done.state.memory ≡ m }
    ensures phone { (k : KernelState) (t : TaskNo) (asked : Request) (done : Served)
        → MayAct k t → IsServed k t asked done
        → (u : TaskNo) (q : ℕ) (old new : PhoneState) → phone_at done.state u q ≡ Some old
        → IsServed k t asked (served_to done (with_phone done.state u q new)) → old ≡ new }
    ensures call { (k : KernelState) (t : TaskNo) (asked : Request) (done : Served)
        → MayAct k t → IsServed k t asked done
        → (n : ℕ) (c d : Call) → call_at done.state.calls n ≡ Some c
        → IsServed k t asked (served_to done (other_call done.state n d)) → c ≡ d }
    ensures entries { (k : KernelState) (t : TaskNo) (asked : Request) (done : Served)
        → MayAct k t → IsServed k t asked done → (told : List Entry)
        → IsServed k t asked (served_telling done told) → done.entries ≡ told }
{}

/// So it is with a kill.
pub fn changed_kills_break_a_law()
    ensures one { (k : KernelState) (t : TaskNo) (a b : Transition) → MayAct k t
        → IsKill t k a → IsKill t k b → a ≡ b }
    ensures memory { (k : KernelState) (t : TaskNo) (done : Transition) → MayAct k t
        → IsKill t k done → (m : Memory)
        → IsKill t k (ended_in done (with_memory done.state m)) → done.state.memory ≡ m }
    ensures phone { (k : KernelState) (t : TaskNo) (done : Transition) → MayAct k t
        → IsKill t k done → (u : TaskNo) (q : ℕ) (old new : PhoneState)
        → phone_at done.state u q ≡ Some old
        → IsKill t k (ended_in done (with_phone done.state u q new)) → old ≡ new }
    ensures call { (k : KernelState) (t : TaskNo) (done : Transition) → MayAct k t
        → IsKill t k done → (n : ℕ) (c d : Call) → call_at done.state.calls n ≡ Some c
        → IsKill t k (ended_in done (other_call done.state n d)) → c ≡ d }
    ensures entries { (k : KernelState) (t : TaskNo) (done : Transition) → MayAct k t
        → IsKill t k done → (told : List Entry) → IsKill t k (ended_telling done told)
        → done.entries ≡ told }
{}
