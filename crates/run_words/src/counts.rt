//! What the counts of a kernel and of a run do not change, and what no event changes.
ghost use Rattle.std.specs.Prelude.{◌≡◌, ◌+◌, ℕ, Option, List};
ghost use Rattle.ipc_ids.specs.declared.numbers.TaskNo.{TaskNo};
ghost use Rattle.ipc_ids.specs.declared.message.Request.{Request};
ghost use Rattle.switchboard.specs.State.{KernelState};
ghost use Rattle.kernel_core.specs.Kernel.{serve, kill_event, spawn_event};
ghost use Rattle.run_words.specs.Counted.{with_count, step_with_count, served_with_count};
ghost use Rattle.ipc_ids.specs.declared.message.Event.{Event};
ghost use Rattle.ipc_ids.specs.declared.message.Outcome.{Outcome};
ghost use Rattle.task_system.specs.declared.any.AnyProgram.{AnyProgram};
ghost use Rattle.task_system.specs.Any.{wanted, after, entries};
ghost use Rattle.task_system.specs.Run.{RunState, turn, run_from, state_after};
ghost use Rattle.run_words.specs.AlikeStates.{AreAlikePrograms, AreAlikeStates, AreAlikeTurns};
ghost use Rattle.run_words.specs.Constants.{constant, constants, made_by_all, with_made};

/// A request, a kill and a spawn come to the same after however many events: to the same outcome,
/// the same entries and the same state, but for the count of events, which is one more.
pub fn the_event_count_changes_nothing()
    ensures requests { (n : ℕ) (k : KernelState) (t : TaskNo) (asked : Request)
        → serve (with_count n k) t asked ≡ served_with_count (n + 1) (serve k t asked) }
    ensures kills { (n : ℕ) (k : KernelState) (t : TaskNo)
        → kill_event (with_count n k) t ≡ step_with_count (n + 1) (kill_event k t) }
    ensures spawns { (n : ℕ) (k : KernelState) (limit : ℕ) (names : Option TaskNo)
        → spawn_event (with_count n k) limit names
        ≡ step_with_count (n + 1) (spawn_event k limit names) }
{}

/// Programs that differ in how many outcomes they took alone ask the same, make the same entries of
/// an outcome, and become programs that differ in that alone.
pub fn outcome_counts_change_nothing()
    ensures asked { (p q : AnyProgram) → AreAlikePrograms p q → wanted p ≡ wanted q }
    ensures entries { (p q : AnyProgram) (o : Outcome) → AreAlikePrograms p q
        → entries p o ≡ entries q o }
    ensures became { (p q : AnyProgram) (o : Outcome) → AreAlikePrograms p q
        → AreAlikePrograms (after p o) (after q o) }
{}

/// From states that differ in counts alone, an event has the same entries and leaves states that
/// differ in these alone; and so do all events of a schedule.
pub fn counts_change_nothing()
    ensures turns { (a b : RunState) (e : Event) → AreAlikeStates a b
        → AreAlikeTurns (turn a e) (turn b e) }
    ensures runs { (a b : RunState) (events : List Event) → AreAlikeStates a b
        → run_from a events ≡ run_from b events }
    ensures ends { (a b : RunState) (events : List Event) → AreAlikeStates a b
        → AreAlikeStates (state_after a events) (state_after b events) }
{}

/// An outcome keeps the kind of a program and what it is to do; events keep these of each program,
/// the templates and the naming service, but that a spawn adds a program; and of states that differ
/// in counts alone the same is constant.
pub fn spawns_alone_change_constants()
    ensures program { (p : AnyProgram) (o : Outcome) → constant (after p o) ≡ constant p }
    ensures events { (now : RunState) (events : List Event)
        → constants (state_after now events)
        ≡ with_made (constants now) (made_by_all now events) }
    ensures alike { (a b : RunState) → AreAlikeStates a b → constants a ≡ constants b }
{}
