//! What the words of a run tell.
ghost use Rattle.std.specs.Prelude.{◌≡◌, ◌++◌, ◌+◌, [], ℕ, List, length};
ghost use Rattle.ipc_ids.specs.declared.message.Event.{Event};
ghost use Rattle.script_lines.specs.Plan.{Plan};
ghost use Rattle.script_lines.specs.Sound.{IsSound};
ghost use Rattle.task_system.specs.Run.{RunState, start, turn, MayHappen};
ghost use Rattle.run_words.specs.Alike.{AreAlikeRuns};
ghost use Rattle.run_words.specs.Reached.{IsReached, spawn_of};
ghost use Rattle.run_words.specs.RunWords.{run_words};

/// The start of a script is reached, and each event that may happen leads on. A state that is reached
/// has the tasks of the script and one for each spawn, and the templates of the script.
pub fn events_lead_on()
    ensures begins { (plan : Plan) → IsReached plan [] (start plan) }
    ensures goes_on { (plan : Plan) (spawned : List ℕ) (now : RunState) (e : Event)
        → IsReached plan spawned now → MayHappen now e
        → IsReached plan (spawned ++ spawn_of e) (turn now e).state }
    ensures tasks { (plan : Plan) (spawned : List ℕ) (now : RunState)
        → IsReached plan spawned now
        → length now.kernel.tasks.alive ≡ length plan.tasks + length spawned }
    ensures templates { (plan : Plan) (spawned : List ℕ) (now : RunState)
        → IsReached plan spawned now → now.templates ≡ plan.templates }
{}

/// States of one script that are reached by spawns of the same templates, and have the same words,
/// whatever comes behind these, differ in counts alone, and in stamps of calls that stand in one order
/// within each place; and what comes behind is the same.
pub fn words_tell_runs_apart()
    ensures { (plan : Plan) (spawned : List ℕ) (a b : RunState) (s t : List ℕ) → IsSound plan
        → IsReached plan spawned a → IsReached plan spawned b
        → run_words a ++ s ≡ run_words b ++ t → AreAlikeRuns a b × (s ≡ t) }
{}

/// So they go on alike: each event tells the same at both, and leads to states of the same words.
pub fn runs_of_the_same_words_go_on_alike()
    ensures entries { (plan : Plan) (spawned : List ℕ) (a b : RunState) (e : Event)
        → IsSound plan → IsReached plan spawned a → IsReached plan spawned b
        → run_words a ≡ run_words b → (turn a e).entries ≡ (turn b e).entries }
    ensures words { (plan : Plan) (spawned : List ℕ) (a b : RunState) (e : Event)
        → IsSound plan → IsReached plan spawned a → IsReached plan spawned b
        → run_words a ≡ run_words b
        → run_words (turn a e).state ≡ run_words (turn b e).state }
{}
