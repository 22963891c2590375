//! What conditions are about, what rest is, what is lost where nothing moves, and what states of one
//! code have in common.
ghost use Rattle.std.specs.Prelude.{◌≡◌, ℕ, false, List, length, Option, true};
ghost use Rattle.script_lines.specs.Plan.{Plan};
ghost use Rattle.script_lines.specs.Sound.{IsTask, IsSound};
ghost use Rattle.search_goals.specs.declared.conditions.Condition.{Condition};
ghost use Rattle.search_goals.specs.Places.{bodies_of, is_known};
ghost use Rattle.run_words.specs.Alike.{AreAlikeRuns};
ghost use Rattle.run_words.specs.Reached.{IsReached};
ghost use Rattle.task_system.specs.Run.{RunState, turn};
ghost use Rattle.schedule_search.specs.Holding.{task_of, holds, all_hold};
ghost use Rattle.ipc_ids.specs.declared.numbers.TaskNo.{TaskNo};
ghost use Rattle.ipc_ids.specs.declared.entry.Entry.{Entry};
ghost use Rattle.ipc_ids.specs.declared.message.Event.{Event};
ghost use Rattle.ipc_ids.specs.declared.message.Event.TheVariants.{Step};
ghost use Rattle.search_goals.specs.GoalText.{LosesCall, IsStuck};
ghost use Rattle.search_goals.specs.GoalList.{all_precede};
ghost use Rattle.schedule_search.specs.Search as search;
ghost use Rattle.schedule_search.specs.Search.{Search, state_behind};
ghost use Rattle.schedule_search.specs.Meeting.{is_at_rest, IsMet, Meets};
ghost use Rattle.schedule_search.specs.Left.{IsOver, left_behind};
ghost use Rattle.schedule_search.specs.Code.{Fits};

/// Of two states that differ in counts, and in stamps of calls that stand in one order, alone, a
/// condition holds in both or in neither, and so do all of some conditions.
pub fn alike_states_hold_alike()
    ensures one { (a b : RunState) → AreAlikeRuns a b → (c : Condition) → holds c a ≡ holds c b }
    ensures all { (a b : RunState) → AreAlikeRuns a b → (cs : List Condition)
        → all_hold cs a ≡ all_hold cs b }
{}

/// Of a task of the script, a condition that asks for an operation which no body of the task has
/// holds in no state of a run.
pub fn nothing_stands_at_unknown_operations()
    ensures { (plan : Plan) (spawned : List ℕ) (now : RunState) → IsReached plan spawned now
        → (c : Condition) → IsTask (length plan.tasks) (task_of c).0
        → is_known (bodies_of plan.tasks (task_of c)) c ≡ false → holds c now ≡ false }
{}

/// A state of a script is at rest where each step of each task leaves a state that differs from it in
/// counts, and in stamps of calls that stand in one order, alone, and there only.
pub fn nothing_moves_at_rest()
    ensures rests { (plan : Plan) (spawned : List ℕ) (now : RunState) (t : ℕ) → IsSound plan
        → IsReached plan spawned now → is_at_rest now ≡ true
        → IsTask (length now.kernel.tasks.alive) t
        → AreAlikeRuns (turn now (Step (record { 0 = t }))).state now }
    ensures at_rest { (now : RunState)
        → ((t : ℕ) → IsTask (length now.kernel.tasks.alive) t
        → AreAlikeRuns (turn now (Step (record { 0 = t }))).state now)
        → is_at_rest now ≡ true }
{}

/// A state that is stuck has lost a call: where none is lost nothing is stuck.
pub fn stuck_states_have_lost_a_call()
    ensures { (plan : Plan) (spawned : List ℕ) (now : RunState) (told : List Entry)
        (task : Option TaskNo) → IsSound plan → IsReached plan spawned now
        → IsMet (IsStuck task) now told → IsMet LosesCall now told }
{}

/// From states of one code each move leads to states of one code, and to what is looked for from both
/// or from neither.
pub fn codes_stand_for_schedules()
    ensures { (s : Search) → search.IsSound s → Fits s }
{}

/// Events meet goals in turn where they leave none of them when each is taken as met at the first
/// moment at which it is, and there only: waiting for a later moment wins nothing.
pub fn waiting_wins_nothing()
    ensures over { (s : Search) (es : List Event) → all_precede s.earlier ≡ true → Meets s es
        → IsOver s.asked (left_behind s es) (state_behind s es) }
    ensures meets { (s : Search) (es : List Event) → all_precede s.earlier ≡ true
        → IsOver s.asked (left_behind s es) (state_behind s es) → Meets s es }
{}
