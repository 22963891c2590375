//! What holds of the run of every sound script, under every schedule that fits it.
ghost use Rattle.std.specs.Prelude.{ℕ, List, length};
ghost use Rattle.ipc_ids.specs.declared.message.Event.{Event};
ghost use Rattle.script_lines.specs.Plan.{Plan};
ghost use Rattle.script_lines.specs.Sound.{IsSound};
ghost use Rattle.script_reader.specs.Grammar.{SpellsScript};
ghost use Rattle.script_reader.specs.Schedule.{MayAllCome};
ghost use Rattle.task_system.specs.Run.{run};
ghost use Rattle.run_laws.specs.RunHistory.{beginning};
ghost use Rattle.program_examples.specs.FiveArguments.{ScriptGivesFive};
ghost use Rattle.run_determined.specs.AskedMessages.{AskWithFive};
ghost use Rattle.run_determined.specs.LiveWaits.{WaitsAreForLiveCalls};
ghost use Rattle.run_determined.specs.PhoneCauses.{PhonesChangeForCause};
ghost use Rattle.run_determined.specs.ScheduleLines.{SpawnsMakeTheirTemplate, HangupLinesHangUpTheirPhone, StepsServeTheirTask, KillLinesKillTheirTask};
ghost use Rattle.run_determined.specs.TaskPrograms.{TasksRunTheirPlans};
ghost use Rattle.run_determined.specs.ToldPhones.{ConnectCallsTellTheirPhone};
ghost use Rattle.run_determined.specs.TasksInTurn.{TasksComeInTurn, NothingComesBeforeItsSpawn};

/// Each change of a phone stands right behind the entry that is its cause, and each call goes the
/// way that its phone has.
pub fn phones_change_for_cause()
    ensures { (plan : Plan) (events : List Event) → IsSound plan
        → MayAllCome (length plan.tasks) (length plan.templates) events
        → PhonesChangeForCause (beginning plan) (run plan events) }
{}

/// Each message and each answer that a task of a script asks with has five arguments, whatever came
/// before: for the operations of a script give five.
pub fn tasks_ask_with_five_arguments()
    ensures scripts { (text : List ℕ) (plan : Plan) (events : List Event) → SpellsScript text plan
        → AskWithFive plan events }
    ensures plans { (plan : Plan) (events : List Event) → ScriptGivesFive plan
        → AskWithFive plan events }
{}

/// Argument 5 of a `CONNECT_ME_TO` that a task holds tells the phone that the entries say to be kept
/// for it, which is the one that an answer `EOK` connects.
pub fn connect_calls_tell_their_phone()
    ensures { (plan : Plan) (events : List Event) → IsSound plan → ScriptGivesFive plan
        → MayAllCome (length plan.tasks) (length plan.templates) events
        → ConnectCallsTellTheirPhone plan events }
{}

/// Each entry is of a task of the script or of one that was made before it, and tasks are numbered
/// in turn; so no entry of a task stands before the one that makes it.
pub fn tasks_come_in_turn()
    ensures turns { (plan : Plan) (events : List Event) → IsSound plan
        → MayAllCome (length plan.tasks) (length plan.templates) events
        → TasksComeInTurn (length plan.tasks) (run plan events) }
    ensures nothing_before { (plan : Plan) (events : List Event) → IsSound plan
        → MayAllCome (length plan.tasks) (length plan.templates) events
        → NothingComesBeforeItsSpawn (run plan events) }
{}

/// A task that a line of the schedule makes has the kind, the operations and the limit of the
/// template that the line names, and its phone 0 leads to the naming service.
pub fn spawns_make_their_template()
    ensures { (plan : Plan) (events : List Event) → IsSound plan
        → MayAllCome (length plan.tasks) (length plan.templates) events
        → SpawnsMakeTheirTemplate plan events }
{}

/// After each event every task runs the program of its plan, in kind and in operations: a task of
/// the script that which the script gives it, and a task that a line of the schedule made that of
/// the template which the line names.
pub fn tasks_run_their_plans()
    ensures { (plan : Plan) (events : List Event) → IsSound plan
        → MayAllCome (length plan.tasks) (length plan.templates) events
        → TasksRunTheirPlans plan events }
{}

/// A line of the schedule that hangs up a phone hangs up the one that it names.
pub fn hangup_lines_hang_up_their_phone()
    ensures { (plan : Plan) (events : List Event) → IsSound plan
        → MayAllCome (length plan.tasks) (length plan.templates) events
        → HangupLinesHangUpTheirPhone plan events }
{}

/// At a line of the schedule that gives a task its turn the kernel does with what the task's program
/// wants what its law says, and at one that kills a task likewise. A task that has ended is told so.
pub fn lines_keep_the_laws_of_the_kernel()
    ensures steps { (plan : Plan) (events : List Event) → IsSound plan
        → MayAllCome (length plan.tasks) (length plan.templates) events
        → StepsServeTheirTask plan events }
    ensures kills { (plan : Plan) (events : List Event) → IsSound plan
        → MayAllCome (length plan.tasks) (length plan.templates) events
        → KillLinesKillTheirTask plan events }
{}

/// A fibril that waits for an answer, of a task that has not ended, waits for a call of its task
/// which waits at a task, is held by one, or whose answer waits for the task.
pub fn waits_are_for_live_calls()
    ensures { (plan : Plan) (events : List Event) → IsSound plan
        → MayAllCome (length plan.tasks) (length plan.templates) events
        → WaitsAreForLiveCalls plan events }
{}
