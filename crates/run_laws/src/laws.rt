//! What the run of every sound script keeps, under every schedule that fits it.
ghost use Rattle.std.specs.Prelude.{List, length};
ghost use Rattle.ipc_ids.specs.declared.message.Event.{Event};
ghost use Rattle.script_lines.specs.Plan.{Plan};
ghost use Rattle.script_lines.specs.Sound.{IsSound};
ghost use Rattle.script_reader.specs.Schedule.{MayAllCome};
ghost use Rattle.run_laws.specs.LawfulRun.{IsLawfulRun};

/// The entries of the run keep the laws, and after each of its events no task with fibrils has lost
/// a wake-up.
pub fn runs_are_lawful()
    ensures { (plan : Plan) (events : List Event) → IsSound plan
        → MayAllCome (length plan.tasks) (length plan.templates) events
        → IsLawfulRun plan events }
{}
