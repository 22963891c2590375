//! Replays the events of a schedule on the tasks of a script.
ghost use Rattle.std.specs.Prelude.{◌≡◌, ◌+◌, ◌^◌, ◌<◌, ◌≤◌, ◌++◌, [], List, true, false};
ghost use Rattle.std.specs.Prelude.{IfOk, OnOk, OnErr, IsErr};
ghost use Rattle.ipc_ids.specs.declared.entry.Entry.{Entry};
ghost use Rattle.route_laws.specs.Leads.{Beginning};
ghost use Rattle.task_system.specs.Run.{start, turn, MayHappen, Tells, TellsPart};
ghost use Rattle.run_laws.specs.RunHistory.{beginning, RunFits};

use ipc_ids::{Event, NoMemory, Trace};
use script_reader::Script;
use std::alloc::Global;
use std::marker::Model;
use task_system::System;

/// The tasks of a script. Once memory was wanting in an event, no further event is done.
#[derive(Drop)]
pub struct Replay {
    system: System,
    lost: bool,
}

impl Model for Replay {
    ghost use Rattle.kernel_core.specs.contracts.kernel.Kernel as kernels;
    ghost use Rattle.task_system.specs.contracts.any.AnyProgram as any_program;
    ghost use Rattle.script_lines.specs.contracts.plan.TaskPlans as plans;
    ghost use Rattle.ipc_ids.specs.contracts.numbers.TaskNo as task;
    ghost use Rattle.std.specs.Coded.{coded_option};
    ghost use Rattle.schedule_replay.specs.Replay.{ReplayState, replay_code};

    ghost Value = { ReplayState };

    ghost coded = { replay_code kernels.the_row.coded any_program.the_row.coded
        plans.the_row.coded (coded_option task.the_row.coded) };

    ghost view = { λ a. record { state = a.system; lost = a.lost } };
}

impl Replay {
    /// The tasks of a script before the first event.
    ///
    /// # Errors
    ///
    /// `NoMemory` where no memory was found.
    pub fn new(alloc: Global, script: &Script) -> Result<Replay, NoMemory>
        ensures state { IfOk result (λ replay. replay
            ≡ record { state = start script.now; lost = false }) }
        ensures no_event { IfOk result (λ replay. replay.state.kernel.events ≡ 0) }
        ensures history { IfOk result (λ replay. RunFits (beginning script.now) [] replay.state) }
    {
        // The proof rests on what every script keeps.
        let _tasks = &script.tasks;
        match System::new(alloc, script) {
            Ok(system) => Ok(Replay {
                system,
                lost: false,
            }),
            Err(NoMemory) => Err(NoMemory),
        }
    }

    /// The tasks as they are.
    pub fn system(&self) -> &System
        ensures { result.now ≡ self.now.state }
    {
        &self.system
    }

    /// Lets the tasks go. A crate that only calls this proves nothing of how they go.
    #[inline(never)]
    pub fn close(self) {}

    /// One event, whose entries go to the end of `out`.
    ///
    /// # Errors
    ///
    /// `NoMemory` where no memory was found. A first part of the event's entries was added then,
    /// and every later event answers `NoMemory` and adds nothing.
    #[inline(always)]
    pub fn step(&mut self, event: &Event, out: &mut Trace) -> Result<(), NoMemory>
        requires few_events { self.old.state.kernel.events < 2 ^ 24 }
        requires may { MayHappen self.old.state event.now }
        ensures state { OnOk result (self.new
            ≡ record { state = (turn self.old.state event.now).state; lost = false }) }
        ensures entries { OnOk result (Tells out.old out.new
            (turn self.old.state event.now).entries) }
        ensures part { OnErr result (TellsPart out.old out.new
            (turn self.old.state event.now).entries) }
        ensures lost { OnErr result (self.new.lost ≡ true) }
        ensures nothing_more { self.old.lost ≡ true → IsErr result
            × (out.new.entries ≡ out.old.entries) × (self.new ≡ self.old) }
        ensures events { self.new.state.kernel.events ≤ self.old.state.kernel.events + 1 }
        ensures history { OnOk result ((b : Beginning) (h : List Entry) → RunFits b h self.old.state
            → RunFits b (h ++ (turn self.old.state event.now).entries) self.new.state) }
    {
        if self.lost {
            return Err(NoMemory);
        }
        match self.system.turn(event, out) {
            Ok(()) => Ok(()),
            Err(NoMemory) => {
                self.lost = true;
                Err(NoMemory)
            }
        }
    }
}
