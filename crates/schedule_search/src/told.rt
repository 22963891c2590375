//! What the run of a whole schedule tells.
ghost use Rattle.std.specs.Prelude.{◌≡◌, ◌+◌, ◌^◌, ◌<◌, ◌≤◌, ◌++◌, length, IfOk, OnOk};
ghost use Rattle.task_system.specs.Run.{turn, run_from, run, MayHappen, MayAllHappen};
ghost use Rattle.schedule_search.specs.Problem.{search_of, CanDo};

use crate::meeting::all_events;
use crate::place::started;
use crate::problem::Problem;
use ipc_ids::{Event, NoMemory, Trace};
use schedule_replay::Replay;
use std::alloc::{AllocError, Global};

/// One event, whose entries go to the end of `told`.
fn tell_event(replay: &mut Replay, told: &mut Trace, event: &Event) -> Result<(), AllocError>
    requires few { replay.old.state.kernel.events < 2 ^ 24 }
    requires may { MayHappen replay.old.state event.now }
    ensures state { OnOk result (replay.new.state ≡ (turn replay.old.state event.now).state) }
    ensures entries { OnOk result (told.new.entries
        ≡ told.old.entries ++ (turn replay.old.state event.now).entries) }
    ensures count { replay.new.state.kernel.events ≤ replay.old.state.kernel.events + 1 }
{
    match replay.step(event, told) {
        Ok(()) => Ok(()),
        Err(NoMemory) => Err(AllocError),
    }
}

/// The entries of these events, which `replay` does one after the other.
fn told_from(alloc: Global, replay: &mut Replay, events: &[Event]) -> Result<Trace, AllocError>
    requires few { replay.old.state.kernel.events + length events.now ≤ 2 ^ 24 }
    requires may { MayAllHappen replay.old.state events.now }
    ensures { IfOk result (λ told. told.entries ≡ run_from replay.old.state events.now) }
{
    let mut told = Trace::new(alloc);
    for event in events {
        tell_event(replay, &mut told, event)?;
    }
    Ok(told)
}

/// The entries of a whole run: of the events that come first, and of these behind them.
///
/// # Errors
///
/// `AllocError` where no memory was found.
pub fn told_by(alloc: Global, problem: &Problem<'_>, events: &[Event]) -> Result<Trace, AllocError>
    requires can { CanDo (search_of problem.now) events.now }
    ensures { IfOk result (λ told. told.entries
        ≡ run problem.now.script.now (problem.now.from.now ++ events.now)) }
{
    let all = all_events(alloc, problem.from, events)?;
    let mut replay = started(alloc, problem.script)?;
    let told = told_from(alloc, &mut replay, all.as_slice());
    replay.close();
    told
}
