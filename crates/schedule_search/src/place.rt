//! The tasks of a problem behind events, made anew each time.
//!
//! Who makes them lends them to one other function, and lets them go by `Replay::close`, where no `?`
//! stands between: else each way out of a function would let go of all their parts by itself, and to
//! prove that takes long.
ghost use Rattle.std.specs.Prelude.{◌≡◌, ◌+◌, ◌^◌, ◌<◌, ◌≤◌, length, IfOk, OnOk};
ghost use Rattle.task_system.specs.Run.{turn, state_after, MayHappen, MayAllHappen};
ghost use Rattle.run_words.specs.RunWords.{run_words};
ghost use Rattle.schedule_search.specs.Search.{state_behind};
ghost use Rattle.schedule_search.specs.Problem.{search_of, CanDo, IsAtStart};

use crate::problem::Problem;
use answerbox::Boxes;
use ipc_ids::{Event, NoMemory, Trace};
use run_words::push_run;
use schedule_replay::Replay;
use script_reader::Script;
use std::alloc::{AllocError, Global};

/// There is room for so many words at once: a task has some hundred.
pub(crate) const WORDS: usize = 1024;

/// The tasks of a script before the first event.
pub(crate) fn started(alloc: Global, script: &Script) -> Result<Replay, AllocError>
    ensures { IfOk result (λ replay. IsAtStart script.now replay.state) }
{
    match Replay::new(alloc, script) {
        Ok(replay) => Ok(replay),
        Err(NoMemory) => Err(AllocError),
    }
}

/// One event, whose entries take the place of those in `out`.
pub(crate) fn do_event(
    replay: &mut Replay,
    out: &mut Trace,
    event: &Event,
) -> Result<(), AllocError>
    requires few { replay.old.state.kernel.events < 2 ^ 24 }
    requires may { MayHappen replay.old.state event.now }
    ensures state { OnOk result (replay.new.state ≡ (turn replay.old.state event.now).state) }
    ensures entries { OnOk result (out.new.entries
        ≡ (turn replay.old.state event.now).entries) }
    ensures count { replay.new.state.kernel.events ≤ replay.old.state.kernel.events + 1 }
{
    out.clear();
    match replay.step(event, out) {
        Ok(()) => Ok(()),
        Err(NoMemory) => Err(AllocError),
    }
}

/// One event after the other.
pub(crate) fn do_events(
    alloc: Global,
    replay: &mut Replay,
    events: &[Event],
) -> Result<(), AllocError>
    requires few { replay.old.state.kernel.events + length events.now ≤ 2 ^ 24 }
    requires may { MayAllHappen replay.old.state events.now }
    ensures state { OnOk result (replay.new.state ≡ state_after replay.old.state events.now) }
    ensures count { OnOk result (replay.new.state.kernel.events
        ≤ replay.old.state.kernel.events + length events.now) }
{
    let mut told = Trace::new(alloc);
    for event in events {
        do_event(replay, &mut told, event)?;
    }
    Ok(())
}

/// Leads the tasks from where they start through the events that come first, and these behind them.
pub(crate) fn lead(
    alloc: Global,
    problem: &Problem<'_>,
    events: &[Event],
    replay: &mut Replay,
) -> Result<(), AllocError>
    requires can { CanDo (search_of problem.now) events.now }
    requires at_start { IsAtStart problem.now.script.now replay.old.state }
    ensures state { OnOk result (replay.new.state ≡ state_behind (search_of problem.now) events.now) }
    ensures count { OnOk result (replay.new.state.kernel.events ≤ 65536 + length events.now) }
{
    do_events(alloc, replay, problem.from)?;
    do_events(alloc, replay, events)?;
    Ok(())
}

/// How many tasks there are.
pub(crate) fn tasks(replay: &Replay) -> usize
    ensures { result ≡ length replay.now.state.kernel.tasks.alive }
{
    replay.system().kernel().board().alive().len()
}

/// The calls of all tasks.
pub(crate) fn all_calls(replay: &Replay) -> &Boxes
    ensures { result.now.calls ≡ replay.now.state.kernel.calls }
{
    replay.system().kernel().board().boxes()
}

/// The words of the state.
pub(crate) fn words_of(alloc: Global, replay: &Replay) -> Result<Vec<u64>, AllocError>
    ensures { IfOk result (λ words. words.items ≡ run_words replay.now.state) }
{
    let mut words = Vec::with_capacity(alloc, WORDS)?;
    push_run(replay.system(), &mut words)?;
    Ok(words)
}
