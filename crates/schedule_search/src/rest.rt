//! Whether nothing moves behind events.
ghost use Rattle.std.specs.Prelude.{◌≡◌, ◌&&◌, length, IfOk};
ghost use Rattle.script_lines.specs.Sound.{IsTask};
ghost use Rattle.run_words.specs.RunWords.{run_words};
ghost use Rattle.schedule_search.specs.Search.{state_behind};
ghost use Rattle.schedule_search.specs.OpenCalls.{has_open_call};
ghost use Rattle.schedule_search.specs.Meeting.{changes_nothing, is_at_rest};
ghost use Rattle.schedule_search.specs.Code.{rest_words};
ghost use Rattle.schedule_search.specs.Problem.{search_of, CanTry, CanDo, IsAtStart};
ghost use Rattle.search_core.specs.Survey.{words_in};

use crate::open_calls::has_open_call;
use crate::place::{all_calls, do_events, lead, started, tasks, words_of};
use crate::problem::Problem;
use crate::trying::may_try;
use crate::visits::words_behind;
use ipc_ids::{Event, TaskNo};
use schedule_replay::Replay;
use std::alloc::{AllocError, Global};

/// Whether behind these events one more step of a task changes nothing but counters, where `words` are
/// those of the state before it. `replay` is led behind the step, from where it starts.
fn step_changes_nothing(
    alloc: Global,
    problem: &Problem<'_>,
    events: &[Event],
    replay: &mut Replay,
    words: &[u64],
    task: TaskNo,
) -> Result<bool, AllocError>
    requires can { CanDo (search_of problem.now) events.now }
    requires at_start { IsAtStart problem.now.script.now replay.old.state }
    requires here { words.now ≡ run_words (state_behind (search_of problem.now) events.now) }
    requires there { let here = state_behind (search_of problem.now) events.now in
        IsTask (length here.kernel.tasks.alive) task.0 }
    ensures { IfOk result (λ same. same
        ≡ changes_nothing (state_behind (search_of problem.now) events.now) task.0) }
{
    lead(alloc, problem, events, replay)?;
    do_events(alloc, replay, &[Event::Step(task)])?;
    let after = words_of(alloc, replay)?;
    Ok(after.as_slice() == words)
}

/// The same, with tasks that are made for it.
fn changes_nothing(
    alloc: Global,
    problem: &Problem<'_>,
    events: &[Event],
    words: &[u64],
    task: TaskNo,
) -> Result<bool, AllocError>
    requires can { CanDo (search_of problem.now) events.now }
    requires here { words.now ≡ run_words (state_behind (search_of problem.now) events.now) }
    requires there { let here = state_behind (search_of problem.now) events.now in
        IsTask (length here.kernel.tasks.alive) task.0 }
    ensures { IfOk result (λ same. same
        ≡ changes_nothing (state_behind (search_of problem.now) events.now) task.0) }
{
    let mut replay = started(alloc, problem.script)?;
    let same = step_changes_nothing(alloc, problem, events, &mut replay, words, task);
    replay.close();
    same
}

/// Whether no step of any task does. `replay` stands behind these events.
pub(crate) fn is_at_rest(
    alloc: Global,
    problem: &Problem<'_>,
    events: &[Event],
    replay: &Replay,
) -> Result<bool, AllocError>
    requires can { CanDo (search_of problem.now) events.now }
    requires here { replay.now.state ≡ state_behind (search_of problem.now) events.now }
    ensures { IfOk result (λ rests. rests ≡ is_at_rest replay.now.state) }
{
    let words = words_of(alloc, replay)?;
    let count = tasks(replay);
    for t in 0..count {
        let task = TaskNo(t as u64 + 1);
        let same = changes_nothing(alloc, problem, events, words.as_slice(), task)?;
        if !same {
            return Ok(false);
        }
    }
    Ok(true)
}

/// Whether a call is not answered besides: of this task, or of any.
pub(crate) fn is_stuck(
    alloc: Global,
    problem: &Problem<'_>,
    events: &[Event],
    replay: &Replay,
    task: Option<TaskNo>,
) -> Result<bool, AllocError>
    requires can { CanDo (search_of problem.now) events.now }
    requires here { replay.now.state ≡ state_behind (search_of problem.now) events.now }
    ensures { IfOk result (λ stuck. stuck
        ≡ (has_open_call task replay.now.state.kernel.calls && is_at_rest replay.now.state)) }
{
    let waits = has_open_call(task, all_calls(replay));
    if !waits {
        return Ok(false);
    }
    is_at_rest(alloc, problem, events, replay)
}

/// What tells the state behind these events apart, where nothing moves there. `replay` is led there
/// from where it starts.
fn words_at_rest(
    alloc: Global,
    problem: &Problem<'_>,
    events: &[Event],
    replay: &mut Replay,
) -> Result<Option<Vec<u64>>, AllocError>
    requires can { CanDo (search_of problem.now) events.now }
    requires at_start { IsAtStart problem.now.script.now replay.old.state }
    ensures { IfOk result (λ o. words_in o ≡ rest_words (search_of problem.now) events.now) }
{
    lead(alloc, problem, events, replay)?;
    let rests = is_at_rest(alloc, problem, events, replay)?;
    if !rests {
        return Ok(None);
    }
    let words = words_behind(alloc, events, replay)?;
    Ok(Some(words))
}

/// What tells the state behind these events apart, where they may be tried and nothing moves there.
pub(crate) fn rest_words(
    alloc: Global,
    problem: &Problem<'_>,
    events: &[Event],
) -> Result<Option<Vec<u64>>, AllocError>
    requires can { CanTry (search_of problem.now) events.now }
    ensures { IfOk result (λ o. words_in o ≡ rest_words (search_of problem.now) events.now) }
{
    if !may_try(problem, events) {
        return Ok(None);
    }
    let mut replay = started(alloc, problem.script)?;
    let words = words_at_rest(alloc, problem, events, &mut replay);
    replay.close();
    words
}
