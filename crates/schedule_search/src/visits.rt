//! Where the events of moves lead.
ghost use Rattle.std.specs.Prelude.{◌≡◌, ◌∷◌, ◌++◌, [], true, false, Some, IfOk, OnOk, length};
ghost use Rattle.run_words.specs.Reached.{spawn_of, spawns_of};
ghost use Rattle.run_words.specs.RunWords.{run_words};
ghost use Rattle.schedule_search.specs.Search.{may_try, state_behind};
ghost use Rattle.schedule_search.specs.Meeting.{Finds};
ghost use Rattle.schedule_search.specs.Left.{left_behind};
ghost use Rattle.schedule_search.specs.Code.{goals_left, code_behind};
ghost use Rattle.schedule_search.specs.Problem.{search_of, CanTry, CanDo, IsAtStart};

use crate::kills::{counted, kills_in};
use crate::left::goals_left;
use crate::meeting::is_last_met;
use crate::place::{WORDS, lead, started};
use crate::problem::Problem;
use crate::trying::may_try;
use ipc_ids::{Event, Trace};
use run_words::push_run;
use schedule_replay::Replay;
use search_core::Visit;
use std::alloc::{AllocError, Global};

/// Adds the template of the task that an event makes, if it makes one.
fn push_spawn(event: &Event, spawned: &mut Vec<u64>) -> Result<(), AllocError>
    ensures { OnOk result (spawned.new.items ≡ spawned.old.items ++ spawn_of event.now) }
{
    match event {
        Event::Spawn(place) => spawned.push(*place as u64)?,
        Event::Step(_) | Event::Kill(_) | Event::Hangup(_, _) => {}
    }
    Ok(())
}

/// The templates of the tasks that events make, in turn.
fn spawns_of(alloc: Global, events: &[Event]) -> Result<Vec<u64>, AllocError>
    ensures { IfOk result (λ spawned. spawned.items ≡ spawns_of events.now) }
{
    let mut spawned = Vec::new(alloc);
    for event in events {
        push_spawn(event, &mut spawned)?;
    }
    Ok(spawned)
}

/// Adds the templates of the tasks that these events make, and the words of the state.
fn push_behind(
    alloc: Global,
    events: &[Event],
    replay: &Replay,
    words: &mut Vec<u64>,
) -> Result<(), AllocError>
    ensures { OnOk result (words.new.items ≡ words.old.items
        ++ (length (spawns_of events.now) ∷ (spawns_of events.now ++ run_words replay.now.state))) }
{
    let spawned = spawns_of(alloc, events)?;
    words.push(spawned.len() as u64)?;
    words.extend_from_slice(spawned.as_slice())?;
    push_run(replay.system(), words)?;
    Ok(())
}

/// What tells states apart: the templates of the tasks that these events make, and the words.
pub(crate) fn words_behind(
    alloc: Global,
    events: &[Event],
    replay: &Replay,
) -> Result<Vec<u64>, AllocError>
    ensures { IfOk result (λ words. words.items
        ≡ length (spawns_of events.now) ∷ (spawns_of events.now ++ run_words replay.now.state)) }
{
    let mut words = Vec::with_capacity(alloc, WORDS)?;
    push_behind(alloc, events, replay, &mut words)?;
    Ok(words)
}

/// So many kills, so many goals that are left, and the same.
fn code_of(
    alloc: Global,
    kills: u64,
    left: u64,
    events: &[Event],
    replay: &Replay,
) -> Result<Vec<u64>, AllocError>
    ensures { IfOk result (λ code. code.items ≡ kills ∷ (left
        ∷ (length (spawns_of events.now) ∷ (spawns_of events.now ++ run_words replay.now.state)))) }
{
    let mut code = Vec::with_capacity(alloc, WORDS)?;
    code.push(kills)?;
    code.push(left)?;
    push_behind(alloc, events, replay, &mut code)?;
    Ok(code)
}

/// Whether events that may be tried lead to what is looked for; `None` where there is no room to tell,
/// or with no `room`, where it is not asked. `replay` stands where they lead, so many goals before the
/// last are left there, and what counts for the last is told.
fn is_found(
    alloc: Global,
    problem: &Problem<'_>,
    events: &[Event],
    left: usize,
    replay: &Replay,
    told: &Trace,
    room: Option<u32>,
) -> Result<Option<bool>, AllocError>
    requires can { CanDo (search_of problem.now) events.now }
    requires here { replay.now.state ≡ state_behind (search_of problem.now) events.now }
    requires left { left ≡ goals_left (search_of problem.now) events.now }
    requires entries { told.now.entries
        ≡ (left_behind (search_of problem.now) events.now).told }
    ensures met { IfOk result (λ o. o ≡ Some true → Finds (search_of problem.now) events.now) }
    ensures unmet { IfOk result (λ o. o ≡ Some false
        → Finds (search_of problem.now) events.now → ⊥) }
{
    if left > 0 {
        return Ok(Some(false));
    }
    let Some(room) = room else {
        return Ok(None);
    };
    is_last_met(alloc, problem, events, replay, told, room)
}

/// The code of where events lead: there `replay` stands, and so many goals before the last are left.
fn code_there(
    alloc: Global,
    problem: &Problem<'_>,
    events: &[Event],
    left: usize,
    replay: &Replay,
) -> Result<Vec<u64>, AllocError>
    requires tried { may_try (search_of problem.now) events.now ≡ true }
    requires here { replay.now.state ≡ state_behind (search_of problem.now) events.now }
    requires left { left ≡ goals_left (search_of problem.now) events.now }
    ensures { IfOk result (λ code. code.items ≡ code_behind (search_of problem.now) events.now) }
{
    let kills = counted(problem.kills, kills_in(events));
    code_of(alloc, kills, left as u64, events, replay)
}

/// Whether events that may be tried lead to what is looked for, and the code of where they lead.
/// `replay` is led there from where it starts.
fn visit_there(
    alloc: Global,
    problem: &Problem<'_>,
    events: &[Event],
    replay: &mut Replay,
    told: &mut Trace,
    room: Option<u32>,
) -> Result<Visit, AllocError>
    requires can { CanDo (search_of problem.now) events.now }
    requires at_start { IsAtStart problem.now.script.now replay.old.state }
    requires entries { told.old.entries ≡ [] }
    ensures met { IfOk result (λ visit. visit.met ≡ Some true
        → Finds (search_of problem.now) events.now) }
    ensures unmet { IfOk result (λ visit. visit.met ≡ Some false
        → Finds (search_of problem.now) events.now → ⊥) }
    ensures code { IfOk result (λ visit. visit.code.items
        ≡ code_behind (search_of problem.now) events.now) }
{
    lead(alloc, problem, &[], replay)?;
    let left = goals_left(alloc, problem, events, replay, told)?;
    let met = is_found(alloc, problem, events, left, replay, told, room)?;
    let code = code_there(alloc, problem, events, left, replay)?;
    Ok(Visit { met, code })
}

/// Whether these events may be tried and lead to what is looked for, and the code of where they lead.
/// With no `room` the code alone is asked.
pub(crate) fn visit_behind(
    alloc: Global,
    problem: &Problem<'_>,
    events: &[Event],
    room: Option<u32>,
) -> Result<Visit, AllocError>
    requires can { CanTry (search_of problem.now) events.now }
    ensures met { IfOk result (λ visit. visit.met ≡ Some true
        → Finds (search_of problem.now) events.now) }
    ensures unmet { IfOk result (λ visit. visit.met ≡ Some false
        → Finds (search_of problem.now) events.now → ⊥) }
    ensures code { IfOk result (λ visit. visit.code.items
        ≡ code_behind (search_of problem.now) events.now) }
{
    if !may_try(problem, events) {
        return Ok(Visit {
            met: Some(false),
            code: Vec::new(alloc),
        });
    }
    let mut replay = started(alloc, problem.script)?;
    let mut told = Trace::new(alloc);
    let visit = visit_there(alloc, problem, events, &mut replay, &mut told, room);
    replay.close();
    visit
}
