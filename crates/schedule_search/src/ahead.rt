//! The steps that may come behind events, as a maze.
ghost use Rattle.std.specs.Prelude.{◌≡◌, ◌<◌, ◌^◌, true, false, Some, IfOk, length, reverse};
ghost use Rattle.run_words.specs.RunWords.{run_words};
ghost use Rattle.search_core.specs.Moves.{AreMoves};
ghost use Rattle.schedule_search.specs.Search.{state_behind};
ghost use Rattle.schedule_search.specs.Problem.{search_of, IsAtStart};
ghost use Rattle.schedule_search.specs.Ahead.{FitsAhead, IsClosed, ahead, steps_of};

use crate::open_calls::is_open;
use crate::place::{all_calls, do_events, lead, started, words_of};
use crate::problem::Problem;
use ipc_ids::{CallNo, Event, TaskNo};
use schedule_replay::Replay;
use search_core::{Maze, Visit};
use std::alloc::{AllocError, Global};

/// The steps of all tasks behind events, of which one may close a call.
#[derive(Drop)]
pub(crate) struct Ahead<'a> {
    pub problem: &'a Problem<'a>,
    pub events: &'a [Event],
    /// How many tasks there are behind the events.
    pub tasks: u32,
    pub call: CallNo,
}

impl Ahead<'_> {
    /// Whether the call is closed behind these steps, and the words of the state there. `replay` is led
    /// there from where it starts.
    fn visit_there(
        &self,
        alloc: Global,
        path: &[u32],
        replay: &mut Replay,
    ) -> Result<Visit, AllocError>
        requires fits { FitsAhead (search_of self.now.problem.now) self.now.events.now self.now.tasks
            self.now.call.0 }
        requires few { length path.now < 2 ^ 20 }
        requires moves { AreMoves self.now.tasks (reverse path.now) }
        requires at_start { IsAtStart self.now.problem.now.script.now replay.old.state }
        ensures met { IfOk result (λ visit. visit.met ≡ Some true
            → IsClosed (state_behind (search_of self.now.problem.now) self.now.events.now)
            self.now.call.0 (reverse path.now)) }
        ensures unmet { IfOk result (λ visit. visit.met ≡ Some false
            → IsClosed (state_behind (search_of self.now.problem.now) self.now.events.now)
            self.now.call.0 (reverse path.now) → ⊥) }
        ensures code { IfOk result (λ visit. visit.code.items ≡ run_words
            (ahead (state_behind (search_of self.now.problem.now) self.now.events.now)
            (reverse path.now))) }
    {
        lead(alloc, self.problem, self.events, replay)?;
        let steps = steps_by(alloc, path)?;
        let done = do_events(alloc, replay, steps.as_slice());
        drop(steps);
        done?;
        let open = is_open(None, all_calls(replay).get(self.call));
        let code = words_of(alloc, replay)?;
        Ok(Visit {
            met: Some(!open),
            code,
        })
    }
}

impl Maze for Ahead<'_> {
    ghost fits = { λ s. FitsAhead (search_of s.problem.now) s.events.now s.tasks s.call.0 };

    ghost moves = { λ s. s.tasks };

    ghost meets = { λ s p. IsClosed (state_behind (search_of s.problem.now) s.events.now) s.call.0 p };

    ghost code = { λ s p. run_words (ahead (state_behind (search_of s.problem.now) s.events.now) p) };

    ghost code_goes_on = { λ s fits. fits.words_go_on };

    ghost goal_goes_on = { λ s fits. fits.goal_goes_on };

    fn moves(&self) -> u32 {
        self.tasks
    }

    fn visit(&self, alloc: Global, path: &[u32]) -> Result<Visit, AllocError> {
        let mut replay = started(alloc, self.problem.script)?;
        let visit = self.visit_there(alloc, path, &mut replay);
        replay.close();
        visit
    }

    fn code(&self, alloc: Global, path: &[u32]) -> Result<Vec<u64>, AllocError> {
        let visit = self.visit(alloc, path)?;
        Ok(visit.code)
    }
}

/// The steps of these numbers.
fn steps_by(alloc: Global, path: &[u32]) -> Result<Vec<Event>, AllocError>
    ensures { IfOk result (λ steps. steps.items ≡ steps_of (reverse path.now)) }
{
    let mut steps = Vec::with_capacity(alloc, path.len())?;
    for m in path {
        steps.push(Event::Step(TaskNo(*m as u64 + 1)))?;
    }
    Ok(steps)
}
