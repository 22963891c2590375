//! The schedules of a script, by their moves.
ghost use Rattle.std.specs.Prelude.{◌≡◌, length};
ghost use Rattle.schedule_search.specs.Search.{events_of};
ghost use Rattle.schedule_search.specs.Meeting.{Finds};
ghost use Rattle.schedule_search.specs.Code.{Fits, code_behind, rest_words};
ghost use Rattle.schedule_search.specs.Problem.{search_of};

use crate::path::events_by;
use crate::rest::rest_words;
use crate::visits::visit_behind;
use ipc_ids::Event;
use script_reader::Script;
use search_core::{Labelled, Maze, Visit};
use search_goals::Goal;
use std::alloc::{AllocError, Global};

/// A template, by its place, and how many tasks of it a schedule may make at most.
#[derive(Clone, Copy, Drop)]
pub struct MostMade {
    pub place: u32,
    pub most: u32,
}

/// What is searched: the schedules that begin with `from` and go on with moves, each of which is one
/// of `moves` and can come any number of times, once there is the task that it is on. At most `kills`
/// of the moves of a schedule are kills or, with `None`, any number; and of each template that
/// `spawns` names they make no more tasks than it says. They meet the goals of `earlier` in turn, and
/// then `goal`.
#[derive(Drop)]
pub struct Problem<'a> {
    pub script: &'a Script,
    pub from: &'a [Event],
    pub moves: &'a [Event],
    pub kills: Option<u32>,
    pub spawns: &'a [MostMade],
    pub earlier: &'a [Goal],
    pub goal: &'a Goal,
}

/// The schedules of a problem. Behind each at most so many states are gone on from, where the goal
/// asks what may come.
#[derive(Drop)]
pub(crate) struct Schedules<'a> {
    pub problem: &'a Problem<'a>,
    pub room: u32,
}

impl Maze for Schedules<'_> {
    ghost fits = { λ s. Fits (search_of s.problem.now) };

    ghost moves = { λ s. length s.problem.now.moves.now };

    ghost meets = { λ s p. Finds (search_of s.problem.now) (events_of s.problem.now.moves.now p) };

    ghost code = { λ s p. code_behind (search_of s.problem.now) (events_of s.problem.now.moves.now p) };

    ghost code_goes_on = { λ s fits. fits.code_goes_on };

    ghost goal_goes_on = { λ s fits. fits.goal_goes_on };

    fn moves(&self) -> u32 {
        self.problem.moves.len() as u32
    }

    fn visit(&self, alloc: Global, path: &[u32]) -> Result<Visit, AllocError> {
        let events = events_by(alloc, self.problem.moves, path)?;
        visit_behind(alloc, self.problem, events.as_slice(), Some(self.room))
    }

    fn code(&self, alloc: Global, path: &[u32]) -> Result<Vec<u64>, AllocError> {
        let events = events_by(alloc, self.problem.moves, path)?;
        let visited = visit_behind(alloc, self.problem, events.as_slice(), None);
        drop(events);
        let visit = visited?;
        Ok(visit.code)
    }
}

impl Labelled for Schedules<'_> {
    ghost label = { λ s p. rest_words (search_of s.problem.now) (events_of s.problem.now.moves.now p) };

    ghost label_alike = { λ s fits. fits.rest_alike };

    fn label(&self, alloc: Global, path: &[u32]) -> Result<Option<Vec<u64>>, AllocError> {
        let events = events_by(alloc, self.problem.moves, path)?;
        rest_words(alloc, self.problem, events.as_slice())
    }
}
