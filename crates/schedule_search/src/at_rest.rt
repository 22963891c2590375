//! The states at rest to which the schedules of a script lead.
ghost use Rattle.std.specs.Prelude.{◌≡◌, ◌<◌, ◌^◌, ℕ, List, Some, IfOk, length, map, slice_get};
ghost use Rattle.search_core.specs.Moves.{AreMoves};
ghost use Rattle.search_core.specs.Survey.{moves_of};
ghost use Rattle.schedule_search.specs.Search.{IsSound, events_of};
ghost use Rattle.schedule_search.specs.Problem.{search_of};
ghost use Rattle.schedule_search.specs.Survey.{IsSurvey, schedules_of};

use crate::path::events_by;
use crate::problem::{Problem, Schedules};
use ipc_ids::Event;
use search_core::{Survey, survey};
use std::alloc::{AllocError, Global};

/// The states at rest to which schedules of a script lead, which differ in more than counts and
/// stamps of calls that stand in one order: to each the first of the shortest schedules, without the
/// events that come before all.
#[derive(Drop)]
pub enum RestingStates {
    /// All to which any schedule leads; so many states were seen, and there are no more.
    All {
        schedules: Vec<Vec<Event>>,
        states: u64,
    },
    /// All to which a schedule of so many events leads; so many states were seen.
    Within {
        schedules: Vec<Vec<Event>>,
        states: u64,
    },
    /// There are more states than there is room for, so nothing is known.
    NoRoom,
}

/// The states at rest to which schedules of at most `most` events lead, whatever the problem looks
/// for. At most `room` states are gone on from, and no more once more than `room` were seen.
///
/// # Errors
///
/// `AllocError` where no memory was found, for the search or for the tasks.
pub fn survey_schedules(
    alloc: Global,
    problem: &Problem<'_>,
    most: u32,
    room: u32,
) -> Result<RestingStates, AllocError>
    requires sound { IsSound (search_of problem.now) }
    requires few { most < 2 ^ 20 }
    ensures { IfOk result (λ resting. IsSurvey (search_of problem.now) most resting) }
{
    let maze = Schedules { problem, room };
    let answer = survey(alloc, &maze, most, room)?;
    match answer {
        Survey::All { paths, places } => {
            let schedules = schedules_by(alloc, problem.moves, paths.as_slice())?;
            Ok(RestingStates::All {
                schedules,
                states: places,
            })
        }
        Survey::Within { paths, places } => {
            let schedules = schedules_by(alloc, problem.moves, paths.as_slice())?;
            Ok(RestingStates::Within {
                schedules,
                states: places,
            })
        }
        Survey::NoRoom => Ok(RestingStates::NoRoom),
    }
}

/// The events of the moves of each path.
fn schedules_by(
    alloc: Global,
    moves: &[Event],
    paths: &[Vec<u32>],
) -> Result<Vec<Vec<Event>>, AllocError>
    requires { (k : ℕ) (p : List ℕ) → slice_get (moves_of paths.now) k ≡ Some p
        → AreMoves (length moves.now) p }
    ensures { IfOk result (λ schedules. schedules_of schedules.items
        ≡ map (events_of moves.now) (moves_of paths.now)) }
{
    let mut schedules = Vec::new(alloc);
    for path in paths {
        let events = events_by(alloc, moves, path.as_slice())?;
        schedules.push(events)?;
    }
    Ok(schedules)
}
