//! What a search over the schedules of a script answers.
ghost use Rattle.std.specs.Prelude.{◌≡◌, ◌<◌, ◌^◌, IfOk};
ghost use Rattle.schedule_search.specs.Search.{IsSound};
ghost use Rattle.schedule_search.specs.Problem.{search_of};
ghost use Rattle.schedule_search.specs.Right.{IsRight};

use crate::path::events_by;
use crate::problem::{Problem, Schedules};
use ipc_ids::Event;
use search_core::{Answer, search};
use std::alloc::{AllocError, Global};

/// What a search over the schedules of a script answers.
#[derive(Drop)]
pub enum Outcome {
    /// The first schedule that leads to what is looked for, without the events that come before all.
    Found(Vec<Event>),
    /// No schedule of so many events leads there; so many states were seen.
    NoneWithin(u64),
    /// No schedule leads there; so many states were seen, and there are no more.
    NoneAtAll(u64),
    /// There are more states than there is room for, so nothing is known.
    NoRoom,
}

/// The first schedule that leads to what the problem looks for: of at most `most` events, and of the
/// least number of them. Of those the first in the order of the moves. At most `room` states are
/// gone on from, and no more once more than `room` were seen; as many behind each, where the goal
/// asks what may come.
///
/// # Errors
///
/// `AllocError` where no memory was found, for the search or for the tasks.
pub fn search_schedules(
    alloc: Global,
    problem: &Problem<'_>,
    most: u32,
    room: u32,
) -> Result<Outcome, AllocError>
    requires sound { IsSound (search_of problem.now) }
    requires few { most < 2 ^ 20 }
    ensures { IfOk result (λ outcome. IsRight (search_of problem.now) most outcome) }
{
    let maze = Schedules { problem, room };
    let answer = search(alloc, &maze, most, room)?;
    match answer {
        Answer::Found(path) => {
            let events = events_by(alloc, problem.moves, path.as_slice())?;
            Ok(Outcome::Found(events))
        }
        Answer::NoneWithin(states) => Ok(Outcome::NoneWithin(states)),
        Answer::NoneAtAll(states) => Ok(Outcome::NoneAtAll(states)),
        Answer::NoRoom => Ok(Outcome::NoRoom),
    }
}
