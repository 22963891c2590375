//! Moves by their numbers.
ghost use Rattle.std.specs.Prelude.{◌≡◌, IfOk, length, reverse};
ghost use Rattle.search_core.specs.Moves.{AreMoves};
ghost use Rattle.schedule_search.specs.Search.{events_of};

use ipc_ids::Event;
use std::alloc::{AllocError, Global};

/// The events of these moves, the oldest first.
pub(crate) fn events_by(
    alloc: Global,
    moves: &[Event],
    path: &[u32],
) -> Result<Vec<Event>, AllocError>
    requires { AreMoves (length moves.now) (reverse path.now) }
    ensures { IfOk result (λ events. events.items ≡ events_of moves.now (reverse path.now)) }
{
    let mut events = Vec::with_capacity(alloc, path.len())?;
    for m in path {
        events.push(moves[*m as usize])?;
    }
    Ok(events)
}
