//! The place of the next operation in a body.
ghost use Rattle.std.specs.Prelude.{◌≡◌};
ghost use Rattle.registers.specs.Registers.{next_place, place_if, place_behind};

use ipc_ids::Outcome;

/// The place behind this one. No body has an operation from 2^62 on.
pub fn next_place(place: usize) -> usize
    ensures { result ≡ next_place place }
{
    if place < 1 << 62 { place + 1 } else { place }
}

/// The place of a jump where it is made, else the next one.
pub(crate) fn place_if(jumps: bool, to: u32, place: usize) -> usize
    ensures { result ≡ place_if jumps to place }
{
    if jumps {
        to as usize
    } else {
        next_place(place)
    }
}

/// The place behind an operation whose request had this outcome. Where nothing came it is the same.
pub(crate) fn place_behind(place: usize, got: &Outcome) -> usize
    ensures { result ≡ place_behind place got.now }
{
    match got {
        Outcome::Empty => place,
        _ => next_place(place),
    }
}
