//! Fibrils as words.
ghost use Rattle.std.specs.Prelude.{◌≡◌, ◌++◌, OnOk};
ghost use Rattle.fibril_core.specs.Fibrils.{fibril_at};
ghost use Rattle.state_words.specs.Words.{at_words, list_words};
ghost use Rattle.state_words.specs.AsyncWords.{why_words, status_words, fibril_words, order_words};

use crate::parts::push_words;
use crate::worded::{Worded, push_three};
use fibril_core::{Fibril, Fibrils, Status};
use ipc_ids::{FibrilNo, Why};
use std::alloc::AllocError;

impl Worded for Why {
    ghost words = { why_words };

    fn push_to(&self, out: &mut Vec<u64>) -> Result<(), AllocError> {
        match self {
            Why::Answer(call) => push_words(&[0, call.0], out),
            Why::Mutex(session) => push_words(&[1, *session as u64], out),
            Why::Phone => push_words(&[2], out),
            Why::Message => push_words(&[3], out),
        }
    }
}

impl Worded for Status {
    ghost words = { status_words };

    fn push_to(&self, out: &mut Vec<u64>) -> Result<(), AllocError> {
        match self {
            Status::Ready => push_words(&[0], out),
            Status::Ended => push_words(&[1], out),
            Status::Blocked(why) => {
                out.push(2)?;
                why.push_to(out)
            }
        }
    }
}

impl Worded for Fibril {
    ghost words = { fibril_words };

    fn push_to(&self, out: &mut Vec<u64>) -> Result<(), AllocError> {
        push_three(&self.number, &self.status, &self.stamp, out)
    }
}

/// The fibril with this number, where there is one.
fn push_fibril_at(fibrils: &Fibrils, f: FibrilNo, out: &mut Vec<u64>) -> Result<(), AllocError>
    ensures { OnOk result (out.new.items
        ≡ out.old.items ++ at_words fibril_words (fibril_at fibrils.now.order f.0)) }
{
    match fibrils.fibril(f) {
        Some(fibril) => fibril.push_to(out),
        None => Ok(()),
    }
}

/// How many fibrils were made, and each of them.
fn push_all_fibrils(fibrils: &Fibrils, out: &mut Vec<u64>) -> Result<(), AllocError>
    ensures { OnOk result (out.new.items
        ≡ out.old.items ++ list_words fibril_words fibrils.now.order.fibrils) }
{
    let made = fibrils.made();
    out.push(made)?;
    for place in 0..made {
        push_fibril_at(fibrils, FibrilNo(place + 1), out)?;
    }
    Ok(())
}

impl Worded for Fibrils {
    ghost words = { λ fibrils. order_words fibrils.order };

    fn push_to(&self, out: &mut Vec<u64>) -> Result<(), AllocError> {
        push_all_fibrils(self, out)?;
        push_words(&[self.next_stamp()], out)
    }
}
