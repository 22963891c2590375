//! The naming service as words.
ghost use Rattle.std.specs.Prelude.{◌≡◌, ◌++◌, OnOk, slice_get};
ghost use Rattle.state_words.specs.Words.{list_words, at_words};
ghost use Rattle.state_words.specs.ProgramWords.{entry_words, received_words, work_words, naming_words};

use crate::ends::push_ends;
use crate::parts::push_words;
use crate::worded::{Worded, push_all, push_both, push_three};
use indexmap::IndexMap;
use naming_service::{NamingService, ReceivedCall, Work};
use std::alloc::AllocError;

/// A service with its phone, where there are so many.
fn push_entry_at(
    registry: &IndexMap<u64, u64>,
    place: usize,
    out: &mut Vec<u64>,
) -> Result<(), AllocError>
    ensures { OnOk result (out.new.items
        ≡ out.old.items ++ at_words entry_words (slice_get registry.now.entries place)) }
{
    match registry.get_index(place) {
        Some((service, phone)) => push_words(&[*service, *phone], out),
        None => Ok(()),
    }
}

/// How many services, and each with its phone.
fn push_registry(registry: &IndexMap<u64, u64>, out: &mut Vec<u64>) -> Result<(), AllocError>
    ensures { OnOk result (out.new.items
        ≡ out.old.items ++ list_words entry_words registry.now.entries) }
{
    out.push(registry.len() as u64)?;
    for place in 0..registry.len() {
        push_entry_at(registry, place, out)?;
    }
    Ok(())
}

impl Worded for ReceivedCall {
    ghost words = { received_words };

    fn push_to(&self, out: &mut Vec<u64>) -> Result<(), AllocError> {
        push_three(&self.number, &self.msg, &self.label, out)
    }
}

impl Worded for Work {
    ghost words = { work_words };

    fn push_to(&self, out: &mut Vec<u64>) -> Result<(), AllocError> {
        match self {
            Work::Answer { call, reply } => {
                push_words(&[0, call.0], out)?;
                reply.push_to(out)
            }
            Work::Forward { call, phone, msg } => {
                push_words(&[1, call.0, *phone], out)?;
                msg.push_to(out)
            }
        }
    }
}

/// The services, the pending calls, the introduced tasks and who waits for them, and what is to be done.
pub fn push_naming_service(service: &NamingService, out: &mut Vec<u64>) -> Result<(), AllocError>
    ensures { OnOk result (out.new.items ≡ out.old.items ++ naming_words service.now) }
{
    push_registry(service.registry(), out)?;
    push_all(service.pending(), out)?;
    push_ends(service.ends(), out)?;
    let (front, back) = service.work().as_slices();
    push_both(front, back, out)
}
