//! What fibrils keep as words.
ghost use Rattle.std.specs.Prelude.{◌≡◌, ◌++◌, OnOk};
ghost use Rattle.std.specs.Option.{option_copied};
ghost use Rattle.state_words.specs.Words.{list_words, option_words};
ghost use Rattle.state_words.specs.AsyncWords.{slot_words, exchange_number_words, context_words};

use crate::parts::{push_numbers, push_words};
use crate::worded::{Worded, push_three};
use async_task::{Context, Contexts, FibrilSlots, Handles, Slot};
use std::alloc::AllocError;

impl Worded for Slot {
    ghost words = { slot_words };

    fn push_to(&self, out: &mut Vec<u64>) -> Result<(), AllocError> {
        match self {
            Slot::Closed => push_words(&[0], out),
            Slot::Sent(call) => push_words(&[1, call.0], out),
            Slot::Answered(call, reply) => {
                push_words(&[2, call.0], out)?;
                reply.push_to(out)
            }
        }
    }
}

impl Worded for FibrilSlots {
    ghost words = { list_words slot_words };

    fn push_to(&self, out: &mut Vec<u64>) -> Result<(), AllocError> {
        let count = self.count();
        out.push(count as u64)?;
        for slot in 0..count {
            self.get(slot).push_to(out)?;
        }
        Ok(())
    }
}

impl Worded for Handles {
    ghost words = { list_words (option_words exchange_number_words) };

    fn push_to(&self, out: &mut Vec<u64>) -> Result<(), AllocError> {
        let count = self.count();
        out.push(count as u64)?;
        for handle in 0..count {
            self.get(handle).push_to(out)?;
        }
        Ok(())
    }
}

impl Worded for Context {
    ghost words = { context_words };

    fn push_to(&self, out: &mut Vec<u64>) -> Result<(), AllocError> {
        push_words(&[self.body as u64, self.place as u64], out)?;
        push_numbers(self.registers.as_slice(), out)?;
        push_three(&self.slots, &self.handles, &self.short, out)
    }
}

/// What stands at a place, where something does.
fn push_kept(context: Option<&Context>, out: &mut Vec<u64>) -> Result<(), AllocError>
    ensures { OnOk result (out.new.items
        ≡ out.old.items ++ option_words context_words (option_copied context.entry)) }
{
    match context {
        None => push_words(&[0], out),
        Some(context) => {
            out.push(1)?;
            context.push_to(out)
        }
    }
}

impl Worded for Contexts {
    ghost words = { λ contexts. list_words (option_words context_words) contexts.kept };

    fn push_to(&self, out: &mut Vec<u64>) -> Result<(), AllocError> {
        let made = self.made();
        out.push(made as u64)?;
        for place in 0..made {
            push_kept(self.get(place), out)?;
        }
        Ok(())
    }
}
