//! Awaited calls and owed answers as words.
ghost use Rattle.std.specs.Prelude.{◌≡◌, ◌++◌, OnOk};
ghost use Rattle.state_words.specs.AsyncWords.{awaited_words, owed_words};

use crate::parts::push_words;
use crate::worded::{Worded, push_three};
use async_task::Awaited;
use ipc_ids::{CallNo, Code};
use std::alloc::AllocError;

impl Worded for Awaited {
    ghost words = { awaited_words };

    fn push_to(&self, out: &mut Vec<u64>) -> Result<(), AllocError> {
        push_three(&self.call, &self.fibril, &self.slot, out)
    }
}

impl Worded for (CallNo, Code) {
    ghost words = { owed_words };

    fn push_to(&self, out: &mut Vec<u64>) -> Result<(), AllocError> {
        push_words(&[self.0.0, self.1.0], out)
    }
}
