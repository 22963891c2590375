//! Connections as words.
ghost use Rattle.std.specs.Prelude.{◌≡◌, ◌++◌, OnOk};
ghost use Rattle.state_words.specs.Words.{list_words};
ghost use Rattle.state_words.specs.AsyncWords.{queued_words, conn_words};

use crate::worded::{Worded, push_both, push_three, push_two};
use fibril_core::{Conn, Conns, Queue, Queued};
use std::alloc::AllocError;

impl Worded for Queued {
    ghost words = { queued_words };

    fn push_to(&self, out: &mut Vec<u64>) -> Result<(), AllocError> {
        push_two(&self.call, &self.msg, out)
    }
}

impl Worded for Queue {
    ghost words = { list_words queued_words };

    fn push_to(&self, out: &mut Vec<u64>) -> Result<(), AllocError> {
        let (front, back) = self.as_slices();
        push_both(front, back, out)
    }
}

impl Worded for Conn {
    ghost words = { conn_words };

    fn push_to(&self, out: &mut Vec<u64>) -> Result<(), AllocError> {
        push_three(&self.fibril, &self.label, &self.routes, out)?;
        push_three(&self.queue, &self.closed, &self.close_call, out)
    }
}

impl Worded for Conns {
    ghost words = { λ conns. list_words conn_words conns.conns };

    fn push_to(&self, out: &mut Vec<u64>) -> Result<(), AllocError> {
        let (front, back) = self.as_slices();
        push_both(front, back, out)
    }
}
