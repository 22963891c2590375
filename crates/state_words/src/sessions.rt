//! Sessions and exchanges as words.
ghost use Rattle.std.specs.Prelude.{◌≡◌, ◌++◌, OnOk};
ghost use Rattle.state_words.specs.AsyncWords.{mode_words, held_words, session_words, exchange_words, pool_words};

use crate::parts::push_words;
use crate::worded::{Worded, push_all, push_three, push_two};
use async_sessions::{Exchange, Held, Session, Sessions};
use ipc_ids::ExchangeMode;
use std::alloc::AllocError;

impl Worded for ExchangeMode {
    ghost words = { mode_words };

    fn push_to(&self, out: &mut Vec<u64>) -> Result<(), AllocError> {
        match self {
            ExchangeMode::Atomic => push_words(&[0], out),
            ExchangeMode::Serialize => push_words(&[1], out),
            ExchangeMode::Parallel => push_words(&[2], out),
        }
    }
}

impl Worded for Held {
    ghost words = { held_words };

    fn push_to(&self, out: &mut Vec<u64>) -> Result<(), AllocError> {
        match self {
            Held::Idle => push_words(&[0], out),
            Held::By(fibril) => push_words(&[1, fibril.0], out),
        }
    }
}

impl Worded for Session {
    ghost words = { session_words };

    fn push_to(&self, out: &mut Vec<u64>) -> Result<(), AllocError> {
        push_two(&self.phone, &self.mode, out)
    }
}

impl Worded for Exchange {
    ghost words = { exchange_words };

    fn push_to(&self, out: &mut Vec<u64>) -> Result<(), AllocError> {
        push_three(&self.number, &self.session, &self.phone, out)?;
        push_three(&self.mode, &self.held, &self.stamp, out)
    }
}

impl Worded for Sessions {
    ghost words = { λ sessions. pool_words sessions.now };

    fn push_to(&self, out: &mut Vec<u64>) -> Result<(), AllocError> {
        push_all(self.sessions(), out)?;
        push_all(self.exchanges(), out)?;
        push_words(&[self.next_number().0, self.next_stamp()], out)
    }
}
