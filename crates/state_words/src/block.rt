//! A block server as words.
ghost use Rattle.std.specs.Prelude.{◌≡◌, ◌++◌, OnOk};
ghost use Rattle.state_words.specs.Words.{number_words, list_words};
ghost use Rattle.state_words.specs.ProgramWords.{block_work_words, block_words};

use crate::parts::{push_bytes, push_words};
use crate::worded::{Worded, push_all, push_both};
use block_server::{BlockServer, Work};
use ipc_ids::Short;
use std::alloc::AllocError;

impl Worded for Short {
    ghost words = { list_words number_words };

    fn push_to(&self, out: &mut Vec<u64>) -> Result<(), AllocError> {
        push_bytes(self.as_slice(), out)
    }
}

impl Worded for Work {
    ghost words = { block_work_words };

    fn push_to(&self, out: &mut Vec<u64>) -> Result<(), AllocError> {
        match self {
            Work::Offer { service } => push_words(&[0, *service], out),
            Work::Drop { base } => push_words(&[1, *base], out),
            Work::Answer { call, reply } => {
                push_words(&[2, call.0], out)?;
                reply.push_to(out)
            }
            Work::Show { call, at, block } => push_words(&[3, call.0, *at, *block], out),
            Work::Fetch { call, at, block } => push_words(&[4, call.0, *at, *block], out),
        }
    }
}

/// The blocks, the clients, and what is to be done.
pub fn push_block_server(server: &BlockServer, out: &mut Vec<u64>) -> Result<(), AllocError>
    ensures { OnOk result (out.new.items ≡ out.old.items ++ block_words server.now) }
{
    push_all(server.blocks(), out)?;
    push_all(server.slots(), out)?;
    let (front, back) = server.work().as_slices();
    push_both(front, back, out)
}
