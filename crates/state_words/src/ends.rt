//! The introduced tasks and the calls that wait for their ends as words.
ghost use Rattle.std.specs.Prelude.{◌≡◌, ◌++◌, OnOk};
ghost use Rattle.state_words.specs.ProgramWords.{introduced_words, wait_words, ends_words};

use crate::parts::push_words;
use crate::worded::{Worded, push_all};
use std::alloc::AllocError;
use task_ends::{Ends, Introduced, Wait};

impl Worded for Introduced {
    ghost words = { introduced_words };

    fn push_to(&self, out: &mut Vec<u64>) -> Result<(), AllocError> {
        push_words(
            &[
                self.label.task.0,
                self.label.phone.0 as u64,
                self.end.has as u64,
                self.end.value,
                self.ended as u64,
            ],
            out,
        )
    }
}

impl Worded for Wait {
    ghost words = { wait_words };

    fn push_to(&self, out: &mut Vec<u64>) -> Result<(), AllocError> {
        push_words(&[self.call.0, self.task], out)
    }
}

/// The introduced tasks, and the calls that wait.
pub(crate) fn push_ends(ends: &Ends, out: &mut Vec<u64>) -> Result<(), AllocError>
    ensures { OnOk result (out.new.items ≡ out.old.items ++ ends_words ends.now) }
{
    push_all(ends.introduced(), out)?;
    push_all(ends.waits(), out)
}
