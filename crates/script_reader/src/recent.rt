//! The tasks whose names were looked up last, and lines that step them.
ghost use Rattle.std.specs.Prelude.{List, ℕ, IfSome};
ghost use Rattle.script_reader.specs.Recent.{Has, Knows, KnowsBoth, BeginsWithName, SaysStepsOf};

use crate::step_line::{behind_name, behind_step, cut_end};
use ipc_ids::TaskNo;

/// A name in a schedule, and the task that has it. Nobody has the empty name.
#[derive(Clone, Copy)]
struct NamedTask<'a> {
    name: &'a [u8],
    task: TaskNo,
}

/// Steps of a task, and what stands behind their line.
#[derive(Clone, Copy)]
pub struct TaskSteps<'a> {
    pub task: TaskNo,
    pub count: u64,
    pub others: &'a [u8],
}

/// The two tasks whose names were looked up last.
#[derive(Clone, Copy)]
pub struct RecentTasks<'a> {
    last: NamedTask<'a>,
    before: NamedTask<'a>,
}

/// The task that the first word of a text names, and what stands behind its name.
#[inline(always)]
fn named_by<'a>(known: NamedTask<'_>, text: &'a [u8]) -> Option<(TaskNo, &'a [u8])>
    ensures { (names : List (List ℕ)) → Knows names known.entry
        → IfSome result (λ named. BeginsWithName names text.now named.0 named.1.now) }
{
    if known.name.is_empty() {
        return None;
    }
    let rest = behind_name(known.name, text)?;
    Some((known.task, rest))
}

impl<'a> RecentTasks<'a> {
    /// No name was looked up.
    pub(crate) fn new() -> RecentTasks<'a>
        ensures { (names : List (List ℕ)) → KnowsBoth names result }
    {
        let nobody = NamedTask {
            name: &[],
            task: TaskNo(0),
        };
        RecentTasks {
            last: nobody,
            before: nobody,
        }
    }

    /// The task that the first word of a text names, and what stands behind its name.
    #[inline(always)]
    fn named_in<'b>(&self, text: &'b [u8]) -> Option<(TaskNo, &'b [u8])>
        ensures { (names : List (List ℕ)) → KnowsBoth names self.now
            → IfSome result (λ named. BeginsWithName names text.now named.0 named.1.now) }
    {
        match named_by(self.last, text) {
            Some(named) => Some(named),
            None => named_by(self.before, text),
        }
    }

    /// The steps that the first line of a text says, where they are of one of these tasks.
    #[inline(always)]
    pub(crate) fn steps_in<'b>(&self, text: &'b [u8]) -> Option<TaskSteps<'b>>
        ensures { (names : List (List ℕ)) → KnowsBoth names self.now
            → IfSome result (SaysStepsOf names text.now) }
    {
        let (task, rest) = self.named_in(behind_step(text)?)?;
        let (count, others) = cut_end(rest)?;
        Some(TaskSteps {
            task,
            count,
            others,
        })
    }

    /// The task with this name was looked up.
    #[inline(always)]
    pub(crate) fn push(&mut self, name: &'a [u8], task: TaskNo)
        ensures { (names : List (List ℕ)) → KnowsBoth names self.old → Has names task name.now
            → KnowsBoth names self.new }
    {
        self.before = self.last;
        self.last = NamedTask { name, task };
    }
}
