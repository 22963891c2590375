//! An introduced task, and a call that waits for its end.
ghost use Rattle.std.specs.Prelude.{◌≡◌};
ghost use Rattle.ipc_ids.specs.Labels.{same_label};
ghost use Rattle.task_ends.specs.Ends.{newcomer, is_open, entry_of, open_entry, leaving, ending, leave, end_all, no_end};

use ipc_ids::{CallNo, Label};

/// What a task left.
#[derive(Clone, Copy)]
pub struct End {
    /// Whether it left a value.
    pub has: bool,
    /// The value; 0 where it left none.
    pub value: u64,
}

/// A task that introduced itself over this label.
#[derive(Clone, Copy)]
pub struct Introduced {
    /// The task, and its phone to the naming service.
    pub label: Label,
    /// What it left so far.
    pub end: End,
    /// Whether that phone was hung up since.
    pub ended: bool,
}

/// A call that waits for the end of a task.
#[derive(Clone, Copy)]
pub struct Wait {
    /// The call that is answered when the task ends.
    pub call: CallNo,
    /// The number of the task.
    pub task: u64,
}

impl End {
    /// No value was left.
    pub(crate) fn nothing() -> End
        ensures { result ≡ no_end }
    {
        End {
            has: false,
            value: 0,
        }
    }
}

impl Introduced {
    /// A task that has just introduced itself: it left nothing, and has not ended.
    pub(crate) fn newcomer(label: Label) -> Introduced
        ensures { result ≡ newcomer label }
    {
        Introduced {
            label,
            end: End::nothing(),
            ended: false,
        }
    }

    /// Whether it was introduced with this label and has not ended.
    fn is_open(&self, label: Label) -> bool
        ensures { result ≡ is_open label self.now }
    {
        self.label == label && !self.ended
    }

    /// It leaves the value, if it is open to this label.
    fn leave(&mut self, label: Label, value: u64)
        ensures { self.new ≡ leaving label value self.old }
    {
        if self.is_open(label) {
            self.end = End { has: true, value };
        }
    }

    /// It ends, if it is open to this label.
    fn end(&mut self, label: Label)
        ensures { self.new ≡ ending label self.old }
    {
        if self.is_open(label) {
            self.ended = true;
        }
    }
}

/// The entry of a task.
pub(crate) fn entry_of(entries: &[Introduced], task: u64) -> Option<Introduced>
    ensures { result ≡ entry_of task entries.now }
{
    for entry in entries {
        if entry.label.task.0 == task {
            return Some(*entry);
        }
    }
    None
}

/// The entry that was introduced with this label and has not ended.
pub(crate) fn open_entry(entries: &[Introduced], label: Label) -> Option<Introduced>
    ensures { result ≡ open_entry label entries.now }
{
    for entry in entries {
        if entry.is_open(label) {
            return Some(*entry);
        }
    }
    None
}

/// The entry of this label, if it has not ended, leaves the value.
pub(crate) fn leave_all(entries: &mut [Introduced], label: Label, value: u64)
    ensures { entries.new ≡ leave label value entries.old }
{
    for entry in entries.iter_mut() {
        entry.leave(label, value);
    }
}

/// The entry of this label ends, if it has not ended.
pub(crate) fn end_all(entries: &mut [Introduced], label: Label)
    ensures { entries.new ≡ end_all label entries.old }
{
    for entry in entries.iter_mut() {
        entry.end(label);
    }
}
