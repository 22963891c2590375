//! The entries of a trace, as they are read and judged one by one.
ghost use Rattle.std.specs.Prelude.{◌≡◌, ◌<◌, ◌≤◌, ◌+◌, ◌^◌, List, [], ◌∷◌, OnOk};
ghost use Rattle.ipc_ids.specs.declared.entry.Entry.{Entry};
ghost use Rattle.law_check.specs.AreaState.{entry_of};
ghost use Rattle.law_check.specs.Judging.{events_of};
ghost use Rattle.law_check.specs.Reading.{HasRead, last_of};

use crate::areas::is_head;
use crate::verdict::Laws;
use ipc_ids::{Entry, NoMemory};
use std::alloc::Global;

/// What is kept of the entries that were read: what they say of the laws, how many there were, the
/// head of the present event, and the last entry, if it is no head.
#[derive(Drop)]
pub struct Reading {
    pub laws: Laws,
    pub entries: u64,
    now: Option<Entry>,
    last: Option<Entry>,
}

/// The last entry: the head, where no entry has come since.
fn last_of<'a>(now: &'a Option<Entry>, last: &'a Option<Entry>) -> Option<&'a Entry>
    ensures { entry_of result ≡ last_of now.now last.now }
{
    match last {
        Some(entry) => Some(entry),
        None => now.as_ref(),
    }
}

impl Reading {
    pub fn new(alloc: Global) -> Reading
        ensures read { HasRead [] result }
        ensures events { events_of result.laws ≤ result.entries }
        ensures none { result.entries ≡ 0 }
    {
        Reading {
            laws: Laws::new(alloc),
            entries: 0,
            now: None,
            last: None,
        }
    }

    /// Takes the next entry.
    pub fn take(&mut self, entry: Entry) -> Result<(), NoMemory>
        requires few { self.old.entries < 2 ^ 63 }
        requires events { events_of self.old.laws ≤ self.old.entries }
        ensures read { (p : List Entry) → HasRead p self.old
            → OnOk result (HasRead (entry ∷ p) self.new) }
        ensures more { OnOk result (self.new.entries ≡ self.old.entries + 1) }
        ensures events { OnOk result (events_of self.new.laws ≤ self.new.entries) }
    {
        let last = last_of(&self.now, &self.last);
        self.laws.take(self.now.as_ref(), last, &entry)?;
        self.entries += 1;
        if is_head(&entry) {
            self.now = Some(entry);
            self.last = None;
        } else {
            self.last = Some(entry);
        }
        Ok(())
    }
}
