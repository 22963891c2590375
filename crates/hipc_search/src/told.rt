//! What a task was told last in a run.
ghost use Rattle.std.specs.Prelude.{◌≡◌};
ghost use Rattle.hipc_search.specs.Told.{last_outcome, own_with, last_with, entry_of, entry_with};

use ipc_ids::Entry;

/// Whether the event of an entry is one of the task, where `own` says it of the entry before.
fn own_with(task: u64, own: bool, entry: &Entry) -> bool
    ensures { result ≡ own_with task own entry.now }
{
    match entry {
        Entry::Head(asker, _) => asker.0 == task,
        Entry::Kill(killed) => killed.0 == task,
        Entry::Gone(ended) => ended.0 == task,
        Entry::Spawn(made) => made.0 == task,
        _ => own,
    }
}

/// The last outcome with one entry more, where its event is one of the task or is not.
fn last_with<'a>(own: bool, entry: &'a Entry, before: Option<&'a Entry>) -> Option<&'a Entry>
    ensures { entry_of result ≡ last_with own entry.now (entry_of before.entry) }
{
    match entry {
        Entry::Outcome(_) => { if own { Some(entry) } else { before } }
        _ => before,
    }
}

/// The entry of the last outcome of a task.
pub(crate) fn last_outcome(entries: &[Entry], task: u64) -> Option<&Entry>
    ensures { entry_of result ≡ entry_with (last_outcome task entries.now) }
{
    let mut own = false;
    let mut last = None;
    for entry in entries {
        own = own_with(task, own, entry);
        last = last_with(own, entry, last);
    }
    last
}
