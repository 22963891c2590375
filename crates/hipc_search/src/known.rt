//! The names of the tasks behind a schedule.
ghost use Rattle.std.specs.Prelude.{◌≡◌, ◌≤◌, ◌<◌, ◌∷◌, ◌++◌, [], ℕ, List, true, false, is_some, Ok, IfOk, OnOk, length};
ghost use Rattle.std.specs.Option.{option_map};
ghost use Rattle.script_lines.specs.Names.{place_of, task_names};
ghost use Rattle.script_lines.specs.Text.{texts, lines};
ghost use Rattle.script_lines.specs.Word.{is_name};
ghost use Rattle.script_reader.specs.EventLine.{EventsAndNames, no_events, after_event, after_event_words};
ghost use Rattle.script_reader.specs.Reading.{lines_from};
ghost use Rattle.script_reader.specs.Schedule.{event_verb_of};
ghost use Rattle.search_goals.specs.Writing.{AreNamed};
ghost use Rattle.hipc_search.specs.Known.{is_spawn, made_by};

use ipc_ids::NoMemory;
use script_lines::{MOST_TASKS, is_name, split_line};
use script_reader::Script;
use search_goals::TaskNames;
use std::alloc::Global;

/// Whether a line with this first word makes a task.
fn is_spawn(word: &[u8]) -> bool
    ensures { result ≡ is_spawn (event_verb_of word.now) }
{
    word == b"spawn".as_slice()
}

/// Adds a name that may be that of the next task.
fn push_name(alloc: Global, names: &mut TaskNames, name: &[u8]) -> Result<(), NoMemory>
    ensures { OnOk result (is_name name.now ≡ true → is_some (place_of names.old name.now) ≡ false
        → length names.old < 64 → names.new ≡ names.old ++ name.now ∷ []) }
{
    if !is_name(name) || names.place_of(name).is_some() || names.len() >= MOST_TASKS {
        return Ok(());
    }
    names.push(alloc, name)
}

/// The name of the task that a line of these words makes, if it makes one.
fn made_by<'a>(words: &[&'a [u8]]) -> Option<&'a [u8]>
    ensures { option_map (λ name. name.now) result ≡ made_by (texts words.now) }
{
    match words {
        [verb, _, name] => { if is_spawn(*verb) { Some(*name) } else { None } }
        _ => None,
    }
}

/// Adds that name, if there is one.
fn push_made(alloc: Global, names: &mut TaskNames, words: &[&[u8]]) -> Result<(), NoMemory>
    ensures { OnOk result ((templates : List (List ℕ)) (before after : EventsAndNames)
        → before.names ≡ names.old
        → after_event_words templates before (texts words.now) ≡ Ok after
        → after.names ≡ names.new) }
{
    match made_by(words) {
        Some(name) => push_name(alloc, names, name),
        None => Ok(()),
    }
}

/// The names of all tasks behind the events that these bytes spell.
pub(crate) fn names_behind(
    alloc: Global,
    script: &Script,
    bytes: &[u8],
) -> Result<TaskNames, NoMemory>
    requires { AreNamed script.now.tasks }
    ensures { IfOk result (λ names. (made : EventsAndNames)
        → lines_from (after_event script.now) 1 (no_events script.now) (lines bytes.now) ≡ Ok made
        → names ≡ made.names) }
{
    let mut names = TaskNames::of_script(alloc, script)?;
    let mut words = Vec::new(alloc);
    let mut left = Some(bytes);
    while let Some(text) = left {
        let (_, others) = split_line(text, &mut words)?;
        push_made(alloc, &mut names, words.as_slice())?;
        left = others;
    }
    Ok(names)
}
