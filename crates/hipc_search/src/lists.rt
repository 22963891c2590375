//! The lists of a command: kills, hangups, and how many tasks are made from a template at most.
ghost use Rattle.std.specs.Prelude.{◌≡◌, ◌≤◌, IfOk, length};
ghost use Rattle.std.specs.Option.{option_map};
ghost use Rattle.script_lines.specs.Names.{task_names};
ghost use Rattle.script_lines.specs.Sound.{IsSound};
ghost use Rattle.search_goals.specs.GoalText.{Answers};
ghost use Rattle.hipc_search.specs.declared.moves.Listed.TheVariants.{Kills, Hangups};
ghost use Rattle.hipc_search.specs.Command.{said};
ghost use Rattle.hipc_search.specs.Lists.{list_place, list_fault, AnswersLists};
ghost use Rattle.hipc_search.specs.Moves.{listed_in, bounds_in};

use crate::command::Command;
use crate::moves::{Listed, bounds_in, listed_in};
use ipc_ids::{Event, NoMemory};
use schedule_search::MostMade;
use script_lines::{Names, names_of};
use script_reader::{Reason, Script};
use search_goals::{GoalFault, TaskNames};
use std::alloc::Global;

/// What the lists say; a list that is missing says nothing.
#[derive(Drop)]
pub(crate) struct Lists {
    pub killed: Vec<Event>,
    pub hangups: Vec<Event>,
    pub bounds: Vec<MostMade>,
}

/// The option behind which a list stands.
#[derive(Clone, Copy)]
pub(crate) enum ListName {
    Kill,
    Hangup,
    Spawn,
}

/// Why the lists are not read.
#[derive(Clone, Copy)]
pub(crate) enum ListsFault {
    /// The first list at fault, and its first word at fault, numbered from 1.
    Bad {
        list: ListName,
        word: u64,
        reason: Reason,
    },
    /// No memory was found.
    NoMemory,
}

/// What stands before the number of a word of a list in the line of its fault.
pub(crate) fn list_place(list: ListName) -> &'static str
    ensures { result.now ≡ list_place list }
{
    match list {
        ListName::Kill => "kill word",
        ListName::Hangup => "hangup word",
        ListName::Spawn => "spawn word",
    }
}

/// The fault of the lists where this one is at fault.
fn list_fault(list: ListName, fault: GoalFault) -> ListsFault
    ensures { result ≡ list_fault list fault }
{
    match fault {
        GoalFault::Bad { word, reason } => ListsFault::Bad { list, word, reason },
        GoalFault::NoMemory => ListsFault::NoMemory,
    }
}

/// The names of the templates of a script. It is sound, as each is.
fn templates_in(alloc: Global, script: &Script) -> Result<Names, NoMemory>
    ensures names { IfOk result (λ names. names ≡ task_names script.now.templates) }
    ensures sound { IfOk result (λ _. IsSound script.now) }
{
    names_of(alloc, script.templates.as_slice())
}

/// How many tasks are made at most from the templates of a script, as a list says it.
fn bounds_for(
    alloc: Global,
    script: &Script,
    text: Option<&str>,
) -> Result<Vec<MostMade>, GoalFault>
    ensures value { Answers (λ bounds. bounds.items) result
        (bounds_in (task_names script.now.templates) (option_map (λ text. text.now) text.entry)) }
    ensures few { IfOk result (λ bounds. length bounds.items ≤ 64) }
    ensures sound { IfOk result (λ _. IsSound script.now) }
{
    match templates_in(alloc, script) {
        Ok(templates) => bounds_in(alloc, &templates, text),
        Err(NoMemory) => Err(GoalFault::NoMemory),
    }
}

/// The lists of a command, where the tasks are those of this table.
fn lists_by(
    alloc: Global,
    script: &Script,
    tasks: &Names,
    command: &Command<'_>,
) -> Result<Lists, ListsFault>
    ensures said { AnswersLists result (listed_in Kills tasks.now (said command.now).kill)
        (listed_in Hangups tasks.now (said command.now).hangup)
        (bounds_in (task_names script.now.templates) (said command.now).spawn) }
    ensures few_hangups { IfOk result (λ lists. length lists.hangups.items ≤ 4096) }
    ensures few_bounds { IfOk result (λ lists. length lists.bounds.items ≤ 64) }
    ensures sound { IfOk result (λ _. IsSound script.now) }
{
    let killed = match listed_in(alloc, Listed::Kills, tasks, command.kill) {
        Ok(killed) => killed,
        Err(fault) => return Err(list_fault(ListName::Kill, fault)),
    };
    let hangups = match listed_in(alloc, Listed::Hangups, tasks, command.hangup) {
        Ok(hangups) => hangups,
        Err(fault) => return Err(list_fault(ListName::Hangup, fault)),
    };
    match bounds_for(alloc, script, command.spawn) {
        Ok(bounds) => Ok(Lists {
            killed,
            hangups,
            bounds,
        }),
        Err(fault) => Err(list_fault(ListName::Spawn, fault)),
    }
}

/// The lists of a command, where the tasks have these names. The script is sound, as each is.
pub(crate) fn lists_in(
    alloc: Global,
    script: &Script,
    names: &TaskNames,
    command: &Command<'_>,
) -> Result<Lists, ListsFault>
    ensures said { AnswersLists result (listed_in Kills names.now (said command.now).kill)
        (listed_in Hangups names.now (said command.now).hangup)
        (bounds_in (task_names script.now.templates) (said command.now).spawn) }
    ensures few_hangups { IfOk result (λ lists. length lists.hangups.items ≤ 4096) }
    ensures few_bounds { IfOk result (λ lists. length lists.bounds.items ≤ 64) }
    ensures sound { IfOk result (λ _. IsSound script.now) }
{
    match names.to_table(alloc) {
        Ok(tasks) => lists_by(alloc, script, &tasks, command),
        Err(NoMemory) => Err(ListsFault::NoMemory),
    }
}
