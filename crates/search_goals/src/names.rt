//! The names of tasks at a place of a schedule.
ghost use Rattle.std.specs.Prelude.{◌≡◌, ◌<◌, ◌≤◌, ◌∷◌, ◌++◌, [], true, false, is_some, length, position, IfOk, OnOk};
ghost use Rattle.std.specs.Str.{bytes_eq};
ghost use Rattle.script_lines.specs.Names.{place_of, task_names};
ghost use Rattle.script_lines.specs.Sound.{IsTask};
ghost use Rattle.script_lines.specs.Word.{is_name};
ghost use Rattle.script_reader.specs.EventLine.{is_taken};
ghost use Rattle.search_goals.specs.Goals.{listed};
ghost use Rattle.search_goals.specs.Writing.{AreNamed, AreNames, IsNameOf, IsNew, made_name};

use crate::meeting::is_word;
use ipc_ids::{NoMemory, TaskNo};
use script_lines::{Names, is_ns};
use script_reader::{Script, TaskPlan};
use std::alloc::Global;
use std::marker::Model;

/// The names of all tasks that there are at a place of a schedule, in the order of the tasks: those of
/// the script, and behind them those of the tasks that were made. There are at most 64, and no two
/// are the same.
#[derive(Drop)]
pub struct TaskNames {
    known: Vec<Vec<u8>>,
}

impl Model for TaskNames {
    ghost use Rattle.std.specs.Prelude.{List, ℕ};
    ghost use Rattle.search_goals.specs.Goals.{listed};
    ghost use Rattle.search_goals.specs.Writing.{AreNames};

    ghost Value = { List (List ℕ) };

    ghost view = { λ names. listed names.known.items };

    ghost invariant = { λ names. AreNames (listed names.known.items) };
}

impl TaskNames {
    /// The names of the tasks of a script.
    ///
    /// # Errors
    ///
    /// `NoMemory` where no memory was found.
    pub fn of_script(alloc: Global, script: &Script) -> Result<TaskNames, NoMemory>
        requires { AreNamed script.now.tasks }
        ensures { IfOk result (λ names. names ≡ task_names script.now.tasks) }
    {
        let mut known = Vec::new(alloc);
        push_words(alloc, script.tasks.as_slice(), &mut known)?;
        Ok(TaskNames { known })
    }

    /// How many names there are.
    pub fn len(&self) -> usize
        ensures count { result ≡ length self.now }
        ensures few { result ≤ 64 }
    {
        self.known.len()
    }

    /// Where a name stands.
    pub fn place_of(&self, name: &[u8]) -> Option<usize>
        ensures { result ≡ place_of self.now name.now }
    {
        place_in(self.known.as_slice(), name)
    }

    /// The name of a task.
    pub fn name_of(&self, task: TaskNo) -> &[u8]
        requires { IsTask (length self.now) task.0 }
        ensures { IsNameOf self.now task result.now }
    {
        let known = self.known.as_slice();
        known[task.0 as usize - 1].as_slice()
    }

    /// Adds the name of a task that is made.
    ///
    /// # Errors
    ///
    /// `NoMemory` where no memory was found.
    pub fn push(&mut self, alloc: Global, name: &[u8]) -> Result<(), NoMemory>
        requires good { is_name name.now ≡ true }
        requires new { is_some (place_of self.old name.now) ≡ false }
        requires room { length self.old < 64 }
        ensures { OnOk result (self.new ≡ self.old ++ name.now ∷ []) }
    {
        let name = Vec::from_slice(alloc, name)?;
        self.known.push(name)?;
        Ok(())
    }

    /// The table of these names.
    ///
    /// # Errors
    ///
    /// `NoMemory` where no memory was found.
    pub fn to_table(&self, alloc: Global) -> Result<Names, NoMemory>
        ensures { IfOk result (λ table. table ≡ self.now) }
    {
        let mut table = Names::new(alloc);
        push_names(alloc, self.known.as_slice(), &mut table)?;
        Ok(table)
    }
}

/// Adds the names of tasks, as bytes, where there are none yet.
fn push_words(alloc: Global, tasks: &[TaskPlan], known: &mut Vec<Vec<u8>>) -> Result<(), NoMemory>
    requires { known.old.items ≡ [] }
    ensures { OnOk result (listed known.new.items ≡ task_names tasks.now) }
{
    for task in tasks {
        let name = Vec::from_slice(alloc, task.name.as_slice())?;
        known.push(name)?;
    }
    Ok(())
}

/// Where a name stands.
fn place_in(known: &[Vec<u8>], name: &[u8]) -> Option<usize>
    ensures { result ≡ position (λ word. bytes_eq name.now word.items) known.now }
{
    known.iter().position(|word| name == word.as_slice())
}

/// Adds these names to a table, where there are none yet.
fn push_names(alloc: Global, known: &[Vec<u8>], table: &mut Names) -> Result<(), NoMemory>
    requires none { table.old ≡ [] }
    requires names { AreNames (listed known.now) }
    ensures { OnOk result (table.new ≡ listed known.now) }
{
    for name in known {
        table.push(alloc, name.as_slice())?;
    }
    Ok(())
}

/// Whether a template has this name.
fn is_template(templates: &[TaskPlan], name: &[u8]) -> bool
    ensures { result ≡ is_some (place_of (task_names templates.now) name.now) }
{
    for template in templates {
        if is_word(name, template.name.as_slice()) {
            return true;
        }
    }
    false
}

/// Whether a task that is made may not have this name.
#[tactic(auto, unfolding(script_reader::specs::EventLine::is_taken))]
fn is_taken(templates: &[TaskPlan], names: &TaskNames, name: &[u8]) -> bool
    ensures { result ≡ is_taken (task_names templates.now) names.now name.now }
{
    names.place_of(name).is_some() || is_template(templates, name) || is_ns(name)
}

/// `t` and a number.
pub(crate) fn made_name(alloc: Global, number: u64) -> Result<Vec<u8>, NoMemory>
    ensures { IfOk result (λ name. name.items ≡ made_name number) }
{
    let name = format!(in alloc; "t{number}")?;
    Ok(name.into_bytes())
}

/// A name for the next task that is made: `t` and its number or, where that name is taken, the next
/// number whose name is not.
pub(crate) fn next_name(
    alloc: Global,
    templates: &[TaskPlan],
    names: &TaskNames,
) -> Result<Vec<u8>, NoMemory>
    requires { length templates.now ≤ 64 }
    ensures { IfOk result (λ name. IsNew (task_names templates.now) names.now name.items) }
{
    let mut number = names.len() as u64 + 1;
    let mut name = made_name(alloc, number)?;
    while is_taken(templates, names, name.as_slice()) {
        number += 1;
        name = made_name(alloc, number)?;
    }
    Ok(name)
}
