//! The table of names: which task has a name.
ghost use Rattle.std.specs.Prelude.{◌≡◌, [], ◌∷◌, ◌++◌, ◌<◌, ◌≤◌, length, true, false, Some, is_some, IfOk, IfSome, OnOk};
ghost use Rattle.script_lines.specs.Names.{place_of, task_named, task_names};
ghost use Rattle.script_lines.specs.Sound.{NamesDiffer};

use crate::plan::TaskPlan;
use crate::same::are_same;
use indexmap::IndexSet;
use ipc_ids::{NoMemory, TaskNo};
use std::alloc::Global;
use std::marker::Model;

/// At most 64 different names, in the order of their tasks.
#[derive(Drop)]
pub struct Names {
    known: IndexSet<Vec<u8>>,
}

impl Model for Names {
    ghost use Rattle.std.specs.Prelude.{List, ℕ, ◌≤◌, length, map};

    ghost Value = { List (List ℕ) };

    ghost view = { λ names. map (λ name. name.items) names.known.keys };

    ghost invariant = { λ names. length names.known.keys ≤ 64 };
}

impl Names {
    /// No names; it takes no memory.
    pub fn new(alloc: Global) -> Names
        ensures { result ≡ [] }
    {
        Names {
            known: IndexSet::new(alloc),
        }
    }

    /// How many names there are.
    pub fn len(&self) -> usize
        ensures { result ≡ length self.now }
    {
        self.known.len()
    }

    /// Where a name stands.
    pub fn place_of(&self, name: &[u8]) -> Option<usize>
        ensures value { result ≡ place_of self.now name.now }
        ensures within { IfSome result (λ place. place < length self.now) }
        ensures small { IfSome result (λ place. place < 64) }
    {
        self.known.get_index_of(name)
    }

    /// Whether a name stands at a place.
    #[inline(always)]
    fn is_at(&self, place: usize, name: &[u8]) -> bool
        ensures here { result ≡ true → place_of self.now name.now ≡ Some place }
        ensures within { result ≡ true → place < length self.now }
    {
        match self.known.as_slice().get(place) {
            Some(known) => are_same(known.as_slice(), name),
            None => false,
        }
    }

    /// Where a name stands, looked for first at a place, or at 0 where that is past the end, and
    /// then at the place before it.
    #[inline(always)]
    pub fn place_near(&self, place: usize, name: &[u8]) -> Option<usize>
        ensures value { result ≡ place_of self.now name.now }
        ensures small { IfSome result (λ place. place < 64) }
    {
        let here = if place < self.known.len() { place } else { 0 };
        if self.is_at(here, name) {
            return Some(here);
        }
        let before = place.saturating_sub(1);
        if self.is_at(before, name) {
            return Some(before);
        }
        self.place_of(name)
    }

    /// The task of a name, looked for first at a place and at the one before it.
    #[inline(always)]
    #[tactic(auto, unfolding(crate::specs::Names::task_named))]
    pub fn task_near(&self, place: usize, name: &[u8]) -> Option<TaskNo>
        ensures { result ≡ task_named self.now name.now }
    {
        let place = self.place_near(place, name)?;
        Some(TaskNo(place as u64 + 1))
    }

    /// The task of a name.
    #[tactic(auto, unfolding(crate::specs::Names::task_named))]
    pub fn task_named(&self, name: &[u8]) -> Option<TaskNo>
        ensures { result ≡ task_named self.now name.now }
    {
        let place = self.place_of(name)?;
        Some(TaskNo(place as u64 + 1))
    }

    /// Adds a name that is not known yet.
    ///
    /// # Errors
    ///
    /// `NoMemory` where no memory was found.
    pub fn push(&mut self, alloc: Global, name: &[u8]) -> Result<(), NoMemory>
        requires new { is_some (place_of self.old name.now) ≡ false }
        requires room { length self.old < 64 }
        ensures { OnOk result (self.new ≡ self.old ++ name.now ∷ []) }
    {
        let name = Vec::from_slice(alloc, name)?;
        let _ = self.known.insert(name)?;
        Ok(())
    }
}

/// Adds the names of tasks where there are none yet.
fn add_names(names: &mut Names, alloc: Global, tasks: &[TaskPlan]) -> Result<(), NoMemory>
    requires none { names.old ≡ [] }
    requires differ { NamesDiffer tasks.now }
    requires few { length tasks.now ≤ 64 }
    ensures { OnOk result (names.new ≡ task_names tasks.now) }
{
    for task in tasks {
        names.push(alloc, task.name.as_slice())?;
    }
    Ok(())
}

/// The names of tasks.
///
/// # Errors
///
/// `NoMemory` where no memory was found.
pub fn names_of(alloc: Global, tasks: &[TaskPlan]) -> Result<Names, NoMemory>
    requires differ { NamesDiffer tasks.now }
    requires few { length tasks.now ≤ 64 }
    ensures { IfOk result (λ names. names ≡ task_names tasks.now) }
{
    let mut names = Names::new(alloc);
    match add_names(&mut names, alloc, tasks) {
        Ok(()) => Ok(names),
        Err(NoMemory) => {
            drop(names);
            Err(NoMemory)
        }
    }
}
