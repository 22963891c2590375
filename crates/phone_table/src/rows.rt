//! The phones of all tasks.
ghost use Rattle.std.specs.Prelude.{◌≡◌, ◌≤◌, length, Some, OnOk, OnErr};
ghost use Rattle.phone_table.specs.Phones.{row_at, and_row, no_rows};

mod beside;

use crate::phones::Phones;
use ipc_ids::{NoMemory, TaskNo};
use std::alloc::Global;
use std::marker::Model;

/// The phones of all tasks, which are numbered from 1.
#[derive(Drop)]
pub struct PhoneRows {
    rows: Vec<Phones>,
}

impl Model for PhoneRows {
    ghost use Rattle.phone_table.specs.Phones.{Rows};
    ghost use Rattle.phone_table.specs.Views.{rows_of};

    ghost Value = { Rows };

    ghost view = { λ a. rows_of a.rows.items };
}

impl PhoneRows {
    ghost use Rattle.std.specs.Prelude.{◌≡◌, ◌≤◌, length, Some, OnOk, OnErr};
    ghost use Rattle.std.specs.Borrow.{sem};
    ghost use Rattle.phone_table.specs.Phones.{row_at, and_row, no_rows};
    ghost use Rattle.phone_table.specs.Lends.{lends_row};

    /// No tasks.
    pub fn new(alloc: Global) -> PhoneRows
        ensures { result ≡ no_rows }
    {
        PhoneRows {
            rows: Vec::new(alloc),
        }
    }

    /// Adds a task with these phones.
    ///
    /// # Errors
    ///
    /// `NoMemory` where no memory was found.
    pub fn add(&mut self, row: Phones) -> Result<(), NoMemory>
        ensures ok { OnOk result (self.new ≡ and_row self.old row) }
        ensures err { OnErr result (self.new ≡ self.old) }
    {
        match self.rows.push(row) {
            Ok(()) => Ok(()),
            Err(_) => Err(NoMemory),
        }
    }

    /// How many tasks there are.
    pub fn tasks(&self) -> u64
        ensures tasks { result ≡ length self.now.states }
        ensures counts { length self.now.counts ≡ length self.now.states }
    {
        self.rows.len() as u64
    }

    /// The phones of a task.
    pub fn row(&self, t: TaskNo) -> &Phones
        requires from_one { 1 ≤ t.0 }
        requires added { t.0 ≤ length self.now.states }
        ensures states { row_at self.now.states t.0 ≡ Some result.now.states }
        ensures counts { row_at self.now.counts t.0 ≡ Some result.now.counts }
    {
        &self.rows[t.0 as usize - 1]
    }

    /// The phones of a task, to be written.
    pub fn row_mut(&mut self, t: TaskNo) -> &mut Phones
        requires from_one { 1 ≤ t.0 }
        requires added { t.0 ≤ length self.old.states }
        ensures* writes_back { sem 𝓛 (lends_row self.entry t result) }
        ensures states { row_at self.old.states t.0 ≡ Some result.now.states }
        ensures counts { row_at self.old.counts t.0 ≡ Some result.now.counts }
    {
        &mut self.rows[t.0 as usize - 1]
    }
}
