//! The introduced tasks and the waits for their ends.
ghost use Rattle.std.specs.Prelude.{◌≡◌, ◌≤◌, ◌++◌, length, OnOk, OnErr, IfOk, is_some, not, vec_len};
ghost use Rattle.task_ends.specs.Ends.{nobody, introduced, is_known, left, open_entry, waited, waited_by, entry_of, ended, freed_end, freed_waits, waits_for, other_waits, waits_for_another};

use crate::introduced::{End, Introduced, Wait, end_all, entry_of, leave_all, open_entry};
use crate::waits::Waits;
use ipc_ids::{CallNo, Label, NoMemory};
use std::alloc::Global;
use std::marker::Model;

/// The introduced tasks and the calls that wait for their ends.
#[derive(Drop)]
pub struct Ends {
    introduced: Vec<Introduced>,
    waits: Vec<Wait>,
    alloc: Global,
}

/// What becomes of a call that asks for the end of a task.
#[derive(Clone, Copy)]
pub enum Waited {
    /// The task has ended, and left this.
    Ended(End),
    /// The call waits.
    Pending,
    /// No such task introduced itself.
    Unknown,
}

/// What the end of a task frees.
#[derive(Drop)]
pub struct Freed {
    /// What it left.
    pub end: End,
    /// The calls that waited for it.
    pub waits: Waits,
}

impl Model for Ends {
    ghost use Rattle.task_ends.specs.Ends.{EndsState};

    ghost Value = { EndsState };

    ghost view = { λ a. record {
      introduced = a.introduced.items;
      waits = a.waits.items;
    } };
}

impl Ends {
    /// Nobody introduced itself; it takes no memory.
    pub fn new(alloc: Global) -> Ends
        ensures { result ≡ nobody }
    {
        Ends {
            introduced: Vec::new(alloc),
            waits: Vec::new(alloc),
            alloc,
        }
    }

    /// The introduced tasks, in the order in which they came. Takes no memory.
    pub fn introduced(&self) -> &[Introduced]
        ensures { result.now ≡ self.now.introduced }
    {
        self.introduced.as_slice()
    }

    /// The calls that wait, in the order in which they came. Takes no memory.
    pub fn waits(&self) -> &[Wait]
        ensures { result.now ≡ self.now.waits }
    {
        self.waits.as_slice()
    }

    /// A task introduces itself, unless it is in the list.
    ///
    /// # Errors
    ///
    /// `NoMemory` where no memory was found. Nothing has changed then.
    pub fn introduce(&mut self, who: Label) -> Result<bool, NoMemory>
        ensures told { IfOk result (λ new. new ≡ not (is_known who.task.0 self.old.introduced)) }
        ensures state { OnOk result (self.new ≡ introduced who self.old) }
        ensures unchanged { OnErr result (self.new ≡ self.old) }
    {
        match entry_of(&self.introduced, who.task.0) {
            Some(_) => Ok(false),
            None => match self.introduced.push(Introduced::newcomer(who)) {
                Ok(()) => Ok(true),
                Err(_) => Err(NoMemory),
            },
        }
    }

    /// The task that was introduced with this label, and has not ended, leaves the value. False where
    /// there is none. Takes no memory.
    pub fn set_value(&mut self, who: Label, value: u64) -> bool
        ensures told { result ≡ is_some (open_entry who self.old.introduced) }
        ensures state { self.new ≡ left who value self.old }
    {
        let known = open_entry(&self.introduced, who).is_some();
        leave_all(&mut self.introduced, who, value);
        known
    }

    /// A call asks for the end of a task.
    ///
    /// # Errors
    ///
    /// `NoMemory` where no memory was found. Nothing has changed then.
    pub fn wait(&mut self, call: CallNo, task: u64) -> Result<Waited, NoMemory>
        ensures told { IfOk result (λ w. w ≡ waited_by (entry_of task self.old.introduced)) }
        ensures state { OnOk result (self.new ≡ waited call task self.old) }
        ensures unchanged { OnErr result (self.new ≡ self.old) }
    {
        match entry_of(&self.introduced, task) {
            None => Ok(Waited::Unknown),
            Some(entry) => {
                if entry.ended {
                    return Ok(Waited::Ended(entry.end));
                }
                match self.waits.push(Wait { call, task }) {
                    Ok(()) => Ok(Waited::Pending),
                    Err(_) => Err(NoMemory),
                }
            }
        }
    }

    /// The task that was introduced with this label, and has not ended, ends; the calls that wait for
    /// it go.
    ///
    /// # Errors
    ///
    /// `NoMemory` where no memory was found. Nothing has changed then.
    pub fn end(&mut self, who: Label) -> Result<Freed, NoMemory>
        ensures end { IfOk result (λ freed. freed.end ≡ freed_end who self.old) }
        ensures waits { IfOk result (λ freed. freed.waits ≡ freed_waits who self.old) }
        ensures few { IfOk result (λ freed. length freed.waits ≤ length self.old.waits) }
        ensures state { OnOk result (self.new ≡ ended who self.old) }
        ensures unchanged { OnErr result (self.new ≡ self.old) }
    {
        match open_entry(&self.introduced, who) {
            None => Ok(Freed {
                end: End::nothing(),
                waits: Waits::new(self.alloc),
            }),
            Some(entry) => match waits_for(self.alloc, &self.waits, who.task.0) {
                Ok(waits) => {
                    end_all(&mut self.introduced, who);
                    keep_other_waits(&mut self.waits, who.task.0);
                    Ok(Freed {
                        end: entry.end,
                        waits,
                    })
                }
                Err(NoMemory) => Err(NoMemory),
            },
        }
    }
}

/// The calls that wait for a task, in their order.
fn waits_for(alloc: Global, waits: &[Wait], task: u64) -> Result<Waits, NoMemory>
    ensures waits { IfOk result (λ found. found ≡ waits_for task waits.now) }
    ensures few { IfOk result (λ found. length found ≤ length waits.now) }
{
    let mut found = Waits::new(alloc);
    for wait in waits {
        if wait.task == task {
            found.push(wait.call)?;
        }
    }
    Ok(found)
}

/// Takes the waits for a task out.
fn keep_other_waits(waits: &mut Vec<Wait>, task: u64)
    ensures { waits.new.items ≡ other_waits task waits.old.items }
{
    waits.retain(
        |wait: &Wait| -> bool
            ensures { result ≡ waits_for_another task wait.now }
        { wait.task != task },
    );
}
