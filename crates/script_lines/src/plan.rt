//! What a script says.
ghost use Rattle.std.specs.Prelude.{◌≡◌, [], ◌∷◌, ◌++◌, OnOk, OnErr};

use crate::name::Name;
use ipc_ids::{Bodies, NoMemory, PhoneNo, TaskNo};
use std::alloc::Global;
use std::marker::Model;

/// What a task is.
#[derive(Clone, Copy)]
pub enum Kind {
    /// The naming service, the task `ns`.
    Naming,
    /// A task of registers and one body of operations.
    Raw,
    /// A task of fibrils, with a body for each that starts and one for connections.
    Async,
    /// A server of blocks of bytes, without operations.
    Block,
}

/// A task, or a template, as the script says it. It has the phones from 0 up to, and without,
/// `limit`. A block server has 1 to 64 `blocks`, and a `service` where the script gives its number;
/// for other kinds there are 0 blocks and no service.
#[derive(Drop)]
pub struct TaskPlan {
    pub name: Name,
    pub kind: Kind,
    pub limit: u32,
    pub bodies: Bodies,
    pub blocks: u64,
    pub service: Option<u64>,
}

/// A phone of a task that leads to a task from the start.
#[derive(Clone, Copy)]
pub struct Wire {
    pub from: TaskNo,
    pub phone: PhoneNo,
    pub to: TaskNo,
}

/// Tasks in the order of the script.
#[derive(Drop)]
pub struct TaskPlans {
    items: Vec<TaskPlan>,
}

impl Model for TaskPlans {
    ghost use Rattle.std.specs.Prelude.{List};
    ghost use Rattle.script_lines.specs.declared.plan.TaskPlan.{TaskPlan};

    ghost Value = { List TaskPlan };

    ghost view = { λ tasks. tasks.items.items };
}

/// Wires in the order of the script.
#[derive(Drop)]
pub struct Wires {
    items: Vec<Wire>,
}

impl Model for Wires {
    ghost use Rattle.std.specs.Prelude.{List};
    ghost use Rattle.script_lines.specs.declared.plan.Wire.{Wire};

    ghost Value = { List Wire };

    ghost view = { λ wires. wires.items.items };
}

/// Tasks, numbered from 1 in this order, wires between them, and templates, from which more tasks
/// can be made while these run.
///
/// There are at most 64 tasks and as many templates, all of different names; the naming service
/// comes first, where there is one, and nothing else is named `ns`. A template is of a raw or an
/// async task. No two wires begin at one phone, and none at a phone that leads to the naming
/// service from the start: phone 0 of each other task.
#[derive(Drop)]
pub struct Script {
    pub tasks: TaskPlans,
    pub wires: Wires,
    pub templates: TaskPlans,
}

impl Model for Script {
    ghost use Rattle.script_lines.specs.Plan.{Plan};
    ghost use Rattle.script_lines.specs.Sound.{IsSound};

    ghost Value = { Plan };

    ghost view = { λ script. record {
      tasks = script.tasks;
      wires = script.wires;
      templates = script.templates;
    } };

    ghost invariant = { λ script. IsSound (record {
      tasks = script.tasks;
      wires = script.wires;
      templates = script.templates;
    }) };
}

impl TaskPlans {
    /// No tasks. Takes no memory.
    pub fn new(alloc: Global) -> TaskPlans
        ensures { result ≡ [] }
    {
        TaskPlans {
            items: Vec::new(alloc),
        }
    }

    /// Adds a task at the end.
    ///
    /// # Errors
    ///
    /// `NoMemory` where no memory was found; no task is added then.
    pub fn push(&mut self, item: TaskPlan) -> Result<(), NoMemory>
        ensures ok { OnOk result (self.new ≡ self.old ++ item ∷ []) }
        ensures err { OnErr result (self.new ≡ self.old) }
    {
        match self.items.push(item) {
            Ok(()) => Ok(()),
            Err(_) => Err(NoMemory),
        }
    }

    /// The tasks in their order.
    pub fn as_slice(&self) -> &[TaskPlan]
        ensures { result.now ≡ self.now }
    {
        self.items.as_slice()
    }
}

impl Wires {
    /// No wires. Takes no memory.
    pub fn new(alloc: Global) -> Wires
        ensures { result ≡ [] }
    {
        Wires {
            items: Vec::new(alloc),
        }
    }

    /// Adds a wire at the end.
    ///
    /// # Errors
    ///
    /// `NoMemory` where no memory was found; no wire is added then.
    pub fn push(&mut self, item: Wire) -> Result<(), NoMemory>
        ensures ok { OnOk result (self.new ≡ self.old ++ item ∷ []) }
        ensures err { OnErr result (self.new ≡ self.old) }
    {
        match self.items.push(item) {
            Ok(()) => Ok(()),
            Err(_) => Err(NoMemory),
        }
    }

    /// The wires in their order.
    pub fn as_slice(&self) -> &[Wire]
        ensures { result.now ≡ self.now }
    {
        self.items.as_slice()
    }
}
