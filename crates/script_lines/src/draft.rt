//! A script that is still read: its last task may get more operations.
ghost use Rattle.std.specs.Prelude.{◌≡◌, ◌≢◌, ◌≤◌, ◌==◌, [], ◌++◌, length, true, None, Some, Ok, IfOk, IfSome, OnOk, option_copied};
ghost use Rattle.ipc_ids.specs.declared.op.Op.{Op};
ghost use Rattle.script_lines.specs.declared.plan.Kind.TheVariants.{Naming};
ghost use Rattle.script_lines.specs.Draft.{last_plan, last_plans, plan_of, IsStep, IsWhole, is_wired, limit_at, leads_to_service, if_any, first_body, new_task, is_async, is_full, stands_first, present, last_is_async, takes_bodies, taken_by, taker, with_service, with_task, with_body, with_wire, with_op, task_with_body, task_with_op, body_with_op, HasHeadOf, HasLastBody, Follows};
ghost use Rattle.script_lines.specs.LastLine.{last_in, last_op_of, last_op, TakesLastOp, KeepsLastOp};
ghost use Rattle.script_lines.specs.Names.{is_ns};
ghost use Rattle.script_lines.specs.Plan.{nothing};
ghost use Rattle.script_lines.specs.ScriptParts.{no_parts, script_of_parts, PartsFit, parts_of, ended_script, AreWhole};
ghost use Rattle.script_lines.specs.Ranges.{IsOpOf};
ghost use Rattle.script_lines.specs.Sound.{IsSound, IsSoundTask, HeadFits, is_naming, has_service, fibrils, connections};

use crate::fault::{LineFault, Reason};
use crate::name::Name;
use crate::names::Names;
use crate::plan::{Kind, Script, TaskPlan, TaskPlans, Wire, Wires};
use ipc_ids::{Bodies, Body, NoMemory, Op, Ops, PhoneNo, TaskNo};
use std::alloc::Global;

/// How many tasks a run may have, and how many templates a script.
pub const MOST_TASKS: usize = 64;

/// How many phones a task may have.
pub const MOST_PHONES: u32 = 64;

const MOST_OPERATIONS: usize = 4096;

const MOST_FIBRILS: usize = 16;

const MOST_CONNECTIONS: usize = 1;

/// What the line of a task or template says: a block server has all phones and so many blocks, each
/// other kind so many phones and no blocks.
#[derive(Drop)]
pub struct TaskHead {
    pub name: Name,
    pub kind: Kind,
    pub limit: u32,
    pub blocks: u64,
    pub service: Option<u64>,
}

/// The task, or template, whose operations are read: the bodies before its last one, and the last
/// one, to which the operations go, if it has one.
#[derive(Drop)]
pub struct LastTask {
    pub name: Name,
    pub kind: Kind,
    pub limit: u32,
    pub bodies: Bodies,
    pub body: Option<Body>,
    pub blocks: u64,
    pub service: Option<u64>,
}

/// The tasks before the last one, the last one, the wires, and the names of all tasks.
#[derive(Drop)]
pub struct Draft {
    pub done: TaskPlans,
    pub last: Option<LastTask>,
    pub wires: Wires,
    pub names: Names,
}

/// What is read of the tasks and their wires, and of the templates; operations go to the last task
/// or, where a template came after it, to the last template.
#[derive(Drop)]
pub struct Drafts {
    pub(crate) tasks: Draft,
    pub(crate) templates: Draft,
    pub(crate) on_template: bool,
}

/// Whether a name is that of the naming service, which no other task has.
pub fn is_ns(name: &[u8]) -> bool
    ensures { result ≡ is_ns name.now }
{
    name == b"ns".as_slice()
}

fn is_naming(kind: Kind) -> bool
    ensures { result ≡ is_naming kind }
{
    match kind {
        Kind::Naming => true,
        Kind::Raw | Kind::Async | Kind::Block => false,
    }
}

/// Whether a wire begins at a task's phone.
fn is_wired(wires: &[Wire], from: u64, phone: u64) -> bool
    ensures { result ≡ is_wired wires.now from phone }
{
    wires.iter().any(|wire| wire.from.0 == from && u64::from(wire.phone.0) == phone)
}

/// The body that a task of this kind has from the start.
fn first_body(alloc: Global, kind: Kind) -> Option<Body>
    ensures { result ≡ first_body kind }
{
    match kind {
        Kind::Naming | Kind::Async | Kind::Block => None,
        Kind::Raw => Some(Body {
            connection: false,
            ops: Ops::new(alloc),
        }),
    }
}

/// Gives a body one more operation.
#[inline(always)]
fn add_op_to(body: &mut Body, op: Op) -> Result<(), LineFault>
    ensures value { Follows result body.new (body_with_op op body.old) }
    ensures connection { body.new.connection ≡ body.old.connection }
    ensures last { OnOk result (last_in body.new ≡ Some op) }
{
    if body.ops.as_slice().len() >= MOST_OPERATIONS {
        return Err(LineFault::Bad(Reason::TooMany));
    }
    body.ops.push(op)?;
    Ok(())
}

fn is_async(kind: Kind) -> bool
    ensures { result ≡ is_async kind }
{
    match kind {
        Kind::Async => true,
        Kind::Naming | Kind::Raw | Kind::Block => false,
    }
}

fn fibrils(bodies: &[Body]) -> usize
    ensures { result ≡ fibrils bodies.now }
{
    let mut count = 0;
    for body in bodies {
        if !body.connection {
            count += 1;
        }
    }
    count
}

fn connections(bodies: &[Body]) -> usize
    ensures { result ≡ connections bodies.now }
{
    let mut count = 0;
    for body in bodies {
        if body.connection {
            count += 1;
        }
    }
    count
}

/// Whether there is no room for one more body, of connections or of a fibril.
fn is_full(connection: bool, bodies: &[Body]) -> bool
    ensures { result ≡ is_full connection bodies.now }
{
    match connection {
        true => connections(bodies) >= MOST_CONNECTIONS,
        false => fibrils(bodies) >= MOST_FIBRILS,
    }
}

impl LastTask {
    /// Ends the last body.
    fn end_body(&mut self) -> Result<(), NoMemory>
        ensures bodies { OnOk result (self.new.bodies ≡ self.old.bodies ++ if_any self.old.body) }
        ensures body { OnOk result (self.new.body ≡ None) }
        ensures head { HasHeadOf (last_plan self.old) (last_plan self.new) }
    {
        match self.body.take() {
            None => Ok(()),
            Some(body) => self.bodies.push(body),
        }
    }

    /// Begins a body, of connections or of a fibril.
    #[tactic(auto, unfolding(crate::specs::Draft::task_with_body))]
    fn add_body(&mut self, alloc: Global, connection: bool) -> Result<(), LineFault>
        requires async_task { is_async self.old.kind ≡ true }
        requires sound { IsSoundTask (last_plan self.old) }
        ensures value { Follows result (last_plan self.new)
            (task_with_body connection (last_plan self.old)) }
        ensures head { HasHeadOf (last_plan self.old) (last_plan self.new) }
        ensures sound { OnOk result
            (IsSoundTask (last_plan self.new) × HasLastBody self.new) }
    {
        self.end_body()?;
        if is_full(connection, self.bodies.as_slice()) {
            return Err(LineFault::Bad(Reason::TooMany));
        }
        self.body = Some(Body {
            connection,
            ops: Ops::new(alloc),
        });
        Ok(())
    }

    /// Gives the last body one more operation.
    #[inline(always)]
    fn add_op(&mut self, op: Op) -> Result<(), LineFault>
        requires of_kind { IfSome (taken_by self.old) (λ kind. IsOpOf kind op) }
        requires sound { IsSoundTask (last_plan self.old) × HasLastBody self.old }
        ensures value { Follows result (last_plan self.new) (task_with_op op (last_plan self.old)) }
        ensures head { HasHeadOf (last_plan self.old) (last_plan self.new) }
        ensures sound { OnOk result
            (IsSoundTask (last_plan self.new) × HasLastBody self.new) }
        ensures last { OnOk result ((last_op_of self.new ≡ Some op)
            × (taken_by self.new ≡ taken_by self.old)) }
    {
        match &mut self.body {
            None => Err(LineFault::Bad(Reason::OutOfPlace)),
            Some(body) => add_op_to(body, op),
        }
    }

    /// The last operation of the last body.
    #[inline(always)]
    fn last_op(&self) -> Option<&Op>
        ensures { option_copied result ≡ last_op_of self.now }
    {
        match &self.body {
            None => None,
            Some(body) => body.ops.as_slice().last(),
        }
    }

    /// The task with the bodies that it has.
    fn into_plan(self) -> Result<TaskPlan, NoMemory>
        ensures { IfOk result (λ task. task ≡ last_plan self) }
    {
        let mut last = self;
        match last.end_body() {
            Ok(()) => Ok(TaskPlan {
                name: last.name,
                kind: last.kind,
                limit: last.limit,
                bodies: last.bodies,
                blocks: last.blocks,
                service: last.service,
            }),
            Err(NoMemory) => {
                drop(last);
                Err(NoMemory)
            }
        }
    }
}

impl Draft {
    pub fn new(alloc: Global) -> Draft
        ensures nothing { plan_of result ≡ nothing }
        ensures whole { IsWhole result }
    {
        Draft {
            done: TaskPlans::new(alloc),
            last: None,
            wires: Wires::new(alloc),
            names: Names::new(alloc),
        }
    }

    /// Ends the last task.
    fn end_task(&mut self) -> Result<(), NoMemory>
        ensures done { OnOk result (self.new.done ≡ self.old.done ++ last_plans self.old.last) }
        ensures last { OnOk result (self.new.last ≡ None) }
        ensures wires { self.new.wires ≡ self.old.wires }
        ensures names { self.new.names ≡ self.old.names }
    {
        match self.last.take() {
            None => Ok(()),
            Some(last) => {
                let task = last.into_plan()?;
                self.done.push(task)
            }
        }
    }

    /// Whether there is no task yet.
    fn is_empty(&self) -> bool
        requires { IsWhole self.now }
        ensures names { result ≡ (length self.now.names == 0) }
        ensures value { result ≡ (length (plan_of self.now).tasks == 0) }
    {
        self.names.len() == 0
    }

    /// Adds the naming service, as the first task.
    #[tactic(auto, unfolding(crate::specs::Draft::with_service))]
    pub fn add_service(&mut self, alloc: Global) -> Result<(), LineFault>
        requires first { length self.old.names ≡ 0 }
        requires whole { IsWhole self.old }
        ensures value { IsStep result self.old self.new (λ plan. Ok (with_service plan)) }
        ensures whole { OnOk result (IsWhole self.new) }
    {
        let name = Name::ns();
        self.names.push(alloc, name.as_slice())?;
        self.end_task()?;
        self.last = Some(LastTask {
            name,
            kind: Kind::Naming,
            limit: MOST_PHONES,
            bodies: Bodies::new(alloc),
            body: None,
            blocks: 0,
            service: None,
        });
        Ok(())
    }

    /// Adds a task, or a template, which may have no earlier one's name and is not named `ns`.
    #[tactic(auto, unfolding(crate::specs::Draft::with_task))]
    pub fn add_task(&mut self, alloc: Global, head: TaskHead) -> Result<(), LineFault>
        requires not_naming { head.kind ≢ Naming }
        requires fits { HeadFits head.kind head }
        requires whole { IsWhole self.old }
        ensures value { IsStep result self.old self.new (λ plan. with_task plan head) }
        ensures whole { OnOk result (IsWhole self.new) }
    {
        let (kind, limit, blocks, service) = (head.kind, head.limit, head.blocks, head.service);
        let name = head.name;
        if is_ns(name.as_slice()) || self.names.place_of(name.as_slice()).is_some() {
            return Err(LineFault::Bad(Reason::NameTaken));
        }
        if self.names.len() >= MOST_TASKS {
            return Err(LineFault::Bad(Reason::TooMany));
        }
        self.names.push(alloc, name.as_slice())?;
        self.end_task()?;
        self.last = Some(LastTask {
            name,
            kind,
            limit,
            bodies: Bodies::new(alloc),
            body: first_body(alloc, kind),
            blocks,
            service,
        });
        Ok(())
    }

    /// The phones of the task at a place, 0 where there is no task.
    #[tactic(auto, unfolding(crate::specs::Draft::limit_at))]
    fn limit_at(&self, place: usize) -> u32
        ensures { result ≡ limit_at (plan_of self.now).tasks place }
    {
        match self.done.as_slice().get(place) {
            Some(task) => task.limit,
            None => match &self.last {
                Some(last) if place == self.done.as_slice().len() => last.limit,
                _ => 0,
            },
        }
    }

    /// Whether the first task is the naming service.
    fn has_service(&self) -> bool
        ensures { result ≡ has_service (plan_of self.now).tasks }
    {
        match self.done.as_slice() {
            [first, ..] => is_naming(first.kind),
            [] => match &self.last {
                Some(last) => is_naming(last.kind),
                None => false,
            },
        }
    }

    /// Whether the phone of the task at a place leads to the naming service from the start.
    fn leads_to_service(&self, place: usize, phone: u64) -> bool
        ensures { result ≡ leads_to_service (plan_of self.now).tasks place phone }
    {
        self.has_service() && place != 0 && phone == 0
    }

    /// Adds a wire between the tasks of two names.
    #[tactic(auto, unfolding(crate::specs::Draft::with_wire))]
    pub fn add_wire(&mut self, from: &[u8], phone: u64, to: &[u8]) -> Result<(), LineFault>
        requires whole { IsWhole self.old }
        ensures value { IsStep result self.old self.new
            (λ plan. with_wire plan from.now phone to.now) }
        ensures whole { OnOk result (IsWhole self.new) }
    {
        let Some(from) = self.names.place_of(from) else {
            return Err(LineFault::Bad(Reason::UnknownName));
        };
        let Some(to) = self.names.place_of(to) else {
            return Err(LineFault::Bad(Reason::UnknownName));
        };
        let limit = self.limit_at(from);
        let number = from as u64 + 1;
        let is_wired = is_wired(self.wires.as_slice(), number, phone);
        if phone >= u64::from(limit) || is_wired || self.leads_to_service(from, phone) {
            return Err(LineFault::Bad(Reason::BadPhone));
        }
        self.wires.push(Wire {
            from: TaskNo(number),
            phone: PhoneNo(phone as u32),
            to: TaskNo(to as u64 + 1),
        })?;
        Ok(())
    }

    fn taker(&self) -> Option<Kind>
        ensures { result ≡ taker self.now }
    {
        match &self.last {
            Some(last) if last.body.is_some() => Some(last.kind),
            _ => None,
        }
    }

    /// The kind of the last task, if it has a body that takes operations.
    pub fn present(&self) -> Option<Kind>
        requires { IsWhole self.now }
        ensures taker { result ≡ taker self.now }
        ensures value { result ≡ present (plan_of self.now) }
    {
        self.taker()
    }

    /// Whether the last task is an async one.
    fn last_is_async(&self) -> bool
        ensures { result ≡ last_is_async self.now }
    {
        match &self.last {
            None => false,
            Some(last) => is_async(last.kind),
        }
    }

    /// Whether the last task takes bodies.
    pub fn takes_bodies(&self) -> bool
        requires { IsWhole self.now }
        ensures async_task { result ≡ last_is_async self.now }
        ensures value { result ≡ takes_bodies (plan_of self.now) }
    {
        self.last_is_async()
    }

    /// Gives the last task, an async one, one more body.
    #[tactic(auto, unfolding(crate::specs::Draft::with_body))]
    pub fn add_body(&mut self, alloc: Global, connection: bool) -> Result<(), LineFault>
        requires async_task { last_is_async self.old ≡ true }
        requires whole { IsWhole self.old }
        ensures value { IsStep result self.old self.new (λ plan. with_body plan connection) }
        ensures whole { OnOk result (IsWhole self.new) }
    {
        match &mut self.last {
            None => Err(LineFault::Bad(Reason::OutOfPlace)),
            Some(last) => last.add_body(alloc, connection),
        }
    }

    /// Gives the last task one more operation.
    #[tactic(auto, unfolding(crate::specs::Draft::with_op))]
    pub fn add_op(&mut self, op: Op) -> Result<(), LineFault>
        requires of_kind { IfSome (taker self.old) (λ kind. IsOpOf kind op) }
        requires whole { IsWhole self.old }
        ensures value { IsStep result self.old self.new (λ plan. with_op plan op) }
        ensures whole { OnOk result (IsWhole self.new) }
        ensures last { OnOk result ((last_op self.new ≡ Some op)
            × (taker self.new ≡ taker self.old)) }
    {
        match &mut self.last {
            None => Err(LineFault::Bad(Reason::OutOfPlace)),
            Some(last) => last.add_op(op),
        }
    }

    /// The last operation of the last task.
    #[inline(always)]
    fn last_op(&self) -> Option<&Op>
        ensures { option_copied result ≡ last_op self.now }
    {
        match &self.last {
            None => None,
            Some(last) => last.last_op(),
        }
    }

    /// Gives the last task its last operation once more.
    #[inline(always)]
    pub fn repeat_op(&mut self) -> Result<(), LineFault>
        requires fits { TakesLastOp self.old }
        requires whole { IsWhole self.old }
        ensures value { (op : Op) → last_op self.old ≡ Some op
            → IsStep result self.old self.new (λ plan. with_op plan op) }
        ensures whole { OnOk result (IsWhole self.new) }
        ensures last { OnOk result (KeepsLastOp self.old self.new) }
    {
        match self.last_op() {
            None => Err(LineFault::Bad(Reason::OutOfPlace)),
            Some(op) => {
                let op = op.copy();
                self.add_op(op)
            }
        }
    }

    /// The tasks and wires without the last task, which was ended before.
    fn into_done(self) -> (TaskPlans, Wires)
        ensures { result ≡ (self.done, self.wires) }
    {
        let Draft {
            done,
            last,
            wires,
            names,
        } = self;
        drop(last);
        drop(names);
        (done, wires)
    }
}

impl Drafts {
    /// Before any line.
    pub fn new(alloc: Global) -> Drafts
        ensures nothing { parts_of result ≡ no_parts }
        ensures whole { AreWhole result }
    {
        Drafts {
            tasks: Draft::new(alloc),
            templates: Draft::new(alloc),
            on_template: false,
        }
    }

    /// Whether no line so far had words: each makes a task or a template, or stands behind one.
    #[tactic(auto, unfolding(crate::specs::Draft::stands_first))]
    pub fn are_empty(&self) -> bool
        requires { AreWhole self.now }
        ensures names { result ≡ true → length self.now.tasks.names ≡ 0 }
        ensures value { result ≡ stands_first (script_of_parts (parts_of self.now)) }
    {
        self.tasks.is_empty() && self.templates.is_empty()
    }

    /// Ends the last task and the last template.
    fn end(&mut self) -> Result<(), NoMemory>
        ensures { OnOk result (ended_script self.new ≡ script_of_parts (parts_of self.old)) }
    {
        self.tasks.end_task()?;
        self.templates.end_task()
    }

    /// The script of the tasks and templates that were ended.
    fn into_ended(self) -> Script
        requires { IsSound (ended_script self) }
        ensures { result ≡ ended_script self }
    {
        let (tasks, wires) = self.tasks.into_done();
        let (templates, no_wires) = self.templates.into_done();
        drop(no_wires);
        Script {
            tasks,
            wires,
            templates,
        }
    }

    /// The script of all the lines.
    pub fn into_script(self) -> Result<Script, NoMemory>
        requires whole { AreWhole self }
        requires fit { PartsFit (parts_of self) }
        ensures { IfOk result (λ script. script ≡ script_of_parts (parts_of self)) }
    {
        let mut drafts = self;
        match drafts.end() {
            Ok(()) => Ok(drafts.into_ended()),
            Err(NoMemory) => {
                drop(drafts);
                Err(NoMemory)
            }
        }
    }
}
