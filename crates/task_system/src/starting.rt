//! The tasks of a script before the first event.
ghost use Rattle.std.specs.Prelude.{◌≡◌, ◌+◌, ◌-◌, ◌≤◌, length, All, IfOk, OnOk};
ghost use Rattle.script_lines.specs.Sound.{IsSoundTask, has_service};
ghost use Rattle.task_system.specs.Run.{start, with_tasks, ops_of, program_of, programs_from, service_of};
ghost use Rattle.task_system.specs.Wiring.{service_wires, wires_to_service, with_wires, AreOpen};

use crate::any::AnyProgram;
use async_task::AsyncProgram;
use block_server::BlockServer;
use ipc_ids::{Body, NoMemory, Op, PhoneNo, TaskNo};
use kernel_core::Kernel;
use naming_service::NamingService;
use raw_program::RawProgram;
use script_reader::{Kind, Script, TaskPlan, Wire};
use std::alloc::Global;

/// The kernel with the tasks of a script and their wires, before the first event.
pub fn kernel_of(alloc: Global, script: &Script) -> Result<Kernel, NoMemory>
    ensures state { IfOk result (λ kernel. kernel ≡ (start script.now).kernel) }
    ensures no_event { IfOk result (λ kernel. kernel.events ≡ 0) }
{
    let mut kernel = Kernel::new(alloc);
    let tasks = script.tasks.as_slice();
    match add_tasks(&mut kernel, tasks) {
        Ok(()) => {
            add_service_wires(&mut kernel, tasks);
            add_wires(&mut kernel, script.wires.as_slice());
            Ok(kernel)
        }
        Err(NoMemory) => {
            drop(kernel);
            Err(NoMemory)
        }
    }
}

/// Adds each task with its phones.
fn add_tasks(kernel: &mut Kernel, tasks: &[TaskPlan]) -> Result<(), NoMemory>
    requires few { length kernel.old.tasks.alive + length tasks.now ≤ 64 }
    requires sound { All IsSoundTask tasks.now }
    requires no_event { kernel.old.events ≡ 0 }
    ensures state { OnOk result (kernel.new ≡ with_tasks kernel.old tasks.now) }
    ensures no_event { kernel.new.events ≡ 0 }
{
    for task in tasks {
        let _ = kernel.add_task(task.limit)?;
    }
    Ok(())
}

/// Where the first task is the naming service, phone 0 of each other task leads to it.
fn add_service_wires(kernel: &mut Kernel, tasks: &[TaskPlan])
    requires few { length tasks.now ≤ 64 }
    requires free { AreOpen kernel.old (wires_to_service tasks.now) }
    requires no_event { kernel.old.events ≡ 0 }
    ensures state { kernel.new ≡ with_wires kernel.old (wires_to_service tasks.now) }
    ensures no_event { kernel.new.events ≡ 0 }
{
    if has_service(tasks) {
        wire_to_service(kernel, tasks.len() as u64);
    }
}

/// The naming service, where there is one: the first task.
pub fn service_of(tasks: &[TaskPlan]) -> Option<TaskNo>
    ensures { result ≡ service_of tasks.now }
{
    match has_service(tasks) {
        true => Some(TaskNo(1)),
        false => None,
    }
}

fn has_service(tasks: &[TaskPlan]) -> bool
    ensures { result ≡ has_service tasks.now }
{
    match tasks {
        [first, ..] => match first.kind {
            Kind::Naming => true,
            Kind::Raw | Kind::Async | Kind::Block => false,
        },
        [] => false,
    }
}

/// Phone 0 of each task from 2 on, of so many tasks, leads to task 1.
fn wire_to_service(kernel: &mut Kernel, tasks: u64)
    requires few { tasks ≤ 64 }
    requires free { AreOpen kernel.old (service_wires (tasks - 1) 2) }
    requires no_event { kernel.old.events ≡ 0 }
    ensures state { kernel.new ≡ with_wires kernel.old (service_wires (tasks - 1) 2) }
    ensures no_event { kernel.new.events ≡ 0 }
{
    for task in 2..tasks + 1 {
        kernel.wire(TaskNo(task), PhoneNo(0), TaskNo(1));
    }
}

/// Lays each wire.
fn add_wires(kernel: &mut Kernel, wires: &[Wire])
    requires free { AreOpen kernel.old wires.now }
    requires no_event { kernel.old.events ≡ 0 }
    ensures state { kernel.new ≡ with_wires kernel.old wires.now }
    ensures no_event { kernel.new.events ≡ 0 }
{
    for wire in wires {
        kernel.wire(wire.from, wire.phone, wire.to);
    }
}

/// The program of each task.
pub fn programs_of(alloc: Global, tasks: &[TaskPlan]) -> Result<Vec<AnyProgram>, NoMemory>
    requires few { length tasks.now ≤ 64 }
    requires sound { All IsSoundTask tasks.now }
    ensures { IfOk result (λ programs. programs.items ≡ programs_from 1 tasks.now) }
{
    let mut programs = Vec::new(alloc);
    let mut number = 1;
    for task in tasks {
        let program = program_of(alloc, number, task)?;
        programs.push(program)?;
        number += 1;
    }
    Ok(programs)
}

pub fn program_of(alloc: Global, number: u64, task: &TaskPlan) -> Result<AnyProgram, NoMemory>
    requires sound { IsSoundTask task.now }
    ensures { IfOk result (λ program. program ≡ program_of number task.now) }
{
    let bodies = task.bodies.as_slice();
    match task.kind {
        Kind::Naming => Ok(AnyProgram::Naming(NamingService::new(alloc))),
        Kind::Raw => {
            let program = RawProgram::new(alloc, ops_of(bodies))?;
            Ok(AnyProgram::Raw(program))
        }
        Kind::Async => {
            let program = AsyncProgram::new(alloc, TaskNo(number), bodies)?;
            Ok(AnyProgram::Async(program))
        }
        Kind::Block => {
            let program = BlockServer::new(alloc, task.blocks, task.service)?;
            Ok(AnyProgram::Block(program))
        }
    }
}

fn ops_of(bodies: &[Body]) -> &[Op]
    ensures { result.now ≡ ops_of bodies.now }
{
    match bodies {
        [body, ..] => body.ops.as_slice(),
        [] => &[],
    }
}
