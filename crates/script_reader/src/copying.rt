//! Copies of plans.
ghost use Rattle.std.specs.Prelude.{◌≡◌, [], IfOk, OnOk};

use ipc_ids::{Bodies, Body, NoMemory, Op, Ops};
use script_lines::{TaskPlan, TaskPlans};
use std::alloc::Global;

/// Puts the same operations once more where there are none yet.
fn copy_ops(copies: &mut Ops, ops: &[Op]) -> Result<(), NoMemory>
    requires { copies.old ≡ [] }
    ensures { OnOk result (copies.new ≡ ops.now) }
{
    for op in ops {
        copies.push(op.copy())?;
    }
    Ok(())
}

fn copies_of_ops(alloc: Global, ops: &[Op]) -> Result<Ops, NoMemory>
    ensures { IfOk result (λ copies. copies ≡ ops.now) }
{
    let mut copies = Ops::new(alloc);
    match copy_ops(&mut copies, ops) {
        Ok(()) => Ok(copies),
        Err(NoMemory) => {
            drop(copies);
            Err(NoMemory)
        }
    }
}

/// The same body once more.
fn copy_of_body(alloc: Global, body: &Body) -> Result<Body, NoMemory>
    ensures { IfOk result (λ copy. copy ≡ body.now) }
{
    let ops = copies_of_ops(alloc, body.ops.as_slice())?;
    Ok(Body {
        connection: body.connection,
        ops,
    })
}

/// Puts the same bodies once more where there are none yet.
fn copy_bodies(copies: &mut Bodies, alloc: Global, bodies: &[Body]) -> Result<(), NoMemory>
    requires { copies.old ≡ [] }
    ensures { OnOk result (copies.new ≡ bodies.now) }
{
    for body in bodies {
        copies.push(copy_of_body(alloc, body)?)?;
    }
    Ok(())
}

fn copies_of_bodies(alloc: Global, bodies: &[Body]) -> Result<Bodies, NoMemory>
    ensures { IfOk result (λ copies. copies ≡ bodies.now) }
{
    let mut copies = Bodies::new(alloc);
    match copy_bodies(&mut copies, alloc, bodies) {
        Ok(()) => Ok(copies),
        Err(NoMemory) => {
            drop(copies);
            Err(NoMemory)
        }
    }
}

/// The same task once more.
fn copy_of_plan(alloc: Global, plan: &TaskPlan) -> Result<TaskPlan, NoMemory>
    ensures { IfOk result (λ copy. copy ≡ plan.now) }
{
    let bodies = copies_of_bodies(alloc, plan.bodies.as_slice())?;
    Ok(TaskPlan {
        name: plan.name.copy(),
        kind: plan.kind,
        limit: plan.limit,
        bodies,
        blocks: plan.blocks,
        service: plan.service,
    })
}

/// Puts the same tasks once more where there are none yet.
fn copy_plans(copies: &mut TaskPlans, alloc: Global, plans: &[TaskPlan]) -> Result<(), NoMemory>
    requires { copies.old ≡ [] }
    ensures { OnOk result (copies.new ≡ plans.now) }
{
    for plan in plans {
        copies.push(copy_of_plan(alloc, plan)?)?;
    }
    Ok(())
}

/// The same tasks once more.
///
/// # Errors
///
/// `NoMemory` where no memory was found.
pub fn copies_of_plans(alloc: Global, plans: &[TaskPlan]) -> Result<TaskPlans, NoMemory>
    ensures { IfOk result (λ copies. copies ≡ plans.now) }
{
    let mut copies = TaskPlans::new(alloc);
    match copy_plans(&mut copies, alloc, plans) {
        Ok(()) => Ok(copies),
        Err(NoMemory) => {
            drop(copies);
            Err(NoMemory)
        }
    }
}
