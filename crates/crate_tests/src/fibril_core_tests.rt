//! The calls that the program does not make, with ample memory.
ghost use Rattle.std.specs.Prelude.{◌≡◌, []};
ghost use Rattle.fibril_core.specs.Fibrils.{no_fibrils};
ghost use Rattle.fibril_core.specs.Conns.{no_conns};

use fibril_core::{Conns, Fibrils};
use ipc_ids::{CallNo, FibrilNo, Label, PhoneNo, TaskNo, Why};
use std::alloc::Global;

const ONE: FibrilNo = FibrilNo(1);

const TWO: FibrilNo = FibrilNo(2);

/// The label of all connections.
const LABEL: Label = Label {
    task: TaskNo(2),
    phone: PhoneNo(3),
};

/// Whether the first fibril is woken by the answer for which it waits, and by no other.
fn wakes_by_answer(fibrils: &mut Fibrils) -> bool
    requires none { fibrils.old.order ≡ no_fibrils }
{
    if fibrils.spawn() != Ok(ONE) {
        return false;
    }
    fibrils.block_on(Why::Answer(CallNo(7)));
    if fibrils.wake_answer(CallNo(8)) != None {
        return false;
    }
    fibrils.wake_answer(CallNo(7)) == Some(ONE)
}

/// Whether a connection has its label until a newer one takes it.
fn takes_the_label(conns: &mut Conns) -> bool
    requires none { conns.old.conns ≡ no_conns }
{
    if conns.start(LABEL, ONE) != Ok(()) || conns.holder(LABEL) != Some(ONE) {
        return false;
    }
    conns.start(LABEL, TWO) == Ok(()) && conns.holder(LABEL) == Some(TWO)
}

fn fibrils_wake(alloc: Global) -> bool {
    let mut fibrils = Fibrils::new(alloc);
    wakes_by_answer(&mut fibrils)
}

fn connections_start(alloc: Global) -> bool {
    let mut conns = Conns::new(alloc);
    takes_the_label(&mut conns)
}

#[test]
fn a_fibril_is_woken_by_its_answer(rt: HostRuntime) {
    assert!(rt; fibrils_wake(rt.alloc()));
}

#[test]
fn a_newer_connection_takes_the_label(rt: HostRuntime) {
    assert!(rt; connections_start(rt.alloc()));
}
