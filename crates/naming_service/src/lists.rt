//! What the naming service keeps, with room made before it changes.
ghost use Rattle.std.specs.Prelude.{◌≡◌, ◌+◌, ◌<◌, ◌≤◌, [], ◌∷◌, ◌++◌, None, OnOk, filter, length};
ghost use Rattle.std.specs.VecDeque.{deque_len, deque_capacity};
ghost use Rattle.indexmap.specs.IndexMap.{KeepsRoom, spare};
ghost use Rattle.naming_service.specs.Naming.{phone_of, forwarding_all, leads_elsewhere, wants_another, telling_all};

use crate::received::{ReceivedCall, Work};
use indexmap::IndexMap;
use ipc_ids::{CallNo, NoMemory};
use std::collections::VecDeque;
use task_ends::{End, Wait};

/// Adds a forward over the phone for each pending call that wants the service, in their order.
pub fn forward_pending(
    work: &mut VecDeque<Work>,
    pending: &[ReceivedCall],
    service: u64,
    phone: u64,
)
    requires room { deque_len work.old + length pending.now ≤ deque_capacity work.old }
    ensures { work.new.items ≡ work.old.items ++ forwarding_all service phone pending.now }
{
    for received in pending {
        if received.service() == service {
            work.push_back_reserved(Work::forwarding(received, phone));
        }
    }
}

/// Adds an answer that tells of the end for each call, in their order.
pub fn tell_all(work: &mut VecDeque<Work>, end: End, calls: &[CallNo])
    requires room { deque_len work.old + length calls.now ≤ deque_capacity work.old }
    ensures { work.new.items ≡ work.old.items ++ telling_all end calls.now }
{
    for call in calls {
        work.push_back_reserved(Work::telling(end, *call));
    }
}

/// Makes room for one piece of work and one for each of these waits.
pub fn reserve_for_waits(work: &mut VecDeque<Work>, waits: &[Wait]) -> Result<(), NoMemory>
    ensures items { work.new.items ≡ work.old.items }
    ensures room { OnOk result (deque_len work.new + (length waits.now + 1)
        ≤ deque_capacity work.new) }
{
    match work.reserve(waits.len() + 1) {
        Ok(()) => Ok(()),
        Err(_) => Err(NoMemory),
    }
}

/// Takes the calls out that want the service.
pub fn keep_others(pending: &mut Vec<ReceivedCall>, service: u64)
    ensures { pending.new.items ≡ filter (wants_another service) pending.old.items }
{
    pending.retain(
        |received: &ReceivedCall| -> bool
            ensures { result ≡ wants_another service received.now }
        { received.service() != service },
    );
}

/// Takes the entries out that have this phone.
pub fn keep_elsewhere(registry: &mut IndexMap<u64, u64>, phone: u64)
    ensures entries { registry.new.entries ≡ filter (leads_elsewhere phone) registry.old.entries }
    ensures room { KeepsRoom registry.old registry.new }
{
    registry.retain(
        |_service: &u64, held: &mut u64| -> bool
            ensures test { result ≡ leads_elsewhere phone (_service.now, held.old) }
            ensures kept { held.new ≡ held.old }
        { *held != phone },
    );
}

/// Makes room for one service, and for an answer and a forward of each pending call.
pub fn reserve_for_one(
    registry: &mut IndexMap<u64, u64>,
    work: &mut VecDeque<Work>,
    pending: &[ReceivedCall],
) -> Result<(), NoMemory>
    ensures entries { registry.new.entries ≡ registry.old.entries }
    ensures items { work.new.items ≡ work.old.items }
    ensures room { OnOk result (0 < spare registry.new) }
    ensures work_room { OnOk result (deque_len work.new + (length pending.now + 1)
        ≤ deque_capacity work.new) }
{
    match registry.reserve(1) {
        Ok(()) => match work.reserve(pending.len() + 1) {
            Ok(()) => Ok(()),
            Err(_) => Err(NoMemory),
        },
        Err(_) => Err(NoMemory),
    }
}

/// Adds a service that has no entry yet.
pub fn insert_reserved(registry: &mut IndexMap<u64, u64>, service: u64, phone: u64)
    requires room { 0 < spare registry.old }
    requires new { phone_of registry.old.entries service ≡ None }
    ensures { registry.new.entries ≡ registry.old.entries ++ (service, phone) ∷ [] }
{
    let _ = registry.insert(service, phone);
}
