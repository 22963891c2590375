//! The room that the end of a task takes at most, counted from its phones, calls and areas.
ghost use Rattle.std.specs.Prelude.{◌≡◌, ◌+◌, ◌^◌, ◌<◌, ◌≤◌, [], IfOk, length};
ghost use Rattle.std.specs.FinMap.{len};
ghost use Rattle.phone_table.specs.Phones.{state_at};
ghost use Rattle.switchboard.specs.State.{state_from};
ghost use Rattle.switchboard.specs.Rooms.{calls_of_hangup as calls_of, entries_of_hangup as entries_of, leads_to as leads};
ghost use Rattle.cleanup.specs.KillRoom.{kill_entries as kill_entries_of, own_calls, own_entries as own_entries_of, leading as leading_to, leading_at as leading_from, leading_of as leading_in};

use address_space::Spaces;
use answerbox::Boxes;
use call_slab::Place;
use ipc_ids::{NoMemory, PhoneState, TaskNo};
use phone_table::PhoneRows;
use switchboard::width;

/// How many calls the end of the task makes at most: one for each of its phones that leads to a
/// task.
pub(crate) fn kill_calls(who: TaskNo, phones: &PhoneRows) -> usize
    requires from_one { 1 ≤ who.0 }
    requires task { who.0 ≤ length phones.now.states }
    ensures calls { result ≡ own_calls phones.now.states who }
    ensures few { result ≤ 64 }
{
    let mut calls = 0;
    for phone in 0..width(who, phones) {
        calls += calls_of_hangup(state_of(who, phone, phones));
    }
    calls
}

/// How many entries the end of the task makes at most; `NoMemory` where no memory has room for so
/// many.
pub(crate) fn kill_entries(
    who: TaskNo,
    phones: &PhoneRows,
    boxes: &Boxes,
    spaces: &Spaces,
) -> Result<usize, NoMemory>
    requires from_one { 1 ≤ who.0 }
    requires task { who.0 ≤ length phones.now.states }
    requires areas { who.0 ≤ length spaces.now.areas }
    requires few_calls { len boxes.now.calls.records < 2 ^ 61 }
    ensures { IfOk result (λ n. n
        ≡ kill_entries_of (state_from [] phones.now.states boxes.now.calls spaces.now 0) who) }
{
    let own = own_entries(who, phones) + kill_calls(who, phones);
    let waiting = boxes.calls_at(Place::Incoming(who));
    let held = boxes.calls_at(Place::Dispatched(who));
    let told = boxes.calls_at(Place::Answers(who));
    let calls = 2 * (waiting + held + told) + boxes.calls_by(who);
    match leading(who, phones) {
        Ok(slams) => match slams.checked_add(own + calls + spaces.count_areas(who)) {
            Some(entries) => Ok(entries),
            None => Err(NoMemory),
        },
        Err(NoMemory) => Err(NoMemory),
    }
}

/// How many entries the hangups of the task's phones make.
fn own_entries(who: TaskNo, phones: &PhoneRows) -> usize
    requires from_one { 1 ≤ who.0 }
    requires task { who.0 ≤ length phones.now.states }
    ensures entries { result ≡ own_entries_of phones.now.states who }
    ensures few { result ≤ 128 }
{
    let mut entries = 0;
    for phone in 0..width(who, phones) {
        entries += entries_of_hangup(state_of(who, phone, phones));
    }
    entries
}

/// How many phones of other tasks lead to the task; `NoMemory` where no number has room for it.
fn leading(who: TaskNo, phones: &PhoneRows) -> Result<usize, NoMemory>
    ensures { IfOk result (λ n. n ≡ leading_to who phones.now.states) }
{
    let mut slams: usize = 0;
    for i in 0..phones.tasks() {
        match slams.checked_add(leading_at(who, i, phones)) {
            Some(more) => slams = more,
            None => return Err(NoMemory),
        }
    }
    Ok(slams)
}

/// How many phones of the task numbered `i + 1` lead to the task, unless it is itself that task.
fn leading_at(who: TaskNo, i: u64, phones: &PhoneRows) -> usize
    requires task { i < length phones.now.states }
    requires few { i + 1 < 2 ^ 64 }
    ensures { result ≡ leading_from who phones.now.states i }
{
    if i + 1 == who.0 {
        0
    } else {
        leading_of(who, TaskNo(i + 1), phones)
    }
}

/// How many phones of one task lead to the task.
fn leading_of(who: TaskNo, other: TaskNo, phones: &PhoneRows) -> usize
    requires from_one { 1 ≤ other.0 }
    requires task { other.0 ≤ length phones.now.states }
    ensures { result ≡ leading_in who phones.now.states other.0 }
{
    let mut slams = 0;
    for phone in 0..width(other, phones) {
        slams += leads_to(who, state_of(other, phone, phones));
    }
    slams
}

/// The state of a phone; `None` where the task has no such phone.
fn state_of(t: TaskNo, phone: u64, phones: &PhoneRows) -> Option<PhoneState>
    requires from_one { 1 ≤ t.0 }
    requires task { t.0 ≤ length phones.now.states }
    ensures { result ≡ state_at phones.now.states t.0 phone }
{
    phones.row(t).state(phone)
}

/// How many calls the hangup of a phone in this state makes.
fn calls_of_hangup(state: Option<PhoneState>) -> usize
    ensures calls { result ≡ calls_of state }
    ensures few { result ≤ 1 }
{
    match state {
        Some(PhoneState::Connected(_)) => 1,
        _ => 0,
    }
}

/// How many entries it makes.
fn entries_of_hangup(state: Option<PhoneState>) -> usize
    ensures entries { result ≡ entries_of state }
    ensures few { result ≤ 2 }
{
    match state {
        Some(PhoneState::Connected(_)) => 2,
        Some(PhoneState::Slammed) => 1,
        _ => 0,
    }
}

/// 1 where a phone in this state leads to the task.
fn leads_to(who: TaskNo, state: Option<PhoneState>) -> usize
    ensures leads { result ≡ leads who state }
    ensures few { result ≤ 1 }
{
    match state {
        Some(PhoneState::Connected(to)) if to.0 == who.0 => 1,
        _ => 0,
    }
}
