//! The end of a task, part by part.
ghost use Rattle.std.specs.Prelude.{◌≡◌, ◌+◌, ◌*◌, ◌^◌, ◌<◌, ◌≤◌, false, IfOk, OnOk, OnErr, length};
ghost use Rattle.answerbox.specs.Calls.{task_of, calls_at, calls_by};
ghost use Rattle.call_slab.specs.declared.call.Place.TheVariants.{Answers};
ghost use Rattle.switchboard.specs.State.{is_alive, live_calls};
ghost use Rattle.address_space.specs.Memory.{count_areas};
ghost use Rattle.cleanup.specs.Kill.{kill, end_parts, end_phones_and_calls, drop_areas, hang_up_own_phones, slam_phones_to, slam_other, slam_phones_of, settle_calls_at, drop_answers, forget_calls_elsewhere};
ghost use Rattle.switchboard.specs.Board.{IsAdded, IsPendingAt, FewFrom};
ghost use Rattle.cleanup.specs.KillRoom.{kill_calls, kill_moves, kill_entries, moves_at, entries_at, phone_and_call_entries, own_entries, leading, leading_at, leading_of};
ghost use Rattle.switchboard.specs.Rooms.{HasRoom, UsesRoom};
ghost use Rattle.switchboard.specs.Serving.{Does, Leaves};

use crate::kill_room;
use call_slab::Place;
use ipc_ids::{Code, NoMemory, Reply, TaskNo, Trace};
use switchboard::{Switchboard, label};

/// Marks the task as ended, and brings it to its end.
///
/// # Errors
///
/// `NoMemory` where no memory was found for all calls and entries; then nothing has changed.
pub fn end(board: &mut Switchboard, who: TaskNo, out: &mut Trace) -> Result<(), NoMemory>
    requires added { IsAdded board.old.state who }
    requires few_active { FewFrom board.old.state who 0 }
    requires few_calls { board.old.state.calls.next_number < 2 ^ 61 }
    requires few_stamps { board.old.state.calls.next_stamp < 2 ^ 61 }
    ensures step { OnOk result (Does board.new out.old out.new (kill board.old.state who)) }
    ensures numbers { board.new.state.calls.next_number ≤ board.old.state.calls.next_number
        + kill_calls board.old.state who }
    ensures stamps { board.new.state.calls.next_stamp ≤ board.old.state.calls.next_stamp
        + kill_moves board.old.state who }
    ensures few { kill_calls board.old.state who ≤ 64 }
    ensures events { board.new.state.events ≡ board.old.state.events }
    ensures unchanged { OnErr result (Leaves board.old board.new out.old out.new) }
{
    board.check_numbers();
    let calls = kill_calls(board, who);
    let entries = kill_entries(board, who)?;
    board.reserve(calls)?;
    out.reserve(entries)?;
    end_reserved(board, who, out);
    Ok(())
}

/// The same, where there is room for all of it.
pub(crate) fn end_reserved(board: &mut Switchboard, who: TaskNo, out: &mut Trace)
    requires added { IsAdded board.old.state who }
    requires few_active { FewFrom board.old.state who 0 }
    requires room { HasRoom board.old out.old (kill_calls board.old.state who)
        (kill_moves board.old.state who) (kill_entries board.old.state who) }
    ensures step { Does board.new out.old out.new (kill board.old.state who) }
    ensures numbers { board.new.state.calls.next_number ≤ board.old.state.calls.next_number
        + kill_calls board.old.state who }
    ensures stamps { board.new.state.calls.next_stamp ≤ board.old.state.calls.next_stamp
        + kill_moves board.old.state who }
    ensures events { board.new.state.events ≡ board.old.state.events }
    ensures places { board.new.places ≡ board.old.places }
{
    board.mark_ended(who);
    do_parts(board, who, out);
}

/// The parts in their order.
fn do_parts(board: &mut Switchboard, who: TaskNo, out: &mut Trace)
    requires added { IsAdded board.old.state who }
    requires ended { is_alive board.old.state who ≡ false }
    requires few_active { FewFrom board.old.state who 0 }
    requires room { HasRoom board.old out.old (kill_calls board.old.state who)
        (kill_moves board.old.state who) (kill_entries board.old.state who) }
    ensures step { Does board.new out.old out.new (end_parts who board.old.state) }
    ensures room { UsesRoom board.old board.new out.old out.new (kill_calls board.old.state who)
        (kill_moves board.old.state who) (kill_entries board.old.state who) }
{
    end_phones_and_calls(board, who, out);
    drop_areas(board, who, out);
}

/// All parts but the last.
fn end_phones_and_calls(board: &mut Switchboard, who: TaskNo, out: &mut Trace)
    requires added { IsAdded board.old.state who }
    requires ended { is_alive board.old.state who ≡ false }
    requires few_active { FewFrom board.old.state who 0 }
    requires room { HasRoom board.old out.old (kill_calls board.old.state who)
        (kill_moves board.old.state who) (phone_and_call_entries board.old.state who) }
    ensures step { Does board.new out.old out.new (end_phones_and_calls who board.old.state) }
    ensures room { UsesRoom board.old board.new out.old out.new (kill_calls board.old.state who)
        (kill_moves board.old.state who) (phone_and_call_entries board.old.state who) }
{
    board.check_numbers();
    hang_up_own_phones(board, who, out);
    slam_phones_to(board, who, out);
    settle_calls_at(board, Place::Incoming(who), out);
    settle_calls_at(board, Place::Dispatched(who), out);
    drop_answers(board, who, out);
    forget_calls_elsewhere(board, who, out);
}

/// Hangs up each phone of the task that leads or led to a task.
fn hang_up_own_phones(board: &mut Switchboard, who: TaskNo, out: &mut Trace)
    requires added { IsAdded board.old.state who }
    requires few_active { FewFrom board.old.state who 0 }
    requires room { HasRoom board.old out.old (kill_calls board.old.state who)
        (kill_calls board.old.state who) (own_entries board.old.state.tasks.phones who) }
    ensures step { Does board.new out.old out.new (hang_up_own_phones who board.old.state) }
    ensures room { UsesRoom board.old board.new out.old out.new (kill_calls board.old.state who)
        (kill_calls board.old.state who) (own_entries board.old.state.tasks.phones who) }
{
    for phone in 0..board.width(who) {
        let _told = board.hang_up(label(who, phone), out);
    }
}

/// Slams each phone of another task that leads to the task.
fn slam_phones_to(board: &mut Switchboard, who: TaskNo, out: &mut Trace)
    requires room { HasRoom board.old out.old 0 0 (leading who board.old.state.tasks.phones) }
    ensures step { Does board.new out.old out.new (slam_phones_to who board.old.state) }
    ensures room { UsesRoom board.old board.new out.old out.new 0 0
        (leading who board.old.state.tasks.phones) }
{
    for i in 0..board.tasks() {
        slam_other(board, who, i, out);
    }
}

/// Slams the phones of the task numbered `i + 1` that lead to the task, unless it is itself
/// that task.
fn slam_other(board: &mut Switchboard, who: TaskNo, i: u64, out: &mut Trace)
    requires added { i < length board.old.state.tasks.alive }
    requires few { i + 1 < 2 ^ 64 }
    requires room { HasRoom board.old out.old 0 0
        (leading_at who board.old.state.tasks.phones i) }
    ensures step { Does board.new out.old out.new (slam_other who board.old.state i) }
    ensures room { UsesRoom board.old board.new out.old out.new 0 0
        (leading_at who board.old.state.tasks.phones i) }
{
    if i + 1 != who.0 {
        slam_phones_of(board, who, TaskNo(i + 1), out);
    }
}

/// Slams each phone of one task that leads to the task.
fn slam_phones_of(board: &mut Switchboard, who: TaskNo, other: TaskNo, out: &mut Trace)
    requires added { IsAdded board.old.state other }
    requires room { HasRoom board.old out.old 0 0
        (leading_of who board.old.state.tasks.phones other.0) }
    ensures step { Does board.new out.old out.new (slam_phones_of who other board.old.state) }
    ensures room { UsesRoom board.old board.new out.old out.new 0 0
        (leading_of who board.old.state.tasks.phones other.0) }
{
    for phone in 0..board.width(other) {
        board.slam(who, label(other, phone), out);
    }
}

/// Answers each call at this place with `EHANGUP` in the kernel's name; one whose caller has
/// ended vanishes.
fn settle_calls_at(board: &mut Switchboard, place: Place, out: &mut Trace)
    requires added { task_of place ≤ length board.old.state.tasks.alive }
    requires pending { IsPendingAt place }
    requires room { HasRoom board.old out.old 0 (moves_at board.old.state place)
        (entries_at board.old.state place) }
    ensures step { Does board.new out.old out.new (settle_calls_at place board.old.state) }
    ensures room { UsesRoom board.old board.new out.old out.new 0
        (moves_at board.old.state place) (entries_at board.old.state place) }
{
    for _ in 0..board.calls_at(place) {
        board.check_numbers();
        match board.front(place) {
            Some(found) => board.settle(found, &Reply::bare(Code::EHANGUP), None, out),
            None => return,
        }
    }
}

/// Drops each answer at the task.
fn drop_answers(board: &mut Switchboard, who: TaskNo, out: &mut Trace)
    requires added { IsAdded board.old.state who }
    requires room { HasRoom board.old out.old 0 0
        (2 * calls_at board.old.state.calls (Answers who)) }
    ensures step { Does board.new out.old out.new (drop_answers who board.old.state) }
    ensures room { UsesRoom board.old board.new out.old out.new 0 0
        (2 * calls_at board.old.state.calls (Answers who)) }
{
    for _ in 0..board.calls_at(Place::Answers(who)) {
        match board.front(Place::Answers(who)) {
            Some(found) => board.drop_answer(found, who, out),
            None => return,
        }
    }
}

/// Forgets the task as the caller of each of its calls that stands at another task.
fn forget_calls_elsewhere(board: &mut Switchboard, who: TaskNo, out: &mut Trace)
    requires added { IsAdded board.old.state who }
    requires room { HasRoom board.old out.old 0 0 (calls_by board.old.state.calls who) }
    ensures step { Does board.new out.old out.new (forget_calls_elsewhere who board.old.state) }
    ensures room { UsesRoom board.old board.new out.old out.new 0 0
        (calls_by board.old.state.calls who) }
{
    for _ in 0..board.calls_by(who) {
        match board.calls_of(who) {
            Some(found) => board.forget(found, out),
            None => return,
        }
    }
}

/// Drops each area of the task.
fn drop_areas(board: &mut Switchboard, who: TaskNo, out: &mut Trace)
    requires added { IsAdded board.old.state who }
    requires room { HasRoom board.old out.old 0 0 (count_areas board.old.state.memory who) }
    ensures step { Does board.new out.old out.new (drop_areas who board.old.state) }
    ensures room { UsesRoom board.old board.new out.old out.new 0 0
        (count_areas board.old.state.memory who) }
{
    for _ in 0..board.count_areas(who) {
        board.lose_first_area(who, out);
    }
}

/// How many calls the end of the task makes at most.
fn kill_calls(board: &Switchboard, who: TaskNo) -> usize
    requires added { IsAdded board.now.state who }
    ensures calls { result ≡ kill_calls board.now.state who }
    ensures few { result ≤ 64 }
{
    kill_room::kill_calls(who, board.phones())
}

/// How many entries the end of the task makes at most; `NoMemory` where no memory has room for so
/// many.
fn kill_entries(board: &Switchboard, who: TaskNo) -> Result<usize, NoMemory>
    requires added { IsAdded board.now.state who }
    requires few_calls { live_calls board.now.state < 2 ^ 61 }
    ensures { IfOk result (λ n. n ≡ kill_entries board.now.state who) }
{
    kill_room::kill_entries(who, board.phones(), board.boxes(), board.spaces())
}
