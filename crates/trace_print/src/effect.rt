//! What happened to a call, to a phone, or to the memory of a task.
ghost use Rattle.std.specs.Prelude.{◌≡◌, ◌+◌, ◌≤◌, ◌++◌, codes, length, map};
ghost use Rattle.ipc_ids.specs.declared.entry.Entry.TheVariants as entry;
ghost use Rattle.trace_print.specs.Text.{call_text, way_text, answerer_text, phone_state_text, store_text};
ghost use Rattle.trace_print.specs.Text.{task_effect_text, effect_text};

use crate::fibril::push_fibril_effect;
use crate::part::{push_label, push_numbered, push_reply, push_spaced, push_task};
use crate::pen::Pen;
use ipc_ids::{CallNo, Entry, Label, PhoneState, StoreNo, TaskNo};

/// Two spaces, a call and what happened to it.
#[tactic(auto, using(crate::proofs::Marks::map_append), unfolding(crate::specs::Text::call_text))]
#[inline(always)]
fn push_call<P: Pen>(pen: &mut P, call: CallNo, what: &[u8])
    requires room { 27 + length what.now ≤ P.left pen.old }
    ensures text { P.seen pen.new ≡ P.seen pen.old
        ++ map P.mark (codes "  " ++ call_text call ++ what.now) }
    ensures left { P.left pen.old ≤ P.left pen.new + (27 + length what.now) }
{
    pen.word(b"  call ");
    pen.number(call.0);
    pen.word(what);
}

#[tactic(auto, using(crate::proofs::Marks::map_append), unfolding(crate::specs::Text::way_text))]
#[inline(always)]
fn push_way<P: Pen>(pen: &mut P, way: Option<TaskNo>)
    requires room { 25 ≤ P.left pen.old }
    ensures text { P.seen pen.new ≡ P.seen pen.old ++ map P.mark (way_text way) }
    ensures left { P.left pen.old ≤ P.left pen.new + 25 }
{
    match way {
        None => pen.word(b" back"),
        Some(task) => {
            pen.word(b" to ");
            push_task(pen, task);
        }
    }
}

#[tactic(auto, using(crate::proofs::Marks::map_append), unfolding(crate::specs::Text::answerer_text))]
fn push_answerer<P: Pen>(pen: &mut P, by: Option<TaskNo>)
    requires room { 25 ≤ P.left pen.old }
    ensures text { P.seen pen.new ≡ P.seen pen.old ++ map P.mark (answerer_text by) }
    ensures left { P.left pen.old ≤ P.left pen.new + 25 }
{
    match by {
        None => pen.word(b" by kernel"),
        Some(task) => {
            pen.word(b" by ");
            push_task(pen, task);
        }
    }
}

#[tactic(auto, using(crate::proofs::Marks::map_append))]
fn push_state<P: Pen>(pen: &mut P, state: PhoneState)
    requires room { 31 ≤ P.left pen.old }
    ensures text { P.seen pen.new ≡ P.seen pen.old ++ map P.mark (phone_state_text state) }
    ensures left { P.left pen.old ≤ P.left pen.new + 31 }
{
    match state {
        PhoneState::Free => pen.word(b"free"),
        PhoneState::Connecting => pen.word(b"connecting"),
        PhoneState::Connected(task) => {
            pen.word(b"connected ");
            push_task(pen, task);
        }
        PhoneState::HungUp => pen.word(b"hungup"),
        PhoneState::Slammed => pen.word(b"slammed"),
    }
}

#[tactic(auto, using(crate::proofs::Marks::map_append), unfolding(crate::specs::Text::store_text))]
fn push_store<P: Pen>(pen: &mut P, store: StoreNo)
    requires room { 27 ≤ P.left pen.old }
    ensures text { P.seen pen.new ≡ P.seen pen.old ++ map P.mark (store_text store) }
    ensures left { P.left pen.old ≤ P.left pen.new + 27 }
{
    push_numbered(pen, b" store ", store.0);
}

#[tactic(auto, using(crate::proofs::Marks::map_append))]
#[inline(never)]
fn push_task_effect<P: Pen>(pen: &mut P, effect: &Entry)
    requires room { 220 ≤ P.left pen.old }
    ensures text { P.seen pen.new ≡ P.seen pen.old ++ map P.mark (task_effect_text effect.now) }
    ensures left { P.left pen.old ≤ P.left pen.new + 220 }
{
    match effect {
        Entry::PhoneIs { phone, state } => {
            pen.word(b"phone ");
            push_label(pen, *phone);
            pen.byte(b' ');
            push_state(pen, *state);
        }
        Entry::AreaMade {
            task,
            base,
            pages,
            rights,
            store,
        } => {
            pen.word(b"area ");
            push_task(pen, *task);
            push_spaced(pen, *base);
            push_spaced(pen, *pages);
            push_spaced(pen, *rights);
            push_store(pen, *store);
        }
        Entry::AreaGone { task, base } => {
            pen.word(b"unarea ");
            push_task(pen, *task);
            push_spaced(pen, *base);
        }
        Entry::Wrote {
            task,
            at,
            count,
            store,
        } => {
            pen.word(b"write ");
            push_task(pen, *task);
            push_spaced(pen, *at);
            push_spaced(pen, *count);
            push_store(pen, *store);
        }
        of_fibril => push_fibril_effect(pen, of_fibril),
    }
}

#[tactic(auto, using(crate::proofs::Marks::map_append))]
fn push_accepted<P: Pen>(pen: &mut P, call: CallNo, from: Label, method: u64, to: Option<TaskNo>)
    requires room { 132 ≤ P.left pen.old }
    ensures text { P.seen pen.new ≡ P.seen pen.old
        ++ map P.mark (codes "  " ++ effect_text (entry.Accepted call from method to)) }
    ensures left { P.left pen.old ≤ P.left pen.new + 132 }
{
    push_call(pen, call, b" accepted ");
    push_label(pen, from);
    push_numbered(pen, b" method ", method);
    push_way(pen, to);
}

/// Two spaces and an effect.
#[tactic(auto, using(crate::proofs::Marks::map_append))]
pub fn push_effect<P: Pen>(pen: &mut P, effect: &Entry)
    requires room { 222 ≤ P.left pen.old }
    ensures text { P.seen pen.new ≡ P.seen pen.old
        ++ map P.mark (codes "  " ++ effect_text effect.now) }
    ensures left { P.left pen.old ≤ P.left pen.new + 222 }
{
    match effect {
        Entry::Accepted {
            call,
            from,
            method,
            to,
        } => push_accepted(pen, *call, *from, *method, *to),
        Entry::Received { call, by } => {
            push_call(pen, *call, b" received ");
            push_task(pen, *by);
        }
        Entry::Forwarded {
            call,
            by,
            to,
            label,
        } => {
            push_call(pen, *call, b" forwarded ");
            push_task(pen, *by);
            push_way(pen, Some(*to));
            pen.word(b" label ");
            push_label(pen, *label);
        }
        Entry::Answered { call, reply, by } => {
            push_call(pen, *call, b" answered ");
            push_reply(pen, reply);
            push_answerer(pen, *by);
        }
        Entry::Vanished(call) => push_call(pen, *call, b" vanished"),
        Entry::Delivered { call, to } => {
            push_call(pen, *call, b" delivered ");
            push_task(pen, *to);
        }
        Entry::Dropped { call, at } => {
            push_call(pen, *call, b" dropped ");
            push_task(pen, *at);
        }
        Entry::Forgotten(call) => push_call(pen, *call, b" forgotten"),
        of_task => {
            pen.word(b"  ");
            push_task_effect(pen, of_task);
        }
    }
}
