//! What a program tells of its fibrils and of its exchanges.
ghost use Rattle.std.specs.Prelude.{◌≡◌, ◌+◌, ◌≤◌, ◌++◌, length, map};
ghost use Rattle.ipc_ids.specs.declared.entry.Entry.TheVariants as entry;
ghost use Rattle.trace_print.specs.Text.{fibril_text, slot_text, why_text, exchange_text, exchange_mode_text, terms_text};
ghost use Rattle.trace_print.specs.Text.{exchange_effect_text, fibril_effect_text};

use crate::part::{push_code, push_label, push_numbered, push_reply, push_task};
use crate::pen::Pen;
use ipc_ids::{CallNo, Entry, ExchangeMode, ExchangeNo, FibrilNo, Reply, TaskNo, Why};

#[tactic(auto, using(crate::proofs::Marks::map_append), unfolding(crate::specs::Text::fibril_text))]
#[inline(always)]
fn push_fibril<P: Pen>(pen: &mut P, task: TaskNo, fibril: FibrilNo, what: &[u8])
    requires room { 42 + length what.now ≤ P.left pen.old }
    ensures text { P.seen pen.new ≡ P.seen pen.old
        ++ map P.mark (fibril_text task fibril ++ what.now) }
    ensures left { P.left pen.old ≤ P.left pen.new + (42 + length what.now) }
{
    push_task(pen, task);
    pen.byte(b'/');
    pen.number(fibril.0);
    pen.word(what);
}

#[tactic(auto, using(crate::proofs::Marks::map_append), unfolding(crate::specs::Text::slot_text))]
fn push_slot<P: Pen>(pen: &mut P, slot: Option<u32>)
    requires room { 26 ≤ P.left pen.old }
    ensures text { P.seen pen.new ≡ P.seen pen.old ++ map P.mark (slot_text slot) }
    ensures left { P.left pen.old ≤ P.left pen.new + 26 }
{
    match slot {
        None => pen.word(b" begin"),
        Some(slot) => push_numbered(pen, b" slot ", slot as u64),
    }
}

#[tactic(auto, using(crate::proofs::Marks::map_append))]
fn push_why<P: Pen>(pen: &mut P, why: Why)
    requires room { 27 ≤ P.left pen.old }
    ensures text { P.seen pen.new ≡ P.seen pen.old ++ map P.mark (why_text why) }
    ensures left { P.left pen.old ≤ P.left pen.new + 27 }
{
    match why {
        Why::Answer(CallNo(call)) => push_numbered(pen, b"answer ", call),
        Why::Mutex(session) => push_numbered(pen, b"mutex ", session as u64),
        Why::Phone => pen.word(b"phone"),
        Why::Message => pen.word(b"message"),
    }
}

#[tactic(auto, using(crate::proofs::Marks::map_append), unfolding(crate::specs::Text::exchange_text))]
fn push_exchange<P: Pen>(pen: &mut P, exchange: ExchangeNo)
    requires room { 30 ≤ P.left pen.old }
    ensures text { P.seen pen.new ≡ P.seen pen.old ++ map P.mark (exchange_text exchange) }
    ensures left { P.left pen.old ≤ P.left pen.new + 30 }
{
    push_numbered(pen, b" exchange ", exchange.0);
}

#[tactic(auto, using(crate::proofs::Marks::map_append))]
fn push_exchange_mode<P: Pen>(pen: &mut P, mode: ExchangeMode)
    requires room { 9 ≤ P.left pen.old }
    ensures text { P.seen pen.new ≡ P.seen pen.old ++ map P.mark (exchange_mode_text mode) }
    ensures left { P.left pen.old ≤ P.left pen.new + 9 }
{
    match mode {
        ExchangeMode::Atomic => pen.word(b"atomic"),
        ExchangeMode::Serialize => pen.word(b"serialize"),
        ExchangeMode::Parallel => pen.word(b"parallel"),
    }
}

#[tactic(auto, using(crate::proofs::Marks::map_append), unfolding(crate::specs::Text::terms_text))]
fn push_terms<P: Pen>(pen: &mut P, mode: ExchangeMode, session: u32, phone: u64)
    requires room { 66 ≤ P.left pen.old }
    ensures text { P.seen pen.new ≡ P.seen pen.old ++ map P.mark (terms_text mode session phone) }
    ensures left { P.left pen.old ≤ P.left pen.new + 66 }
{
    pen.byte(b' ');
    push_exchange_mode(pen, mode);
    push_numbered(pen, b" session ", session as u64);
    push_numbered(pen, b" phone ", phone);
}

#[tactic(auto, using(crate::proofs::Marks::map_append))]
fn push_exchange_effect<P: Pen>(pen: &mut P, effect: &Entry)
    requires room { 145 ≤ P.left pen.old }
    ensures text { P.seen pen.new ≡ P.seen pen.old ++ map P.mark (exchange_effect_text effect.now) }
    ensures left { P.left pen.old ≤ P.left pen.new + 145 }
{
    match effect {
        Entry::Begins {
            task,
            fibril,
            exchange,
            mode,
            session,
            phone,
        } => {
            push_fibril(pen, *task, *fibril, b" begins");
            push_exchange(pen, *exchange);
            push_terms(pen, *mode, *session, *phone);
        }
        Entry::ExchangeEnds {
            task,
            fibril,
            exchange,
        } => {
            push_fibril(pen, *task, *fibril, b" ends");
            push_exchange(pen, *exchange);
        }
        Entry::Drops {
            task,
            fibril,
            exchange,
        } => {
            push_fibril(pen, *task, *fibril, b" drops");
            push_exchange(pen, *exchange);
        }
        _ => {}
    }
}

#[tactic(auto, using(crate::proofs::Marks::map_append))]
fn push_gets<P: Pen>(
    pen: &mut P,
    task: TaskNo,
    fibril: FibrilNo,
    call: CallNo,
    slot: Option<u32>,
    reply: &Reply,
)
    requires room { 220 ≤ P.left pen.old }
    ensures text { P.seen pen.new ≡ P.seen pen.old
        ++ map P.mark (fibril_effect_text (entry.Gets task fibril call slot reply.now)) }
    ensures left { P.left pen.old ≤ P.left pen.new + 220 }
{
    push_fibril(pen, task, fibril, b" gets ");
    pen.number(call.0);
    push_slot(pen, slot);
    pen.byte(b' ');
    push_reply(pen, reply);
}

#[tactic(auto, using(crate::proofs::Marks::map_append))]
pub fn push_fibril_effect<P: Pen>(pen: &mut P, effect: &Entry)
    requires room { 220 ≤ P.left pen.old }
    ensures text { P.seen pen.new ≡ P.seen pen.old ++ map P.mark (fibril_effect_text effect.now) }
    ensures left { P.left pen.old ≤ P.left pen.new + 220 }
{
    match effect {
        Entry::Sent {
            task,
            fibril,
            call,
            slot,
        } => {
            push_fibril(pen, *task, *fibril, b" sent ");
            pen.number(call.0);
            push_slot(pen, *slot);
        }
        Entry::Gets {
            task,
            fibril,
            call,
            slot,
            reply,
        } => push_gets(pen, *task, *fibril, *call, *slot, reply),
        Entry::Blocks { task, fibril, why } => {
            push_fibril(pen, *task, *fibril, b" blocks ");
            push_why(pen, *why);
        }
        Entry::Starts {
            task,
            fibril,
            label,
        } => {
            push_fibril(pen, *task, *fibril, b" starts ");
            push_label(pen, *label);
        }
        Entry::Ends { task, fibril } => push_fibril(pen, *task, *fibril, b" ends"),
        Entry::RefusedOp { task, fibril, code } => {
            push_fibril(pen, *task, *fibril, b" refused ");
            push_code(pen, *code);
        }
        on_exchange => push_exchange_effect(pen, on_exchange),
    }
}
