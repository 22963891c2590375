//! What a task asks and what it is told.
ghost use Rattle.std.specs.Prelude.{◌≡◌, ◌+◌, ◌≤◌, ◌++◌, map};
ghost use Rattle.ipc_ids.specs.declared.message.Request.TheVariants as ask;
ghost use Rattle.trace_print.specs.Text.{mode_text, change_text, request_text, outcome_text};

use crate::part::{push_code, push_label, push_msg, push_numbered, push_reply, push_spaced};
use crate::pen::Pen;
use ipc_ids::{Mode, Msg, Outcome, Request};

#[tactic(auto, using(crate::proofs::Marks::map_append))]
fn push_mode<P: Pen>(pen: &mut P, mode: Mode)
    requires room { 5 ≤ P.left pen.old }
    ensures text { P.seen pen.new ≡ P.seen pen.old ++ map P.mark (mode_text mode) }
    ensures left { P.left pen.old ≤ P.left pen.new + 5 }
{
    match mode {
        Mode::Plain => pen.word(b"plain"),
        Mode::Route => pen.word(b"route"),
    }
}

#[tactic(auto, using(crate::proofs::Marks::map_append))]
fn push_change<P: Pen>(pen: &mut P, change: &Option<Msg>)
    requires room { 126 ≤ P.left pen.old }
    ensures text { P.seen pen.new ≡ P.seen pen.old ++ map P.mark (change_text change.now) }
    ensures left { P.left pen.old ≤ P.left pen.new + 126 }
{
    match change {
        None => {}
        Some(msg) => {
            pen.byte(b' ');
            push_msg(pen, msg);
        }
    }
}

#[tactic(auto, using(crate::proofs::Marks::map_append))]
fn push_forward<P: Pen>(pen: &mut P, call: u64, phone: u64, mode: Mode, change: &Option<Msg>)
    requires room { 181 ≤ P.left pen.old }
    ensures text { P.seen pen.new ≡ P.seen pen.old
        ++ map P.mark (request_text (ask.Forward call phone mode change.now)) }
    ensures left { P.left pen.old ≤ P.left pen.new + 181 }
{
    push_numbered(pen, b"forward ", call);
    push_spaced(pen, phone);
    pen.byte(b' ');
    push_mode(pen, mode);
    push_change(pen, change);
}

#[tactic(auto, using(crate::proofs::Marks::map_append))]
fn push_area<P: Pen>(pen: &mut P, base: u64, pages: u64, rights: u64)
    requires room { 67 ≤ P.left pen.old }
    ensures text { P.seen pen.new ≡ P.seen pen.old
        ++ map P.mark (request_text (ask.AreaMake base pages rights)) }
    ensures left { P.left pen.old ≤ P.left pen.new + 67 }
{
    push_numbered(pen, b"area ", base);
    push_spaced(pen, pages);
    push_spaced(pen, rights);
}

#[tactic(auto, using(crate::proofs::Marks::map_append))]
pub fn push_request<P: Pen>(pen: &mut P, request: &Request)
    requires room { 181 ≤ P.left pen.old }
    ensures text { P.seen pen.new ≡ P.seen pen.old ++ map P.mark (request_text request.now) }
    ensures left { P.left pen.old ≤ P.left pen.new + 181 }
{
    match request {
        Request::Call { phone, msg } => {
            push_numbered(pen, b"call ", *phone);
            pen.byte(b' ');
            push_msg(pen, msg);
        }
        Request::Receive => pen.word(b"receive"),
        Request::Answer { call, reply } => {
            push_numbered(pen, b"answer ", *call);
            pen.byte(b' ');
            push_reply(pen, reply);
        }
        Request::Forward {
            call,
            phone,
            mode,
            change,
        } => push_forward(pen, *call, *phone, *mode, change),
        Request::Hangup { phone } => push_numbered(pen, b"hangup ", *phone),
        Request::AreaMake {
            base,
            pages,
            rights,
        } => push_area(pen, *base, *pages, *rights),
        Request::AreaDrop { base } => push_numbered(pen, b"unarea ", *base),
        Request::Poke { at, bytes } => {
            push_numbered(pen, b"poke ", *at);
            pen.byte(b' ');
            pen.bytes(bytes.as_slice());
        }
        Request::Peek { at, count } => {
            push_numbered(pen, b"peek ", *at);
            push_spaced(pen, *count);
        }
        Request::Nothing => pen.word(b"nothing"),
    }
}

#[tactic(auto, using(crate::proofs::Marks::map_append))]
pub fn push_outcome<P: Pen>(pen: &mut P, outcome: &Outcome)
    requires room { 203 ≤ P.left pen.old }
    ensures text { P.seen pen.new ≡ P.seen pen.old ++ map P.mark (outcome_text outcome.now) }
    ensures left { P.left pen.old ≤ P.left pen.new + 203 }
{
    match outcome {
        Outcome::Done => pen.word(b"EOK"),
        Outcome::Refused(code) => push_code(pen, *code),
        Outcome::Accepted(call) => push_numbered(pen, b"call ", call.0),
        Outcome::Received { call, msg, label } => {
            push_numbered(pen, b"received ", call.0);
            pen.byte(b' ');
            push_msg(pen, msg);
            pen.word(b" from ");
            push_label(pen, *label);
        }
        Outcome::Answered { call, reply } => {
            push_numbered(pen, b"answer ", call.0);
            pen.byte(b' ');
            push_reply(pen, reply);
        }
        Outcome::Empty => pen.word(b"EMPTY"),
        Outcome::Bytes(bytes) => {
            pen.word(b"bytes ");
            pen.bytes(bytes.as_slice());
        }
    }
}
