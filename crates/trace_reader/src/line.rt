//! What a line is read as.
ghost use Rattle.std.specs.Prelude.{◌≡◌};
ghost use Rattle.trace_reader.specs.Read.{entry_in, effect_in, fibril_effect_in, exchange_effect_in, gets_in, ends_in, call_effect_in, call_end_in, head_in, nth, texts};

use crate::asked::{
    answerer_in, exchange_mode_in, outcome_in, request_in, slot_in, state_in, way_in, why_in,
};
use crate::first_words::Words;
use crate::part::{
    code_of, fibril_of, is, label_of, number_of, owner_of, reply_at, small_of, task_of,
};
use ipc_ids::{CallNo, Entry, ExchangeNo, Reply, StoreNo};

fn call_end_in(line: &Words) -> Entry
    ensures { result ≡ call_end_in (nth (texts line.now)) }
{
    let call = CallNo(number_of(line.word(3)));
    let kind = line.word(4);
    if is(kind, b"vanished") {
        return Entry::Vanished(call);
    }
    if is(kind, b"delivered") {
        return Entry::Delivered {
            call,
            to: task_of(line.word(5)),
        };
    }
    if is(kind, b"dropped") {
        return Entry::Dropped {
            call,
            at: task_of(line.word(5)),
        };
    }
    Entry::Forgotten(call)
}

fn call_effect_in(line: &Words) -> Entry
    ensures { result ≡ call_effect_in (nth (texts line.now)) }
{
    let call = CallNo(number_of(line.word(3)));
    let kind = line.word(4);
    if is(kind, b"accepted") {
        return Entry::Accepted {
            call,
            from: label_of(line.word(5)),
            method: number_of(line.word(7)),
            to: way_in(line.word(8), line.word(9)),
        };
    }
    if is(kind, b"received") {
        return Entry::Received {
            call,
            by: task_of(line.word(5)),
        };
    }
    if is(kind, b"forwarded") {
        return Entry::Forwarded {
            call,
            by: task_of(line.word(5)),
            to: task_of(line.word(7)),
            label: label_of(line.word(9)),
        };
    }
    if is(kind, b"answered") {
        return Entry::Answered {
            call,
            reply: reply_at(line, 5),
            by: answerer_in(line.word(12)),
        };
    }
    call_end_in(line)
}

fn gets_in(line: &Words) -> Reply
    ensures { result ≡ gets_in (nth (texts line.now)) }
{
    if is(line.word(5), b"slot") {
        reply_at(line, 7)
    } else {
        reply_at(line, 6)
    }
}

fn ends_in(line: &Words) -> Entry
    ensures { result ≡ ends_in (nth (texts line.now)) }
{
    let task = owner_of(line.word(2));
    let fibril = fibril_of(line.word(2));
    if line.word(4).is_empty() {
        return Entry::Ends { task, fibril };
    }
    Entry::ExchangeEnds {
        task,
        fibril,
        exchange: ExchangeNo(number_of(line.word(5))),
    }
}

fn exchange_effect_in(line: &Words) -> Entry
    ensures { result ≡ exchange_effect_in (nth (texts line.now)) }
{
    let task = owner_of(line.word(2));
    let fibril = fibril_of(line.word(2));
    let kind = line.word(3);
    if is(kind, b"ends") {
        return ends_in(line);
    }
    if is(kind, b"begins") {
        return Entry::Begins {
            task,
            fibril,
            exchange: ExchangeNo(number_of(line.word(5))),
            mode: exchange_mode_in(line.word(6)),
            session: small_of(line.word(8)),
            phone: number_of(line.word(10)),
        };
    }
    if is(kind, b"drops") {
        return Entry::Drops {
            task,
            fibril,
            exchange: ExchangeNo(number_of(line.word(5))),
        };
    }
    Entry::RefusedOp {
        task,
        fibril,
        code: code_of(line.word(4)),
    }
}

fn fibril_effect_in(line: &Words) -> Entry
    ensures { result ≡ fibril_effect_in (nth (texts line.now)) }
{
    let task = owner_of(line.word(2));
    let fibril = fibril_of(line.word(2));
    let kind = line.word(3);
    if is(kind, b"sent") {
        return Entry::Sent {
            task,
            fibril,
            call: CallNo(number_of(line.word(4))),
            slot: slot_in(line.word(5), line.word(6)),
        };
    }
    if is(kind, b"gets") {
        return Entry::Gets {
            task,
            fibril,
            call: CallNo(number_of(line.word(4))),
            slot: slot_in(line.word(5), line.word(6)),
            reply: gets_in(line),
        };
    }
    if is(kind, b"blocks") {
        return Entry::Blocks {
            task,
            fibril,
            why: why_in(line),
        };
    }
    if is(kind, b"starts") {
        return Entry::Starts {
            task,
            fibril,
            label: label_of(line.word(4)),
        };
    }
    exchange_effect_in(line)
}

fn effect_in(line: &Words) -> Entry
    ensures { result ≡ effect_in (nth (texts line.now)) }
{
    let kind = line.word(2);
    if is(kind, b"=") {
        return Entry::Outcome(outcome_in(line));
    }
    if is(kind, b"call") {
        return call_effect_in(line);
    }
    if is(kind, b"phone") {
        return Entry::PhoneIs {
            phone: label_of(line.word(3)),
            state: state_in(line),
        };
    }
    if is(kind, b"area") {
        return Entry::AreaMade {
            task: task_of(line.word(3)),
            base: number_of(line.word(4)),
            pages: number_of(line.word(5)),
            rights: number_of(line.word(6)),
            store: StoreNo(number_of(line.word(8))),
        };
    }
    if is(kind, b"unarea") {
        return Entry::AreaGone {
            task: task_of(line.word(3)),
            base: number_of(line.word(4)),
        };
    }
    if is(kind, b"write") {
        return Entry::Wrote {
            task: task_of(line.word(3)),
            at: number_of(line.word(4)),
            count: number_of(line.word(5)),
            store: StoreNo(number_of(line.word(7))),
        };
    }
    fibril_effect_in(line)
}

fn head_in(line: &Words) -> Entry
    ensures { result ≡ head_in (nth (texts line.now)) }
{
    if is(line.word(0), b"kill") {
        return Entry::Kill(task_of(line.word(1)));
    }
    if is(line.word(0), b"spawn") {
        return Entry::Spawn(task_of(line.word(1)));
    }
    if is(line.word(1), b"ended") {
        return Entry::Gone(task_of(line.word(0)));
    }
    Entry::Head(task_of(line.word(0)), request_in(line))
}

pub fn entry_in(line: &Words) -> Entry
    ensures { result ≡ entry_in (nth (texts line.now)) }
{
    if line.word(0).is_empty() {
        effect_in(line)
    } else {
        head_in(line)
    }
}
