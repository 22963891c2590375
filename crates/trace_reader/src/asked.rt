//! What a line says that a task asks, is told or waits for.
ghost use Rattle.std.specs.Prelude.{◌≡◌};
ghost use Rattle.trace_reader.specs.Read.{answerer_in, change_in, exchange_mode_in, memory_request_in, mode_in, nth, outcome_in, request_in, slot_in, state_in, texts, way_in, why_in};

use crate::first_words::Words;
use crate::part::{
    bytes_of, code_of, is, label_of, msg_at, number_of, reply_at, small_of, task_of,
};
use ipc_ids::{CallNo, ExchangeMode, Mode, Msg, Outcome, PhoneState, Request, TaskNo, Why};

pub fn way_in(word: &[u8], task: &[u8]) -> Option<TaskNo>
    ensures { result ≡ way_in word.now task.now }
{
    if is(word, b"to") {
        Some(task_of(task))
    } else {
        None
    }
}

pub fn answerer_in(word: &[u8]) -> Option<TaskNo>
    ensures { result ≡ answerer_in word.now }
{
    if is(word, b"kernel") {
        None
    } else {
        Some(task_of(word))
    }
}

pub fn slot_in(word: &[u8], slot: &[u8]) -> Option<u32>
    ensures { result ≡ slot_in word.now slot.now }
{
    if is(word, b"slot") {
        Some(small_of(slot))
    } else {
        None
    }
}

fn mode_in(word: &[u8]) -> Mode
    ensures { result ≡ mode_in word.now }
{
    if is(word, b"route") {
        Mode::Route
    } else {
        Mode::Plain
    }
}

pub fn exchange_mode_in(word: &[u8]) -> ExchangeMode
    ensures { result ≡ exchange_mode_in word.now }
{
    if is(word, b"atomic") {
        return ExchangeMode::Atomic;
    }
    if is(word, b"serialize") {
        return ExchangeMode::Serialize;
    }
    ExchangeMode::Parallel
}

pub fn state_in(line: &Words) -> PhoneState
    ensures { result ≡ state_in (nth (texts line.now)) }
{
    let state = line.word(4);
    if is(state, b"free") {
        return PhoneState::Free;
    }
    if is(state, b"connecting") {
        return PhoneState::Connecting;
    }
    if is(state, b"hungup") {
        return PhoneState::HungUp;
    }
    if is(state, b"slammed") {
        return PhoneState::Slammed;
    }
    PhoneState::Connected(task_of(line.word(5)))
}

pub fn why_in(line: &Words) -> Why
    ensures { result ≡ why_in (nth (texts line.now)) }
{
    let why = line.word(4);
    if is(why, b"answer") {
        return Why::Answer(CallNo(number_of(line.word(5))));
    }
    if is(why, b"mutex") {
        return Why::Mutex(small_of(line.word(5)));
    }
    if is(why, b"phone") {
        return Why::Phone;
    }
    Why::Message
}

fn change_in(line: &Words) -> Option<Msg>
    ensures { result ≡ change_in (nth (texts line.now)) }
{
    if line.word(5).is_empty() {
        None
    } else {
        Some(msg_at(line, 5))
    }
}

fn memory_request_in(line: &Words) -> Request
    ensures { result ≡ memory_request_in (nth (texts line.now)) }
{
    let kind = line.word(1);
    if is(kind, b"area") {
        return Request::AreaMake {
            base: number_of(line.word(2)),
            pages: number_of(line.word(3)),
            rights: number_of(line.word(4)),
        };
    }
    if is(kind, b"unarea") {
        return Request::AreaDrop {
            base: number_of(line.word(2)),
        };
    }
    if is(kind, b"poke") {
        return Request::Poke {
            at: number_of(line.word(2)),
            bytes: bytes_of(line.word(3)),
        };
    }
    if is(kind, b"peek") {
        return Request::Peek {
            at: number_of(line.word(2)),
            count: number_of(line.word(3)),
        };
    }
    Request::Nothing
}

pub fn request_in(line: &Words) -> Request
    ensures { result ≡ request_in (nth (texts line.now)) }
{
    let kind = line.word(1);
    if is(kind, b"call") {
        return Request::Call {
            phone: number_of(line.word(2)),
            msg: msg_at(line, 3),
        };
    }
    if is(kind, b"receive") {
        return Request::Receive;
    }
    if is(kind, b"answer") {
        return Request::Answer {
            call: number_of(line.word(2)),
            reply: reply_at(line, 3),
        };
    }
    if is(kind, b"forward") {
        return Request::Forward {
            call: number_of(line.word(2)),
            phone: number_of(line.word(3)),
            mode: mode_in(line.word(4)),
            change: change_in(line),
        };
    }
    if is(kind, b"hangup") {
        return Request::Hangup {
            phone: number_of(line.word(2)),
        };
    }
    memory_request_in(line)
}

pub fn outcome_in(line: &Words) -> Outcome
    ensures { result ≡ outcome_in (nth (texts line.now)) }
{
    let kind = line.word(3);
    if is(kind, b"EOK") {
        return Outcome::Done;
    }
    if is(kind, b"EMPTY") {
        return Outcome::Empty;
    }
    if is(kind, b"call") {
        return Outcome::Accepted(CallNo(number_of(line.word(4))));
    }
    if is(kind, b"received") {
        return Outcome::Received {
            call: CallNo(number_of(line.word(4))),
            msg: msg_at(line, 5),
            label: label_of(line.word(12)),
        };
    }
    if is(kind, b"answer") {
        return Outcome::Answered {
            call: CallNo(number_of(line.word(4))),
            reply: reply_at(line, 5),
        };
    }
    if is(kind, b"bytes") {
        return Outcome::Bytes(bytes_of(line.word(4)));
    }
    Outcome::Refused(code_of(kind))
}
