//! What one word can be.
ghost use Rattle.std.specs.Prelude.{◌≡◌, ◌≤◌, ◌<◌, IfSome};
ghost use Rattle.script_lines.specs.Ranges.{IsInRange};
ghost use Rattle.script_lines.specs.Word.{number, verb_of, named, register, register_number, value, mode_of, exchange_mode_of, number_below, hex_digit, hex_byte, bytes_of};

use arrayvec::ArrayVec;
use ipc_ids::{ExchangeMode, Mode, Short, Value, code_named, in_base, look_up, method_named};

/// An operation's first word.
#[derive(Clone, Copy)]
pub enum OpVerb {
    Call,
    Receive,
    Answer,
    Forward,
    Hangup,
    Area,
    Unarea,
    Poke,
    Peek,
    Set,
    Jump,
    JumpEqual,
    JumpDiffer,
    Wait,
    Next,
    Yield,
    Send,
    Open,
    Begin,
    End,
    Close,
}

/// The first word of a line.
#[derive(Clone, Copy)]
pub enum Verb {
    Ns,
    Task,
    Template,
    Fibril,
    Connection,
    Wire,
    Op(OpVerb),
}

const VERBS: [(&[u8], Verb); 27] = [
    (b"ns", Verb::Ns),
    (b"task", Verb::Task),
    (b"template", Verb::Template),
    (b"fibril", Verb::Fibril),
    (b"connection", Verb::Connection),
    (b"wire", Verb::Wire),
    (b"call", Verb::Op(OpVerb::Call)),
    (b"receive", Verb::Op(OpVerb::Receive)),
    (b"answer", Verb::Op(OpVerb::Answer)),
    (b"forward", Verb::Op(OpVerb::Forward)),
    (b"hangup", Verb::Op(OpVerb::Hangup)),
    (b"area", Verb::Op(OpVerb::Area)),
    (b"unarea", Verb::Op(OpVerb::Unarea)),
    (b"poke", Verb::Op(OpVerb::Poke)),
    (b"peek", Verb::Op(OpVerb::Peek)),
    (b"set", Verb::Op(OpVerb::Set)),
    (b"jump", Verb::Op(OpVerb::Jump)),
    (b"jumpeq", Verb::Op(OpVerb::JumpEqual)),
    (b"jumpne", Verb::Op(OpVerb::JumpDiffer)),
    (b"wait", Verb::Op(OpVerb::Wait)),
    (b"next", Verb::Op(OpVerb::Next)),
    (b"yield", Verb::Op(OpVerb::Yield)),
    (b"send", Verb::Op(OpVerb::Send)),
    (b"open", Verb::Op(OpVerb::Open)),
    (b"begin", Verb::Op(OpVerb::Begin)),
    (b"end", Verb::Op(OpVerb::End)),
    (b"close", Verb::Op(OpVerb::Close)),
];

/// The other words that stand for numbers: rights, and that a data call asks to be cut down.
const RIGHTS_AND_FLAGS: [(&[u8], u64); 4] = [(b"R", 1), (b"W", 2), (b"RW", 3), (b"RESTRICT", 1)];

const MODES: [(&[u8], Mode); 2] = [(b"plain", Mode::Plain), (b"route", Mode::Route)];

const EXCHANGE_MODES: [(&[u8], ExchangeMode); 3] = [
    (b"atomic", ExchangeMode::Atomic),
    (b"serialize", ExchangeMode::Serialize),
    (b"parallel", ExchangeMode::Parallel),
];

fn verb_in_table(word: &[u8]) -> Option<Verb>
    ensures { result ≡ verb_of word.now }
{
    look_up(&VERBS, word)
}

/// The verb of a word. The commonest, `call`, is tried before the table.
#[tactic(auto, using(crate::proofs::Verbs::call_verb))]
pub fn verb_of(word: &[u8]) -> Option<Verb>
    ensures { result ≡ verb_of word.now }
{
    if word == b"call".as_slice() {
        Some(Verb::Op(OpVerb::Call))
    } else {
        verb_in_table(word)
    }
}

/// The number that a word stands for: that of a method, of a code, or of a right or flag.
fn named(word: &[u8]) -> Option<u64>
    ensures { result ≡ named word.now }
{
    if let Some(method) = method_named(word) {
        return Some(method);
    }
    if let Some(code) = code_named(word) {
        return Some(code);
    }
    look_up(&RIGHTS_AND_FLAGS, word)
}

pub fn mode_of(word: &[u8]) -> Option<Mode>
    ensures { result ≡ mode_of word.now }
{
    look_up(&MODES, word)
}

pub fn exchange_mode_of(word: &[u8]) -> Option<ExchangeMode>
    ensures { result ≡ exchange_mode_of word.now }
{
    look_up(&EXCHANGE_MODES, word)
}

/// The number that a word spells, with 1 to 20 decimal digits or with 1 to 16 hexadecimal ones
/// behind `0x`; `None` where it spells none below 2^64.
#[tactic(auto, unfolding(crate::specs::Word::number))]
pub fn number(word: &[u8]) -> Option<u64>
    ensures { result ≡ number word.now }
{
    match word {
        [b'0', b'x', digits @ ..] => in_base(digits, 16, 16),
        _ => in_base(word, 10, 20),
    }
}

/// A number below a limit.
#[tactic(auto, unfolding(crate::specs::Word::number_below))]
pub fn number_below(limit: u32, word: &[u8]) -> Option<u32>
    ensures value { result ≡ number_below limit word.now }
    ensures small { IfSome result (λ n. n < limit) }
{
    let number = number(word)?;
    if number < u64::from(limit) {
        Some(number as u32)
    } else {
        None
    }
}

/// The number of a register, without leading zeros.
#[tactic(auto, unfolding(crate::specs::Word::register_number))]
fn register_number(digits: &[u8]) -> Option<u32>
    ensures value { result ≡ register_number digits.now }
    ensures small { IfSome result (λ register. register < 32) }
{
    let number = in_base(digits, 10, 2)?;
    if number < 32 && (digits.len() == 1 || 10 <= number) {
        Some(number as u32)
    } else {
        None
    }
}

/// The register that a word names.
#[tactic(auto, unfolding(crate::specs::Word::register))]
pub fn register(word: &[u8]) -> Option<u32>
    ensures value { result ≡ register word.now }
    ensures small { IfSome result (λ register. register < 32) }
{
    match word {
        [b'r', digits @ ..] => register_number(digits),
        _ => None,
    }
}

/// A number, a register, or a word that stands for a number.
#[tactic(auto, unfolding(crate::specs::Word::value))]
pub fn value(word: &[u8]) -> Option<Value>
    ensures value { result ≡ value word.now }
    ensures ranges { IfSome result IsInRange }
{
    if let Some(number) = number(word) {
        return Some(Value::Number(number));
    }
    if let Some(register) = register(word) {
        return Some(Value::Register(register));
    }
    match named(word) {
        Some(number) => Some(Value::Number(number)),
        None => None,
    }
}

/// The value of a hexadecimal digit.
#[tactic(auto, unfolding(crate::specs::Word::hex_digit))]
fn hex_digit(byte: u8) -> Option<u8>
    ensures value { result ≡ hex_digit byte }
    ensures small { IfSome result (λ digit. digit < 16) }
{
    let digit = char::from(byte).to_digit(16)?;
    Some(digit as u8)
}

/// The byte of two hexadecimal digits.
#[tactic(auto, unfolding(crate::specs::Word::hex_digit))]
fn hex_byte(high: u8, low: u8) -> Option<u8>
    ensures { result ≡ hex_byte high low }
{
    let high = hex_digit(high)?;
    let low = hex_digit(low)?;
    Some(high * 16 + low)
}

/// Up to 64 bytes, two hexadecimal digits for each.
#[tactic(auto, unfolding(crate::specs::Word::bytes_of))]
pub fn bytes_of(word: &[u8]) -> Option<Short>
    ensures { result ≡ bytes_of word.now }
{
    if word.len() < 2 || word.len() > 128 {
        return None;
    }
    let mut bytes = ArrayVec::<u8, 64>::new();
    let mut rest = word;
    while let [high, low, others @ ..] = rest {
        bytes.push(hex_byte(*high, *low)?);
        rest = others;
    }
    if rest.is_empty() {
        Short::from_slice(bytes.as_slice())
    } else {
        None
    }
}
