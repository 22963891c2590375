//! A line that is an operation.
ghost use Rattle.std.specs.Prelude.{◌≡◌, ◌≤◌, [], ◌∷◌, length, IfOk, IfSome, All};
ghost use Rattle.script_lines.specs.Ranges.{IsInRange, IsOpOf};
ghost use Rattle.script_lines.specs.Text.{texts};
ghost use Rattle.script_lines.specs.Word.{number_below};
ghost use Rattle.script_lines.specs.Operation.{arguments, two_and_arguments, call_op, answer_op, forward_op, receive_op, set_op, jump_op, hangup_op, area_op, unarea_op, poke_op, peek_op, two_and_place, jump_equal_op, jump_differ_op, slot_of, handle_of, session_of, call_slot_op, send_op, wait_op, next_op, yield_op, open_op, begin_op, end_op, close_op, raw_op_of, async_op_of, op_in};

use crate::fault::Reason;
use crate::plan::Kind;
use crate::word::{OpVerb, bytes_of, exchange_mode_of, mode_of, number_below, register, value};
use ipc_ids::{Op, Value};

const SLOTS: u32 = 8;

const HANDLES: u32 = 8;

const SESSIONS: u32 = 16;

/// What words of these kinds spell, one word each, and up to five arguments behind them where a
/// name stands for these. Any other number of words is at fault, and then the first word that is
/// not of its kind.
macro_rules! spelled {
    ($words:ident, [$($word:ident: $kind:ident),*] => $spelled:expr) => {
        match $words {
            [$($word),*] => {
                $(let $word = needed!($kind(*$word));)*
                Ok($spelled)
            }
            _ => Err(Reason::WrongCount),
        }
    };
    ($words:ident, [$($word:ident: $kind:ident),*; $args:ident] => $spelled:expr) => {
        match $words {
            [$($word,)* $args @ ..] if $args.len() <= 5 => {
                $(let $word = needed!($kind(*$word));)*
                let $args = needed!(arguments($args));
                Ok($spelled)
            }
            _ => Err(Reason::WrongCount),
        }
    };
}

/// Up to five arguments, with 0 for those that are left out.
#[inline(always)]
#[tactic(auto, unfolding(crate::specs::Operation::arguments))]
fn arguments(words: &[&[u8]]) -> Option<[Value; 5]>
    requires { length words.now ≤ 5 }
    ensures value { result ≡ arguments (texts words.now) }
    ensures ranges { IfSome result (All IsInRange) }
{
    let mut args = [Value::Number(0); 5];
    for (i, word) in words.iter().enumerate() {
        args[i] = value(*word)?;
    }
    Some(args)
}

/// Two values, and up to five arguments.
#[inline(always)]
#[tactic(auto, unfolding(crate::specs::Operation::two_and_arguments))]
pub fn two_and_arguments(words: &[&[u8]]) -> Result<(Value, Value, [Value; 5]), Reason>
    ensures value { result ≡ two_and_arguments (texts words.now) }
    ensures ranges { IfOk result (λ x. IsInRange x.0 × IsInRange x.1 × All IsInRange x.2) }
{
    spelled!(words, [first: value, second: value; args] => (first, second, args))
}

#[inline(always)]
#[tactic(auto, unfolding(crate::specs::Operation::call_op))]
fn call_op(words: &[&[u8]]) -> Result<Op, Reason>
    ensures { result ≡ call_op (texts words.now) }
{
    let (phone, method, args) = two_and_arguments(words)?;
    Ok(Op::Call {
        phone,
        method,
        args,
    })
}

#[tactic(auto, unfolding(crate::specs::Operation::answer_op))]
fn answer_op(words: &[&[u8]]) -> Result<Op, Reason>
    ensures { result ≡ answer_op (texts words.now) }
{
    let (call, code, args) = two_and_arguments(words)?;
    Ok(Op::Answer { call, code, args })
}

#[tactic(auto, unfolding(crate::specs::Operation::receive_op))]
fn receive_op(words: &[&[u8]]) -> Result<Op, Reason>
    ensures { result ≡ receive_op (texts words.now) }
{
    spelled!(words, [] => Op::Receive)
}

/// A call, a phone and a mode.
#[tactic(auto, unfolding(crate::specs::Operation::forward_op))]
fn forward_alone(call: &[u8], phone: &[u8], mode: &[u8]) -> Result<Op, Reason>
    ensures { result ≡ forward_op (call.now ∷ phone.now ∷ mode.now ∷ []) }
{
    let call = needed!(value(call));
    let phone = needed!(value(phone));
    let mode = needed!(mode_of(mode));
    Ok(Op::Forward { call, phone, mode })
}

/// A call, a phone, a mode, a method, and up to five arguments.
#[tactic(auto, unfolding(crate::specs::Operation::forward_op))]
fn forward_with(
    call: &[u8],
    phone: &[u8],
    mode: &[u8],
    method: &[u8],
    args: &[&[u8]],
) -> Result<Op, Reason>
    requires { length args.now ≤ 5 }
    ensures { result
        ≡ forward_op (call.now ∷ phone.now ∷ mode.now ∷ method.now ∷ texts args.now) }
{
    let call = needed!(value(call));
    let phone = needed!(value(phone));
    let mode = needed!(mode_of(mode));
    let method = needed!(value(method));
    let args = needed!(arguments(args));
    Ok(Op::ForwardWith {
        call,
        phone,
        mode,
        method,
        args,
    })
}

/// Without a change, or with a method and up to five arguments.
#[tactic(auto, unfolding(crate::specs::Operation::forward_op))]
fn forward_op(words: &[&[u8]]) -> Result<Op, Reason>
    ensures { result ≡ forward_op (texts words.now) }
{
    match words {
        [call, phone, mode] => forward_alone(*call, *phone, *mode),
        [call, phone, mode, method, args @ ..] if args.len() <= 5 => {
            forward_with(*call, *phone, *mode, *method, args)
        }
        _ => Err(Reason::WrongCount),
    }
}

#[tactic(auto, unfolding(crate::specs::Operation::hangup_op))]
fn hangup_op(words: &[&[u8]]) -> Result<Op, Reason>
    ensures { result ≡ hangup_op (texts words.now) }
{
    spelled!(words, [phone: value] => Op::Hangup(phone))
}

#[tactic(auto, unfolding(crate::specs::Operation::area_op))]
fn area_op(words: &[&[u8]]) -> Result<Op, Reason>
    ensures { result ≡ area_op (texts words.now) }
{
    spelled!(words, [base: value, pages: value, rights: value] => Op::Area { base, pages, rights })
}

#[tactic(auto, unfolding(crate::specs::Operation::unarea_op))]
fn unarea_op(words: &[&[u8]]) -> Result<Op, Reason>
    ensures { result ≡ unarea_op (texts words.now) }
{
    spelled!(words, [base: value] => Op::Unarea(base))
}

#[tactic(auto, unfolding(crate::specs::Operation::poke_op))]
fn poke_op(words: &[&[u8]]) -> Result<Op, Reason>
    ensures { result ≡ poke_op (texts words.now) }
{
    spelled!(words, [at: value, bytes: bytes_of] => Op::Poke { at, bytes })
}

#[tactic(auto, unfolding(crate::specs::Operation::peek_op))]
fn peek_op(words: &[&[u8]]) -> Result<Op, Reason>
    ensures { result ≡ peek_op (texts words.now) }
{
    spelled!(words, [at: value, count: value] => Op::Peek { at, count })
}

#[tactic(auto, unfolding(crate::specs::Operation::set_op))]
fn set_op(words: &[&[u8]]) -> Result<Op, Reason>
    ensures { result ≡ set_op (texts words.now) }
{
    spelled!(words, [target: register, source: value] => Op::Set { register: target, value: source })
}

#[tactic(auto, unfolding(crate::specs::Operation::jump_op))]
fn jump_op(words: &[&[u8]]) -> Result<Op, Reason>
    ensures { result ≡ jump_op (texts words.now) }
{
    spelled!(words, [to: place_of] => Op::Jump(to))
}

/// The number of an operation.
fn place_of(word: &[u8]) -> Option<u32>
    ensures { result ≡ number_below 65536 word.now }
{
    number_below(65536, word)
}

/// Two values, and a place.
#[tactic(auto, unfolding(crate::specs::Operation::two_and_place))]
fn two_and_place(words: &[&[u8]]) -> Result<(Value, Value, u32), Reason>
    ensures { result ≡ two_and_place (texts words.now) }
{
    spelled!(words, [left: value, right: value, to: place_of] => (left, right, to))
}

#[tactic(auto, unfolding(crate::specs::Operation::jump_equal_op))]
fn jump_equal_op(words: &[&[u8]]) -> Result<Op, Reason>
    ensures { result ≡ jump_equal_op (texts words.now) }
{
    let (left, right, to) = two_and_place(words)?;
    Ok(Op::JumpEqual { left, right, to })
}

#[tactic(auto, unfolding(crate::specs::Operation::jump_differ_op))]
fn jump_differ_op(words: &[&[u8]]) -> Result<Op, Reason>
    ensures { result ≡ jump_differ_op (texts words.now) }
{
    let (left, right, to) = two_and_place(words)?;
    Ok(Op::JumpDiffer { left, right, to })
}

/// A slot of a fibril.
#[tactic(auto, unfolding(crate::specs::Operation::slot_of))]
fn slot_of(word: &[u8]) -> Option<u32>
    ensures { result ≡ slot_of word.now }
{
    number_below(SLOTS, word)
}

/// A handle of an exchange.
#[tactic(auto, unfolding(crate::specs::Operation::handle_of))]
fn handle_of(word: &[u8]) -> Option<u32>
    ensures { result ≡ handle_of word.now }
{
    number_below(HANDLES, word)
}

#[tactic(auto, unfolding(crate::specs::Operation::session_of))]
fn session_of(word: &[u8]) -> Option<u32>
    ensures { result ≡ session_of word.now }
{
    number_below(SESSIONS, word)
}

/// A slot, two values, and up to five arguments.
#[tactic(auto, unfolding(crate::specs::Operation::call_slot_op))]
fn call_slot_op(words: &[&[u8]]) -> Result<Op, Reason>
    ensures { result ≡ call_slot_op (texts words.now) }
{
    spelled!(words, [slot: slot_of, phone: value, method: value; args] => Op::CallSlot { slot, phone, method, args })
}

/// A slot, a handle, a value, and up to five arguments.
#[tactic(auto, unfolding(crate::specs::Operation::send_op))]
fn send_op(words: &[&[u8]]) -> Result<Op, Reason>
    ensures { result ≡ send_op (texts words.now) }
{
    spelled!(words, [slot: slot_of, handle: handle_of, method: value; args] => Op::Send { slot, handle, method, args })
}

#[tactic(auto, unfolding(crate::specs::Operation::wait_op))]
fn wait_op(words: &[&[u8]]) -> Result<Op, Reason>
    ensures { result ≡ wait_op (texts words.now) }
{
    spelled!(words, [slot: slot_of] => Op::Wait(slot))
}

#[tactic(auto, unfolding(crate::specs::Operation::next_op))]
fn next_op(words: &[&[u8]]) -> Result<Op, Reason>
    ensures { result ≡ next_op (texts words.now) }
{
    spelled!(words, [] => Op::Next)
}

#[tactic(auto, unfolding(crate::specs::Operation::yield_op))]
fn yield_op(words: &[&[u8]]) -> Result<Op, Reason>
    ensures { result ≡ yield_op (texts words.now) }
{
    spelled!(words, [] => Op::Yield)
}

#[tactic(auto, unfolding(crate::specs::Operation::open_op))]
fn open_op(words: &[&[u8]]) -> Result<Op, Reason>
    ensures { result ≡ open_op (texts words.now) }
{
    spelled!(words, [session: session_of, phone: value, mode: exchange_mode_of] => Op::OpenSession { session, phone, mode })
}

#[tactic(auto, unfolding(crate::specs::Operation::begin_op))]
fn begin_op(words: &[&[u8]]) -> Result<Op, Reason>
    ensures { result ≡ begin_op (texts words.now) }
{
    spelled!(words, [handle: handle_of, session: session_of] => Op::Begin { handle, session })
}

#[tactic(auto, unfolding(crate::specs::Operation::end_op))]
fn end_op(words: &[&[u8]]) -> Result<Op, Reason>
    ensures { result ≡ end_op (texts words.now) }
{
    spelled!(words, [handle: handle_of] => Op::End(handle))
}

#[tactic(auto, unfolding(crate::specs::Operation::close_op))]
fn close_op(words: &[&[u8]]) -> Result<Op, Reason>
    ensures { result ≡ close_op (texts words.now) }
{
    spelled!(words, [session: session_of] => Op::Close(session))
}

/// The operation of a raw task that a first word and the words behind it spell.
fn raw_op_of(verb: OpVerb, words: &[&[u8]]) -> Result<Op, Reason>
    ensures { result ≡ raw_op_of verb (texts words.now) }
{
    match verb {
        OpVerb::Call => call_op(words),
        OpVerb::Receive => receive_op(words),
        OpVerb::Answer => answer_op(words),
        OpVerb::Forward => forward_op(words),
        OpVerb::Hangup => hangup_op(words),
        OpVerb::Area => area_op(words),
        OpVerb::Unarea => unarea_op(words),
        OpVerb::Poke => poke_op(words),
        OpVerb::Peek => peek_op(words),
        OpVerb::Set => set_op(words),
        OpVerb::Jump => jump_op(words),
        OpVerb::JumpEqual => jump_equal_op(words),
        OpVerb::JumpDiffer => jump_differ_op(words),
        OpVerb::Wait
        | OpVerb::Next
        | OpVerb::Yield
        | OpVerb::Send
        | OpVerb::Open
        | OpVerb::Begin
        | OpVerb::End
        | OpVerb::Close => Err(Reason::OutOfPlace),
    }
}

/// The operation of an async task that a first word and the words behind it spell.
fn async_op_of(verb: OpVerb, words: &[&[u8]]) -> Result<Op, Reason>
    ensures { result ≡ async_op_of verb (texts words.now) }
{
    match verb {
        OpVerb::Call => call_slot_op(words),
        OpVerb::Answer => answer_op(words),
        OpVerb::Forward => forward_op(words),
        OpVerb::Receive | OpVerb::Hangup => Err(Reason::OutOfPlace),
        OpVerb::Area => area_op(words),
        OpVerb::Unarea => unarea_op(words),
        OpVerb::Poke => poke_op(words),
        OpVerb::Peek => peek_op(words),
        OpVerb::Set => set_op(words),
        OpVerb::Jump => jump_op(words),
        OpVerb::JumpEqual => jump_equal_op(words),
        OpVerb::JumpDiffer => jump_differ_op(words),
        OpVerb::Wait => wait_op(words),
        OpVerb::Next => next_op(words),
        OpVerb::Yield => yield_op(words),
        OpVerb::Send => send_op(words),
        OpVerb::Open => open_op(words),
        OpVerb::Begin => begin_op(words),
        OpVerb::End => end_op(words),
        OpVerb::Close => close_op(words),
    }
}

/// The operation that a first word and the words behind it spell in a task of this kind.
pub fn op_in(present: Option<Kind>, verb: OpVerb, words: &[&[u8]]) -> Result<Op, Reason>
    ensures value { result ≡ op_in present verb (texts words.now) }
    ensures of_kind { IfOk result (λ op. IfSome present (λ kind. IsOpOf kind op)) }
{
    match present {
        None => Err(Reason::OutOfPlace),
        Some(Kind::Naming | Kind::Block) => Err(Reason::OutOfPlace),
        Some(Kind::Raw) => raw_op_of(verb, words),
        Some(Kind::Async) => async_op_of(verb, words),
    }
}
