//! Which lines a trace can have: the shape of each kind of line, word by word. In a shape N is a
//! number, T a task, P a phone, F a fibril, C a code and B any word; each other word is itself.
ghost use Rattle.std.specs.Prelude.{◌≡◌};
ghost use Rattle.std.specs.Char.{is_ascii_digit};
ghost use Rattle.std.specs.List.{list_all};
ghost use Rattle.script_lines.specs.Text.{texts};
ghost use Rattle.search_goals.specs.Goals.{text_words, listed};
ghost use Rattle.search_goals.specs.LineShapes.{is_number, is_task, is_numbered, is_code, is_of_kind};
ghost use Rattle.search_goals.specs.LineShapes.{head_shapes, outcome_shapes, effect_shapes, fibril_shapes};
ghost use Rattle.search_goals.specs.LineShapes.{may_be, begins_as, begins_one, may_begin};

use crate::meeting::{is_word, next_word};
use crate::stops::{Stop, cut_at};
use ipc_ids::code_named;

/// Heads of events.
const HEADS: [&[u8]; 16] = [
    b"T call N N N N N N N",
    b"T receive",
    b"T answer N C N N N N N",
    b"T forward N N plain",
    b"T forward N N plain N N N N N N",
    b"T forward N N route",
    b"T forward N N route N N N N N N",
    b"T hangup N",
    b"T area N N N",
    b"T unarea N",
    b"T poke N B",
    b"T peek N N",
    b"T nothing",
    b"T ended",
    b"kill T",
    b"spawn T",
];

/// Outcomes.
const OUTCOMES: [&[u8]; 7] = [
    b"= EOK",
    b"= C",
    b"= call N",
    b"= received N N N N N N N from P",
    b"= answer N C N N N N N",
    b"= EMPTY",
    b"= bytes B",
];

/// What happened to calls, to phones and to memory.
const EFFECTS: [&[u8]; 18] = [
    b"call N accepted P method N to T",
    b"call N accepted P method N back",
    b"call N received T",
    b"call N forwarded T to T label P",
    b"call N answered C N N N N N by T",
    b"call N answered C N N N N N by kernel",
    b"call N delivered T",
    b"call N dropped T",
    b"call N vanished",
    b"call N forgotten",
    b"phone P free",
    b"phone P connecting",
    b"phone P connected T",
    b"phone P hungup",
    b"phone P slammed",
    b"area T N N N store N",
    b"unarea T N",
    b"write T N N store N",
];

/// What fibrils do.
const FIBRILS: [&[u8]; 16] = [
    b"F sent N slot N",
    b"F sent N begin",
    b"F gets N slot N C N N N N N",
    b"F gets N begin C N N N N N",
    b"F blocks answer N",
    b"F blocks mutex N",
    b"F blocks phone",
    b"F blocks message",
    b"F starts P",
    b"F ends",
    b"F refused C",
    b"F begins exchange N atomic session N phone N",
    b"F begins exchange N serialize session N phone N",
    b"F begins exchange N parallel session N phone N",
    b"F ends exchange N",
    b"F drops exchange N",
];

/// Whether each byte is a decimal digit.
fn all_digits(word: &[u8]) -> bool
    ensures { result ≡ list_all is_ascii_digit word.now }
{
    cut_at(Stop::NumberEnd, word).1.is_empty()
}

/// Whether a word is decimal digits.
fn is_number(word: &[u8]) -> bool
    ensures { result ≡ is_number word.now }
{
    0 < word.len() && all_digits(word)
}

/// Whether a word is `t` and a number.
fn is_task(word: &[u8]) -> bool
    ensures { result ≡ is_task word.now }
{
    match word {
        [b't', digits @ ..] => is_number(digits),
        _ => false,
    }
}

/// Whether a word is a task and a number, with this byte between them.
fn is_numbered(byte: u8, word: &[u8]) -> bool
    ensures { result ≡ is_numbered byte word.now }
{
    let (task, rest) = cut_at(Stop::Mark(byte), word);
    match rest {
        [_, digits @ ..] => is_task(task) && is_number(digits),
        [] => false,
    }
}

/// Whether a word is the name of a code, or a number.
fn is_code(word: &[u8]) -> bool
    ensures { result ≡ is_code word.now }
{
    is_number(word) || code_named(word).is_some()
}

/// Whether a word is what a word of a shape stands for.
#[tactic(auto, unfolding(crate::specs::LineShapes::is_of_kind))]
fn is_of_kind(kind: &[u8], word: &[u8]) -> bool
    ensures { result ≡ is_of_kind kind.now word.now }
{
    match kind {
        b"N" => is_number(word),
        b"T" => is_task(word),
        b"P" => is_numbered(b'.', word),
        b"F" => is_numbered(b'/', word),
        b"C" => is_code(word),
        b"B" => true,
        _ => is_word(kind, word),
    }
}

/// Whether a word that is asked for may be of this kind: any is asked for, or it is.
fn may_be(asked: &[u8], kind: &[u8]) -> bool
    ensures { result ≡ may_be asked.now kind.now }
{
    is_word(asked, b"*") || is_of_kind(kind, asked)
}

/// Whether a line of this shape may begin with the words that are asked for.
fn begins_as(asked: &[Vec<u8>], shape: &[u8]) -> bool
    ensures { result ≡ begins_as (listed asked.now) (text_words shape.now) }
{
    let mut rest = shape;
    for word in asked {
        match next_word(rest) {
            None => return false,
            Some((kind, others)) => {
                if !may_be(word.as_slice(), kind) {
                    return false;
                }
                rest = others;
            }
        }
    }
    true
}

/// Whether a line of one of these shapes may.
fn begins_one(shapes: &[&[u8]], asked: &[Vec<u8>]) -> bool
    ensures { result ≡ begins_one (texts shapes.now) (listed asked.now) }
{
    for shape in shapes {
        if begins_as(asked, *shape) {
            return true;
        }
    }
    false
}

/// Whether a head may.
#[tactic(auto, unfolding(crate::specs::LineShapes::head_shapes))]
fn begins_head(asked: &[Vec<u8>]) -> bool
    ensures { result ≡ begins_one head_shapes (listed asked.now) }
{
    begins_one(&HEADS, asked)
}

/// Whether an outcome may.
#[tactic(auto, unfolding(crate::specs::LineShapes::outcome_shapes))]
fn begins_outcome(asked: &[Vec<u8>]) -> bool
    ensures { result ≡ begins_one outcome_shapes (listed asked.now) }
{
    begins_one(&OUTCOMES, asked)
}

/// Whether a line of what happened to calls, to phones and to memory may.
#[tactic(auto, unfolding(crate::specs::LineShapes::effect_shapes))]
fn begins_effect(asked: &[Vec<u8>]) -> bool
    ensures { result ≡ begins_one effect_shapes (listed asked.now) }
{
    begins_one(&EFFECTS, asked)
}

/// Whether a line of what fibrils do may.
#[tactic(auto, unfolding(crate::specs::LineShapes::fibril_shapes))]
fn begins_fibril(asked: &[Vec<u8>]) -> bool
    ensures { result ≡ begins_one fibril_shapes (listed asked.now) }
{
    begins_one(&FIBRILS, asked)
}

/// Whether a line of a trace may begin with the words that are asked for, as far as its shape says.
#[tactic(auto, unfolding(crate::specs::LineShapes::may_begin))]
pub(crate) fn may_begin(asked: &[Vec<u8>]) -> bool
    ensures { result ≡ may_begin (listed asked.now) }
{
    begins_head(asked) || begins_outcome(asked) || begins_effect(asked) || begins_fibril(asked)
}
