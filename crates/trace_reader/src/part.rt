//! The parts of a line. Each reader gives something for any bytes; what it gives counts only where
//! the entry's own text is the line.
ghost use Rattle.std.specs.Prelude.{◌≡◌, ◌≤◌, ◌<◌, ◌==◌, ◌+◌, ◌*◌, ℕ, [], length, drop};
ghost use Rattle.trace_reader.specs.Words.{number_after, number_of, small_of, task_of, label_of, code_of, before, behind, owner_of, fibril_of, digit_of, bytes_of};
ghost use Rattle.trace_reader.specs.Read.{HasWords, is, args_in, msg_in, reply_in, nth, texts};

use crate::first_words::Words;
use arrayvec::ArrayVec;
use ipc_ids::{Code, FibrilNo, Label, Msg, PhoneNo, Reply, Short, TaskNo, code_named};

/// How many bytes stand before the first mark.
fn length_before(text: &[u8], mark: u8) -> usize
    ensures length { result ≡ length (before mark text.now) }
    ensures within { result ≤ length text.now }
{
    let mut count = 0;
    for byte in text {
        if *byte == mark {
            return count;
        }
        count += 1;
    }
    count
}

/// What stands before the first mark, and what stands behind it: no bytes where there is none.
#[tactic(auto, using(crate::proofs::Parts::take_before))]
fn cut(text: &[u8], mark: u8) -> (&[u8], &[u8])
    ensures before { result.0.now ≡ before mark text.now }
    ensures behind { result.1.now ≡ behind mark text.now }
{
    let count = length_before(text, mark);
    if count < text.len() {
        (&text[..count], &text[count + 1..])
    } else {
        (text, &[])
    }
}

/// Goes past bytes that end no word, since they are above a space, and tells how many. It stops at the
/// first other one, or near the end.
#[inline(always)]
fn length_above_space(text: &[u8]) -> usize
    ensures skips { result + length (before 32 (before 10 (drop result text.now)))
        ≡ length (before 32 (before 10 text.now)) }
    ensures within { result ≤ length text.now }
{
    let mut count = 0;
    let mut rest = text;
    while let [a, b, c, d, behind @ ..] = rest {
        if *a <= b' ' {
            return count;
        }
        if *b <= b' ' {
            return count + 1;
        }
        if *c <= b' ' {
            return count + 2;
        }
        if *d <= b' ' {
            return count + 3;
        }
        count += 4;
        rest = behind;
    }
    count
}

/// How many bytes stand before the first space or line feed.
fn length_of_word(text: &[u8]) -> usize
    ensures length { result ≡ length (before 32 (before 10 text.now)) }
    ensures within { result ≤ length text.now }
{
    let mut count = 0;
    for byte in text {
        if *byte == b' ' || *byte == b'\n' {
            return count;
        }
        count += 1;
    }
    count
}

/// Adds the first words of the line that the bytes begin with, and tells how many bytes that line
/// has: all of them, where there is no line feed.
pub fn first_line<'a>(bytes: &'a [u8], words: &mut Words<'a>) -> usize
    requires { words.old ≡ [] }
    ensures words { HasWords (texts words.new) (before 10 bytes.now) }
    ensures length { result ≡ length (before 10 bytes.now) }
    ensures within { result ≤ length bytes.now }
{
    let mut rest = bytes;
    while !words.is_full() {
        let count = length_above_space(rest);
        if count < rest.len() && rest[count] == b' ' {
            words.push(&rest[..count]);
            rest = &rest[count + 1..];
            continue;
        }
        // The line ends here, or goes on with a byte that no entry's text has.
        let count = count + length_of_word(&rest[count..]);
        words.push(&rest[..count]);
        if count == rest.len() || rest[count] == b'\n' {
            return bytes.len() - rest.len() + count;
        }
        rest = &rest[count + 1..];
    }
    bytes.len() - rest.len() + length_before(rest, b'\n')
}

/// Whether the word is this one. It is compared byte by byte: where `name` is known when the code is
/// compiled, no loop is left.
#[inline(always)]
pub fn is(word: &[u8], name: &[u8]) -> bool
    ensures { result ≡ is word.now name.now }
{
    if word.len() != name.len() {
        return false;
    }
    for i in 0..name.len() {
        if word[i] != name[i] {
            return false;
        }
    }
    true
}

/// The number that these digits spell behind those of a number, two at a time. A zero is the byte 48,
/// so two of them come to 528, which is taken off.
#[inline(always)]
fn number_after(start: u64, digits: &[u8]) -> u64
    ensures { result ≡ number_after start digits.now }
{
    let mut number = start;
    let mut rest = digits;
    while let [a, b, behind @ ..] = rest {
        number = number
            .wrapping_mul(100)
            .wrapping_add(u64::from(*a) * 10 + u64::from(*b))
            .wrapping_sub(528);
        rest = behind;
    }
    match rest {
        [last, ..] => number
            .wrapping_mul(10)
            .wrapping_add(u64::from(*last))
            .wrapping_sub(48),
        [] => number,
    }
}

/// The number that digits spell, as far as 64 bits have it; something for any other bytes. It takes
/// four digits at a time, and then what is left.
#[tactic(auto, unfolding(crate::specs::Words::number_of))]
pub fn number_of(word: &[u8]) -> u64
    ensures { result ≡ number_of word.now }
{
    let mut number = 0u64;
    let mut rest = word;
    while let [a, b, c, d, behind @ ..] = rest {
        let high = u64::from(*a) * 10 + u64::from(*b);
        let low = u64::from(*c) * 10 + u64::from(*d);
        number = number
            .wrapping_mul(10_000)
            .wrapping_add(high * 100 + low)
            .wrapping_sub(53_328);
        rest = behind;
    }
    number_after(number, rest)
}

pub fn small_of(word: &[u8]) -> u32
    ensures { result ≡ small_of word.now }
{
    let number = number_of(word);
    if number < 4294967296 {
        number as u32
    } else {
        0
    }
}

pub fn task_of(word: &[u8]) -> TaskNo
    ensures { result ≡ task_of word.now }
{
    match word {
        [_, digits @ ..] => TaskNo(number_of(digits)),
        [] => TaskNo(0),
    }
}

pub fn label_of(word: &[u8]) -> Label
    ensures { result ≡ label_of word.now }
{
    let (task, behind) = cut(word, b'.');
    let (phone, _) = cut(behind, b'.');
    Label {
        task: task_of(task),
        phone: PhoneNo(small_of(phone)),
    }
}

pub fn code_of(word: &[u8]) -> Code
    ensures { result ≡ code_of word.now }
{
    match code_named(word) {
        Some(number) => Code(number),
        None => Code(number_of(word)),
    }
}

/// Five numbers, in the words from this one on.
fn args_at(line: &Words, first: usize) -> [u64; 5]
    requires { first ≤ 17 }
    ensures { result ≡ args_in (nth (texts line.now)) first }
{
    [
        number_of(line.word(first)),
        number_of(line.word(first + 1)),
        number_of(line.word(first + 2)),
        number_of(line.word(first + 3)),
        number_of(line.word(first + 4)),
    ]
}

pub fn msg_at(line: &Words, first: usize) -> Msg
    requires { first ≤ 16 }
    ensures { result ≡ msg_in (nth (texts line.now)) first }
{
    Msg {
        method: number_of(line.word(first)),
        args: args_at(line, first + 1),
    }
}

pub fn reply_at(line: &Words, first: usize) -> Reply
    requires { first ≤ 16 }
    ensures { result ≡ reply_in (nth (texts line.now)) first }
{
    Reply {
        code: code_of(line.word(first)),
        args: args_at(line, first + 1),
    }
}

/// The task of a fibril.
pub fn owner_of(word: &[u8]) -> TaskNo
    ensures { result ≡ owner_of word.now }
{
    task_of(cut(word, b'/').0)
}

pub fn fibril_of(word: &[u8]) -> FibrilNo
    ensures { result ≡ fibril_of word.now }
{
    FibrilNo(number_of(cut(cut(word, b'/').1, b'/').0))
}

/// What a digit is worth.
fn digit_of(byte: u8) -> u8
    ensures value { result ≡ digit_of byte }
    ensures small { result < 16 }
{
    if byte < 58 {
        byte.saturating_sub(48)
    } else if byte < 103 {
        byte.saturating_sub(87)
    } else {
        0
    }
}

/// A byte for each two digits, 64 at most. It takes no memory.
pub fn bytes_of(word: &[u8]) -> Short
    ensures { result ≡ bytes_of word.now }
{
    let mut bytes = ArrayVec::<u8, 64>::new();
    let mut rest = word;
    let mut left = 64u64;
    while left > 0 && rest.len() > 1 {
        bytes.push(digit_of(rest[0]) * 16 + digit_of(rest[1]));
        rest = &rest[2..];
        left -= 1;
    }
    Short::from_slice(bytes.as_slice()).unwrap()
}
