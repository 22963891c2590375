//! A step in its usual form, read without a list of words.
ghost use Rattle.std.specs.Prelude.{◌≡◌, ◌<◌, ◌≤◌, ◌∷◌, ◌++◌, length, take, not, position, true, codes, IfSome, IsTrue};
ghost use Rattle.std.specs.List.{list_all};
ghost use Rattle.script_reader.specs.StepLine.{IsSpelled, IsCounted, EndsStep, SaysSteps};
ghost use Rattle.script_lines.specs.Word.{is_name, is_name_byte};

use script_lines::is_name_byte;

/// A line `step NAME` or `step NAME x N`, with one space between two words, and what stands behind
/// its line feed.
#[derive(Clone, Copy)]
pub struct StepLine<'a> {
    pub name: &'a [u8],
    pub count: u64,
    pub others: &'a [u8],
}

/// The place of the first byte that may not stand in a name.
#[inline(always)]
fn name_end(text: &[u8]) -> Option<usize>
    ensures { result ≡ position (λ b. not (is_name_byte b)) text.now }
{
    text.iter().position(|byte| !is_name_byte(*byte))
}

/// How many bytes at the front may stand in a name.
#[inline(always)]
#[tactic(auto, using(crate::proofs::StepLines::no_name_end, crate::proofs::StepLines::name_front))]
fn name_len(text: &[u8]) -> usize
    ensures passed { list_all is_name_byte (take result text.now) ≡ true }
    ensures within { result ≤ length text.now }
{
    match name_end(text) {
        Some(at) => at,
        None => text.len(),
    }
}

/// A name at the front, and what stands behind it.
#[inline(always)]
#[tactic(auto, unfolding(script_lines::specs::Word::is_name))]
fn cut_name(text: &[u8]) -> Option<(&[u8], &[u8])>
    ensures name { IfSome result (λ cut. is_name cut.0.now ≡ true) }
    ensures parts { IfSome result (λ cut. text.now ≡ cut.0.now ++ cut.1.now) }
{
    let (name, rest) = text.split_at(name_len(text));
    match name {
        [first, ..] if first.is_ascii_lowercase() && name.len() <= 15 => Some((name, rest)),
        _ => None,
    }
}

/// What stands behind `step ` at the front. The four letters are looked at together, which is one
/// comparison for the machine.
#[inline(always)]
pub fn behind_step(text: &[u8]) -> Option<&[u8]>
    ensures { IfSome result (λ rest. text.now ≡ codes "step " ++ rest.now) }
{
    match text {
        [s, t, e, p, b' ', rest @ ..]
            if (*s == b's') & (*t == b't') & (*e == b'e') & (*p == b'p') => { Some(rest) }
        _ => None,
    }
}

/// What stands behind ` x ` at the front.
#[inline(always)]
fn behind_times(text: &[u8]) -> Option<&[u8]>
    ensures { IfSome result (λ rest. text.now ≡ codes " x " ++ rest.now) }
{
    match text {
        [b' ', b'x', b' ', rest @ ..] => Some(rest),
        _ => None,
    }
}

/// What stands behind a line feed at the front.
#[inline(always)]
fn behind_feed(text: &[u8]) -> Option<&[u8]>
    ensures { IfSome result (λ rest. text.now ≡ 10 ∷ rest.now) }
{
    match text {
        [b'\n', rest @ ..] => Some(rest),
        _ => None,
    }
}

/// The number that up to five digits at the front spell, and what stands behind them.
#[inline(always)]
fn cut_number(text: &[u8]) -> Option<(u64, &[u8])>
    ensures { IfSome result (λ cut. IsSpelled 5 text.now cut.0 cut.1.now) }
{
    let mut value = 0;
    let mut rest = text;
    for _ in 0..6_u32 {
        match rest {
            [digit @ b'0'..=b'9', others @ ..] if value <= 6_553 => {
                value = 10 * value + u64::from(*digit - b'0');
                rest = others;
            }
            _ => return Some((value, rest)),
        }
    }
    None
}

/// How many times ` x N` at the front says, and what stands behind it and a line feed.
#[inline(always)]
fn cut_count(text: &[u8]) -> Option<(u64, &[u8])>
    ensures { IfSome result (λ cut. IsCounted text.now cut.0 cut.1.now) }
{
    let (count, rest) = cut_number(behind_times(text)?)?;
    let others = behind_feed(rest)?;
    if 1 <= count && count <= 65_536 {
        Some((count, others))
    } else {
        None
    }
}

/// How many steps are said behind a name, up to a line feed, and what stands behind it.
#[inline(always)]
pub fn cut_end(text: &[u8]) -> Option<(u64, &[u8])>
    ensures { IfSome result (λ cut. EndsStep text.now cut.0 cut.1.now) }
{
    match behind_feed(text) {
        Some(others) => Some((1, others)),
        None => cut_count(text),
    }
}

/// Whether a text begins with these bytes, and is longer.
#[inline(always)]
fn begins_with(text: &[u8], front: &[u8]) -> bool
    ensures front { IsTrue result → take (length front.now) text.now ≡ front.now }
    ensures longer { IsTrue result → length front.now < length text.now }
{
    if text.len() <= front.len() {
        return false;
    }
    for place in 0..front.len() {
        if text[place] != front[place] {
            return false;
        }
    }
    true
}

/// What stands behind a name, where it is the first word of a text.
#[inline(always)]
pub fn behind_name<'a>(name: &[u8], text: &'a [u8]) -> Option<&'a [u8]>
    ensures { IfSome result (λ rest. text.now ≡ name.now ++ rest.now) }
{
    if !begins_with(text, name) {
        return None;
    }
    match &text[name.len()..] {
        rest @ [b' ' | b'\n', ..] => Some(rest),
        _ => None,
    }
}

/// The first line of a text, where it is a step in its usual form and not the last line.
#[inline(always)]
pub fn step_line(text: &[u8]) -> Option<StepLine<'_>>
    ensures { IfSome result (λ line.
        SaysSteps text.now line.name.now line.count line.others.now) }
{
    let (name, rest) = cut_name(behind_step(text)?)?;
    let (count, others) = cut_end(rest)?;
    Some(StepLine {
        name,
        count,
        others,
    })
}
