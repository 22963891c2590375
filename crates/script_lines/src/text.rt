//! A text as lines, and a line as words.
ghost use Rattle.std.specs.Prelude.{◌≡◌, ◌≤◌, ◌==◌, IfOk, length, position, true};
ghost use Rattle.std.specs.List.{list_all, position_or_len};
ghost use Rattle.std.specs.Option.{option_map};
ghost use Rattle.script_lines.specs.Text.{is_allowed, first_line, behind, is_blank, ends_word, after_space, words, texts};

use std::alloc::AllocError;

/// The most bytes of a file.
pub const MOST_BYTES: usize = 1_048_576;

const LINE_FEED: u8 = b'\n';

/// Whether a byte may stand in a line.
fn is_allowed(byte: u8) -> bool
    ensures { result ≡ is_allowed byte }
{
    (32 <= byte && byte <= 126) || byte == b'\t'
}

fn all_allowed(line: &[u8]) -> bool
    ensures { result ≡ list_all is_allowed line.now }
{
    line.iter().all(|byte| is_allowed(*byte))
}

fn is_blank(byte: u8) -> bool
    ensures { result ≡ is_blank byte }
{
    byte == b' ' || byte == b'\t'
}

/// Whether a word is over at a byte.
fn ends_word(byte: u8) -> bool
    ensures { result ≡ ends_word byte }
{
    if b'$' <= byte && byte <= b'~' {
        return false;
    }
    is_blank(byte) || byte == b'#' || !is_allowed(byte)
}

/// The place of the first byte at which a word is over.
fn word_end(text: &[u8]) -> Option<usize>
    ensures { result ≡ position ends_word text.now }
{
    text.iter().position(|byte| ends_word(*byte))
}

/// How many bytes at the front belong to a word.
#[tactic(auto, using(crate::proofs::Words::none_found))]
fn word_len(text: &[u8]) -> usize
    ensures value { result ≡ position_or_len ends_word text.now }
    ensures within { result ≤ length text.now }
{
    match word_end(text) {
        Some(at) => at,
        None => text.len(),
    }
}

/// What stands behind the space at the front, if one stands there.
fn after_space(text: &[u8]) -> &[u8]
    ensures { result.now ≡ after_space text.now }
{
    match text {
        [b' ', others @ ..] => others,
        _ => text,
    }
}

/// The place of the first line feed.
fn line_feed(text: &[u8]) -> Option<usize>
    ensures { result ≡ position (λ b. b == 10) text.now }
{
    text.iter().position(|byte| *byte == LINE_FEED)
}

/// Whether each byte of the first line may stand in a line, and what stands behind that line;
/// `None` where it is the last.
fn check_line(text: &[u8]) -> (bool, Option<&[u8]>)
    ensures allowed { result.0 ≡ list_all is_allowed (first_line text.now) }
    ensures behind { option_map (λ others. others.now) result.1 ≡ behind text.now }
{
    match line_feed(text) {
        Some(at) => (all_allowed(&text[..at]), Some(&text[at + 1..])),
        None => (all_allowed(text), None),
    }
}

/// Puts the words of the first line of a text into the list, in place of what it had, and says
/// whether each byte of the line may stand there; where one may not, the list has any words. Says
/// what stands behind the line too; `None` where it is the last.
#[inline(always)]
pub fn split_line<'a>(
    text: &'a [u8],
    list: &mut Vec<&'a [u8]>,
) -> Result<(bool, Option<&'a [u8]>), AllocError>
    ensures allowed { IfOk result (λ told. told.0 ≡ list_all is_allowed (first_line text.now)) }
    ensures words { IfOk result (λ told. told.0 ≡ true
        → texts list.new.items ≡ words (first_line text.now)) }
    ensures behind { IfOk result (λ told. option_map (λ others. others.now) told.1
        ≡ behind text.now) }
{
    list.clear();
    let mut rest = text;
    while let [first, others @ ..] = rest {
        if !ends_word(*first) {
            let len = 1 + word_len(others);
            list.push(&rest[..len])?;
            rest = after_space(&rest[len..]);
        } else if is_blank(*first) {
            rest = others;
        } else if *first == LINE_FEED {
            return Ok((true, Some(others)));
        } else {
            return Ok(check_line(rest));
        }
    }
    Ok((true, None))
}
