//! Cuts a text where a part of it ends.
ghost use Rattle.std.specs.Prelude.{◌≡◌, position, take, drop};
ghost use Rattle.script_lines.specs.Text.{is_allowed};
ghost use Rattle.search_goals.specs.Goals.{is_gap};
ghost use Rattle.search_goals.specs.Stops.{stops_at, len_until};

use script_lines::is_name_byte;

/// What the part at the front of a text ends at.
#[derive(Clone, Copy)]
pub(crate) enum Stop {
    /// A space, a tab or a line feed, as a word does.
    Gap,
    /// Any other byte, as what stands between words does.
    Word,
    /// A byte that may not stand in a name.
    NameEnd,
    /// A byte that is no decimal digit.
    NumberEnd,
    /// A byte that may not stand in a line.
    LineEnd,
    /// This byte.
    Mark(u8),
}

/// Whether a byte stands between words.
fn is_gap(byte: u8) -> bool
    ensures { result ≡ is_gap byte }
{
    byte == b' ' || byte == b'\t' || byte == b'\n'
}

/// Whether a byte may stand in a line.
fn is_allowed(byte: u8) -> bool
    ensures { result ≡ is_allowed byte }
{
    (32 <= byte && byte <= 126) || byte == b'\t'
}

/// Whether a part ends at a byte.
fn stops_at(stop: Stop, byte: u8) -> bool
    ensures { result ≡ stops_at stop byte }
{
    match stop {
        Stop::Gap => is_gap(byte),
        Stop::Word => !is_gap(byte),
        Stop::NameEnd => !is_name_byte(byte),
        Stop::NumberEnd => !byte.is_ascii_digit(),
        Stop::LineEnd => !is_allowed(byte),
        Stop::Mark(mark) => byte == mark,
    }
}

/// Where a part ends, if it does before the text.
fn stop_place(stop: Stop, text: &[u8]) -> Option<usize>
    ensures { result ≡ position (stops_at stop) text.now }
{
    text.iter().position(|byte| stops_at(stop, *byte))
}

/// The part at the front of a text, and what stands behind it.
pub(crate) fn cut_at(stop: Stop, text: &[u8]) -> (&[u8], &[u8])
    ensures front { result.0.now ≡ take (len_until stop text.now) text.now }
    ensures behind { result.1.now ≡ drop (len_until stop text.now) text.now }
{
    match stop_place(stop, text) {
        Some(at) => text.split_at(at),
        None => (text, &[]),
    }
}
