//! Bytes in hexadecimal digits.
ghost use Rattle.std.specs.Prelude.{◌≡◌, ◌+◌, ◌≤◌, ◌<◌, ◌++◌, length};
ghost use Rattle.trace_print.specs.Text.{digit_text, digits_text, bytes_text};

use crate::text::Text;

fn digit(value: u8) -> u8
    requires { value < 16 }
    ensures { result ≡ digit_text value }
{
    b"0123456789abcdef"[value as usize]
}

fn push_digits<T: Text>(text: &mut T, bytes: &[u8])
    requires few { length bytes.now ≤ 64 }
    requires room { 128 ≤ T.left text.old }
    ensures text { T.bytes text.new ≡ T.bytes text.old ++ digits_text bytes.now }
    ensures left { T.left text.old ≤ T.left text.new + 128 }
{
    for byte in bytes {
        text.push(digit(*byte / 16));
        text.push(digit(*byte % 16));
    }
}

/// Adds bytes as digits in lower case, two for each, or `-` for none.
#[inline(never)]
pub fn push_bytes<T: Text>(text: &mut T, bytes: &[u8])
    requires few { length bytes.now ≤ 64 }
    requires room { 128 ≤ T.left text.old }
    ensures text { T.bytes text.new ≡ T.bytes text.old ++ bytes_text bytes.now }
    ensures left { T.left text.old ≤ T.left text.new + 128 }
{
    if bytes.is_empty() {
        text.push(b'-');
        return;
    }
    push_digits(text, bytes);
}
