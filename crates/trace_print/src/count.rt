//! A count of bytes in place of a text.
ghost use Rattle.std.specs.Prelude.{◌≡◌, ◌+◌, ◌-◌, ◌≤◌, length, decimal, replicate};
ghost use Rattle.trace_print.specs.Text.{bytes_text};

use crate::pen::Pen;

/// How long a text is. Contracts see one 0 for each of its bytes.
#[derive(Drop)]
pub struct Count {
    pub length: u64,
}

#[tactic(auto, using(crate::proofs::Digits::length_one, crate::proofs::Digits::length_two, crate::proofs::Digits::length_three, crate::proofs::Digits::length_four, crate::proofs::Digits::length_five))]
#[inline]
fn number_length(number: u64) -> u64
    ensures length { result ≡ length (decimal number) }
    ensures most { result ≤ 20 }
{
    if number < 10 {
        1
    } else if number < 100 {
        2
    } else if number < 1_000 {
        3
    } else if number < 10_000 {
        4
    } else if number < 100_000 {
        5
    } else {
        long_length(number)
    }
}

/// How many digits a number has, counted one by one.
#[inline(never)]
fn long_length(number: u64) -> u64
    ensures length { result ≡ length (decimal number) }
    ensures most { result ≤ 20 }
{
    let mut length = 1;
    let mut left = number;
    while left >= 10 {
        length += 1;
        left /= 10;
    }
    length
}

#[tactic(auto, using(crate::proofs::Counts::length_bytes))]
fn bytes_length(bytes: &[u8]) -> u64
    requires { length bytes.now ≤ 64 }
    ensures length { result ≡ length (bytes_text bytes.now) }
    ensures most { result ≤ 128 }
{
    if bytes.is_empty() {
        1
    } else {
        2 * bytes.len() as u64
    }
}

#[tactic(auto, using(crate::proofs::Counts::count_more))]
impl Pen for Count {
    ghost seen = { λ count. replicate count.length 0 };

    ghost left = { λ count. 18446744073709551615 - count.length };

    ghost mark = { λ _. 0 };

    fn byte(&mut self, _byte: u8) {
        self.length += 1;
    }

    fn word(&mut self, word: &[u8]) {
        self.length += word.len() as u64;
    }

    fn number(&mut self, number: u64) {
        self.length += number_length(number);
    }

    fn bytes(&mut self, bytes: &[u8]) {
        self.length += bytes_length(bytes);
    }
}
