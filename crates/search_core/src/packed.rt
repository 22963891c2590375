//! Words as bytes, where small words take one, and so do up to 32 zeros in a row.
ghost use Rattle.std.specs.Prelude.{◌≡◌, ◌≤◌, ◌++◌, ◌∷◌, [], ℕ, List, IfOk, OnOk, replicate};
ghost use Rattle.search_core.specs.Packed.{AreSpelt, AreSpeltTo, unpacked};

use std::alloc::{AllocError, Global};

/// The bytes of these words.
pub fn packed(alloc: Global, words: &[u64]) -> Result<Vec<u8>, AllocError>
    ensures { IfOk result (λ bytes. unpacked bytes.items ≡ words.now) }
{
    let mut bytes = Vec::with_capacity(alloc, 128)?;
    // The zeros that were seen last, of which nothing is written yet.
    let mut zeros: u8 = 0;
    for word in words {
        zeros = push_or_count(*word, zeros, &mut bytes)?;
    }
    push_zeros(zeros, &mut bytes)?;
    Ok(bytes)
}

/// Writes a word, and before it the zeros that are not written yet; or counts one more of them.
fn push_or_count(word: u64, zeros: u8, bytes: &mut Vec<u8>) -> Result<u8, AllocError>
    requires few { zeros ≤ 32 }
    ensures few { IfOk result (λ zeros_new. zeros_new ≤ 32) }
    ensures spelt { IfOk result (λ zeros_new. (words : List ℕ)
        → AreSpeltTo bytes.old.items words zeros
        → AreSpeltTo bytes.new.items (words ++ word ∷ []) zeros_new) }
{
    if word == 0 && zeros < 32 {
        return Ok(zeros + 1);
    }
    push_zeros(zeros, bytes)?;
    push_word(word, bytes)?;
    Ok(0)
}

/// So many zeros more.
fn push_zeros(zeros: u8, bytes: &mut Vec<u8>) -> Result<(), AllocError>
    requires few { zeros ≤ 32 }
    ensures { OnOk result ((words : List ℕ) → AreSpelt bytes.old.items words
        → AreSpelt bytes.new.items (words ++ replicate zeros 0)) }
{
    if zeros > 0 {
        bytes.push(95 + zeros)?;
    }
    Ok(())
}

/// One word more: seven bits a byte, the lowest first, and 128 more where another byte follows.
fn push_word(word: u64, bytes: &mut Vec<u8>) -> Result<(), AllocError>
    ensures { OnOk result ((words : List ℕ) → AreSpelt bytes.old.items words
        → AreSpelt bytes.new.items (words ++ word ∷ [])) }
{
    let mut left = word;
    while left >= 96 {
        bytes.push((128 + left % 128) as u8)?;
        left /= 128;
    }
    bytes.push(left as u8)?;
    Ok(())
}
