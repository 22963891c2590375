//! The number that digits spell.
ghost use Rattle.std.specs.Prelude.{◌≡◌, ◌≤◌};
ghost use Rattle.ipc_ids.specs.Digits.{in_base};

/// The number below 2^64 that from 1 to `most` digits spell in this base, which is from 2 to 36;
/// `None` where they spell none.
#[tactic(auto, unfolding(crate::specs::Digits::in_base))]
pub fn in_base(digits: &[u8], base: u32, most: usize) -> Option<u64>
    requires low { 2 ≤ base }
    requires high { base ≤ 36 }
    ensures { result ≡ in_base base most digits.now }
{
    if digits.is_empty() || digits.len() > most {
        return None;
    }
    let mut value = 0u64;
    for byte in digits {
        let digit = char::from(*byte).to_digit(base)?;
        value = value
            .checked_mul(u64::from(base))?
            .checked_add(u64::from(digit))?;
    }
    Some(value)
}
