//! Whether two texts are the same.
ghost use Rattle.std.specs.Prelude.{◌≡◌, ◌≤◌, ◌+◌, length, take, IsTrue};

/// Whether the four bytes at a place are the same. All are looked at, which is one comparison for
/// the machine.
#[inline(always)]
#[tactic(auto, using(crate::proofs::FourBytes::four_more))]
fn is_same_four(left: &[u8], right: &[u8], at: usize) -> bool
    requires left { at + 4 ≤ length left.now }
    requires right { at + 4 ≤ length right.now }
    ensures { IsTrue result → take at left.now ≡ take at right.now
        → take (at + 4) left.now ≡ take (at + 4) right.now }
{
    (left[at] == right[at])
        & (left[at + 1] == right[at + 1])
        & (left[at + 2] == right[at + 2])
        & (left[at + 3] == right[at + 3])
}

/// Whether two texts are the same. The last four bytes are compared at their own place, also where
/// some of them were compared before.
#[inline(always)]
pub fn are_same(left: &[u8], right: &[u8]) -> bool
    ensures { IsTrue result → left.now ≡ right.now }
{
    let len = left.len();
    if len != right.len() {
        return false;
    }
    if len < 4 {
        return left == right;
    }
    for i in 0..(len - 1) / 4 {
        if !is_same_four(left, right, 4 * i) {
            return false;
        }
    }
    is_same_four(left, right, len - 4)
}
