//! What has words, and the words of several and of many.
ghost use Rattle.std.specs.Prelude.{◌≡◌, ◌+◌, ◌<◌, ◌^◌, ◌++◌, ◌∷◌, [], ℕ, List, OnOk, length};
ghost use Rattle.std.specs.List.{flat_map};
ghost use Rattle.state_words.specs.Words.{list_words};

use std::alloc::AllocError;

/// What has words.
pub(crate) trait Worded {
    /// Its words.
    ghost words: { Self → List ℕ };

    /// Its words.
    fn push_to(&self, out: &mut Vec<u64>) -> Result<(), AllocError>
        ensures { OnOk result (out.new.items ≡ out.old.items ++ words self.now) };
}

/// The one and then the other.
pub(crate) fn push_two<A: Worded, B: Worded>(
    a: &A,
    b: &B,
    out: &mut Vec<u64>,
) -> Result<(), AllocError>
    ensures { OnOk result (out.new.items ≡ out.old.items ++ (A.words a.now ++ B.words b.now)) }
{
    a.push_to(out)?;
    b.push_to(out)
}

/// Three, one behind the other.
pub(crate) fn push_three<A: Worded, B: Worded, C: Worded>(
    a: &A,
    b: &B,
    c: &C,
    out: &mut Vec<u64>,
) -> Result<(), AllocError>
    ensures { OnOk result (out.new.items
        ≡ out.old.items ++ (A.words a.now ++ (B.words b.now ++ C.words c.now))) }
{
    a.push_to(out)?;
    push_two(b, c, out)
}

/// Four, one behind the other.
pub(crate) fn push_four<A: Worded, B: Worded, C: Worded, D: Worded>(
    a: &A,
    b: &B,
    c: &C,
    d: &D,
    out: &mut Vec<u64>,
) -> Result<(), AllocError>
    ensures { OnOk result (out.new.items ≡ out.old.items
        ++ (A.words a.now ++ (B.words b.now ++ (C.words c.now ++ D.words d.now)))) }
{
    a.push_to(out)?;
    push_three(b, c, d, out)
}

/// Each of these.
fn push_each<W: Worded>(items: &[W], out: &mut Vec<u64>) -> Result<(), AllocError>
    ensures { OnOk result (out.new.items ≡ out.old.items ++ flat_map W.words items.now) }
{
    for item in items {
        item.push_to(out)?;
    }
    Ok(())
}

/// How many these are, and each of them.
pub(crate) fn push_all<W: Worded>(items: &[W], out: &mut Vec<u64>) -> Result<(), AllocError>
    ensures { OnOk result (out.new.items ≡ out.old.items ++ list_words W.words items.now) }
{
    out.push(items.len() as u64)?;
    push_each(items, out)
}

/// How many these are, which are held in two parts, and each of them.
#[tactic(auto, using(crate::proofs::Halves::in_halves))]
pub(crate) fn push_both<W: Worded>(
    front: &[W],
    back: &[W],
    out: &mut Vec<u64>,
) -> Result<(), AllocError>
    requires { length front.now + length back.now < 2 ^ 64 }
    ensures { OnOk result (out.new.items
        ≡ out.old.items ++ list_words W.words (front.now ++ back.now)) }
{
    out.push(front.len() as u64 + back.len() as u64)?;
    push_each(front, out)?;
    push_each(back, out)
}
