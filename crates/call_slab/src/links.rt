//! The key of a live call, and its neighbours in the lists that it stands in.
ghost use Rattle.std.specs.Prelude.{◌≡◌, ◌<◌};
ghost use Rattle.call_slab.specs.Links.{key_held, no_links};

use std::marker::Model;

/// What is kept in place of a key where there is none.
pub(crate) const NO_KEY: u32 = u32::MAX;

/// The key of a live call: it stays the same until the call is taken out, and may then be given to
/// another call. A contract sees it as the number. It fits in four bytes, and is not `NO_KEY`.
#[derive(Clone, Copy, PartialEq, Eq)]
pub struct CallKey(usize);

impl Model for CallKey {
    ghost use Rattle.std.specs.Prelude.{ℕ, ◌<◌};

    ghost Value = { ℕ };

    ghost view = { λ k. k.0 };

    ghost inverse = { λ n. record { 0 = n } };

    ghost invariant = { λ k. k.0 < 4294967295 };
}

impl CallKey {
    /// The key with this number.
    #[inline(always)]
    pub(crate) fn of(kept: u32) -> CallKey
        requires { kept < 4294967295 }
        ensures { result ≡ kept }
    {
        CallKey(kept as usize)
    }

    /// Its number.
    #[inline(always)]
    pub fn kept(self) -> u32
        ensures value { result ≡ self }
        ensures small { result < 4294967295 }
    {
        self.0 as u32
    }
}

/// The neighbours of a call in the queue of its place and in the list of its caller's calls.
#[derive(Clone, Copy, PartialEq, Eq)]
pub struct Links {
    /// Who came to the place just before it.
    pub before: Option<CallKey>,
    /// Who came to the place just after it.
    pub after: Option<CallKey>,
    /// The caller's live call with the next lower number.
    pub older: Option<CallKey>,
    /// The caller's live call with the next higher number.
    pub newer: Option<CallKey>,
}

/// Links as they are kept with a call: four bytes each.
#[derive(Drop)]
pub struct KeptLinks {
    before: u32,
    after: u32,
    older: u32,
    newer: u32,
}

impl Model for KeptLinks {
    ghost use Rattle.call_slab.specs.Links.{kept_links};
    ghost use Rattle.call_slab.specs.declared.links.Links.{Links};

    ghost Value = { Links };

    ghost view = { λ k. kept_links k.before k.after k.older k.newer };
}

/// What is kept for a key, or for none.
#[inline(always)]
pub(crate) fn kept(link: Option<CallKey>) -> u32
    ensures { key_held result ≡ link }
{
    match link {
        Some(key) => key.kept(),
        None => NO_KEY,
    }
}

/// The key that is kept as this number, if it is one.
#[inline(always)]
pub(crate) fn link(kept: u32) -> Option<CallKey>
    ensures { result ≡ key_held kept }
{
    if kept == NO_KEY {
        None
    } else {
        Some(CallKey::of(kept))
    }
}

impl KeptLinks {
    /// Links to no call.
    #[inline(always)]
    pub(crate) fn none() -> KeptLinks
        ensures { result ≡ no_links }
    {
        KeptLinks {
            before: NO_KEY,
            after: NO_KEY,
            older: NO_KEY,
            newer: NO_KEY,
        }
    }

    /// The same links.
    #[inline(always)]
    pub(crate) fn same(&self) -> KeptLinks
        ensures { result ≡ self.now }
    {
        KeptLinks {
            before: self.before,
            after: self.after,
            older: self.older,
            newer: self.newer,
        }
    }

    /// What is kept for these links.
    #[inline(always)]
    pub(crate) fn of(links: Links) -> KeptLinks
        ensures { result ≡ links }
    {
        KeptLinks {
            before: kept(links.before),
            after: kept(links.after),
            older: kept(links.older),
            newer: kept(links.newer),
        }
    }

    /// The links that are kept.
    #[inline(always)]
    pub(crate) fn links(&self) -> Links
        ensures { result ≡ self.now }
    {
        Links {
            before: link(self.before),
            after: link(self.after),
            older: link(self.older),
            newer: link(self.newer),
        }
    }
}
