//! Finding an exchange in a list.
ghost use Rattle.std.specs.Prelude.{◌≡◌, IfSome, slice_get};
ghost use Rattle.std.specs.Option.{option_copied, IfNone};
ghost use Rattle.async_sessions.specs.Sessions.{any_begun, first_idle};
ghost use Rattle.async_sessions.specs.ExchangeOrder.{AreRising, IsNumbered, HasNone};

use crate::sessions::{Exchange, Held};
use ipc_ids::ExchangeNo;

/// Where the exchange with this number stands among these, whose numbers rise.
pub(crate) fn place_of(exchanges: &[Exchange], e: ExchangeNo) -> Option<usize>
    requires rise { AreRising 0 exchanges.now }
    ensures found { IfSome result (λ i. IsNumbered e (slice_get exchanges.now i)) }
    ensures none { IfNone result (HasNone e exchanges.now) }
{
    match exchanges.binary_search_by_key(&e.0, |x| x.number.0) {
        Ok(i) => Some(i),
        Err(_) => None,
    }
}

/// Whether an exchange of the session is begun.
pub(crate) fn is_any_begun(exchanges: &[Exchange], s: u32) -> bool
    ensures { result ≡ any_begun s exchanges.now }
{
    exchanges
        .iter()
        .any(|x| x.session == s && x.held != Held::Idle)
}

/// The exchange that has been idle longest, of this session or, with `None`, of any.
pub(crate) fn first_idle(exchanges: &[Exchange], s: Option<u32>) -> Option<&Exchange>
    ensures { option_copied result ≡ first_idle s exchanges.now }
{
    let mut first: Option<&Exchange> = None;
    for x in exchanges {
        if x.held == Held::Idle
            && s.is_none_or(|s| x.session == s)
            && first.is_none_or(|best| x.stamp < best.stamp)
        {
            first = Some(x);
        }
    }
    first
}
