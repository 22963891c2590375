//! How many kills a schedule may have, and has.
ghost use Rattle.std.specs.Prelude.{◌≡◌};
ghost use Rattle.schedule_search.specs.Search.{is_kill, kills_in, is_within};
ghost use Rattle.schedule_search.specs.Code.{counted};

use ipc_ids::Event;

/// Whether an event is a kill.
fn is_kill(event: &Event) -> bool
    ensures { result ≡ is_kill event.now }
{
    match event {
        Event::Kill(_) => true,
        Event::Step(_) | Event::Hangup(_, _) | Event::Spawn(_) => false,
    }
}

/// How many of these events are kills.
pub(crate) fn kills_in(events: &[Event]) -> usize
    ensures { result ≡ kills_in events.now }
{
    events.iter().filter(|event| is_kill(*event)).count()
}

/// Whether there may be so many kills.
pub(crate) fn is_within(most: Option<u32>, kills: usize) -> bool
    ensures { result ≡ is_within most kills }
{
    match most {
        None => true,
        Some(most) => kills <= most as usize,
    }
}

/// How many kills a code tells of: where any number may come, of none.
pub(crate) fn counted(most: Option<u32>, kills: usize) -> u64
    ensures { result ≡ counted most kills }
{
    match most {
        None => 0,
        Some(_) => kills as u64,
    }
}
