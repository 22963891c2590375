//! Events, where steps of a task in a row are kept once.
ghost use Rattle.std.specs.Prelude.{◌≡◌, ◌<◌, ◌≤◌, ◌+◌, [], ◌∷◌, ◌++◌, length, replicate, true, false, IfOk, OnOk, OnErr, MatchOption};
ghost use Rattle.std.specs.Vec.{vec_len, vec_capacity};
ghost use Rattle.script_lines.specs.Draft.{last_of};
ghost use Rattle.script_reader.specs.Repeated.{events_of};

use ipc_ids::Event;
use std::alloc::{AllocError, Global};
use std::marker::Model;

/// An event that comes once, and so many times more.
#[derive(Clone, Copy)]
struct Repeated {
    event: Event,
    more: u64,
}

/// The events of a schedule. Steps of a task in a row are kept once.
#[derive(Drop)]
pub struct RepeatedEvents {
    parts: Vec<Repeated>,
    count: u64,
}

impl Model for RepeatedEvents {
    ghost use Rattle.std.specs.Prelude.{◌≡◌, List, length};
    ghost use Rattle.ipc_ids.specs.declared.message.Event.{Event as Coming};
    ghost use Rattle.script_reader.specs.Repeated.{events_of};

    ghost Value = { List Coming };

    ghost view = { λ events. events_of events.parts.items };

    ghost invariant = { λ events. events.count ≡ length (events_of events.parts.items) };
}

/// Whether both are steps of the same task.
#[inline(always)]
fn are_equal_steps(first: Event, second: Event) -> bool
    ensures { result ≡ true → first ≡ second }
{
    match (first, second) {
        (Event::Step(task), Event::Step(other)) => task.0 == other.0,
        _ => false,
    }
}

/// Adds so many of an event to the last one, where both are steps of the same task; whether they
/// are.
#[inline(always)]
fn lengthen(parts: &mut [Repeated], event: Event, times: u64) -> bool
    requires { length (events_of parts.old) + times ≤ 65536 }
    ensures longer { result ≡ true
        → events_of parts.new ≡ events_of parts.old ++ replicate times event }
    ensures unchanged { result ≡ false → parts.new ≡ parts.old }
{
    match parts.last_mut() {
        Some(last) if are_equal_steps(last.event, event) => {
            last.more += times;
            true
        }
        _ => false,
    }
}

/// Makes room for one more.
#[inline(always)]
fn make_room(parts: &mut Vec<Repeated>) -> Result<(), AllocError>
    ensures unchanged { parts.new.items ≡ parts.old.items }
    ensures room { OnOk result (vec_len parts.new < vec_capacity parts.new) }
{
    if parts.len() == parts.capacity() {
        parts.reserve(1)?;
    }
    Ok(())
}

/// Adds an event so many times: to the last one where both are steps of the same task, else behind
/// it.
#[inline(always)]
fn push_part(parts: &mut Vec<Repeated>, event: Event, times: u64) -> Result<(), AllocError>
    requires { length (events_of parts.old.items) + times ≤ 65536 }
    ensures more { IfOk result (λ _.
        events_of parts.new.items ≡ events_of parts.old.items ++ replicate times event) }
    ensures unchanged { OnErr result (parts.new.items ≡ parts.old.items) }
{
    if times == 0 || lengthen(parts, event, times) {
        return Ok(());
    }
    make_room(parts)?;
    parts.push_reserved(Repeated {
        event,
        more: times - 1,
    });
    Ok(())
}

impl RepeatedEvents {
    /// No events.
    pub(crate) fn new(alloc: Global) -> RepeatedEvents
        ensures { result ≡ [] }
    {
        RepeatedEvents {
            parts: Vec::new(alloc),
            count: 0,
        }
    }

    /// How many events there are.
    #[inline(always)]
    pub(crate) fn len(&self) -> u64
        ensures { result ≡ length self.now }
    {
        self.count
    }

    /// The last event; `None` where there is none.
    #[inline(always)]
    #[tactic(auto, using(crate::proofs::Repeats::last_is))]
    pub(crate) fn last(&self) -> Option<Event>
        ensures { result ≡ last_of self.now }
    {
        match self.parts.as_slice() {
            [.., last] => Some(last.event),
            [] => None,
        }
    }

    /// Adds an event so many times.
    #[inline(always)]
    pub(crate) fn push_times(&mut self, event: Event, times: u64) -> Result<(), AllocError>
        requires { length self.old + times ≤ 65536 }
        ensures { IfOk result (λ _. self.new ≡ self.old ++ replicate times event) }
    {
        push_part(&mut self.parts, event, times)?;
        self.count += times;
        Ok(())
    }

    /// The events one by one.
    pub(crate) fn to_vec(&self, alloc: Global) -> Result<Vec<Event>, AllocError>
        ensures { IfOk result (λ events. events.items ≡ self.now) }
    {
        let mut events = Vec::with_capacity(alloc, self.count as usize)?;
        let mut left = EventsLeft::new(self);
        while let Some(event) = left.take_first() {
            events.push(event)?;
        }
        Ok(events)
    }
}

/// Events of a schedule that are still to come. Contracts see the list of them.
#[derive(Drop)]
pub struct EventsLeft<'a> {
    parts: &'a [Repeated],
    /// How often the event of the first part was taken, which is not yet to its end.
    taken: u64,
}

impl<'a> Model for EventsLeft<'a> {
    ghost use Rattle.std.specs.Prelude.{List};
    ghost use Rattle.ipc_ids.specs.declared.message.Event.{Event as Coming};
    ghost use Rattle.script_reader.specs.Repeated.{events_left};

    ghost Value = { List Coming };

    ghost view = { λ left. events_left left.taken left.parts.now };
}

impl<'a> EventsLeft<'a> {
    /// All of these events. Takes no memory.
    pub fn new(events: &'a RepeatedEvents) -> EventsLeft<'a>
        ensures { result ≡ events.now }
    {
        EventsLeft {
            parts: events.parts.as_slice(),
            taken: 0,
        }
    }

    /// Takes the first event out; `None` where no event is left. Takes no memory.
    #[inline(always)]
    #[tactic(auto, using(crate::proofs::Repeats::one_taken, crate::proofs::Repeats::last_taken))]
    pub fn take_first(&mut self) -> Option<Event>
        ensures { MatchOption result
            ((self.old ≡ []) × (self.new ≡ []))
            (λ event. self.old ≡ event ∷ self.new) }
    {
        match self.parts {
            [] => None,
            [first, ..] if self.taken < first.more => {
                self.taken += 1;
                Some(first.event)
            }
            [first, rest @ ..] => {
                self.taken = 0;
                self.parts = rest;
                Some(first.event)
            }
        }
    }
}
