//! Calls that the program does not make, for who uses the crate alone: a feed of the events of a
//! slice, and a run that is made whole. The program's events come from an `EventsLeft`, which keeps
//! steps of a task in a row once, or from a `GeneratedFeed`, which makes each as it is asked for.
ghost use Rattle.std.specs.Prelude.{◌≡◌, ◌≤◌, [], ◌∷◌, ◌++◌, length, All, IfOk, OnOk, OnErr};
ghost use Rattle.ipc_ids.specs.Tables.{most_events};
ghost use Rattle.script_reader.specs.Schedule.{IsOnTaskOf, MayAllCome};
ghost use Rattle.schedule_replay.specs.Generator.{generated_events, generated_plan};

use crate::feed::Feed;
use crate::generator::{event_of, generated_script, next_number};
use ipc_ids::{Event, NoMemory};
use script_reader::Script;
use std::alloc::Global;
use std::marker::Model;

/// The events of a slice. Contracts see the list of those that are left.
#[derive(Drop)]
pub struct SliceFeed<'a> {
    events: &'a [Event],
}

impl<'a> Model for SliceFeed<'a> {
    ghost use Rattle.std.specs.Prelude.{List};
    ghost use Rattle.ipc_ids.specs.declared.message.Event.{Event as Coming};

    ghost Value = { List Coming };

    ghost view = { λ feed. feed.events.now };
}

impl<'a> SliceFeed<'a> {
    /// A feed with all of these events left. Takes no memory.
    pub fn new(events: &'a [Event]) -> SliceFeed<'a>
        ensures { result ≡ events.now }
    {
        SliceFeed { events }
    }
}

impl<'a> Feed for SliceFeed<'a> {
    ghost left = { λ events. events };

    fn next(&mut self) -> Option<Event> {
        match self.events {
            [] => None,
            [event, rest @ ..] => {
                self.events = rest;
                Some(*event)
            }
        }
    }
}

/// Events in their order.
#[derive(Drop)]
pub struct Events {
    items: Vec<Event>,
}

impl Model for Events {
    ghost use Rattle.std.specs.Prelude.{List};
    ghost use Rattle.ipc_ids.specs.declared.message.Event.{Event};

    ghost Value = { List Event };

    ghost view = { λ events. events.items.items };
}

/// A script, and events on its tasks.
#[derive(Drop)]
pub struct Generated {
    pub script: Script,
    pub events: Events,
}

impl Events {
    /// No events. Takes no memory.
    pub fn new(alloc: Global) -> Events
        ensures { result ≡ [] }
    {
        Events {
            items: Vec::new(alloc),
        }
    }

    /// Adds an event at the end.
    ///
    /// # Errors
    ///
    /// `NoMemory` where no memory was found; no event is added then.
    pub fn push(&mut self, item: Event) -> Result<(), NoMemory>
        ensures ok { OnOk result (self.new ≡ self.old ++ item ∷ []) }
        ensures err { OnErr result (self.new ≡ self.old) }
    {
        match self.items.push(item) {
            Ok(()) => Ok(()),
            Err(_) => Err(NoMemory),
        }
    }

    /// The events in their order.
    pub fn as_slice(&self) -> &[Event]
        ensures { result.now ≡ self.now }
    {
        self.items.as_slice()
    }
}

#[tactic(auto, using(crate::proofs::GeneratedScript::one_event_more, crate::proofs::GeneratedScript::all_events_made))]
fn events_from(alloc: Global, seed: u64, count: u64) -> Result<Events, NoMemory>
    ensures { IfOk result (λ made. made ≡ generated_events seed count) }
{
    let mut events = Events::new(alloc);
    let mut number = seed;
    for _done in 0..count {
        number = next_number(number);
        events.push(event_of(number))?;
    }
    Ok(events)
}

/// A script of sixteen tasks, the same for every seed, and so many events on its tasks, at most
/// 65,536, which the seed determines: steps, and here and there a kill.
///
/// # Errors
///
/// `NoMemory` where no memory was found.
#[tactic(auto, using(crate::proofs::GeneratedScript::generated_on_tasks, crate::proofs::GeneratedScript::generated_may, crate::proofs::GeneratedScript::generated_events_count))]
pub fn generate(alloc: Global, seed: u64, events: u64) -> Result<Generated, NoMemory>
    requires { events ≤ most_events }
    ensures script { IfOk result (λ made. made.script ≡ generated_plan) }
    ensures events { IfOk result (λ made. made.events ≡ generated_events seed events) }
    ensures count { IfOk result (λ made. length made.events ≡ events) }
    ensures tasks { IfOk result (λ made. All (IsOnTaskOf made.script) made.events) }
    ensures may { IfOk result (λ made. MayAllCome (length made.script.tasks)
        (length made.script.templates) made.events) }
{
    let events = events_from(alloc, seed, events)?;
    let script = generated_script(alloc)?;
    Ok(Generated { script, events })
}
