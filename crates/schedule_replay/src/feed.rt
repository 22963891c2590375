//! Events that come one after the other.
ghost use Rattle.std.specs.Prelude.{◌≡◌, [], ◌∷◌, List, MatchOption};
ghost use Rattle.ipc_ids.specs.declared.message.Event.{Event as Coming};

use ipc_ids::Event;
use script_reader::EventsLeft;

/// Events that are still to come.
pub trait Feed {
    /// The events that it has still to give, in their order.
    ghost left: { Self → List Coming };

    /// Takes the first event out; `None` where no event is left. Takes no memory.
    fn next(&mut self) -> Option<Event>
        ensures { MatchOption result
            ((left self.old ≡ []) × (left self.new ≡ []))
            (λ event. left self.old ≡ event ∷ left self.new) };
}

impl<'a> Feed for EventsLeft<'a> {
    ghost left = { λ events. events };

    fn next(&mut self) -> Option<Event> {
        self.take_first()
    }
}
