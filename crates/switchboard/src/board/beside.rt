//! Calls that the program does not make, for who has boxes, phones and areas, and no switchboard.
ghost use Rattle.std.specs.Prelude.{◌≡◌, length};
ghost use Rattle.switchboard.specs.State.{state_from};
ghost use Rattle.switchboard.specs.Counts.{HasCounts};
ghost use Rattle.switchboard.specs.Board.{IsSwitched};

use super::Switchboard;
use address_space::Spaces;
use answerbox::Boxes;
use phone_table::PhoneRows;

impl Switchboard {
    /// These tasks, with these phones, calls and areas.
    pub fn of(alive: Vec<bool>, phones: PhoneRows, boxes: Boxes, spaces: Spaces) -> Switchboard
        requires switched { IsSwitched alive.items phones.states phones.counts boxes.calls
            boxes.tasks }
        requires areas { length spaces.areas ≡ length alive.items }
        ensures state { result.state
            ≡ state_from alive.items phones.states boxes.calls spaces 0 }
        ensures spare { result.spare ≡ boxes.spare }
        ensures places { result.places ≡ boxes.tasks }
    {
        let places = alive.len() as u64;
        Switchboard {
            alive,
            phones,
            boxes,
            spaces,
            places,
            events: 0,
        }
    }

    /// The phones, the calls and the areas.
    pub fn into_parts(self) -> (PhoneRows, Boxes, Spaces)
        ensures phones { result.0.states ≡ self.state.tasks.phones }
        ensures calls { result.1.calls ≡ self.state.calls }
        ensures counts { HasCounts result.0.states result.0.counts result.1.calls }
        ensures areas { result.2 ≡ self.state.memory }
        ensures places { result.1.tasks ≡ self.places }
    {
        let Switchboard {
            phones,
            boxes,
            spaces,
            ..
        } = self;
        (phones, boxes, spaces)
    }
}
