//! The calls of `Boxes` that the program does not make, for who uses the answerboxes alone.
ghost use Rattle.std.specs.Prelude.{◌≡◌, length, ◌+◌, ◌^◌, ◌<◌, ◌≤◌, IsSome, IfSome, IfNone, None};
ghost use Rattle.answerbox.specs.Calls.{used, call_at, IsNumberOf, task_of, front, calls_of, without_call, without_caller, with_place, received, answered, answered_with, readdressed, with_change, next_of};
ghost use Rattle.call_slab.specs.Change.{changed};
ghost use Rattle.answerbox.specs.Change.{MayBring, gone};
ghost use Rattle.answerbox.specs.Places.{IsFound, IsFrontOf, HasNoCalls};
ghost use Rattle.answerbox.specs.Blanks.{Opens};

use crate::boxes::{Boxes, used_after};
use crate::chains::Chain;
use crate::found::Found;
use call_slab::{Call, Change, Place};
use ipc_ids::{Buffer, CallNo, Label, Msg, Reply, Steps, TaskNo};
use std::marker::Brand;
use std::sync::ledger::{Blank, Ledger};

impl Boxes {
    /// The live call with this number.
    fn found<L: Ledger>(&self, call: CallNo, steps: &mut Steps<L>) -> Found
        requires live { IsSome (call_at self.now.calls call.0) }
        ensures number { result.number ≡ call }
        ensures steps { steps.new ≡ steps.old + 1 }
    {
        let key = self.calls.key_of(call, steps).unwrap();
        Found {
            number: call,
            kept: key.kept(),
        }
    }

    /// The call that came first to this place; `None` where no call stands there.
    pub fn front<L: Ledger>(&self, place: Place, steps: &mut Steps<L>) -> Option<CallNo>
        requires task { task_of place ≤ self.now.tasks }
        ensures none { IfNone result (front self.now.calls place ≡ None) }
        ensures some { IfSome result (IsNumberOf self.now.calls (front self.now.calls place)) }
        ensures live { IfSome result (λ n. IsSome (call_at self.now.calls n.0)) }
        ensures least { IfSome result (λ n. IsFrontOf self.now.calls n.0 place) }
        ensures empty { IfNone result (HasNoCalls self.now.calls place) }
        ensures steps { steps.new ≤ steps.old + 2 }
    {
        match self.first_counted(place, steps) {
            Some(found) => Some(found.number),
            None => None,
        }
    }

    /// Gives the call what is in `change` and moves it to the end of that place.
    pub fn go<L: Ledger>(
        &mut self,
        call: CallNo,
        change: Change,
        place: Place,
        steps: &mut Steps<L>,
    )
        requires live { IsSome (call_at self.old.calls call.0) }
        requires task { task_of place ≤ self.old.tasks }
        requires few_bytes { MayBring (used self.old.calls) change }
        requires few_stamps { self.old.calls.next_stamp < 2 ^ 63 }
        ensures calls { self.new.calls ≡ gone self.old.calls call.0 (changed change) place }
        ensures tasks { self.new.tasks ≡ self.old.tasks }
        ensures spare { self.new.spare ≡ self.old.spare }
        ensures steps { steps.new ≤ steps.old + 16 }
    {
        let found = self.found(call, steps);
        self.go_by_counted(found, place, |_| (change, ()), steps);
    }

    /// Moves the call to the end of that place.
    pub fn move_to<L: Ledger>(&mut self, call: CallNo, place: Place, steps: &mut Steps<L>)
        requires live { IsSome (call_at self.old.calls call.0) }
        requires task { task_of place ≤ self.old.tasks }
        requires few_stamps { self.old.calls.next_stamp < 2 ^ 63 }
        ensures calls { self.new.calls ≡ with_place self.old.calls call.0 place }
        ensures tasks { self.new.tasks ≡ self.old.tasks }
        ensures spare { self.new.spare ≡ self.old.spare }
        ensures steps { steps.new ≤ steps.old + 16 }
    {
        // It keeps the reply that it has.
        let found = self.found(call, steps);
        self.go_by_counted(
            found,
            place,
            |record| (Change::Reply(record.reply), ()),
            steps,
        );
    }

    /// Gives the call the message and the reserved phone of its receipt and moves it to the end of
    /// that place.
    pub fn receive<L: Ledger>(
        &mut self,
        call: CallNo,
        msg: Msg,
        reserved: Option<Label>,
        place: Place,
        steps: &mut Steps<L>,
    )
        requires live { IsSome (call_at self.old.calls call.0) }
        requires task { task_of place ≤ self.old.tasks }
        requires few_stamps { self.old.calls.next_stamp < 2 ^ 63 }
        ensures calls { self.new.calls ≡ received self.old.calls call.0 msg reserved place }
        ensures tasks { self.new.tasks ≡ self.old.tasks }
        ensures spare { self.new.spare ≡ self.old.spare }
        ensures steps { steps.new ≤ steps.old + 16 }
    {
        self.go(call, Change::Receipt(msg, reserved), place, steps);
    }

    /// Gives the call its reply and a reserved phone and moves it to the end of that place.
    pub fn answer<L: Ledger>(
        &mut self,
        call: CallNo,
        reply: Reply,
        reserved: Option<Label>,
        place: Place,
        steps: &mut Steps<L>,
    )
        requires live { IsSome (call_at self.old.calls call.0) }
        requires task { task_of place ≤ self.old.tasks }
        requires few_stamps { self.old.calls.next_stamp < 2 ^ 63 }
        ensures calls { self.new.calls ≡ answered self.old.calls call.0 reply reserved place }
        ensures tasks { self.new.tasks ≡ self.old.tasks }
        ensures spare { self.new.spare ≡ self.old.spare }
        ensures steps { steps.new ≤ steps.old + 16 }
    {
        self.go(call, Change::Answer(reply, reserved), place, steps);
    }

    /// Gives the call its reply and these bytes and moves it to the end of that place.
    pub fn answer_with<L: Ledger>(
        &mut self,
        call: CallNo,
        reply: Reply,
        bytes: Buffer,
        place: Place,
        steps: &mut Steps<L>,
    )
        requires live { IsSome (call_at self.old.calls call.0) }
        requires task { task_of place ≤ self.old.tasks }
        requires few_bytes { used self.old.calls + length bytes < 2 ^ 63 }
        requires few_stamps { self.old.calls.next_stamp < 2 ^ 63 }
        ensures calls { self.new.calls ≡ answered_with self.old.calls call.0 reply bytes place }
        ensures tasks { self.new.tasks ≡ self.old.tasks }
        ensures spare { self.new.spare ≡ self.old.spare }
        ensures steps { steps.new ≤ steps.old + 16 }
    {
        self.go(call, Change::AnswerWith(reply, bytes), place, steps);
    }

    /// Gives the call another message, label and reserved phone and moves it to the end of that
    /// place.
    pub fn readdress<L: Ledger>(
        &mut self,
        call: CallNo,
        msg: Msg,
        label: Label,
        reserved: Option<Label>,
        place: Place,
        steps: &mut Steps<L>,
    )
        requires live { IsSome (call_at self.old.calls call.0) }
        requires task { task_of place ≤ self.old.tasks }
        requires few_stamps { self.old.calls.next_stamp < 2 ^ 63 }
        ensures calls { self.new.calls ≡
            readdressed self.old.calls call.0 msg label reserved place }
        ensures tasks { self.new.tasks ≡ self.old.tasks }
        ensures spare { self.new.spare ≡ self.old.spare }
        ensures steps { steps.new ≤ steps.old + 16 }
    {
        self.go(call, Change::Address(msg, label, reserved), place, steps);
    }

    /// Removes the call and returns its record.
    pub fn leave<L: Ledger>(&mut self, call: CallNo, steps: &mut Steps<L>) -> Call
        requires live { IsSome (call_at self.old.calls call.0) }
        ensures call { call_at self.old.calls call.0 ≡ Some result }
        ensures number { result.number ≡ call }
        ensures calls { self.new.calls ≡ without_call self.old.calls call.0 }
        ensures tasks { self.new.tasks ≡ self.old.tasks }
        ensures spare { self.old.spare ≤ self.new.spare }
        ensures steps { steps.new ≤ steps.old + 16 }
    {
        let found = self.found(call, steps);
        self.leave_counted(found, steps)
    }

    /// Gives the call what is in `change` where it stands.
    fn give<L: Ledger>(&mut self, call: CallNo, change: Change, blank: Blank)
        requires blank { Opens L.name L.parts blank.name blank.parts }
        requires live { IsSome (call_at self.old.calls call.0) }
        requires few_bytes { MayBring (used self.old.calls) change }
        ensures calls { self.new.calls ≡ with_change self.old.calls call.0 (changed change) }
        ensures tasks { self.new.tasks ≡ self.old.tasks }
        ensures spare { self.new.spare ≡ self.old.spare }
    {
        let mut steps = Steps::<L>::new(blank);
        let key = self.calls.key_of(call, &mut steps).unwrap();
        let used = used_after(self.used, self.calls.get(key, &mut steps), &change);
        self.calls.change(key, change, &mut steps);
        self.used = used;
    }

    /// Gives the call another message and label.
    pub fn set_msg(&mut self, call: CallNo, msg: Msg, label: Label)
        requires live { IsSome (call_at self.old.calls call.0) }
        ensures calls { self.new.calls ≡ with_change self.old.calls call.0
            (λ c. record c { msg = msg; label = label }) }
        ensures tasks { self.new.tasks ≡ self.old.tasks }
        ensures spare { self.new.spare ≡ self.old.spare }
    {
        self.give::<Brand>(call, Change::Message(msg, label), Blank::new(1));
    }

    /// Gives the call another request.
    pub fn set_request(&mut self, call: CallNo, request: Msg)
        requires live { IsSome (call_at self.old.calls call.0) }
        ensures calls { self.new.calls ≡ with_change self.old.calls call.0
            (λ c. record c { request = request }) }
        ensures tasks { self.new.tasks ≡ self.old.tasks }
        ensures spare { self.new.spare ≡ self.old.spare }
    {
        self.give::<Brand>(call, Change::Request(request), Blank::new(1));
    }

    /// Gives the call this reply.
    pub fn set_reply(&mut self, call: CallNo, reply: Reply)
        requires live { IsSome (call_at self.old.calls call.0) }
        ensures calls { self.new.calls ≡ with_change self.old.calls call.0
            (λ c. record c { reply = reply }) }
        ensures tasks { self.new.tasks ≡ self.old.tasks }
        ensures spare { self.new.spare ≡ self.old.spare }
    {
        self.give::<Brand>(call, Change::Reply(reply), Blank::new(1));
    }

    /// Gives the call another reserved phone, or none.
    pub fn set_reserved(&mut self, call: CallNo, phone: Option<Label>)
        requires live { IsSome (call_at self.old.calls call.0) }
        ensures calls { self.new.calls ≡ with_change self.old.calls call.0
            (λ c. record c { reserved = phone }) }
        ensures tasks { self.new.tasks ≡ self.old.tasks }
        ensures spare { self.new.spare ≡ self.old.spare }
    {
        self.give::<Brand>(call, Change::Reserved(phone), Blank::new(1));
    }

    /// Gives the call other bytes.
    pub fn set_buffer(&mut self, call: CallNo, bytes: Buffer)
        requires live { IsSome (call_at self.old.calls call.0) }
        requires few_bytes { used self.old.calls + length bytes < 2 ^ 63 }
        ensures calls { self.new.calls ≡ with_change self.old.calls call.0
            (λ c. record c { buffer = bytes }) }
        ensures tasks { self.new.tasks ≡ self.old.tasks }
        ensures spare { self.new.spare ≡ self.old.spare }
    {
        self.give::<Brand>(call, Change::Bytes(bytes), Blank::new(1));
    }

    /// Clears the caller of the call, which has ended.
    pub fn forget(&mut self, call: CallNo)
        requires live { IsSome (call_at self.old.calls call.0) }
        ensures calls { self.new.calls ≡ without_caller self.old.calls call.0 }
        ensures tasks { self.new.tasks ≡ self.old.tasks }
        ensures spare { self.new.spare ≡ self.old.spare }
    {
        let found = self.find(call).unwrap();
        self.lose_caller(found);
    }

    /// The least number of a live call of that caller; `None` where it has no live call.
    pub fn calls_of(&self, caller: TaskNo) -> Option<CallNo>
        requires task { caller.0 ≤ self.now.tasks }
        ensures none { IfNone result (calls_of self.now.calls caller ≡ None) }
        ensures some { IfSome result (IsNumberOf self.now.calls (calls_of self.now.calls caller)) }
        ensures live { IfSome result (λ n. IsSome (call_at self.now.calls n.0)) }
    {
        match self.first_of(caller) {
            Some(found) => Some(found.number),
            None => None,
        }
    }

    /// The least greater number of a live call of the same caller; `None` where there is none.
    pub fn next_of(&self, call: CallNo) -> Option<CallNo>
        requires live { IsSome (call_at self.now.calls call.0) }
        requires caller { IfSome (call_at self.now.calls call.0) (λ c. IsSome c.caller) }
        ensures none { IfNone result (next_of self.now.calls call.0 ≡ None) }
        ensures some { IfSome result (IsNumberOf self.now.calls (next_of self.now.calls call.0)) }
        ensures live { IfSome result (λ n. IsSome (call_at self.now.calls n.0)) }
    {
        self.next_of_with::<Brand>(call, Blank::new(1))
    }

    fn next_of_with<L: Ledger>(&self, call: CallNo, blank: Blank) -> Option<CallNo>
        requires blank { Opens L.name L.parts blank.name blank.parts }
        requires live { IsSome (call_at self.now.calls call.0) }
        requires caller { IfSome (call_at self.now.calls call.0) (λ c. IsSome c.caller) }
        ensures { IsFound self.now.calls (next_of self.now.calls call.0) result }
    {
        let mut steps = Steps::<L>::new(blank);
        let key = self.calls.key_of(call, &mut steps).unwrap();
        let links = self.calls.links(key, &mut steps);
        match Chain::Own.next(&links) {
            Some(next) => Some(self.calls.get(next, &mut steps).number),
            None => None,
        }
    }
}
