//! The tasks, their phones, their calls and their areas, with room for more calls.
ghost use Rattle.std.specs.Prelude.{◌≡◌, ◌+◌, ◌-◌, ◌^◌, ◌<◌, ◌≤◌, ◌++◌, ◌∷◌, [], replicate, true, Some, None, IsSome, IfSome, IfNone, IfOk, OnOk, OnErr, length};
ghost use Rattle.ipc_ids.specs.Tables.{most_buffered};
ghost use Rattle.address_space.specs.Memory.{with_task as with_areas, Tells};
ghost use Rattle.share_hooks.specs.ShareMoments.{out_before_send};
ghost use Rattle.switchboard.specs.Sharing.{share_step};
ghost use Rattle.data_hooks.specs.DataMoments.{write_before_send, write_accept, read_accept, read_deliver};
ghost use Rattle.answerbox.specs.Places.{IsAt};
ghost use Rattle.answerbox.specs.Calls.{used, call_at, task_of, enqueue, without_call, received, without_caller, active_calls, front, calls_of, calls_at, calls_by};
ghost use Rattle.phone_table.specs.Phones.{hangup_answer};
ghost use Rattle.switchboard.specs.State.{start, is_alive, phone_at, live_calls, with_calls, with_memory, with_phone, with_task, with_event, width, mark_ended};
ghost use Rattle.call_slab.specs.declared.call.Place.TheVariants.{Dispatched, Answers};
ghost use Rattle.switchboard.specs.Joins.{new_call, code_of};
ghost use Rattle.switchboard.specs.Kept.{IsLoose, MayReserve, accepts, kept_phone, lent_phone, with_kept, first_usable_of, or_refused};
ghost use Rattle.switchboard.specs.Counts.{AreNumbered};
ghost use Rattle.switchboard.specs.Board.{IsPending, IsCallOf, IsLimit, IsAdded, IsHeldBy, IsNewCall, HasPlaces, LeadsToAdded, TellsAdded, with_hung, with_bytes, with_declined, with_passed, with_reply};
ghost use Rattle.phone_table.specs.Usable.{IsConnected};
ghost use Rattle.switchboard.specs.Rooms.{KeepsCalls, KeepsRoom};

mod beside;

use crate::counts::{count_out, count_up};
use crate::kept::{kept_phone, lent_phone, phone_in, unless_freed};
use crate::phones::{connect_to_answerer, hang_phone, slam_phone, width};
use crate::sharing::Share;
use address_space::{SpaceFault, Spaces};
use answerbox::{Boxes, Found};
use call_slab::{Call, Change, Place};
use connect_hooks::{accept_to_me, before_send, on_receive, release};
use data_hooks::{read_accept, read_deliver, write_accept, write_before_send};
use ipc_ids::{
    Buffer, CallNo, Code, Label, MethodKind, Msg, NoMemory, PhoneNo, PhoneState, Reply, StoreNo,
    TaskNo,
};
use phone_table::{Hung, PhoneRows, Phones};
use share_hooks::{in_accept, out_accept, out_before_send};
use std::alloc::Global;
use std::marker::Model;

/// The phones, the calls and the areas of all tasks, with room for `spare` more calls.
#[derive(Drop)]
pub struct Switchboard {
    alive: Vec<bool>,
    phones: PhoneRows,
    boxes: Boxes,
    pub(crate) spaces: Spaces,
    // How many tasks have places in the boxes: one more than there are where an addition wanted
    // memory half way.
    places: u64,
    events: u64,
}

impl Model for Switchboard {
    ghost use Rattle.call_slab.specs.contracts.call.Call as call;
    ghost use Rattle.ipc_ids.specs.contracts.message.PhoneState as phone;
    ghost use Rattle.switchboard.specs.State.{BoardState, board_code, state_from};
    ghost use Rattle.std.specs.Prelude.{length};
    ghost use Rattle.switchboard.specs.Board.{IsSwitched, IsHoused};

    ghost Value = { BoardState };

    ghost coded = { board_code phone.the_row.coded call.the_row.coded };

    ghost view = { λ a. record {
      state = state_from a.alive.items a.phones.states a.boxes.calls a.spaces
          a.events;
      spare = a.boxes.spare;
      places = a.boxes.tasks;
    } };

    ghost invariant = { λ a. IsSwitched a.alive.items a.phones.states a.phones.counts a.boxes.calls
        a.boxes.tasks × IsHoused (length a.alive.items) a.places a.boxes.tasks
        (length a.spaces.areas) };
}

impl Switchboard {
    /// No tasks.
    pub fn new(alloc: Global) -> Switchboard
        ensures { result.state ≡ start }
    {
        Switchboard {
            alive: Vec::new(alloc),
            phones: PhoneRows::new(alloc),
            boxes: Boxes::new(alloc),
            spaces: Spaces::new(alloc),
            places: 0,
            events: 0,
        }
    }

    /// Who is alive, from the first task on.
    pub fn alive(&self) -> &[bool]
        ensures { result.now ≡ self.now.state.tasks.alive }
    {
        self.alive.as_slice()
    }

    /// The phones of all tasks.
    pub fn phones(&self) -> &PhoneRows
        ensures states { result.now.states ≡ self.now.state.tasks.phones }
        ensures rows { length result.now.states ≡ length self.now.state.tasks.alive }
    {
        &self.phones
    }

    /// The calls of all tasks.
    pub fn boxes(&self) -> &Boxes
        ensures { result.now.calls ≡ self.now.state.calls }
    {
        &self.boxes
    }

    /// The areas of all tasks.
    pub fn spaces(&self) -> &Spaces
        ensures memory { result.now ≡ self.now.state.memory }
        ensures rows { length result.now.areas ≡ length self.now.state.tasks.alive }
    {
        &self.spaces
    }

    /// Adds a task with so many free phones.
    pub fn add_task(&mut self, limit: u32) -> Result<TaskNo, NoMemory>
        requires limit { IsLimit limit }
        requires few_tasks { length self.old.state.tasks.alive < 64 }
        ensures ok { OnOk result (self.new.state ≡ with_task self.old.state limit) }
        ensures number { IfOk result (λ t. t.0 ≡ length self.old.state.tasks.alive + 1) }
        ensures err { OnErr result (self.new.state ≡ self.old.state) }
    {
        match self.alive.reserve(1) {
            Ok(()) => {}
            Err(_) => return Err(NoMemory),
        }
        let number = TaskNo(self.phones.tasks() + 1);
        add_place(&mut self.boxes, &mut self.places, self.alive.len() as u64)?;
        add_row(&mut self.phones, &mut self.spaces, limit)?;
        self.alive.push_reserved(true);
        Ok(number)
    }

    /// A free phone leads to that task from now on.
    pub fn wire(&mut self, t: TaskNo, phone: PhoneNo, to: TaskNo)
        requires added { IsAdded self.old.state t }
        requires target { IsAdded self.old.state to }
        requires free { phone_at self.old.state t phone.0 ≡ Some PhoneState.Free }
        ensures { self.new.state ≡ with_phone self.old.state t phone.0 (PhoneState.Connected to) }
    {
        self.phones.row_mut(t).wire(phone, to);
    }

    /// How many events there were.
    pub fn events(&self) -> u64
        ensures { result ≡ self.now.state.events }
    {
        self.events
    }

    /// There was one event more.
    pub fn count_event(&mut self)
        requires { self.old.state.events < 2 ^ 63 }
        ensures state { self.new.state ≡ with_event self.old.state }
    {
        self.events += 1;
    }

    /// How many active calls the phone has.
    pub fn active(&self, from: Label) -> u32
        requires added { IsAdded self.now.state from.task }
        requires there { IsSome (phone_at self.now.state from.task from.phone.0) }
        ensures { result ≡ active_calls self.now.state.calls from }
    {
        self.phones.row(from.task).active(from.phone)
    }

    /// Makes room for so many more calls.
    #[inline(always)]
    pub fn reserve(&mut self, calls: usize) -> Result<(), NoMemory>
        ensures state { self.new.state ≡ self.old.state }
        ensures room { OnOk result (calls ≤ self.new.spare) }
    {
        if calls == 0 {
            return Ok(());
        }
        self.boxes.reserve(calls)
    }

    /// Whether this is the number of a task that has not ended.
    pub fn is_alive(&self, t: TaskNo) -> bool
        ensures { result ≡ is_alive self.now.state t }
    {
        if t.0 == 0 {
            return false;
        }
        self.alive.get(t.0 as usize - 1).copied().unwrap_or(false)
    }

    /// The number of the next call, from 1 on. There are fewer live calls than that.
    pub fn next_number(&self) -> CallNo
        ensures number { result.0 ≡ self.now.state.calls.next_number }
        ensures free { call_at self.now.state.calls self.now.state.calls.next_number ≡ None }
        ensures few { live_calls self.now.state < self.now.state.calls.next_number }
        ensures numbered { AreNumbered self.now.state.calls }
    {
        self.boxes.next_number()
    }

    /// Reads the next number, so that a proof learns that no live call has it, and that there are
    /// fewer live calls than that.
    pub fn check_numbers(&self)
        ensures free { call_at self.now.state.calls self.now.state.calls.next_number ≡ None }
        ensures few { live_calls self.now.state < self.now.state.calls.next_number }
        ensures numbered { AreNumbered self.now.state.calls }
    {
        let _next = self.boxes.next_number();
    }

    /// Finds the live call with this number; `None` exactly where no live call has it.
    pub fn find(&self, call: CallNo) -> Option<Found>
        ensures live { IfSome result
            (λ found. IsSome (call_at self.now.state.calls found.number.0)) }
        ensures number { IfSome result (λ found. found.number ≡ call) }
        ensures none { IfNone result (call_at self.now.state.calls call.0 ≡ None) }
    {
        self.boxes.find(call)
    }

    /// The record of the call.
    #[inline(always)]
    pub fn read(&self, found: Found) -> &Call
        requires live { IsSome (call_at self.now.state.calls found.number.0) }
        ensures call { call_at self.now.state.calls found.number.0 ≡ Some result.now }
        ensures number { result.now.number ≡ found.number }
    {
        self.boxes.read(found)
    }

    /// The call that came first to this place.
    pub fn front(&self, place: Place) -> Option<Found>
        requires { task_of place ≤ length self.now.state.tasks.alive }
        ensures none { IfNone result (front self.now.state.calls place ≡ None) }
        ensures some { IfSome result (λ found. front self.now.state.calls place
            ≡ call_at self.now.state.calls found.number.0) }
        ensures live { IfSome result (λ found. IsSome (call_at self.now.state.calls found.number.0)) }
        ensures there { IfSome result (λ found. IsAt self.now.state.calls found.number.0 place) }
    {
        self.boxes.first(place)
    }

    /// How many live calls stand at this place.
    pub fn calls_at(&self, place: Place) -> usize
        ensures calls { result ≡ calls_at self.now.state.calls place }
        ensures few { result ≤ live_calls self.now.state }
    {
        self.boxes.calls_at(place)
    }

    /// How many live calls that caller made.
    pub fn calls_by(&self, caller: TaskNo) -> usize
        ensures { result ≡ calls_by self.now.state.calls caller }
    {
        self.boxes.calls_by(caller)
    }

    /// The live call of that caller with the least number.
    pub fn calls_of(&self, caller: TaskNo) -> Option<Found>
        requires { caller.0 ≤ length self.now.state.tasks.alive }
        ensures none { IfNone result (calls_of self.now.state.calls caller ≡ None) }
        ensures some { IfSome result (λ found. calls_of self.now.state.calls caller
            ≡ call_at self.now.state.calls found.number.0) }
        ensures live { IfSome result (λ found. IsSome (call_at self.now.state.calls found.number.0)) }
    {
        self.boxes.first_of(caller)
    }

    /// A new call over that phone, which is bound for a place.
    pub fn new_call(&self, from: Label, msg: &Msg, place: Place) -> Call
        ensures call { result ≡ new_call self.now.state from.task from.phone.0 msg.now place }
        ensures few { used self.now.state.calls ≤ most_buffered }
    {
        Call {
            number: self.boxes.next_number(),
            caller: Some(from.task),
            from,
            label: from,
            request: *msg,
            msg: *msg,
            reply: Reply::bare(Code::EOK),
            discard: false,
            buffer: Buffer::new(self.boxes.alloc()),
            reserved: None,
            place,
            stamp: 0,
        }
    }

    /// A new call goes to the end of its place. There is room for it.
    #[inline(always)]
    pub(crate) fn enqueue(&mut self, call: Call)
        requires new_call { IsNewCall self.old.state call }
        requires room { 0 < self.old.spare }
        requires few_calls { self.old.state.calls.next_number < 2 ^ 63 }
        requires few_stamps { self.old.state.calls.next_stamp < 2 ^ 63 }
        ensures state { self.new.state
            ≡ with_calls self.old.state (enqueue self.old.state.calls call) }
        ensures room { KeepsRoom self.old self.new 1 }
    {
        let _number = self.boxes.next_number();
        count_up(&mut self.phones, call.from);
        self.boxes.enqueue(call);
    }

    /// The call is over.
    #[inline(always)]
    pub(crate) fn leave(&mut self, found: Found) -> Call
        requires live { IsSome (call_at self.old.state.calls found.number.0) }
        ensures call { call_at self.old.state.calls found.number.0 ≡ Some result }
        ensures number { result.number ≡ found.number }
        ensures loose { IsLoose self.new.state (kept_phone result) }
        ensures state { self.new.state
            ≡ with_calls self.old.state (without_call self.old.state.calls found.number.0) }
        ensures room { KeepsRoom self.old self.new 0 }
    {
        let call = self.boxes.leave_uncounted(found);
        count_out(&mut self.phones, call.caller, call.from);
        call
    }

    /// The caller of the call has ended.
    pub(crate) fn lose_caller(&mut self, found: Found)
        requires live { IsSome (call_at self.old.state.calls found.number.0) }
        ensures state { self.new.state
            ≡ with_calls self.old.state (without_caller self.old.state.calls found.number.0) }
        ensures number { IfSome (call_at self.old.state.calls found.number.0)
            (λ c. c.number ≡ found.number) }
        ensures room { KeepsRoom self.old self.new 0 }
    {
        let record = self.boxes.read(found);
        let (caller, from) = (record.caller, record.from);
        self.boxes.lose_caller(found);
        count_out(&mut self.phones, caller, from);
    }

    /// The call is received by that task as this message, with this phone reserved. Returns the
    /// label that the task sees.
    pub(crate) fn dispatch(
        &mut self,
        found: Found,
        msg: Msg,
        reserved: Option<Label>,
        by: TaskNo,
    ) -> Label
        requires live { IsSome (call_at self.old.state.calls found.number.0) }
        requires added { IsAdded self.old.state by }
        requires reserved { MayReserve self.old.state (call_at self.old.state.calls found.number.0)
            reserved by }
        requires few_stamps { self.old.state.calls.next_stamp < 2 ^ 63 }
        ensures number { IfSome (call_at self.old.state.calls found.number.0)
            (λ c. c.number ≡ found.number) }
        ensures label { IfSome (call_at self.old.state.calls found.number.0)
            (λ c. c.label ≡ result) }
        ensures state { self.new.state ≡ with_calls self.old.state
            (received self.old.state.calls found.number.0 msg reserved (Dispatched by)) }
        ensures room { KeepsRoom self.old self.new 0 }
    {
        self.boxes.go_by(found, Place::Dispatched(by), |record| {
            (Change::Receipt(msg, reserved), record.label)
        })
    }

    /// The call takes a reply that does not accept to the answers of its caller. Returns the phone
    /// that its holder kept for it, which no call keeps any more.
    pub(crate) fn decline(&mut self, found: Found, reply: Reply, caller: TaskNo) -> Option<Label>
        requires pending { IsPending (call_at self.old.state.calls found.number.0) }
        requires called { IsCallOf (call_at self.old.state.calls found.number.0) caller }
        requires alive { is_alive self.old.state caller ≡ true }
        requires few_stamps { self.old.state.calls.next_stamp < 2 ^ 63 }
        ensures lent { IfSome (call_at self.old.state.calls found.number.0)
            (λ c. lent_phone c ≡ result) }
        ensures loose { IsLoose self.new.state result }
        ensures state { self.new.state ≡ with_calls self.old.state
            (with_declined self.old.state.calls found.number.0 reply caller) }
        ensures room { KeepsRoom self.old self.new 0 }
    {
        self.boxes.go_by(found, Place::Answers(caller), |record| {
            let lent = lent_phone(record);
            let left = unless_freed(lent, record.reserved);
            (Change::Answer(reply, left), lent)
        })
    }

    /// How many phones the task has.
    pub fn width(&self, t: TaskNo) -> u64
        requires added { IsAdded self.now.state t }
        ensures width { result ≡ width self.now.state.tasks.phones t.0 }
        ensures few { result ≤ 64 }
    {
        width(t, &self.phones)
    }

    /// How many tasks there are.
    pub fn tasks(&self) -> u64
        ensures tasks { result ≡ length self.now.state.tasks.alive }
        ensures phones { result ≡ length self.now.state.tasks.phones }
    {
        self.phones.tasks()
    }

    /// The state of a phone; `None` where the task has no such phone.
    pub fn phone(&self, t: TaskNo, phone: u64) -> Option<PhoneState>
        requires added { IsAdded self.now.state t }
        ensures state { result ≡ phone_at self.now.state t phone }
        ensures few { IfSome result (λ _. phone < 64) }
        ensures leads { IfSome result (LeadsToAdded self.now.state) }
    {
        self.phones.row(t).state(phone)
    }

    /// Hangs the phone up, where it leads or led to a task, and says whom to tell.
    pub(crate) fn hang_phone(&mut self, from: Label) -> Result<Hung, Code>
        requires added { IsAdded self.old.state from.task }
        ensures answer { result
            ≡ hangup_answer (phone_at self.old.state from.task from.phone.0) }
        ensures state { self.new.state
            ≡ with_hung self.old.state from.task from.phone.0 result }
        ensures tells { TellsAdded self.new.state result }
        ensures there { OnOk result (IsSome (phone_at self.new.state from.task from.phone.0)) }
        ensures room { KeepsRoom self.old self.new 0 }
    {
        hang_phone(from, &mut self.phones)
    }

    /// The phone, which leads to a task, is slammed.
    pub(crate) fn slam_phone(&mut self, phone: Label)
        requires added { IsAdded self.old.state phone.task }
        requires leads { IsConnected (phone_at self.old.state phone.task phone.phone.0) }
        ensures state { self.new.state
            ≡ with_phone self.old.state phone.task phone.phone.0 PhoneState.Slammed }
        ensures room { KeepsRoom self.old self.new 0 }
    {
        slam_phone(phone.task, phone.phone, &mut self.phones);
    }

    /// The task is marked as ended.
    pub fn mark_ended(&mut self, who: TaskNo)
        requires added { IsAdded self.old.state who }
        ensures state { self.new.state ≡ mark_ended self.old.state who }
        ensures room { KeepsRoom self.old self.new 0 }
    {
        self.alive[who.0 as usize - 1] = false;
    }

    /// The call goes on to that task as this message, seen from that phone. Returns the phone that
    /// its holder kept for it, which no call keeps any more.
    pub(crate) fn readdress(
        &mut self,
        found: Found,
        msg: Msg,
        label: Label,
        to: TaskNo,
    ) -> Option<Label>
        requires pending { IsPending (call_at self.old.state.calls found.number.0) }
        requires added { to.0 ≤ length self.old.state.tasks.alive }
        requires few_stamps { self.old.state.calls.next_stamp < 2 ^ 63 }
        ensures lent { IfSome (call_at self.old.state.calls found.number.0)
            (λ c. lent_phone c ≡ result) }
        ensures loose { IsLoose self.new.state result }
        ensures state { self.new.state ≡ with_calls self.old.state
            (with_passed self.old.state.calls found.number.0 msg label to) }
        ensures room { KeepsRoom self.old self.new 0 }
    {
        self.boxes.go_by(found, Place::Incoming(to), |record| {
            let lent = lent_phone(record);
            let left = unless_freed(lent, record.reserved);
            (Change::Address(msg, label, left), lent)
        })
    }

    /// Keeps the caller's first usable phone, before a CONNECT_ME_TO is sent.
    ///
    /// # Errors
    ///
    /// `ELIMIT` where no phone is usable; then nothing has changed.
    pub fn keep_to_send(&mut self, t: TaskNo) -> Result<Label, Code>
        requires added { IsAdded self.old.state t }
        ensures answer { result ≡ or_refused (first_usable_of self.old.state t) }
        ensures loose { IsLoose self.new.state (first_usable_of self.old.state t) }
        ensures state { self.new.state ≡ with_kept self.old.state
            (first_usable_of self.old.state t) PhoneState.Connecting }
        ensures keeps { KeepsCalls self.old self.new }
    {
        before_send(self.phones.row_mut(t)).map(|phone| Label { task: t, phone })
    }

    /// Keeps the receiver's first usable phone, as a CONNECT_TO_ME is received; `None` where no
    /// phone is usable.
    pub fn keep_to_receive(&mut self, t: TaskNo) -> Option<Label>
        requires added { IsAdded self.old.state t }
        ensures answer { result ≡ first_usable_of self.old.state t }
        ensures loose { IsLoose self.new.state (first_usable_of self.old.state t) }
        ensures state { self.new.state ≡ with_kept self.old.state
            (first_usable_of self.old.state t) PhoneState.Connecting }
        ensures keeps { KeepsCalls self.old self.new }
    {
        on_receive(self.phones.row_mut(t)).map(|phone| Label { task: t, phone })
    }

    /// The CONNECT_TO_ME that task `t` holds takes an accepting reply to the answers of its caller,
    /// and the phone that it keeps leads there. Returns that phone and the code of the answer.
    pub(crate) fn connect_to_caller(
        &mut self,
        found: Found,
        reply: &Reply,
        t: TaskNo,
        caller: TaskNo,
    ) -> (Option<Label>, Code)
        requires held { IsHeldBy (call_at self.old.state.calls found.number.0)
            MethodKind.ConnectToMe t caller }
        requires added { IsAdded self.old.state t }
        requires alive { is_alive self.old.state caller ≡ true }
        requires few_stamps { self.old.state.calls.next_stamp < 2 ^ 63 }
        ensures kept { IfSome (call_at self.old.state.calls found.number.0)
            (λ c. kept_phone c ≡ result.0) }
        ensures code { result.1 ≡ code_of result.0 }
        ensures state { self.new.state ≡ with_calls
            (with_kept self.old.state result.0 (PhoneState.Connected caller))
            (with_reply self.old.state.calls found.number.0
            (record { code = result.1; args = reply.now.args }) caller) }
        ensures room { KeepsRoom self.old self.new 0 }
    {
        let kept = kept_phone(self.boxes.read(found));
        let code = accept_to_me(self.phones.row_mut(t), phone_in(kept), caller);
        let (args, place) = (reply.args, Place::Answers(caller));
        let change = Change::Reply(Reply { code, args });
        self.boxes.go_uncounted(found, change, place);
        (kept, code)
    }

    /// The CONNECT_ME_TO that task `t` holds takes an accepting reply to the answers of its caller,
    /// and the phone that it keeps leads to `t`. Returns that phone.
    pub(crate) fn connect_to_answerer(
        &mut self,
        found: Found,
        reply: &Reply,
        t: TaskNo,
        caller: TaskNo,
    ) -> Option<Label>
        requires held { IsHeldBy (call_at self.old.state.calls found.number.0)
            MethodKind.ConnectMeTo t caller }
        requires added { IsAdded self.old.state t }
        requires accepts { accepts reply.now.code ≡ true }
        requires alive { is_alive self.old.state caller ≡ true }
        requires few_stamps { self.old.state.calls.next_stamp < 2 ^ 63 }
        ensures kept { IfSome (call_at self.old.state.calls found.number.0)
            (λ c. kept_phone c ≡ result) }
        ensures state { self.new.state ≡ with_calls
            (with_kept self.old.state result (PhoneState.Connected t))
            (with_reply self.old.state.calls found.number.0 reply.now caller) }
        ensures room { KeepsRoom self.old self.new 0 }
    {
        let kept = self.boxes.go_by(found, Place::Answers(caller), |record| {
            (Change::Reply(*reply), kept_phone(record))
        });
        connect_to_answerer(kept, t, &mut self.phones);
        kept
    }

    /// The call takes the reply to the answers of its caller, and what it reserves stays.
    #[inline(always)]
    pub(crate) fn answer(&mut self, found: Found, reply: &Reply, caller: TaskNo)
        requires called { IsCallOf (call_at self.old.state.calls found.number.0) caller }
        requires unkept { IfSome (call_at self.old.state.calls found.number.0)
            (λ c. kept_phone (record c { reply = reply.now; place = Answers caller }) ≡ None) }
        requires alive { is_alive self.old.state caller ≡ true }
        requires few_stamps { self.old.state.calls.next_stamp < 2 ^ 63 }
        ensures state { self.new.state ≡ with_calls self.old.state
            (with_reply self.old.state.calls found.number.0 reply.now caller) }
        ensures room { KeepsRoom self.old self.new 0 }
    {
        let place = Place::Answers(caller);
        self.boxes.go_uncounted(found, Change::Reply(*reply), place);
    }

    /// The bytes of the caller that a DATA_WRITE with these arguments carries.
    ///
    /// # Errors
    ///
    /// `Refused` with the code with which the call is answered at once; `NoMemory`.
    pub fn bytes_to_send(&self, caller: TaskNo, args: &[u64; 5]) -> Result<Buffer, SpaceFault>
        requires added { IsAdded self.now.state caller }
        ensures told { Tells result (write_before_send self.now.state.memory caller args.now
            (used self.now.state.calls)) }
        ensures fits { IfOk result (λ bytes. used self.now.state.calls + length bytes
            ≤ most_buffered) }
    {
        let used = self.boxes.used();
        write_before_send(self.boxes.alloc(), &self.spaces, caller, args, used)
    }

    /// Writes the bytes that the call carries to the task, where the reply says.
    ///
    /// # Errors
    ///
    /// The code of the refusal; then nothing has changed.
    pub(crate) fn write_held(
        &mut self,
        found: Found,
        reply: &Reply,
        t: TaskNo,
    ) -> Result<Option<StoreNo>, Code>
        requires live { IsSome (call_at self.old.state.calls found.number.0) }
        requires added { IsAdded self.old.state t }
        ensures told { IfSome (call_at self.old.state.calls found.number.0) (λ c. result
            ≡ (write_accept self.old.state.memory t c.buffer reply.now).told) }
        ensures state { IfSome (call_at self.old.state.calls found.number.0) (λ c. self.new.state
            ≡ with_memory self.old.state
            (write_accept self.old.state.memory t c.buffer reply.now).memory) }
        ensures keeps { KeepsCalls self.old self.new }
    {
        let record = self.boxes.read(found);
        write_accept(&mut self.spaces, t, &record.buffer, reply)
    }

    /// The bytes of the task that the call takes with it, where the reply says.
    ///
    /// # Errors
    ///
    /// `Refused` with the code of the answer; `NoMemory`.
    pub(crate) fn read_held(
        &self,
        found: Found,
        reply: &Reply,
        t: TaskNo,
    ) -> Result<Buffer, SpaceFault>
        requires live { IsSome (call_at self.now.state.calls found.number.0) }
        requires added { IsAdded self.now.state t }
        ensures told { IfSome (call_at self.now.state.calls found.number.0) (λ c. Tells result
            (read_accept self.now.state.memory t c.request.args reply.now
            (used self.now.state.calls))) }
        ensures fits { IfOk result (λ bytes. used self.now.state.calls + length bytes
            ≤ most_buffered) }
    {
        let record = self.boxes.read(found);
        read_accept(
            self.boxes.alloc(),
            &self.spaces,
            t,
            &record.request.args,
            reply,
            self.boxes.used(),
        )
    }

    /// Writes the bytes that a call brought back to the task, where it asked.
    ///
    /// # Errors
    ///
    /// The code of the refusal; then nothing has changed.
    pub(crate) fn write_back(&mut self, call: &Call, t: TaskNo) -> Result<Option<StoreNo>, Code>
        requires added { IsAdded self.old.state t }
        ensures told { result ≡ (read_deliver self.old.state.memory t call.now.request.args
            call.now.buffer).told }
        ensures state { self.new.state ≡ with_memory self.old.state (read_deliver
            self.old.state.memory t call.now.request.args call.now.buffer).memory }
        ensures keeps { KeepsCalls self.old self.new }
    {
        read_deliver(&mut self.spaces, t, &call.request.args, &call.buffer)
    }

    /// Whether the caller may send a SHARE_OUT with these arguments.
    ///
    /// # Errors
    ///
    /// The code with which the call is answered at once.
    pub fn may_share_out(&self, caller: TaskNo, args: &[u64; 5]) -> Result<(), Code>
        requires added { IsAdded self.now.state caller }
        ensures { result ≡ out_before_send self.now.state.memory caller args.now }
    {
        out_before_send(&self.spaces, caller, args)
    }

    /// Gives the task or its caller an area over the store of one of the other's, as a call with
    /// these arguments asks.
    ///
    /// # Errors
    ///
    /// The code of the refusal; then nothing has changed.
    pub(crate) fn share(
        &mut self,
        way: Share,
        asked: &[u64; 5],
        reply: &Reply,
        t: TaskNo,
        caller: TaskNo,
    ) -> Result<StoreNo, Code>
        requires added { IsAdded self.old.state t }
        requires caller { IsAdded self.old.state caller }
        ensures told { result
            ≡ (share_step way self.old.state.memory caller t asked.now reply.now).told }
        ensures state { self.new.state ≡ with_memory self.old.state
            (share_step way self.old.state.memory caller t asked.now reply.now).memory }
        ensures keeps { KeepsCalls self.old self.new }
    {
        match way {
            Share::Out => out_accept(&mut self.spaces, caller, t, asked, reply),
            Share::In => in_accept(&mut self.spaces, caller, t, asked, reply),
        }
    }

    /// The call takes the reply and these bytes to the answers of its caller, and what it reserves
    /// stays.
    pub(crate) fn answer_with(&mut self, found: Found, reply: Reply, bytes: Buffer, caller: TaskNo)
        requires called { IsCallOf (call_at self.old.state.calls found.number.0) caller }
        requires unkept { IfSome (call_at self.old.state.calls found.number.0)
            (λ c. kept_phone (record c { reply = reply; place = Answers caller }) ≡ None) }
        requires alive { is_alive self.old.state caller ≡ true }
        requires room { used self.old.state.calls + length bytes ≤ most_buffered }
        requires few_stamps { self.old.state.calls.next_stamp < 2 ^ 63 }
        ensures state { self.new.state ≡ with_calls self.old.state
            (with_bytes self.old.state.calls found.number.0 reply bytes caller) }
        ensures room { KeepsRoom self.old self.new 0 }
    {
        let (change, place) = (Change::AnswerWith(reply, bytes), Place::Answers(caller));
        self.boxes.go_uncounted(found, change, place);
    }

    /// The phone, where there is one, is free. No call keeps it.
    pub(crate) fn release(&mut self, kept: Option<Label>)
        requires loose { IsLoose self.old.state kept }
        ensures state { self.new.state ≡ with_kept self.old.state kept PhoneState.Free }
        ensures room { KeepsRoom self.old self.new 0 }
    {
        if let Some(label) = kept {
            release(self.phones.row_mut(label.task), label.phone);
        }
    }
}

/// One task more has free phones and no areas.
fn add_row(phones: &mut PhoneRows, spaces: &mut Spaces, limit: u32) -> Result<(), NoMemory>
    requires limit { IsLimit limit }
    ensures phones { OnOk result (phones.new.states
        ≡ phones.old.states ++ replicate limit PhoneState.Free ∷ []) }
    ensures counts { OnOk result (phones.new.counts ≡ phones.old.counts ++ replicate limit 0 ∷ []) }
    ensures areas { OnOk result (spaces.new ≡ with_areas spaces.old) }
    ensures err { OnErr result (phones.new ≡ phones.old) }
    ensures areas_err { OnErr result (spaces.new ≡ spaces.old) }
{
    match spaces.add_task() {
        Ok(()) => {}
        Err(NoMemory) => return Err(NoMemory),
    }
    match phones.add(Phones::new(limit)) {
        Ok(()) => Ok(()),
        Err(NoMemory) => {
            spaces.take_back();
            Err(NoMemory)
        }
    }
}

/// One task more than there are has its places.
fn add_place(boxes: &mut Boxes, places: &mut u64, tasks: u64) -> Result<(), NoMemory>
    requires few { tasks < 64 }
    requires enough { tasks ≤ boxes.old.tasks }
    requires places { HasPlaces tasks places.old boxes.old.tasks }
    ensures places { HasPlaces tasks places.new boxes.new.tasks }
    ensures ok { OnOk result (tasks < places.new) }
    ensures enough { boxes.old.tasks ≤ boxes.new.tasks }
    ensures calls { boxes.new.calls ≡ boxes.old.calls }
{
    if *places > tasks {
        return Ok(());
    }
    match boxes.add_task() {
        Ok(()) => {
            *places += 1;
            Ok(())
        }
        Err(NoMemory) => Err(NoMemory),
    }
}
