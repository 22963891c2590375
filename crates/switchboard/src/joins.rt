//! The joins: one change of a call or a phone each, with the entries that tell of it.
ghost use Rattle.std.specs.Prelude.{◌≡◌, ◌+◌, ◌<◌, ◌≤◌, ◌++◌, ◌∷◌, [], ◌^◌, true, None, IsSome, IfSome, length};
ghost use Rattle.answerbox.specs.Calls.{call_at, active_calls};
ghost use Rattle.switchboard.specs.State.{is_alive, phone_at};
ghost use Rattle.std.specs.Option.{option_to_list};
ghost use Rattle.call_slab.specs.declared.call.Place.TheVariants.{Answers};
ghost use Rattle.switchboard.specs.Kept.{IsLoose, MayReserve, accepts, kept_phone};
ghost use Rattle.switchboard.specs.Joins.{on_call, acceptance, answer_at_once, passage, reception_live, delivery_live, releasing, drop_answer, vanishing, forget_call, answer_to, declined, accepted_to_me, accepted_me_to, settle_live, hang_up, hangup_refusal, slam_at};
ghost use Rattle.switchboard.specs.Board.{IsAdded, IsPending, IsCallOf, IsNewCall};
ghost use Rattle.switchboard.specs.Rooms.{leads_to, HasRoom, MayAccept, UsesRoom, HasRoomToHangUp, UsesRoomToHangUp, settle_entries, settle_moves, vanish_entries};
ghost use Rattle.switchboard.specs.Serving.{Does, Serves, as_it_is, with_note};

use crate::board::Switchboard;
use crate::kept::{kept_note, kept_phone};
use answerbox::Found;
use call_slab::{Call, Place};
use ipc_ids::methods::PHONE_HUNGUP;
use ipc_ids::{Code, Entry, Label, MethodKind, Msg, Outcome, PhoneState, Reply, TaskNo, Trace};
use phone_table::Hung;

/// What a call takes with it as a task receives it.
#[derive(Drop)]
pub struct Arrival {
    /// The message that the task sees.
    pub msg: Msg,
    /// The phone that is kept for a connection.
    pub reserved: Option<Label>,
    /// What is told beside the receipt.
    pub note: Option<Entry>,
}

impl Switchboard {
    /// Accepts the new call into its place, and tells its number.
    pub fn accept(
        &mut self,
        call: Call,
        note: Option<Entry>,
        to: Option<TaskNo>,
        out: &mut Trace,
    ) -> Outcome
        requires new_call { IsNewCall self.old.state call }
        requires room { HasRoom self.old out.old 1 1 2 }
        ensures served { Serves self.new result out.old out.new
            (acceptance (record { state = self.old.state; call = call; note = note }) to) }
        ensures room { UsesRoom self.old self.new out.old out.new 1 1 2 }
    {
        let number = call.number;
        out.push(Entry::Accepted {
            call: number,
            from: call.from,
            method: call.request.method,
            to,
        });
        tell(note, out);
        self.enqueue(call);
        Outcome::Accepted(number)
    }

    /// Accepts the new call, and answers it with this code and arguments 0 in the kernel's name.
    #[inline(always)]
    pub fn answer_at_once(&mut self, mut call: Call, code: Code, out: &mut Trace) -> Outcome
        requires new_call { IsNewCall self.old.state call }
        requires unreserved { call.reserved ≡ None }
        requires room { HasRoom self.old out.old 1 1 2 }
        ensures served { Serves self.new result out.old out.new
            (answer_at_once self.old.state call code) }
        ensures room { UsesRoom self.old self.new out.old out.new 1 1 2 }
    {
        let reply = Reply::bare(code);
        call.reply = reply;
        let number = call.number;
        out.push(Entry::Accepted {
            call: number,
            from: call.from,
            method: call.request.method,
            to: None,
        });
        out.push(Entry::Answered {
            call: number,
            reply,
            by: None,
        });
        self.enqueue(call);
        Outcome::Accepted(number)
    }

    /// Passes the call on to a task, which sees this message from this phone. A phone that its
    /// holder kept for it is free.
    pub fn pass_on(
        &mut self,
        found: Found,
        msg: Msg,
        label: Label,
        by: TaskNo,
        to: TaskNo,
        out: &mut Trace,
    )
        requires number { IfSome (call_at self.old.state.calls found.number.0)
            (λ c. c.number ≡ found.number) }
        requires pending { IsPending (call_at self.old.state.calls found.number.0) }
        requires added { to.0 ≤ length self.old.state.tasks.alive }
        requires room { HasRoom self.old out.old 0 1 2 }
        ensures step { Does self.new out.old out.new
            (on_call (passage msg label by to) self.old.state found.number.0) }
        ensures room { UsesRoom self.old self.new out.old out.new 0 1 2 }
    {
        let lent = self.readdress(found, msg, label, to);
        out.push(Entry::Forwarded {
            call: found.number,
            by,
            to,
            label,
        });
        self.free(lent, out);
    }

    /// Hands the call over to the task, which holds it from then on.
    pub fn hand_over(
        &mut self,
        found: Found,
        arrival: Arrival,
        who: TaskNo,
        out: &mut Trace,
    ) -> Outcome
        requires live { IsSome (call_at self.old.state.calls found.number.0) }
        requires added { IsAdded self.old.state who }
        requires reserved { MayReserve self.old.state (call_at self.old.state.calls found.number.0)
            arrival.reserved who }
        requires room { HasRoom self.old out.old 0 1 2 }
        ensures served { Serves self.new result out.old out.new
            (reception_live who arrival self.old.state
            (call_at self.old.state.calls found.number.0)) }
        ensures room { UsesRoom self.old self.new out.old out.new 0 1 2 }
    {
        let Arrival {
            msg,
            reserved,
            note,
        } = arrival;
        let label = self.dispatch(found, msg, reserved, who);
        out.push(Entry::Received {
            call: found.number,
            by: who,
        });
        tell(note, out);
        Outcome::Received {
            call: found.number,
            msg,
            label,
        }
    }

    /// Delivers this reply to the task, and ends the call. A phone that it kept is free.
    pub fn deliver(&mut self, found: Found, reply: Reply, who: TaskNo, out: &mut Trace) -> Outcome
        requires live { IsSome (call_at self.old.state.calls found.number.0) }
        requires room { HasRoom self.old out.old 0 0 2 }
        ensures served { Serves self.new result out.old out.new
            (delivery_live who reply self.old.state (call_at self.old.state.calls found.number.0)) }
        ensures room { UsesRoom self.old self.new out.old out.new 0 0 2 }
    {
        let call = self.leave(found);
        out.push(Entry::Delivered {
            call: call.number,
            to: who,
        });
        self.free(kept_phone(&call), out);
        Outcome::Answered {
            call: call.number,
            reply,
        }
    }

    /// Drops the answer at the task, and ends the call. A phone that it kept is free.
    pub fn drop_answer(&mut self, found: Found, at: TaskNo, out: &mut Trace)
        requires live { IsSome (call_at self.old.state.calls found.number.0) }
        requires room { HasRoom self.old out.old 0 0 2 }
        ensures step { Does self.new out.old out.new
            (on_call (drop_answer at) self.old.state found.number.0) }
        ensures room { UsesRoom self.old self.new out.old out.new 0 0 2 }
    {
        let call = self.leave(found);
        out.push(Entry::Dropped {
            call: call.number,
            at,
        });
        self.free(kept_phone(&call), out);
    }

    /// Ends the call without an answer. A phone that it kept is free.
    pub fn vanish(&mut self, found: Found, out: &mut Trace)
        requires live { IsSome (call_at self.old.state.calls found.number.0) }
        requires room { HasRoom self.old out.old 0 0 2 }
        ensures step { Does self.new out.old out.new
            (on_call vanishing self.old.state found.number.0) }
        ensures room { UsesRoom self.old self.new out.old out.new 0 0 2 }
    {
        self.vanish_exactly(found, out);
    }

    /// The same, with room for a second entry only where the call keeps a phone.
    fn vanish_exactly(&mut self, found: Found, out: &mut Trace)
        requires live { IsSome (call_at self.old.state.calls found.number.0) }
        requires room { HasRoom self.old out.old 0 0
            (vanish_entries (call_at self.old.state.calls found.number.0)) }
        ensures step { Does self.new out.old out.new
            (on_call vanishing self.old.state found.number.0) }
        ensures room { UsesRoom self.old self.new out.old out.new 0 0
            (vanish_entries (call_at self.old.state.calls found.number.0)) }
    {
        let call = self.leave(found);
        out.push(Entry::Vanished(call.number));
        match kept_phone(&call) {
            Some(phone) => self.free(Some(phone), out),
            None => {}
        }
    }

    /// Frees the phone, which no call keeps, where there is one.
    fn free(&mut self, kept: Option<Label>, out: &mut Trace)
        requires loose { IsLoose self.old.state kept }
        requires room { HasRoom self.old out.old 0 0 1 }
        ensures step { Does self.new out.old out.new (releasing kept self.old.state) }
        ensures room { UsesRoom self.old self.new out.old out.new 0 0 1 }
    {
        self.release(kept);
        tell(kept_note(kept, PhoneState::Free), out);
    }

    /// Forgets the caller of the call, which has ended.
    pub fn forget(&mut self, found: Found, out: &mut Trace)
        requires live { IsSome (call_at self.old.state.calls found.number.0) }
        requires room { HasRoom self.old out.old 0 0 1 }
        ensures step { Does self.new out.old out.new
            (on_call forget_call self.old.state found.number.0) }
        ensures room { UsesRoom self.old self.new out.old out.new 0 0 1 }
    {
        self.lose_caller(found);
        out.push(Entry::Forgotten(found.number));
    }

    /// Moves the call with a reply that does not accept to the answers of its caller. A phone that
    /// its holder kept for it is free.
    fn refuse(
        &mut self,
        found: Found,
        reply: Reply,
        by: Option<TaskNo>,
        caller: TaskNo,
        out: &mut Trace,
    )
        requires pending { IsPending (call_at self.old.state.calls found.number.0) }
        requires number { IfSome (call_at self.old.state.calls found.number.0)
            (λ c. c.number ≡ found.number) }
        requires called { IsCallOf (call_at self.old.state.calls found.number.0) caller }
        requires alive { is_alive self.old.state caller ≡ true }
        requires room { HasRoom self.old out.old 0 1 2 }
        ensures step { Does self.new out.old out.new
            (on_call (λ k c. answer_to (declined k c reply) by caller) self.old.state
            found.number.0) }
        ensures room { UsesRoom self.old self.new out.old out.new 0 1 2 }
    {
        let lent = self.decline(found, reply, caller);
        out.push(Entry::Answered {
            call: found.number,
            reply,
            by,
        });
        self.free(lent, out);
    }

    /// Accepts the CONNECT_TO_ME that the task holds: the phone that it kept leads to the caller.
    /// Without one the answer has the code `ELIMIT`.
    #[inline(never)]
    pub fn accept_to_me(
        &mut self,
        found: Found,
        reply: &Reply,
        who: TaskNo,
        caller: TaskNo,
        out: &mut Trace,
    )
        requires accepting { MayAccept self.old out.old found.number
            MethodKind.ConnectToMe who caller }
        ensures step { Does self.new out.old out.new
            (on_call (λ k c. answer_to (accepted_to_me k c reply.now caller) (Some who) caller)
            self.old.state found.number.0) }
        ensures room { UsesRoom self.old self.new out.old out.new 0 1 2 }
    {
        let (kept, code) = self.connect_to_caller(found, reply, who, caller);
        let args = reply.args;
        out.push(Entry::Answered {
            call: found.number,
            reply: Reply { code, args },
            by: Some(who),
        });
        tell(kept_note(kept, PhoneState::Connected(caller)), out);
    }

    /// Accepts the CONNECT_ME_TO that the task holds: the phone that its caller kept leads to the
    /// task.
    #[inline(never)]
    pub fn accept_me_to(
        &mut self,
        found: Found,
        reply: &Reply,
        who: TaskNo,
        caller: TaskNo,
        out: &mut Trace,
    )
        requires accepting { MayAccept self.old out.old found.number
            MethodKind.ConnectMeTo who caller }
        requires accepts { accepts reply.now.code ≡ true }
        ensures step { Does self.new out.old out.new
            (on_call (λ k c. answer_to (accepted_me_to k c reply.now who) (Some who) caller)
            self.old.state found.number.0) }
        ensures room { UsesRoom self.old self.new out.old out.new 0 1 2 }
    {
        let kept = self.connect_to_answerer(found, reply, who, caller);
        out.push(Entry::Answered {
            call: found.number,
            reply: *reply,
            by: Some(who),
        });
        tell(kept_note(kept, PhoneState::Connected(who)), out);
    }

    /// Moves the call, for which no phone is kept, with the reply to the answers of its caller.
    pub fn finish(
        &mut self,
        found: Found,
        reply: &Reply,
        who: TaskNo,
        caller: TaskNo,
        out: &mut Trace,
    )
        requires number { IfSome (call_at self.old.state.calls found.number.0)
            (λ c. c.number ≡ found.number) }
        requires called { IsCallOf (call_at self.old.state.calls found.number.0) caller }
        requires unkept { IfSome (call_at self.old.state.calls found.number.0)
            (λ c. kept_phone (record c { reply = reply.now; place = Answers caller }) ≡ None) }
        requires alive { is_alive self.old.state caller ≡ true }
        requires room { HasRoom self.old out.old 0 1 2 }
        ensures step { Does self.new out.old out.new (on_call
            (λ k c. answer_to (as_it_is k (record c { reply = reply.now })) (Some who) caller)
            self.old.state found.number.0) }
        ensures room { UsesRoom self.old self.new out.old out.new 0 1 2 }
    {
        self.finish_telling(found, reply, None, who, caller, out);
    }

    /// Moves the call, for which no phone is kept, with the reply to the answers of its caller, and
    /// tells the note, where there is one, behind the answer.
    #[inline(always)]
    pub(crate) fn finish_telling(
        &mut self,
        found: Found,
        reply: &Reply,
        note: Option<Entry>,
        who: TaskNo,
        caller: TaskNo,
        out: &mut Trace,
    )
        requires number { IfSome (call_at self.old.state.calls found.number.0)
            (λ c. c.number ≡ found.number) }
        requires called { IsCallOf (call_at self.old.state.calls found.number.0) caller }
        requires unkept { IfSome (call_at self.old.state.calls found.number.0)
            (λ c. kept_phone (record c { reply = reply.now; place = Answers caller }) ≡ None) }
        requires alive { is_alive self.old.state caller ≡ true }
        requires room { HasRoom self.old out.old 0 1 2 }
        ensures step { Does self.new out.old out.new (on_call
            (λ k c. answer_to (with_note k (record c { reply = reply.now }) note) (Some who) caller)
            self.old.state found.number.0) }
        ensures room { UsesRoom self.old self.new out.old out.new 0 1 2 }
    {
        self.answer(found, reply, caller);
        out.push(Entry::Answered {
            call: found.number,
            reply: *reply,
            by: Some(who),
        });
        tell(note, out);
    }

    /// Answers the call with a reply that does not accept, in the name of a task or of the kernel
    /// where `by` is `None`. Where its caller has ended the call vanishes.
    pub fn settle(&mut self, found: Found, reply: &Reply, by: Option<TaskNo>, out: &mut Trace)
        requires pending { IsPending (call_at self.old.state.calls found.number.0) }
        requires room { HasRoom self.old out.old 0
            (settle_moves self.old.state (call_at self.old.state.calls found.number.0))
            (settle_entries self.old.state (call_at self.old.state.calls found.number.0)) }
        ensures step { Does self.new out.old out.new
            (settle_live self.old.state reply.now by (call_at self.old.state.calls found.number.0)) }
        ensures room { UsesRoom self.old self.new out.old out.new 0
            (settle_moves self.old.state (call_at self.old.state.calls found.number.0))
            (settle_entries self.old.state (call_at self.old.state.calls found.number.0)) }
    {
        let caller = self.read(found).caller;
        self.settle_exactly(found, caller, reply, by, out);
    }

    /// Settles the call of this caller, whose record was looked up before.
    pub fn settle_for(
        &mut self,
        found: Found,
        caller: Option<TaskNo>,
        reply: &Reply,
        by: Option<TaskNo>,
        out: &mut Trace,
    )
        requires pending { IsPending (call_at self.old.state.calls found.number.0) }
        requires number { IfSome (call_at self.old.state.calls found.number.0)
            (λ c. c.number ≡ found.number) }
        requires caller { IfSome (call_at self.old.state.calls found.number.0)
            (λ c. c.caller ≡ caller) }
        requires room { HasRoom self.old out.old 0 1 2 }
        ensures step { Does self.new out.old out.new
            (settle_live self.old.state reply.now by (call_at self.old.state.calls found.number.0)) }
        ensures room { UsesRoom self.old self.new out.old out.new 0 1 2 }
    {
        self.settle_exactly(found, caller, reply, by, out);
    }

    /// The same, with room for a move only where the caller is alive, and for a second entry only
    /// there and where the call keeps a phone.
    #[inline(always)]
    fn settle_exactly(
        &mut self,
        found: Found,
        caller: Option<TaskNo>,
        reply: &Reply,
        by: Option<TaskNo>,
        out: &mut Trace,
    )
        requires pending { IsPending (call_at self.old.state.calls found.number.0) }
        requires number { IfSome (call_at self.old.state.calls found.number.0)
            (λ c. c.number ≡ found.number) }
        requires caller { IfSome (call_at self.old.state.calls found.number.0)
            (λ c. c.caller ≡ caller) }
        requires room { HasRoom self.old out.old 0
            (settle_moves self.old.state (call_at self.old.state.calls found.number.0))
            (settle_entries self.old.state (call_at self.old.state.calls found.number.0)) }
        ensures step { Does self.new out.old out.new
            (settle_live self.old.state reply.now by (call_at self.old.state.calls found.number.0)) }
        ensures room { UsesRoom self.old self.new out.old out.new 0
            (settle_moves self.old.state (call_at self.old.state.calls found.number.0))
            (settle_entries self.old.state (call_at self.old.state.calls found.number.0)) }
    {
        match caller {
            Some(caller) if self.is_alive(caller) => self.refuse(found, *reply, by, caller, out),
            _ => self.vanish_exactly(found, out),
        }
    }

    /// Hangs the phone up, where it leads or led to a task, and tells the task that it leads to.
    ///
    /// # Errors
    ///
    /// `ENOENT` where the task has no such phone, `EINVAL` where it leads and led nowhere or was
    /// hung up before.
    pub fn hang_up(&mut self, from: Label, out: &mut Trace) -> Result<(), Code>
        requires added { IsAdded self.old.state from.task }
        requires few { active_calls self.old.state.calls from < 2 ^ 31 }
        requires room { HasRoomToHangUp self.old out.old
            (phone_at self.old.state from.task from.phone.0) }
        ensures step { Does self.new out.old out.new (hang_up self.old.state from.task from.phone.0
            (phone_at self.old.state from.task from.phone.0)) }
        ensures answer { result
            ≡ hangup_refusal (phone_at self.old.state from.task from.phone.0) }
        ensures free { call_at self.old.state.calls self.old.state.calls.next_number ≡ None }
        ensures room { UsesRoomToHangUp self.old self.new out.old out.new
            (phone_at self.old.state from.task from.phone.0) }
    {
        self.check_numbers();
        match self.hang_phone(from) {
            Err(code) => Err(code),
            Ok(Hung::Silent) => {
                tell_hung_up(from, out);
                Ok(())
            }
            Ok(Hung::Sent(to)) => {
                let mut call = self.new_call(from, &Msg::bare(PHONE_HUNGUP), Place::Incoming(to));
                call.discard = true;
                out.push(Entry::Accepted {
                    call: call.number,
                    from,
                    method: PHONE_HUNGUP,
                    to: Some(to),
                });
                self.enqueue(call);
                tell_hung_up(from, out);
                Ok(())
            }
        }
    }

    /// Slams the phone of another task, where it leads to the task that comes to its end.
    pub fn slam(&mut self, who: TaskNo, phone: Label, out: &mut Trace)
        requires added { IsAdded self.old.state phone.task }
        requires room { HasRoom self.old out.old 0 0
            (leads_to who (phone_at self.old.state phone.task phone.phone.0)) }
        ensures step { Does self.new out.old out.new
            (slam_at who phone.task self.old.state phone.phone.0) }
        ensures room { UsesRoom self.old self.new out.old out.new 0 0
            (leads_to who (phone_at self.old.state phone.task phone.phone.0)) }
    {
        match self.phone(phone.task, u64::from(phone.phone.0)) {
            Some(PhoneState::Connected(to)) if to.0 == who.0 => {
                self.slam_phone(phone);
                out.push(Entry::PhoneIs {
                    phone,
                    state: PhoneState::Slammed,
                });
            }
            _ => {}
        }
    }
}

/// Tells the entry, where there is one.
pub(crate) fn tell(note: Option<Entry>, out: &mut Trace)
    requires { 1 ≤ out.old.spare }
    ensures entries { out.new.entries ≡ out.old.entries ++ option_to_list note }
    ensures spare { out.old.spare ≤ out.new.spare + 1 }
{
    if let Some(entry) = note {
        out.push(entry);
    }
}

/// Tells that the phone is hung up.
fn tell_hung_up(phone: Label, out: &mut Trace)
    requires { 0 < out.old.spare }
    ensures entries { out.new.entries
        ≡ out.old.entries ++ Entry.PhoneIs phone PhoneState.HungUp ∷ [] }
    ensures spare { out.new.spare + 1 ≡ out.old.spare }
{
    out.push(Entry::PhoneIs {
        phone,
        state: PhoneState::HungUp,
    });
}
