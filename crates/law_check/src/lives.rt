//! The law of a call's life, as entries come.
ghost use Rattle.std.specs.Prelude.{◌≡◌, ◌↔◌, ◌<◌, ◌≤◌, ◌+◌, ◌^◌, ℕ, suc, length, List, [], ◌∷◌, Some, OnOk, IsSome, IsTrue};
ghost use Rattle.std.specs.Ordering.{nat_cmp};
ghost use Rattle.std.specs.BTreeMap.{get};
ghost use Rattle.ipc_ids.specs.Tales.{Event, Step, Tale, Head, On, Note, Way, Accepted, Received, Forwarded, Answered, Vanished, Forgotten, Delivered, Dropped, Kernel, Task, ask, author, way, tale};
ghost use Rattle.ipc_ids.specs.Life.{Allowed, IsOf, event, after, life, last_number, task_of};
ghost use Rattle.ipc_ids.specs.Laws.{IsAllowed};
ghost use Rattle.ipc_ids.specs.Lawful.{Follows, IsRound};
ghost use Rattle.law_check.specs.Lives.{Knows, life_at, at, known, IsOfTask, event_of, IsLive, Puts, Pushes, BringsTo, Names, KnowsNext, kills, is_kill, kill_at, earlier_kill_at, is_killed_in, is_named_in};

use ipc_ids::{Code, Entry, NoMemory, Request, TaskNo};
use std::alloc::Global;
use std::collections::BTreeMap;

/// Where a call is.
#[derive(Clone, Copy)]
pub enum Place {
    Back,
    Incoming(u64),
    Dispatched(u64),
    Answers,
    Over,
}

/// A call that was accepted: by which task it was made, and where it is.
#[derive(Clone, Copy)]
pub struct KnownCall {
    pub caller: u64,
    pub place: Place,
}

/// The present event.
#[derive(Clone, Copy, PartialEq, Eq)]
pub enum PresentEvent {
    Nothing,
    Receive(u64),
    Answer(u64, u64),
    Forward(u64, u64),
    Other(u64),
    Kill(u64),
    Gone(u64),
    Spawn(u64),
}

/// What the entries so far say of calls: call `n` is at `n - 1`.
#[derive(Drop)]
pub struct Lives {
    pub calls: Vec<KnownCall>,
    /// How many events there were.
    pub events: u64,
    /// The tasks that the heads so far name, each with the number of the last event that killed it;
    /// 0 where none did.
    tasks: BTreeMap<u64, u64>,
    pub event: PresentEvent,
    /// Where the present event kills a task: the number of the last event before that killed it.
    earlier: u64,
    /// The last entry says that the last call goes back.
    back: bool,
}

impl PresentEvent {
    /// The event kills a task.
    fn is_kill(self) -> bool
        ensures { result ≡ kills self }
    {
        matches!(self, PresentEvent::Kill(_))
    }

    /// The event kills this task.
    fn is_kill_of(self, task: u64) -> bool
        ensures { result ≡ is_kill task self }
    {
        match self {
            PresentEvent::Kill(killed) => killed == task,
            _ => false,
        }
    }

    /// The event is one of this task.
    fn is_of(self, task: u64) -> bool
        ensures { IsTrue result ↔ IsOfTask task (event_of self) }
    {
        match self {
            PresentEvent::Nothing => false,
            PresentEvent::Receive(t) => t == task,
            PresentEvent::Answer(t, _) => t == task,
            PresentEvent::Forward(t, _) => t == task,
            PresentEvent::Other(t) => t == task,
            PresentEvent::Kill(t) => t == task,
            PresentEvent::Gone(t) => t == task,
            PresentEvent::Spawn(t) => t == task,
        }
    }
}

impl Lives {
    pub fn new(alloc: Global) -> Lives
        ensures knows { Knows [] result }
        ensures events { result.events ≡ 0 }
    {
        Lives {
            calls: Vec::new(alloc),
            events: 0,
            tasks: BTreeMap::new(alloc),
            event: PresentEvent::Nothing,
            earlier: 0,
            back: false,
        }
    }

    pub fn known(&self, call: u64) -> Option<KnownCall>
        ensures life { known result ≡ life_at self.now.calls.items call }
        ensures live { IsSome result → IsLive call self.now.calls.items }
    {
        if call == 0 {
            return None;
        }
        self.calls.get(call as usize - 1).copied()
    }

    /// The number of the last event that killed the task; 0 where none did.
    fn kill_at(&self, task: u64) -> u64
        ensures { result ≡ kill_at self.now.tasks task }
    {
        self.tasks.get(&task).copied().unwrap_or(0)
    }

    /// Likewise of the last one before the present event.
    pub fn earlier_kill_at(&self, task: u64) -> u64
        ensures { result ≡ earlier_kill_at self.now task }
    {
        if self.event.is_kill_of(task) {
            self.earlier
        } else {
            self.kill_at(task)
        }
    }

    fn is_killed(&self, task: u64) -> bool
        ensures { result ≡ is_killed_in self.now.tasks task }
    {
        0 < self.kill_at(task)
    }

    /// A head of the task stands there.
    fn is_named(&self, task: u64) -> bool
        ensures { result ≡ is_named_in self.now.tasks task }
    {
        self.tasks.get(&task).is_some()
    }

    /// Call `call` may be accepted next, from this task.
    fn may_accept(&self, call: u64, from: u64) -> bool
        ensures { (p : List Tale) (phone method : ℕ) (to : Way) → Knows p self.now
            → (IsTrue result ↔ Allowed p call (Accepted from phone method to) (life call p)) }
    {
        call == self.calls.len() as u64 + 1 && self.event.is_of(from)
    }

    fn may_receive(&self, call: u64, by: u64) -> bool
        ensures { (p : List Tale) → Knows p self.now
            → (IsTrue result ↔ Allowed p call (Received by) (life call p)) }
    {
        match self.known(call) {
            Some(
                KnownCall {
                    place: Place::Incoming(holder),
                    ..
                },
            ) => holder == by && self.event == PresentEvent::Receive(by),
            _ => false,
        }
    }

    fn may_forward(&self, call: u64, by: u64) -> bool
        ensures { (p : List Tale) (to : ℕ) → Knows p self.now
            → (IsTrue result ↔ Allowed p call (Forwarded by to) (life call p)) }
    {
        match self.known(call) {
            Some(
                KnownCall {
                    place: Place::Dispatched(holder),
                    ..
                },
            ) => holder == by && self.event == PresentEvent::Forward(by, call),
            _ => false,
        }
    }

    fn may_answer(&self, call: u64, by: u64) -> bool
        ensures { (p : List Tale) (code : ℕ) → Knows p self.now
            → (IsTrue result ↔ Allowed p call (Answered code (Task by)) (life call p)) }
    {
        match self.known(call) {
            Some(
                KnownCall {
                    place: Place::Dispatched(holder),
                    caller,
                },
            ) => holder == by
                && self.event == PresentEvent::Answer(by, call)
                && !self.is_killed(caller),
            _ => false,
        }
    }

    fn kernel_may_answer(&self, call: u64, code: u64) -> bool
        ensures { (p : List Tale) → Knows p self.now
            → (IsTrue result ↔ Allowed p call (Answered code Kernel) (life call p)) }
    {
        match self.known(call) {
            Some(
                KnownCall {
                    place: Place::Back,
                    ..
                },
            ) => self.back && call == self.calls.len() as u64,
            Some(
                KnownCall {
                    place: Place::Incoming(holder),
                    caller,
                },
            ) => {
                code == Code::EHANGUP.0
                    && self.event == PresentEvent::Kill(holder)
                    && !self.is_killed(caller)
            }
            Some(
                KnownCall {
                    place: Place::Dispatched(holder),
                    caller,
                },
            ) => {
                (code == Code::EHANGUP.0 && self.event == PresentEvent::Kill(holder)
                    || code == Code::EFORWARD.0
                        && self.event == PresentEvent::Forward(holder, call))
                    && !self.is_killed(caller)
            }
            _ => false,
        }
    }

    fn may_vanish(&self, call: u64) -> bool
        ensures { (p : List Tale) → Knows p self.now
            → (IsTrue result ↔ Allowed p call Vanished (life call p)) }
    {
        match self.known(call) {
            Some(
                KnownCall {
                    place: Place::Incoming(holder),
                    caller,
                },
            ) => self.event == PresentEvent::Kill(holder) && self.is_killed(caller),
            Some(
                KnownCall {
                    place: Place::Dispatched(holder),
                    caller,
                },
            ) => {
                (self.event == PresentEvent::Kill(holder)
                    || self.event == PresentEvent::Answer(holder, call)
                    || self.event == PresentEvent::Forward(holder, call))
                    && self.is_killed(caller)
            }
            _ => false,
        }
    }

    fn may_be_forgotten(&self, call: u64) -> bool
        ensures { (p : List Tale) → Knows p self.now
            → (IsTrue result ↔ Allowed p call Forgotten (life call p)) }
    {
        match self.known(call) {
            Some(
                KnownCall {
                    place: Place::Incoming(holder),
                    caller,
                },
            ) => self.event == PresentEvent::Kill(caller) && holder != caller,
            Some(
                KnownCall {
                    place: Place::Dispatched(holder),
                    caller,
                },
            ) => self.event == PresentEvent::Kill(caller) && holder != caller,
            _ => false,
        }
    }

    fn may_deliver(&self, call: u64, to: u64) -> bool
        ensures { (p : List Tale) → Knows p self.now
            → (IsTrue result ↔ Allowed p call (Delivered to) (life call p)) }
    {
        match self.known(call) {
            Some(
                KnownCall {
                    place: Place::Answers,
                    caller,
                },
            ) => caller == to && self.event == PresentEvent::Receive(to),
            _ => false,
        }
    }

    fn may_drop(&self, call: u64, at: u64) -> bool
        ensures { (p : List Tale) → Knows p self.now
            → (IsTrue result ↔ Allowed p call (Dropped at) (life call p)) }
    {
        match self.known(call) {
            Some(
                KnownCall {
                    place: Place::Answers,
                    caller,
                },
            ) => caller == at
                && (self.event == PresentEvent::Receive(at)
                    || self.event == PresentEvent::Kill(at)),
            _ => false,
        }
    }

    fn may_be_answered(&self, call: u64, code: u64, by: Option<TaskNo>) -> bool
        ensures { (p : List Tale) → Knows p self.now
            → (IsTrue result ↔ Allowed p call (Answered code (author by)) (life call p)) }
    {
        match by {
            Some(by) => self.may_answer(call, by.0),
            None => self.kernel_may_answer(call, code),
        }
    }

    fn may(&self, entry: &Entry) -> bool
        ensures { (p : List Tale) → Knows p self.now
            → (IsTrue result ↔ IsAllowed p (tale entry.now)) }
    {
        match entry {
            Entry::Accepted { call, from, .. } => self.may_accept(call.0, from.task.0),
            Entry::Received { call, by } => self.may_receive(call.0, by.0),
            Entry::Forwarded { call, by, .. } => self.may_forward(call.0, by.0),
            Entry::Answered { call, reply, by } => self.may_be_answered(call.0, reply.code.0, *by),
            Entry::Vanished(call) => self.may_vanish(call.0),
            Entry::Delivered { call, to } => self.may_deliver(call.0, to.0),
            Entry::Dropped { call, at } => self.may_drop(call.0, at.0),
            Entry::Forgotten(call) => self.may_be_forgotten(call.0),
            Entry::Spawn(task) => !self.is_named(task.0),
            _ => true,
        }
    }

    /// The entry may come next: after a call that goes back its answer, and first of all a head.
    fn follows(&self, entry: &Entry) -> bool
        ensures { (p : List Tale) → Knows p self.now
            → (IsTrue result ↔ Follows p (tale entry.now)) }
    {
        if self.back {
            return match entry {
                Entry::Answered { call, by: None, .. } => call.0 == self.calls.len() as u64,
                _ => false,
            };
        }
        if self.event != PresentEvent::Nothing {
            return true;
        }
        matches!(
            entry,
            Entry::Head(_, _) | Entry::Kill(_) | Entry::Gone(_) | Entry::Spawn(_)
        )
    }

    /// The entry may come next.
    pub fn allows(&self, entry: &Entry) -> bool
        ensures { (p : List Tale) → Knows p self.now
            → (IsTrue result ↔ (Follows p (tale entry.now) × IsAllowed p (tale entry.now))) }
    {
        self.follows(entry) && self.may(entry)
    }

    /// So many calls were accepted.
    pub fn count(&self) -> u64
        ensures { result ≡ length self.now.calls.items }
    {
        self.calls.len() as u64
    }

    /// No call that goes back still wants its answer.
    pub fn is_round(&self) -> bool
        ensures { (p : List Tale) → Knows p self.now → (IsTrue result ↔ IsRound p) }
    {
        !self.back
    }
}

fn now_of(task: TaskNo, request: &Request) -> PresentEvent
    ensures { event_of result ≡ Some (Step task.0 (ask request.now)) }
{
    match request {
        Request::Receive => PresentEvent::Receive(task.0),
        Request::Answer { call, .. } => PresentEvent::Answer(task.0, *call),
        Request::Forward { call, .. } => PresentEvent::Forward(task.0, *call),
        _ => PresentEvent::Other(task.0),
    }
}

impl Lives {
    /// The call is now known so.
    fn put(&mut self, call: u64, known: KnownCall)
        requires { IsLive call self.old.calls.items }
        ensures { Puts call known self.old self.new }
    {
        self.calls[call as usize - 1] = known;
        self.back = false;
    }

    /// The call, which is accepted, is at this place.
    fn place(&mut self, call: u64, place: Place) -> Result<(), NoMemory>
        ensures knows { (p : List Tale) (w : Note) → Knows p self.old
            → BringsTo w place (life call p) → OnOk result (Knows (On call w ∷ p) self.new) }
        ensures events { self.new.events ≡ self.old.events }
    {
        match self.known(call) {
            Some(known) => self.put(call, KnownCall { place, ..known }),
            None => (),
        }
        Ok(())
    }

    /// One more call is known.
    fn push(&mut self, caller: u64, place: Place, back: bool) -> Result<(), NoMemory>
        ensures pushes { OnOk result
            (Pushes (record { caller = caller; place = place }) back self.old self.new) }
        ensures events { self.new.events ≡ self.old.events }
    {
        self.calls.push(KnownCall { caller, place })?;
        self.back = back;
        Ok(())
    }

    /// The next call is accepted, from this task.
    fn accept(&mut self, caller: u64, to: Option<TaskNo>) -> Result<(), NoMemory>
        ensures knows { (p : List Tale) (n phone method : ℕ) → Knows p self.old
            → n ≡ suc (last_number p) → IsOf caller (event p)
            → OnOk result (Knows (On n (Accepted caller phone method (way to)) ∷ p) self.new) }
        ensures events { self.new.events ≡ self.old.events }
    {
        match to {
            Some(to) => self.push(caller, Place::Incoming(to.0), false),
            None => self.push(caller, Place::Back, true),
        }
    }

    /// A head names the task, and kills it or not.
    fn name(&mut self, task: u64, kills: bool) -> Result<(), NoMemory>
        requires { self.old.events < 2 ^ 63 }
        ensures names { OnOk result (Names task kills self.old self.new) }
        ensures events { self.new.events ≡ self.old.events + 1 }
    {
        self.events += 1;
        if kills {
            self.earlier = self.tasks.insert(task, self.events)?.unwrap_or(0);
            return Ok(());
        }
        if !self.is_named(task) {
            self.tasks.insert(task, 0)?;
        }
        Ok(())
    }

    /// An event of the task begins.
    fn begin(&mut self, task: u64, event: PresentEvent) -> Result<(), NoMemory>
        requires { self.old.events < 2 ^ 63 }
        ensures knows { (p : List Tale) (e : Event) → Knows p self.old → event_of event ≡ Some e
            → task_of e ≡ task → OnOk result (Knows (Head e ∷ p) self.new) }
        ensures events { self.new.events ≡ self.old.events + 1 }
    {
        self.name(task, event.is_kill())?;
        self.event = event;
        self.back = false;
        Ok(())
    }

    /// The present event is over, and none has begun.
    pub fn end(&mut self)
        ensures kills { (t : ℕ) → earlier_kill_at self.new t ≡ kill_at self.old.tasks t }
        ensures calls { self.new.calls ≡ self.old.calls }
    {
        self.event = PresentEvent::Nothing;
    }

    /// Takes an entry that is allowed.
    pub fn note(&mut self, entry: &Entry) -> Result<(), NoMemory>
        requires { self.old.events < 2 ^ 63 }
        ensures knows { KnowsNext self.old (tale entry.now) result self.new }
        ensures events { self.new.events ≤ self.old.events + 1 }
    {
        match entry {
            Entry::Head(task, request) => self.begin(task.0, now_of(*task, request)),
            Entry::Kill(task) => self.begin(task.0, PresentEvent::Kill(task.0)),
            Entry::Gone(task) => self.begin(task.0, PresentEvent::Gone(task.0)),
            Entry::Spawn(task) => self.begin(task.0, PresentEvent::Spawn(task.0)),
            Entry::Accepted { from, to, .. } => self.accept(from.task.0, *to),
            Entry::Received { call, by } => self.place(call.0, Place::Dispatched(by.0)),
            Entry::Forwarded { call, to, .. } => self.place(call.0, Place::Incoming(to.0)),
            Entry::Answered { call, .. } => self.place(call.0, Place::Answers),
            Entry::Vanished(call) => self.place(call.0, Place::Over),
            Entry::Delivered { call, .. } => self.place(call.0, Place::Over),
            Entry::Dropped { call, .. } => self.place(call.0, Place::Over),
            _ => Ok(()),
        }
    }
}
