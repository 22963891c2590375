//! The law of shared areas, as entries come whose calls live lawfully.
ghost use Rattle.std.specs.Prelude.{◌≡◌, ◌↔◌, ◌<◌, ◌≤◌, ◌+◌, ◌-◌, ℕ, length, List, [], ◌∷◌, Option, Some, None, IfOk, OnOk, IsTrue, ◌⊎◌, ◌++◌, ◌==◌, ◌&&◌, max, if◌then◌else◌, true};
ghost use Rattle.ipc_ids.specs.Tales.{tale, tales};
ghost use Rattle.ipc_ids.specs.Laws.{IsAllowed, LivesAreLawful};
ghost use Rattle.ipc_ids.specs.Holdings.{present, making, held};
ghost use Rattle.ipc_ids.specs.AreaLaw.{AreasAreLawful, IsMade, IsShared, Pokes, AcceptsWrite, SharesFrom, SharesMade};
ghost use Rattle.ipc_ids.specs.Methods.{data_read};
ghost use Rattle.ipc_ids.specs.declared.entry.Entry.{Entry};
ghost use Rattle.law_check.specs.Lives.{kept_at};
ghost use Rattle.law_check.specs.Allowed.{WasAllowed};
ghost use Rattle.law_check.specs.AreaSteps.{wants, wants_in, IsServed, Receives, MayCome};
ghost use Rattle.law_check.specs.AreaState.{KnowsAreas, holding, entry_of, newest, called_of, made_in, has_method, read_after, is_head_entry};
ghost use Rattle.law_check.specs.Held.{area_at, AreByStore};
ghost use Rattle.law_check.specs.Passing.{AreasStand, in_order};

use crate::held::{Area, Held};
use ipc_ids::{Code, Entry, NoMemory, Request, TaskNo, methods};
use std::alloc::Global;

/// How a call was made: by which task, with which method, and with which arguments, where the head
/// of its event is a call.
#[derive(Clone, Copy)]
pub struct MadeCall {
    pub caller: u64,
    pub method: u64,
    pub called: Option<[u64; 5]>,
}

/// What the entries so far say of areas: call `n` is at `n - 1`.
#[derive(Drop)]
pub struct Areas {
    made: Vec<MadeCall>,
    held: Held,
    last_store: u64,
    /// In an event that receives: how many calls were accepted before its first write.
    wants: Option<u64>,
    /// The least number of a DATA_READ that the present event has delivered.
    read: Option<u64>,
}

/// The entry is the head of an event.
pub fn is_head(entry: &Entry) -> bool
    ensures { result ≡ is_head_entry entry.now }
{
    matches!(
        entry,
        Entry::Head(_, _) | Entry::Kill(_) | Entry::Gone(_) | Entry::Spawn(_)
    )
}

/// The arguments of the call, where the head of the event is one.
fn called_in(now: Option<&Entry>) -> Option<[u64; 5]>
    ensures { result ≡ called_of (entry_of now.entry) }
{
    match now {
        Some(Entry::Head(_, Request::Call { msg, .. })) => Some(msg.args),
        _ => None,
    }
}

impl Areas {
    pub fn new(alloc: Global) -> Areas
        ensures { KnowsAreas [] result }
    {
        Areas {
            made: Vec::new(alloc),
            held: Held::new(alloc),
            last_store: 0,
            wants: None,
            read: None,
        }
    }

    fn made_at(&self, call: u64) -> Option<MadeCall>
        ensures { result ≡ kept_at self.now.made.items call }
    {
        if call == 0 {
            return None;
        }
        self.made.get(call as usize - 1).copied()
    }

    fn has_method(&self, call: u64, method: u64) -> bool
        ensures { result ≡ has_method method (kept_at self.now.made.items call) }
    {
        match self.made_at(call) {
            Some(made) => made.method == method,
            None => false,
        }
    }

    fn is_served(&self) -> bool
        ensures { (p : List Entry) → KnowsAreas p self.now
            → (IsTrue result ↔ IsServed (wants p) p []) }
    {
        match self.wants {
            Some(calls) => match self.read {
                Some(call) => call <= calls,
                None => false,
            },
            None => true,
        }
    }

    /// The task makes the area itself.
    fn is_made(&self, now: Option<&Entry>, task: TaskNo, base: u64, area: Area) -> bool
        ensures { (p : List Entry) → KnowsAreas p self.now → entry_of now.entry ≡ present p
            → (IsTrue result ↔ IsMade p task base (holding area)) }
    {
        match now {
            Some(
                Entry::Head(
                    asker,
                    Request::AreaMake {
                        base: at,
                        pages,
                        rights,
                    },
                ),
            ) => {
                *asker == task
                    && *at == base
                    && *pages == area.pages
                    && *rights == area.rights
                    && 0 < area.store
                    && area.store - 1 == self.last_store
            }
            _ => false,
        }
    }

    /// The area stands over the store of the one that the task holds there, with no further right.
    fn shares_from(&self, task: u64, base: u64, area: Area) -> bool
        ensures { (p : List Entry) → KnowsAreas p self.now
            → (IsTrue result ↔ SharesFrom (held task base p) (holding area)) }
    {
        match self.held.at(task, base) {
            Some(source) => {
                area.store == source.store && area.rights & source.rights == area.rights
            }
            None => false,
        }
    }

    /// The answer accepts a share call, by which the task gets this area.
    fn shares(
        &self,
        call: u64,
        answered: &[u64; 5],
        by: u64,
        task: u64,
        base: u64,
        area: Area,
    ) -> bool
        ensures { (p : List Entry) → KnowsAreas p self.now
            → (IsTrue result
            ↔ SharesMade p (making call p) by answered.now task base (holding area)) }
    {
        match self.made_at(call) {
            Some(
                MadeCall {
                    caller,
                    method,
                    called: Some(called),
                },
            ) => {
                if area.pages != called[1] || area.rights != called[2] {
                    return false;
                }
                if method == methods::SHARE_OUT {
                    return task == by
                        && base == answered[0]
                        && self.shares_from(caller, called[0], area);
                }
                method == methods::SHARE_IN
                    && task == caller
                    && base == called[0]
                    && self.shares_from(by, answered[0], area)
            }
            _ => false,
        }
    }

    /// The task gets the area by the last entry.
    fn is_shared(&self, last: Option<&Entry>, task: u64, base: u64, area: Area) -> bool
        ensures { (p : List Entry) → KnowsAreas p self.now → entry_of last.entry ≡ newest p
            → (IsTrue result ↔ IsShared p task base (holding area)) }
    {
        match last {
            Some(
                Entry::Answered {
                    call,
                    reply,
                    by: Some(by),
                },
            ) => {
                reply.code == Code::EOK && self.shares(call.0, &reply.args, by.0, task, base, area)
            }
            _ => false,
        }
    }

    /// The event is one in which the task may write.
    fn may_write(&self, now: Option<&Entry>, task: TaskNo) -> bool
        ensures { (p : List Entry) → KnowsAreas p self.now → entry_of now.entry ≡ present p
            → (IsTrue result ↔ (Pokes task (present p) ⊎ AcceptsWrite task p (present p)
            ⊎ Receives task (present p))) }
    {
        match now {
            Some(Entry::Head(asker, Request::Poke { .. })) => *asker == task,
            Some(Entry::Head(asker, Request::Answer { call, reply })) => {
                *asker == task
                    && reply.code == Code::EOK
                    && self.has_method(*call, methods::DATA_WRITE)
            }
            Some(Entry::Head(asker, Request::Receive)) => *asker == task,
            _ => false,
        }
    }

    /// A call is accepted in the event with this head.
    fn accept(&mut self, now: Option<&Entry>, caller: u64, method: u64) -> Result<(), NoMemory>
        ensures made { OnOk result (self.new.made.items
            ≡ self.old.made.items ++ made_in caller method (entry_of now.entry) ∷ []) }
        ensures held { self.new.held ≡ self.old.held }
        ensures last_store { self.new.last_store ≡ self.old.last_store }
        ensures wants { self.new.wants ≡ self.old.wants }
        ensures read { self.new.read ≡ self.old.read }
    {
        self.made.push(MadeCall {
            caller,
            method,
            called: called_in(now),
        })?;
        Ok(())
    }

    /// A call is delivered.
    fn deliver(&mut self, call: u64)
        ensures read { self.new.read ≡ read_after (has_method data_read
            (kept_at self.old.made.items call)) call self.old.read }
        ensures made { self.new.made ≡ self.old.made }
        ensures held { self.new.held ≡ self.old.held }
        ensures last_store { self.new.last_store ≡ self.old.last_store }
        ensures wants { self.new.wants ≡ self.old.wants }
    {
        if self.has_method(call, methods::DATA_READ) {
            let least = match self.read {
                Some(read) => { if read < call { read } else { call } }
                None => call,
            };
            self.read = Some(least);
        }
    }

    /// A task writes in the event with this head.
    fn write(&mut self, now: Option<&Entry>)
        ensures wants { self.new.wants ≡ wants_in (entry_of now.entry) self.old.wants
            (length self.old.made.items) }
        ensures read { self.new.read ≡ self.old.read }
        ensures made { self.new.made ≡ self.old.made }
        ensures held { self.new.held ≡ self.old.held }
        ensures last_store { self.new.last_store ≡ self.old.last_store }
    {
        match now {
            Some(Entry::Head(_, Request::Receive)) => {
                if self.wants.is_none() {
                    self.wants = Some(self.made.len() as u64);
                }
            }
            _ => (),
        }
    }

    /// A task gets an area.
    fn get(&mut self, task: u64, base: u64, area: Area) -> Result<(), NoMemory>
        ensures held { OnOk result ((t b : ℕ) → area_at self.new.held t b
            ≡ (if (task == t) && (base == b) then Some area else area_at self.old.held t b)) }
        ensures by_store { AreByStore self.old.held → OnOk result (AreByStore self.new.held) }
        ensures last_store { OnOk result (self.new.last_store
            ≡ max area.store self.old.last_store) }
        ensures wants { self.new.wants ≡ self.old.wants }
        ensures read { self.new.read ≡ self.old.read }
        ensures made { self.new.made ≡ self.old.made }
    {
        self.held.insert(task, base, area)?;
        if self.last_store < area.store {
            self.last_store = area.store;
        }
        Ok(())
    }

    /// A task has an area no longer.
    fn lose(&mut self, task: u64, base: u64)
        ensures held { (t b : ℕ) → area_at self.new.held t b
            ≡ (if (task == t) && (base == b) then None else area_at self.old.held t b) }
        ensures by_store { AreByStore self.old.held → AreByStore self.new.held }
        ensures last_store { self.new.last_store ≡ self.old.last_store }
        ensures wants { self.new.wants ≡ self.old.wants }
        ensures read { self.new.read ≡ self.old.read }
        ensures made { self.new.made ≡ self.old.made }
    {
        self.held.remove(task, base);
    }

    /// An event begins.
    fn begin(&mut self)
        ensures wants { self.new.wants ≡ None }
        ensures read { self.new.read ≡ None }
        ensures made { self.new.made ≡ self.old.made }
        ensures held { self.new.held ≡ self.old.held }
        ensures last_store { self.new.last_store ≡ self.old.last_store }
    {
        self.wants = None;
        self.read = None;
    }

    /// The entry may come next, in the event with this head, after this last entry.
    fn may_come(&self, now: Option<&Entry>, last: Option<&Entry>, entry: &Entry) -> bool
        ensures { (p : List Entry) → KnowsAreas p self.now → entry_of now.entry ≡ present p
            → entry_of last.entry ≡ newest p → (IsTrue result ↔ MayCome p entry.now) }
    {
        match entry {
            Entry::Head(_, _) => self.is_served(),
            Entry::Kill(_) => self.is_served(),
            Entry::Gone(_) => self.is_served(),
            Entry::Spawn(_) => self.is_served(),
            Entry::AreaMade {
                task,
                base,
                pages,
                rights,
                store,
            } => {
                let area = Area {
                    pages: *pages,
                    rights: *rights,
                    store: store.0,
                };
                self.is_made(now, *task, *base, area) || self.is_shared(last, task.0, *base, area)
            }
            Entry::Wrote {
                task,
                at,
                count,
                store,
            } => self.may_write(now, *task) && self.held.covers(task.0, *at, *count, store.0),
            _ => true,
        }
    }

    /// Takes an entry, in the event with this head.
    fn take(&mut self, now: Option<&Entry>, entry: &Entry) -> Result<(), NoMemory>
        ensures { (p : List Entry) → KnowsAreas p self.old → entry_of now.entry ≡ present p
            → WasAllowed (tales p) → IsAllowed (tales p) (tale entry.now)
            → OnOk result (KnowsAreas (entry.now ∷ p) self.new) }
    {
        match entry {
            Entry::Head(_, _) => self.begin(),
            Entry::Kill(_) => self.begin(),
            Entry::Gone(_) => self.begin(),
            Entry::Spawn(_) => self.begin(),
            Entry::Accepted { from, method, .. } => return self.accept(now, from.task.0, *method),
            Entry::Delivered { call, .. } => self.deliver(call.0),
            Entry::Wrote { .. } => self.write(now),
            Entry::AreaMade {
                task,
                base,
                pages,
                rights,
                store,
            } => {
                return self.get(
                    task.0,
                    *base,
                    Area {
                        pages: *pages,
                        rights: *rights,
                        store: store.0,
                    },
                )
            }
            Entry::AreaGone { task, base } => self.lose(task.0, *base),
            _ => (),
        }
        Ok(())
    }

    /// Before an entry comes: where it says that a task writes, its area is found soon.
    fn prepare(&mut self, entry: &Entry)
        ensures { (p : List Entry) → KnowsAreas p self.old → KnowsAreas p self.new }
    {
        match entry {
            Entry::Wrote {
                task,
                at,
                count,
                store,
            } => self.held.prepare(task.0, *at, *count, store.0),
            _ => (),
        }
    }

    /// Takes a lawful entry, in the event with this head, after this last entry, and tells whether
    /// the law still holds, as it did before or not.
    pub fn go_on(
        &mut self,
        holds: bool,
        now: Option<&Entry>,
        last: Option<&Entry>,
        entry: &Entry,
    ) -> Result<bool, NoMemory>
        ensures { (p : List Entry) → AreasStand p holds self.old → entry_of now.entry ≡ present p
            → entry_of last.entry ≡ newest p → WasAllowed (tales p)
            → IsAllowed (tales p) (tale entry.now)
            → IfOk result (λ yes. AreasStand (entry.now ∷ p) yes self.new) }
    {
        if !holds {
            return Ok(false);
        }
        self.prepare(entry);
        if !self.may_come(now, last, entry) {
            return Ok(false);
        }
        self.take(now, entry)?;
        Ok(true)
    }

    /// The entries that were taken satisfy the law of shared areas, which held so far or not.
    pub fn hold(&self, holds: bool) -> bool
        ensures { (p : List Entry) → AreasStand p holds self.now → LivesAreLawful (in_order p [])
            → (IsTrue result ↔ AreasAreLawful (in_order p [])) }
    {
        holds && self.is_served()
    }
}
