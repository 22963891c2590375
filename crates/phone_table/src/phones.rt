//! The phones of a task.
ghost use Rattle.std.specs.Prelude.{◌≡◌, ◌+◌, ◌-◌, ◌<◌, ◌≤◌, ◌^◌, true, length, slice_get, slice_index, Some, IfSome, OnOk, option_map};
ghost use Rattle.phone_table.specs.Phones.{free_row, with_phone, with_count, is_usable, first_usable, hangup_answer, after_hangup};
ghost use Rattle.phone_table.specs.Usable.{usable_at, IsConnected};

use crate::hung::Hung;
use arrayvec::ArrayVec;
use ipc_ids::{Code, PhoneNo, PhoneState, TaskNo};
use std::marker::Model;

/// A phone with the number of its active calls.
#[derive(Clone, Copy)]
struct Phone {
    state: PhoneState,
    count: u32,
}

/// A free phone without calls.
impl Default for Phone {
    fn default() -> Phone {
        Phone::FREE
    }
}

impl Phone {
    const FREE: Phone = Phone {
        state: PhoneState::Free,
        count: 0,
    };

    /// Whether the phone may be handed out: it is free, or hung up without an active call.
    fn is_usable(&self) -> bool
        ensures { result ≡ is_usable self.now.state self.now.count }
    {
        match self.state {
            PhoneState::Free => true,
            PhoneState::HungUp => self.count == 0,
            PhoneState::Connecting | PhoneState::Connected(_) | PhoneState::Slammed => false,
        }
    }
}

/// The phones of a task, 1 to 64, each with the number of its active calls.
#[derive(Drop)]
pub struct Phones {
    phones: ArrayVec<Phone, 64>,
}

impl Model for Phones {
    ghost use Rattle.phone_table.specs.Phones.{Row, IsRow};
    ghost use Rattle.phone_table.specs.Views.{states_of, counts_of, row_of};

    ghost Value = { Row };

    ghost view = { λ a. row_of a.phones.items };

    ghost invariant = { λ a. IsRow (states_of a.phones.items) (counts_of a.phones.items) };
}

impl Phones {
    /// A task's phones, 1 to 64, all free and without calls.
    pub fn new(limit: u32) -> Phones
        requires some { 1 ≤ limit }
        requires few { limit ≤ 64 }
        ensures { result ≡ free_row limit }
    {
        let mut phones = ArrayVec::from_array_in((), [Phone::FREE; 64]);
        phones.truncate(limit as usize);
        Phones { phones }
    }

    /// How many phones the task has, each with its count.
    pub fn len(&self) -> u64
        ensures states { result ≡ length self.now.states }
        ensures counts { result ≡ length self.now.counts }
    {
        self.phones.len() as u64
    }

    /// The state of a phone; `None` where the task has no such phone.
    pub fn state(&self, p: u64) -> Option<PhoneState>
        ensures state { result ≡ slice_get self.now.states p }
        ensures few { IfSome result (λ _. p < 64) }
    {
        match self.phones.get(p as usize) {
            Some(phone) => Some(phone.state),
            None => None,
        }
    }

    /// How many active calls the phone has.
    pub fn active(&self, p: PhoneNo) -> u32
        requires in_range { p.0 < length self.now.states }
        ensures { slice_get self.now.counts p.0 ≡ Some result }
    {
        self.phones[p.0 as usize].count
    }

    /// Counts one active call more on the phone.
    pub fn count_up(&mut self, p: PhoneNo)
        requires in_range { p.0 < length self.old.states }
        requires few { slice_index self.old.counts p.0 < 2 ^ 31 }
        ensures { self.new ≡ with_count self.old p.0 (slice_index self.old.counts p.0 + 1) }
    {
        let count = self.active(p);
        self.put_count(p, count + 1);
    }

    /// Counts one active call less on the phone.
    pub fn count_down(&mut self, p: PhoneNo)
        requires in_range { p.0 < length self.old.states }
        requires positive { 0 < slice_index self.old.counts p.0 }
        ensures { self.new ≡ with_count self.old p.0 (slice_index self.old.counts p.0 - 1) }
    {
        let count = self.active(p);
        self.put_count(p, count - 1);
    }

    /// The usable phone of the least number; `None` where no phone is usable.
    pub fn first_usable(&self) -> Option<PhoneNo>
        ensures first { option_map (λ p. p.0) result ≡ first_usable self.now }
        ensures in_range { IfSome result (λ p. p.0 < length self.now.states) }
        ensures usable { IfSome result (λ p. usable_at self.now p.0 ≡ true) }
    {
        for i in 0..self.phones.len() {
            if self.phones[i].is_usable() {
                return Some(PhoneNo(i as u32));
            }
        }
        None
    }

    /// Keeps a usable phone for a connection that is still to be made.
    pub fn reserve(&mut self, p: PhoneNo)
        requires in_range { p.0 < length self.old.states }
        requires usable { usable_at self.old p.0 ≡ true }
        ensures { self.new ≡ with_phone self.old p.0 PhoneState.Connecting }
    {
        self.put_state(p, PhoneState::Connecting);
    }

    /// Connects a kept phone to that task.
    pub fn connect(&mut self, p: PhoneNo, to: TaskNo)
        requires waits { slice_get self.old.states p.0 ≡ Some PhoneState.Connecting }
        ensures { self.new ≡ with_phone self.old p.0 (PhoneState.Connected to) }
    {
        self.put_state(p, PhoneState::Connected(to));
    }

    /// Frees a kept phone, which no connection came to.
    pub fn free(&mut self, p: PhoneNo)
        requires waits { slice_get self.old.states p.0 ≡ Some PhoneState.Connecting }
        ensures { self.new ≡ with_phone self.old p.0 PhoneState.Free }
    {
        self.put_state(p, PhoneState::Free);
    }

    /// Slams a connected phone, whose task has ended.
    pub fn slam(&mut self, p: PhoneNo)
        requires leads { IsConnected (slice_get self.old.states p.0) }
        ensures { self.new ≡ with_phone self.old p.0 PhoneState.Slammed }
    {
        self.put_state(p, PhoneState::Slammed);
    }

    /// Connects a free phone to that task.
    pub fn wire(&mut self, p: PhoneNo, to: TaskNo)
        requires free { slice_get self.old.states p.0 ≡ Some PhoneState.Free }
        ensures { self.new ≡ with_phone self.old p.0 (PhoneState.Connected to) }
    {
        let wired = PhoneState::Connected(to);
        self.put_state(p, wired);
    }

    /// Hangs up a phone that is connected or slammed, and says whom to tell.
    ///
    /// # Errors
    ///
    /// `ENOENT` where the task has no such phone; `EINVAL` where it is free, kept or hung up.
    pub fn hangup(&mut self, p: u64) -> Result<Hung, Code>
        ensures answer { result ≡ hangup_answer (slice_get self.old.states p) }
        ensures row { self.new ≡ after_hangup self.old p result }
        ensures few { OnOk result (p < 64) }
    {
        let Some(state) = self.state(p) else {
            return Err(Code::ENOENT);
        };
        let phone = PhoneNo(p as u32);
        match state {
            PhoneState::Connected(to) => {
                self.put_state(phone, PhoneState::HungUp);
                Ok(Hung::Sent(to))
            }
            PhoneState::Slammed => {
                self.put_state(phone, PhoneState::HungUp);
                Ok(Hung::Silent)
            }
            PhoneState::Free | PhoneState::Connecting | PhoneState::HungUp => Err(Code::EINVAL),
        }
    }

    /// Gives the phone this state.
    fn put_state(&mut self, p: PhoneNo, state: PhoneState)
        requires { p.0 < length self.old.states }
        ensures { self.new ≡ with_phone self.old p.0 state }
    {
        self.phones[p.0 as usize].state = state;
    }

    /// Gives the phone this number of active calls.
    fn put_count(&mut self, p: PhoneNo, count: u32)
        requires { p.0 < length self.old.states }
        ensures { self.new ≡ with_count self.old p.0 count }
    {
        self.phones[p.0 as usize].count = count;
    }
}
