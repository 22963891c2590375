//! Sessions by number, and their exchanges.
ghost use Rattle.std.specs.Prelude.{◌≡◌, ◌+◌, ◌^◌, ◌<◌, ◌≤◌, OnOk, OnErr, Some};
ghost use Rattle.async_sessions.specs.Sessions.{IsWithinBounds, no_sessions, session_at};
ghost use Rattle.async_sessions.specs.Sessions.{made, make_after, mode_answer, next_exchange};
ghost use Rattle.async_sessions.specs.Sessions.{begin_answer, begin_in, begun_after};
ghost use Rattle.async_sessions.specs.Sessions.{first_idle, idle_of, added, dropped};
ghost use Rattle.async_sessions.specs.Sessions.{held_by, phone_answer};
ghost use Rattle.async_sessions.specs.Sessions.{end_answer, end_after, ended};
ghost use Rattle.async_sessions.specs.Sessions.{close_answer, close_in, close_after};

mod beside;

use crate::exchanges::Exchanges;
use ipc_ids::{Code, ExchangeMode, ExchangeNo, FibrilNo, NoMemory};
use std::alloc::Global;
use std::marker::Model;

/// A phone, and how exchanges share it.
#[derive(Clone, Copy)]
pub struct Session {
    pub phone: u64,
    pub mode: ExchangeMode,
}

/// Whether a fibril has begun an exchange.
#[derive(Clone, Copy, PartialEq, Eq)]
pub enum Held {
    /// This fibril has begun it, and has not ended it.
    By(FibrilNo),
    /// It has ended, and may be begun again.
    Idle,
}

/// An exchange of a session over a phone. Its mode is that of its session. The stamp says since
/// when it has been idle, and is 0 while it is begun.
#[derive(Clone, Copy)]
pub struct Exchange {
    pub number: ExchangeNo,
    pub session: u32,
    pub phone: u64,
    pub mode: ExchangeMode,
    pub held: Held,
    pub stamp: u64,
}

/// What a begin comes to.
#[derive(Clone, Copy, PartialEq, Eq)]
pub enum Begin {
    /// This exchange is begun, over this phone.
    Begun(ExchangeNo, u64),
    /// A new phone is wanted: connect over this one, then `add` the exchange.
    Connect(u64),
    /// No phone was free. This exchange is gone: hang up its phone, then begin again.
    HangIdle(ExchangeNo, u64),
    /// Another exchange of the session is begun: wait for its end, then begin again.
    WaitMutex,
    /// No phone was free and no exchange is idle: wait for the end of one, then begin again.
    WaitPhone,
    /// The session is not in use.
    Refused(Code),
    /// No memory was found. Nothing has changed.
    NoMemory,
}

/// The session and the mode of an exchange that has ended.
#[derive(Clone, Copy, PartialEq, Eq)]
pub struct Ended {
    pub session: u32,
    pub mode: ExchangeMode,
}

/// What a close comes to.
#[derive(Clone, Copy, PartialEq, Eq)]
pub enum Close {
    /// This exchange is gone: hang up its phone, then close again.
    HangIdle(ExchangeNo, u64),
    /// The session is gone: hang up its phone.
    Last(u64),
    /// The session is not in use, or it is busy.
    Refused(Code),
}

/// The sessions and exchanges of a task, with room for `spare` exchanges more.
#[derive(Drop)]
pub struct Sessions {
    sessions: [Option<Session>; 16],
    exchanges: Exchanges,
    next_stamp: u64,
}

impl Model for Sessions {
    ghost use Rattle.async_sessions.specs.Sessions.{SessionsState};

    ghost Value = { SessionsState };

    ghost view = { λ a. record {
      now = record {
        sessions = a.sessions;
        exchanges = a.exchanges.now.listed;
        next_number = a.exchanges.now.next_number;
        next_stamp = a.next_stamp;
      };
      spare = a.exchanges.spare;
    } };
}

impl Sessions {
    /// No sessions; it takes no memory.
    pub fn new(alloc: Global) -> Sessions
        ensures { result.now ≡ no_sessions }
    {
        Sessions {
            sessions: [None; 16],
            exchanges: Exchanges::new(alloc),
            next_stamp: 1,
        }
    }

    /// Makes room for one more exchange.
    ///
    /// # Errors
    ///
    /// `NoMemory` where there was no room and no memory was found.
    pub fn reserve(&mut self) -> Result<(), NoMemory>
        ensures same { self.new.now ≡ self.old.now }
        ensures room { OnOk result (0 < self.new.spare) }
        ensures full { OnErr result (self.old.spare ≡ 0) }
        ensures spare { self.old.spare ≤ self.new.spare }
    {
        self.exchanges.reserve()
    }

    /// The sessions by number: 16, of which `None` is not in use. Takes no memory.
    pub fn sessions(&self) -> &[Option<Session>]
        ensures { result.now ≡ self.now.now.sessions }
    {
        &self.sessions
    }

    /// The exchanges by rising number. Takes no memory.
    pub fn exchanges(&self) -> &[Exchange]
        ensures { result.now ≡ self.now.now.exchanges }
    {
        self.exchanges.as_slice()
    }

    /// The stamp that the next exchange gets that becomes idle. Takes no memory.
    pub fn next_stamp(&self) -> u64
        ensures { result ≡ self.now.now.next_stamp }
    {
        self.next_stamp
    }

    /// The session with this number, if it is in use.
    fn session(&self, s: u32) -> Option<Session>
        ensures { result ≡ session_at self.now.now s }
    {
        match self.sessions.get(s as usize) {
            Some(session) => *session,
            None => None,
        }
    }

    /// Puts session `s` in use, with this phone and mode. A number from 16 on is never in use.
    ///
    /// # Errors
    ///
    /// `EBUSY` where it is in use. Nothing has changed then.
    pub fn make(&mut self, s: u32, phone: u64, mode: ExchangeMode) -> Result<(), Code>
        ensures answer { result ≡ made (session_at self.old.now s) }
        ensures after { self.new.now
            ≡ make_after self.old.now s phone mode (session_at self.old.now s) }
        ensures spare { self.new.spare ≡ self.old.spare }
    {
        match self.session(s) {
            Some(_) => Err(Code::EBUSY),
            None => {
                if s < 16 {
                    self.sessions[s as usize] = Some(Session { phone, mode });
                }
                Ok(())
            }
        }
    }

    /// The mode of session `s`, if it is in use. Takes no memory.
    pub fn mode_of(&self, s: u32) -> Option<ExchangeMode>
        ensures { result ≡ mode_answer (session_at self.now.now s) }
    {
        match self.session(s) {
            Some(session) => Some(session.mode),
            None => None,
        }
    }

    /// The number that the next new exchange gets.
    pub fn next_number(&self) -> ExchangeNo
        ensures { result ≡ next_exchange self.now.now }
    {
        self.exchanges.next_number()
    }

    /// What a begin of session `s` would come to, want of memory aside. Takes no memory.
    #[inline(always)]
    pub fn plan_begin(&self, _f: FibrilNo, s: u32, short: bool) -> Begin
        ensures { result ≡ begin_answer self.now.now s short (session_at self.now.now s) }
    {
        match self.session(s) {
            None => Begin::Refused(Code::ENOENT),
            Some(session) => self.plan_in(s, session, short),
        }
    }

    /// What a begin of a session in use would come to.
    fn plan_in(&self, s: u32, session: Session, short: bool) -> Begin
        ensures { result ≡ begin_in self.now.now s short session session.mode }
    {
        match session.mode {
            ExchangeMode::Atomic => Begin::Begun(self.next_number(), session.phone),
            ExchangeMode::Serialize => {
                if self.exchanges.is_any_begun(s) {
                    Begin::WaitMutex
                } else {
                    Begin::Begun(self.next_number(), session.phone)
                }
            }
            ExchangeMode::Parallel => self.plan_parallel(s, session, short),
        }
    }

    /// What a begin of a parallel session would come to.
    fn plan_parallel(&self, s: u32, session: Session, short: bool) -> Begin
        ensures { result
            ≡ idle_of self.now.now short session (first_idle (Some s) self.now.now.exchanges) }
    {
        match self.exchanges.first_idle(Some(s)) {
            Some(idle) => Begin::Begun(idle.number, idle.phone),
            None => {
                if short {
                    match self.exchanges.first_idle(None) {
                        Some(idle) => Begin::HangIdle(idle.number, idle.phone),
                        None => Begin::WaitPhone,
                    }
                } else {
                    Begin::Connect(session.phone)
                }
            }
        }
    }

    /// Begins the exchange that a plan of a begin named: a new one, or one that is idle. There is
    /// room for an exchange.
    pub fn begin_exchange(
        &mut self,
        f: FibrilNo,
        s: u32,
        e: ExchangeNo,
        phone: u64,
        mode: ExchangeMode,
    )
        requires room { 0 < self.old.spare }
        requires few_numbers { self.old.now.next_number < 2 ^ 62 }
        ensures after { self.new.now ≡ begun_after self.old.now f s e phone mode }
    {
        if e == self.next_number() {
            self.add(f, s, phone, mode);
        } else {
            self.exchanges.change(e, Held::By(f), 0);
        }
    }

    /// Adds a new exchange, which fibril `f` has begun. There is room for it.
    pub fn add(&mut self, f: FibrilNo, s: u32, phone: u64, mode: ExchangeMode)
        requires room { 0 < self.old.spare }
        requires few_numbers { self.old.now.next_number < 2 ^ 62 }
        ensures after { self.new.now ≡ added self.old.now f s phone mode }
        ensures spare { self.new.spare + 1 ≡ self.old.spare }
    {
        self.exchanges.add(Exchange {
            number: self.exchanges.next_number(),
            session: s,
            phone,
            mode,
            held: Held::By(f),
            stamp: 0,
        });
    }

    /// Removes the exchange with this number, if there is one.
    pub fn drop_exchange(&mut self, e: ExchangeNo)
        ensures after { self.new.now ≡ dropped self.old.now e }
    {
        self.exchanges.drop_exchange(e);
    }

    /// The exchange with this number, if fibril `f` has begun it.
    fn held(&self, f: FibrilNo, e: ExchangeNo) -> Option<Exchange>
        ensures { result ≡ held_by f e self.now.now.exchanges }
    {
        match self.exchanges.exchange_at(e) {
            Some(x) if x.held == Held::By(f) => Some(*x),
            _ => None,
        }
    }

    /// The phone of an exchange, if fibril `f` has begun it. Takes no memory.
    pub fn phone_of(&self, f: FibrilNo, e: ExchangeNo) -> Option<u64>
        ensures { result ≡ phone_answer (held_by f e self.now.now.exchanges) }
    {
        match self.held(f, e) {
            Some(x) => Some(x.phone),
            None => None,
        }
    }

    /// Fibril `f` ends an exchange. One of a parallel session is idle from now on, any other is
    /// gone. Takes no memory.
    ///
    /// # Errors
    ///
    /// `ENOENT` where `f` has not begun it. Nothing has changed then.
    #[inline(always)]
    pub fn end(&mut self, f: FibrilNo, e: ExchangeNo) -> Result<Ended, Code>
        requires bounds { IsWithinBounds self.old.now }
        ensures answer { result ≡ end_answer (held_by f e self.old.now.exchanges) }
        ensures after { self.new.now
            ≡ end_after self.old.now e (held_by f e self.old.now.exchanges) }
    {
        match self.held(f, e) {
            Some(x) => {
                self.end_held(e, x.mode);
                Ok(Ended {
                    session: x.session,
                    mode: x.mode,
                })
            }
            None => Err(Code::ENOENT),
        }
    }

    /// Ends an exchange of that mode.
    fn end_held(&mut self, e: ExchangeNo, mode: ExchangeMode)
        requires bounds { IsWithinBounds self.old.now }
        ensures after { self.new.now ≡ ended self.old.now e mode }
    {
        match mode {
            ExchangeMode::Parallel => {
                let stamp = self.next_stamp;
                self.exchanges.change(e, Held::Idle, stamp);
                self.next_stamp = stamp + 1;
            }
            ExchangeMode::Atomic | ExchangeMode::Serialize => self.drop_exchange(e),
        }
    }

    /// What a close of session `s` would come to. Takes no memory.
    pub fn plan_close(&self, s: u32, waiting: bool) -> Close
        ensures { result ≡ close_answer self.now.now s waiting (session_at self.now.now s) }
    {
        match self.session(s) {
            None => Close::Refused(Code::ENOENT),
            Some(session) => self.plan_close_in(s, session, waiting),
        }
    }

    /// What a close of a session in use would come to.
    fn plan_close_in(&self, s: u32, session: Session, waiting: bool) -> Close
        ensures { result ≡ close_in self.now.now s waiting session }
    {
        if waiting || self.exchanges.is_any_begun(s) {
            return Close::Refused(Code::EBUSY);
        }
        match self.exchanges.first_idle(Some(s)) {
            Some(idle) => Close::HangIdle(idle.number, idle.phone),
            None => Close::Last(session.phone),
        }
    }

    /// Does one step of the close of session `s`: an idle exchange of it goes or, where none is
    /// left, the session. `waiting` says that a fibril is blocked in a begin of it. A refusal is
    /// `ENOENT` where the session is not in use, and `EBUSY` where it is busy: an exchange of it
    /// is begun, or a fibril waits. Takes no memory.
    pub fn close(&mut self, s: u32, waiting: bool) -> Close
        ensures answer { result
            ≡ close_answer self.old.now s waiting (session_at self.old.now s) }
        ensures after { self.new.now ≡ close_after self.old.now s result }
    {
        let plan = self.plan_close(s, waiting);
        self.close_by(s, &plan);
        plan
    }

    /// Does to the session and its exchanges what a close comes to.
    fn close_by(&mut self, s: u32, plan: &Close)
        ensures after { self.new.now ≡ close_after self.old.now s plan.now }
    {
        match plan {
            Close::HangIdle(e, _) => self.drop_exchange(*e),
            Close::Last(_) => {
                if s < 16 {
                    self.sessions[s as usize] = None;
                }
            }
            Close::Refused(_) => {}
        }
    }
}
