//! Calls that the program does not make, for who uses the crate alone: a begin in one call, and what
//! follows a connect. The program does as `plan_begin` says, by `reserve` and then `begin_exchange`,
//! `add` or `drop_exchange`.
ghost use Rattle.std.specs.Prelude.{◌≡◌, ◌<◌, IfOk, OnOk, OnErr, ◌⊎◌, Some};
ghost use Rattle.async_sessions.specs.Sessions.{IsWithinBounds, session_at, mode_answer, next_exchange};
ghost use Rattle.async_sessions.specs.Sessions.{begin_answer, begin_after, added};

use super::{Begin, Sessions};
use ipc_ids::{ExchangeMode, ExchangeNo, FibrilNo, NoMemory};

impl Sessions {
    /// Fibril `f` begins an exchange of session `s`, where one can be begun now. `short` says that
    /// its connect call was answered with `ELIMIT`. An exchange that a `HangIdle` names is gone,
    /// and after `NoMemory` nothing has changed.
    pub fn begin(&mut self, f: FibrilNo, s: u32, short: bool) -> Begin
        requires bounds { IsWithinBounds self.old.now }
        ensures answer { (result ≡ Begin.NoMemory)
            ⊎ (result ≡ begin_answer self.old.now s short (session_at self.old.now s)) }
        ensures state { self.new.now
            ≡ begin_after self.old.now f s (mode_answer (session_at self.old.now s)) result }
        ensures unchanged { result ≡ Begin.NoMemory → self.new.now ≡ self.old.now }
    {
        match self.reserve() {
            Ok(()) => self.begin_reserved(f, s, short),
            Err(_) => Begin::NoMemory,
        }
    }

    /// As `begin`. There is room for an exchange.
    pub fn begin_reserved(&mut self, f: FibrilNo, s: u32, short: bool) -> Begin
        requires room { 0 < self.old.spare }
        requires bounds { IsWithinBounds self.old.now }
        ensures answer { result ≡ begin_answer self.old.now s short (session_at self.old.now s) }
        ensures state { self.new.now
            ≡ begin_after self.old.now f s (mode_answer (session_at self.old.now s)) result }
    {
        let plan = self.plan_begin(f, s, short);
        let mode = self.mode_of(s);
        self.carry_out(f, s, mode, &plan);
        plan
    }

    /// Does to the exchanges what a begin comes to. There is room for an exchange.
    fn carry_out(&mut self, f: FibrilNo, s: u32, mode: Option<ExchangeMode>, plan: &Begin)
        requires room { 0 < self.old.spare }
        requires bounds { IsWithinBounds self.old.now }
        ensures state { self.new.now ≡ begin_after self.old.now f s mode plan.now }
    {
        match plan {
            Begin::Begun(e, phone) => {
                if let Some(mode) = mode {
                    self.begin_exchange(f, s, *e, *phone, mode);
                }
            }
            Begin::HangIdle(e, _) => self.drop_exchange(*e),
            Begin::Connect(_)
            | Begin::WaitMutex
            | Begin::WaitPhone
            | Begin::Refused(_)
            | Begin::NoMemory => {}
        }
    }

    /// The connect call for a begin of the parallel session `s` was answered with that phone:
    /// fibril `f` has begun a new exchange over it.
    ///
    /// # Errors
    ///
    /// `NoMemory` where there was no room and no memory was found. Nothing has changed then.
    pub fn connected(&mut self, f: FibrilNo, s: u32, phone: u64) -> Result<ExchangeNo, NoMemory>
        requires bounds { IsWithinBounds self.old.now }
        requires parallel { mode_answer (session_at self.old.now s) ≡ Some ExchangeMode.Parallel }
        ensures number { IfOk result (λ e. e ≡ next_exchange self.old.now) }
        ensures after { OnOk result
            (self.new.now ≡ added self.old.now f s phone ExchangeMode.Parallel) }
        ensures unchanged { OnErr result (self.new.now ≡ self.old.now) }
    {
        self.reserve()?;
        let number = self.next_number();
        self.add(f, s, phone, ExchangeMode::Parallel);
        Ok(number)
    }
}
