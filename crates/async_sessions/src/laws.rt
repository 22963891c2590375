//! What the calls on sessions come to, over all states.
ghost use Rattle.std.specs.Prelude.{ℕ, ◌≡◌, ◌<◌, Bool, Option, Some};
ghost use Rattle.ipc_ids.specs.declared.numbers.FibrilNo.{FibrilNo};
ghost use Rattle.ipc_ids.specs.declared.numbers.ExchangeNo.{ExchangeNo};
ghost use Rattle.ipc_ids.specs.declared.message.ExchangeMode.{ExchangeMode};
ghost use Rattle.ipc_ids.specs.declared.message.ExchangeMode.TheVariants as mode;
ghost use Rattle.async_sessions.specs.declared.sessions.Exchange.{Exchange};
ghost use Rattle.async_sessions.specs.declared.sessions.Begin.TheVariants as begin;
ghost use Rattle.async_sessions.specs.declared.sessions.Close.TheVariants as close;
ghost use Rattle.async_sessions.specs.Sessions.{Open, no_sessions, session_at, mode_answer};
ghost use Rattle.async_sessions.specs.Sessions.{make_after, begin_answer, begin_after, added};
ghost use Rattle.async_sessions.specs.Sessions.{held_by, end_after, close_answer, close_after};
ghost use Rattle.async_sessions.specs.SessionLaws.{AnswersBegin, AnswersClose, FindsHeld};
ghost use Rattle.async_sessions.specs.SessionLaws.{Loses, LosesSession, EndsOne, IsSound};

/// Each answer of a begin comes exactly where its row of the table says. A parallel session begins
/// the exchange of it that has been idle longest and, where none of it is idle after `ELIMIT`, has
/// the one hung up that has been idle longest in the task.
pub fn begins_answer_by_the_table()
    ensures { (o : Open) (s : ℕ) (short : Bool)
        → AnswersBegin o s short (begin_answer o s short (session_at o s)) (session_at o s) }
{}

/// Each answer of a close comes exactly where its row of the table says.
pub fn closes_answer_by_the_table()
    ensures { (o : Open) (s : ℕ) (waiting : Bool)
        → AnswersClose o s waiting (close_answer o s waiting (session_at o s)) (session_at o s) }
{}

/// What a fibril finds under a number is the exchange that it has begun, and it finds none exactly
/// where it has begun none with that number.
pub fn searches_find_the_exchange_of_the_fibril()
    ensures { (o : Open) (f : FibrilNo) (e : ExchangeNo)
        → FindsHeld f e o.exchanges (held_by f e o.exchanges) }
{}

/// A begin and a close that name an exchange to hang up have dropped it, and no other. The last
/// step of a close removes the session, and no other.
pub fn dropped_exchanges_are_gone()
    ensures begun { (o : Open) (f : FibrilNo) (s : ℕ) (m : Option ExchangeMode) (e : ExchangeNo)
        (phone : ℕ) → Loses o (begin_after o f s m (begin.HangIdle e phone)) e }
    ensures closed { (o : Open) (s : ℕ) (e : ExchangeNo) (phone : ℕ)
        → Loses o (close_after o s (close.HangIdle e phone)) e }
    ensures last { (o : Open) (s phone : ℕ) → s < 16
        → LosesSession o (close_after o s (close.Last phone)) s }
{}

/// The end of an exchange leaves all other exchanges as they are.
pub fn ends_change_one_exchange()
    ensures { (o : Open) (f : FibrilNo) (e : ExchangeNo) (x : Exchange)
        → held_by f e o.exchanges ≡ Some x → EndsOne o (end_after o e (Some x)) e x }
{}

/// Sessions that are sound are so after each call: no two exchanges have one number, and a
/// serialized session has one begun exchange at most. None are at the start, and that is sound.
pub fn calls_keep_sessions_sound()
    ensures none { IsSound no_sessions }
    ensures made { (o : Open) (s phone : ℕ) (m : ExchangeMode) → IsSound o
        → IsSound (make_after o s phone m (session_at o s)) }
    ensures begun { (o : Open) (f : FibrilNo) (s : ℕ) (short : Bool) → IsSound o
        → IsSound (begin_after o f s (mode_answer (session_at o s))
        (begin_answer o s short (session_at o s))) }
    ensures connected { (o : Open) (f : FibrilNo) (s phone : ℕ) → IsSound o
        → mode_answer (session_at o s) ≡ Some mode.Parallel
        → IsSound (added o f s phone mode.Parallel) }
    ensures ended { (o : Open) (f : FibrilNo) (e : ExchangeNo) → IsSound o
        → IsSound (end_after o e (held_by f e o.exchanges)) }
    ensures closed { (o : Open) (s : ℕ) (waiting : Bool) → IsSound o
        → IsSound (close_after o s (close_answer o s waiting (session_at o s))) }
{}
