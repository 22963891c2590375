//! Each mode, a phone that is wanted, and a close: steps of plain data. A begin is planned and then
//! carried out, as an async task does it.
ghost use Rattle.std.specs.Prelude.{◌<◌, OnOk};
ghost use Rattle.async_sessions.specs.Sessions.{IsWithinBounds};

use async_sessions::{Begin, Close, Sessions};
use ipc_ids::{Code, ExchangeMode, ExchangeNo, FibrilNo};
use std::alloc::Global;
use std::test::Fail;

/// What numbers and stamps stay below here.
const FAR: u64 = 1 << 40;

const ONE: FibrilNo = FibrilNo(1);

const TWO: FibrilNo = FibrilNo(2);

const FIRST: ExchangeNo = ExchangeNo(1);

const SECOND: ExchangeNo = ExchangeNo(2);

enum Step {
    /// The session comes over this phone.
    Make(u32, u64, ExchangeMode),
    /// The fibril begins an exchange of the session, after `ELIMIT` or not, which comes to that.
    Begin(FibrilNo, u32, bool, Begin),
    /// The fibril has connected a phone for an exchange of the session.
    Add(FibrilNo, u32, u64),
    /// The fibril ends the exchange, and has begun it or not.
    End(FibrilNo, ExchangeNo, bool),
    /// The session is closed while a fibril waits or none does, which comes to that.
    Close(u32, bool, Close),
}

/// Makes room for an exchange, and sees that numbers and stamps are low.
fn prepare(sessions: &mut Sessions) -> Result<(), Fail>
    ensures room { OnOk result (0 < sessions.new.spare) }
    ensures bounds { OnOk result (IsWithinBounds sessions.new.now) }
{
    sessions.reserve()?;
    if sessions.next_number().0 >= FAR || sessions.next_stamp() >= FAR {
        return Err(Fail::new("too many exchanges"));
    }
    Ok(())
}

/// Does what a begin comes to.
fn carry_out(sessions: &mut Sessions, f: FibrilNo, s: u32, plan: Begin)
    requires room { 0 < sessions.old.spare }
    requires bounds { IsWithinBounds sessions.old.now }
{
    match plan {
        Begin::Begun(e, phone) => {
            if let Some(mode) = sessions.mode_of(s) {
                sessions.begin_exchange(f, s, e, phone, mode);
            }
        }
        Begin::HangIdle(e, _) => sessions.drop_exchange(e),
        _ => {}
    }
}

/// Whether the step comes to what it says.
fn is_so(sessions: &mut Sessions, step: &Step) -> Result<bool, Fail> {
    prepare(sessions)?;
    match step {
        Step::Make(s, phone, mode) => Ok(sessions.make(*s, *phone, *mode) == Ok(())),
        Step::Begin(f, s, short, begin) => {
            let plan = sessions.plan_begin(*f, *s, *short);
            carry_out(sessions, *f, *s, plan);
            Ok(plan == *begin)
        }
        Step::Add(f, s, phone) => {
            sessions.add(*f, *s, *phone, ExchangeMode::Parallel);
            Ok(true)
        }
        Step::End(f, e, is_begun) => Ok(sessions.end(*f, *e).is_ok() == *is_begun),
        Step::Close(s, waiting, close) => Ok(sessions.close(*s, *waiting) == *close),
    }
}

fn are_so(sessions: &mut Sessions, steps: &[Step]) -> Result<bool, Fail> {
    for step in steps {
        if !is_so(sessions, step)? {
            return Ok(false);
        }
    }
    Ok(true)
}

/// Whether a begin in one call connects, and begins over the phone that was connected.
fn begin_at_once(sessions: &mut Sessions) -> Result<bool, Fail> {
    prepare(sessions)?;
    if sessions.make(3, 5, ExchangeMode::Parallel) != Ok(())
        || sessions.begin(ONE, 3, false) != Begin::Connect(5)
    {
        return Ok(false);
    }
    prepare(sessions)?;
    if sessions.mode_of(3) != Some(ExchangeMode::Parallel) {
        return Ok(false);
    }
    Ok(sessions.connected(ONE, 3, 7) == Ok(FIRST) && sessions.phone_of(ONE, FIRST) == Some(7))
}

fn sessions_do(alloc: Global, steps: &[Step]) -> Result<bool, Fail> {
    let mut sessions = Sessions::new(alloc);
    are_so(&mut sessions, steps)
}

fn sessions_begin_at_once(alloc: Global) -> Result<bool, Fail> {
    let mut sessions = Sessions::new(alloc);
    begin_at_once(&mut sessions)
}

const ATOMIC: [Step; 3] = [
    Step::Make(4, 5, ExchangeMode::Atomic),
    Step::Begin(ONE, 4, false, Begin::Begun(FIRST, 5)),
    Step::Begin(TWO, 4, false, Begin::Begun(SECOND, 5)),
];

const SERIALIZED: [Step; 6] = [
    Step::Make(15, 5, ExchangeMode::Serialize),
    Step::Begin(ONE, 15, false, Begin::Begun(FIRST, 5)),
    Step::Begin(TWO, 15, false, Begin::WaitMutex),
    Step::End(TWO, FIRST, false),
    Step::End(ONE, FIRST, true),
    Step::Begin(TWO, 15, false, Begin::Begun(SECOND, 5)),
];

/// Of two idle exchanges the one that has been idle longer is begun again; the phone of the other
/// is hung up for another session.
const PARALLEL: [Step; 10] = [
    Step::Make(3, 5, ExchangeMode::Parallel),
    Step::Make(4, 6, ExchangeMode::Parallel),
    Step::Begin(ONE, 3, false, Begin::Connect(5)),
    Step::Add(ONE, 3, 7),
    Step::Add(ONE, 3, 8),
    Step::End(ONE, SECOND, true),
    Step::End(ONE, FIRST, true),
    Step::Begin(TWO, 3, false, Begin::Begun(SECOND, 8)),
    Step::Begin(TWO, 4, true, Begin::HangIdle(FIRST, 7)),
    Step::Begin(TWO, 4, true, Begin::WaitPhone),
];

const CLOSED: [Step; 8] = [
    Step::Make(2, 4, ExchangeMode::Parallel),
    Step::Add(ONE, 2, 9),
    Step::Close(2, false, Close::Refused(Code::EBUSY)),
    Step::End(ONE, FIRST, true),
    Step::Close(2, true, Close::Refused(Code::EBUSY)),
    Step::Close(2, false, Close::HangIdle(FIRST, 9)),
    Step::Close(2, false, Close::Last(4)),
    Step::Close(2, false, Close::Refused(Code::ENOENT)),
];

#[test]
fn exchanges_begin_by_the_mode_of_their_session(rt: HostRuntime) -> Result<(), Fail> {
    assert!(rt; sessions_do(rt.alloc(), &ATOMIC)?);
    assert!(rt; sessions_do(rt.alloc(), &SERIALIZED)?);
    assert!(rt; sessions_do(rt.alloc(), &PARALLEL)?);
    Ok(())
}

#[test]
fn a_close_hangs_up_the_session_last(rt: HostRuntime) -> Result<(), Fail> {
    assert!(rt; sessions_do(rt.alloc(), &CLOSED)?);
    Ok(())
}

#[test]
fn an_exchange_begins_in_one_call(rt: HostRuntime) -> Result<(), Fail> {
    assert!(rt; sessions_begin_at_once(rt.alloc())?);
    Ok(())
}
