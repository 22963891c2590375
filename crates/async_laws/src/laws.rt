//! Each event of a run keeps the fit of its entries to the state of an async task.
ghost use Rattle.async_laws.specs.TaskHistory.{StartFits, EachFits, OthersFit, HangupsFit};
ghost use Rattle.async_laws.specs.TaskHistory.{KillsFit, GoneFits, SpawnsFit, FittingIsLawful};
ghost use Rattle.async_laws.specs.TaskHistory.{FittingLosesNoWake, StartKeepsWakes, EachKeepsWakes};
ghost use Rattle.async_laws.specs.OrderLaws.{YieldsGoBehind, RoutesGoLast, FirstIsTaken};
ghost use Rattle.async_laws.specs.HeldCalls.{ReceivedCallsCome, KeptCallsStay};
ghost use Rattle.async_laws.specs.OrderLaws.{StrayCallsAreRefused, LimitsAreHeeded};
ghost use Rattle.async_laws.specs.KeptOnce.{StartKeepsOnce, EachKeepsOnce, ReceivedCallsComeOnce};
ghost use Rattle.async_laws.specs.KeptOnce.{KeptCallsGoOnce};
ghost use Rattle.async_laws.specs.TakenCalls.{NextTakesTheFirst, NextTellsTheClosing};
ghost use Rattle.async_laws.specs.TakenCalls.{WaitersTakeAtOnce, WaitersHearHangups};
ghost use Rattle.async_laws.specs.TakenCalls.{StartedOnesKnowTheirCall};
ghost use Rattle.async_laws.specs.LimitLaws.{RefusalsAreRemembered, AnswersAreRemembered};
ghost use Rattle.async_laws.specs.LimitLaws.{TheShortDoNotConnect, OnlyTheLimitMakesShort};
ghost use Rattle.async_laws.specs.LimitLaws.{NobodyIsToldTheLimit};
ghost use Rattle.async_laws.specs.Links.{PromisesFollow, EntriesAreOwn, EventKeeps};
ghost use Rattle.async_laws.specs.Links.{EventKeepsOthers, KillKeeps, HangupKeeps, GoneKeeps};
ghost use Rattle.async_laws.specs.Links.{SpawnKeeps};
ghost use Rattle.async_laws.specs.Links.{NewFits};

/// The entries so far fit the state of a task at the start, and each event keeps it: one of the
/// task, whatever outcome that fits it comes, one of another task, a hangup by the schedule, a
/// kill, and one that names a task that has ended.
pub fn events_keep_the_fit()
    ensures start { StartFits }
    ensures each { EachFits }
    ensures others { OthersFit }
    ensures hangups { HangupsFit }
    ensures kills { KillsFit }
    ensures gone { GoneFits }
    ensures spawns { SpawnsFit }
{}

/// Entries that fit the state of a task keep the laws of replies and of exchanges.
pub fn fitting_entries_keep_the_laws()
    ensures { FittingIsLawful }
{}

/// No wake-up is lost, at the start and after each event: where a fibril is blocked, what it waits
/// for has not come yet. A fibril that is blocked on an answer is the one that awaits it. One that
/// is blocked on a serialized session finds an exchange of it begun. One that is blocked on a phone
/// finds no idle exchange in the task. One that is blocked on a message has a connection that is
/// open and has no call queued. So it is in each state that the entries of a run fit.
pub fn no_wake_up_is_lost()
    ensures start { StartKeepsWakes }
    ensures each { EachKeepsWakes }
    ensures always { FittingLosesNoWake }
{}

/// A fibril that yields stands behind all others. A call that comes to a connection is the last of
/// its queue, or becomes its close call where it has none, and the first of a queue is taken. A
/// call that belongs to no connection is owed `EHANGUP`. After `ELIMIT` a begin asks for no connect
/// call.
pub fn fibrils_and_calls_keep_their_order()
    ensures yields { YieldsGoBehind }
    ensures routes { RoutesGoLast }
    ensures taken { FirstIsTaken }
    ensures stray { StrayCallsAreRefused }
    ensures limit { LimitsAreHeeded }
{}

/// No call that came is lost. One that comes is queued at a connection or is its close call, is
/// owed an answer, is handed to the fibril that waited for it, or starts a connection. What is
/// queued, closes or is owed stays so until its answer is made or its fibril takes it.
pub fn received_calls_are_not_lost()
    ensures received { ReceivedCallsCome }
    ensures stay { KeptCallsStay }
{}

/// A call that is kept is kept once: it stands at one place of one queue, or is the close call of
/// one connection, or is owed one answer. One that comes is kept once more, or a fibril has it at
/// once, or a connection. One whose answer is made, or that a fibril takes, is kept once less. So
/// no call is kept twice, where none comes again while it is kept.
pub fn calls_are_kept_once()
    ensures start { StartKeepsOnce }
    ensures each { EachKeepsOnce }
    ensures comes { ReceivedCallsComeOnce }
    ensures goes { KeptCallsGoOnce }
{}

/// A fibril that does `next` has the call in its registers that stood first at its connection: r0
/// is 0, r2 its number, r3 its method, r4 to r8 its arguments, r16 and r17 the task and the phone
/// of its label. All other registers stay, and so does what any other fibril keeps. Where none
/// stands there and the connection is closed, it is call 0 with method 0. A fibril that waits in
/// `next` takes what comes at once, and one that a connection starts has the connect call so.
pub fn next_tells_the_first_call()
    ensures first { NextTakesTheFirst }
    ensures closed { NextTellsTheClosing }
    ensures waiting { WaitersTakeAtOnce }
    ensures hung_up { WaitersHearHangups }
    ensures started { StartedOnesKnowTheirCall }
{}

/// Where the connect call of a begin is refused or answered with `ELIMIT`, the fibril stays at its
/// begin with no register changed, is ready, and keeps in mind that the task has no phone left: so
/// it sends no connect call again in that begin. In no other way does a fibril come to keep that,
/// and the task itself refuses no operation with `ELIMIT`.
pub fn limits_are_kept_in_mind()
    ensures refused { RefusalsAreRemembered }
    ensures answered { AnswersAreRemembered }
    ensures heeded { TheShortDoNotConnect }
    ensures alone { OnlyTheLimitMakesShort }
    ensures untold { NobodyIsToldTheLimit }
{}

/// What the kernel promises a task follows from the laws of calls, where the effects of an event
/// agree with its outcome; and the entries that a task makes are those of its fibrils.
pub fn laws_of_calls_keep_the_promises()
    ensures promises { PromisesFollow }
    ensures own { EntriesAreOwn }
{}

/// Where a run keeps the laws of calls, each of its events keeps the fit of the entries to the
/// state of a task: an event of the task, of another task, a kill, a hangup by the schedule, an
/// event of a task that has ended, and the start of the task when others have run.
pub fn lawful_runs_keep_the_fit()
    ensures event { EventKeeps }
    ensures others { EventKeepsOthers }
    ensures kill { KillKeeps }
    ensures hangup { HangupKeeps }
    ensures gone { GoneKeeps }
    ensures spawn { SpawnKeeps }
    ensures new { NewFits }
{}
