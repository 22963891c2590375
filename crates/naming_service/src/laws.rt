//! What becomes of calls, services and waits, over all states of the naming service.
ghost use Rattle.std.specs.Prelude.{◌≡◌, ◌⊎◌, [], Some};
ghost use Rattle.ipc_ids.specs.Methods.{phone_hungup};
ghost use Rattle.task_ends.specs.declared.introduced.Introduced.{Introduced as Entry};
ghost use Rattle.task_ends.specs.Ends.{open_entry};
ghost use Rattle.naming_service.specs.Ends.{AnswersWaits};
ghost use Rattle.ipc_ids.specs.declared.message.Outcome.{Outcome as Told};
ghost use Rattle.naming_service.specs.declared.received.ReceivedCall.{ReceivedCall as Call};
ghost use Rattle.naming_service.specs.Naming.{NamingState, after};
ghost use Rattle.naming_service.specs.Registrations.{receipt, IsOffer, IsTaken, PassesPendingOn, HandsOver};
ghost use Rattle.naming_service.specs.NamingHistory.{StartFits, StepFits, HangupFits, FittingIsLawful};
ghost use Rattle.naming_service.specs.Registrations.{ServicesDiffer, IsAmong, IsKept, HasWait, HasWorkOn};
ghost use Rattle.ipc_ids.specs.declared.numbers.CallNo.{CallNo as Number};

/// After a registration each pending call is pending still, or goes on over the new phone, in the
/// order of arrival, behind the answer; the phone leads to no other service, and no two entries
/// have one service.
pub fn registrations_lose_no_call()
    ensures pending { (s : NamingState) (r : Call) → IsTaken s r
        → PassesPendingOn r s (after s (receipt r)) }
    ensures phones { (s : NamingState) (r : Call) → IsOffer s r
        → HandsOver r s (after s (receipt r)) }
    ensures services { (s : NamingState) (told : Told) → ServicesDiffer s.registry
        → ServicesDiffer (after s told).registry }
{}

/// A call that is received is pending, waits or has work on it, and one that is pending or waits stays
/// so or has work on it.
pub fn no_call_is_lost()
    ensures received { (s : NamingState) (r : Call) → s.work ≡ []
        → IsKept r (after s (receipt r)) }
    ensures pending { (s : NamingState) (told : Told) (r : Call) → IsAmong r s.pending
        → IsKept r (after s told) }
    ensures waiting { (s : NamingState) (told : Told) (n : Number) → HasWait n s.ends.waits
        → HasWorkOn n (after s told).work ⊎ HasWait n (after s told).ends.waits }
{}

/// The end of a task answers each call that waits for it, once, in order, with the same arguments, and
/// no other.
pub fn an_end_answers_who_waits()
    ensures { (s : NamingState) (r : Call) (x : Entry) → s.work ≡ []
        → r.msg.method ≡ phone_hungup → open_entry r.label s.ends.introduced ≡ Some x
        → AnswersWaits r s (after s (receipt r)) x.end }
{}

/// What the service did fits its state at the start, after each of its steps, whatever outcome that
/// fits comes, and after a hangup by the schedule.
pub fn events_keep_the_fit()
    ensures start { StartFits }
    ensures step { StepFits }
    ensures hangup { HangupFits }
{}

/// Doings that fit the state of the service keep the law of ends.
pub fn fitting_doings_keep_the_law()
    ensures { FittingIsLawful }
{}
