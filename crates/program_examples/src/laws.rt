//! What programs ask, and what they refuse, over all of their states.
ghost use Rattle.program_examples.specs.BlockLaws.{RefusesTransfers, ReadsGoToTheOwnWindow};
ghost use Rattle.program_examples.specs.BlockLaws.{WritesComeFromTheOwnWindow, PlacesAreWithin};
ghost use Rattle.program_examples.specs.BlockLaws.{SharesAreTaken, ClientsConnect};
ghost use Rattle.program_examples.specs.NamingLaws.{TasksIntroduceThemselvesOnce};
ghost use Rattle.program_examples.specs.NamingLaws.{TasksLeaveTheirValue, WaitsAreForTheKnown};
ghost use Rattle.program_examples.specs.NamingLaws.{CallsWaitForServices, OwedWorkStays};
ghost use Rattle.program_examples.specs.BlockLaws.{TransfersAreAnswered};
ghost use Rattle.program_examples.specs.BlockLaws.{OwedWorkStays as OwedBlockWorkStays};
ghost use Rattle.program_examples.specs.FibrilLaws.{OthersAreRefused, TasksAnswerWhatTheyOwe};
ghost use Rattle.program_examples.specs.FibrilLaws.{FibrilsAskAsGiven, CallsGoAsGiven};
ghost use Rattle.program_examples.specs.FibrilLaws.{SendsGoOverTheExchange, ClosesMindWhoWaits};
ghost use Rattle.program_examples.specs.FibrilLaws.{BeginsAreRefused, ShortEndsWithItsBegin};
ghost use Rattle.program_examples.specs.FibrilLaws.{RawProgramsAskAsGiven};

/// A block goes to the caller's own window, at the offset of the call and within the 4,096 bytes of
/// that window, and it comes from there. A caller without a window is told EHANGUP, a block that is
/// not there ENOENT, and an offset at which no block stands EINVAL, in this order.
pub fn transfers_stay_in_the_own_window()
    ensures reads_refused { RefusesTransfers 512 }
    ensures writes_refused { RefusesTransfers 513 }
    ensures reads { ReadsGoToTheOwnWindow }
    ensures writes { WritesComeFromTheOwnWindow }
    ensures within { PlacesAreWithin }
{}

/// A page that a client shares to be read and written is taken where its window begins, and any
/// other is told EINVAL. A client that connects again loses its old window, and a new one gets the
/// first that is free.
pub fn each_client_has_its_own_window()
    ensures shares { SharesAreTaken }
    ensures connects { ClientsConnect }
{}

/// A task introduces itself once. Who introduced itself and has not ended leaves its value; who
/// waits for such a task goes last, and who waits for one that has ended is told what that left.
/// Who waits for a task that never introduced itself is told ENOENT. So is a call for a service that
/// is not there, where it does not wait; one that waits goes last.
pub fn tasks_are_known_by_their_introduction()
    ensures introduced { TasksIntroduceThemselvesOnce }
    ensures left { TasksLeaveTheirValue }
    ensures waits { WaitsAreForTheKnown }
    ensures services { CallsWaitForServices }
{}

/// What the naming service, a block server or an async task owes is asked in its order, and stays
/// until then. A transfer of a block is answered with what came of it.
pub fn owed_work_stays_in_its_order()
    ensures naming { OwedWorkStays }
    ensures blocks { OwedBlockWorkStays }
    ensures transfers { TransfersAreAnswered }
    ensures tasks { TasksAnswerWhatTheyOwe }
{}

/// A fibril asks the request of its operation, with the values of its registers and over the phone
/// that it names or that of its exchange. It is refused with ENOENT where it has begun no exchange,
/// and with EBUSY where the slot is in use. So do raw programs ask.
pub fn programs_ask_what_their_operation_says()
    ensures asks { FibrilsAskAsGiven }
    ensures calls { CallsGoAsGiven }
    ensures sends { SendsGoOverTheExchange }
    ensures raw { RawProgramsAskAsGiven }
{}

/// A begin and a close are refused with ENOENT where the session is not in use, a begin with EBUSY
/// where its handle is, and a close with EBUSY where an exchange of the session is begun or a fibril
/// waits in a begin of it, and only then. The other operations on slots, sessions, exchanges and
/// connections are refused likewise.
pub fn begins_and_closes_are_refused_by_their_causes()
    ensures begins { BeginsAreRefused }
    ensures closes { ClosesMindWhoWaits }
    ensures others { OthersAreRefused }
{}

/// A begin that has ended, with its exchange or refused, keeps no more in mind that it met the
/// limit.
pub fn begins_end_what_they_keep_in_mind()
    ensures { ShortEndsWithItsBegin }
{}
