//! The tables of fibrils, row by row.
ghost use Rattle.program_examples.specs.FibrilRequests.{FibrilCalls, FibrilSessions};
ghost use Rattle.program_examples.specs.FibrilRequests.{FibrilRequests, FibrilSilence, FibrilTurns};
ghost use Rattle.program_examples.specs.FibrilSteps.{CallSteps, WaitSteps, RawSteps, JumpSteps};
ghost use Rattle.program_examples.specs.SessionSteps.{OpenSteps, BeginSteps, ConnectSteps};
ghost use Rattle.program_examples.specs.SessionSteps.{EndSteps, CloseSteps};
ghost use Rattle.program_examples.specs.ManagerSteps.{AnswersCome, ConnectsAreAnswered};
ghost use Rattle.program_examples.specs.ManagerSteps.{CallsCome, EndsAndWork, TaskStart};

/// Each operation of a fibril asks its request, each argument in its place and over its own phone,
/// or nothing; and it is asked in its turn.
pub fn fibrils_ask_by_their_rows()
    ensures calls { FibrilCalls }
    ensures sessions { FibrilSessions }
    ensures requests { FibrilRequests }
    ensures silence { FibrilSilence }
    ensures turns { FibrilTurns }
{}

/// Each outcome of an operation does what its row says to what the fibril keeps, to the calls that
/// are awaited and to the connections, and tells just that.
pub fn operations_of_fibrils_do_by_their_rows()
    ensures calls { CallSteps }
    ensures waits { WaitSteps }
    ensures raw { RawSteps }
    ensures jumps { JumpSteps }
{}

/// Each outcome of an operation on sessions and exchanges does what its row says, and tells just
/// that: which exchange is begun, dropped or idle, who wakes in which order, and what is refused
/// with ENOENT and EBUSY.
pub fn operations_on_sessions_do_by_their_rows()
    ensures opens { OpenSteps }
    ensures begins { BeginSteps }
    ensures connects { ConnectSteps }
    ensures ends { EndSteps }
    ensures closes { CloseSteps }
{}

/// What the manager receives goes where its row says: an answer to the fibril and slot that sent
/// the call, or to its begin, and a call to the connection of its label, or to a new one. At the
/// start a fibril stands before each body, but for that of connections.
pub fn the_manager_does_by_its_rows()
    ensures answers { AnswersCome }
    ensures connects { ConnectsAreAnswered }
    ensures calls { CallsCome }
    ensures ends { EndsAndWork }
    ensures start { TaskStart }
{}
