//! The reasons of faults, row by row.
ghost use Rattle.program_examples.specs.FaultRows.{ScriptFaults, ScheduleFaults, ReasonTexts};

/// Each reason is told of its line, and where two hold, the first of them.
pub fn faults_have_the_reason_of_their_row()
    ensures scripts { ScriptFaults }
    ensures schedules { ScheduleFaults }
    ensures texts { ReasonTexts }
{}
