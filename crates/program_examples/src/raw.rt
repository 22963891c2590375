//! The table of raw programs, row by row.
ghost use Rattle.program_examples.specs.RawRows.{RawRequests, RawSilence, RawOutcomes};
ghost use Rattle.program_examples.specs.RawRows.{RawRefusals, RawJumps, RawStart};

/// Each operation of a raw task asks its request, each argument in its place; those that set a
/// register or jump ask nothing, and neither do those of fibrils.
pub fn raw_operations_ask_by_their_rows()
    ensures requests { RawRequests }
    ensures silence { RawSilence }
{}

/// Each outcome goes into its registers and changes no other; each refusal goes into r0; setting a
/// register and jumping do as they say.
pub fn raw_outcomes_are_taken_by_their_rows()
    ensures outcomes { RawOutcomes }
    ensures refusals { RawRefusals }
    ensures jumps { RawJumps }
    ensures start { RawStart }
{}
