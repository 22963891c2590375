//! The law of ends, over a list of doings alone.
ghost use Rattle.std.specs.Prelude.{List};
ghost use Rattle.ipc_ids.specs.Doings.{Doing};
ghost use Rattle.task_ends.specs.EndLaw.{EndsWereLawful, AnswersTellTheEnd};

/// Doings that were each lawful as they came keep the law of ends.
pub fn lawful_doings_keep_the_law_of_ends()
    ensures { (p : List Doing) → EndsWereLawful p → AnswersTellTheEnd p }
{}
