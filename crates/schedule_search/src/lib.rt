//! Which schedules of a script a search tries, what it looks for, and which states it may take for one.
//!
//! `search_schedules` answers the first schedule that leads to what is looked for, or that there is
//! none. A `Problem` says which schedules there are; definitions see a `Search` in it.
//! `survey_schedules` answers each state at rest to which schedules lead, with the first that does, and
//! `told_by` the entries of a whole run.
//! Where a call is looked for that is never answered, whatever steps of tasks come, each visit searches
//! the steps behind a state.
//!
//! The code of a state is its words (`run_words`), the templates of the tasks that were made, the
//! number of kills so far, and that of the goals that are left of those before the last. The laws here
//! say that states of one code go on alike, for each move and each goal, what it is that a state is at
//! rest, and that goals which are met in turn are met so as soon as may be.
#![tactic(auto)]

mod ahead;
mod at_rest;
mod holding;
mod kills;
mod laws;
mod left;
mod lost_calls;
mod meeting;
mod open_calls;
mod outcome;
mod path;
mod place;
mod plans;
mod problem;
mod rest;
mod spawns;
mod told;
mod trying;
mod visits;

pub use at_rest::{RestingStates, survey_schedules};
pub use laws::{
    alike_states_hold_alike, codes_stand_for_schedules, nothing_moves_at_rest,
    nothing_stands_at_unknown_operations, stuck_states_have_lost_a_call, waiting_wins_nothing,
};
pub use outcome::{Outcome, search_schedules};
pub use problem::{MostMade, Problem};
pub use spawns::tasks_behind;
pub use told::told_by;
