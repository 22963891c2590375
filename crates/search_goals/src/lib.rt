//! What a search over schedules is asked, and the schedule that it answers.
//!
//! `read_goal_for` reads what is looked for, and `read_goals_for` several goals that are met in turn;
//! `meets_line` says whether the entries of an event meet a goal that is a line, and `push_events`
//! writes the events that were found as lines of a schedule.
//! `TaskNames` has the names of all tasks that there are at a place of a schedule.
#![tactic(auto)]

mod conditions;
mod goal;
mod goal_list;
mod laws;
mod line_shapes;
mod meeting;
mod names;
mod places;
mod stops;
mod writer;

pub use conditions::{Condition, Subject};
pub use goal::{Goal, GoalFault, read_goal_for};
pub use goal_list::{Goals, GoalsFault, may_precede, read_goals_for};
pub use laws::lines_of_entries_are_no_fault;
pub use meeting::{entry_fits, meets_line};
pub use names::TaskNames;
pub use writer::push_events;
