//! Reads scripts and schedules.
//!
//! A script says which tasks there are and what each does (`script_lines` has its lines); a schedule
//! says in which order the tasks make their steps, and when a task is made. What the bytes of a file
//! spell, and which line of them is the first at fault, is a relation on whole lines in specs/, one
//! for scripts and schedules alike; the readers answer just that, unless memory runs out.
#![tactic(auto)]

mod copying;
mod laws;
mod reading;
mod recent;
mod repeated;
mod schedule;
mod step_line;

pub use copying::copies_of_plans;
pub use laws::{
    faults_are_the_first_reasons, readings_are_what_bytes_spell, the_service_is_the_first_line,
};
pub use reading::read_script;
pub use repeated::{EventsLeft, RepeatedEvents};
pub use schedule::{read_repeated_events, read_schedule};
pub use script_lines::{
    Kind, Name, Reason, ScheduleFault, Script, ScriptFault, TaskPlan, TaskPlans, Wire, Wires,
    number,
};
