//! Laws of whole runs: of what tasks ask with, of what entries tell of phones and tasks, of the lines of a schedule, of
//! the programs of tasks, and of fibrils that wait.
//!
//! The functions have empty bodies; what they promise is proved of the run that `task_system`
//! defines, of every sound script and every schedule that fits it.
#![tactic(auto)]

mod laws;

pub use laws::{
    connect_calls_tell_their_phone, hangup_lines_hang_up_their_phone,
    lines_keep_the_laws_of_the_kernel, phones_change_for_cause, spawns_make_their_template,
    tasks_ask_with_five_arguments, tasks_come_in_turn, tasks_run_their_plans,
    waits_are_for_live_calls,
};
