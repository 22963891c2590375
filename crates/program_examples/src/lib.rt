//! Examples and laws of the programs of tasks, whose definitions are tables.
//!
//! Each row of a table has an example whose values are all apart, so that a row in which two of them
//! change places is another one. The numbers behind the words that laws and definitions share are
//! written down. The functions have empty bodies; what they promise is computed from the definitions.
#![tactic(auto)]

mod arguments;
mod constants;
mod faults;
mod fibrils;
mod laws;
mod raw;
mod services;

pub use arguments::{programs_ask_with_five_arguments, scripts_give_five_arguments};
pub use constants::{codes_and_methods_are_numbers, words_of_services_are_numbers};
pub use faults::faults_have_the_reason_of_their_row;
pub use fibrils::{
    fibrils_ask_by_their_rows, operations_of_fibrils_do_by_their_rows,
    operations_on_sessions_do_by_their_rows, the_manager_does_by_its_rows,
};
pub use laws::{
    begins_and_closes_are_refused_by_their_causes, begins_end_what_they_keep_in_mind,
    each_client_has_its_own_window, owed_work_stays_in_its_order,
    programs_ask_what_their_operation_says, tasks_are_known_by_their_introduction,
    transfers_stay_in_the_own_window,
};
pub use raw::{raw_operations_ask_by_their_rows, raw_outcomes_are_taken_by_their_rows};
pub use services::{
    block_servers_do_by_their_rows, block_servers_work_by_their_rows,
    the_naming_service_does_by_its_rows,
};
