//! Tests of crates below, each in a module named after its crate, over public items alone.
//!
//! They show that calls succeed where memory is there, and what readers and writers do that fail in
//! mid-stream. A crate with tests is proved twice, so they stand here: this one has nothing else.
#![tactic(auto)]

#[cfg(test)]
mod answerbox_tests;
#[cfg(test)]
mod async_sessions_tests;
#[cfg(test)]
mod cleanup_tests;
#[cfg(test)]
mod command_line_tests;
#[cfg(test)]
mod fibril_core_tests;
#[cfg(test)]
mod forwarding_tests;
#[cfg(test)]
mod io_edge_tests;
#[cfg(test)]
mod law_check_tests;
#[cfg(test)]
mod schedule_replay_tests;
#[cfg(test)]
mod script_reader_tests;
