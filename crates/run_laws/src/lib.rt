//! The laws that every run of a script keeps, under every schedule.
//!
//! What the entries so far tell of a run's state is `RunFits`, in specs/RunHistory.antt: they fit the
//! kernel, its phones, and the program of each task. They do so before the first event, and each
//! event keeps that. The laws of specs/LawfulRun.antt follow from it: those of calls, of phones, of
//! shared areas, of replies, of exchanges and of services read the entries alone, and that of
//! wake-ups the state. The function has an empty body; what it promises is proved of the
//! definition of a run in `task_system`.
#![tactic(auto)]

mod laws;

pub use laws::runs_are_lawful;
