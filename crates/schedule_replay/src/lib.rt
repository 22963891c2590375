//! Replays events on the tasks of a script, and writes the text of each.
//!
//! Contracts see a `Replay` as a `ReplayState`: the run so far, which is the kernel's state and
//! that of each program, and whether memory was wanting. `Replay::step` does one event. The history
//! so far fits the run's state, as `run_laws` says it (`RunFits`), and each event keeps that; the
//! laws of every run follow from it.
//!
//! `replay` runs the events of a `Feed` and writes the text of each on the way, through a buffer of
//! 4,096 bytes; `KeepsUp` says how little of it can be missing where the run ends early.
//! `generated_script` and a `GeneratedFeed` make a script and events of a number, so that a long run
//! needs no files.
#![tactic(auto)]

mod beside;
mod feed;
mod generator;
mod machine;
mod streaming;
mod text_buffer;

pub use beside::{Events, Generated, SliceFeed, generate};
pub use feed::Feed;
pub use generator::{GeneratedFeed, generated_script};
pub use machine::Replay;
pub use streaming::{ReplayFault, replay};
