//! A server that keeps blocks of 64 bytes and hands them over through windows that it shares with
//! its clients.
//!
//! Contracts see a `BlockServer` as a `BlockState`: its blocks, who has which window, its work, and
//! how many outcomes it took. What it asks and what an outcome makes of it is defined in
//! specs/Blocks.antt. Who reads a block gets what was written last (`ReadsGiveWhatWasWritten`).
#![tactic(auto)]

mod laws;
mod received;
mod server;
mod slots;

pub use laws::{
    a_client_that_goes_leaves_its_window, each_client_has_one_window, events_keep_the_fit,
    fitting_doings_keep_the_law, transfers_move_one_block,
};
pub use received::{Asked, ReceivedCall, Work};
pub use server::BlockServer;
