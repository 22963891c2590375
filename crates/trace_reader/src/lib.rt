//! Reads the text of a trace back into its entries. Something is read in any line, and its own text
//! is compared with the line: so a line counts only where it is the text of an entry, to the byte.
#![tactic(auto)]

mod asked;
mod beside;
mod first_words;
mod laws;
mod line;
mod part;
mod trace;

pub use beside::{TraceFault, read_entry, read_trace};
pub use laws::bytes_are_one_trace;
pub use trace::Reader;
