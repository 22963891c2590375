//! The text of a trace: each entry is one line, written straight to the end of the bytes that the
//! caller gives, which take no memory but their own.
#![tactic(auto)]

mod bytes;
mod comparison;
mod count;
mod effect;
mod fibril;
mod head;
mod line;
mod number;
mod page;
mod part;
mod pen;
mod text;

pub use comparison::Comparison;
pub use line::{entry_length, entry_text, push_entry};
pub use page::Page;
