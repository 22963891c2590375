//! The edge of the program: files that are loaded whole, and a sink for text.
//! Each is a trait with a written meaning, a form in memory, and a thin form over the real thing,
//! which reads to the end and writes whole by functions over any reader and any writer.
#![tactic(auto)]

mod beside;
mod file_shelf;
mod out_sink;
mod shelf;
mod sink;
mod stream;
mod words;

pub use beside::{MemShelf, MemSink};
pub use file_shelf::FileShelf;
pub use out_sink::OutSink;
pub use shelf::{LoadFault, Shelf};
pub use sink::{PutFailed, Sink};
pub use stream::{read_most, write_whole};
pub use words::words_behind_name;
