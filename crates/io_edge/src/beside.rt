//! What the program does not use, for who tests what loads and writes: a shelf and a sink in memory.
//! The program has a `FileShelf` and an `OutSink`.

mod mem_shelf;
mod mem_sink;

pub use mem_shelf::MemShelf;
pub use mem_sink::MemSink;
