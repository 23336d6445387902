//! Where bytes come from and go to: files to read and streams to write, in memory and real ones.
//!
//! `Shelf` and `Sink` say what reading and writing mean, with the bytes where they are told. `read_whole` and
//! `write_whole` move a whole file and a whole text, and are proved once for every shelf and sink.
#![tactic(auto)]

mod calls;
mod failed;
mod file_shelf;
mod mem_shelf;
mod mem_sink;
mod shelf;
mod sink;
mod stream_sink;
#[cfg(test)]
mod tests;
mod whole;

pub use failed::Failed;
pub use file_shelf::FileShelf;
pub use mem_shelf::MemShelf;
pub use mem_sink::MemSink;
pub use shelf::Shelf;
pub use sink::Sink;
pub use stream_sink::StreamSink;
pub use whole::{PIECE, ReadFault, read_whole, write_whole};
