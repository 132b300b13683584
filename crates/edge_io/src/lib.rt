//! The outside of the slicer: a shelf of files, sinks for bytes, and the texts that they carry.
//!
//! What a shelf or a sink does is said by a trait. The program stands on [`FileShelf`] and [`StreamSink`],
//! a few lines over real files and streams; tests stand on [`MemoryShelf`] and [`MemorySink`],
//! which fail at chosen calls.
#![tactic(auto)]

mod calls;
mod file_shelf;
mod memory_shelf;
mod memory_sink;
mod shelf;
mod sink;
mod stream_sink;
mod text;

pub use calls::{Opener, Source, Stream};
pub use file_shelf::FileShelf;
pub use memory_shelf::MemoryShelf;
pub use memory_sink::MemorySink;
pub use shelf::{FetchFault, Shelf};
pub use sink::{PutFailed, Sink};
pub use stream_sink::StreamSink;
pub use text::Text;

#[cfg(test)]
mod tests;
