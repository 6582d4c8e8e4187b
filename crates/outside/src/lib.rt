//! The edge to the outside world, as traits, so that all above it is proved once for every kind.
//!
//! - `Shelf` gives files by their names, `Sink` takes bytes, `Gate` is told of the workers of a parallel build;
//! - a shelf and a sink count their faults: by one at each failure, and at no other answer. A shelf counts its fetches too;
//! - `MemoryShelf` and `MemorySink` tell their contents, and fail exactly where they are asked to;
//! - `FileShelf` stands over an `Opener` of files and `StreamSink` over a writer. They tell what these tell, and are proved
//!   for each that tells. The system's files and standard output tell nothing: what they hold is trusted.
#![tactic(auto)]

pub mod file_shelf;
pub mod gate;
pub mod memory_shelf;
pub mod memory_sink;
pub mod opener;
mod reading;
pub mod shelf;
pub mod sink;
pub mod stream_sink;
mod writing;

pub use file_shelf::FileShelf;
pub use gate::{Gate, OpenGate};
pub use memory_shelf::MemoryShelf;
pub use memory_sink::MemorySink;
pub use opener::Opener;
pub use shelf::{FetchError, Shelf};
pub use sink::{PutFailed, Sink};
pub use stream_sink::StreamSink;

#[cfg(test)]
mod tests;
