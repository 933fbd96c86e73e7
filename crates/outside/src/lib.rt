//! What a run meets outside: a shelf of named texts and a sink of bytes.
//!
//! Code above is generic over both, so that one proof serves files, standard streams and memory.
#![tactic(auto)]

mod bad_calls;
mod buffered;
mod calm_shelf;
mod calm_sink;
mod file_shelf;
mod memory_shelf;
mod memory_sink;
mod named;
mod shelf;
mod sink;
mod stream_sink;
mod whole;

pub use buffered::Buffered;
pub use calm_shelf::CalmShelf;
pub use calm_sink::CalmSink;
pub use file_shelf::FileShelf;
pub use memory_shelf::MemoryShelf;
pub use memory_sink::MemorySink;
pub use named::Named;
pub use shelf::{Failed, Shelf};
pub use sink::Sink;
pub use stream_sink::StreamSink;
pub use whole::{TakeStop, read_all, write_all};
