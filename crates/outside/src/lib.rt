//! The outside world of the checker: where a file's bytes come from and where the answer goes.
//!
//! `Source` and `Sink` are the two ends. Each counts its faults, and answers `Failed` only where the count rose, so a
//! caller's promise can name the cause of a failure. `FileSource` and `StdSink` stand at the real ends, `MemSource` and
//! `MemSink` in memory with the faults that a test asks for, and `SureSource` and `SureSink` never fail.
#![tactic(auto)]

mod calls;
mod ends;
mod fault_counts;
mod held_file;
mod mem_sink;
mod mem_source;
mod sure;
mod system;

pub use ends::{Failed, ReadError, Sink, Source};
pub use held_file::HeldFile;
pub use mem_sink::MemSink;
pub use mem_source::MemSource;
pub use sure::{SureSink, SureSource};
pub use system::{FileSource, StdSink};
