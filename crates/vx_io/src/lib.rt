//! Byte sources and byte sinks, each with a count of its faults.
//!
//! [`Source`] and [`Sink`] are the traits that all readers and writers of streams use. [`MemorySource`],
//! [`MemorySink`] and [`GrowSink`] work in memory, and contracts know their bytes. [`ReaderSource`],
//! [`ClosedSource`] and [`WriterSink`] are the edge to the system. [`write_all`] writes a whole slice, and
//! [`read_at`] reads from one source of a list.
//!
//! The contracts' definitions stand in `specs/`: `Faults` (fault counts), `Memory`, `Written`, `Listed`,
//! `Outside`.
#![tactic(auto)]

mod list;
mod memory;
mod outside;
mod read;
#[cfg(test)]
mod tests_outside;
mod write;

pub use list::{read_at, read_box};
pub use memory::{GrowSink, MemorySink, MemorySource};
pub use outside::{ClosedSource, FileSource, ReaderSource, WriterSink};
pub use read::{Source, SourceFailed};
pub use write::{Sink, SinkFailed, write_all};
