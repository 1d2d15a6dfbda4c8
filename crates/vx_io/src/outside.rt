//! The trusted edge: readers and writers of the system. No contract knows a file's bytes.

mod closed;
mod reader;
mod writer;

pub use closed::ClosedSource;
pub use reader::{FileSource, ReaderSource};
pub use writer::WriterSink;
