//! Sources and sinks in memory, whose calls all follow a plan.

mod calls;
mod grow;
mod sink;
mod source;

pub use grow::GrowSink;
pub use sink::MemorySink;
pub use source::MemorySource;
