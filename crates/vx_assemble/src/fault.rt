//! The faults for which units aren't taken.

use thiserror::Error;
use vx_bits::Refusal;

/// The first fault: what kept a unit from being taken first.
#[derive(Clone, Copy, Debug, PartialEq, Eq, Error)]
pub enum First {
    /// Memory ran out.
    #[error("out of memory")]
    Memory,
    /// A read of the source failed.
    #[error("a read failed")]
    SourceFailed,
    /// The stream is refused.
    #[error("refused")]
    Refused(Refusal),
}

/// The reason why a unit wasn't taken.
#[derive(Clone, Copy, Debug, PartialEq, Eq, Error)]
pub enum AssembleFault {
    /// Memory ran out.
    #[error("out of memory")]
    Memory,
    /// The stream is refused.
    #[error("refused")]
    Refused(Refusal),
    /// An earlier unit wasn't taken, for this fault.
    #[error("stopped before")]
    Stopped(First),
}
