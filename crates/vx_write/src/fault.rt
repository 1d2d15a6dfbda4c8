//! The reasons why a picture isn't written.
ghost use Rattle.std.specs.Prelude.{◌≡◌};
ghost use Rattle.vx_write.specs.Faults as faults;
ghost use Rattle.vx_write.specs.declared.fault.WriteError.TheVariants as errors;

use std::alloc::AllocError;
use thiserror::Error;
use vx_bits::Refusal;
use vx_io::SinkFailed;

/// The reason why a picture isn't written, or not whole.
#[derive(Clone, Copy, Debug, PartialEq, Eq, Error)]
pub enum WriteError {
    /// Memory ran out. Nothing of the picture is written.
    #[error("out of memory")]
    Memory,
    /// A write failed.
    #[error("a write failed")]
    SinkFailed,
    /// The picture breaks a rule. Nothing of it is written.
    #[error("refused")]
    Refused(Refusal),
    /// An earlier error stopped the writing; nothing is written since.
    #[error("stopped before")]
    Stopped(WriteFirst),
}

/// The error that stopped the writing.
#[derive(Clone, Copy, Debug, PartialEq, Eq)]
pub enum WriteFirst {
    /// Lack of memory.
    Memory,
    /// A failed write.
    SinkFailed,
    /// The rule that a picture broke.
    Refused(Refusal),
}

impl From<AllocError> for WriteError {
    ghost from_gives = { λ _ e. e ≡ errors.Memory };

    fn from(_error: AllocError) -> WriteError {
        WriteError::Memory
    }
}

impl From<SinkFailed> for WriteError {
    ghost from_gives = { λ _ e. e ≡ errors.SinkFailed };

    fn from(_error: SinkFailed) -> WriteError {
        WriteError::SinkFailed
    }
}

/// Returns what later calls report after this error.
pub fn first_of(error: WriteError) -> WriteFirst
    ensures { result ≡ faults.first_of error }
{
    match error {
        WriteError::Memory => WriteFirst::Memory,
        WriteError::SinkFailed => WriteFirst::SinkFailed,
        WriteError::Refused(refusal) => WriteFirst::Refused(refusal),
        WriteError::Stopped(first) => first,
    }
}
