//! What differs between a finished stream and its sources.
ghost use Rattle.std.specs.Prelude.{◌≡◌};
ghost use Rattle.vx_verify.specs.Verifying as spec;
ghost use Rattle.vx_verify.specs.declared.mismatch.VerifyError.TheVariants as errors;

use std::alloc::AllocError;
use thiserror::Error;
use vx_pic::Difference;

/// The first difference, with the number of its file: 0 is the finished stream, the sources are numbered from 1.
#[derive(Clone, Copy, Debug, PartialEq, Eq)]
pub enum Mismatch {
    /// C1: the finished picture (file 0) hasn't one subpicture for each source, or this source's picture has several.
    Count(u16),
    /// C2: the subpicture of this source isn't at its place.
    Rect(u16),
    /// C3: the subpicture of this source has another number of slices than the source's picture.
    Slices(u16),
    /// C4: the decoding inputs of a slice differ.
    Input {
        /// The file of the source.
        file: u16,
        /// The slice of the subpicture, from 0: its address.
        slice: u32,
        /// Where they differ first; the finished picture's input is the first of the two.
        difference: Difference,
    },
    /// C5: this file has ended before another.
    Length(u16),
}

/// The reason why a round isn't verified.
#[derive(Clone, Copy, Debug, PartialEq, Eq, Error)]
pub enum VerifyError {
    /// Memory ran out.
    #[error("out of memory")]
    Memory,
    /// The finished picture isn't the merge of the sources' pictures.
    #[error("a mismatch")]
    Refused(Mismatch),
    /// An earlier error stopped the verification.
    #[error("stopped before")]
    Stopped(VerifyFirst),
}

/// The error that stopped the verification.
#[derive(Clone, Copy, Debug, PartialEq, Eq)]
pub enum VerifyFirst {
    /// Lack of memory.
    Memory,
    /// A mismatch.
    Refused(Mismatch),
}

impl From<AllocError> for VerifyError {
    ghost from_gives = { λ _ e. e ≡ errors.Memory };

    fn from(_error: AllocError) -> VerifyError {
        VerifyError::Memory
    }
}

/// Returns what later calls report after this error.
pub(crate) fn first_of(error: VerifyError) -> VerifyFirst
    ensures { result ≡ spec.first_of error }
{
    match error {
        VerifyError::Memory => VerifyFirst::Memory,
        VerifyError::Refused(mismatch) => VerifyFirst::Refused(mismatch),
        VerifyError::Stopped(first) => first,
    }
}
