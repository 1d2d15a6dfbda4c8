//! The reasons why a line has no result.

use std::alloc::AllocError;
use std::io;
use std::num::ParseIntError;
use thiserror::Error;
use vx_assemble::FeedFault;
use vx_bits::{ReadError, Refusal};

/// The reason why a line has no result.
#[derive(Clone, Copy, Debug, Error)]
pub(crate) enum LineFault {
    /// Memory ran out.
    #[error("out of memory")]
    Memory,
    /// The bytes are refused, which is a result too.
    #[error("refused")]
    Refused(Refusal),
    /// It begins with none of the words.
    #[error("its word isn't known")]
    Word,
    /// Something else is in the place of a number.
    #[error("its number can't be read")]
    Number,
    /// Something else is in the place of bytes.
    #[error("its bytes aren't two digits each, or too many")]
    Bytes,
    /// They are no NAL unit.
    #[error("its bytes are no NAL unit")]
    Unit,
    /// The stream has no such set, or no picture header.
    #[error("a set or a picture header that it needs hasn't come")]
    Missing,
    /// No set can say what it asks.
    #[error("no set can say what it asks")]
    Shape,
    /// Its source can't be read on.
    #[error("the stream can't be read on")]
    Stopped,
    /// Its name has other arguments than the call takes.
    #[error("the words behind its word aren't those of a call")]
    Words,
}

impl From<AllocError> for LineFault {
    fn from(_error: AllocError) -> LineFault {
        LineFault::Memory
    }
}

impl From<ParseIntError> for LineFault {
    fn from(_error: ParseIntError) -> LineFault {
        LineFault::Number
    }
}

impl From<ReadError> for LineFault {
    fn from(error: ReadError) -> LineFault {
        match error {
            ReadError::Memory => LineFault::Memory,
            ReadError::Refused(refusal) => LineFault::Refused(refusal),
        }
    }
}

impl From<Refusal> for LineFault {
    fn from(refusal: Refusal) -> LineFault {
        LineFault::Refused(refusal)
    }
}

impl From<FeedFault> for LineFault {
    fn from(fault: FeedFault) -> LineFault {
        match fault {
            FeedFault::Memory => LineFault::Memory,
            FeedFault::Refused(refusal) => LineFault::Refused(refusal),
            FeedFault::SourceFailed | FeedFault::Stopped(_) => LineFault::Stopped,
        }
    }
}

/// Why the program ends before its input does.
#[derive(Debug, Drop, Error)]
pub(crate) enum Fault {
    /// A read or a write failed.
    #[error("{0}")]
    Io(io::Error),
    /// A line can't be read.
    #[error("line {number}: {fault}")]
    Line {
        /// The number of the line, from 1.
        number: u64,
        /// Why.
        fault: LineFault,
    },
}

impl From<io::Error> for Fault {
    fn from(error: io::Error) -> Fault {
        Fault::Io(error)
    }
}

impl Fault {
    ghost use Rattle.std.specs.Prelude.{◌≡◌};
    ghost use Rattle.vx_vectors.specs.Told.{status_of};

    /// Returns the status with which the program ends.
    pub(crate) fn status(&self) -> u8
        ensures { result ≡ status_of self.now }
    {
        match self {
            Fault::Line {
                fault: LineFault::Memory,
                ..
            } => 4,
            Fault::Line { .. } => 2,
            Fault::Io(_) => 3,
        }
    }
}
