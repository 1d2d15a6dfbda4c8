//! Reasons to refuse a stream: the causes in bits, and the rule that is broken.
ghost use Rattle.std.specs.Prelude.{◌≡◌};
ghost use Rattle.vx_bits.specs.declared.refusal.ReadError.TheVariants.{Memory as OutOfMemory};

use std::alloc::AllocError;
use thiserror::Error;

/// The reason why no code of the wanted kind begins at a place in the bits.
#[derive(Clone, Copy, Debug, PartialEq, Eq)]
pub enum BitCause {
    /// The bits end within the code.
    Short,
    /// 32 zeros come where an Exp-Golomb code should begin.
    LongCode,
    /// The bits left aren't a one followed by zeros to the end of the bytes.
    BadTrailing,
    /// The bits up to the byte boundary aren't those of an alignment.
    BadAlignment,
    /// The number is outside its range.
    OutOfRange,
}

/// The rule that a stream, or a request for it, breaks.
///
/// `code` is the number of the rule within its kind, as listed in [`rules`](crate::rules).
#[derive(Clone, Copy, Debug, PartialEq, Eq)]
pub enum Refusal {
    /// The bytes aren't framed as H.266 Annex B and 7.3.1 require; `byte` is the place in the source.
    Framing {
        code: u8,
        byte: u64,
    },
    /// A field can't be read; `bit` is the place in the RBSP, from 0, at which it begins.
    Syntax {
        field: u16,
        bit: u32,
        cause: BitCause,
    },
    /// A value is outside the accepted profiles.
    Profile {
        code: u8,
    },
    /// A number exceeds a limit.
    Limit {
        code: u8,
    },
    /// The units don't follow one another as in a coded video sequence; `kind` and `id` name a set.
    Structure {
        code: u8,
        kind: u8,
        id: u8,
    },
    /// A subpicture can't be extracted.
    Extract {
        code: u8,
    },
    /// Pictures can't be merged; `source` is the source that breaks the rule, and `field` the field that
    /// differs, for a rule on fields.
    Merge {
        code: u8,
        source: u16,
        field: u16,
    },
}

/// The reason why a reader returns no value.
#[derive(Clone, Copy, Debug, PartialEq, Eq, Error)]
pub enum ReadError {
    /// Memory ran out.
    #[error("out of memory")]
    Memory,
    /// The bits are refused.
    #[error("refused")]
    Refused(Refusal),
}

impl From<AllocError> for ReadError {
    ghost from_gives = { λ _ e. e ≡ OutOfMemory };

    fn from(_error: AllocError) -> ReadError {
        ReadError::Memory
    }
}
