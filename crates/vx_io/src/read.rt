//! The trait of byte sources.
ghost use Rattle.std.specs.Prelude.{ℕ, List, Option, Some, codes};
ghost use Rattle.std.specs.Io.{ReadsAtMost};
ghost use Rattle.std.specs.Io.KnownBytes.{ReadConsumes};
ghost use Rattle.vx_io.specs.Faults.{CountsFault};

use std::error::Error;
use std::fmt;

/// The error of a failed read. The source's count of faults records it.
#[derive(Clone, Copy, PartialEq, Eq, Debug)]
pub struct SourceFailed;

impl fmt::Display for SourceFailed {
    ghost output = { λ _. Some (codes "a read failed") };

    fn fmt<W: fmt::Write>(&self, f: &mut fmt::Formatter<W>) -> fmt::Result {
        f.write_str("a read failed")
    }
}

impl Error for SourceFailed {}

/// A reader of bytes with a count of its failed reads.
pub trait Source: Drop {
    // The bytes that the source has left, if contracts know them.
    ghost bytes_left: { Self → Option (List ℕ) };

    // A count that rises with each failed read. It stops at 2^64 - 1.
    ghost read_faults: { Self → ℕ };

    /// Reads some bytes to the start of `into`, and returns their number.
    ///
    /// If `into` has room for a byte, the number is 0 exactly at the end of the source. The rest of `into` is
    /// unspecified.
    ///
    /// # Errors
    ///
    /// `SourceFailed` if the read failed. The count of faults then rises, up to its last value. Nothing is taken
    /// from the source, and `into` is unspecified.
    fn read(&mut self, into: &mut [u8]) -> Result<usize, SourceFailed>
        ensures bound { ReadsAtMost result into.new }
        ensures bytes { ReadConsumes (bytes_left self.old) (bytes_left self.new) result into.new }
        ensures faults { CountsFault (read_faults self.old) (read_faults self.new) result };
}
