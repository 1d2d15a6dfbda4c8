//! The trait of byte sinks, and how a whole piece is written to one.
ghost use Rattle.std.specs.Prelude.{◌≡◌, ◌<◌, ℕ, List, Option, Some, codes, length, IfOk, IsOk, OnOk, OnErr};
ghost use Rattle.std.specs.Io.{WritesAtMost};
ghost use Rattle.std.specs.Io.KnownBytes.{Appends, WriteAppends};
ghost use Rattle.vx_io.specs.Faults.{CountsFault};
ghost use Rattle.vx_io.specs.Written.{AppendsFront};

use std::error::Error;
use std::fmt;

/// The error of a failed write. The sink's count of faults records it.
#[derive(Clone, Copy, PartialEq, Eq, Debug)]
pub struct SinkFailed;

impl fmt::Display for SinkFailed {
    ghost output = { λ _. Some (codes "a write failed") };

    fn fmt<W: fmt::Write>(&self, f: &mut fmt::Formatter<W>) -> fmt::Result {
        f.write_str("a write failed")
    }
}

impl Error for SinkFailed {}

/// A writer of bytes with a count of its failed writes.
pub trait Sink {
    // The bytes that the sink has taken, if contracts know them.
    ghost bytes_taken: { Self → Option (List ℕ) };

    // A count that rises with each failed write. It stops at 2^64 - 1.
    ghost write_faults: { Self → ℕ };

    /// Writes a prefix of `piece`, and returns its length: at least 1, unless `piece` is empty.
    ///
    /// # Errors
    ///
    /// `SinkFailed` if the write failed. The count of faults then rises, up to its last value. Nothing is taken.
    fn write(&mut self, piece: &[u8]) -> Result<usize, SinkFailed>
        ensures bound { WritesAtMost result piece.now }
        ensures bytes { WriteAppends (bytes_taken self.old) (bytes_taken self.new) result piece.now }
        ensures some { IfOk result (λ n. 0 < length piece.now → 0 < n) }
        ensures faults { CountsFault (write_faults self.old) (write_faults self.new) result };
}

/// Writes all of `piece` to `out`. Takes no memory.
///
/// # Errors
///
/// `SinkFailed` if a write failed. A proper prefix of `piece` is then written, which may be empty.
pub fn write_all<K: Sink>(out: &mut K, piece: &[u8]) -> Result<(), SinkFailed>
    ensures ok { OnOk result (Appends (K.bytes_taken out.old) (K.bytes_taken out.new) piece.now) }
    // After a failed write, a prefix of the piece is written, and not all of it.
    ensures err { OnErr result (AppendsFront (K.bytes_taken out.old) (K.bytes_taken out.new) piece.now) }
    ensures faults { CountsFault (K.write_faults out.old) (K.write_faults out.new) result }
    // For an empty piece the sink isn't called.
    ensures none { length piece.now ≡ 0 → (out.new ≡ out.old) × IsOk result }
{
    let mut rest = piece;
    while !rest.is_empty() {
        let taken = out.write(rest)?;
        rest = &rest[taken..];
    }
    Ok(())
}
