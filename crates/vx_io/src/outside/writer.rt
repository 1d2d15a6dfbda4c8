//! A sink over a writer of the system.
ghost use Rattle.std.specs.Prelude.{◌≡◌, ◌<◌, ℕ, None, length, IfOk};
ghost use Rattle.std.specs.Io.{WritesAtMost};
ghost use Rattle.std.specs.Io.KnownBytes.{WriteAppends};
ghost use Rattle.vx_io.specs.Faults.{CountsFault, CountsOne};

use crate::write::{Sink, SinkFailed};
use std::io::Write;

/// A sink over a writer of the system. Contracts don't know its bytes.
#[derive(Drop)]
pub struct WriterSink<W: Write + Drop> {
    to: W,
    faults: u64,
}

impl<W: Write + Drop> WriterSink<W> {
    ghost use Rattle.vx_io.specs.Outside.{writer_of, write_fault_count};

    /// Returns a sink over `to` of which no write has failed.
    pub fn new(to: W) -> WriterSink<W>
        ensures writer { writer_of result ≡ to }
        ensures faults { write_fault_count result ≡ 0 }
    {
        WriterSink { to, faults: 0 }
    }
}

impl<W: Write + Drop> Sink for WriterSink<W> {
    ghost use Rattle.vx_io.specs.Outside.{writer_of, write_fault_count};

    ghost bytes_taken = { λ _. None };

    ghost write_faults = { λ s. s.faults };

    /// Writes to the writer once. Its error, or a count of 0 for a piece with bytes, becomes a failed write
    /// and adds one to the count of faults.
    ///
    /// That no other write fails is tested, not proved: the contracts of std's writers don't say when one
    /// fails.
    fn write(&mut self, piece: &[u8]) -> Result<usize, SinkFailed>
        ensures bound { WritesAtMost result piece.now }
        ensures bytes { WriteAppends None None result piece.now }
        ensures some { IfOk result (λ n. 0 < length piece.now → 0 < n) }
        ensures faults { CountsFault (write_fault_count self.old) (write_fault_count self.new) result }
        ensures one { CountsOne (write_fault_count self.old) (write_fault_count self.new) result }

        // The writer inside takes just these bytes, if its contract knows them.
        ensures writer { WriteAppends (W.contents (writer_of self.old)) (W.contents (writer_of self.new))
            result piece.now }
    {
        match self.to.write(piece) {
            Ok(count) if count > 0 || piece.is_empty() => Ok(count),
            _ => {
                self.faults = self.faults.saturating_add(1);
                Err(SinkFailed)
            }
        }
    }
}
