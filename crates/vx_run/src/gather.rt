//! The program's output: a sink that gathers small pieces for one write.

ghost use Rattle.std.specs.Prelude.{◌≡◌, ◌<◌, [], length, IfOk, OnOk};
ghost use Rattle.std.specs.Io.{WritesAtMost};
ghost use Rattle.std.specs.Io.Buffered.{writer_buffer, writer_contents};
ghost use Rattle.std.specs.Io.KnownBytes.{Keeps, WriteAppends};
ghost use Rattle.vx_io.specs.Faults.{CountsFault, CountsOne};

use std::io::{BufWriter, Write};
use vx_io::{Sink, SinkFailed};

/// A sink over a buffered writer. It counts the writes that failed.
///
/// What the buffer holds at the end is written only on [`write_rest`](GatherSink::write_rest). Contracts know its bytes if they know
/// those of the writer.
#[derive(Drop)]
pub struct GatherSink<W: Write + Drop> {
    to: BufWriter<W>,
    faults: u64,
}

impl<W: Write + Drop> GatherSink<W> {
    ghost use Rattle.vx_run.specs.Gathered.{gatherer_of, gathered_bytes, gather_faults};

    /// Makes a sink over `to`, with no failed write.
    pub fn new(to: BufWriter<W>) -> GatherSink<W>
        ensures writer { gatherer_of result ≡ to }
        ensures faults { gather_faults result ≡ 0 }
    {
        GatherSink { to, faults: 0 }
    }

    /// Writes what is gathered and not yet written.
    ///
    /// *Errors:* [`SinkFailed`] if the writer returns an error, which adds one to the count of failed writes. That there is no error
    /// otherwise is only tested: the contracts of std's writers don't say when a write fails.
    pub fn write_rest(&mut self) -> Result<(), SinkFailed>
        ensures rest { OnOk result (writer_buffer (gatherer_of self.new) ≡ []) }
        ensures bytes { Keeps (gathered_bytes W.contents self.old) (gathered_bytes W.contents self.new) }
        ensures faults { CountsFault (gather_faults self.old) (gather_faults self.new) result }
        ensures one { CountsOne (gather_faults self.old) (gather_faults self.new) result }
    {
        match self.to.flush() {
            Ok(()) => Ok(()),
            Err(_) => {
                self.faults = self.faults.saturating_add(1);
                Err(SinkFailed)
            }
        }
    }
}

impl<W: Write + Drop> Sink for GatherSink<W> {
    ghost use Rattle.vx_run.specs.Gathered.{gathered_bytes, gather_faults};

    ghost bytes_taken = { λ s. writer_contents W.contents s.to };

    ghost write_faults = { λ s. s.faults };

    /// Calls the writer once.
    ///
    /// *Errors:* [`SinkFailed`] if the writer returns an error, or takes no byte of a piece that has some. Either adds one to the count
    /// of failed writes.
    fn write(&mut self, piece: &[u8]) -> Result<usize, SinkFailed>
        ensures bound { WritesAtMost result piece.now }
        ensures bytes { WriteAppends (gathered_bytes W.contents self.old) (gathered_bytes W.contents self.new) result piece.now }
        ensures some { IfOk result (λ n. 0 < length piece.now → 0 < n) }
        ensures faults { CountsFault (gather_faults self.old) (gather_faults self.new) result }
        ensures one { CountsOne (gather_faults self.old) (gather_faults self.new) result }
    {
        match self.to.write(piece) {
            Ok(count) if count > 0 || piece.is_empty() => Ok(count),
            _ => {
                self.faults = self.faults.saturating_add(1);
                Err(SinkFailed)
            }
        }
    }
}
