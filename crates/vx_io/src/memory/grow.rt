//! A sink in memory that grows.
ghost use Rattle.std.specs.Prelude.{◌≡◌, ◌<◌, ◌++◌, Some, [], length, IfOk, OnOk, OnErr};
ghost use Rattle.std.specs.Io.{WritesAtMost};
ghost use Rattle.std.specs.Io.KnownBytes.{WriteAppends};
ghost use Rattle.vx_io.specs.Faults.{CountsFault, count_after};

use crate::write::{Sink, SinkFailed};
use std::alloc::Global;
use std::marker::Model;

/// A sink in memory that takes as many bytes as there is memory for. Contracts know its bytes.
///
/// A write takes all of its piece. It fails only for lack of memory, and then takes nothing. *Model:* the
/// bytes taken, and the number of failed writes.
#[derive(Drop)]
pub struct GrowSink {
    bytes: Vec<u8>,
    faults: u64,
}

impl Model for GrowSink {
    ghost use Rattle.vx_io.specs.Memory.{Growth};

    ghost Value = { Growth };

    ghost view = { λ s. record { taken = s.bytes.items; faults = s.faults } };
}

impl GrowSink {
    /// Returns a sink that has taken nothing.
    pub fn new(alloc: Global) -> GrowSink
        ensures { result ≡ record { taken = []; faults = 0 } }
    {
        GrowSink {
            bytes: Vec::new(alloc),
            faults: 0,
        }
    }

    /// Returns the bytes that were written.
    pub fn bytes(&self) -> &[u8]
        ensures { result.now ≡ self.now.taken }
    {
        &self.bytes
    }
}

impl Sink for GrowSink {
    ghost bytes_taken = { λ s. Some s.taken };

    ghost write_faults = { λ s. s.faults };

    fn write(&mut self, piece: &[u8]) -> Result<usize, SinkFailed>
        ensures bound { WritesAtMost result piece.now }
        ensures bytes { WriteAppends (Some self.old.taken) (Some self.new.taken) result piece.now }
        ensures some { IfOk result (λ n. 0 < length piece.now → 0 < n) }
        ensures faults { CountsFault self.old.faults self.new.faults result }

        // Takes all of it, or nothing for lack of memory.
        ensures count { IfOk result (λ n. n ≡ length piece.now) }
        ensures taken { OnOk result (self.new ≡ record self.old { taken = self.old.taken ++ piece.now }) }
        ensures failed { OnErr result (self.new ≡ record self.old { faults = count_after self.old.faults }) }
    {
        if self.bytes.reserve(piece.len()).is_err() {
            self.faults = self.faults.saturating_add(1);
            return Err(SinkFailed);
        }
        self.bytes.extend_from_slice(piece).unwrap();
        Ok(piece.len())
    }
}
