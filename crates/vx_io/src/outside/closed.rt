//! A source that can't be read.
ghost use Rattle.std.specs.Prelude.{◌≡◌, [], Some, IsErr};
ghost use Rattle.std.specs.Io.{ReadsAtMost};
ghost use Rattle.std.specs.Io.KnownBytes.{ReadConsumes};
ghost use Rattle.vx_io.specs.Faults.{CountsFault, count_after};

use crate::read::{Source, SourceFailed};
use std::marker::Model;

/// A source in place of a file that could not be opened: every read fails. To contracts, it has no bytes
/// left.
///
/// *Model:* its count of faults.
#[derive(Drop)]
pub struct ClosedSource {
    faults: u64,
}

impl Model for ClosedSource {
    ghost use Rattle.std.specs.Prelude.{ℕ};

    ghost Value = { ℕ };

    ghost view = { λ s. s.faults };
}

impl ClosedSource {
    /// Returns a closed source of which no read has failed.
    pub fn new() -> ClosedSource
        ensures { result ≡ 0 }
    {
        ClosedSource { faults: 0 }
    }
}

impl Source for ClosedSource {
    ghost bytes_left = { λ _. Some [] };

    ghost read_faults = { λ s. s };

    fn read(&mut self, into: &mut [u8]) -> Result<usize, SourceFailed>
        ensures bound { ReadsAtMost result into.new }
        ensures bytes { ReadConsumes (Some []) (Some []) result into.new }
        ensures faults { CountsFault self.old self.new result }
        ensures fails { IsErr result }
        ensures one { self.new ≡ count_after self.old }
        ensures kept { into.new ≡ into.old }
    {
        self.faults = self.faults.saturating_add(1);
        Err(SourceFailed)
    }
}
