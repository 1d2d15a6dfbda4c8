//! A source over a reader of the system.
ghost use Rattle.std.specs.Prelude.{◌≡◌, ℕ, None};
ghost use Rattle.std.specs.Io.{ReadsAtMost};
ghost use Rattle.std.specs.Io.KnownBytes.{ReadConsumes};
ghost use Rattle.vx_io.specs.Faults.{CountsFault, CountsOne};

use crate::read::{Source, SourceFailed};
use std::fs::File;
use std::io::Read;

/// A source over a reader of the system. Contracts don't know its bytes.
#[derive(Drop)]
pub struct ReaderSource<R: Read + Drop> {
    from: R,
    faults: u64,
}

/// A source over an open file.
pub type FileSource = ReaderSource<File>;

impl<R: Read + Drop> ReaderSource<R> {
    ghost use Rattle.vx_io.specs.Outside.{reader_of, read_fault_count};

    /// Returns a source over `from` of which no read has failed.
    pub fn new(from: R) -> ReaderSource<R>
        ensures reader { reader_of result ≡ from }
        ensures faults { read_fault_count result ≡ 0 }
    {
        ReaderSource { from, faults: 0 }
    }
}

impl<R: Read + Drop> Source for ReaderSource<R> {
    ghost use Rattle.vx_io.specs.Outside.{reader_of, read_fault_count};

    ghost bytes_left = { λ _. None };

    ghost read_faults = { λ s. s.faults };

    /// Reads from the reader once. Its error becomes a failed read and adds one to the count of faults.
    ///
    /// That no other read fails is tested, not proved: the contracts of std's readers don't say when one
    /// fails.
    fn read(&mut self, into: &mut [u8]) -> Result<usize, SourceFailed>
        ensures bound { ReadsAtMost result into.new }
        ensures bytes { ReadConsumes None None result into.new }
        ensures faults { CountsFault (read_fault_count self.old) (read_fault_count self.new) result }
        ensures one { CountsOne (read_fault_count self.old) (read_fault_count self.new) result }

        // The reader inside gives just these bytes, if its contract knows them.
        ensures reader { ReadConsumes (R.remaining (reader_of self.old)) (R.remaining (reader_of self.new))
            result into.new }
    {
        match self.from.read(into) {
            Ok(count) => Ok(count),
            Err(_) => {
                self.faults = self.faults.saturating_add(1);
                Err(SourceFailed)
            }
        }
    }
}
