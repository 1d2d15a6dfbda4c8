//! The source for a file that the arguments name.

ghost use Rattle.std.specs.Prelude.{◌≡◌, IsErr, None, option_and_then};
ghost use Rattle.std.specs.Io.{ReadsAtMost};
ghost use Rattle.std.specs.Io.KnownBytes.{ReadConsumes};
ghost use Rattle.vx_io.specs.Faults.{CountsFault};

use std::io::Read;
use vx_io::{ClosedSource, ReaderSource, Source, SourceFailed};

/// The source over a file that was opened, or a closed source if it can't be opened.
#[derive(Drop)]
pub(crate) enum Opened<F: Read + Drop> {
    File(ReaderSource<F>),
    Closed(ClosedSource),
}

impl<F: Read + Drop> Opened<F> {
    ghost use Rattle.vx_app.specs.Opened.{opened_file, faults_in};

    /// Makes the source over this file, or a closed one for `None`.
    pub fn new(file: Option<F>) -> Opened<F>
        ensures file { opened_file result ≡ file }
        ensures faults { faults_in result ≡ 0 }
    {
        match file {
            Some(file) => Opened::File(ReaderSource::new(file)),
            None => Opened::Closed(ClosedSource::new()),
        }
    }
}

impl<F: Read + Drop> Source for Opened<F> {
    ghost use Rattle.vx_app.specs.Opened.{faults_in, opened_file, left_in};

    ghost bytes_left = { left_in };

    ghost read_faults = { faults_in };

    /// Reads from the file.
    ///
    /// *Errors:* [`SourceFailed`] if the read fails; always if there is no file.
    fn read(&mut self, into: &mut [u8]) -> Result<usize, SourceFailed>
        ensures bound { ReadsAtMost result into.new }
        ensures bytes { ReadConsumes (left_in self.old) (left_in self.new) result into.new }
        ensures faults { CountsFault (faults_in self.old) (faults_in self.new) result }

        // If contracts know the bytes of the file, the read returns these.
        ensures file { ReadConsumes (option_and_then F.remaining (opened_file self.old)) (option_and_then F.remaining (opened_file self.new)) result into.new }
        ensures closed { opened_file self.old ≡ None → IsErr result }
        ensures stays { opened_file self.old ≡ None → opened_file self.new ≡ None }
    {
        match self {
            Opened::File(file) => file.read(into),
            Opened::Closed(closed) => closed.read(into),
        }
    }
}
