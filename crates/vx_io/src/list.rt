//! Reading from one source of a list of boxes.
ghost use Rattle.std.specs.Prelude.{◌≡◌, ◌≢◌, ◌<◌, ℕ, Some, slice_get, vec_len};
ghost use Rattle.std.specs.Io.{ReadsAtMost};
ghost use Rattle.std.specs.Io.KnownBytes.{ReadConsumes};
ghost use Rattle.vx_io.specs.Faults.{CountsFault};
ghost use Rattle.vx_io.specs.Listed.{bytes_at, faults_at};

use crate::read::{Source, SourceFailed};

/// Reads from a source through its vtable, as [`Source::read`] does.
fn read_from(source: &mut dyn Source, into: &mut [u8]) -> Result<usize, SourceFailed>
    ensures bound { ReadsAtMost result into.new }
    ensures bytes { ReadConsumes (bytes_left source.old) (bytes_left source.new) result into.new }
    ensures faults { CountsFault (read_faults source.old) (read_faults source.new) result }
{
    source.read(into)
}

/// Reads from a boxed source, as [`Source::read`] does.
pub fn read_box(source: &mut Box<dyn Source>, into: &mut [u8]) -> Result<usize, SourceFailed>
    ensures bound { ReadsAtMost result into.new }
    ensures bytes { ReadConsumes (bytes_left source.old) (bytes_left source.new) result into.new }
    ensures faults { CountsFault (read_faults source.old) (read_faults source.new) result }
{
    read_from(&mut **source, into)
}

/// Reads from the source at `k`, as [`Source::read`] does, and leaves the other sources unchanged.
pub fn read_at(
    sources: &mut Vec<Box<dyn Source>>,
    k: usize,
    into: &mut [u8],
) -> Result<usize, SourceFailed>
    requires { k < vec_len sources.old }
    ensures bound { ReadsAtMost result into.new }
    ensures bytes { ReadConsumes (bytes_at bytes_left sources.old.items k)
        (bytes_at bytes_left sources.new.items k) result into.new }
    ensures faults { CountsFault (faults_at read_faults sources.old.items k)
        (faults_at read_faults sources.new.items k) result }
    ensures others { (i : ℕ) → i ≢ k
        → slice_get sources.new.items i ≡ slice_get sources.old.items i }
    ensures len { vec_len sources.new ≡ vec_len sources.old }
{
    read_box(&mut sources[k], into)
}
