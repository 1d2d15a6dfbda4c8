//! The program with its output buffer.

ghost use Rattle.std.specs.Prelude.{◌≡◌, ◌↔◌, ◌≤◌, [], vec_len};
ghost use Rattle.std.specs.Io.Buffered.{writer_buffer};
ghost use Rattle.vx_run.specs.Change.{change, sources_change};
ghost use Rattle.vx_run.specs.Gathered.{gatherer_of, gathered_bytes, gather_faults};
ghost use Rattle.vx_run.specs.Grammar.{IsUnderstood, NamesFiles, texts};
ghost use Rattle.vx_run.specs.Whole.{RunsWhole};

use crate::conclude::finish;
use crate::gather::GatherSink;
use crate::program::run;
use std::alloc::Global;
use std::io::Write;
use vx_io::{Sink, Source};

/// Runs a command as [`run`] does, and writes what `out` still holds at its end.
///
/// Returns the exit status of both.
pub fn run_whole<W: Write + Drop, E: Sink>(
    alloc: Global,
    words: &[String],
    sources: &mut Vec<Box<dyn Source>>,
    out: &mut GatherSink<W>,
    err: &mut E,
) -> u8
    requires { NamesFiles (texts words.now) (vec_len sources.old) }
    ensures whole { RunsWhole (texts words.now) (sources_change bytes_left read_faults sources.old.items sources.new.items)
        (change (gathered_bytes W.contents) gather_faults out.old out.new) result
        (change E.bytes_taken E.write_faults err.old err.new) }
    ensures words { (result ≡ 2) ↔ ¬ IsUnderstood (texts words.now) }
    ensures written { result ≤ 1 → writer_buffer (gatherer_of out.new) ≡ [] }
    ensures list { vec_len sources.new ≡ vec_len sources.old }
{
    let status = run(alloc, words, sources, out, err);
    finish(alloc, status, out, err)
}
