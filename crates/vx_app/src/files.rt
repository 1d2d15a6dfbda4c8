//! The program on the system's files.

ghost use Rattle.std.specs.Prelude.{◌≡◌, ◌↔◌, ◌≤◌, [], IfOk, IfErr};
ghost use Rattle.std.specs.Io.Buffered.{writer_buffer};
ghost use Rattle.vx_run.specs.Change.{change};
ghost use Rattle.vx_run.specs.Gathered.{gatherer_of, gathered_bytes, gather_faults};
ghost use Rattle.vx_run.specs.Grammar.{IsUnderstood, texts};
ghost use Rattle.vx_run.specs.Whole.{EndsWhole};

use crate::open::{System, open_all};
use std::alloc::AllocError;
use std::io::Write;
use vx_io::{Sink, Source};
use vx_run::{GatherSink, run_whole};

/// Opens the files that the arguments name, runs the command on them, and returns the exit status.
///
/// No clause says what the command does to its files, because a clause can't name the boxes that the body makes. A body that passes other
/// files, or none, would be proved; the stored run would notice. *Errors:* [`AllocError`] if there is no memory for the files;
/// nothing is written.
pub(crate) fn run_on_files<W: Write + Drop, E: Sink>(
    rt: &HostRuntime,
    words: &[String],
    out: &mut GatherSink<W>,
    err: &mut E,
) -> Result<u8, AllocError>
    ensures ends { IfOk result (λ status. EndsWhole (change (gathered_bytes W.contents) gather_faults out.old out.new) status
        (change E.bytes_taken E.write_faults err.old err.new)) }
    ensures words { IfOk result (λ status. (status ≡ 2) ↔ ¬ IsUnderstood (texts words.now)) }
    ensures written { IfOk result (λ status. status ≤ 1 → writer_buffer (gatherer_of out.new) ≡ []) }
    ensures memory { IfErr result (λ _. (out.new ≡ out.old) × (err.new ≡ err.old)) }
{
    let files = open_all(rt.alloc(), &System { rt }, words)?;
    let mut sources: Vec<Box<dyn Source>> = Vec::new(rt.alloc());
    for file in files {
        sources.push(Box::new(rt.alloc(), file)?)?;
    }
    let status = run_whole(rt.alloc(), words, &mut sources, out, err);
    Ok(status)
}
