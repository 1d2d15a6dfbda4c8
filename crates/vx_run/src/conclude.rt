//! The end of a command that isn't done: its status, and the line that says why.

ghost use Rattle.std.specs.Prelude.{◌≡◌, ◌≤◌, [], IfOk, OnErr};
ghost use Rattle.std.specs.Io.Buffered.{writer_buffer};
ghost use Rattle.std.specs.Io.KnownBytes.{Keeps};
ghost use Rattle.vx_run.specs.Change.{Tells, change};
ghost use Rattle.vx_run.specs.Conclusion.{Concludes, Finishes, line_of};
ghost use Rattle.vx_run.specs.Gathered.{gatherer_of, gathered_bytes, gather_faults};
ghost use Rattle.vx_run.specs.declared.stop.Stop.TheVariants.{ReadFault, NoMemory};

use crate::gather::GatherSink;
use crate::stop::Stop;
use std::alloc::{AllocError, Global};
use std::io::Write;
use vx_io::{Sink, SinkFailed, write_all};
use vx_report::refusal_line;
use vx_verify::mismatch_line;

/// Writes on `err` why a command stopped, and returns the status.
///
/// The status is that of `stop`, or 4 if there is no memory for its line. A failed write to `err` doesn't change the status.
pub(crate) fn conclude<E: Sink>(alloc: Global, stop: Stop, err: &mut E) -> u8
    ensures { Concludes stop result (change E.bytes_taken E.write_faults err.old err.new) }
{
    match stop {
        Stop::NotUnderstood => {
            tell(err, b"words not understood\n");
            2
        }
        Stop::Refused { refusal, place } => end(err, refusal_line(alloc, refusal, place.told()), 1),
        Stop::Mismatched { mismatch, picture } => {
            end(err, mismatch_line(alloc, mismatch, picture), 1)
        }
        Stop::ReadFault { source } => end(err, read_fault_line(alloc, source), 3),
        Stop::WriteFault => {
            tell(err, b"write fault\n");
            3
        }
        Stop::NoMemory => {
            tell(err, b"no memory\n");
            4
        }
    }
}

/// Writes what `gathered` still holds, at the end of a command with this status, and returns the final status.
///
/// If that write fails and `status` is 0 or 1, it is a write fault: its line goes to `err`, and the status is 3. A status above 1 stays
/// as it is.
pub fn finish<W: Write + Drop, E: Sink>(
    alloc: Global,
    status: u8,
    gathered: &mut GatherSink<W>,
    err: &mut E,
) -> u8
    ensures status { Finishes status (change (gathered_bytes W.contents) gather_faults gathered.old gathered.new)
        result (change E.bytes_taken E.write_faults err.old err.new) }
    ensures written { result ≤ 1 → writer_buffer (gatherer_of gathered.new) ≡ [] }
    ensures bytes { Keeps (gathered_bytes W.contents gathered.old) (gathered_bytes W.contents gathered.new) }
{
    match gathered.write_rest() {
        Ok(()) => status,
        Err(SinkFailed) if status > 1 => status,
        Err(SinkFailed) => conclude(alloc, Stop::WriteFault, err),
    }
}

/// Writes a line that was made, and returns `status`. If there was no memory for the line, reports that instead.
fn end<E: Sink>(err: &mut E, line: Result<Vec<u8>, AllocError>, status: u8) -> u8
    ensures made { IfOk line (λ made.
        (result ≡ status) × Tells (change E.bytes_taken E.write_faults err.old err.new) made.items) }
    ensures memory { OnErr line
        ((result ≡ 4) × Tells (change E.bytes_taken E.write_faults err.old err.new) (line_of NoMemory)) }
{
    match line {
        Ok(line) => {
            tell(err, &line);
            status
        }
        Err(AllocError) => {
            tell(err, b"no memory\n");
            4
        }
    }
}

/// Writes one line. Whether the write succeeds has no other effect.
fn tell<E: Sink>(err: &mut E, line: &[u8])
    ensures { Tells (change E.bytes_taken E.write_faults err.old err.new) line.now }
{
    let _ = write_all(err, line);
}

/// Makes the line `read fault source 0`, with the number of the source.
fn read_fault_line(alloc: Global, source: u16) -> Result<Vec<u8>, AllocError>
    ensures { IfOk result (λ line. line.items ≡ line_of (ReadFault source)) }
{
    Ok(format!(in alloc; "read fault source {source}\n")?.into_bytes())
}
