//! The line that says why there are no more pictures.
ghost use Rattle.std.specs.Prelude.{IfOk};
ghost use Rattle.vx_push.specs.Line.{IsLineOf};

use std::alloc::{AllocError, Global};
use vx_report::refusal_line;
use vx_run::Stop;

/// Makes the line that the program writes when a mixer or a cutter stops for this reason.
///
/// *Errors:* [`AllocError`] if there is no memory for the line.
pub fn stop_line(alloc: Global, stop: Stop) -> Result<Vec<u8>, AllocError>
    ensures { IfOk result (λ line. IsLineOf stop line.items) }
{
    match stop {
        Stop::Refused { refusal, place } => refusal_line(alloc, refusal, place.told()),
        _ => Vec::from_slice(alloc, b"no memory\n"),
    }
}
