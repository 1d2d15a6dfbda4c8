//! The line that says why there are no more pictures.
ghost use Rattle.std.specs.Prelude.{Some};
ghost use Rattle.vx_c.specs.Call.{TellsLine};

use crate::memory::put;
use std::alloc::Global;
use vx_push::stop_line;
use vx_run::Stop;

/// Copies the line of a stop to the beginning of `into`, and returns the line's length.
///
/// The line is cut to the length of `into`. Returns 0 if there is no memory for the line.
pub(crate) fn tell(alloc: Global, stop: Stop, into: &mut [u8]) -> usize
    ensures { TellsLine (Some stop) into.old into.new result }
{
    let Ok(line) = stop_line(alloc, stop) else {
        return 0;
    };
    let _count = put(&line, into);
    line.len()
}
