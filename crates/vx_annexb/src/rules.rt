//! The rules by which a stream's framing is refused.
ghost use Rattle.std.specs.Prelude.{ℕ, ◌+◌, ◌<◌, ◌≤◌, ◌^◌, length, MatchOption};
ghost use Rattle.vx_annexb.specs.Places.{IsMark};
ghost use Rattle.vx_annexb.specs.ByteStream.{IsSound, RefusesUnit};

use crate::emulation::fault_from;
use crate::read_header;
use vx_bits::Refusal;
use vx_bits::limits::UNIT_LIMIT;
use vx_bits::rules::{BAD_EMULATION, BAD_HEADER, LONG_UNIT};

/// Returns why the unit that begins at `place` of the stream is refused, or `None`.
///
/// Requires that no 00 00 and a byte of at most 03 begins among its first `clear` bytes.
pub(crate) fn refusal_of(unit: &[u8], clear: usize, place: u64) -> Option<Refusal>
    requires fits { place + length unit.now < 2 ^ 64 }
    requires within { clear ≤ length unit.now }
    requires clear { (k : ℕ) → k < clear → ¬ IsMark 3 unit.now k }
    ensures { MatchOption result (IsSound unit.now) (RefusesUnit unit.now place) }
{
    if read_header(unit).is_none() {
        return Some(Refusal::Framing {
            code: BAD_HEADER,
            byte: place,
        });
    }
    if let Some(fault) = fault_from(unit, clear) {
        return Some(Refusal::Framing {
            code: BAD_EMULATION,
            byte: place + fault as u64,
        });
    }
    if unit.len() > UNIT_LIMIT {
        return Some(Refusal::Limit { code: LONG_UNIT });
    }
    None
}
