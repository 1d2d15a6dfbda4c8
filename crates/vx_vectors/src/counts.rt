//! Results for picture order counts by themselves.
ghost use Rattle.std.specs.Prelude.{◌≤◌, IfOk};

use crate::fault::LineFault;
use crate::text::write_refusal;
use crate::words::{flag, numbers};
use std::alloc::{AllocError, Global};
use vx_bits::Refusal;
use vx_pic::{CountFields, PrevTid0, picture_order_count};

/// Returns a cycle of the most significant bits, and none for `-`.
fn cycle(word: &str) -> Result<Option<u32>, LineFault> {
    if word == "-" {
        return Ok(None);
    }
    Ok(Some(word.parse::<u32>()?))
}

/// Returns the low bits of a picture, as how many there are and their number, and its cycle.
fn count_fields(alloc: Global, low: &str, msb: &str) -> Result<CountFields, LineFault>
    ensures { IfOk result (λ fields. fields.lsb_bits ≤ 16) }
{
    let low = numbers(alloc, low)?;
    let [lsb_bits, lsb] = low.as_slice() else {
        return Err(LineFault::Words);
    };
    if *lsb_bits > 16 {
        return Err(LineFault::Number);
    }
    Ok(CountFields {
        lsb_bits: *lsb_bits,
        lsb: *lsb,
        msb_cycle: cycle(msb)?,
    })
}

/// Returns the low bits and the count of the previous picture.
fn previous(lsb: &str, poc: &str) -> Result<PrevTid0, LineFault> {
    Ok(PrevTid0 {
        lsb: lsb.parse::<u32>()?,
        poc: poc.parse::<i32>()?,
    })
}

/// Appends a count, or its refusal.
fn write_count(text: &mut String, answer: Result<i32, Refusal>) -> Result<(), AllocError> {
    match answer {
        Ok(count) => write!(text, "{count}"),
        Err(refusal) => write_refusal(text, refusal),
    }
}

/// `count BITS,LSB CYCLE CLVSS LSB POC`: the count of a picture with these low bits after a previous picture of these.
pub(crate) fn answer_count(
    text: &mut String,
    alloc: Global,
    words: &[&str],
) -> Result<(), LineFault> {
    let [low, msb, clvss, lsb, poc] = words else {
        return Err(LineFault::Words);
    };
    let fields = count_fields(alloc, low, msb)?;
    let previous = previous(lsb, poc)?;
    let answer = picture_order_count(&fields, flag(clvss)?, previous);
    Ok(write_count(text, answer)?)
}
