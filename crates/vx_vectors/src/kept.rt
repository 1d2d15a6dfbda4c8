//! Kept items of sets, and the number of items of large ones.
ghost use Rattle.std.specs.Prelude.{◌≤◌, length};
ghost use Rattle.vx_bits.specs.Limits.{unit_limit};

use crate::fault::LineFault;
use crate::meaning::write_picture;
use crate::sets::write_same_sps;
use crate::text::{mark, write_items};
use std::alloc::{AllocError, Global};
use vx_pps::{Pps, keep_pps, read_pps};
use vx_sps::{Sps, read_sps};

/// Appends the kept items of the PPS of an RBSP.
pub(crate) fn answer_kept(text: &mut String, alloc: Global, rbsp: &[u8]) -> Result<(), LineFault>
    requires { length rbsp.now ≤ unit_limit }
{
    let pps = read_pps(alloc, rbsp)?;
    write_kept(text, alloc, &pps)
}

/// Appends the kept items of a PPS.
fn write_kept(text: &mut String, alloc: Global, pps: &Pps) -> Result<(), LineFault> {
    text.push_str("kept")?;
    let kept = keep_pps(alloc, pps)?;
    Ok(write_items(text, &kept)?)
}

/// Appends how many items and structures of lists a set has, and its extra bits of headers.
fn write_counts(text: &mut String, sps: &Sps) -> Result<(), AllocError> {
    let lists = sps.table();
    let (items, first, second) = (sps.fields().len(), lists.first.len(), lists.second.len());
    let (ph, sh) = (sps.extra_ph_bits(), sps.extra_sh_bits());
    write!(text, "items={items} lists={first},{second} extra={ph},{sh}")
}

/// Appends the ids of the subpictures.
fn write_ids(text: &mut String, sps: &Sps) -> Result<(), AllocError> {
    text.push_str(" ids=")?;
    for i in 0..sps.subpics() {
        write!(text, "{}{}", mark(i as usize, ","), sps.id(i))?;
    }
    Ok(())
}

/// Appends the numbers of an SPS, and whether what is written of it is this RBSP.
fn write_numbers(
    text: &mut String,
    alloc: Global,
    sps: &Sps,
    rbsp: &[u8],
) -> Result<(), LineFault> {
    write_counts(text, sps)?;
    write_picture(text, sps)?;
    write_ids(text, sps)?;
    Ok(write_same_sps(text, alloc, sps, rbsp)?)
}

/// Appends how many items and structures an SPS has, its picture and its subpictures with their ids, and what is written of it.
pub(crate) fn answer_numbers(text: &mut String, alloc: Global, rbsp: &[u8]) -> Result<(), LineFault>
    requires { length rbsp.now ≤ unit_limit }
{
    let sps = read_sps(alloc, rbsp)?;
    write_numbers(text, alloc, &sps, rbsp)
}
