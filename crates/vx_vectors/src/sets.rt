//! Results for parameter sets by themselves.
ghost use Rattle.std.specs.Prelude.{◌≤◌, length};
ghost use Rattle.vx_bits.specs.Limits.{unit_limit};
ghost use Rattle.vx_aps.specs.Aps.{IsValid};

use crate::fault::LineFault;
use crate::meaning::{write_pps_meaning, write_sps_meaning};
use crate::text::{write_bytes, write_items, write_same};
use std::alloc::{AllocError, Global};
use vx_aps::{Aps, read_aps, write_aps};
use vx_bits::Fields;
use vx_pps::{Pps, read_pps, write_pps};
use vx_ptl::read_vps;
use vx_sps::{Sps, read_sps, write_sps};

/// Appends the items of a set that is accepted.
pub(crate) fn write_accepted(text: &mut String, fields: &Fields) -> Result<(), AllocError> {
    text.push_str("ok")?;
    write_items(text, fields)
}

/// Appends what is read of a VPS.
pub(crate) fn answer_vps(text: &mut String, alloc: Global, rbsp: &[u8]) -> Result<(), LineFault>
    requires { length rbsp.now ≤ unit_limit }
{
    let items = read_vps(alloc, rbsp)?;
    Ok(write_accepted(text, &items)?)
}

/// Appends what is read of an SPS, what it means, and what is written of it.
pub(crate) fn answer_sps(text: &mut String, alloc: Global, rbsp: &[u8]) -> Result<(), LineFault>
    requires { length rbsp.now ≤ unit_limit }
{
    let sps = read_sps(alloc, rbsp)?;
    write_sps_told(text, alloc, &sps, rbsp)
}

/// Appends the items of an SPS, what it means, and what is written of it.
fn write_sps_told(
    text: &mut String,
    alloc: Global,
    sps: &Sps,
    rbsp: &[u8],
) -> Result<(), LineFault> {
    write_accepted(text, sps.fields())?;
    write_sps_meaning(text, sps)?;
    Ok(write_same_sps(text, alloc, sps, rbsp)?)
}

/// Appends whether what is written of an SPS is this RBSP.
pub(crate) fn write_same_sps(
    text: &mut String,
    alloc: Global,
    sps: &Sps,
    rbsp: &[u8],
) -> Result<(), AllocError> {
    let written = write_sps(alloc, sps)?;
    write_same(text, written.as_slice(), rbsp)
}

/// Appends what is read of a PPS, what it means, and what is written of it.
pub(crate) fn answer_pps(text: &mut String, alloc: Global, rbsp: &[u8]) -> Result<(), LineFault>
    requires { length rbsp.now ≤ unit_limit }
{
    let pps = read_pps(alloc, rbsp)?;
    write_pps_told(text, alloc, &pps, rbsp)
}

/// Appends the items of a PPS, what it means, and what is written of it.
fn write_pps_told(
    text: &mut String,
    alloc: Global,
    pps: &Pps,
    rbsp: &[u8],
) -> Result<(), LineFault> {
    write_accepted(text, pps.fields())?;
    write_pps_meaning(text, pps)?;
    Ok(write_same_pps(text, alloc, pps, rbsp)?)
}

/// Appends whether what is written of a PPS is this RBSP.
pub(crate) fn write_same_pps(
    text: &mut String,
    alloc: Global,
    pps: &Pps,
    rbsp: &[u8],
) -> Result<(), AllocError> {
    let written = write_pps(alloc, pps)?;
    write_same(text, written.as_slice(), rbsp)
}

/// Appends what is read of an APS, and what is written of it.
pub(crate) fn answer_aps(text: &mut String, alloc: Global, rbsp: &[u8]) -> Result<(), LineFault> {
    match read_aps(alloc, rbsp)? {
        Some(aps) => write_aps_told(text, alloc, &aps, rbsp),
        None => Ok(text.push_str("none")?),
    }
}

/// Appends an APS, and what is written of it.
fn write_aps_told(text: &mut String, alloc: Global, aps: &Aps, rbsp: &[u8]) -> Result<(), LineFault>
    requires { IsValid aps.now }
{
    write!(text, "ok 501={} 502={} body=", aps.kind, aps.id)?;
    write_bytes(text, aps.body.as_slice())?;
    let written = write_aps(alloc, aps)?;
    Ok(write_same(text, written.as_slice(), rbsp)?)
}
