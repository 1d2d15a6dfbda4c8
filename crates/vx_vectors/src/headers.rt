//! Results for picture headers in units of their own.
ghost use Rattle.std.specs.Prelude.{◌≤◌, length};
ghost use Rattle.vx_bits.specs.Limits.{unit_limit};
ghost use Rattle.vx_ph.specs.InForce.{in_force, structures};
ghost use Rattle.vx_ph.specs.Picture.{IsHeader};

use crate::text::{write_bytes, write_items, write_same};
use std::alloc::{AllocError, Global};
use vx_bits::{BitWriter, ReadError};
use vx_ph::{PictureHeader, read_ph_unit, write_ph};
use vx_pps::Pps;
use vx_sps::Sps;

/// Appends what is read of a picture header under its sets, and what is written of it; the header.
pub(crate) fn answer_header(
    text: &mut String,
    alloc: Global,
    rbsp: &[u8],
    sps: &Sps,
    pps: &Pps,
) -> Result<PictureHeader, ReadError>
    requires { length rbsp.now ≤ unit_limit }
{
    let header = read_ph_unit(alloc, rbsp, sps, pps)?;
    write_header(text, alloc, &header, rbsp, sps, pps)?;
    Ok(header)
}

/// Appends a picture header under its sets, and whether what is written of it is this RBSP.
fn write_header(
    text: &mut String,
    alloc: Global,
    header: &PictureHeader,
    rbsp: &[u8],
    sps: &Sps,
    pps: &Pps,
) -> Result<(), AllocError>
    requires { IsHeader (structures sps.now) (in_force sps.now pps.now) header.now }
{
    text.push_str("header")?;
    write_items(text, &header.fields)?;
    let written = write_ph(alloc, header, sps, pps)?;
    write_same(text, written.as_slice(), rbsp)?;
    write_closed(text, alloc, header, rbsp, sps, pps)
}

/// Returns the bits of a picture header without a trailing, and a trailing after them.
fn closed(
    alloc: Global,
    header: &PictureHeader,
    sps: &Sps,
    pps: &Pps,
) -> Result<Vec<u8>, AllocError>
    requires { IsHeader (structures sps.now) (in_force sps.now pps.now) header.now }
{
    let mut bits = BitWriter::new(alloc);
    vx_ph::write_header(&mut bits, header, sps, pps)?;
    bits.close()
}

/// Appends what a picture header gives that is written without a trailing and closed then, if that isn't this RBSP.
fn write_closed(
    text: &mut String,
    alloc: Global,
    header: &PictureHeader,
    rbsp: &[u8],
    sps: &Sps,
    pps: &Pps,
) -> Result<(), AllocError>
    requires { IsHeader (structures sps.now) (in_force sps.now pps.now) header.now }
{
    let closed = closed(alloc, header, sps, pps)?;
    if closed.as_slice() == rbsp {
        return Ok(());
    }
    text.push_str(" | closed ")?;
    write_bytes(text, closed.as_slice())
}
