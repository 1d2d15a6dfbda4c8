//! Results for slice headers.
ghost use Rattle.std.specs.Prelude.{◌≡◌, ◌*◌, ◌≤◌, [], length, drop};
ghost use Rattle.vx_bits.specs.Codes.{bits_of};
ghost use Rattle.vx_bits.specs.Limits.{unit_limit};
ghost use Rattle.vx_table.specs.Reading.{IsFound};
ghost use Rattle.vx_ph.specs.Header.{header_form};
ghost use Rattle.vx_ph.specs.InForce.{in_force, structures};
ghost use Rattle.vx_sh.specs.InForce.{in_force_at};
ghost use Rattle.vx_sh.specs.Value.{BeginsSlice, IsSliceOf};

use crate::fault::LineFault;
use crate::frame::Frame;
use crate::text::{write_items, write_same};
use std::alloc::{AllocError, Global};
use vx_bits::BitReader;
use vx_ph::{PictureHeader, read_ph};
use vx_sh::{SliceHeader, SliceNumbers, read_can_be_written, read_sh, write_sh};

/// Appends what is read of a slice header that takes this many bytes.
pub(crate) fn write_slice(
    text: &mut String,
    slice: &SliceHeader,
    size: usize,
) -> Result<(), LineFault> {
    let (subpic, address) = (slice.subpic, slice.address);
    write!(
        text,
        "slice size={size} subpicture={subpic} address={address}"
    )?;
    Ok(write_items(text, &slice.fields)?)
}

/// Appends whether what is written of a slice header is the prefix of this RBSP that it was read from, which has this many bytes.
fn write_again(
    text: &mut String,
    alloc: Global,
    rbsp: &[u8],
    numbers: &SliceNumbers<'_>,
    slice: &SliceHeader,
    size: usize,
) -> Result<(), AllocError>
    requires slice { IsSliceOf (in_force_at numbers.now) slice.now.fields numbers.now.header.now.fields }
    requires few { length numbers.now.ids.now ≤ 1000 }
    requires one_each { length numbers.now.ids.now ≡ length numbers.now.layout.now.subpics }
{
    let written = write_sh(alloc, slice, numbers)?;
    write_same(text, written.as_slice(), rbsp.get(..size).unwrap_or(rbsp))
}

/// Appends a slice header, and what is written of it, if its picture header is separate.
fn write_apart(
    text: &mut String,
    alloc: Global,
    rbsp: &[u8],
    numbers: &SliceNumbers<'_>,
    slice: &SliceHeader,
    size: usize,
) -> Result<(), LineFault>
    requires read { BeginsSlice (in_force_at numbers.now) rbsp.now slice.now size }
    requires few { length numbers.now.ids.now ≤ 1000 }
    requires one_each { length numbers.now.ids.now ≡ length numbers.now.layout.now.subpics }
{
    if slice.inside {
        return Err(LineFault::Missing);
    }
    read_can_be_written();
    write_slice(text, slice, size)?;
    Ok(write_again(text, alloc, rbsp, numbers, slice, size)?)
}

/// Appends a slice header, and what is written of it, if its picture header is inside, and is the one of the numbers: the bits after
/// the first give it, and it ends here.
fn write_inside(
    text: &mut String,
    alloc: Global,
    rbsp: &[u8],
    numbers: &SliceNumbers<'_>,
    slice: &SliceHeader,
    size: usize,
    end: &BitReader<'_>,
) -> Result<(), LineFault>
    requires read { BeginsSlice (in_force_at numbers.now) rbsp.now slice.now size }
    requires header { IsFound (header_form (structures numbers.now.sps.now) (in_force numbers.now.sps.now numbers.now.pps.now)) (record { total = 8 * length rbsp.now; left = drop 1 (bits_of rbsp.now) }) [] end.now numbers.now.header.now.fields }
    requires few { length numbers.now.ids.now ≤ 1000 }
    requires one_each { length numbers.now.ids.now ≡ length numbers.now.layout.now.subpics }
{
    if !slice.inside {
        return Err(LineFault::Missing);
    }
    read_can_be_written();
    write_slice(text, slice, size)?;
    text.push_str(" | header")?;
    write_items(text, &numbers.header.fields)?;
    Ok(write_again(text, alloc, rbsp, numbers, slice, size)?)
}

/// Appends what is read of a slice header under these numbers, and what is written of it, if its picture header is separate.
fn read_apart(
    text: &mut String,
    alloc: Global,
    rbsp: &[u8],
    numbers: &SliceNumbers<'_>,
) -> Result<(), LineFault>
    requires size { length rbsp.now ≤ unit_limit }
    requires few { length numbers.now.ids.now ≤ 1000 }
    requires one_each { length numbers.now.ids.now ≡ length numbers.now.layout.now.subpics }
{
    let (slice, size) = read_sh(alloc, rbsp, numbers)?;
    write_apart(text, alloc, rbsp, numbers, &slice, size)
}

/// Appends what is read of a slice header, and what is written of it, if its picture header is separate.
///
/// *Errors:* the first refusal; lack of memory; a picture header that is inside.
pub(crate) fn answer_apart(
    text: &mut String,
    alloc: Global,
    nal_type: u8,
    rbsp: &[u8],
    frame: &Frame<'_>,
    header: &PictureHeader,
) -> Result<(), LineFault>
    requires { length rbsp.now ≤ unit_limit }
{
    read_apart(text, alloc, rbsp, &frame.at_slice(nal_type, header))
}

/// Returns the bits after the first of bytes.
pub(crate) fn behind_first(bytes: &[u8]) -> BitReader<'_>
    requires few { length bytes.now ≤ unit_limit }
    requires some { 1 ≤ length bytes.now }
    ensures total { result.total ≡ 8 * length bytes.now }
    ensures left { result.left ≡ drop 1 (bits_of bytes.now) }
{
    let mut bits = BitReader::new(bytes);
    let _ = bits.u(1);
    bits
}

/// Appends what is read of a slice header under these numbers, and what is written of it, if the picture header of the numbers is
/// inside, and ends here.
fn read_inside(
    text: &mut String,
    alloc: Global,
    rbsp: &[u8],
    numbers: &SliceNumbers<'_>,
    end: &BitReader<'_>,
) -> Result<(), LineFault>
    requires size { length rbsp.now ≤ unit_limit }
    requires header { IsFound (header_form (structures numbers.now.sps.now) (in_force numbers.now.sps.now numbers.now.pps.now)) (record { total = 8 * length rbsp.now; left = drop 1 (bits_of rbsp.now) }) [] end.now numbers.now.header.now.fields }
    requires few { length numbers.now.ids.now ≤ 1000 }
    requires one_each { length numbers.now.ids.now ≡ length numbers.now.layout.now.subpics }
{
    let (slice, size) = read_sh(alloc, rbsp, numbers)?;
    write_inside(text, alloc, rbsp, numbers, &slice, size, end)
}

/// Appends what is read of a slice header and of the picture header that is inside, and what is written of both.
///
/// *Errors:* the first refusal; lack of memory; a picture header that isn't inside.
pub(crate) fn answer_inside(
    text: &mut String,
    alloc: Global,
    nal_type: u8,
    rbsp: &[u8],
    frame: &Frame<'_>,
) -> Result<(), LineFault>
    requires few { length rbsp.now ≤ unit_limit }
    requires some { 1 ≤ length rbsp.now }
{
    let mut bits = behind_first(rbsp);
    let header = read_ph(alloc, &mut bits, frame.sps, frame.pps)?;
    read_inside(text, alloc, rbsp, &frame.at_slice(nal_type, &header), &bits)
}
