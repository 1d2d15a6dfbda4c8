//! Results for headers by themselves, under the sets of the PPS with the id 0, whatever ids they name.
ghost use Rattle.std.specs.Prelude.{◌≡◌, ◌≤◌, length};
ghost use Rattle.vx_bits.specs.Limits.{unit_limit};

use crate::fault::LineFault;
use crate::frame::Frame;
use crate::slices::write_slice;
use crate::stream::Stream;
use crate::text::write_items;
use std::alloc::Global;
use vx_bits::BitReader;
use vx_ph::{PictureHeader, read_ph};
use vx_sh::{SliceNumbers, read_sh};

/// Appends a picture header, how many entries its lists have, and the bit after it.
fn write_header(text: &mut String, header: &PictureHeader, end: u32) -> Result<(), LineFault> {
    text.push_str("header")?;
    write_items(text, &header.fields)?;
    let (first, second) = (header.lists.first.len(), header.lists.second.len());
    write!(text, " | lists={first},{second} end={end}")?;
    Ok(())
}

/// Appends what is read of a picture header, which needn't end a unit.
///
/// *Errors:* the first refusal; sets that haven't come; lack of memory.
pub(crate) fn answer_header_alone(
    text: &mut String,
    alloc: Global,
    stream: &Stream,
    rbsp: &[u8],
) -> Result<(), LineFault>
    requires { length rbsp.now ≤ unit_limit }
{
    let (sps, pps) = stream.sets(0)?;
    let mut bits = BitReader::new(rbsp);
    let header = read_ph(alloc, &mut bits, sps, pps)?;
    write_header(text, &header, bits.at())
}

/// Appends what is read of a slice header under these numbers.
fn read_alone(
    text: &mut String,
    alloc: Global,
    rbsp: &[u8],
    numbers: &SliceNumbers<'_>,
) -> Result<(), LineFault>
    requires size { length rbsp.now ≤ unit_limit }
    requires few { length numbers.now.ids.now ≤ 1000 }
    requires one_each { length numbers.now.ids.now ≡ length numbers.now.layout.now.subpics }
{
    let (slice, size) = read_sh(alloc, rbsp, numbers)?;
    write_slice(text, &slice, size)
}

/// Appends what is read of a slice header of a unit of a type, under what two sets make up and a picture header.
fn slice_alone(
    text: &mut String,
    alloc: Global,
    nal_type: u8,
    rbsp: &[u8],
    frame: &Frame<'_>,
    header: &PictureHeader,
) -> Result<(), LineFault>
    requires { length rbsp.now ≤ unit_limit }
{
    read_alone(text, alloc, rbsp, &frame.at_slice(nal_type, header))
}

/// Appends what is read of a slice header of a unit of a type, under the picture header that came last.
///
/// *Errors:* the first refusal; sets or a picture header that haven't come; lack of memory.
pub(crate) fn answer_slice_alone(
    text: &mut String,
    alloc: Global,
    stream: &Stream,
    nal_type: u8,
    rbsp: &[u8],
) -> Result<(), LineFault>
    requires { length rbsp.now ≤ unit_limit }
{
    let header = stream.header()?;
    let frame = stream.frame(alloc, 0)?;
    slice_alone(text, alloc, nal_type, rbsp, &frame, header)
}
