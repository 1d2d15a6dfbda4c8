//! The pictures of a stream, with the decoding inputs of their slices.
ghost use Rattle.std.specs.Prelude.{◌<◌, length};

use crate::fault::LineFault;
use crate::feeds::new_feed;
use crate::inputs::write_input;
use std::alloc::{AllocError, Global};
use vx_assemble::{Feed, Step};
use vx_io::MemorySource;
use vx_pic::{DecodingInput, Kind, Picture, decoding_input};

/// Returns a source of these bytes.
fn source_of(alloc: Global, stream: &[u8]) -> Result<MemorySource, AllocError> {
    let bytes = Vec::from_slice(alloc, stream)?;
    Ok(MemorySource::new(bytes, Vec::new(alloc), Vec::new(alloc)))
}

/// Appends what a picture is.
fn write_kind(text: &mut String, kind: Kind) -> Result<(), AllocError> {
    let (nal_type, tid, poc) = (kind.nal_type, kind.temporal_id, kind.poc);
    let (clvss, after_eos) = (u8::from(kind.clvss), u8::from(kind.after_eos));
    write!(
        text,
        " type={nal_type} tid={tid} clvss={clvss} after_eos={after_eos} poc={poc}"
    )
}

/// Appends a line of a picture, with its number and that of the unit that completed it.
fn write_head(
    text: &mut String,
    number: u64,
    unit: u64,
    picture: &Picture<'_>,
) -> Result<(), AllocError> {
    write!(text, "picture {number} unit={unit}")?;
    write_kind(text, picture.kind())?;
    let (subpictures, slices) = (picture.ids().len(), picture.slice_count());
    write!(text, " subpictures={subpictures} slices={slices}")
}

/// Returns the decoding input of a slice of a picture, in memory of its own.
fn input_of<'a>(
    alloc: Global,
    picture: &Picture<'a>,
    i: u32,
) -> Result<Box<DecodingInput<'a>>, AllocError>
    requires { i < length picture.now.slices }
{
    let input = decoding_input(alloc, picture, i)?;
    Ok(Box::new(alloc, input)?)
}

/// Appends a line of a slice of a picture.
fn write_slice(
    text: &mut String,
    alloc: Global,
    picture: &Picture<'_>,
    i: u32,
) -> Result<(), AllocError>
    requires { i < length picture.now.slices }
{
    let subpic = picture.slice(i).header.subpic;
    let input = input_of(alloc, picture, i)?;
    write_input(text, subpic, &input)
}

/// Appends lines of the slices of a picture.
fn write_slices(text: &mut String, alloc: Global, picture: &Picture<'_>) -> Result<(), AllocError> {
    for i in 0..picture.slice_count() {
        write_slice(text, alloc, picture, i)?;
    }
    Ok(())
}

/// Appends lines of a picture, with its number, after this many units.
fn write_picture(
    text: &mut String,
    alloc: Global,
    number: u64,
    units: u64,
    picture: &Picture<'_>,
) -> Result<(), AllocError> {
    text.push_str(if number == 0 { "" } else { "\n" })?;
    write_head(text, number, units.saturating_sub(1), picture)?;
    write_slices(text, alloc, picture)
}

/// Appends lines of the next picture of a source, with its number; false at the end.
fn write_next(
    text: &mut String,
    alloc: Global,
    number: u64,
    feed: &mut Feed,
    source: &mut MemorySource,
) -> Result<bool, LineFault> {
    match feed.advance(source)? {
        Step::Picture => {
            write_picture(text, alloc, number, feed.unit(), &feed.picture())?;
            Ok(true)
        }
        Step::End => Ok(false),
    }
}

/// Appends lines of the pictures of a source.
fn write_pictures(
    text: &mut String,
    alloc: Global,
    feed: &mut Feed,
    source: &mut MemorySource,
) -> Result<(), LineFault> {
    for number in 0..u64::MAX {
        if !write_next(text, alloc, number, feed, source)? {
            return Ok(());
        }
    }
    Ok(())
}

/// Appends lines of the pictures of a stream.
///
/// *Errors:* the first rule that the stream breaks, perhaps after lines of earlier pictures; lack of memory.
pub(crate) fn answer_pictures(
    text: &mut String,
    alloc: Global,
    stream: &[u8],
) -> Result<(), LineFault> {
    let mut source = source_of(alloc, stream)?;
    let mut feed = new_feed(alloc)?;
    write_pictures(text, alloc, &mut feed, &mut source)
}
