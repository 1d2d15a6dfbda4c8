//! Results for feeds over bytes that come in pieces, or can't be read.

use crate::fault::LineFault;
use crate::line::LineBytes;
use crate::words::numbers;
use std::alloc::{AllocError, Global};
use vx_assemble::Feed;
use vx_io::MemorySource;

/// Returns the calls that fail, as `0,1`, and none for `-`.
fn failing(alloc: Global, word: &str) -> Result<Vec<u64>, LineFault> {
    if word == "-" {
        return Ok(Vec::new(alloc));
    }
    numbers(alloc, word)
}

/// Returns a source of these bytes, in pieces of this size, whose calls of these numbers fail.
fn source_in_pieces(
    alloc: Global,
    bytes: &[u8],
    piece: u32,
    failing: Vec<u64>,
) -> Result<MemorySource, AllocError> {
    let mut pieces = Vec::new(alloc);
    pieces.push(piece)?;
    Ok(MemorySource::new(Vec::from_slice(alloc, bytes)?, pieces, failing))
}

/// Returns a new feed, in memory of its own.
pub(crate) fn new_feed(alloc: Global) -> Result<Box<Feed>, AllocError> {
    let feed = Feed::new(alloc)?;
    Ok(Box::new(alloc, feed)?)
}

/// Appends what a feed returns if it is to take a unit, and another, and then to advance; and after that how many units it took, and
/// whether it may read on.
fn write_feed(
    text: &mut String,
    feed: &mut Feed,
    source: &mut MemorySource,
) -> Result<(), LineFault> {
    let (first, second) = (feed.take(source), feed.take(source));
    let third = feed.advance(source);
    let (units, is_open) = (feed.unit(), feed.is_open());
    write!(
        text,
        "{first:?} {second:?} {third:?} units={units} open={is_open}"
    )?;
    Ok(())
}

/// Appends what a new feed returns over a source.
fn write_new_feed(
    text: &mut String,
    alloc: Global,
    source: &mut MemorySource,
) -> Result<(), LineFault> {
    let mut feed = new_feed(alloc)?;
    write_feed(text, &mut feed, source)
}

/// `feed PIECE CALLS BYTES`: what a feed returns over bytes that come in pieces of this size, if these calls fail.
pub(crate) fn answer_feed(
    text: &mut String,
    alloc: Global,
    words: &[&str],
) -> Result<(), LineFault> {
    let [piece, calls, bytes] = words else {
        return Err(LineFault::Words);
    };
    let bytes = LineBytes::parse(alloc, bytes)?;
    let calls = failing(alloc, calls)?;
    let mut source = source_in_pieces(alloc, bytes.as_slice(), piece.parse::<u32>()?, calls)?;
    write_new_feed(text, alloc, &mut source)
}
