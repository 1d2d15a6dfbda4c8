//! Byte streams that are split as they come.
ghost use Rattle.std.specs.Prelude.{◌≡◌, ◌<◌, false, length};
ghost use Rattle.vx_annexb.specs.Held.{Lends, fed, is_all};

use crate::words::{bytes_of, numbers_of, push_gap, push_refusal, push_unit};
use anyhow::{Result, bail};
use std::alloc::{AllocError, Global};
use vx_annexb::Splitter;
use vx_bits::Refusal;

/// - `split SIZES BYTES` feeds bytes in pieces of these sizes in turn, and prints the units, each by its place, its length and its bytes,
///   and how the stream ends.
/// - `waits SIZES BYTES` also prints what is returned after each piece: a dot if no further unit is seen.
pub(crate) fn answer(text: &mut String, alloc: Global, verb: &str, words: &[&str]) -> Result<()> {
    let [sizes, bytes] = words else {
        bail!("no such call of a splitter");
    };
    let sizes = numbers_of(alloc, sizes)?;
    if sizes.is_empty() {
        bail!("no sizes");
    }
    let bytes = bytes_of(alloc, bytes)?;
    Ok(tell_split(text, alloc, &sizes, &bytes, verb == "waits")?)
}

/// Appends the bytes of a stream that come in pieces of these sizes in turn.
fn tell_split(
    text: &mut String,
    alloc: Global,
    sizes: &[u32],
    bytes: &[u8],
    waits: bool,
) -> Result<(), AllocError>
    requires { 0 < length sizes.now }
{
    let mut splitter = Splitter::new(alloc);
    split(text, &mut splitter, sizes, bytes, waits)
}

/// Feeds bytes to a splitter that has none, in pieces of these sizes in turn, and appends the units.
fn split(
    text: &mut String,
    splitter: &mut Splitter,
    sizes: &[u32],
    bytes: &[u8],
    waits: bool,
) -> Result<(), AllocError>
    requires sizes { 0 < length sizes.now }
    requires going { is_all splitter.old ≡ false }
    requires none { fed splitter.old ≡ 0 }
{
    let mut at = 0;
    let mut turn = 0usize;
    while at < bytes.len() {
        let size = piece_size(sizes, turn);
        let end = at + size.min(bytes.len() - at);
        splitter.feed(&bytes[at..end])?;
        let refusal = take_units(text, splitter)?;
        if waits {
            tell_stop(text, refusal, ".")?;
        }
        at = end;
        turn = turn.wrapping_add(1);
    }
    splitter.finish();
    let refusal = take_units(text, splitter)?;
    tell_stop(text, refusal, "end")
}

/// Returns the size of a piece, which is at least 1.
fn piece_size(sizes: &[u32], turn: usize) -> usize
    requires { 0 < length sizes.now }
    ensures { 0 < result }
{
    (sizes[turn % sizes.len()] as usize).max(1)
}

/// Takes and appends the complete units, and returns the refusal after them.
fn take_units(text: &mut String, splitter: &mut Splitter) -> Result<Option<Refusal>, AllocError>
    ensures { Lends splitter.old splitter.new }
{
    loop {
        match splitter.next() {
            Ok(Some(span)) => push_unit(text, span.offset, splitter.bytes(span))?,
            Ok(None) => return Ok(None),
            Err(refusal) => return Ok(Some(refusal)),
        }
    }
}

/// Appends why no unit is returned: the refusal, or else this word.
fn tell_stop(text: &mut String, refusal: Option<Refusal>, none: &str) -> Result<(), AllocError> {
    push_gap(text)?;
    match refusal {
        Some(refusal) => push_refusal(text, refusal),
        None => text.push_str(none),
    }
}
