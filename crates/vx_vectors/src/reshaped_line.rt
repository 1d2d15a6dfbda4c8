//! The bytes of a line about a rewritten picture header.

use crate::fault::LineFault;
use crate::frame::Sets;
use crate::line::LineBytes;
use crate::reshaped_ph::answer_reshaped_ph;
use crate::slices::behind_first;
use std::alloc::Global;
use vx_bits::BitReader;

/// Returns the bits of a header, which may stand after a first bit.
fn bits_of(header: &LineBytes, inside: bool) -> BitReader<'_> {
    let bytes = header.as_slice();
    if inside && !bytes.is_empty() {
        return behind_first(bytes);
    }
    BitReader::new(bytes)
}

/// Appends what is written of a header that is read under a source's sets, and rewritten to say what a unit says under those of a frame,
/// an SPS and a PPS.
fn write_for_frame(
    text: &mut String,
    alloc: Global,
    own: &Sets,
    frame: (&LineBytes, &LineBytes),
    bits: &mut BitReader<'_>,
    like: &LineBytes,
) -> Result<(), LineFault> {
    let (sps, pps) = frame;
    let frame = Sets::read(alloc, sps.as_slice(), pps.as_slice())?;
    answer_reshaped_ph(text, alloc, own, &frame, bits, like.as_slice())
}

/// Appends what is written of a header that is rewritten: the bytes are those of the two sets that it is read under, of those of a frame,
/// of the header, which may stand after a first bit, and of the unit that says what it is to say.
///
/// *Errors:* the first refusal; too many or too few bytes; a rewritten header that can't be; lack of memory.
pub(crate) fn answer_header_like(
    text: &mut String,
    alloc: Global,
    bytes: &[LineBytes],
    inside: bool,
) -> Result<(), LineFault> {
    let [sps, pps, frame_sps, frame_pps, header, like] = bytes else {
        return Err(LineFault::Bytes);
    };
    let own = Sets::read(alloc, sps.as_slice(), pps.as_slice())?;
    let frame = (frame_sps, frame_pps);
    write_for_frame(text, alloc, &own, frame, &mut bits_of(header, inside), like)
}
