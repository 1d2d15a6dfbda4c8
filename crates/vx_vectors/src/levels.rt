//! Results for profile, tier and level, for DPB parameters, and for timing, by themselves.
ghost use Rattle.std.specs.Prelude.{◌≤◌, ◌^◌, length, IfOk};

use crate::fault::LineFault;
use crate::line::LineBytes;
use crate::text::write_same;
use crate::words::{numbers, write_reading, write_refused};
use std::alloc::{AllocError, Global};
use vx_bits::{BitReader, BitWriter, Fields, ReadError};
use vx_ptl::{
    DPB, PTL, SUBLAYER_TIMING, TIMING, VPS, is_run, read_dpb, read_ptl, read_sublayer_timing,
    read_timing, write_run,
};
use vx_table::keeps_only;

/// What a line asks to be read.
#[derive(Clone, Copy)]
pub(crate) enum Asked {
    /// Profile, tier and level.
    Ptl,
    /// DPB parameters.
    Dpb,
    /// General timing, and sublayer timing after it.
    Timing,
}

/// The highest sublayer of a structure, and whether each has an entry of its own.
#[derive(Drop)]
struct Sublayers {
    max: u32,
    each: bool,
    ghost most: { max ≤ 6 },
}

/// Returns the sublayers that a word names, as `6,1`.
fn named_sublayers(alloc: Global, word: &str) -> Result<Sublayers, LineFault> {
    let numbers = numbers(alloc, word)?;
    let [max, each] = numbers.as_slice() else {
        return Err(LineFault::Words);
    };
    if *max > 6 {
        return Err(LineFault::Number);
    }
    Ok(Sublayers {
        max: *max,
        each: *each != 0,
    })
}

/// Returns the bytes of items, with a one and zeros after them; of none if they have no codes.
fn written(alloc: Global, read: &Fields) -> Result<Vec<u8>, AllocError> {
    let mut bits = BitWriter::new(alloc);
    if is_run(read, 0, read.len()) {
        write_run(&mut bits, read, 0, read.len())?;
    }
    bits.close()
}

/// Reads general timing, and sublayer timing after it.
fn read_both(
    bits: &mut BitReader<'_>,
    up_to: &Sublayers,
    read: &mut Fields,
) -> Result<(), ReadError> {
    read_timing(bits, up_to.max, up_to.each, read)?;
    read_sublayer_timing(bits, up_to.max, up_to.each, read)
}

/// Reads such structures.
fn read(
    asked: Asked,
    bits: &mut BitReader<'_>,
    up_to: &Sublayers,
    read: &mut Fields,
) -> Result<(), ReadError> {
    match asked {
        Asked::Ptl => read_ptl(bits, up_to.max, read),
        Asked::Dpb => read_dpb(bits, up_to.max, up_to.each, read),
        Asked::Timing => read_both(bits, up_to, read),
    }
}

/// Appends items that were read of bytes up to a place, and what is written of them.
fn write_told(
    text: &mut String,
    alloc: Global,
    at: u32,
    items: &Fields,
    bytes: &[u8],
) -> Result<(), LineFault> {
    write_reading(text, at, items)?;
    let written = written(alloc, items)?;
    Ok(write_same(text, written.as_slice(), bytes)?)
}

/// Appends what is read of bytes, and what is written of it.
fn write_read(
    text: &mut String,
    alloc: Global,
    asked: Asked,
    up_to: &Sublayers,
    bytes: &LineBytes,
) -> Result<(), LineFault> {
    let mut bits = BitReader::new(bytes.as_slice());
    let mut items = Fields::new(alloc);
    match read(asked, &mut bits, up_to, &mut items) {
        Ok(()) => write_told(text, alloc, bits.at(), &items, bytes.as_slice()),
        Err(error) => write_refused(text, bits.at(), &items, error),
    }
}

/// - `ptl SUBLAYER,0 BYTES`: profile, tier and level up to this sublayer.
/// - `dpb SUBLAYER,EACH BYTES`: DPB parameters up to this sublayer, of each or of it alone.
/// - `timing SUBLAYER,EACH BYTES`: general timing, and sublayer timing up to this sublayer, of each or of it alone.
pub(crate) fn answer_asked(
    text: &mut String,
    alloc: Global,
    asked: Asked,
    words: &[&str],
) -> Result<(), LineFault> {
    let [up_to, bytes] = words else {
        return Err(LineFault::Words);
    };
    let up_to = named_sublayers(alloc, up_to)?;
    let bytes = LineBytes::parse(alloc, bytes)?;
    write_read(text, alloc, asked, &up_to, &bytes)
}

/// `levels`: whether each of these tables keeps no field.
pub(crate) fn answer_levels(text: &mut String) -> Result<(), LineFault> {
    let (vps, ptl, dpb) = (
        keeps_only(&VPS, &[], &[]),
        keeps_only(&PTL, &[], &[]),
        keeps_only(&DPB, &[], &[]),
    );
    let (timing, sublayer) = (
        keeps_only(&TIMING, &[], &[]),
        keeps_only(&SUBLAYER_TIMING, &[], &[]),
    );
    write!(
        text,
        "vps={vps} ptl={ptl} dpb={dpb} timing={timing} sublayer_timing={sublayer}"
    )?;
    Ok(())
}
