//! Results for the lines that the program prints of units, pictures and refusals.
//!
//! Some are lines that no stream of a stored length has.

use crate::fault::LineFault;
use crate::words::flag;
use std::alloc::Global;
use vx_annexb::NalHeader;
use vx_bits::{BitCause, Refusal};
use vx_report::{PictureNumbers, Where, picture_line, refusal_line, unit_line};

/// Appends a line, its line feed too.
fn write_line(text: &mut String, line: &[u8]) -> Result<(), LineFault> {
    match str::from_utf8(line) {
        Ok(line) => Ok(text.push_str(line)?),
        Err(_) => Err(LineFault::Bytes),
    }
}

/// `unit-line TYPE TID OFFSET BYTES`: the line of a unit, whose reserved bit is 1, and whose layer is 63.
pub(crate) fn answer_unit_line(
    text: &mut String,
    alloc: Global,
    words: &[&str],
) -> Result<(), LineFault> {
    let [nal_type, temporal_id, offset, bytes] = words else {
        return Err(LineFault::Words);
    };
    let header = NalHeader {
        reserved: true,
        layer_id: 63,
        nal_type: nal_type.parse::<u8>()?,
        temporal_id: temporal_id.parse::<u8>()?,
    };
    let (offset, bytes) = (offset.parse::<u64>()?, bytes.parse::<u64>()?);
    write_line(text, &unit_line(alloc, header, offset, bytes)?)
}

/// `picture-line PICTURE CLVSS POC SLICES SUBPICTURES`: the line of a picture.
pub(crate) fn answer_picture_line(
    text: &mut String,
    alloc: Global,
    words: &[&str],
) -> Result<(), LineFault> {
    let [picture, clvss, poc, slices, subpictures] = words else {
        return Err(LineFault::Words);
    };
    let numbers = PictureNumbers {
        picture: picture.parse::<u64>()?,
        clvss: flag(clvss)?,
        poc: poc.parse::<i32>()?,
        slices: slices.parse::<u32>()?,
        subpictures: subpictures.parse::<u32>()?,
    };
    write_line(text, &picture_line(alloc, numbers)?)
}

/// Returns a cause by its name.
fn cause(word: &str) -> Result<BitCause, LineFault> {
    match word {
        "Short" => Ok(BitCause::Short),
        "LongCode" => Ok(BitCause::LongCode),
        "BadTrailing" => Ok(BitCause::BadTrailing),
        "BadAlignment" => Ok(BitCause::BadAlignment),
        "OutOfRange" => Ok(BitCause::OutOfRange),
        _ => Err(LineFault::Words),
    }
}

/// Returns a refusal at a field.
fn syntax(words: &[&str]) -> Result<Refusal, LineFault> {
    let [field, bit, word] = words else {
        return Err(LineFault::Words);
    };
    Ok(Refusal::Syntax {
        field: field.parse::<u16>()?,
        bit: bit.parse::<u32>()?,
        cause: cause(word)?,
    })
}

/// Returns a refusal of a structure.
fn structure(words: &[&str]) -> Result<Refusal, LineFault> {
    let [code, kind, id] = words else {
        return Err(LineFault::Words);
    };
    Ok(Refusal::Structure {
        code: code.parse::<u8>()?,
        kind: kind.parse::<u8>()?,
        id: id.parse::<u8>()?,
    })
}

/// Returns a refusal of a merge.
fn merge(words: &[&str]) -> Result<Refusal, LineFault> {
    let [code, source, field] = words else {
        return Err(LineFault::Words);
    };
    Ok(Refusal::Merge {
        code: code.parse::<u8>()?,
        source: source.parse::<u16>()?,
        field: field.parse::<u16>()?,
    })
}

/// Returns a refusal by the letter of its rules and its number.
fn numbered(letter: &str, words: &[&str]) -> Result<Refusal, LineFault> {
    let [code, more @ ..] = words else {
        return Err(LineFault::Words);
    };
    let code = code.parse::<u8>()?;
    match (letter, more) {
        ("F", [byte]) => Ok(Refusal::Framing {
            code,
            byte: byte.parse::<u64>()?,
        }),
        ("P", []) => Ok(Refusal::Profile { code }),
        ("L", []) => Ok(Refusal::Limit { code }),
        ("E", []) => Ok(Refusal::Extract { code }),
        _ => Err(LineFault::Words),
    }
}

/// Returns a refusal by its letter and what belongs to it: `F CODE BYTE`, `Y FIELD BIT CAUSE`, `S CODE KIND ID`, `M CODE SOURCE FIELD`,
/// and `P`, `L` and `E` with a code.
fn refusal(letter: &str, words: &[&str]) -> Result<Refusal, LineFault> {
    match letter {
        "Y" => syntax(words),
        "S" => structure(words),
        "M" => merge(words),
        _ => numbered(letter, words),
    }
}

/// `refusal-line SOURCE UNIT PICTURE WRITTEN LETTER ..`: the line of a refusal at this place.
pub(crate) fn answer_refusal_line(
    text: &mut String,
    alloc: Global,
    words: &[&str],
) -> Result<(), LineFault> {
    let [source, unit, picture, written, letter, words @ ..] = words else {
        return Err(LineFault::Words);
    };
    let place = Where {
        source: source.parse::<u16>()?,
        unit: unit.parse::<u64>()?,
        picture: picture.parse::<u64>()?,
        written: flag(written)?,
    };
    let refusal = refusal(letter, words)?;
    write_line(text, &refusal_line(alloc, refusal, place)?)
}
