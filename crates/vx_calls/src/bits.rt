//! Reading and writing codes.

use crate::words::{bytes_of, push_bytes, push_gap};
use anyhow::{Context, Result, bail};
use std::alloc::{AllocError, Global};
use vx_bits::{BitCause, BitReader, BitWriter};

/// The most bytes that are read bit by bit.
pub(crate) const MOST_READ: usize = 1 << 23;

/// - `bits BYTES CALL ..` reads: `uN`, `ue`, `se`, `align`, `one` for a one and zeros, `trailing`; each after `~` on a fork. It prints
///   what each returns, 0 for an alignment, and after `@` the place.
/// - `code CALL .. END` writes `uN=V`, `ue=V`, `se=V`, `align` and `one`, and prints the bytes: END is `close`, or `bytes` for those of
///   an aligned writer.
/// - `codes N` writes the numbers below N, each as ue(v) and as u(32), and reads them again. It prints the bytes, how many numbers are the
///   same, and whether a trailing comes after them.
pub(crate) fn answer(text: &mut String, alloc: Global, verb: &str, words: &[&str]) -> Result<()> {
    match (verb, words) {
        ("bits", [bytes, calls @ ..]) => read_calls(text, alloc, bytes, calls),
        ("code", [calls @ .., end]) => write_calls(text, alloc, calls, end),
        ("codes", [count]) => there_and_back(text, alloc, count.parse::<u32>()?),
        _ => bail!("no such call of bits"),
    }
}

/// Appends what calls of a reader of bytes return.
fn read_calls(text: &mut String, alloc: Global, bytes: &str, calls: &[&str]) -> Result<()> {
    let bytes = bytes_of(alloc, bytes)?;
    if bytes.len() > MOST_READ {
        bail!("too many bytes");
    }
    let mut bits = BitReader::new(&bytes);
    for call in calls {
        read_call(text, &mut bits, call)?;
    }
    Ok(())
}

/// Makes one call, perhaps of a fork, and appends its result.
fn read_call(text: &mut String, bits: &mut BitReader<'_>, call: &str) -> Result<()> {
    match call.strip_prefix('~') {
        Some(call) => tell_call(text, &mut bits.fork(), call),
        None => tell_call(text, bits, call),
    }
}

/// Makes one call, and appends its result.
fn tell_call(text: &mut String, bits: &mut BitReader<'_>, call: &str) -> Result<()> {
    let taken = take(bits, call)?;
    push_gap(text)?;
    match taken {
        Ok(value) => write!(text, "{value}@{}", bits.at())?,
        Err(cause) => write!(text, "{cause:?}@{}", bits.at())?,
    }
    Ok(())
}

/// Returns what a call of a reader returns; 0 for an alignment.
fn take(bits: &mut BitReader<'_>, call: &str) -> Result<Result<i64, BitCause>> {
    match call {
        "ue" => Ok(bits.ue().map(i64::from)),
        "se" => Ok(bits.se().map(i64::from)),
        "align" => Ok(without_number(bits.align())),
        "one" => Ok(without_number(bits.align_after_one())),
        "trailing" => Ok(without_number(bits.trailing())),
        _ => take_fixed(bits, width_of(call)?),
    }
}

/// Returns the result of a call that gives no number.
fn without_number(answer: Result<(), BitCause>) -> Result<i64, BitCause> {
    answer.map(|()| 0)
}

/// Returns what `u` returns.
fn take_fixed(bits: &mut BitReader<'_>, width: u32) -> Result<Result<i64, BitCause>> {
    if width > 32 {
        bail!("more than 32 bits");
    }
    match bits.u(width) {
        Ok(value) => Ok(Ok(value as i64)),
        Err(cause) => Ok(Err(cause)),
    }
}

/// Returns the number of bits of `uN`.
fn width_of(call: &str) -> Result<u32> {
    let width = call.strip_prefix('u').context("no such call of bits")?;
    Ok(width.parse::<u32>()?)
}

/// Appends the bytes that calls of a writer write.
fn write_calls(text: &mut String, alloc: Global, calls: &[&str], end: &str) -> Result<()> {
    let mut bits = BitWriter::new(alloc);
    write_each(&mut bits, calls)?;
    let bytes = end_bits(bits, end)?;
    Ok(push_bytes(text, &bytes)?)
}

/// Makes calls of a writer.
fn write_each(bits: &mut BitWriter, calls: &[&str]) -> Result<()> {
    for call in calls {
        write_call(bits, call)?;
    }
    Ok(())
}

/// Returns the bytes of a writer.
fn end_bits(bits: BitWriter, end: &str) -> Result<Vec<u8>> {
    match end {
        "close" => Ok(bits.close()?),
        "bytes" if bits.is_aligned() => Ok(bits.into_bytes()),
        _ => bail!("no end of bits"),
    }
}

/// Makes one call of a writer.
fn write_call(bits: &mut BitWriter, call: &str) -> Result<()> {
    match call.split_once('=') {
        Some(("ue", value)) => write_golomb(bits, value.parse::<u32>()?),
        Some(("se", value)) => write_signed(bits, value.parse::<i32>()?),
        Some((fixed, value)) => write_fixed(bits, width_of(fixed)?, value.parse::<u64>()?),
        None => write_alignment(bits, call),
    }
}

fn write_golomb(bits: &mut BitWriter, value: u32) -> Result<()> {
    if value == u32::MAX {
        bail!("no code of ue");
    }
    Ok(bits.ue(value)?)
}

fn write_signed(bits: &mut BitWriter, value: i32) -> Result<()> {
    if value == i32::MIN {
        bail!("no code of se");
    }
    Ok(bits.se(value)?)
}

fn write_fixed(bits: &mut BitWriter, width: u32, value: u64) -> Result<()> {
    if width > 32 || value >= 1 << width {
        bail!("no code of u");
    }
    Ok(bits.u(width, value)?)
}

fn write_alignment(bits: &mut BitWriter, call: &str) -> Result<()> {
    match call {
        "align" => Ok(bits.align()?),
        "one" => Ok(bits.align_after_one()?),
        _ => bail!("no such call of a writer"),
    }
}

/// Appends what is written of the numbers below this one, and how it is read again.
fn there_and_back(text: &mut String, alloc: Global, count: u32) -> Result<()> {
    let bytes = long_bits(alloc, count)?;
    if bytes.len() > MOST_READ {
        bail!("too many numbers");
    }
    push_bytes(text, &bytes)?;
    let mut bits = BitReader::new(&bytes);
    write!(text, " {}", same_numbers(&mut bits, count))?;
    tell_call(text, &mut bits, "trailing")
}

/// Returns the codes of the numbers below this one.
fn long_bits(alloc: Global, count: u32) -> Result<Vec<u8>, AllocError> {
    let mut bits = BitWriter::new(alloc);
    for number in 0..count {
        bits.ue(number)?;
        bits.u(32, u64::from(number))?;
    }
    bits.close()
}

/// Reads the numbers below this one, and returns how many are right from the first on.
fn same_numbers(bits: &mut BitReader<'_>, count: u32) -> u32 {
    for number in 0..count {
        if bits.ue() != Ok(number) || bits.u(32) != Ok(u64::from(number)) {
            return number;
        }
    }
    count
}
