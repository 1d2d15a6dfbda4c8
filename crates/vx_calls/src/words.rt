//! What lines have in common: numbers, bytes, items and refusals.

use anyhow::{Context, Result};
use std::alloc::{AllocError, Global};
use std::num::ParseIntError;
use std::str::FromStr;
use vx_bits::{Fields, Item, Refusal};

/// The most bytes that are printed by their digits.
const MOST_TOLD: usize = 64;

/// Returns what comes before the i-th of several things.
pub(crate) fn mark(i: usize, mark: &'static str) -> &'static str {
    if i == 0 { "" } else { mark }
}

/// Appends a blank after what is there.
pub(crate) fn push_gap(text: &mut String) -> Result<(), AllocError> {
    text.push_str(if text.is_empty() { "" } else { " " })
}

/// Returns the numbers of a list with commas, or none for `-`.
pub(crate) fn numbers_of<N: Copy + FromStr<Err = ParseIntError>>(
    alloc: Global,
    word: &str,
) -> Result<Vec<N>> {
    let mut numbers = Vec::new(alloc);
    if word == "-" {
        return Ok(numbers);
    }
    for piece in word.split(',') {
        numbers.push(piece.parse::<N>()?).map_err(AllocError::from)?;
    }
    Ok(numbers)
}

/// Returns the bytes that a word spells.
pub(crate) fn bytes_of(alloc: Global, word: &str) -> Result<Vec<u8>> {
    let mut bytes = Vec::new(alloc);
    if word == "-" {
        return Ok(bytes);
    }
    for part in word.split('+') {
        push_part(alloc, &mut bytes, part)?;
    }
    Ok(bytes)
}

/// Adds bytes in hexadecimal, or these a number of times.
fn push_part(alloc: Global, bytes: &mut Vec<u8>, part: &str) -> Result<()> {
    let (digits, times) = part.split_once('*').unwrap_or((part, "1"));
    let once = hex::decode(alloc, digits)?;
    let times = times.parse::<usize>()?;
    if let [byte] = once.as_slice() {
        let end = bytes.len().saturating_add(times);
        return Ok(bytes.resize(end, *byte)?);
    }
    for _ in 0..times {
        bytes.extend_from_slice(&once)?;
    }
    Ok(())
}

/// Returns the Adler-32 of bytes (RFC 1950).
fn adler32(bytes: &[u8]) -> u32 {
    let (mut low, mut high) = (1u32, 0u32);
    for byte in bytes {
        low = low.wrapping_add(u32::from(*byte)) % 65_521;
        high = high.wrapping_add(low) % 65_521;
    }
    high.wrapping_mul(65_536).wrapping_add(low)
}

/// Appends the number of bytes and their checksum.
pub(crate) fn push_sum(text: &mut String, bytes: &[u8]) -> Result<(), AllocError> {
    write!(text, "{}#{:08x}", bytes.len(), adler32(bytes))
}

/// Appends bytes: `-` for none, and the sum of many.
pub(crate) fn push_bytes(text: &mut String, bytes: &[u8]) -> Result<(), AllocError> {
    if bytes.is_empty() {
        return text.push_str("-");
    }
    if bytes.len() > MOST_TOLD {
        return push_sum(text, bytes);
    }
    for byte in bytes {
        write!(text, "{byte:02x}")?;
    }
    Ok(())
}

/// Returns the item of a word `FIELD=VALUE`.
pub(crate) fn item_of(word: &str) -> Result<Item> {
    let (field, value) = word.split_once('=').context("no item")?;
    Ok(Item {
        field: field.parse::<u16>()?,
        value: value.parse::<i64>()?,
    })
}

/// Returns the items of words.
pub(crate) fn items_of(alloc: Global, words: &[&str]) -> Result<Fields> {
    let mut items = Fields::new(alloc);
    for word in words {
        items.push(item_of(word)?)?;
    }
    Ok(items)
}

/// Appends items.
pub(crate) fn push_items(text: &mut String, items: &Fields) -> Result<(), AllocError> {
    for item in items.iter() {
        push_gap(text)?;
        write!(text, "{}={}", item.field, item.value)?;
    }
    Ok(())
}

/// Appends a unit: its place, its length and its bytes.
pub(crate) fn push_unit(text: &mut String, place: u64, unit: &[u8]) -> Result<(), AllocError> {
    push_gap(text)?;
    write!(text, "{place}+{}:", unit.len())?;
    push_bytes(text, unit)
}

/// Appends a refusal: the letter of its kind and its numbers.
pub(crate) fn push_refusal(text: &mut String, refusal: Refusal) -> Result<(), AllocError> {
    match refusal {
        Refusal::Framing { code, byte } => write!(text, "F{code}@{byte}"),
        Refusal::Syntax { field, bit, cause } => write!(text, "Y{field}@{bit}:{cause:?}"),
        Refusal::Profile { code } => write!(text, "P{code}"),
        Refusal::Limit { code } => write!(text, "L{code}"),
        Refusal::Structure { code, kind, id } => write!(text, "D{code}:{kind}:{id}"),
        Refusal::Extract { code } => write!(text, "E{code}"),
        Refusal::Merge {
            code,
            source,
            field,
        } => write!(text, "M{code}:{source}:{field}"),
    }
}
