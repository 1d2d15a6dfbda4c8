//! The arguments of a line that calls a function: numbers, flags and items; and the text of what reading returns.

use crate::fault::LineFault;
use crate::text::{write_items, write_refusal};
use std::alloc::{AllocError, Global};
use std::num::ParseIntError;
use std::str::FromStr;
use vx_bits::{Fields, Item, ReadError};

/// Returns a flag, `0` or `1`.
pub(crate) fn flag(word: &str) -> Result<bool, LineFault> {
    match word {
        "0" => Ok(false),
        "1" => Ok(true),
        _ => Err(LineFault::Number),
    }
}

/// Numbers, as `4,3`.
pub(crate) fn numbers<N: FromStr<Err = ParseIntError> + Drop>(
    alloc: Global,
    word: &str,
) -> Result<Vec<N>, LineFault> {
    let mut numbers = Vec::new(alloc);
    for digits in word.split(',') {
        let number = digits.parse::<N>()?;
        numbers.push(number).map_err(AllocError::from)?;
    }
    Ok(numbers)
}

/// Returns an item, as `301=2`.
pub(crate) fn item(word: &str) -> Result<Item, LineFault> {
    let (field, value) = word.split_once('=').ok_or(LineFault::Words)?;
    Ok(Item {
        field: field.parse::<u16>()?,
        value: value.parse::<i64>()?,
    })
}

/// Appends items, as `301=1,304=0,305=1`.
fn push_items(items: &mut Fields, word: &str) -> Result<(), LineFault> {
    for word in word.split(',') {
        items.push(item(word)?)?;
    }
    Ok(())
}

/// Appends items this many times, as `301=1,304=0,305=1*64`, and once if no number follows.
fn push_all(items: &mut Fields, word: &str) -> Result<(), LineFault> {
    let (once, times) = word.split_once('*').unwrap_or((word, "1"));
    for _ in 0..times.parse::<u32>()? {
        push_items(items, once)?;
    }
    Ok(())
}

/// Items, as `179=64;301=1,304=0,305=1*64`.
pub(crate) fn items(alloc: Global, word: &str) -> Result<Fields, LineFault> {
    let mut items = Fields::new(alloc);
    for word in word.split(';') {
        push_all(&mut items, word)?;
    }
    Ok(items)
}

/// Appends the place where a reading ended, in bits, and the items that it gained.
pub(crate) fn write_reading(text: &mut String, at: u32, items: &Fields) -> Result<(), LineFault> {
    write!(text, "at={at}")?;
    Ok(write_items(text, items)?)
}

/// Appends the same of a reading that was refused, and what for.
pub(crate) fn write_refused(
    text: &mut String,
    at: u32,
    items: &Fields,
    error: ReadError,
) -> Result<(), LineFault> {
    let ReadError::Refused(refusal) = error else {
        return Err(LineFault::Memory);
    };
    write_reading(text, at, items)?;
    text.push_str(" | ")?;
    Ok(write_refusal(text, refusal)?)
}
