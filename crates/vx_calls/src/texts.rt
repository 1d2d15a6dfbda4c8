//! The texts of errors.

use anyhow::{Result, bail};
use std::alloc::AllocError;
use vx_bits::{ReadError, Refusal};
use vx_layout::{LayoutError, ORDER_FAULT, TileError};

/// `text ERROR` prints what an error says, and for a reader's whether it is lack of memory.
pub(crate) fn answer(text: &mut String, words: &[&str]) -> Result<()> {
    let [word] = words else {
        bail!("no such error");
    };
    let refused = ReadError::Refused(Refusal::Limit { code: 1 });
    match *word {
        "read-memory" => Ok(tell_read(text, ReadError::from(AllocError))?),
        "read-refused" => Ok(tell_read(text, refused)?),
        "layout-memory" => Ok(write!(text, "{}", LayoutError::Memory)?),
        "layout-fault" => Ok(write!(text, "{}", LayoutError::Fault(ORDER_FAULT))?),
        "tiles-overflow" => Ok(write!(text, "{}", TileError::Overflow(7))?),
        _ => bail!("no such error"),
    }
}

fn tell_read(text: &mut String, error: ReadError) -> Result<(), AllocError> {
    write!(text, "{error}, memory: {}", error == ReadError::Memory)
}
