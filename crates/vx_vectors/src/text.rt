//! What results have in common: items, refusals, bytes, rectangles.

use std::alloc::AllocError;
use vx_bits::{Fields, Item, Refusal};
use vx_layout::{Bounds, Rect, RectList};
use vx_rpl::RefEntry;

/// Returns what comes before the i-th of several things.
pub(crate) fn mark(i: usize, mark: &'static str) -> &'static str {
    if i == 0 { "" } else { mark }
}

/// Appends items, each after a blank.
pub(crate) fn write_items(text: &mut String, fields: &Fields) -> Result<(), AllocError> {
    for i in 0..fields.len() {
        let Item { field, value } = fields.item(i);
        write!(text, " {field}={value}")?;
    }
    Ok(())
}

/// Appends bytes in hexadecimal.
pub(crate) fn write_bytes(text: &mut String, bytes: &[u8]) -> Result<(), AllocError> {
    for byte in bytes {
        write!(text, "{byte:02x}")?;
    }
    Ok(())
}

/// Appends whether the bytes that were written are those that were read, and else what they are.
pub(crate) fn write_same(text: &mut String, written: &[u8], read: &[u8]) -> Result<(), AllocError> {
    text.push_str(" | written ")?;
    if written == read {
        return text.push_str("same");
    }
    write_bytes(text, written)
}

/// Appends a refusal.
pub(crate) fn write_refusal(text: &mut String, refusal: Refusal) -> Result<(), AllocError> {
    text.push_str("refused ")?;
    match refusal {
        Refusal::Syntax { field, bit, cause } => {
            write!(text, "Y field={field} bit={bit} cause={cause:?}")
        }
        Refusal::Profile { code } => write!(text, "P code={code}"),
        Refusal::Limit { code } => write!(text, "L code={code}"),
        other => write!(text, "{other:?}"),
    }
}

/// Appends the bounds of tile columns or rows.
pub(crate) fn write_bounds(text: &mut String, bounds: &Bounds) -> Result<(), AllocError> {
    for i in 0..bounds.len() {
        write!(text, "{}{}", mark(i, ","), bounds.item(i))?;
    }
    Ok(())
}

/// Appends rectangles.
pub(crate) fn write_rects(text: &mut String, rects: &RectList) -> Result<(), AllocError> {
    for (i, rect) in rects.iter().enumerate() {
        let Rect { x, y, w, h } = *rect;
        write!(text, "{}{x},{y},{w},{h}", mark(i, ";"))?;
    }
    Ok(())
}

/// Appends an entry of a reference picture list.
pub(crate) fn write_entry(text: &mut String, entry: RefEntry) -> Result<(), AllocError> {
    match entry {
        RefEntry::Short { abs, sign: false } => write!(text, "s+{abs}"),
        RefEntry::Short { abs, sign: true } => write!(text, "s-{abs}"),
        RefEntry::Long { lsb, msb: None } => write!(text, "l{lsb}"),
        RefEntry::Long {
            lsb,
            msb: Some(msb),
        } => write!(text, "l{lsb}/{msb}"),
    }
}
