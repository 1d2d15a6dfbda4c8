//! What sets mean beyond their items.

use crate::fault::LineFault;
use crate::text::{mark, write_bounds, write_entry, write_rects};
use std::alloc::AllocError;
use vx_layout::Rect;
use vx_pps::Pps;
use vx_rpl::{RefEntry, RefList, RplTable, StructureList};
use vx_sps::Sps;

/// Appends the entries of a structure; the bits of a long-term one may be in headers.
fn write_entries(text: &mut String, list: &RefList, in_header: bool) -> Result<(), AllocError> {
    for i in 0..list.len() {
        text.push_str(mark(i, ","))?;
        match list.item(i) {
            RefEntry::Long { .. } if in_header => text.push_str("lNone")?,
            entry => write_entry(text, entry)?,
        }
    }
    Ok(())
}

/// Appends the structures of a list.
fn write_structures(text: &mut String, list: &StructureList) -> Result<(), AllocError> {
    if list.len() == 0 {
        text.push_str("-")?;
    }
    for i in 0..list.len() {
        if let Some(structure) = list.get(i) {
            let place = if structure.in_header { "h" } else { "o" };
            write!(text, "{}{place}", mark(i, ";"))?;
            write_entries(text, &structure.entries, structure.in_header)?;
        }
    }
    Ok(())
}

/// Appends the structures of both lists.
pub(crate) fn write_table(text: &mut String, table: &RplTable) -> Result<(), LineFault> {
    write_structures(text, &table.first)?;
    text.push_str("|")?;
    Ok(write_structures(text, &table.second)?)
}

/// Appends the rectangles of the subpictures of a set.
fn write_subpictures(text: &mut String, sps: &Sps) -> Result<(), AllocError> {
    for i in 0..sps.subpics() {
        let Rect { x, y, w, h } = sps.rect(i);
        write!(text, "{}{x},{y},{w},{h}", mark(i as usize, ";"))?;
    }
    Ok(())
}

/// Appends whether each subpicture is treated as a picture.
fn write_treated(text: &mut String, sps: &Sps) -> Result<(), AllocError> {
    for i in 0..sps.subpics() {
        let treated = u8::from(sps.treated(i));
        write!(text, "{}{treated}", mark(i as usize, ","))?;
    }
    Ok(())
}

/// Appends whether each subpicture is filtered across.
fn write_filtered(text: &mut String, sps: &Sps) -> Result<(), AllocError> {
    for i in 0..sps.subpics() {
        let filtered = u8::from(sps.filtered(i));
        write!(text, "{}{filtered}", mark(i as usize, ","))?;
    }
    Ok(())
}

/// Appends the picture of a sequence parameter set, and its subpictures.
pub(crate) fn write_picture(text: &mut String, sps: &Sps) -> Result<(), AllocError> {
    let (width, height, ctb, count) = (sps.width(), sps.height(), sps.ctb(), sps.subpics());
    write!(
        text,
        " | width={width} height={height} ctb={ctb} subpics={count} rects="
    )?;
    write_subpictures(text, sps)?;
    text.push_str(" treated=")?;
    write_treated(text, sps)?;
    text.push_str(" filtered=")?;
    write_filtered(text, sps)
}

/// Appends what a sequence parameter set means: its picture, its subpictures, and its structures of reference picture lists.
pub(crate) fn write_sps_meaning(text: &mut String, sps: &Sps) -> Result<(), LineFault> {
    write_picture(text, sps)?;
    text.push_str(" lists=")?;
    write_table(text, sps.table())
}

/// Appends the slices of a picture parameter set.
fn write_slices(text: &mut String, pps: &Pps) -> Result<(), AllocError> {
    match pps.slices() {
        Some(slices) => write_rects(text, slices),
        None => text.push_str("none"),
    }
}

/// Appends what a picture parameter set means: its tiles, and its slices, which may be those of the subpictures.
pub(crate) fn write_pps_meaning(text: &mut String, pps: &Pps) -> Result<(), AllocError> {
    if !pps.partitioned() {
        return text.push_str(" | unpartitioned");
    }
    text.push_str(" | columns=")?;
    write_bounds(text, pps.columns())?;
    text.push_str(" rows=")?;
    write_bounds(text, pps.rows())?;
    text.push_str(" slices=")?;
    write_slices(text, pps)
}
