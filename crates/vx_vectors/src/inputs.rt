//! The text of a slice's decoding input.

use crate::text::{mark, write_bounds, write_bytes, write_entry, write_rects};
use std::alloc::AllocError;
use vx_layout::Numbers;
use vx_pic::{AlfInForce, DecodingInput, Place};
use vx_rpl::RefList;

/// Appends a reference picture list.
pub(crate) fn write_list(text: &mut String, list: &RefList) -> Result<(), AllocError> {
    if list.len() == 0 {
        text.push_str("-")?;
    }
    for i in 0..list.len() {
        text.push_str(mark(i, ","))?;
        write_entry(text, list.item(i))?;
    }
    Ok(())
}

/// Appends a body, or `none` if there isn't one.
fn write_body(text: &mut String, body: Option<&[u8]>, none: &str) -> Result<(), AllocError> {
    match body {
        Some(body) => write_bytes(text, body),
        None => text.push_str(none),
    }
}

/// Appends the bodies for luma.
fn write_luma(text: &mut String, alf: &AlfInForce<'_>) -> Result<(), AllocError> {
    if alf.luma.len() == 0 {
        return text.push_str("-");
    }
    for i in 0..alf.luma.len() {
        text.push_str(mark(i, ","))?;
        write_bytes(text, alf.luma.item(i))?;
    }
    Ok(())
}

/// Appends the bodies for chroma, and those of the cross-component filters.
fn write_chroma(text: &mut String, alf: &AlfInForce<'_>) -> Result<(), AllocError> {
    text.push_str(";chroma:")?;
    write_body(text, alf.chroma, "-")?;
    text.push_str(";cc_cb:")?;
    write_body(text, alf.cc_cb, "-")?;
    text.push_str(";cc_cr:")?;
    write_body(text, alf.cc_cr, "-")
}

/// Appends an adaptive loop filter.
fn write_alf(text: &mut String, alf: &AlfInForce<'_>) -> Result<(), AllocError> {
    if !alf.enabled {
        return text.push_str("off");
    }
    text.push_str("luma:")?;
    write_luma(text, alf)?;
    write!(text, ";cb:{};cr:{}", u8::from(alf.cb), u8::from(alf.cr))?;
    write_chroma(text, alf)
}

/// Appends luma mapping with chroma scaling.
fn write_lmcs(text: &mut String, lmcs: Option<(&[u8], bool)>) -> Result<(), AllocError> {
    match lmcs {
        Some((body, scaled)) => {
            write_bytes(text, body)?;
            write!(text, "/{}", u8::from(scaled))
        }
        None => text.push_str("off"),
    }
}

/// Appends tiles and slices.
fn write_layout(text: &mut String, layout: &Numbers) -> Result<(), AllocError> {
    text.push_str(" columns=")?;
    write_bounds(text, &layout.columns)?;
    text.push_str(" rows=")?;
    write_bounds(text, &layout.rows)?;
    text.push_str(" slices=")?;
    write_rects(text, &layout.slices)
}

/// Appends the place of a slice: its subpicture's size, tiles and slices, and whether in-loop filters cross their borders.
fn write_place(text: &mut String, place: &Place) -> Result<(), AllocError> {
    write!(text, " size={}x{}", place.width, place.height)?;
    write_layout(text, &place.layout)?;
    let (tiles, slices) = (place.across_tiles, place.across_slices);
    write!(text, " across={}{}", u8::from(tiles), u8::from(slices))
}

/// Appends what is in force at a slice.
fn write_in_force(text: &mut String, input: &DecodingInput<'_>) -> Result<(), AllocError> {
    write!(text, " qp={} list0=", input.slice_qp)?;
    write_list(text, &input.lists.first)?;
    text.push_str(" list1=")?;
    write_list(text, &input.lists.second)?;
    text.push_str(" alf=")?;
    write_alf(text, &input.alf)?;
    text.push_str(" lmcs=")?;
    write_lmcs(text, input.lmcs)?;
    text.push_str(" scaling=")?;
    write_body(text, input.scaling, "off")
}

/// Appends a line of a slice of a subpicture.
pub(crate) fn write_input(
    text: &mut String,
    subpic: u32,
    input: &DecodingInput<'_>,
) -> Result<(), AllocError> {
    let address = input.place.address;
    write!(text, "\nslice subpicture={subpic} address={address}")?;
    write_in_force(text, input)?;
    write_place(text, &input.place)?;
    text.push_str(" payload=")?;
    write_bytes(text, input.payload)
}
