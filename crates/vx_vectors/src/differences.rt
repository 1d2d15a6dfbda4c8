//! Results for decoding inputs that differ.

use crate::fault::LineFault;
use crate::line::LineBytes;
use crate::words::item;
use std::alloc::{AllocError, Global};
use vx_bits::{BodyList, Item, Kept};
use vx_layout::{Bounds, Numbers, RectList};
use vx_pic::{AlfInForce, DecodingInput, Difference, Kind, Place, same_input};
use vx_rpl::{RefList, RefLists};

/// Returns the place of a slice at this address, in a subpicture of nothing.
fn place(alloc: Global, address: u32) -> Place {
    Place {
        width: 0,
        height: 0,
        layout: Numbers {
            columns: Bounds::new(alloc),
            rows: Bounds::new(alloc),
            slices: RectList::new(alloc),
            subpics: RectList::new(alloc),
        },
        address,
        across_tiles: false,
        across_slices: false,
    }
}

/// Returns the filter that is off.
fn no_filter<'a>(alloc: Global) -> AlfInForce<'a> {
    AlfInForce {
        enabled: false,
        luma: BodyList::new(alloc),
        cb: false,
        cr: false,
        chroma: None,
        cc_cb: None,
        cc_cr: None,
    }
}

/// Returns the lists of a slice that refers to no picture.
fn no_lists(alloc: Global) -> RefLists {
    RefLists {
        first: RefList::new(alloc),
        second: RefList::new(alloc),
    }
}

/// What an IDR picture is that is the first.
const IDR: Kind = Kind {
    nal_type: 8,
    temporal_id: 0,
    clvss: true,
    after_eos: false,
    poc: 0,
};

/// A slice of an IDR picture: an item of its picture header, its address, and its payload.
#[derive(Drop)]
struct Slice {
    header: Item,
    address: u32,
    payload: LineBytes,
}

impl Slice {
    /// Returns the slice that words describe.
    fn parse(
        alloc: Global,
        header: &str,
        address: &str,
        payload: &str,
    ) -> Result<Slice, LineFault> {
        Ok(Slice {
            header: item(header)?,
            address: address.parse::<u32>()?,
            payload: LineBytes::parse(alloc, payload)?,
        })
    }
}

/// Returns the input of a slice, of whose picture header one field is kept.
fn input(alloc: Global, slice: &Slice) -> Result<Box<DecodingInput<'_>>, AllocError> {
    let mut kept = Kept::new(alloc);
    kept.push(slice.header)?;
    let input = DecodingInput {
        kind: IDR,
        sps: Kept::new(alloc),
        pps: Kept::new(alloc),
        header: kept,
        slice: Kept::new(alloc),
        alf: no_filter(alloc),
        lmcs: None,
        scaling: None,
        lists: no_lists(alloc),
        slice_qp: 26,
        place: place(alloc, slice.address),
        payload: slice.payload.as_slice(),
    };
    Ok(Box::new(alloc, input)?)
}

/// Where the inputs of two slices differ first.
fn compared(alloc: Global, one: &Slice, other: &Slice) -> Result<Option<Difference>, AllocError> {
    let one = input(alloc, one)?;
    let other = input(alloc, other)?;
    Ok(same_input(&one, &other))
}

/// Appends where the inputs of two slices differ first.
fn write_difference(
    text: &mut String,
    alloc: Global,
    one: &Slice,
    other: &Slice,
) -> Result<(), LineFault> {
    match compared(alloc, one, other)? {
        Some(Difference { part, field }) => Ok(write!(text, "part={part} field={field}")?),
        None => Ok(text.push_str("same")?),
    }
}

/// `differ ITEM ADDRESS BYTES ITEM ADDRESS BYTES`: where the inputs of two slices of IDR pictures differ first, each with this item of
/// its picture header, at this address, and with this payload.
pub(crate) fn answer_differ(
    text: &mut String,
    alloc: Global,
    words: &[&str],
) -> Result<(), LineFault> {
    let [
        header,
        address,
        payload,
        other_header,
        other_address,
        other_payload,
    ] = words
    else {
        return Err(LineFault::Words);
    };
    let one = Slice::parse(alloc, header, address, payload)?;
    let other = Slice::parse(alloc, other_header, other_address, other_payload)?;
    write_difference(text, alloc, &one, &other)
}
