//! The line of `show` for a slice, with its decoding input.

ghost use Rattle.std.specs.Prelude.{◌≡◌, ◌+◌, ◌<◌, length, map, slice_get, slice_index, option_map, option_copied, unwrap_or, string_bytes, IfOk, IfSome};
ghost use Rattle.serde_json.specs.View.{view};
ghost use Rattle.serde_json.specs.Written.{compact_text};
ghost use Rattle.vx_bits.specs.Fields.{first_value};
ghost use Rattle.vx_table.specs.Scope as scope;
ghost use Rattle.vx_table.specs.Loaded.{numbers_of};
ghost use Rattle.vx_pic.specs.Seen.{alf_seen, input_seen};
ghost use Rattle.vx_report.specs.SliceLine as line;
ghost use Rattle.vx_report.specs.SliceLine.{array_of, bytes_data, entry_data, natural_data, or_null, rect_data, slice_text};

use md5::{Digest, Md5};
use serde_json::{Value, json};
use std::alloc::{AllocError, Global};
use vx_bits::{BodyList, Kept};
use vx_fields::pps::pps_num_ref_idx_default_active_minus1;
use vx_fields::sh::{
    sh_cb_qp_offset, sh_cr_qp_offset, sh_joint_cbcr_qp_offset, sh_num_ref_idx_active_minus1,
    sh_num_ref_idx_active_override_flag, sh_slice_type,
};
use vx_layout::{Bounds, Numbers, Rect, RectList};
use vx_pic::{AlfInForce, DecodingInput, Picture, Place};
use vx_rpl::{RefEntry, RefList, RefLists};
use vx_table::natural;

/// The numbers that identify a slice of a stream.
#[derive(Clone, Copy, Debug, PartialEq, Eq)]
pub struct SliceNumbers {
    /// The number of pictures before its picture.
    pub picture: u64,
    /// The number of slices of its picture before it.
    pub slice: u32,
    /// The index of its subpicture.
    pub subpicture: u32,
    /// SubpicIdVal of its subpicture (H.266 7.4.3.5).
    pub id: u32,
}

impl SliceNumbers {
    ghost use Rattle.std.specs.Prelude.{◌≡◌, ◌<◌, length, slice_get, IfSome};
    ghost use Rattle.vx_report.specs.SliceLine.{slice_numbers};

    /// Returns the numbers of slice `i` of a picture after `before` others.
    pub fn of(before: u64, picture: &Picture<'_>, i: u32) -> SliceNumbers
        requires { i < length picture.now.slices }
        ensures { IfSome (slice_get picture.now.slices i) (λ s. result ≡ slice_numbers before picture.now i s) }
    {
        let subpicture = picture.slice(i).header.subpic;
        SliceNumbers {
            picture: before,
            slice: i,
            subpicture,
            id: picture.ids().item(subpicture as usize),
        }
    }
}

/// Makes the JSON line of a slice with its decoding input, with a line feed.
///
/// It has the slice's type, active reference entries and QPs, the data in force, the payload, and the slice's place in its
/// subpicture. Bodies and the payload are given by their length and MD5 digest. *Errors:* [`AllocError`] if memory runs out.
pub fn slice_line(
    alloc: Global,
    numbers: SliceNumbers,
    input: &DecodingInput<'_>,
) -> Result<Vec<u8>, AllocError>
    ensures { IfOk result (λ line. line.items ≡ slice_text numbers (input_seen input.now)) }
{
    let mut text = json_text(alloc, numbers, input)?;
    text.push('\n')?;
    Ok(text.into_bytes())
}

/// Makes the line without its line feed.
fn json_text(
    alloc: Global,
    numbers: SliceNumbers,
    input: &DecodingInput<'_>,
) -> Result<String, AllocError>
    ensures { IfOk result (λ text. string_bytes text ≡ compact_text (line.slice_data numbers (input_seen input.now))) }
{
    let value = slice_value(alloc, numbers, input)?;
    value.to_string(alloc)
}

/// Makes the JSON value of a slice.
fn slice_value(
    alloc: Global,
    numbers: SliceNumbers,
    input: &DecodingInput<'_>,
) -> Result<Value, AllocError>
    ensures { IfOk result (λ value. view value ≡ line.slice_data numbers (input_seen input.now)) }
{
    let header = header_value(alloc, input)?;
    let in_force = in_force_value(alloc, input)?;
    let place = place_value(alloc, &input.place)?;
    let payload = bytes_value(alloc, input.payload)?;
    slice_object(alloc, numbers, header, in_force, place, payload)
}

/// Makes the JSON value of a slice from its parts.
fn slice_object(
    alloc: Global,
    numbers: SliceNumbers,
    header: Value,
    in_force: Value,
    place: Value,
    payload: Value,
) -> Result<Value, AllocError>
    ensures { IfOk result (λ value. view value ≡ line.slice_object numbers (view header) (view in_force) (view place) (view payload)) }
{
    json!(in alloc; {
        "header": header,
        "in_force": in_force,
        "payload": payload,
        "picture": numbers.picture,
        "place": place,
        "slice": numbers.slice,
        "subpicture": {
            "id": numbers.id,
            "index": numbers.subpicture,
        },
    })
}

/// Makes the JSON value of bytes: their length and their MD5 digest.
#[tactic(auto, unfolding(crate::specs::SliceLine::bytes_data))]
fn bytes_value(alloc: Global, bytes: &[u8]) -> Result<Value, AllocError>
    ensures { IfOk result (λ value. view value ≡ bytes_data bytes.now) }
{
    let digest = Md5::digest(bytes);
    let text = hex::encode(alloc, digest)?;
    json!(in alloc; {
        "bytes": bytes.len(),
        "md5": text,
    })
}

/// Makes the JSON value of bytes, or null.
fn bytes_or_null(alloc: Global, bytes: Option<&[u8]>) -> Result<Value, AllocError>
    ensures { IfOk result (λ value. view value ≡ or_null bytes_data (option_copied bytes.entry)) }
{
    match bytes {
        Some(bytes) => bytes_value(alloc, bytes),
        None => Ok(Value::Null),
    }
}

/// Returns the value of the first of these fields, or `None` if there is none.
fn first_of(kept: &Kept, field: u16) -> Option<i64>
    ensures { result ≡ first_value kept.now field }
{
    kept.as_slice()
        .iter()
        .find(|item| item.field == field)
        .map(|item| item.value)
}

/// Returns the value of a field, or 0 if it is absent.
fn value_of(kept: &Kept, field: u16) -> i64
    ensures { result ≡ line.value_of kept.now field }
{
    first_of(kept, field).unwrap_or(0)
}

/// Returns the number of a field, or `absent` if it is absent.
fn number_or(kept: &Kept, field: u16, absent: u32) -> u32
    ensures { result ≡ unwrap_or (option_map scope.natural (first_value kept.now field)) absent }
{
    match first_of(kept, field) {
        Some(value) => natural(value),
        None => absent,
    }
}

/// Returns the number of a field's item, by its index from 0 among those of this field; 0 if there are fewer.
fn number_at(kept: &Kept, field: u16, index: usize) -> u32
    ensures { result ≡ slice_index (numbers_of kept.now field) index }
{
    let mut before = 0;
    for i in 0..kept.len() {
        let item = kept.item(i);
        if item.field == field {
            if before == index {
                return natural(item.value);
            }
            before += 1;
        }
    }
    0
}

/// Returns sh_slice_type.
fn slice_type(input: &DecodingInput<'_>) -> u32
    ensures { result ≡ line.slice_type (input_seen input.now) }
{
    number_or(&input.slice, sh_slice_type, 2)
}

/// Returns whether sh_num_ref_idx_active_override_flag is 1.
fn overrides(input: &DecodingInput<'_>) -> bool
    ensures { result ≡ line.overrides (input_seen input.now) }
{
    number_or(&input.slice, sh_num_ref_idx_active_override_flag, 1) != 0
}

/// Returns whether sh_num_ref_idx_active_minus1 is coded for list 0.
fn codes_active_0(input: &DecodingInput<'_>) -> bool
    ensures { result ≡ line.codes_active_0 (input_seen input.now) }
{
    slice_type(input) < 2 && input.lists.first.len() > 1
}

/// Returns sh_num_ref_idx_active_minus1 for list 0.
fn active_minus1_0(input: &DecodingInput<'_>) -> u32
    ensures { result ≡ line.active_minus1_0 (input_seen input.now) }
{
    if !codes_active_0(input) {
        return 0;
    }
    number_at(&input.slice, sh_num_ref_idx_active_minus1, 0)
}

/// Returns sh_num_ref_idx_active_minus1 for list 1.
fn active_minus1_1(input: &DecodingInput<'_>) -> u32
    ensures { result ≡ line.active_minus1_1 (input_seen input.now) }
{
    if slice_type(input) != 0 {
        return 0;
    }
    if input.lists.second.len() < 2 {
        return 0;
    }
    let before = usize::from(codes_active_0(input));
    number_at(&input.slice, sh_num_ref_idx_active_minus1, before)
}

/// Returns the number of active entries of a list of `entries` where the slice header doesn't override it.
fn default_active(input: &DecodingInput<'_>, list: usize, entries: usize) -> u64
    ensures { result ≡ line.default_active (input_seen input.now) list entries }
{
    let default = number_at(&input.pps, pps_num_ref_idx_default_active_minus1, list);
    (entries as u64).min(u64::from(default) + 1)
}

/// Returns NumRefIdxActive of list 0 (H.266 7.4.8).
fn active_0(input: &DecodingInput<'_>) -> u64
    ensures { result ≡ line.active_0 (input_seen input.now) }
{
    if slice_type(input) >= 2 {
        return 0;
    }
    if overrides(input) {
        return u64::from(active_minus1_0(input)) + 1;
    }
    default_active(input, 0, input.lists.first.len())
}

/// Returns NumRefIdxActive of list 1 (H.266 7.4.8).
fn active_1(input: &DecodingInput<'_>) -> u64
    ensures { result ≡ line.active_1 (input_seen input.now) }
{
    if slice_type(input) != 0 {
        return 0;
    }
    if overrides(input) {
        return u64::from(active_minus1_1(input)) + 1;
    }
    default_active(input, 1, input.lists.second.len())
}

/// Makes the JSON value of the slice type, the active entries and the QPs.
#[tactic(auto, unfolding(crate::specs::SliceLine::header_data))]
fn header_value(alloc: Global, input: &DecodingInput<'_>) -> Result<Value, AllocError>
    ensures { IfOk result (λ value. view value ≡ line.header_data (input_seen input.now)) }
{
    json!(in alloc; {
        "NumRefIdxActive": [active_0(input), active_1(input)],
        "SliceQpY": input.slice_qp,
        "sh_cb_qp_offset": value_of(&input.slice, sh_cb_qp_offset),
        "sh_cr_qp_offset": value_of(&input.slice, sh_cr_qp_offset),
        "sh_joint_cbcr_qp_offset": value_of(&input.slice, sh_joint_cbcr_qp_offset),
        "sh_slice_type": slice_type(input),
    })
}

/// Makes the JSON value of bodies.
#[tactic(auto, using(crate::proofs::Arrays::bodies_more))]
fn bodies_value(alloc: Global, bodies: &BodyList<'_>) -> Result<Value, AllocError>
    ensures { IfOk result (λ value. view value ≡ array_of bytes_data (map (λ body. body.now) bodies.now)) }
{
    let mut values = Vec::new(alloc);
    for i in 0..bodies.len() {
        values.push(bytes_value(alloc, bodies.item(i))?)?;
    }
    Ok(Value::Array(values))
}

/// Makes the JSON value of an adaptive loop filter.
#[tactic(auto, unfolding(crate::specs::SliceLine::alf_data))]
fn alf_value(alloc: Global, alf: &AlfInForce<'_>) -> Result<Value, AllocError>
    ensures { IfOk result (λ value. view value ≡ line.alf_data (alf_seen alf.now)) }
{
    let luma = bodies_value(alloc, &alf.luma)?;
    let chroma = bytes_or_null(alloc, alf.chroma)?;
    let cc_cb = bytes_or_null(alloc, alf.cc_cb)?;
    let cc_cr = bytes_or_null(alloc, alf.cc_cr)?;
    alf_object(alloc, alf, luma, chroma, cc_cb, cc_cr)
}

/// Makes the JSON value of an adaptive loop filter from those of its bodies.
fn alf_object(
    alloc: Global,
    alf: &AlfInForce<'_>,
    luma: Value,
    chroma: Value,
    cc_cb: Value,
    cc_cr: Value,
) -> Result<Value, AllocError>
    ensures { IfOk result (λ value. view value ≡ line.alf_object (alf_seen alf.now) (view luma) (view chroma) (view cc_cb) (view cc_cr)) }
{
    json!(in alloc; {
        "cb": alf.cb,
        "cc_cb": cc_cb,
        "cc_cr": cc_cr,
        "chroma": chroma,
        "cr": alf.cr,
        "enabled": alf.enabled,
        "luma": luma,
    })
}

/// Makes the JSON value of luma mapping with chroma scaling, or null.
fn lmcs_value(alloc: Global, lmcs: Option<(&[u8], bool)>) -> Result<Value, AllocError>
    ensures { IfOk result (λ value. view value ≡ or_null line.lmcs_data (option_map (λ x. (x.0.now, x.1)) lmcs.entry)) }
{
    match lmcs {
        Some((body, scaled)) => lmcs_object(alloc, body, scaled),
        None => Ok(Value::Null),
    }
}

/// Makes the JSON value of luma mapping with chroma scaling.
fn lmcs_object(alloc: Global, body: &[u8], scaled: bool) -> Result<Value, AllocError>
    ensures { IfOk result (λ value. view value ≡ line.lmcs_data (body.now, scaled)) }
{
    let body = bytes_value(alloc, body)?;
    json!(in alloc; {
        "body": body,
        "ph_chroma_residual_scale_flag": scaled,
    })
}

/// Makes the JSON value of an entry of a reference picture list.
fn entry_value(alloc: Global, entry: RefEntry) -> Result<Value, AllocError>
    ensures { IfOk result (λ value. view value ≡ entry_data entry) }
{
    match entry {
        RefEntry::Short { abs, sign: true } => Ok(Value::from(-i64::from(abs))),
        RefEntry::Short { abs, sign: false } => Ok(Value::from(i64::from(abs))),
        RefEntry::Long { lsb, msb } => long_value(alloc, lsb, msb),
    }
}

/// Makes the JSON value of a long-term entry.
fn long_value(alloc: Global, lsb: u32, msb: Option<u32>) -> Result<Value, AllocError>
    ensures { IfOk result (λ value. view value ≡ line.long_data lsb msb) }
{
    json!(in alloc; {
        "delta_poc_msb_cycle_lt": msb,
        "poc_lsb_lt": lsb,
    })
}

/// Makes the JSON value of a reference picture list.
#[tactic(auto, using(crate::proofs::Arrays::entries_more))]
fn list_value(alloc: Global, list: &RefList) -> Result<Value, AllocError>
    ensures { IfOk result (λ value. view value ≡ array_of entry_data list.now) }
{
    let mut values = Vec::new(alloc);
    for i in 0..list.len() {
        values.push(entry_value(alloc, list.item(i))?)?;
    }
    Ok(Value::Array(values))
}

/// Makes the JSON value of both reference picture lists.
#[tactic(auto, unfolding(crate::specs::SliceLine::lists_data))]
fn lists_value(alloc: Global, lists: &RefLists) -> Result<Value, AllocError>
    ensures { IfOk result (λ value. view value ≡ line.lists_data lists.now) }
{
    let first = list_value(alloc, &lists.first)?;
    let second = list_value(alloc, &lists.second)?;
    json!(in alloc; [first, second])
}

/// Makes the JSON value of what is in force at a slice.
#[tactic(auto, unfolding(crate::specs::SliceLine::in_force_data))]
fn in_force_value(alloc: Global, input: &DecodingInput<'_>) -> Result<Value, AllocError>
    ensures { IfOk result (λ value. view value ≡ line.in_force_data (input_seen input.now)) }
{
    let alf = alf_value(alloc, &input.alf)?;
    let lists = lists_value(alloc, &input.lists)?;
    let lmcs = lmcs_value(alloc, input.lmcs)?;
    let scaling = bytes_or_null(alloc, input.scaling)?;
    json!(in alloc; {
        "alf": alf,
        "lists": lists,
        "lmcs": lmcs,
        "scaling": scaling,
    })
}

/// Makes the JSON value of the bounds of tile columns or rows.
#[tactic(auto, using(crate::proofs::Arrays::numbers_more))]
fn bounds_value(alloc: Global, bounds: &Bounds) -> Result<Value, AllocError>
    ensures { IfOk result (λ value. view value ≡ array_of natural_data bounds.now) }
{
    let mut values = Vec::new(alloc);
    for i in 0..bounds.len() {
        values.push(Value::from(bounds.item(i)))?;
    }
    Ok(Value::Array(values))
}

/// Makes the JSON value of a rectangle.
fn rect_value(alloc: Global, rect: Rect) -> Result<Value, AllocError>
    ensures { IfOk result (λ value. view value ≡ rect_data rect) }
{
    json!(in alloc; [rect.x, rect.y, rect.w, rect.h])
}

/// Makes the JSON value of rectangles.
#[tactic(auto, using(crate::proofs::Arrays::rects_more))]
fn rects_value(alloc: Global, rects: &RectList) -> Result<Value, AllocError>
    ensures { IfOk result (λ value. view value ≡ array_of rect_data rects.now) }
{
    let mut values = Vec::new(alloc);
    for i in 0..rects.len() {
        values.push(rect_value(alloc, rects.item(i))?)?;
    }
    Ok(Value::Array(values))
}

/// Makes the JSON value of the rectangle at an index, or null if there are fewer.
fn rect_or_null(alloc: Global, rects: &RectList, index: u32) -> Result<Value, AllocError>
    ensures { IfOk result (λ value. view value ≡ or_null rect_data (slice_get rects.now index)) }
{
    match rects.as_slice().get(index as usize) {
        Some(rect) => rect_value(alloc, *rect),
        None => Ok(Value::Null),
    }
}

/// Makes the JSON value of tiles and slices.
#[tactic(auto, unfolding(crate::specs::SliceLine::layout_data))]
fn layout_value(alloc: Global, layout: &Numbers) -> Result<Value, AllocError>
    ensures { IfOk result (λ value. view value ≡ line.layout_data layout.now) }
{
    let columns = bounds_value(alloc, &layout.columns)?;
    let rows = bounds_value(alloc, &layout.rows)?;
    let slices = rects_value(alloc, &layout.slices)?;
    json!(in alloc; {
        "columns": columns,
        "rows": rows,
        "slices": slices,
    })
}

/// Makes the JSON value of a place.
#[tactic(auto, unfolding(crate::specs::SliceLine::place_data))]
fn place_value(alloc: Global, place: &Place) -> Result<Value, AllocError>
    ensures { IfOk result (λ value. view value ≡ line.place_data place.now) }
{
    let layout = layout_value(alloc, &place.layout)?;
    let rect = rect_or_null(alloc, &place.layout.slices, place.address)?;
    place_object(alloc, place, layout, rect)
}

/// Makes the JSON value of a place from those of its layout and of the slice's rectangle.
fn place_object(
    alloc: Global,
    place: &Place,
    layout: Value,
    rect: Value,
) -> Result<Value, AllocError>
    ensures { IfOk result (λ value. view value ≡ line.place_object place.now (view layout) (view rect)) }
{
    json!(in alloc; {
        "across_slices": place.across_slices,
        "across_tiles": place.across_tiles,
        "address": place.address,
        "height": place.height,
        "layout": layout,
        "rect": rect,
        "width": place.width,
    })
}
