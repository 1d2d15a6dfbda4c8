//! Sequence parameter sets that are rewritten to say what others say.
ghost use Rattle.std.specs.Prelude.{◌+◌, ◌<◌, ◌≤◌, ◌^◌, All, length};
ghost use Rattle.std.specs.Bool.{OnTrue};
ghost use Rattle.vx_bits.specs.Codes.{IsCodeNumber};
ghost use Rattle.vx_bits.specs.Limits.{unit_limit};
ghost use Rattle.vx_layout.specs.Borders.{Begins, Ends};
ghost use Rattle.vx_sps.specs.Reshaped.{AreParts, IsPlan, IsShape, IsSize};
ghost use Rattle.vx_sps.specs.Set.{ctb_size_of};

use crate::fault::LineFault;
use crate::text::write_bytes;
use std::alloc::{AllocError, Global};
use vx_fields::dpb::{
    dpb_max_dec_pic_buffering_minus1, dpb_max_latency_increase_plus1, dpb_max_num_reorder_pics,
};
use vx_fields::ptl::general_level_idc;
use vx_fields::sps::{
    sps_conf_win_bottom_offset, sps_conf_win_left_offset, sps_conf_win_right_offset,
    sps_conf_win_top_offset, sps_seq_parameter_set_id, sps_subpic_id_len_minus1,
    sps_subpic_id_mapping_present_flag, sps_subpic_info_present_flag,
};
use vx_layout::{Rect, RectList};
use vx_sps::{Sps, SpsShape, SubpicPlan, read_sps, reshape_sps, write_sps};
use vx_table::quotient;

/// Returns a number as a byte.
pub(crate) fn small(number: u32) -> Result<u8, LineFault> {
    u8::try_from(number).map_err(|_| LineFault::Shape)
}

/// Appends the bytes of what was rewritten.
pub(crate) fn write_reshaped(text: &mut String, bytes: &[u8]) -> Result<(), LineFault> {
    text.push_str("reshaped ")?;
    Ok(write_bytes(text, bytes)?)
}

/// Returns the subpictures of a set, in CTUs.
fn rects_of(alloc: Global, sps: &Sps) -> Result<RectList, AllocError> {
    let mut rects = RectList::new(alloc);
    for i in 0..sps.subpics() {
        rects.push(sps.rect(i))?;
    }
    Ok(rects)
}

/// Returns what a set says of its subpictures.
fn plan_of(alloc: Global, sps: &Sps) -> Result<SubpicPlan, AllocError> {
    let numbers = sps.scope();
    if numbers.latest(sps_subpic_info_present_flag) == 0 {
        return Ok(SubpicPlan::Absent);
    }
    if sps.subpics() != 1 {
        return Ok(SubpicPlan::Many(rects_of(alloc, sps)?));
    }
    let is_mapped = numbers.latest(sps_subpic_id_mapping_present_flag) != 0;
    Ok(SubpicPlan::One {
        id_len: numbers.latest(sps_subpic_id_len_minus1),
        id: if is_mapped { Some(sps.id(0)) } else { None },
    })
}

/// Returns what a set says.
///
/// *Errors:* if no set can say it; lack of memory.
fn shape_of(alloc: Global, sps: &Sps) -> Result<SpsShape, LineFault> {
    let numbers = sps.scope();
    Ok(SpsShape {
        id: small(numbers.latest(sps_seq_parameter_set_id))?,
        width: sps.width(),
        height: sps.height(),
        window: [
            numbers.latest(sps_conf_win_left_offset),
            numbers.latest(sps_conf_win_right_offset),
            numbers.latest(sps_conf_win_top_offset),
            numbers.latest(sps_conf_win_bottom_offset),
        ],
        level: small(numbers.latest(general_level_idc))?,
        dpb: [
            numbers.latest(dpb_max_dec_pic_buffering_minus1),
            numbers.latest(dpb_max_num_reorder_pics),
            numbers.latest(dpb_max_latency_increase_plus1),
        ],
        subpics: plan_of(alloc, sps)?,
    })
}

/// Returns whether these have codes of ue(v).
fn have_codes(numbers: &[u32]) -> bool
    ensures { OnTrue result (All IsCodeNumber numbers.now) }
{
    numbers.iter().all(|number| *number < u32::MAX)
}

/// Returns whether a picture can be this wide or high, in luma samples.
fn is_size(size: u32) -> bool
    ensures { OnTrue result (IsSize size) }
{
    0 < size && size <= 16384 && size % 8 == 0
}

/// Returns whether an id has this many bits, minus 1.
fn is_id(id_len: u32, id: u32) -> bool
    requires { id_len ≤ 15 }
    ensures { OnTrue result (id < 2 ^ (id_len + 1)) }
{
    id < 1 << (id_len + 1)
}

/// Returns whether the first begins and the last ends a picture of this many CTUs.
fn reach_borders(columns: u32, rows: u32, first: Rect, last: Rect) -> bool
    ensures { OnTrue result (Begins first × Ends columns rows last) }
{
    let begins = first.x == 0 && first.y == 0;
    let ends = u64::from(last.x) + u64::from(last.w) == u64::from(columns)
        && u64::from(last.y) + u64::from(last.h) == u64::from(rows);
    begins && ends
}

/// Returns whether rectangles are parts of a picture, from its first CTU on to its last.
fn are_parts(columns: u32, rows: u32, rects: &RectList) -> bool
    ensures { OnTrue result (AreParts columns rows rects.now) }
{
    let count = rects.len();
    if count == 0 || count > 1000 {
        return false;
    }
    let parts = rects.iter().all(|rect| rect.is_part_of(columns, rows));
    parts && reach_borders(columns, rows, rects.item(0), rects.item(count - 1))
}

/// Returns whether a set can have such subpictures.
fn is_plan(columns: u32, rows: u32, plan: &SubpicPlan) -> bool
    ensures { OnTrue result (IsPlan columns rows plan.now) }
{
    match plan {
        SubpicPlan::Absent => true,
        SubpicPlan::One { id_len, id: None } => *id_len <= 15,
        SubpicPlan::One {
            id_len,
            id: Some(id),
        } => *id_len <= 15 && is_id(*id_len, *id),
        SubpicPlan::Many(rects) => are_parts(columns, rows, rects),
    }
}

/// Returns whether a set whose CTUs have this size can have the numbers of a shape.
fn is_shape(shape: &SpsShape, ctb: u32) -> bool
    ensures { OnTrue result (IsShape ctb shape.now) }
{
    let (columns, rows) = (quotient(shape.width, ctb), quotient(shape.height, ctb));
    let sizes = is_size(shape.width) && is_size(shape.height);
    let codes = have_codes(&shape.window) && have_codes(&shape.dpb);
    shape.id < 16 && sizes && codes && is_plan(columns, rows, &shape.subpics)
}

/// Returns the bytes of a set that is rewritten for a shape.
fn rewritten(alloc: Global, sps: &Sps, shape: &SpsShape) -> Result<Vec<u8>, AllocError>
    requires { IsShape (ctb_size_of sps.now) shape.now }
{
    let set = reshape_sps(alloc, sps, shape)?;
    write_sps(alloc, &set)
}

/// Appends what is written of a set that is rewritten for a shape, if it can have that.
fn write_rewritten(
    text: &mut String,
    alloc: Global,
    sps: &Sps,
    shape: &SpsShape,
) -> Result<(), LineFault> {
    if !is_shape(shape, sps.ctb()) {
        return Err(LineFault::Shape);
    }
    let bytes = rewritten(alloc, sps, shape)?;
    write_reshaped(text, bytes.as_slice())
}

/// Returns the shape in which a set says what that of an RBSP says.
fn like_of(alloc: Global, like: &[u8]) -> Result<SpsShape, LineFault>
    requires { length like.now ≤ unit_limit }
{
    let like = read_sps(alloc, like)?;
    shape_of(alloc, &like)
}

/// Appends what is written of the set of an RBSP that is rewritten for a shape.
fn write_source(
    text: &mut String,
    alloc: Global,
    source: &[u8],
    shape: &SpsShape,
) -> Result<(), LineFault>
    requires { length source.now ≤ unit_limit }
{
    let source = read_sps(alloc, source)?;
    write_rewritten(text, alloc, &source, shape)
}

/// Appends what is written of an SPS that is rewritten to say what another one says.
///
/// *Errors:* the first refusal, of what it is to say before itself; if it can't say that; lack of memory.
pub(crate) fn answer_reshaped_sps(
    text: &mut String,
    alloc: Global,
    source: &[u8],
    like: &[u8],
) -> Result<(), LineFault>
    requires source { length source.now ≤ unit_limit }
    requires like { length like.now ≤ unit_limit }
{
    let shape = like_of(alloc, like)?;
    write_source(text, alloc, source, &shape)
}
