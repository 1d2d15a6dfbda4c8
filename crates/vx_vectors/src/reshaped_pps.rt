//! Picture parameter sets that are rewritten to say what others say.
ghost use Rattle.std.specs.Prelude.{◌≡◌, ℕ, ◌+◌, ◌<◌, ◌≤◌, ◌≤ℤ◌, ◌^◌, pos, neg_ℤ, IfOk, IfSome, Ok, length};
ghost use Rattle.std.specs.Bool.{OnTrue};
ghost use Rattle.std.specs.Int.{div_ceil};
ghost use Rattle.vx_bits.specs.Limits.{unit_limit};
ghost use Rattle.vx_layout.specs.Bounds.{last};
ghost use Rattle.vx_layout.specs.Layouts.{HasLayout};
ghost use Rattle.vx_layout.specs.Shapes.{AreListable};
ghost use Rattle.vx_pic.specs.PictureLayout.{AnswersLayout};
ghost use Rattle.vx_pps.specs.Reshaped.{CanBeDivided, IsSize, picture_of, whole_flag};

use crate::fault::LineFault;
use crate::frame::{Frame, Sets, frame_of};
use crate::reshaped_sps::{small, write_reshaped};
use std::alloc::Global;
use vx_fields::pps::{
    pps_init_qp_minus26, pps_loop_filter_across_slices_enabled_flag,
    pps_loop_filter_across_tiles_enabled_flag, pps_pic_parameter_set_id, pps_seq_parameter_set_id,
    pps_subpic_id, pps_subpic_id_len_minus1, pps_subpic_id_mapping_present_flag,
};
use vx_layout::{Bounds, RectList, region_is_layout, region_is_listable};
use vx_pps::{Pps, PpsShape, Tiles, read_pps, read_slices_are_listable, reshape_pps, write_pps};

/// Tiles and slices of a picture.
#[derive(Drop)]
struct Division {
    tiles: Tiles,
    slices: RectList,
}

/// Returns the tiles and slices of the only subpicture of a picture whose PPS lists its slices.
///
/// *Errors:* if there are several subpictures, or the PPS lists no slices; lack of memory.
fn division_of(alloc: Global, like: &Frame<'_>) -> Result<Division, LineFault>
    requires { AnswersLayout like.now.sps.now like.now.pps.now (Ok like.now.layout) }
    ensures layout { IfOk result (λ d. HasLayout (picture_of d.tiles d.slices)) }
    ensures listable { IfOk result (λ d. AreListable d.tiles.columns d.tiles.rows d.slices) }
{
    read_slices_are_listable();
    region_is_layout();
    region_is_listable();
    let _set = like.pps.fields();
    if like.ids.len() != 1 {
        return Err(LineFault::Shape);
    }
    if !like.pps.partitioned() {
        return Err(LineFault::Shape);
    }
    let Some(_slices) = like.pps.slices() else {
        return Err(LineFault::Shape);
    };
    let region = like.layout.region(alloc, 0)?;
    Ok(Division {
        tiles: Tiles {
            columns: region.columns,
            rows: region.rows,
        },
        slices: region.slices,
    })
}

/// Returns the bits of the id of the one subpicture, minus 1, and the id, if a set has it.
fn id_of(pps: &Pps) -> Option<(u32, u32)> {
    let numbers = pps.scope();
    if numbers.latest(pps_subpic_id_mapping_present_flag) == 0 {
        return None;
    }
    let bits = numbers.latest(pps_subpic_id_len_minus1);
    Some((bits, numbers.latest(pps_subpic_id)))
}

/// Returns the QP from which slices differ, minus 26.
fn init_qp(pps: &Pps) -> Result<i32, LineFault> {
    let value = pps.fields().first(pps_init_qp_minus26).unwrap_or(0);
    i32::try_from(value).map_err(|_| LineFault::Shape)
}

/// The ids of a set, and the QP from which slices differ, minus 26.
#[derive(Clone, Copy)]
struct SetNumbers {
    id: u8,
    sps_id: u8,
    init_qp: i32,
}

/// Returns the ids and the QP of a set.
///
/// *Errors:* if no set can have them.
fn numbers_of(pps: &Pps) -> Result<SetNumbers, LineFault> {
    let numbers = pps.scope();
    Ok(SetNumbers {
        id: small(numbers.latest(pps_pic_parameter_set_id))?,
        sps_id: small(numbers.latest(pps_seq_parameter_set_id))?,
        init_qp: init_qp(pps)?,
    })
}

/// Returns what the PPS of others says, whose numbers are these, with these tiles and slices.
fn shape_of(like: &Frame<'_>, own: SetNumbers, division: Division, merged: bool) -> PpsShape
    ensures tiles { result.tiles ≡ division.tiles }
    ensures slices { result.slices ≡ division.slices }
    ensures merged { result.merged ≡ merged }
{
    let pps = like.pps;
    let numbers = pps.scope();
    PpsShape {
        id: own.id,
        sps_id: own.sps_id,
        width: pps.width(),
        height: pps.height(),
        ctb: like.sps.ctb(),
        subpic_id: id_of(pps),
        tiles: division.tiles,
        slices: division.slices,
        across_tiles: numbers.latest(pps_loop_filter_across_tiles_enabled_flag) != 0,
        across_slices: numbers.latest(pps_loop_filter_across_slices_enabled_flag) != 0,
        init_qp: own.init_qp,
        merged,
    }
}

/// Returns whether a picture can be this wide or high, in luma samples.
fn is_size(size: u32) -> bool
    ensures { OnTrue result (IsSize size) }
{
    0 < size && size <= 16384 && size % 8 == 0
}

/// Returns whether an id has the stated number of bits.
fn is_id(id: Option<(u32, u32)>) -> bool
    ensures { OnTrue result (IfSome id (λ (bits, id). (bits ≤ 15) × (id < 2 ^ (bits + 1)))) }
{
    match id {
        Some((bits, id)) => bits <= 15 && id < 1 << (bits + 1),
        None => true,
    }
}

/// Returns whether a set can have the ids, the size and the QP of a shape.
fn has_numbers(shape: &PpsShape) -> bool
    ensures id { OnTrue result (shape.now.id < 64) }
    ensures sps_id { OnTrue result (shape.now.sps_id < 16) }
    ensures width { OnTrue result (IsSize shape.now.width) }
    ensures height { OnTrue result (IsSize shape.now.height) }
    ensures subpic_id { OnTrue result (IfSome shape.now.subpic_id (λ (bits, id). (bits ≤ 15) × (id < 2 ^ (bits + 1)))) }
    ensures init_qp { OnTrue result ((neg_ℤ (pos 38) ≤ℤ shape.now.init_qp) × (shape.now.init_qp ≤ℤ pos 37)) }
{
    let ids = shape.id < 64 && shape.sps_id < 16 && is_id(shape.subpic_id);
    ids && is_size(shape.width)
        && is_size(shape.height)
        && -38 <= shape.init_qp
        && shape.init_qp <= 37
}

/// Returns whether bounds end where a picture this wide or high does, in CTUs of a size.
fn ends_at(bounds: &Bounds, size: u32, ctb: u32) -> bool
    ensures { OnTrue result (last bounds.now ≡ div_ceil size ctb) }
{
    ctb != 0 && bounds.len() != 0 && bounds.last() == size.div_ceil(ctb)
}

/// Returns whether CTUs have such a size.
fn is_ctb(size: u32) -> bool
    ensures { OnTrue result ((log2 : ℕ) × (log2 < 3) × (size ≡ 2 ^ (log2 + 5))) }
{
    size == 32 || size == 64 || size == 128
}

/// Returns whether a picture of a size is made up of these tiles and slices.
fn can_be_divided(shape: &PpsShape) -> bool
    requires layout { HasLayout (picture_of shape.now.tiles shape.now.slices) }
    requires listable { AreListable shape.now.tiles.columns shape.now.tiles.rows shape.now.slices }
    ensures { OnTrue result (CanBeDivided shape.now) }
{
    let ctb = shape.ctb;
    is_ctb(ctb)
        && ends_at(&shape.tiles.columns, shape.width, ctb)
        && ends_at(&shape.tiles.rows, shape.height, ctb)
}

/// Returns the set of a shape, if it can have the numbers of that.
///
/// *Errors:* if it can't; lack of memory.
fn reshaped(alloc: Global, source: &Pps, shape: &PpsShape) -> Result<Pps, LineFault>
    requires { whole_flag source.now shape.now ≡ 0 → CanBeDivided shape.now }
{
    if !has_numbers(shape) {
        return Err(LineFault::Shape);
    }
    Ok(reshape_pps(alloc, source, shape)?)
}

/// Returns the set that says what a partitioned one says.
///
/// *Errors:* if it can't say that; lack of memory.
fn divided_like(
    alloc: Global,
    source: &Pps,
    like: &Frame<'_>,
    merged: bool,
) -> Result<Pps, LineFault>
    requires { AnswersLayout like.now.sps.now like.now.pps.now (Ok like.now.layout) }
{
    let numbers = numbers_of(like.pps)?;
    let division = division_of(alloc, like)?;
    let shape = shape_of(like, numbers, division, merged);
    if !can_be_divided(&shape) {
        return Err(LineFault::Shape);
    }
    reshaped(alloc, source, &shape)
}

/// Returns the set that says what one says that isn't partitioned, and isn't itself. Nothing is asked of tiles and slices.
///
/// *Errors:* if it is partitioned, or can't say that; lack of memory.
fn whole_like(alloc: Global, source: &Pps, like: &Frame<'_>) -> Result<Pps, LineFault> {
    if source.partitioned() {
        return Err(LineFault::Shape);
    }
    let numbers = numbers_of(like.pps)?;
    let none = Division {
        tiles: Tiles {
            columns: Bounds::new(alloc),
            rows: Bounds::new(alloc),
        },
        slices: RectList::new(alloc),
    };
    let shape = shape_of(like, numbers, none, false);
    reshaped(alloc, source, &shape)
}

/// Returns the set that says what the PPS of others says.
///
/// *Errors:* if it can't say that; lack of memory.
fn set_like(alloc: Global, source: &Pps, like: &Frame<'_>, merged: bool) -> Result<Pps, LineFault>
    requires { AnswersLayout like.now.sps.now like.now.pps.now (Ok like.now.layout) }
{
    if merged || like.pps.partitioned() {
        return divided_like(alloc, source, like, merged);
    }
    whole_like(alloc, source, like)
}

/// Appends what is written of a set.
fn write_set(text: &mut String, alloc: Global, set: &Pps) -> Result<(), LineFault> {
    let bytes = write_pps(alloc, set)?;
    write_reshaped(text, bytes.as_slice())
}

/// Appends what is written of the set that says what the PPS of others says.
fn write_set_like(
    text: &mut String,
    alloc: Global,
    source: &Pps,
    like: &Frame<'_>,
    merged: bool,
) -> Result<(), LineFault>
    requires { AnswersLayout like.now.sps.now like.now.pps.now (Ok like.now.layout) }
{
    let set = set_like(alloc, source, like, merged)?;
    write_set(text, alloc, &set)
}

/// Appends the same, for the set of an RBSP.
fn write_source(
    text: &mut String,
    alloc: Global,
    source: &[u8],
    like: &Frame<'_>,
    merged: bool,
) -> Result<(), LineFault>
    requires few { length source.now ≤ unit_limit }
    requires layout { AnswersLayout like.now.sps.now like.now.pps.now (Ok like.now.layout) }
{
    let source = read_pps(alloc, source)?;
    write_set_like(text, alloc, &source, like, merged)
}

/// Appends the same, for these others.
fn write_like(
    text: &mut String,
    alloc: Global,
    source: &[u8],
    others: &Sets,
    merged: bool,
) -> Result<(), LineFault>
    requires { length source.now ≤ unit_limit }
{
    let like = frame_of(alloc, &others.sps, &others.pps)?;
    write_source(text, alloc, source, &like, merged)
}

/// Appends what is written of a PPS that is rewritten to say what that of others says, which are an SPS and a PPS; for a frame of several
/// sources, or for a region.
///
/// *Errors:* the first refusal, of the others before itself; if it can't say that; lack of memory.
pub(crate) fn answer_reshaped_pps(
    text: &mut String,
    alloc: Global,
    source: &[u8],
    like: (&[u8], &[u8]),
    merged: bool,
) -> Result<(), LineFault>
    requires source { length source.now ≤ unit_limit }
    requires sps { length like.0.now ≤ unit_limit }
    requires pps { length like.1.now ≤ unit_limit }
{
    let others = Sets::read(alloc, like.0, like.1)?;
    write_like(text, alloc, source, &others, merged)
}
