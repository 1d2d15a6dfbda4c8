//! The layout of a picture and the ids of its subpictures, from its two sets (H.266 6.3.1, 6.5.1, 7.4.3.4, 7.4.3.5).
ghost use Rattle.std.specs.Prelude.{◌≡◌, ◌<◌, false, length, map, IfOk};
ghost use Rattle.std.specs.Bool.{OnTrue, OnFalse};
ghost use Rattle.std.specs.BTreeSet as sorted;
ghost use Rattle.std.specs.List.{range_with_len};
ghost use Rattle.std.specs.Ordering.{nat_cmp};
ghost use Rattle.vx_table.specs.Scope.{is_set};
ghost use Rattle.vx_table.specs.Loaded.{number};
ghost use Rattle.vx_fields.specs.declared.sps.TheConstants as sps_fields;
ghost use Rattle.vx_fields.specs.declared.pps.TheConstants as pps_fields;
ghost use Rattle.vx_bits.specs.declared.refusal.ReadError.TheVariants.{Refused};
ghost use Rattle.vx_layout.specs.Faults.{IsInLimits};
ghost use Rattle.vx_sps.specs.Set as set;
ghost use Rattle.vx_sps.specs.Subpictures.{subpics_of, sps_subpic_id_of};
ghost use Rattle.vx_table.specs.Loaded.{numbers_of};
ghost use Rattle.vx_pic.specs.inner.Layout.{IsLayoutOf};
ghost use Rattle.vx_pic.specs.PictureLayout as spec;

use std::alloc::{AllocError, Global};
use std::collections::BTreeSet;
use vx_bits::rules::LAYOUT;
use vx_bits::{Fields, IdList, ReadError, Refusal};
use vx_fields::pps::{
    pps_log2_ctu_size_minus5, pps_num_subpics_minus1, pps_subpic_id, pps_subpic_id_len_minus1,
    pps_subpic_id_mapping_present_flag,
};
use vx_fields::sps::{
    sps_log2_ctu_size_minus5, sps_num_subpics_minus1, sps_subpic_id_len_minus1,
    sps_subpic_id_mapping_explicitly_signalled_flag, sps_subpic_id_mapping_present_flag,
    sps_subpic_info_present_flag,
};
use vx_layout::{Bounds, Layout, LayoutError, Numbers, Rect, RectList};
use vx_pps::{Pps, sets_tell_partitions};
use vx_sps::Sps;
use vx_table::{natural, quotient};

/// The sets have different CTU sizes.
pub const CTU_SIZE_FAULT: u8 = 1;
/// The ids of subpictures are misplaced or missing, the sets disagree on them, or two of them are the same.
pub const IDS_FAULT: u8 = 2;

// ---- ids

/// Returns whether ids are signalled.
fn are_signalled(sps: &Sps) -> bool
    ensures { result ≡ is_set (number sps.now sps_fields.sps_subpic_id_mapping_explicitly_signalled_flag) }
{
    sps.scope()
        .latest(sps_subpic_id_mapping_explicitly_signalled_flag)
        != 0
}

/// Returns whether the PPS has ids.
fn has_ids(pps: &Pps) -> bool
    ensures { result ≡ is_set (number pps.now pps_fields.pps_subpic_id_mapping_present_flag) }
{
    pps.scope().latest(pps_subpic_id_mapping_present_flag) != 0
}

/// Returns the ids in the items of a PPS.
#[tactic(auto, using(vx_sps::proofs::Counted::number_more, vx_sps::proofs::Counted::number_passed))]
fn ids_in(alloc: Global, fields: &Fields) -> Result<IdList, AllocError>
    ensures { IfOk result (λ ids. ids ≡ numbers_of fields.now pps_fields.pps_subpic_id) }
{
    let mut ids = IdList::new(alloc);
    for i in 0..fields.len() {
        let item = fields.item(i);
        if item.field == pps_subpic_id {
            ids.push(natural(item.value))?;
        }
    }
    Ok(ids)
}

/// Returns the ids that the SPS gives.
#[tactic(auto, using(crate::proofs::Listed::one_more_of))]
fn ids_by_index(alloc: Global, sps: &Sps) -> Result<IdList, AllocError>
    ensures { IfOk result (λ ids. ids ≡ map (sps_subpic_id_of sps.now) (range_with_len 0 (subpics_of sps.now))) }
{
    let mut ids = IdList::new(alloc);
    for i in 0..sps.subpics() {
        ids.push(sps.id(i))?;
    }
    Ok(ids)
}

/// Returns the ids of the subpictures.
#[tactic(auto, unfolding(crate::specs::PictureLayout::ids_of))]
fn ids_under(alloc: Global, sps: &Sps, pps: &Pps) -> Result<IdList, AllocError>
    ensures { IfOk result (λ ids. ids ≡ spec.ids_of sps.now pps.now) }
{
    if are_signalled(sps) && has_ids(pps) {
        ids_in(alloc, pps.fields())
    } else {
        ids_by_index(alloc, sps)
    }
}

/// Returns the ids of the subpictures of a picture with these sets in force, by their index: SubpicIdVal (H.266 7.4.3.5).
///
/// There is one for each subpicture, unless the sets disagree on where the ids are (`ids_misplaced`).
///
/// # Errors
///
/// `AllocError` if memory runs out.
pub fn picture_ids(alloc: Global, sps: &Sps, pps: &Pps) -> Result<IdList, AllocError>
    ensures ids { IfOk result (λ ids. ids ≡ spec.ids_of sps.now pps.now) }
    ensures one_each { spec.ids_misplaced sps.now pps.now ≡ false → IfOk result (λ ids. length ids ≡ subpics_of sps.now) }
{
    let _set = pps.fields();
    let ids = ids_under(alloc, sps, pps)?;
    Ok(ids)
}

// ---- what both sets have to agree on

/// Returns whether the CTU sizes differ.
#[tactic(auto, unfolding(crate::specs::PictureLayout::ctu_sizes_differ))]
fn ctu_sizes_differ(sps: &Sps, pps: &Pps) -> bool
    ensures { result ≡ spec.ctu_sizes_differ sps.now pps.now }
{
    pps.partitioned()
        && pps.scope().latest(pps_log2_ctu_size_minus5)
            != sps.scope().latest(sps_log2_ctu_size_minus5)
}

/// Returns whether the PPS must have the ids.
fn needs_ids(sps: &Sps) -> bool
    ensures { result ≡ spec.needs_ids sps.now }
{
    are_signalled(sps) && sps.scope().latest(sps_subpic_id_mapping_present_flag) == 0
}

/// Returns whether the PPS has another number of ids than the SPS, or ids of another length.
fn ids_unlike(sps: &Sps, pps: &Pps) -> bool
    ensures { result ≡ spec.ids_unlike sps.now pps.now }
{
    let (theirs, own) = (sps.scope(), pps.scope());
    own.latest(pps_num_subpics_minus1) != theirs.latest(sps_num_subpics_minus1)
        || own.latest(pps_subpic_id_len_minus1) != theirs.latest(sps_subpic_id_len_minus1)
}

/// Returns whether there are more subpictures than ids of the SPS's length.
#[tactic(auto, using(crate::proofs::Sizes::id_length_below, crate::proofs::Sizes::ids_of_length))]
fn ids_too_short(sps: &Sps) -> bool
    ensures { result ≡ spec.ids_too_short sps.now }
{
    let _set = sps.fields();
    let bits = sps.scope().latest(sps_subpic_id_len_minus1) + 1;
    sps.scope().latest(sps_subpic_info_present_flag) != 0 && (1 << bits) < sps.subpics()
}

/// Returns whether the ids are where they must not be, or missing where they must be, or not as the SPS says.
#[tactic(auto, unfolding(crate::specs::PictureLayout::ids_misplaced))]
fn ids_misplaced(sps: &Sps, pps: &Pps) -> bool
    ensures { result ≡ spec.ids_misplaced sps.now pps.now }
{
    let here = has_ids(pps);
    here != needs_ids(sps) || (here && ids_unlike(sps, pps)) || ids_too_short(sps)
}

/// Returns the set of these ids.
fn set_of_ids(alloc: Global, ids: &[u32]) -> Result<BTreeSet<u32>, AllocError>
    ensures { IfOk result (sorted.IsFromIterResult nat_cmp ids.now) }
{
    ids.iter().copied().collect(alloc)
}

/// Returns whether no two subpictures have the same id. Takes time with their number times its logarithm.
fn are_distinct(alloc: Global, ids: &IdList) -> Result<bool, AllocError>
    ensures distinct { IfOk result (λ holds. OnTrue holds (spec.AreDistinct ids.now)) }
    ensures doubled { IfOk result (λ holds. OnFalse holds (¬ spec.AreDistinct ids.now)) }
{
    let distinct = set_of_ids(alloc, ids.as_slice())?;
    Ok(distinct.len() == ids.len())
}

/// Returns whether both sets agree on the ids.
fn ids_agree(alloc: Global, sps: &Sps, pps: &Pps) -> Result<bool, AllocError>
    ensures agree { IfOk result (λ holds. OnTrue holds (spec.IdsAgree sps.now pps.now)) }
    ensures disagree { IfOk result (λ holds. OnFalse holds (¬ spec.IdsAgree sps.now pps.now)) }
{
    if ids_misplaced(sps, pps) {
        return Ok(false);
    }
    let ids = ids_under(alloc, sps, pps)?;
    are_distinct(alloc, &ids)
}

// ---- tiles, slices and subpictures

/// Returns the bounds of one tile.
#[tactic(auto, using(crate::proofs::Sizes::one_tile_rises))]
fn one_tile(alloc: Global, size: u32) -> Result<Bounds, AllocError>
    requires { 0 < size }
    ensures { IfOk result (λ bounds. bounds ≡ spec.one_tile size) }
{
    let mut bounds = Bounds::new(alloc);
    bounds.push(0)?;
    bounds.push(size)?;
    Ok(bounds)
}

/// Returns a copy of bounds.
#[tactic(auto, using(crate::proofs::Listed::bound_more, crate::proofs::Listed::bounds_rise))]
fn copied(alloc: Global, bounds: &Bounds) -> Result<Bounds, AllocError>
    ensures { IfOk result (λ copy. copy ≡ bounds.now) }
{
    let mut copy = Bounds::new(alloc);
    for i in 0..bounds.len() {
        copy.push(bounds.item(i))?;
    }
    Ok(copy)
}

/// Returns the numbers of columns and rows of CTUs.
#[tactic(auto, using(crate::proofs::Sizes::has_ctus))]
fn size_in_ctus(sps: &Sps) -> (u32, u32)
    ensures columns { result.0 ≡ set.ctu_columns_of sps.now }
    ensures rows { result.1 ≡ set.ctu_rows_of sps.now }
    ensures wide { 0 < result.0 }
    ensures high { 0 < result.1 }
{
    let _set = sps.fields();
    let ctb = sps.ctb();
    (quotient(sps.width(), ctb), quotient(sps.height(), ctb))
}

/// Returns the subpictures.
#[tactic(auto, using(crate::proofs::Listed::one_more_of))]
fn subpictures(alloc: Global, sps: &Sps) -> Result<RectList, AllocError>
    ensures { IfOk result (λ rects. rects ≡ spec.subpictures_of sps.now) }
{
    let mut rects = RectList::new(alloc);
    for i in 0..sps.subpics() {
        rects.push(sps.rect(i))?;
    }
    Ok(rects)
}

/// Returns the bounds of the tile columns and rows.
fn tile_bounds(alloc: Global, sps: &Sps, pps: &Pps) -> Result<(Bounds, Bounds), AllocError>
    ensures columns { IfOk result (λ bounds. bounds.0 ≡ spec.columns_in_picture sps.now pps.now) }
    ensures rows { IfOk result (λ bounds. bounds.1 ≡ spec.rows_in_picture sps.now pps.now) }
{
    if pps.partitioned() {
        return Ok((copied(alloc, pps.columns())?, copied(alloc, pps.rows())?));
    }
    let (columns, rows) = size_in_ctus(sps);
    Ok((one_tile(alloc, columns)?, one_tile(alloc, rows)?))
}

/// Returns the slices, which may be the subpictures.
fn slices(alloc: Global, sps: &Sps, pps: &Pps, subpics: &RectList) -> Result<RectList, AllocError>
    requires { subpics.now ≡ spec.subpictures_of sps.now }
    ensures { IfOk result (λ rects. rects ≡ spec.slices_in_picture sps.now pps.now) }
{
    let mut rects = RectList::new(alloc);
    if pps.partitioned() {
        let listed = pps.slices().unwrap_or(subpics);
        rects.extend_from_slice(listed.as_slice())?;
    } else {
        let (w, h) = size_in_ctus(sps);
        rects.push(Rect { x: 0, y: 0, w, h })?;
    }
    Ok(rects)
}

/// Returns tiles, slices and subpictures.
fn numbers_in(alloc: Global, sps: &Sps, pps: &Pps) -> Result<Numbers, AllocError>
    ensures value { IfOk result (λ numbers. numbers ≡ spec.numbers_in sps.now pps.now) }
    ensures limits { IfOk result IsInLimits }
{
    let _sps = sps.fields();
    let _pps = pps.fields();
    sets_tell_partitions();
    let (columns, rows) = tile_bounds(alloc, sps, pps)?;
    let subpics = subpictures(alloc, sps)?;
    let slices = slices(alloc, sps, pps, &subpics)?;
    Ok(Numbers {
        columns,
        rows,
        slices,
        subpics,
    })
}

// ---- the layout

/// Returns the refusal that names a fault.
fn fault(id: u8) -> ReadError
    ensures { result ≡ Refused (spec.layout_refusal id) }
{
    ReadError::Refused(Refusal::Structure {
        code: LAYOUT,
        kind: 0,
        id,
    })
}

/// Returns the layout of numbers.
fn layout_of(alloc: Global, numbers: Numbers) -> Result<Layout, ReadError>
    requires { IsInLimits numbers }
    ensures { IsLayoutOf numbers result }
{
    match Layout::new(alloc, numbers) {
        Ok(layout) => Ok(layout),
        Err(LayoutError::Memory) => Err(ReadError::Memory),
        Err(LayoutError::Fault(id)) => Err(fault(id)),
    }
}

/// Returns the layout of a picture with these sets in force.
///
/// # Errors
///
/// - `Refused` with the lowest fault: [`CTU_SIZE_FAULT`], [`IDS_FAULT`], or one of a layout.
/// - `Memory` if memory runs out.
pub fn picture_layout(alloc: Global, sps: &Sps, pps: &Pps) -> Result<Layout, ReadError>
    ensures answer { spec.AnswersLayout sps.now pps.now result }
    ensures limits { IfOk result IsInLimits }
{
    if ctu_sizes_differ(sps, pps) {
        return Err(fault(CTU_SIZE_FAULT));
    }
    if !ids_agree(alloc, sps, pps)? {
        return Err(fault(IDS_FAULT));
    }
    let numbers = numbers_in(alloc, sps, pps)?;
    layout_of(alloc, numbers)
}
