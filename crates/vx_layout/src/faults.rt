//! The tests for the layout faults, each in time proportional to what it looks at.
ghost use Rattle.std.specs.Prelude.{◌≡◌, ℕ, ◌<◌, ◌≤◌, All, length, OnOk, IfOk, IfErr};
ghost use Rattle.std.specs.Bool.{OnTrue, OnFalse};
ghost use Rattle.vx_layout.specs.Bounds.{last};
ghost use Rattle.vx_layout.specs.Faults.{IfFault, IsInLimits, SlicesCover, SlicesFit, SlicesInOrder, SubpicsCover, TilesSplit, height, order_fault, slice_cover_fault, subpics_fault, tile_split_fault, width};
ghost use Rattle.vx_layout.specs.inner.Groups.{AreGroups};
ghost use Rattle.vx_layout.specs.inner.Marks.{IsMapOf};
ghost use Rattle.vx_layout.specs.Rects.{IsPart};

use crate::grid::Grid;
use crate::groups::flatten;
use crate::lines::{next_bounds, splits_by};
use crate::numbers::{
    LayoutError, Numbers, ORDER_FAULT, SLICE_COVER_FAULT, SUBPICS_FAULT, TILE_SPLIT_FAULT,
};
use crate::paint::map_of;
use crate::rect::RectList;
use std::alloc::Global;

/// Checks for SUBPICS_FAULT, and returns a map of the picture on which each CTU has the number of its subpicture, from 1.
///
/// The fault: a CTU lies in no subpicture or in two, or a subpicture extends past the picture or has no CTU.
pub fn check_subpics(alloc: Global, numbers: &Numbers) -> Result<Grid, LayoutError>
    requires limits { IsInLimits numbers.now }
    ensures map { IfOk result (λ map. IsMapOf map numbers.now.subpics (width numbers.now) (height numbers.now)) }
    ensures cover { OnOk result (SubpicsCover numbers.now) }
    ensures fault { IfErr result (λ e. IfFault e (λ k. (k ≡ subpics_fault) × (¬ SubpicsCover numbers.now))) }
{
    let (width, height) = (numbers.columns.last(), numbers.rows.last());
    if !are_parts(&numbers.subpics, width, height) {
        return Err(LayoutError::Fault(SUBPICS_FAULT));
    }
    let Some(map) = map_of(alloc, &numbers.subpics, width as usize, height as usize)? else {
        return Err(LayoutError::Fault(SUBPICS_FAULT));
    };
    Ok(map)
}

/// Returns whether each rectangle has a CTU and lies in the picture.
pub fn are_parts(rects: &RectList, width: u32, height: u32) -> bool
    ensures inside { OnTrue result (All (IsPart width height) rects.now) }
    ensures outside { OnFalse result (¬ All (IsPart width height) rects.now) }
{
    for i in 0..rects.len() {
        if !rects.item(i).is_part_of(width, height) {
            return false;
        }
    }
    true
}

/// Checks for TILE_SPLIT_FAULT: a tile and a subpicture share CTUs, and neither lies in the other as required.
pub fn check_tiles(alloc: Global, numbers: &Numbers) -> Result<(), LayoutError>
    requires limits { IsInLimits numbers.now }
    requires parts { All (IsPart (width numbers.now) (height numbers.now)) numbers.now.subpics }
    ensures split { OnOk result (TilesSplit numbers.now) }
    ensures fault { IfErr result (λ e. IfFault e (λ k. (k ≡ tile_split_fault) × (¬ TilesSplit numbers.now))) }
{
    let columns = next_bounds(alloc, &numbers.columns)?;
    let rows = next_bounds(alloc, &numbers.rows)?;
    for i in 0..numbers.subpics.len() {
        if !splits_by(numbers.subpics.item(i), columns.as_slice(), rows.as_slice()) {
            return Err(LayoutError::Fault(TILE_SPLIT_FAULT));
        }
    }
    Ok(())
}

/// Checks for SLICE_COVER_FAULT: a CTU lies in no slice or in two.
pub fn check_slices(alloc: Global, numbers: &Numbers) -> Result<(), LayoutError>
    requires limits { IsInLimits numbers.now }
    ensures cover { OnOk result (SlicesCover numbers.now) }
    ensures fault { IfErr result (λ e. IfFault e (λ k. (k ≡ slice_cover_fault) × (¬ SlicesCover numbers.now))) }
{
    let (width, height) = (
        numbers.columns.last() as usize,
        numbers.rows.last() as usize,
    );
    let Some(_map) = map_of(alloc, &numbers.slices, width, height)? else {
        return Err(LayoutError::Fault(SLICE_COVER_FAULT));
    };
    Ok(())
}

/// Checks for ORDER_FAULT: a CTU's left or upper neighbour lies in a later slice.
pub fn check_order(alloc: Global, numbers: &Numbers, groups: &[RectList]) -> Result<(), LayoutError>
    requires limits { IsInLimits numbers.now }
    requires subpics { SubpicsCover numbers.now }
    requires slices { SlicesCover numbers.now }
    requires split { SlicesFit numbers.now }
    requires groups { AreGroups groups.now numbers.now.slices numbers.now.subpics }
    ensures order { OnOk result (SlicesInOrder numbers.now) }
    ensures fault { IfErr result (λ e. IfFault e (λ k. (k ≡ order_fault) × (¬ SlicesInOrder numbers.now))) }
{
    let (width, height) = (
        numbers.columns.last() as usize,
        numbers.rows.last() as usize,
    );
    let slices = flatten(alloc, groups)?;
    let Some(map) = map_of(alloc, &slices, width, height)? else {
        unreachable!();
    };
    if !map.is_rising() {
        return Err(LayoutError::Fault(ORDER_FAULT));
    }
    Ok(())
}
