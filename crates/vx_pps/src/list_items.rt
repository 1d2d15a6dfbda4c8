//! The items of tile sizes and of a slice list, from the tiles and the slices of a picture.
ghost use Rattle.std.specs.Prelude.{◌≡◌, ◌==◌, ℕ, pos, ◌+◌, ◌-◌, ◌^◌, ◌<◌, ◌≤◌, ◌&&◌, nat_lt, cond, List, ◌++◌, [], length, map, OnOk, neg_ℤ, ◌+ℤ◌};
ghost use Rattle.vx_layout.specs.declared.rect.Rect.{Rect};
ghost use Rattle.vx_layout.specs.Bounds.{last, sizes_between};
ghost use Rattle.vx_layout.specs.Heights.{written_heights};
ghost use Rattle.vx_pps.specs.declared.tiles.Tiles.{Tiles};
ghost use Rattle.vx_pps.specs.Groups.{Group, slices_of_group};
ghost use Rattle.vx_pps.specs.Tiles.{IsGrid};
ghost use Rattle.vx_pps.specs.Written.{height_items, heights_items, only_item, list_items, tile_size_items, strip_items, width_items};
ghost use Rattle.vx_pps.specs.inner.Found.{AreGroups, IsSpan, LiesInside, Stand, delta_behind, group_items};

use crate::groups::{Span, group_len, span_of, tile_of};
use crate::tiles::Tiles;
use std::alloc::AllocError;
use vx_bits::{Fields, Item};
use vx_fields::pps::*;
use vx_layout::{Bounds, Rect};

/// Appends the item of a field.
pub(crate) fn push_value(items: &mut Fields, field: u16, value: i64) -> Result<(), AllocError>
    ensures { OnOk result (items.new ≡ items.old ++ only_item field value) }
{
    items.push(Item { field, value })
}

/// Appends the item of a field whose value is a number.
pub(crate) fn push(items: &mut Fields, field: u16, number: u32) -> Result<(), AllocError>
    ensures { OnOk result (items.new ≡ items.old ++ only_item field (pos number)) }
{
    push_value(items, field, i64::from(number))
}

/// Appends the item of a field if a condition holds.
pub(crate) fn push_if(
    holds: bool,
    items: &mut Fields,
    field: u16,
    number: u32,
) -> Result<(), AllocError>
    ensures { OnOk result (items.new ≡ items.old ++ cond holds (only_item field (pos number)) []) }
{
    if holds {
        push(items, field, number)?;
    }
    Ok(())
}

/// Appends all sizes of tile columns or rows.
pub(crate) fn push_sizes(items: &mut Fields, field: u16, bounds: &Bounds) -> Result<(), AllocError>
    ensures { OnOk result (items.new ≡ items.old ++ tile_size_items field (sizes_between bounds.now)) }
{
    for i in 1..bounds.len() {
        let size = bounds.item(i).saturating_sub(bounds.item(i - 1));
        push(items, field, size.saturating_sub(1))?;
    }
    Ok(())
}

/// Appends the slice list of a picture, whose tile indices are coded or not (H.266 7.3.2.5). It appends each group of slices,
/// except the last one if it is a slice of whole tiles.
pub(crate) fn push_list(
    items: &mut Fields,
    tiles: &Tiles,
    deltas: bool,
    slices: &[Rect],
) -> Result<(), AllocError>
    requires grid { IsGrid tiles.now }
    requires columns { last tiles.now.columns < 2 ^ 32 }
    ensures { OnOk result ((groups : List Group) → AreGroups tiles.now groups slices.now → items.new ≡ items.old ++ list_items tiles.now deltas groups) }
{
    let mut left = slices;
    while !left.is_empty() {
        let (here, behind) = left.split_at(group_len(tiles, left));
        push_group(items, tiles, deltas, here, behind)?;
        left = behind;
    }
    Ok(())
}

/// Appends the items of a group with the slices `here`, after which the slices `behind` come.
fn push_group(
    items: &mut Fields,
    tiles: &Tiles,
    deltas: bool,
    here: &[Rect],
    behind: &[Rect],
) -> Result<(), AllocError>
    requires grid { IsGrid tiles.now }
    requires columns { last tiles.now.columns < 2 ^ 32 }
    requires some { 0 < length here.now }
    ensures { OnOk result ((group : Group) (groups : List Group) → Stand tiles.now here.now behind.now group groups → items.new ≡ items.old ++ group_items tiles.now deltas group groups) }
{
    if is_last_whole(here, behind) {
        return Ok(());
    }
    let span = span_of(tiles, here);
    push_width(items, tiles, span)?;
    push_height(items, tiles, deltas, span)?;
    push_slices(items, span, here)?;
    push_next(items, tiles, deltas, span.start, behind)
}

/// Returns whether a slice of whole tiles is the last one.
fn is_last_whole(here: &[Rect], behind: &[Rect]) -> bool
    ensures { result ≡ ((length behind.now == 0) && (length here.now == 1)) }
{
    behind.is_empty() && here.len() == 1
}

/// Appends the number of tiles that a group has across, if it can have several.
fn push_width(items: &mut Fields, tiles: &Tiles, span: Span) -> Result<(), AllocError>
    requires { IsGrid tiles.now }
    ensures { OnOk result (items.new ≡ items.old ++ width_items tiles.now span.start span.wide) }
{
    if tiles.column(span.start) == tiles.across() - 1 {
        return Ok(());
    }
    push(
        items,
        pps_slice_width_in_tiles_minus1,
        span.wide.saturating_sub(1),
    )
}

/// Appends the number of tiles that a group has down, if that is coded.
fn push_height(
    items: &mut Fields,
    tiles: &Tiles,
    deltas: bool,
    span: Span,
) -> Result<(), AllocError>
    requires { IsGrid tiles.now }
    ensures { OnOk result (items.new ≡ items.old ++ height_items tiles.now deltas span.start span.high) }
{
    if tiles.row(span.start) == tiles.down() - 1 {
        return Ok(());
    }
    let is_first = tiles.column(span.start) == 0;
    push_if(
        deltas || is_first,
        items,
        pps_slice_height_in_tiles_minus1,
        span.high.saturating_sub(1),
    )
}

/// Returns whether one slice is a tile of several CTU rows, which might have several slices.
fn may_be_cut(span: Span, slice: Rect) -> bool
    ensures { result ≡ ((span.wide == 1 && span.high == 1) && nat_lt 1 slice.h) }
{
    span.wide == 1 && span.high == 1 && slice.h > 1
}

/// Appends the slices of one tile, or that a tile which might have several is one.
fn push_slices(items: &mut Fields, span: Span, slices: &[Rect]) -> Result<(), AllocError>
    requires some { 0 < length slices.now }
    ensures { OnOk result ((g : Tiles) (group : Group) → LiesInside g group → IsSpan span group → slices_of_group g group ≡ slices.now → items.new ≡ items.old ++ heights_items g group) }
{
    if slices.len() > 1 {
        return push_heights(items, slices);
    }
    push_if(
        may_be_cut(span, slices[0]),
        items,
        pps_num_exp_slices_in_tile,
        0,
    )
}

/// Returns the slices of a tile whose heights are written: all except the last if it isn't higher than the one before it,
/// otherwise all.
fn written(slices: &[Rect]) -> &[Rect]
    requires { 2 ≤ length slices.now }
    ensures { map (λ (r : Rect). r.h) result.now ≡ written_heights (map (λ (r : Rect). r.h) slices.now) }
{
    let last = slices.len() - 1;
    if slices[last].h <= slices[last - 1].h {
        &slices[..last]
    } else {
        slices
    }
}

/// Appends the number of the heights that are written for the slices of a tile, and these heights.
fn push_heights(items: &mut Fields, slices: &[Rect]) -> Result<(), AllocError>
    requires { 2 ≤ length slices.now }
    ensures { OnOk result (let heights = written_heights (map (λ (r : Rect). r.h) slices.now) in items.new ≡ items.old ++ (only_item pps_num_exp_slices_in_tile (pos (length heights)) ++ strip_items heights)) }
{
    let written = written(slices);
    push_value(items, pps_num_exp_slices_in_tile, written.len() as i64)?;
    for slice in written {
        push(
            items,
            pps_exp_slice_height_in_ctus_minus1,
            slice.h.saturating_sub(1),
        )?;
    }
    Ok(())
}

/// Appends the step from a tile to the start of the next group, if there is one and tile indices are coded.
fn push_next(
    items: &mut Fields,
    tiles: &Tiles,
    deltas: bool,
    tile: u32,
    behind: &[Rect],
) -> Result<(), AllocError>
    requires { IsGrid tiles.now }
    ensures { OnOk result ((groups : List Group) → AreGroups tiles.now groups behind.now → items.new ≡ items.old ++ delta_behind deltas tile groups) }
{
    if !deltas {
        return Ok(());
    }
    let Some(next) = behind.first() else {
        return Ok(());
    };
    push_step(items, tile, tile_of(tiles, *next))
}

/// Appends the step from a tile to another.
fn push_step(items: &mut Fields, from: u32, to: u32) -> Result<(), AllocError>
    ensures { OnOk result (items.new ≡ items.old ++ only_item pps_tile_idx_delta_val (pos to +ℤ neg_ℤ (pos from))) }
{
    push_value(
        items,
        pps_tile_idx_delta_val,
        i64::from(to) - i64::from(from),
    )
}
