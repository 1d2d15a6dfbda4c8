//! The tiles and slices of a picture parameter set, clause 7.3.2.5, for every coder.
ghost use Rattle.std.specs.Prelude.{◌≡◌, ◌<◌, ◌≤◌, IfOk};
ghost use Rattle.vx_pps.specs.Partition.{across_flag, ctu_size, deltas_flag, divided, fixed_form, last_slice, listed_slices, partition, slices_among, subpicture_slices, tile_flags};
ghost use Rattle.vx_pps.specs.Slices.{below};
ghost use Rattle.vx_pps.specs.Tiles.{IsGrid};
ghost use Rattle.vx_pps.specs.inner.Walked.{Walked};

use crate::grid::{code_tiles, ctus};
use crate::halt::Halt;
use crate::list::code_list;
use crate::numbers::{below, code_fixed, code_number};
use crate::tiles::Tiles;
use std::alloc::Global;
use vx_bits::rules::{RASTER_SCAN_SLICES, TOO_MANY_SLICES};
use vx_fields::pps::{
    pps_log2_ctu_size_minus5, pps_loop_filter_across_slices_enabled_flag,
    pps_loop_filter_across_tiles_enabled_flag, pps_num_slices_in_pic_minus1, pps_rect_slice_flag,
    pps_single_slice_per_subpic_flag, pps_tile_idx_delta_present_flag,
};
use vx_layout::{Bounds, RectList};
use vx_table::{Coder, Fault, Limits};

/// The tiles and slices that a picture parameter set describes.
#[derive(Drop)]
pub struct Partition {
    /// The tiles; none if the picture isn't partitioned.
    pub tiles: Tiles,
    /// The slices, if a slice list describes them.
    pub slices: Option<RectList>,
}

/// Codes a flag that is below a bound.
fn code_flag<I, C: Coder<I>>(
    field: u16,
    bound: u32,
    coder: &mut C,
    items: &mut I,
) -> Result<u32, Halt<C::Fault>>
    ensures { Walked C.step (fixed_form field 1 (below bound)) coder.old items.old result coder.new items.new }
{
    code_fixed(field, 1, below(bound), coder, items)
}

/// Codes the flags of several tiles.
#[tactic(auto, unfolding(crate::specs::Partition::tile_flags), using(crate::proofs::Walking::then, crate::proofs::Walking::stop))]
fn code_tile_flags<I, C: Coder<I>>(
    tiles: &Tiles,
    coder: &mut C,
    items: &mut I,
) -> Result<u32, Halt<C::Fault>>
    requires { IsGrid tiles.now }
    ensures { Walked C.step (tile_flags tiles.now) coder.old items.old result coder.new items.new }
{
    if tiles.count() <= 1 {
        return Ok(1);
    }
    code_flag(pps_loop_filter_across_tiles_enabled_flag, 2, coder, items)?;
    let rectangles = Limits::Within {
        low: 1,
        high: 1,
        fault: Fault::Profile(RASTER_SCAN_SLICES),
    };
    code_fixed(pps_rect_slice_flag, 1, rectangles, coder, items)
}

/// Codes the number of the slices, less 1.
#[tactic(auto, unfolding(crate::specs::Partition::last_slice), using(crate::proofs::Walking::then, crate::proofs::Walking::stop))]
fn code_last<I, C: Coder<I>>(coder: &mut C, items: &mut I) -> Result<u32, Halt<C::Fault>>
    ensures walk { Walked C.step last_slice coder.old items.old result coder.new items.new }
    ensures most { IfOk result (λ last. last < 1000) }
{
    let limits = Limits::Below {
        bound: 1000,
        fault: Fault::Limit(TOO_MANY_SLICES),
    };
    code_number(pps_num_slices_in_pic_minus1, limits, coder, items)
}

/// Codes whether the steps from slice to slice are coded.
#[tactic(auto, unfolding(crate::specs::Partition::deltas_flag), using(crate::proofs::Walking::then, crate::proofs::Walking::stop))]
fn code_deltas<I, C: Coder<I>>(
    last: u32,
    coder: &mut C,
    items: &mut I,
) -> Result<u32, Halt<C::Fault>>
    ensures { Walked C.step (deltas_flag last) coder.old items.old result coder.new items.new }
{
    if last <= 1 {
        return Ok(0);
    }
    code_flag(pps_tile_idx_delta_present_flag, 2, coder, items)
}

/// Codes whether loop filters cross the borders of slices; if the slice list extends past the tiles, then no value is in
/// range.
#[tactic(auto, unfolding(crate::specs::Partition::across_flag), using(crate::proofs::Walking::then, crate::proofs::Walking::stop))]
fn code_across<I, C: Coder<I>>(
    last: u32,
    inside: bool,
    coder: &mut C,
    items: &mut I,
) -> Result<u32, Halt<C::Fault>>
    ensures { Walked C.step (across_flag last inside) coder.old items.old result coder.new items.new }
{
    if last == 0 {
        return Ok(0);
    }
    let bound = if inside { 2 } else { 0 };
    let field = pps_loop_filter_across_slices_enabled_flag;
    code_flag(field, bound, coder, items)
}

/// Codes the number of the slices, their list, and the flags for them.
#[tactic(auto, unfolding(crate::specs::Partition::listed_slices), using(crate::proofs::Walking::then, crate::proofs::Walking::stop))]
fn code_listed<I, C: Coder<I>>(
    alloc: Global,
    tiles: &Tiles,
    coder: &mut C,
    items: &mut I,
) -> Result<Option<RectList>, Halt<C::Fault>>
    requires { IsGrid tiles.now }
    ensures { Walked C.step (listed_slices tiles.now) coder.old items.old result coder.new items.new }
{
    let last = code_last(coder, items)?;
    let deltas = code_deltas(last, coder, items)?;
    let slices = code_list(alloc, tiles, last, deltas != 0, coder, items)?;
    code_across(last, slices.is_some(), coder, items)?;
    Ok(slices)
}

/// Codes the flags for slices that are subpictures.
#[tactic(auto, unfolding(crate::specs::Partition::subpicture_slices), using(crate::proofs::Walking::then, crate::proofs::Walking::stop))]
fn code_subpictures<I, C: Coder<I>>(
    coder: &mut C,
    items: &mut I,
) -> Result<Option<RectList>, Halt<C::Fault>>
    ensures { Walked C.step subpicture_slices coder.old items.old result coder.new items.new }
{
    code_flag(pps_loop_filter_across_slices_enabled_flag, 2, coder, items)?;
    Ok(None)
}

/// Codes the slices, by their list unless each subpicture is one.
#[tactic(auto, unfolding(crate::specs::Partition::slices_among), using(crate::proofs::Walking::then, crate::proofs::Walking::stop))]
fn code_slices_among<I, C: Coder<I>>(
    alloc: Global,
    tiles: &Tiles,
    single: u32,
    coder: &mut C,
    items: &mut I,
) -> Result<Option<RectList>, Halt<C::Fault>>
    requires { IsGrid tiles.now }
    ensures { Walked C.step (slices_among tiles.now single) coder.old items.old result coder.new items.new }
{
    if single != 0 {
        return code_subpictures(coder, items);
    }
    code_listed(alloc, tiles, coder, items)
}

/// Codes the tiles and slices of a picture of `width` times `height` luma samples.
#[tactic(auto, unfolding(crate::specs::Partition::divided), using(crate::proofs::Walking::then, crate::proofs::Walking::stop))]
fn code_divided<I, C: Coder<I>>(
    alloc: Global,
    width: u32,
    height: u32,
    coder: &mut C,
    items: &mut I,
) -> Result<Partition, Halt<C::Fault>>
    ensures { Walked C.step (divided width height) coder.old items.old result coder.new items.new }
{
    let log2 = code_fixed(pps_log2_ctu_size_minus5, 2, below(3), coder, items)?;
    let (columns, rows) = (ctus(width, log2), ctus(height, log2));
    let tiles = code_tiles(alloc, columns, rows, coder, items)?;
    code_tile_flags(&tiles, coder, items)?;
    let single = code_flag(pps_single_slice_per_subpic_flag, 2, coder, items)?;
    let slices = code_slices_among(alloc, &tiles, single, coder, items)?;
    Ok(Partition { tiles, slices })
}

/// Codes the tiles and slices, unless the picture has one of each.
#[tactic(auto, unfolding(crate::specs::Partition::partition), using(crate::proofs::Walking::then, crate::proofs::Walking::stop))]
pub(crate) fn code_partition<I, C: Coder<I>>(
    alloc: Global,
    whole: u32,
    width: u32,
    height: u32,
    coder: &mut C,
    items: &mut I,
) -> Result<Partition, Halt<C::Fault>>
    ensures { Walked C.step (partition whole width height) coder.old items.old result coder.new items.new }
{
    if whole == 0 {
        return code_divided(alloc, width, height, coder, items);
    }
    let tiles = Tiles {
        columns: Bounds::new(alloc),
        rows: Bounds::new(alloc),
    };
    Ok(Partition {
        tiles,
        slices: None,
    })
}
