//! The tiles of a picture parameter set, clause 7.3.2.5, for every coder.
ghost use Rattle.std.specs.Prelude.{◌≡◌, ◌+◌, ◌≤◌, ◌<◌, length, sum, All, IfOk, IfSome};
ghost use Rattle.vx_pps.specs.Partition.{ctus_across, sizes_of, tiles_among, tiles_of};
ghost use Rattle.vx_pps.specs.Slices.{tile_size_form};
ghost use Rattle.vx_pps.specs.Tiles.{IsGrid};
ghost use Rattle.vx_pps.specs.inner.Walked.{Walked};

use crate::halt::Halt;
use crate::numbers::code_below;
use crate::tiles::Tiles;
use std::alloc::Global;
use vx_bits::IdList;
use vx_fields::pps::{
    pps_num_exp_tile_columns_minus1, pps_num_exp_tile_rows_minus1, pps_tile_column_width_minus1,
    pps_tile_row_height_minus1,
};
use vx_layout::tile_bounds;
use vx_table::Coder;

/// Returns the number of CTUs across or down for a number of samples; `log2` is the CTU size's binary logarithm less 5.
pub(crate) fn ctus(samples: u32, log2: u32) -> u32
    requires { log2 < 3 }
    ensures count { result ≡ ctus_across samples log2 }
    ensures most { result ≤ 512 }
{
    samples.div_ceil(32 << log2).min(512)
}

/// Codes the size of a tile column or row, if `left` CTUs are left.
fn code_size<I, C: Coder<I>>(
    field: u16,
    left: u32,
    coder: &mut C,
    items: &mut I,
) -> Result<u32, Halt<C::Fault>>
    ensures walk { Walked C.step (tile_size_form field left) coder.old items.old result coder.new items.new }
    ensures fits { IfOk result (λ size. (1 ≤ size) × (size ≤ left)) }
{
    let size = code_below(field, left, coder, items)?;
    Ok(size + 1)
}

/// Codes the `count` explicit sizes of tile columns or rows of `total` CTUs.
fn code_sizes<I, C: Coder<I>>(
    alloc: Global,
    field: u16,
    count: u32,
    total: u32,
    coder: &mut C,
    items: &mut I,
) -> Result<IdList, Halt<C::Fault>>
    ensures walk { Walked C.step (sizes_of field count total) coder.old items.old result coder.new items.new }
    ensures count { IfOk result (λ sizes. length sizes ≡ count) }
    ensures some { IfOk result (λ sizes. All (λ size. 1 ≤ size) sizes) }
{
    let mut sizes = IdList::new(alloc);
    let mut left = total;
    for turn in 0..count {
        let size = code_size(field, left, coder, items)?;
        left -= size;
        let Ok(()) = sizes.push(size) else {
            return Err(Halt::Memory);
        };
    }
    Ok(sizes)
}

/// Codes the tiles of a picture of `columns` times `rows` CTUs.
#[tactic(auto, unfolding(crate::specs::Partition::tiles_among), using(crate::proofs::Walking::then, crate::proofs::Walking::stop))]
pub(crate) fn code_tiles<I, C: Coder<I>>(
    alloc: Global,
    columns: u32,
    rows: u32,
    coder: &mut C,
    items: &mut I,
) -> Result<Tiles, Halt<C::Fault>>
    requires { (columns ≤ 512) × (rows ≤ 512) }
    ensures walk { Walked C.step (tiles_among columns rows) coder.old items.old result coder.new items.new }
    ensures grid { IfOk result IsGrid }
{
    let last_column = code_below(pps_num_exp_tile_columns_minus1, columns, coder, items)?;
    let last_row = code_below(pps_num_exp_tile_rows_minus1, rows, coder, items)?;
    let field = pps_tile_column_width_minus1;
    let widths = code_sizes(alloc, field, last_column + 1, columns, coder, items)?;
    let field = pps_tile_row_height_minus1;
    let heights = code_sizes(alloc, field, last_row + 1, rows, coder, items)?;
    match tiles(alloc, &widths, columns, &heights, rows) {
        Some(tiles) => Ok(tiles),
        None => Err(Halt::Memory),
    }
}

/// Returns the tiles of explicit sizes, which were found to fit, unless memory runs out.
fn tiles(alloc: Global, widths: &IdList, columns: u32, heights: &IdList, rows: u32) -> Option<Tiles>
    requires widths { (1 ≤ length widths.now) × All (λ size. 1 ≤ size) widths.now }
    requires heights { (1 ≤ length heights.now) × All (λ size. 1 ≤ size) heights.now }
    requires columns { (1 ≤ columns) × (columns ≤ 512) }
    requires rows { (1 ≤ rows) × (rows ≤ 512) }
    ensures bounds { IfSome result (λ g. g ≡ tiles_of widths.now columns heights.now rows) }
    ensures grid { IfSome result IsGrid }
{
    let Ok(across) = tile_bounds(alloc, widths.as_slice(), columns) else {
        return None;
    };
    let Ok(down) = tile_bounds(alloc, heights.as_slice(), rows) else {
        return None;
    };
    Some(Tiles {
        columns: across,
        rows: down,
    })
}
