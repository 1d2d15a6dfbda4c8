//! Entry points of a slice, counted from the tile bounds inside it.
ghost use Rattle.std.specs.Prelude.{◌≡◌, ◌+◌, ◌<◌, ◌≤◌, ◌&&◌, nat_lt, length};
ghost use Rattle.vx_layout.specs.Bounds.{Rises, last};
ghost use Rattle.vx_layout.specs.Regions.{inner};
ghost use Rattle.vx_layout.specs.Scan.{entries};

use crate::bounds::Bounds;
use crate::rect::Rect;

/// Returns the number of entry points of a slice that lies in the picture (H.266 7.4.8, NumEntryPoints).
///
/// It is one less than the number of tiles that the rectangle meets; with `sync` (sps_entropy_coding_sync_enabled_flag),
/// one less than the number of CTU rows of all its parts of tiles. A slice without a CTU has none.
pub fn count_entries(columns: &Bounds, rows: &Bounds, slice: Rect, sync: bool) -> u32
    requires rises { Rises columns.now × Rises rows.now }
    requires across { 0 < slice.w → 0 < slice.h → slice.x + slice.w ≤ last columns.now }
    requires down { 0 < slice.w → 0 < slice.h → slice.y + slice.h ≤ last rows.now }
    requires small { (last columns.now ≤ 512) × (last rows.now ≤ 512) }
    ensures { result ≡ entries columns.now rows.now slice sync }
{
    if slice.is_empty() {
        return 0;
    }
    let across = count_inner(columns, slice.x, slice.w) + 1;
    let down = if sync {
        slice.h
    } else {
        count_inner(rows, slice.y, slice.h) + 1
    };
    across * down - 1
}

/// Returns the number of bounds strictly inside the `size` columns or rows from `from` on.
fn count_inner(bounds: &Bounds, from: u32, size: u32) -> u32
    requires { last bounds.now ≤ 512 }
    ensures count { result ≡ length (inner bounds.now from size) }
    ensures few { result ≤ 513 }
{
    let mut count = 0;
    for i in 0..bounds.len() {
        if is_inner(bounds.item(i), from, size) {
            count += 1;
        }
    }
    count
}

/// Returns whether a number is strictly inside the `size` numbers from `from` on.
fn is_inner(n: u32, from: u32, size: u32) -> bool
    ensures { result ≡ (nat_lt from n && nat_lt n (from + size)) }
{
    from < n && n - from < size
}
