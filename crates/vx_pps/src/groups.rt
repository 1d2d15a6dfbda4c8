//! Groups of slices, as they are found in the list of a picture's slices.
ghost use Rattle.std.specs.Prelude.{◌≡◌, ℕ, ◌+◌, ◌*◌, ◌^◌, ◌<◌, ◌≤◌, List, ◌++◌, length, slice_index};
ghost use Rattle.vx_layout.specs.declared.rect.Rect.{Rect};
ghost use Rattle.vx_layout.specs.Bounds.{Rises, last};
ghost use Rattle.vx_pps.specs.Groups.{Group, slices_of_group};
ghost use Rattle.vx_pps.specs.Tiles.{IsGrid, across, column, down, row};
ghost use Rattle.vx_pps.specs.inner.Found.{IsSpan, LiesInside};

use crate::tiles::Tiles;
use vx_layout::{Bounds, Rect};

/// The tiles of a group: the first one, and the numbers across and down.
#[derive(Clone, Copy)]
pub(crate) struct Span {
    pub start: u32,
    pub wide: u32,
    pub high: u32,
}

/// Returns the index of a bound.
fn index_of(bounds: &Bounds, number: u32) -> u32
    requires { length bounds.now ≤ 513 }
    ensures index { (i : ℕ) → i < length bounds.now → slice_index bounds.now i ≡ number → result ≡ i }
    ensures low { result ≤ 512 }
    ensures rises { Rises bounds.now }
{
    match bounds.index_of(number) {
        Some(i) => i as u32,
        None => 0,
    }
}

/// Returns the tile that begins where a slice does.
pub(crate) fn tile_of(tiles: &Tiles, slice: Rect) -> u32
    requires { IsGrid tiles.now }
    ensures tile { (t : ℕ) → t < across tiles.now * down tiles.now → slice_index tiles.now.columns (column tiles.now t) ≡ slice.x → slice_index tiles.now.rows (row tiles.now t) ≡ slice.y → result ≡ t }
    ensures low { result < 2 ^ 20 }
{
    let (column, row) = (
        index_of(&tiles.columns, slice.x),
        index_of(&tiles.rows, slice.y),
    );
    row * tiles.across() + column
}

/// Returns the column after a slice.
fn right(slice: Rect) -> u32
    ensures { slice.x + slice.w < 2 ^ 32 → result ≡ slice.x + slice.w }
{
    slice.x.saturating_add(slice.w)
}

/// Returns the row below a slice.
fn bottom(slice: Rect) -> u32
    ensures { slice.y + slice.h < 2 ^ 32 → result ≡ slice.y + slice.h }
{
    slice.y.saturating_add(slice.h)
}

/// Returns the tiles of the group that these slices form.
pub(crate) fn span_of(tiles: &Tiles, slices: &[Rect]) -> Span
    requires grid { IsGrid tiles.now }
    requires columns { last tiles.now.columns < 2 ^ 32 }
    requires some { 0 < length slices.now }
    ensures { (group : Group) → LiesInside tiles.now group → slices_of_group tiles.now group ≡ slices.now → IsSpan result group }
{
    let (first, last) = (slices[0], slices[slices.len() - 1]);
    let left = index_of(&tiles.columns, first.x);
    let top = index_of(&tiles.rows, first.y);
    Span {
        start: tile_of(tiles, first),
        wide: index_of(&tiles.columns, right(first)).saturating_sub(left),
        high: index_of(&tiles.rows, bottom(last)).saturating_sub(top),
    }
}

/// Returns how many of the slices are the first group: those up to the first one that ends at a bound of the tile rows.
pub(crate) fn group_len(tiles: &Tiles, slices: &[Rect]) -> usize
    requires grid { IsGrid tiles.now }
    requires some { 0 < length slices.now }
    ensures within { (1 ≤ result) × (result ≤ length slices.now) }
    ensures group { (group : Group) (behind : List Rect) → LiesInside tiles.now group → slices.now ≡ slices_of_group tiles.now group ++ behind → result ≡ length (slices_of_group tiles.now group) }
{
    for (i, slice) in slices.iter().enumerate() {
        if tiles.rows.has(bottom(*slice)) {
            return i + 1;
        }
    }
    slices.len()
}
