//! The part of a layout that lies in a subpicture, counted from the subpicture's corner.
ghost use Rattle.std.specs.Prelude.{◌≡◌, ◌+◌, ◌-◌, ◌<◌, ◌&&◌, nat_lt, cond, [], ◌∷◌, ◌++◌, map, OnOk, IfOk};
ghost use Rattle.vx_layout.specs.Bounds.{Rises};
ghost use Rattle.vx_layout.specs.Regions.{counted_from, cut_bounds};

use crate::bounds::Bounds;
use crate::rect::{Rect, RectList};
use std::alloc::{AllocError, Global};

/// Returns the bounds of the `size` columns or rows from `from` on, counted from there.
pub fn cut(alloc: Global, bounds: &Bounds, from: u32, size: u32) -> Result<Bounds, AllocError>
    requires { 0 < size }
    ensures { IfOk result (λ inner. inner ≡ cut_bounds bounds.now from size) }
{
    let mut inner = Bounds::new(alloc);
    inner.push(0)?;
    for i in 0..bounds.len() {
        push_inner(&mut inner, bounds.item(i), from, size)?;
    }
    inner.push(size)?;
    Ok(inner)
}

/// Appends a bound, counted from `from`, if it is strictly inside the `size` columns or rows from there on.
fn push_inner(inner: &mut Bounds, bound: u32, from: u32, size: u32) -> Result<(), AllocError>
    requires { from < bound → bound < from + size → Rises (inner.old ++ (bound - from) ∷ []) }
    ensures { OnOk result (inner.new ≡ inner.old ++ cond (nat_lt from bound && nat_lt bound (from + size)) ((bound - from) ∷ []) []) }
{
    if bound <= from || size <= bound - from {
        return Ok(());
    }
    inner.push(bound - from)
}

/// Returns rectangles, counted from the corner of another.
pub fn count_from(alloc: Global, rects: &RectList, corner: Rect) -> Result<RectList, AllocError>
    ensures { IfOk result (λ moved. moved ≡ map (counted_from corner) rects.now) }
{
    let mut moved = RectList::new(alloc);
    for i in 0..rects.len() {
        moved.push(rects.item(i).counted_from(corner))?;
    }
    Ok(moved)
}
