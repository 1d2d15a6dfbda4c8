//! Painting of all rectangles of a list on a picture's CTUs.
ghost use Rattle.std.specs.Prelude.{◌<◌, ◌≤◌, ◌^◌, length, IfOk, MatchOption};
ghost use Rattle.vx_layout.specs.inner.Marks.{IsMapOf};
ghost use Rattle.vx_layout.specs.Rects.{CoversOnce};

use crate::grid::Grid;
use crate::rect::RectList;
use std::alloc::{AllocError, Global};

/// Returns a map of the picture on which each CTU has the number, from 1, of the rectangle that contains it.
///
/// Returns `None` exactly if some CTU doesn't lie in exactly one of the rectangles.
pub fn map_of(
    alloc: Global,
    rects: &RectList,
    width: usize,
    height: usize,
) -> Result<Option<Grid>, AllocError>
    requires size { (width ≤ 512) × (height ≤ 512) }
    requires few { length rects.now < 2 ^ 31 }
    ensures { IfOk result (λ map. MatchOption map (¬ (CoversOnce rects.now width height)) (λ grid. IsMapOf grid rects.now width height)) }
{
    let mut grid = Grid::new(alloc, width, height)?;
    for k in 0..rects.len() {
        if !grid.paint(rects.item(k), k as u32 + 1) {
            return Ok(None);
        }
    }
    if grid.is_marked() {
        Ok(Some(grid))
    } else {
        Ok(None)
    }
}
