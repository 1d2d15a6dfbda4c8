//! Look-up tables that give in constant time which numbers are bounds, and whether a bound lies between two numbers.
ghost use Rattle.std.specs.Prelude.{◌≡◌, ℕ, ◌+◌, ◌<◌, length, IfOk};
ghost use Rattle.vx_layout.specs.Bounds.{Rises};
ghost use Rattle.vx_layout.specs.inner.Lines.{AreNextBounds, is_line, none_between, splits_by};

use crate::bounds::Bounds;
use crate::rect::Rect;
use std::alloc::{AllocError, Global};

/// Returns for each number up to the last bound the first bound that isn't below it.
pub fn next_bounds(alloc: Global, bounds: &Bounds) -> Result<Vec<u32>, AllocError>
    requires { 0 < length bounds.now }
    ensures next { IfOk result (λ next. AreNextBounds bounds.now next.items) }
    ensures rises { Rises bounds.now }
{
    let mut next = Vec::new(alloc);
    for i in 0..bounds.len() {
        let bound = bounds.item(i);
        next.resize(bound as usize + 1, bound)?;
    }
    Ok(next)
}

/// Returns whether the borders of a subpicture are where the tiles allow them.
#[tactic(auto, unfolding(crate::specs::inner::Lines::splits_by))]
pub fn splits_by(subpic: Rect, columns: &[u32], rows: &[u32]) -> bool
    requires columns { (0 < subpic.w) × (subpic.x + subpic.w < length columns.now) }
    requires rows { (0 < subpic.h) × (subpic.y + subpic.h < length rows.now) }
    ensures { result ≡ splits_by columns.now rows.now subpic }
{
    let (left, top) = (subpic.x as usize, subpic.y as usize);
    let (right, bottom) = (left + subpic.w as usize, top + subpic.h as usize);
    let sides = is_line(columns, left) && is_line(columns, right);
    let ends = is_line(rows, top) && is_line(rows, bottom);
    let apart = none_between(columns, left, right) && none_between(rows, top, bottom);
    sides && (ends || apart)
}

/// Returns whether a number is a bound.
fn is_line(next: &[u32], x: usize) -> bool
    requires { x < length next.now }
    ensures { result ≡ is_line next.now x }
{
    next[x] as usize == x
}

/// Returns whether no bound is strictly between two numbers.
fn none_between(next: &[u32], a: usize, b: usize) -> bool
    requires { a + 1 < length next.now }
    ensures { result ≡ none_between next.now a b }
{
    b <= next[a + 1] as usize
}
