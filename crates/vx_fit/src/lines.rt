//! The tile lines of a frame that regions make up, and the regions that don't keep their own.
ghost use Rattle.std.specs.Prelude.{◌≡◌, ℕ, ◌+◌, ◌<◌, ◌≤◌, ◌∷◌, [], ◌++◌, All, true, cond, IfOk, IfErr, OnOk, length};
ghost use Rattle.std.specs.Bool.{OnTrue, OnFalse};
ghost use Rattle.std.specs.List.{AllZip};
ghost use Rattle.vx_layout.specs.Bounds.{Rises};
ghost use Rattle.vx_fit.specs.FrameLines.{AreBounds, Crosses, FollowsAcrossDropped, HasBound, HasOneTile, HaveLines, IfLines, IsBorder, IsDropped, IsFull, IsHorizontal, IsInner, IsLinesFault, IsVertical, KeepsLines, OfEachRegion, OfSome, PassesInside, StandsOn};
ghost use Rattle.vx_fit.specs.Sources.{IsFitted, IsSized};
ghost use Rattle.vx_fit.specs.Placing.{greatest_size};
ghost use Rattle.vx_fit.specs.inner.Passing.{AreFramed, AreOwn, IsLinesAnswer, LetsDrop};

use std::alloc::{AllocError, Global};
use thiserror::Error;
use vx_layout::{Bounds, Numbers, Rect};

/// The reason why a frame has no tile lines.
#[derive(Clone, Copy, Debug, PartialEq, Eq, Error)]
pub enum LineError {
    /// Memory ran out.
    #[error("out of memory")]
    Memory,
    /// The lowest region that doesn't keep its tile lines. A line passes through it that isn't its own, or one of its lines
    /// is missing, or it doesn't follow the region above it although the line between the two is left out.
    #[error("region {0} doesn't keep its tile lines")]
    Lines(u16),
}

impl From<AllocError> for LineError {
    ghost use Rattle.std.specs.Prelude.{◌≡◌};
    ghost use Rattle.vx_fit.specs.declared.lines.LineError.TheVariants.{Memory as OutOfMemory};

    ghost from_gives = { λ _ e. e ≡ OutOfMemory };

    fn from(_error: AllocError) -> LineError {
        LineError::Memory
    }
}

/// Returns the bounds of the tile columns and tile rows of the frame that regions make up, in CTUs.
///
/// `corners` are the regions in CTUs, which must fit together, and `parts` the pictures in them, with their sizes. A border
/// between two regions, one below the other, is left out if a region next to them requires it. Takes memory only for the
/// result.
///
/// # Errors
///
/// - `Lines(k)` exactly if k is the lowest region that doesn't keep its tile lines.
/// - `Memory` if memory runs out.
pub fn fit_lines(
    alloc: Global,
    corners: &[Rect],
    parts: &[Numbers],
) -> Result<(Bounds, Bounds), LineError>
    requires count { (1 ≤ length corners.now) × (length corners.now ≤ 64) }
    requires sized { AllZip IsSized corners.now parts.now }
    requires fitted { IsFitted corners.now }
    ensures lines { IfOk result (λ bounds. HaveLines bounds.0 bounds.1 corners.now parts.now) }
    ensures fault { IfErr result (λ e. IfLines e (IsLinesFault corners.now parts.now)) }
{
    let columns = vertical_lines(alloc, corners, parts)?;
    let rows = horizontal_lines(alloc, corners, parts)?;
    if let Some(k) = lowest_broken(&columns, &rows, corners, parts) {
        return Err(LineError::Lines(k));
    }
    Ok((columns, rows))
}

/// Returns the vertical lines of a frame.
fn vertical_lines(alloc: Global, corners: &[Rect], parts: &[Numbers]) -> Result<Bounds, AllocError>
    requires { AreFramed corners.now parts.now }
    ensures { IfOk result (λ bounds. AreBounds (IsVertical corners.now parts.now) bounds) }
{
    let mut bounds = Bounds::new(alloc);
    for n in 0..right_end(corners) + 1 {
        push_where(&mut bounds, is_vertical(corners, parts, n), n)?;
    }
    Ok(bounds)
}

/// Returns the horizontal lines of a frame.
fn horizontal_lines(
    alloc: Global,
    corners: &[Rect],
    parts: &[Numbers],
) -> Result<Bounds, AllocError>
    requires { AreFramed corners.now parts.now }
    ensures { IfOk result (λ bounds. AreBounds (IsHorizontal corners.now parts.now) bounds) }
{
    let mut bounds = Bounds::new(alloc);
    for n in 0..bottom_end(corners) + 1 {
        push_where(&mut bounds, is_horizontal(corners, parts, n), n)?;
    }
    Ok(bounds)
}

/// Returns a column that no region extends past.
fn right_end(corners: &[Rect]) -> u32
    requires { All (λ s. s.x + s.w ≤ greatest_size) corners.now }
    ensures reach { All (λ s. s.x + s.w ≤ result) corners.now }
    ensures limit { result ≤ greatest_size }
{
    let mut end = 0;
    for region in corners {
        end = (region.x + region.w).max(end);
    }
    end
}

/// Returns a row that no region extends past.
fn bottom_end(corners: &[Rect]) -> u32
    requires { All (λ s. s.y + s.h ≤ greatest_size) corners.now }
    ensures reach { All (λ s. s.y + s.h ≤ result) corners.now }
    ensures limit { result ≤ greatest_size }
{
    let mut end = 0;
    for region in corners {
        end = (region.y + region.h).max(end);
    }
    end
}

/// Appends a number if it is a line.
fn push_where(bounds: &mut Bounds, is_line: bool, n: u32) -> Result<(), AllocError>
    requires { is_line ≡ true → Rises (bounds.old ++ n ∷ []) }
    ensures { OnOk result (bounds.new ≡ bounds.old ++ cond is_line (n ∷ []) []) }
{
    if !is_line {
        return Ok(());
    }
    bounds.push(n)
}

/// Returns whether a number is a vertical line.
fn is_vertical(corners: &[Rect], parts: &[Numbers], n: u32) -> bool
    requires { length corners.now ≡ length parts.now }
    ensures line { OnTrue result (IsVertical corners.now parts.now n) }
    ensures none { OnFalse result (¬ IsVertical corners.now parts.now n) }
{
    for k in 0..corners.len() {
        if has_column(corners[k], &parts[k], n) {
            return true;
        }
    }
    false
}

/// Returns whether a number is a horizontal line.
fn is_horizontal(corners: &[Rect], parts: &[Numbers], n: u32) -> bool
    requires { length corners.now ≡ length parts.now }
    ensures line { OnTrue result (IsHorizontal corners.now parts.now n) }
    ensures none { OnFalse result (¬ IsHorizontal corners.now parts.now n) }
{
    is_full(corners, parts, n) && !is_dropped(corners, parts, n)
}

/// Returns whether a horizontal line is left out.
fn is_dropped(corners: &[Rect], parts: &[Numbers], n: u32) -> bool
    requires { length corners.now ≡ length parts.now }
    ensures dropped { OnTrue result (IsDropped corners.now parts.now n) }
    ensures kept { OnFalse result (¬ IsDropped corners.now parts.now n) }
{
    if !crosses_some(corners, parts, n) {
        return false;
    }
    all_let_drop(corners, parts, n) && is_full(corners, parts, n)
}

/// Returns whether a number is a full horizontal line.
fn is_full(corners: &[Rect], parts: &[Numbers], n: u32) -> bool
    requires { length corners.now ≡ length parts.now }
    ensures line { OnTrue result (IsFull corners.now parts.now n) }
    ensures none { OnFalse result (¬ IsFull corners.now parts.now n) }
{
    for k in 0..corners.len() {
        if has_row(corners[k], &parts[k], n) {
            return true;
        }
    }
    false
}

/// Returns whether a horizontal line passes through a region and is no inner line of it.
fn crosses_some(corners: &[Rect], parts: &[Numbers], n: u32) -> bool
    requires { length corners.now ≡ length parts.now }
    ensures some { OnTrue result (OfSome corners.now parts.now (λ s p. Crosses s p n)) }
    ensures none { OnFalse result (¬ OfSome corners.now parts.now (λ s p. Crosses s p n)) }
{
    for k in 0..corners.len() {
        if crosses(corners[k], &parts[k], n) {
            return true;
        }
    }
    false
}

/// Returns whether each region lets a horizontal line be left out.
fn all_let_drop(corners: &[Rect], parts: &[Numbers], n: u32) -> bool
    requires { length corners.now ≡ length parts.now }
    ensures all { OnTrue result (OfEachRegion corners.now parts.now (λ s p. LetsDrop s p n)) }
    ensures not_all { OnFalse result (¬ OfEachRegion corners.now parts.now (λ s p. LetsDrop s p n)) }
{
    for k in 0..corners.len() {
        if !lets_drop(corners[k], &parts[k], n) {
            return false;
        }
    }
    true
}

/// Returns whether a horizontal line passes through a region and is no inner line of it.
fn crosses(region: Rect, part: &Numbers, n: u32) -> bool
    ensures crosses { OnTrue result (Crosses region part.now n) }
    ensures fine { OnFalse result (¬ Crosses region part.now n) }
{
    passes_inside(region.y, region.h, n) && !has_row(region, part, n)
}

/// Returns whether a region lets a horizontal line be left out: it is no inner line of it, and if it is a border of it,
/// there is one tile.
fn lets_drop(region: Rect, part: &Numbers, n: u32) -> bool
    ensures lets { OnTrue result (LetsDrop region part.now n) }
    ensures holds { OnFalse result (¬ LetsDrop region part.now n) }
{
    if passes_inside(region.y, region.h, n) {
        return !has_row(region, part, n);
    }
    !is_border(region, n) || has_one_tile(part)
}

/// Returns whether a number is a column bound of the picture in a region.
fn has_column(region: Rect, part: &Numbers, n: u32) -> bool
    ensures bound { OnTrue result (HasBound region.x part.now.columns n) }
    ensures none { OnFalse result (¬ HasBound region.x part.now.columns n) }
{
    has_bound(region.x, &part.columns, n)
}

/// Returns whether a number is a row bound of the picture in a region.
fn has_row(region: Rect, part: &Numbers, n: u32) -> bool
    ensures bound { OnTrue result (HasBound region.y part.now.rows n) }
    ensures none { OnFalse result (¬ HasBound region.y part.now.rows n) }
{
    has_bound(region.y, &part.rows, n)
}

/// Returns whether a number is a bound of a picture at `from`.
fn has_bound(from: u32, own: &Bounds, n: u32) -> bool
    ensures bound { OnTrue result (HasBound from own.now n) }
    ensures none { OnFalse result (¬ HasBound from own.now n) }
{
    from <= n && own.has(n - from)
}

/// Returns whether a number is strictly between the borders of what begins at `from`.
fn passes_inside(from: u32, size: u32, n: u32) -> bool
    ensures inside { OnTrue result (PassesInside from size n) }
    ensures outside { OnFalse result (¬ PassesInside from size n) }
{
    from < n && n - from < size
}

/// Returns whether a number is the upper or the lower border of a region.
fn is_border(region: Rect, n: u32) -> bool
    ensures border { OnTrue result (IsBorder region n) }
    ensures other { OnFalse result (¬ IsBorder region n) }
{
    region.y == n || region.y <= n && n - region.y == region.h
}

/// Returns whether a picture has one tile.
fn has_one_tile(part: &Numbers) -> bool
    ensures one { OnTrue result (HasOneTile part.now) }
    ensures several { OnFalse result (¬ HasOneTile part.now) }
{
    part.columns.len() == 2 && part.rows.len() == 2
}

/// Returns the lowest region that doesn't keep its lines.
fn lowest_broken(
    columns: &Bounds,
    rows: &Bounds,
    corners: &[Rect],
    parts: &[Numbers],
) -> Option<u16>
    requires count { length corners.now ≤ 64 }
    requires framed { AreFramed corners.now parts.now }
    requires vertical { AreBounds (IsVertical corners.now parts.now) columns.now }
    requires horizontal { AreBounds (IsHorizontal corners.now parts.now) rows.now }
    ensures { IsLinesAnswer corners.now parts.now result }
{
    for k in 0..corners.len() {
        if !keeps_lines(columns, rows, corners, parts, k) {
            return Some(k as u16);
        }
    }
    None
}

/// Returns whether a region keeps its lines.
fn keeps_lines(
    columns: &Bounds,
    rows: &Bounds,
    corners: &[Rect],
    parts: &[Numbers],
    k: usize,
) -> bool
    requires place { k < length corners.now }
    requires framed { AreFramed corners.now parts.now }
    requires vertical { AreBounds (IsVertical corners.now parts.now) columns.now }
    requires horizontal { AreBounds (IsHorizontal corners.now parts.now) rows.now }
    ensures keeps { OnTrue result (KeepsLines corners.now parts.now k) }
    ensures breaks { OnFalse result (¬ KeepsLines corners.now parts.now k) }
{
    let region = corners[k];
    if !are_own(columns, region.x, region.w, &parts[k].columns) {
        return false;
    }
    are_own(rows, region.y, region.h, &parts[k].rows) && follows(corners, parts, k)
}

/// Returns whether the bounds strictly inside a picture at `from` are its own.
fn are_own(bounds: &Bounds, from: u32, size: u32, own: &Bounds) -> bool
    requires { from + size ≤ greatest_size }
    ensures own { OnTrue result (AreOwn bounds.now from size own.now) }
    ensures other { OnFalse result (¬ AreOwn bounds.now from size own.now) }
{
    for c in 1..size {
        if bounds.has(from + c) != own.has(c) {
            return false;
        }
    }
    true
}

/// Returns whether a region follows the one above it if the line between the two is left out.
fn follows(corners: &[Rect], parts: &[Numbers], k: usize) -> bool
    requires place { k < length corners.now }
    requires same { length corners.now ≡ length parts.now }
    ensures follows { OnTrue result (FollowsAcrossDropped corners.now parts.now k) }
    ensures alone { OnFalse result (¬ FollowsAcrossDropped corners.now parts.now k) }
{
    if !is_dropped(corners, parts, corners[k].y) {
        return true;
    }
    0 < k && stands_on(corners[k - 1], corners[k])
}

/// Returns whether a region is directly above another, with the same columns.
fn stands_on(upper: Rect, lower: Rect) -> bool
    ensures on { OnTrue result (StandsOn upper lower) }
    ensures off { OnFalse result (¬ StandsOn upper lower) }
{
    let is_below = upper.y <= lower.y && lower.y - upper.y == upper.h;
    upper.x == lower.x && upper.w == lower.w && is_below
}
