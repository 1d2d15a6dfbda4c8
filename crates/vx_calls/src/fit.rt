//! Regions that are fitted into a frame, and the frame's tile lines.
ghost use Rattle.std.specs.Prelude.{◌≡◌, ◌<◌, ◌≤◌, All, IfOk, length, map};
ghost use Rattle.std.specs.Bool.{OnTrue};
ghost use Rattle.std.specs.List.{AllZip};
ghost use Rattle.vx_fit.specs.Placing.{IsInRange, in_ctus};
ghost use Rattle.vx_fit.specs.Sources.{IsSized};

use crate::layout::{bounds_within, empty_picture, push_bounds, rect_of};
use anyhow::{Context, Result, bail};
use std::alloc::{AllocError, Global};
use vx_fit::{FitFault, LineError, Placed, fit_lines, fit_regions};
use vx_layout::{Bounds, Numbers, Rect};

/// The CTU size of regions that are given in CTUs.
const CTB: u32 = 32;

/// - `fit CTB RECT ..` prints the size of the frame of regions in luma samples, or why they don't fit.
/// - `lines RECT:COLUMNS:ROWS ..` prints the tile lines of the frame of regions in CTUs, with the explicit sizes of their tile columns
///   and tile rows, or the region that doesn't keep its own.
pub(crate) fn answer(text: &mut String, alloc: Global, verb: &str, words: &[&str]) -> Result<()> {
    match (verb, words) {
        ("fit", [ctb, regions @ ..]) => tell_fit(text, alloc, ctb.parse::<u32>()?, regions),
        ("lines", regions) => tell_lines(text, alloc, regions),
        _ => bail!("no such call of regions"),
    }
}

/// Appends whether regions fit.
fn tell_fit(text: &mut String, alloc: Global, ctb: u32, regions: &[&str]) -> Result<()> {
    let mut placed = Vec::new(alloc);
    for word in regions {
        let Rect { x, y, w, h } = rect_of(alloc, word)?;
        placed.push(Placed { x, y, w, h })?;
    }
    let answer = fit(&placed, ctb)?;
    Ok(write!(text, "{answer:?}")?)
}

/// Returns whether regions fit.
fn fit(placed: &[Placed], ctb: u32) -> Result<Result<(u32, u32), FitFault>> {
    if placed.is_empty() || placed.len() > 64 || ctb < 1 {
        bail!("no regions, or too many");
    }
    if !are_in_range(placed) {
        bail!("a region out of range");
    }
    Ok(fit_regions(placed, ctb))
}

/// Returns whether a region has numbers that it may have.
fn is_in_range(region: Placed) -> bool
    ensures { OnTrue result (IsInRange region) }
{
    if 16384 < region.x || 16384 < region.y {
        return false;
    }
    if region.w < 1 || 16384 < region.w {
        return false;
    }
    1 <= region.h && region.h <= 16384
}

/// Returns whether regions have such numbers.
fn are_in_range(placed: &[Placed]) -> bool
    ensures { OnTrue result (All IsInRange placed.now) }
{
    for region in placed {
        if !is_in_range(*region) {
            return false;
        }
    }
    true
}

/// Returns whether pictures have the sizes of their regions.
fn are_sized(corners: &[Rect], parts: &[Numbers]) -> bool
    ensures { OnTrue result (AllZip IsSized corners.now parts.now) }
{
    if corners.len() != parts.len() {
        return false;
    }
    for k in 0..corners.len() {
        if !is_sized(corners[k], &parts[k]) {
            return false;
        }
    }
    true
}

/// Returns whether a picture has the size of its region.
fn is_sized(region: Rect, part: &Numbers) -> bool
    ensures { OnTrue result (IsSized region part.now) }
{
    if part.columns.len() < 1 || part.rows.len() < 1 {
        return false;
    }
    if region.w < 1 || region.h < 1 {
        return false;
    }
    part.columns.last() == region.w && part.rows.last() == region.h
}

/// Returns the CTUs of regions.
fn in_ctus(alloc: Global, placed: &[Placed]) -> Result<Vec<Rect>, AllocError>
    ensures { IfOk result (λ corners. corners.items ≡ map (in_ctus CTB) placed.now) }
{
    placed.iter().map(|p| p.in_ctus(CTB)).collect(alloc)
}

/// Returns the lines of the frame that regions make up.
fn lines(
    alloc: Global,
    placed: &[Placed],
    parts: &[Numbers],
) -> Result<Result<(Bounds, Bounds), LineError>> {
    if placed.is_empty() || placed.len() > 64 {
        bail!("no regions, or too many");
    }
    if !are_in_range(placed) {
        bail!("a region out of range");
    }
    let _size = fit_regions(placed, CTB)?;
    let corners = in_ctus(alloc, placed)?;
    if !are_sized(&corners, parts) {
        bail!("another size than its region");
    }
    Ok(fit_lines(alloc, &corners, parts))
}

/// Returns a region of a word, as it is placed and as its picture.
fn part_of(alloc: Global, word: &str) -> Result<(Placed, Numbers)> {
    let (corner, sizes) = word.split_once(':').context("no columns")?;
    let (columns, rows) = sizes.split_once(':').context("no rows")?;
    let Rect { x, y, w, h } = rect_of(alloc, corner)?;
    let placed = Placed {
        x: x.saturating_mul(CTB),
        y: y.saturating_mul(CTB),
        w: w.saturating_mul(CTB),
        h: h.saturating_mul(CTB),
    };
    let columns = bounds_within(alloc, columns, w)?;
    let rows = bounds_within(alloc, rows, h)?;
    Ok((placed, empty_picture(alloc, columns, rows)))
}

/// Appends the lines of regions.
fn tell_lines(text: &mut String, alloc: Global, regions: &[&str]) -> Result<()> {
    let (mut placed, mut parts) = (Vec::new(alloc), Vec::new(alloc));
    for word in regions {
        let (region, picture) = part_of(alloc, word)?;
        placed.push(region)?;
        parts.push(picture).map_err(AllocError::from)?;
    }
    Ok(push_lines(text, &lines(alloc, &placed, &parts)?)?)
}

/// Appends tile lines, or why there are none.
fn push_lines(
    text: &mut String,
    lines: &Result<(Bounds, Bounds), LineError>,
) -> Result<(), AllocError> {
    match lines {
        Ok((columns, rows)) => {
            push_bounds(text, columns)?;
            text.push_str(" ")?;
            push_bounds(text, rows)
        }
        Err(error) => write!(text, "{error:?}"),
    }
}
