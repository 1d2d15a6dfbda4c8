//! The regions of a frame, and the rules on them.
ghost use Rattle.std.specs.Prelude.{◌≡◌, ◌<◌, ◌≤◌, ◌∷◌, [], All, length, map, sum_by, IfOk, OnOk, None};
ghost use Rattle.std.specs.List.{AllZip};
ghost use Rattle.vx_fit.specs.FrameLines.{HaveLines};
ghost use Rattle.vx_fit.specs.Placing as placing;
ghost use Rattle.vx_fit.specs.Placing.{IsInRange};
ghost use Rattle.vx_fit.specs.Sources.{IsFitted, IsSized};
ghost use Rattle.vx_write.specs.InForce.{AreInForce};
ghost use Rattle.vx_frame.specs.Corners.{IsCorner};
ghost use Rattle.vx_frame.specs.Regions as regions;
ghost use Rattle.vx_frame.specs.Rules as rules;
ghost use Rattle.vx_frame.specs.inner.Found as found;
ghost use Rattle.vx_frame.specs.inner.Found.{Finds, Tries};
ghost use Rattle.vx_frame.specs.inner.Geometry.{AreWhole, IsFitSize};

use crate::corner::Corner;
use std::alloc::{AllocError, Global};
use vx_bits::Refusal;
use vx_bits::rules::{GEOMETRY, REGION_ORDER, TILE_LINES, TOO_LARGE, TOO_MANY_SLICES};
use vx_fit::{
    FitFault, LineError, Placed, fit_fault_is_one, fit_lines, fit_regions, lines_are_one,
};
use vx_layout::{Bounds, Numbers, Rect};
use vx_pic::Picture;
use vx_write::{WriteError, sets_in_force};

/// The most slices that a picture may have.
const MOST_SLICES: u32 = 1000;

// ---- regions

/// Returns the region of a picture with this upper left corner, from its sets.
fn region_at(corner: Corner, picture: &Picture<'_>) -> Placed
    ensures { result ≡ regions.placed_at corner picture.now }
{
    let pps = picture.pps();
    Placed {
        x: corner.x,
        y: corner.y,
        w: pps.width(),
        h: pps.height(),
    }
}

/// Returns the region of a picture with this upper left corner.
fn placed_at(corner: Corner, picture: &Picture<'_>) -> Placed
    requires corner { IsCorner corner }
    requires sets { AreInForce picture.now }
    ensures placed { result ≡ regions.placed_at corner picture.now }
    ensures range { IsInRange result }
{
    region_at(corner, picture)
}

/// Returns the regions of the pictures at their corners.
pub(crate) fn placed(
    alloc: Global,
    corners: &[Corner],
    round: &[Picture<'_>],
) -> Result<Vec<Placed>, AllocError>
    requires same { length corners.now ≡ length round.now }
    requires corners { All IsCorner corners.now }
    requires sets { All AreInForce round.now }
    ensures placed { IfOk result (λ placed. placed.items ≡ regions.placed_in corners.now round.now) }
    ensures range { IfOk result (λ placed. All IsInRange placed.items) }
{
    let mut placed = Vec::new(alloc);
    for k in 0..round.len() {
        placed.push(placed_at(corners[k], &round[k]))?;
    }
    Ok(placed)
}

/// Returns the refusal of regions that don't fit together.
fn fit_refusal(fault: FitFault) -> Refusal
    ensures { result ≡ found.fit_refusal fault }
{
    match fault {
        FitFault::TooLarge => Refusal::Limit { code: TOO_LARGE },
        FitFault::Geometry(source) => Refusal::Merge {
            code: GEOMETRY,
            source,
            field: 0,
        },
        FitFault::Order(source) => Refusal::Merge {
            code: REGION_ORDER,
            source,
            field: 0,
        },
    }
}

/// Returns the width and height of the frame of regions that fit together. CTUs have `ctb` times `ctb` samples.
///
/// *Errors:* the first rule that the regions break.
pub(crate) fn frame_size(placed: &[Placed], ctb: u32) -> Result<(u32, u32), WriteError>
    requires count { (0 < length placed.now) × (length placed.now ≤ 64) }
    requires numbers { All IsInRange placed.now }
    requires ctb { 1 ≤ ctb }
    ensures { Tries (length placed.now) (rules.rules_of_fit placed.now ctb) (IsFitSize placed.now ctb) result }
{
    fit_fault_is_one();
    match fit_regions(placed, ctb) {
        Ok(size) => Ok(size),
        Err(fault) => Err(WriteError::Refused(fit_refusal(fault))),
    }
}

/// Returns the regions in CTUs.
pub(crate) fn in_ctus(alloc: Global, placed: &[Placed], ctb: u32) -> Result<Vec<Rect>, AllocError>
    requires { 1 ≤ ctb }
    ensures { IfOk result (λ corners. corners.items ≡ map (placing.in_ctus ctb) placed.now) }
{
    placed.iter().map(|p| p.in_ctus(ctb)).collect(alloc)
}

// ---- tile lines

/// Returns the layout of a picture's first subpicture.
fn layout_of(alloc: Global, picture: &Picture<'_>) -> Result<Numbers, AllocError>
    ensures layout { IfOk result (λ layout. layout ≡ regions.layout_of picture.now) }
    ensures sets { AreInForce picture.now }
{
    sets_in_force(picture);
    picture.layout().region(alloc, 0)
}

/// Returns the layouts of the pictures.
pub(crate) fn layouts(alloc: Global, round: &[Picture<'_>]) -> Result<Vec<Numbers>, AllocError>
    ensures layouts { IfOk result (λ layouts. layouts.items ≡ regions.layouts_in round.now) }
    ensures sets { OnOk result (All AreInForce round.now) }
{
    let mut layouts = Vec::new(alloc);
    for k in 0..round.len() {
        let layout = layout_of(alloc, &round[k])?;
        layouts.push(layout)?;
    }
    Ok(layouts)
}

/// Returns the tile lines of the frame of these regions: those that pass through a region are the region's own.
///
/// *Errors:* `Refused` if the lines don't fit (M5). `Memory`.
pub(crate) fn frame_lines(
    alloc: Global,
    corners: &[Rect],
    parts: &[Numbers],
) -> Result<(Bounds, Bounds), WriteError>
    requires count { (1 ≤ length corners.now) × (length corners.now ≤ 64) }
    requires sized { AllZip IsSized corners.now parts.now }
    requires fitted { IsFitted corners.now }
    ensures { Tries (length corners.now) (rules.tile_lines corners.now parts.now ∷ []) (λ lines. HaveLines lines.0 lines.1 corners.now parts.now) result }
{
    lines_are_one();
    match fit_lines(alloc, corners, parts) {
        Ok(lines) => Ok(lines),
        Err(LineError::Memory) => Err(WriteError::Memory),
        Err(LineError::Lines(source)) => Err(WriteError::Refused(Refusal::Merge {
            code: TILE_LINES,
            source,
            field: 0,
        })),
    }
}

// ---- slices

/// Returns how many slices all pictures have together.
fn slice_count(round: &[Picture<'_>]) -> u32
    requires { length round.now ≤ 64 }
    ensures count { result ≡ sum_by (λ q. length q.slices) round.now }
    ensures whole { AreWhole round.now }
{
    let mut count = 0;
    for k in 0..round.len() {
        count += round[k].slice_count();
    }
    count
}

/// Returns the refusal of more slices in all than a picture may have.
pub(crate) fn too_many_slices(round: &[Picture<'_>]) -> Option<Refusal>
    requires { (0 < length round.now) × (length round.now ≤ 64) }
    ensures found { Finds (length round.now) (rules.too_many_slices round.now ∷ []) result }
    ensures whole { AreWhole round.now }
{
    if MOST_SLICES < slice_count(round) {
        return Some(Refusal::Limit {
            code: TOO_MANY_SLICES,
        });
    }
    None
}
