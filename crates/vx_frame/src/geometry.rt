//! The geometry of a round's frame, made while the rules on its sets are checked.
ghost use Rattle.std.specs.Prelude.{◌≡◌, ◌+◌, ◌<◌, ◌≤◌, ◌++◌, ◌∷◌, [], All, None, length, map, IfOk, OnOk};
ghost use Rattle.std.specs.List.{AllZip};
ghost use Rattle.vx_layout.specs.Frames as frames;
ghost use Rattle.vx_layout.specs.Frames.{Fills};
ghost use Rattle.vx_layout.specs.Rects.{IsPart};
ghost use Rattle.vx_layout.specs.Regions.{moved_to};
ghost use Rattle.vx_write.specs.InForce.{AreInForce};
ghost use Rattle.vx_frame.specs.Corners.{AreCorners};
ghost use Rattle.vx_frame.specs.Regions as words;
ghost use Rattle.vx_frame.specs.Rules as rules;
ghost use Rattle.vx_frame.specs.inner.Found.{Finds, Tries};
ghost use Rattle.vx_frame.specs.inner.Geometry.{AreRegionsOf, HaveRegions, IsRoundGeometry};

use crate::corner::Corner;
use crate::laws_shapes::frames_have_shapes;
use crate::regions::{frame_lines, frame_size, in_ctus, layouts, placed, too_many_slices};
use crate::sets::{several_subpictures, sps_tools};
use std::alloc::{AllocError, Global};
use vx_fit::{Placed, fit_fault_is_one, lines_are_one};
use vx_layout::{Bounds, Numbers, Rect, RectList, region_is_layout, region_is_listable};
use vx_pic::Picture;
use vx_pps::{read_slices_are_listable, sets_tell_partitions};
use vx_write::WriteError;

/// The frame of a round's pictures, and the regions in it.
#[derive(Drop)]
pub struct FrameGeometry {
    /// The regions, in luma samples.
    pub(crate) placed: Vec<Placed>,
    /// The layouts of the pictures.
    pub(crate) layouts: Vec<Numbers>,
    /// The frame's width in luma samples.
    pub(crate) width: u32,
    /// The frame's height in luma samples.
    pub(crate) height: u32,
    /// The frame's tile lines, the slices of all pictures, and the regions in CTUs.
    pub numbers: Numbers,
}

/// The regions of a frame, and its tile lines.
#[derive(Drop)]
struct FrameRegions {
    /// The regions, in luma samples.
    placed: Vec<Placed>,
    /// The regions, in CTUs.
    regions: Vec<Rect>,
    /// The frame's width in luma samples.
    width: u32,
    /// The frame's height in luma samples.
    height: u32,
    /// The bounds of the frame's tile columns.
    columns: Bounds,
    /// The bounds of the frame's tile rows.
    rows: Bounds,
}

// ---- slices

/// Returns a rectangle counted from a region's corner as one counted from the frame's.
fn moved(rect: Rect, corner: Rect) -> Rect
    requires { (rect.x + corner.x ≤ 65536) × (rect.y + corner.y ≤ 65536) }
    ensures { result ≡ moved_to corner rect }
{
    Rect {
        x: rect.x + corner.x,
        y: rect.y + corner.y,
        w: rect.w,
        h: rect.h,
    }
}

/// Appends the slices of a picture in a region.
fn push_slices(slices: &mut RectList, corner: Rect, picture: &Numbers) -> Result<(), AllocError>
    requires part { IsPart 512 512 corner }
    requires fills { Fills corner picture.now.slices }
    ensures { OnOk result (slices.new ≡ slices.old ++ map (moved_to corner) picture.now.slices) }
{
    for i in 0..picture.slices.len() {
        slices.push(moved(picture.slices.item(i), corner))?;
    }
    Ok(())
}

/// Returns the slices of the pictures, in the order of the regions.
fn all_slices(alloc: Global, corners: &[Rect], pictures: &[Numbers]) -> Result<RectList, AllocError>
    requires same { length corners.now ≡ length pictures.now }
    requires parts { All (IsPart 512 512) corners.now }
    requires fill { AllZip (λ region picture. Fills region picture.slices) corners.now pictures.now }
    ensures { IfOk result (λ slices. slices ≡ frames.frame_slices corners.now (map (λ p. p.slices) pictures.now)) }
{
    let mut slices = RectList::new(alloc);
    for k in 0..pictures.len() {
        push_slices(&mut slices, corners[k], &pictures[k])?;
    }
    Ok(slices)
}

// ---- the rules on sets

/// Makes the regions and tile lines of the frame of a round.
///
/// The pictures of the round have one subpicture each and CTUs of one size.
fn frame_regions(
    alloc: Global,
    corners: &[Corner],
    layouts: &[Numbers],
    round: &[Picture<'_>],
) -> Result<FrameRegions, WriteError>
    requires corners { AreCorners corners.now }
    requires same { length corners.now ≡ length round.now }
    requires layouts { layouts.now ≡ words.layouts_in round.now }
    requires sets { All AreInForce round.now }
    requires alone { Finds (length round.now) (rules.several_subpictures round.now ∷ []) None }
    requires alike { Finds (length round.now) (rules.sps_tools round.now ∷ []) None }
    ensures { Tries (length round.now) (rules.rules_of_frame corners.now round.now) (AreRegionsOf corners.now round.now) result }
{
    sets_tell_partitions();
    let placed = placed(alloc, corners, round)?;
    let ctb = ctb_of(round);
    let areas = placed.as_slice();
    let (width, height) = frame_size(areas, ctb)?;
    let regions = in_ctus(alloc, areas, ctb)?;
    let (columns, rows) = frame_lines(alloc, regions.as_slice(), layouts)?;
    Ok(FrameRegions {
        placed,
        regions,
        width,
        height,
        columns,
        rows,
    })
}

/// Returns the size of source 0's CTUs.
fn ctb_of(round: &[Picture<'_>]) -> u32
    requires { 0 < length round.now }
    ensures value { result ≡ words.ctb_of round.now }
    ensures some { 1 ≤ result }
{
    round[0].sps().ctb()
}

/// Makes what [`frame_regions`] makes, if the sets break no rule.
fn tried_regions(
    alloc: Global,
    corners: &[Corner],
    layouts: &[Numbers],
    round: &[Picture<'_>],
) -> Result<FrameRegions, WriteError>
    requires corners { AreCorners corners.now }
    requires same { length corners.now ≡ length round.now }
    requires layouts { layouts.now ≡ words.layouts_in round.now }
    requires sets { All AreInForce round.now }
    ensures { Tries (length round.now) (rules.rules_of_sets corners.now round.now) (HaveRegions corners.now round.now) result }
{
    sets_tell_partitions();
    read_slices_are_listable();
    region_is_layout();
    region_is_listable();
    fit_fault_is_one();
    lines_are_one();
    if let Some(refusal) = several_subpictures(round) {
        return Err(WriteError::Refused(refusal));
    }
    let of_sps = sps_tools(alloc, round)?;
    if let Some(refusal) = of_sps {
        return Err(WriteError::Refused(refusal));
    }
    let regions = frame_regions(alloc, corners, layouts, round)?;
    if let Some(refusal) = too_many_slices(round) {
        return Err(WriteError::Refused(refusal));
    }
    Ok(regions)
}

// ---- the frame

/// Makes the numbers of the frame with these tile lines and the pictures in its regions.
fn numbers_of(
    alloc: Global,
    columns: Bounds,
    rows: Bounds,
    corners: &[Rect],
    pictures: &[Numbers],
) -> Result<Numbers, AllocError>
    requires same { length corners.now ≡ length pictures.now }
    requires parts { All (IsPart 512 512) corners.now }
    requires fill { AllZip (λ region picture. Fills region picture.slices) corners.now pictures.now }
    ensures { IfOk result (λ numbers. numbers ≡ frames.frame_of columns rows corners.now pictures.now) }
{
    let slices = all_slices(alloc, corners, pictures)?;
    let mut subpics = RectList::new(alloc);
    subpics.extend_from_slice(corners)?;
    Ok(Numbers {
        columns,
        rows,
        slices,
        subpics,
    })
}

/// Makes the geometry of the frame of a round whose sets break no rule.
///
/// *Errors:* the first rule that the sets break, or lack of memory.
#[cold]
#[inline(never)]
pub(crate) fn frame_geometry(
    alloc: Global,
    corners: &[Corner],
    round: &[Picture<'_>],
) -> Result<FrameGeometry, WriteError>
    requires corners { AreCorners corners.now }
    requires same { length corners.now ≡ length round.now }
    ensures { Tries (length round.now) (rules.rules_of_sets corners.now round.now) (IsRoundGeometry corners.now round.now) result }
{
    frames_have_shapes();
    let layouts = layouts(alloc, round)?;
    let parts = layouts.as_slice();
    let tried = tried_regions(alloc, corners, parts, round)?;
    let FrameRegions {
        placed,
        regions,
        width,
        height,
        columns,
        rows,
    } = tried;
    let numbers = numbers_of(alloc, columns, rows, regions.as_slice(), parts)?;
    Ok(FrameGeometry {
        placed,
        layouts,
        width,
        height,
        numbers,
    })
}
