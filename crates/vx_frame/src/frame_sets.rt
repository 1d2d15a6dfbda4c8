//! The SPS and the PPS that are sent for a frame.
ghost use Rattle.std.specs.Prelude.{◌≡◌, ◌<◌, IfOk};
ghost use Rattle.vx_sps.specs.Reshaped as sps_reshaped;
ghost use Rattle.vx_pps.specs.Reshaped as pps_reshaped;
ghost use Rattle.vx_frame.specs.Rounds.{picture_at};
ghost use Rattle.vx_frame.specs.Shapes as spec;
ghost use Rattle.vx_frame.specs.inner.Geometry.{IsSomeGeometry, OfGeometry};

use crate::borders::{Pieces, lowest_crosses};
use crate::geometry::FrameGeometry;
use crate::shapes::{dpb, init_qp, level_of, window};
use std::alloc::{AllocError, Global};
use vx_layout::{Bounds, Numbers, RectList};
use vx_pic::Picture;
use vx_pps::{Pps, PpsShape, Tiles, reshape_pps};
use vx_sps::{Sps, SpsShape, SubpicPlan, reshape_sps};

/// Copies rectangles.
fn copied(alloc: Global, rects: &RectList) -> Result<RectList, AllocError>
    ensures { IfOk result (λ copy. copy ≡ rects.now) }
{
    let mut copy = RectList::new(alloc);
    copy.extend_from_slice(rects.as_slice())?;
    Ok(copy)
}

/// Copies bounds.
fn copied_bounds(alloc: Global, bounds: &Bounds) -> Result<Bounds, AllocError>
    ensures { IfOk result (λ copy. copy ≡ bounds.now) }
{
    let mut copy = Bounds::new(alloc);
    for i in 0..bounds.len() {
        copy.push(bounds.item(i))?;
    }
    Ok(copy)
}

/// Copies the tile lines of a frame.
fn copied_tiles(alloc: Global, numbers: &Numbers) -> Result<Tiles, AllocError>
    ensures columns { IfOk result (λ copy. copy.columns ≡ numbers.now.columns) }
    ensures rows { IfOk result (λ copy. copy.rows ≡ numbers.now.rows) }
{
    let columns = copied_bounds(alloc, &numbers.columns)?;
    let rows = copied_bounds(alloc, &numbers.rows)?;
    Ok(Tiles { columns, rows })
}

/// Copies the numbers of a frame.
pub(crate) fn copied_numbers(alloc: Global, numbers: &Numbers) -> Result<Numbers, AllocError>
    ensures { IfOk result (λ copy. copy ≡ numbers.now) }
{
    let slices = copied(alloc, &numbers.slices)?;
    let subpics = copied(alloc, &numbers.subpics)?;
    let Tiles { columns, rows } = copied_tiles(alloc, numbers)?;
    Ok(Numbers {
        columns,
        rows,
        slices,
        subpics,
    })
}

/// Returns what the SPS says.
fn sps_shape(
    alloc: Global,
    round: &[Picture<'_>],
    frame: &FrameGeometry,
    level: Option<u8>,
) -> Result<SpsShape, AllocError>
    requires { IsSomeGeometry round.now frame.now }
    ensures { IfOk result (λ shape. OfGeometry round.now frame.now (λ corners. shape ≡ spec.frame_sps_shape corners round.now level)) }
{
    let placed = frame.placed.as_slice();
    let regions = copied(alloc, &frame.numbers.subpics)?;
    Ok(SpsShape {
        id: 0,
        width: frame.width,
        height: frame.height,
        window: window(placed, round, frame.width, frame.height),
        level: level_of(round, level),
        dpb: dpb(round),
        subpics: SubpicPlan::Many(regions),
    })
}

/// Makes the SPS of a frame, with this level or the highest of its pictures.
pub(crate) fn frame_sps(
    alloc: Global,
    round: &[Picture<'_>],
    frame: &FrameGeometry,
    level: Option<u8>,
) -> Result<Sps, AllocError>
    requires { IsSomeGeometry round.now frame.now }
    ensures { IfOk result (λ sps. OfGeometry round.now frame.now (λ corners. sps_reshaped.IsReshapedSps (picture_at round.now 0).sps (spec.frame_sps_shape corners round.now level) sps)) }
{
    let shape = sps_shape(alloc, round, frame, level)?;
    reshape_sps(alloc, round[0].sps(), &shape)
}

/// Returns what the PPS under an id says, with these tiles and slices.
fn pps_shape(
    round: &[Picture<'_>],
    frame: &FrameGeometry,
    id: u8,
    tiles: Tiles,
    slices: RectList,
) -> PpsShape
    requires frame { IsSomeGeometry round.now frame.now }
    requires columns { tiles.columns ≡ frame.now.numbers.columns }
    requires rows { tiles.rows ≡ frame.now.numbers.rows }
    requires slices { slices ≡ frame.now.numbers.slices }
    ensures { OfGeometry round.now frame.now (λ corners. result ≡ spec.frame_pps_shape corners round.now frame.now.numbers id) }
{
    let layouts = frame.layouts.as_slice();
    PpsShape {
        id,
        sps_id: 0,
        width: frame.width,
        height: frame.height,
        ctb: round[0].sps().ctb(),
        subpic_id: None,
        tiles,
        slices,
        across_tiles: lowest_crosses(round, layouts, Pieces::Tiles),
        across_slices: lowest_crosses(round, layouts, Pieces::Slices),
        init_qp: init_qp(&round[0]),
        merged: true,
    }
}

/// Makes the PPS under an id of a frame with these tiles and slices.
fn pps_with(
    alloc: Global,
    round: &[Picture<'_>],
    frame: &FrameGeometry,
    id: u8,
    tiles: Tiles,
    slices: RectList,
) -> Result<Pps, AllocError>
    requires frame { IsSomeGeometry round.now frame.now }
    requires id { id < 64 }
    requires columns { tiles.columns ≡ frame.now.numbers.columns }
    requires rows { tiles.rows ≡ frame.now.numbers.rows }
    requires slices { slices ≡ frame.now.numbers.slices }
    ensures { IfOk result (λ pps. OfGeometry round.now frame.now (λ corners. pps_reshaped.IsReshapedPps (picture_at round.now 0).pps (spec.frame_pps_shape corners round.now frame.now.numbers id) pps)) }
{
    let shape = pps_shape(round, frame, id, tiles, slices);
    reshape_pps(alloc, round[0].pps(), &shape)
}

/// Makes the PPS under an id of a frame.
pub(crate) fn frame_pps(
    alloc: Global,
    round: &[Picture<'_>],
    frame: &FrameGeometry,
    id: u8,
) -> Result<Pps, AllocError>
    requires frame { IsSomeGeometry round.now frame.now }
    requires id { id < 64 }
    ensures { IfOk result (λ pps. OfGeometry round.now frame.now (λ corners. pps_reshaped.IsReshapedPps (picture_at round.now 0).pps (spec.frame_pps_shape corners round.now frame.now.numbers id) pps)) }
{
    let slices = copied(alloc, &frame.numbers.slices)?;
    let tiles = copied_tiles(alloc, &frame.numbers)?;
    pps_with(alloc, round, frame, id, tiles, slices)
}
