//! Corners as C passes them.
ghost use Rattle.std.specs.Prelude.{◌≡◌, map, IfOk};
ghost use Rattle.vx_c.specs.Merger.{corner_of};

use std::alloc::{AllocError, Global};
use vx_merge::Corner;

/// The upper left corner of a region, in luma samples.
#[repr(C)]
#[derive(Clone, Copy)]
pub struct GqCorner {
    pub x: u32,
    pub y: u32,
}

/// Returns the corner of a region.
fn corner_in(corner: GqCorner) -> Corner
    ensures { result ≡ corner_of corner }
{
    Corner {
        x: corner.x,
        y: corner.y,
    }
}

#[tactic(auto, using(crate::proofs::CornerLists::more, crate::proofs::CornerLists::all))]
/// Returns the corners of regions, in order.
pub(crate) fn corners_in(alloc: Global, corners: &[GqCorner]) -> Result<Vec<Corner>, AllocError>
    ensures { IfOk result (λ made. made.items ≡ map corner_of corners.now) }
{
    let mut made = Vec::new(alloc);
    for corner in corners {
        made.push(corner_in(*corner))?;
    }
    Ok(made)
}
