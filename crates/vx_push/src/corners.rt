//! The corners that a mixer may have.
ghost use Rattle.std.specs.Prelude.{◌↔◌, IsTrue};
ghost use Rattle.vx_frame.specs.Corners.{AreCorners, IsCorner};

use vx_merge::Corner;

/// The most corners, and the first coordinate that is too high.
const MOST_CORNERS: usize = 64;

const PLACES: u32 = 16_384;

/// Returns whether a region of a frame may have this corner.
fn is_corner(corner: Corner) -> bool
    ensures { IsTrue result ↔ IsCorner corner }
{
    if corner.x >= PLACES {
        return false;
    }
    corner.y < PLACES
}

/// Returns whether a mixer may have these corners: 1 to 64, with coordinates below 16,384 luma samples.
pub fn are_corners(corners: &[Corner]) -> bool
    ensures { IsTrue result ↔ AreCorners corners.now }
{
    if corners.is_empty() {
        return false;
    }
    if corners.len() > MOST_CORNERS {
        return false;
    }
    for k in 0..corners.len() {
        if !is_corner(corners[k]) {
            return false;
        }
    }
    true
}
