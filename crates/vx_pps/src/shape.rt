//! The shape of a rewritten picture parameter set.

use crate::tiles::Tiles;
use vx_layout::RectList;

/// A description of the picture parameter set that is sent for a region of a source, or for a frame of several sources.
#[derive(Drop)]
pub struct PpsShape {
    /// Its id.
    pub id: u8,
    /// The id of its sequence parameter set.
    pub sps_id: u8,
    /// The width of a picture in luma samples.
    pub width: u32,
    /// The height of a picture in luma samples.
    pub height: u32,
    /// The size of a CTU in luma samples.
    pub ctb: u32,
    /// The subpicture's id, if it is in this set: the number of bits of an id, less 1, and the id.
    pub subpic_id: Option<(u32, u32)>,
    /// The tiles.
    pub tiles: Tiles,
    /// The slices, in the order in which they are listed.
    pub slices: RectList,
    /// Whether loop filters cross the borders of tiles.
    pub across_tiles: bool,
    /// Whether loop filters cross the borders of slices.
    pub across_slices: bool,
    /// The QP to which slices add, less 26, of a frame.
    pub init_qp: i32,
    /// Whether it is for a frame of several sources.
    pub merged: bool,
}
