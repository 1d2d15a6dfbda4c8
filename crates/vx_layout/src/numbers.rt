//! The numbers of a picture's layout, and their faults.

use crate::bounds::Bounds;
use crate::rect::RectList;
use std::alloc::AllocError;
use thiserror::Error;

/// The tiles, slices and subpictures of a picture, in CTUs.
#[derive(Drop)]
pub struct Numbers {
    /// The bounds of the tile columns; the last is the picture's width.
    pub columns: Bounds,
    /// The bounds of the tile rows; the last is the picture's height.
    pub rows: Bounds,
    /// The slices, in the order of the slice list.
    pub slices: RectList,
    /// The subpictures, by their index.
    pub subpics: RectList,
}

/// A CTU lies in no subpicture or in two, or a subpicture extends past the picture or has no CTU.
pub const SUBPICS_FAULT: u8 = 3;
/// A tile and a subpicture share CTUs, and neither lies in the other as required.
pub const TILE_SPLIT_FAULT: u8 = 4;
/// A CTU lies in no slice or in two.
pub const SLICE_COVER_FAULT: u8 = 5;
/// A slice lies in no subpicture.
pub const SLICE_SPLIT_FAULT: u8 = 6;
/// A CTU's left or upper neighbour lies in a later slice.
pub const ORDER_FAULT: u8 = 7;

/// The reason why numbers are no layout.
#[derive(Clone, Copy, Debug, PartialEq, Eq, Error)]
pub enum LayoutError {
    /// Memory ran out.
    #[error("out of memory")]
    Memory,
    /// The lowest fault of the numbers, from [`SUBPICS_FAULT`] to [`ORDER_FAULT`].
    #[error("tiles, slices and subpictures are no layout")]
    Fault(u8),
}

impl From<AllocError> for LayoutError {
    ghost use Rattle.std.specs.Prelude.{◌≡◌};
    ghost use Rattle.vx_layout.specs.declared.numbers.LayoutError.TheVariants.{Memory as OutOfMemory};

    ghost from_gives = { λ _ e. e ≡ OutOfMemory };

    fn from(_error: AllocError) -> LayoutError {
        LayoutError::Memory
    }
}
