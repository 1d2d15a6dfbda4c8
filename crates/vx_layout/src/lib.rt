//! Tiles, slices and subpictures of a picture, in CTUs (H.266 6.5.1).
//!
//! [`Numbers`] holds the tile bounds, slices and subpictures that the parameter sets signal. [`Layout::new`]
//! checks them, and returns a [`LayoutError`] with the lowest fault if there is one. A [`Layout`] gives the
//! slices of each subpicture by address, and the numbers of a subpicture as a layout of its own.
//! [`tile_bounds`] computes tile bounds from the signalled sizes.
//!
//! `specs/Layouts.antt` defines layouts, `specs/Faults.antt` the rules on them, `specs/Borders.antt` and
//! `specs/Bounds.antt` tile bounds, `specs/Frames.antt` and `specs/Regions.antt` the layouts of frames and
//! regions.
#![tactic(auto)]

mod bounds;
mod entry;
mod faults;
mod grid;
mod groups;
mod laws;
mod laws_frames;
mod layout;
mod lines;
mod numbers;
mod paint;
mod rect;
mod region;

pub use bounds::{Bounds, TileError, tile_bounds};
pub use laws::{
    bounds_by_members, bounds_by_sizes, bounds_reach_total, fits_by_ctus, heights_are_read_back,
    in_order_covers_once, listed_are_sizes, lowest_fault_is_one, region_is_layout,
    region_is_listable, region_keeps_slices, regions_nest, slices_begin_and_end,
    slices_cover_subpicture, slices_run_right_and_down,
};
pub use laws_frames::{
    cut_bounds_are_own, first_begins_and_last_ends, frame_alone_is_layout, frame_is_layout,
    frame_is_listable, frame_slices_cover_once, frame_slices_fit, frame_slices_grow,
    frame_slices_of_region, frame_slices_stand_in_order, moving_undoes_counting, pictures_by_index,
    placed_fills, runs_fill_tiles, split_by_borders,
};
pub use layout::Layout;
pub use numbers::{
    LayoutError, Numbers, ORDER_FAULT, SLICE_COVER_FAULT, SLICE_SPLIT_FAULT, SUBPICS_FAULT,
    TILE_SPLIT_FAULT,
};
pub use rect::{Rect, RectList};
