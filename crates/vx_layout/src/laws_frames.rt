//! Laws on a frame that is composed of several pictures. A law is a function that does nothing; its contract states it.
ghost use Rattle.std.specs.Prelude.{◌≡◌};
ghost use Rattle.vx_layout.specs.laws.Frames.{CutBoundsAreOwn, FillsByIndex, FirstBegins, FrameAloneIsLayout, FrameHasPictures, FrameIsLayout, FrameIsListable, FrameSlicesAreInOrder, FrameSlicesCoverOnce, FrameSlicesFit, FrameSlicesGrow, FrameSlicesOfRegion, FrameSlicesOfRegionCounted, FrameSlicesStandInOrder, LastEnds, MovingUndoesCounting, PlacedByIndex, PlacedFills, RunsFillTiles, SplitByBorders};
ghost use Rattle.vx_layout.specs.Regions.{counted_from, moved_to};
ghost use Rattle.vx_layout.specs.declared.rect.Rect.{Rect};

/// If a rectangle is moved to a corner and counted from it, then it is unchanged; so is one that is counted from a corner
/// and moved back.
pub fn moving_undoes_counting()
    ensures moved { (corner r : Rect) → counted_from corner (moved_to corner r) ≡ r }
    ensures counted { MovingUndoesCounting }
{}

/// Tiles and a part of the picture split one another well if and only if the part's borders allow it. Its left and right
/// borders are bounds, and its upper and lower borders are too, or no bound at all passes through it.
pub fn split_by_borders()
    ensures { SplitByBorders }
{}

/// If the bounds strictly inside a region are a picture's own, then so are the bounds that are cut to the region.
pub fn cut_bounds_are_own()
    ensures { CutBoundsAreOwn }
{}

/// If rectangles cover a picture once and are in order, then the first one begins it, and the last one ends it, provided
/// that they are parts of it.
pub fn first_begins_and_last_ends()
    ensures first { FirstBegins }
    ensures last { LastEnds }
{}

/// If a picture is placed in a region, then it fills the region with its slices.
pub fn placed_fills()
    ensures { PlacedFills }
{}

/// If slices fill the regions with their index, then they do so pair by pair; and so for pictures that are placed in them.
pub fn pictures_by_index()
    ensures fill { FillsByIndex }
    ensures placed { PlacedByIndex }
{}

/// If the regions cover a frame once, and the slices of each picture make up the picture, then the frame's slices cover it
/// once.
pub fn frame_slices_cover_once()
    ensures { FrameSlicesCoverOnce }
{}

/// If the regions are in order, and the slices of each picture are, then so are the frame's slices; region by region they
/// are the frame's slice list itself.
pub fn frame_slices_stand_in_order()
    ensures order { FrameSlicesStandInOrder }
    ensures same { FrameSlicesAreInOrder }
{}

/// If regions cover a frame and pictures fill them, then the frame's slices in a region are those of the picture there,
/// moved to the region's corner. Counted from the corner they are the picture's own.
pub fn frame_slices_of_region()
    ensures slices { FrameSlicesOfRegion }
    ensures counted { FrameSlicesOfRegionCounted }
{}

/// If pictures fill the regions, then each slice of the frame lies in a region.
pub fn frame_slices_fit()
    ensures { FrameSlicesFit }
{}

/// If one more region is added, then its slices come after those so far.
pub fn frame_slices_grow()
    ensures { FrameSlicesGrow }
{}

/// If pictures are placed in the regions of a frame, and the regions cover it and are in order, then they make up a layout,
/// and each picture is the layout's region.
pub fn frame_is_layout()
    ensures layout { FrameIsLayout }
    ensures regions { FrameHasPictures }
{}

/// If such a frame has a region, then it is also a layout as one subpicture.
pub fn frame_alone_is_layout()
    ensures { FrameAloneIsLayout }
{}

/// If regions cover a frame once, in order, then the regions of one tile are next to each other in the list. Their borders
/// must split the tiles well, and each must begin at a tile row or be directly below the one before it.
pub fn runs_fill_tiles()
    ensures { RunsFillTiles }
{}

/// If each picture's slices can be listed tile by tile, then so can the frame's. The regions of one tile must be next to
/// each other.
pub fn frame_is_listable()
    ensures { FrameIsListable }
{}
