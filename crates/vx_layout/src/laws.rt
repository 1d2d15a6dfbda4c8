//! Laws on layouts and on tile bounds. A law is a function that does nothing; its contract states it.
ghost use Rattle.std.specs.Prelude.{◌≡◌, ℕ, ◌-◌, ◌<◌, ◌≤◌, ◌↔◌, true, List, ◌∷◌, All, length, sum};
ghost use Rattle.vx_layout.specs.Bounds.{Rises, last, sizes_between, sums_after};
ghost use Rattle.vx_layout.specs.Faults.{LiesIn};
ghost use Rattle.vx_layout.specs.Heights.{written_heights};
ghost use Rattle.vx_layout.specs.laws.Layouts.{BoundsByMembers, BoundsReachTotal, CutsNest, FirstSliceBegins, HeightsAreReadBack, InOrderCoversOnce, LastSliceEnds, LayoutHasNoFault, ListedAreSizes, ListedGiveSums, LowestFaultIsOne, RegionIsListable, RegionKeepsCtus, RegionKeepsSlices, BoundsBySizes, SlicesCoverSubpicture, SlicesLieInPicture, SlicesRunRightAndDown};
ghost use Rattle.vx_layout.specs.Layouts.{HasLayout};
ghost use Rattle.vx_layout.specs.Rects.{fits};
ghost use Rattle.vx_layout.specs.Regions.{region_of};
ghost use Rattle.vx_layout.specs.declared.numbers.Numbers.{Numbers};
ghost use Rattle.vx_layout.specs.declared.rect.Rect.{Rect};

/// If numbers have a lowest fault, then they have no other one; and a layout has none.
pub fn lowest_fault_is_one()
    ensures one { LowestFaultIsOne }
    ensures none { LayoutHasNoFault }
{}

/// If the slices of a layout are ordered by subpicture and then by their place in the slice list, then they cover the
/// picture once.
pub fn in_order_covers_once()
    ensures { InOrderCoversOnce }
{}

/// If numbers are a layout, then the slices of a subpicture cover it once, and nothing of the picture outside it.
pub fn slices_cover_subpicture()
    ensures { SlicesCoverSubpicture }
{}

/// If numbers are a layout, then its slices lie in the picture and their order runs right and down. Of two slices, the one
/// with a CTU further left and further up, or level, comes first. So the picture's upper left CTU lies in the first slice
/// that has a CTU, and the lower right one in the last.
pub fn slices_run_right_and_down()
    ensures inside { SlicesLieInPicture }
    ensures order { SlicesRunRightAndDown }
{}

/// If they have CTUs, then the first slice of a layout's first subpicture begins the picture, and the last slice of the
/// last subpicture ends it.
pub fn slices_begin_and_end()
    ensures first { FirstSliceBegins }
    ensures last { LastSliceEnds }
{}

/// If numbers are a layout, then the region of each of its subpictures is a layout.
pub fn region_is_layout()
    ensures { (n : Numbers) (k : ℕ) → HasLayout n → k < length n.subpics → HasLayout (region_of n k) }
{}

/// A region of a region is a region of the whole: bounds that are cut twice are cut once, and the only subpicture of a
/// region is the region.
pub fn regions_nest()
    ensures bounds { CutsNest }
    ensures region { (n : Numbers) (k : ℕ) → region_of (region_of n k) 0 ≡ region_of n k }
{}

/// If numbers are a layout, then the CTUs of a region's slices, in their order, are those of the subpicture's slices,
/// counted from its corner.
pub fn region_keeps_slices()
    ensures slices { RegionKeepsSlices }
    ensures ctus { RegionKeepsCtus }
{}

/// If a layout's slices can be listed tile by tile, then so can a region's. They have CTUs, are whole tiles or whole rows
/// of one tile, and those in one tile are next to each other in the list.
pub fn region_is_listable()
    ensures { RegionIsListable }
{}

/// A rectangle lies in another by its borders if and only if each of its CTUs does.
pub fn fits_by_ctus()
    ensures { (r s : Rect) → (fits r s ≡ true) ↔ LiesIn r s }
{}

/// If bounds have the same members, then they are the same.
pub fn bounds_by_members()
    ensures { BoundsByMembers }
{}

/// If explicit sizes fit, then the tile bounds rise from 0 to the total.
pub fn bounds_reach_total()
    ensures { BoundsReachTotal }
{}

/// If all sizes are listed, then they are the tile sizes, and the bounds are their partial sums.
pub fn listed_are_sizes()
    ensures sizes { ListedAreSizes }
    ensures bounds { ListedGiveSums }
{}

/// If the sizes between bounds are all listed, then they give the bounds again; and if bounds are partial sums, then the
/// sizes between them are the summands.
pub fn bounds_by_sizes()
    ensures count { (bounds : List ℕ) → length (sizes_between bounds) ≡ length bounds - 1 }
    ensures some { (bounds : List ℕ) → Rises bounds → All (λ size. 1 ≤ size) (sizes_between bounds) }
    ensures total { (bounds : List ℕ) → Rises bounds → sum (sizes_between bounds) ≡ last bounds }
    ensures bounds { BoundsBySizes }
    ensures sizes { (sizes : List ℕ) → sizes_between (0 ∷ sums_after 0 sizes) ≡ sizes }
{}

/// If heights are written for the slices of a tile, then all its heights are read back by the rule for tile sizes; and for
/// several slices at least one height is written.
pub fn heights_are_read_back()
    ensures read { HeightsAreReadBack }
    ensures some { (heights : List ℕ) → 2 ≤ length heights → 0 < length (written_heights heights) }
{}
