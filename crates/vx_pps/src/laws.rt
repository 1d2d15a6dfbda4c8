//! Laws of slices that a slice list can describe. A law is a function that does nothing; its contract states it.
ghost use Rattle.vx_pps.specs.laws.Lists.{ListsFallIntoGroups, FewFallIntoGroups, LayoutsAreLists, ListGivesSlices, SlicesAreReadBack, FewAreReadBack, BoundsAreReadBack};

/// If slices cover a picture in order, and a slice list can describe them, then they fall into groups that can be listed with
/// tile indices (H.266 7.3.2.5).
pub fn lists_fall_into_groups()
    ensures { ListsFallIntoGroups }
{}

/// If they are one or two, then they can be listed without tile indices.
pub fn few_fall_into_groups()
    ensures { FewFallIntoGroups }
{}

/// If a layout has one subpicture and a list can describe its slices, then they are such slices.
pub fn layouts_are_lists()
    ensures { LayoutsAreLists }
{}

/// If groups can be listed and are written, then their slices are read back.
pub fn list_gives_slices()
    ensures { ListGivesSlices }
{}

/// If a slice list can describe slices and they are written, then these slices are read back (H.266 7.3.2.5, 6.5.1).
pub fn slices_are_read_back()
    ensures { SlicesAreReadBack }
{}

/// The same holds for one or two slices if tile indices aren't coded.
pub fn few_are_read_back()
    ensures { FewAreReadBack }
{}

/// If the sizes of tile columns or rows are written, then they are read back, and their bounds are those of these sizes.
pub fn bounds_are_read_back()
    ensures { BoundsAreReadBack }
{}
