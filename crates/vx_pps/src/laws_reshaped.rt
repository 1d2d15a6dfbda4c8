//! Laws of rewritten sets. A law is a function that does nothing; its contract states it.
ghost use Rattle.vx_pps.specs.Reshaped.{FrameKeeps, RegionKeeps, ReshapedHasItsTiles, ReshapedTells};

/// If a rewritten set is partitioned, then its tile columns, tile rows and slices are exactly the shape's (H.266 6.5.1).
pub fn reshaped_has_its_tiles()
    ensures { ReshapedHasItsTiles }
{}

/// If a set is rewritten, then it has what its shape says: ids, size, partitioning, CTU size, the flags for loop filters
/// across tiles and slices, and a frame's QP.
pub fn reshaped_tells()
    ensures { ReshapedTells }
{}

/// If a set is rewritten for a region, then it has the kept items of its source, also those in place of absent fields.
pub fn region_keeps()
    ensures { RegionKeeps }
{}

/// If a set is rewritten for a frame, then it has them too.
pub fn frame_keeps()
    ensures { FrameKeeps }
{}
