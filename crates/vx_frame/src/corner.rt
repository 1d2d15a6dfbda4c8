//! Where a region begins.

/// The upper left corner of a region, in luma samples.
#[derive(Clone, Copy, PartialEq, Eq)]
pub struct Corner {
    /// The column of the region's left samples.
    pub x: u32,
    /// The row of the region's upper samples.
    pub y: u32,
}
