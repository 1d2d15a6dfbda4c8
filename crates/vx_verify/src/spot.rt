//! The place of a source in the finished picture.

/// The upper left corner of a source in the finished picture, in luma samples.
#[derive(Clone, Copy, PartialEq, Eq)]
pub struct Spot {
    /// The column of the source's left samples.
    pub x: u32,
    /// The row of the source's upper samples.
    pub y: u32,
}
