//! Regions of a frame, and the faults for which they don't fit together.
ghost use Rattle.std.specs.Prelude.{◌≡◌, ◌+◌, ◌*◌, ◌%◌, ◌<◌, ◌≤◌, ◌^◌};
ghost use Rattle.std.specs.Bool.{OnTrue, OnFalse};
ghost use Rattle.vx_fit.specs.Placing.{IsInRange, IsOnGrid, in_ctus};
ghost use Rattle.vx_fit.specs.inner.Searches.{overlaps};

use thiserror::Error;
use vx_layout::Rect;

/// A region of a frame: its corner and its size, in luma samples.
#[derive(Clone, Copy, PartialEq, Eq)]
pub struct Placed {
    /// The column of its left samples.
    pub x: u32,
    /// The row of its upper samples.
    pub y: u32,
    /// Its width in samples.
    pub w: u32,
    /// Its height in samples.
    pub h: u32,
}

/// The greatest width and height of a frame, in luma samples.
pub const GREATEST_SIZE: u32 = 16384;

/// The reason why regions don't fit together into a frame. A region is named by its index.
#[derive(Clone, Copy, Debug, PartialEq, Eq, Error)]
pub enum FitFault {
    /// The frame is wider or higher than [`GREATEST_SIZE`].
    #[error("the frame is too large")]
    TooLarge,
    /// The lowest region whose corner isn't on the grid of CTUs; otherwise the lowest that overlaps one before it;
    /// otherwise 0, if a position of the frame is in no region.
    #[error("region {0} doesn't fit into the frame")]
    Geometry(u16),
    /// The lowest region with a CTU whose left or upper neighbour lies in a later region.
    #[error("region {0} comes too early")]
    Order(u16),
}

impl Placed {
    /// Returns the column just after it.
    pub(crate) fn right(&self) -> u32
        requires { IsInRange self.now }
        ensures { result ≡ self.now.x + self.now.w }
    {
        self.x + self.w
    }

    /// Returns the row just below it.
    pub(crate) fn bottom(&self) -> u32
        requires { IsInRange self.now }
        ensures { result ≡ self.now.y + self.now.h }
    {
        self.y + self.h
    }

    /// Returns the number of positions that it covers.
    pub(crate) fn area(&self) -> u64
        requires { IsInRange self.now }
        ensures { result ≡ self.now.w * self.now.h }
    {
        u64::from(self.w) * u64::from(self.h)
    }

    /// Returns whether its corner is on the grid of CTUs of `ctb` times `ctb` samples.
    pub(crate) fn is_on_grid(&self, ctb: u32) -> bool
        requires { 1 ≤ ctb }
        ensures on { OnTrue result (IsOnGrid ctb self.now) }
        ensures off { OnFalse result (¬ IsOnGrid ctb self.now) }
    {
        self.x % ctb == 0 && self.y % ctb == 0
    }

    /// Returns whether both cover a position.
    #[tactic(auto, unfolding(crate::specs::inner::Searches::overlaps))]
    pub(crate) fn overlaps(&self, other: &Placed) -> bool
        requires { IsInRange self.now × IsInRange other.now }
        ensures { result ≡ overlaps self.now other.now }
    {
        self.x.max(other.x) < self.right().min(other.right())
            && self.y.max(other.y) < self.bottom().min(other.bottom())
    }

    /// Returns its CTUs; a last one that is cut off counts as whole.
    pub fn in_ctus(&self, ctb: u32) -> Rect
        requires { 1 ≤ ctb }
        ensures { result ≡ in_ctus ctb self.now }
    {
        Rect {
            x: self.x / ctb,
            y: self.y / ctb,
            w: self.w.div_ceil(ctb),
            h: self.h.div_ceil(ctb),
        }
    }
}
