//! Rectangles of CTUs, and lists of them.
ghost use Rattle.std.specs.Prelude.{◌≡◌, ◌==◌, ◌+◌, ◌<◌, ◌≤◌, ◌↔◌, ◌&&◌, ◌||◌, IsTrue, nat_le, nat_lt};
ghost use Rattle.std.specs.Bool.{OnTrue, OnFalse};
ghost use Rattle.vx_layout.specs.Regions.{counted_from};
ghost use Rattle.vx_layout.specs.Rects.{IsPart, Precedes, fits, holds};
ghost use Rattle.vx_layout.specs.inner.Neighbours.{meet, precedes};

use vx_bits::CopyList;

/// A rectangle of CTUs: its left column, its upper row, its width and its height.
#[derive(Clone, Copy, PartialEq, Eq)]
pub struct Rect {
    /// The column of its left CTUs.
    pub x: u32,
    /// The row of its upper CTUs.
    pub y: u32,
    /// Its width in CTUs.
    pub w: u32,
    /// Its height in CTUs.
    pub h: u32,
}

/// A list of rectangles, such as the slices or the subpictures of a picture.
pub type RectList = CopyList<Rect>;

impl Rect {
    /// Returns whether it has no CTU.
    pub fn is_empty(&self) -> bool
        ensures { result ≡ (self.now.w == 0 || self.now.h == 0) }
    {
        self.w == 0 || self.h == 0
    }

    /// Returns whether the CTU in column `x` and row `y` lies in it.
    #[tactic(auto, unfolding(crate::specs::Rects::holds))]
    pub fn holds(&self, x: u32, y: u32) -> bool
        ensures { result ≡ holds self.now x y }
    {
        is_among(x, self.x, self.w) && is_among(y, self.y, self.h)
    }

    /// Returns whether all its CTUs lie in `outer`.
    #[tactic(auto, unfolding(crate::specs::Rects::fits))]
    pub fn fits(&self, outer: &Rect) -> bool
        ensures { result ≡ fits self.now outer.now }
    {
        self.is_empty() || self.is_inside(outer)
    }

    /// Returns whether it has a CTU and lies in a picture of `width` times `height` CTUs.
    pub fn is_part_of(&self, width: u32, height: u32) -> bool
        ensures inside { OnTrue result (IsPart width height self.now) }
        ensures outside { OnFalse result (¬ IsPart width height self.now) }
    {
        ends_by(self.x, self.w, width) && ends_by(self.y, self.h, height)
    }

    /// Returns whether none of its CTUs has its left or its upper neighbour in `later`.
    pub fn precedes(&self, later: &Rect) -> bool
        ensures order { OnTrue result (Precedes self.now later.now) }
        ensures disorder { OnFalse result (¬ Precedes self.now later.now) }
    {
        precedes(*self, *later)
    }

    /// Returns the same rectangle, counted from the corner of another.
    pub fn counted_from(&self, corner: Rect) -> Rect
        ensures { result ≡ counted_from corner self.now }
    {
        Rect {
            x: self.x.saturating_sub(corner.x),
            y: self.y.saturating_sub(corner.y),
            w: self.w,
            h: self.h,
        }
    }

    /// Returns whether its borders lie in `outer`.
    fn is_inside(&self, outer: &Rect) -> bool
        ensures { result ≡ ((nat_le outer.now.x self.now.x && nat_le (self.now.x + self.now.w) (outer.now.x + outer.now.w)) && (nat_le outer.now.y self.now.y && nat_le (self.now.y + self.now.h) (outer.now.y + outer.now.h))) }
    {
        is_part(self.x, self.w, outer.x, outer.w) && is_part(self.y, self.h, outer.y, outer.h)
    }
}

/// Returns whether `n` is one of the `size` numbers from `from` on.
fn is_among(n: u32, from: u32, size: u32) -> bool
    ensures { result ≡ (nat_le from n && nat_lt n (from + size)) }
{
    from <= n && u64::from(n) < u64::from(from) + u64::from(size)
}

/// Returns whether the `size` numbers from `from` on are among the `outer_size` from `outer` on.
fn is_part(from: u32, size: u32, outer: u32, outer_size: u32) -> bool
    ensures { result ≡ (nat_le outer from && nat_le (from + size) (outer + outer_size)) }
{
    outer <= from && u64::from(from) + u64::from(size) <= u64::from(outer) + u64::from(outer_size)
}

/// Returns whether `size` isn't 0 and the `size` numbers from `from` on are all below `limit`.
fn ends_by(from: u32, size: u32, limit: u32) -> bool
    ensures { IsTrue result ↔ ((0 < size) × (from + size ≤ limit)) }
{
    0 < size && u64::from(from) + u64::from(size) <= u64::from(limit)
}

/// Returns whether no CTU of `r` has its left or its upper neighbour in `s`, by their borders.
#[tactic(auto, unfolding(crate::specs::inner::Neighbours::precedes))]
fn precedes(r: Rect, s: Rect) -> bool
    ensures { result ≡ precedes r s }
{
    let beside = meet(r.x, r.w, s.x, s.w, 1) && meet(r.y, r.h, s.y, s.h, 0);
    let below = meet(r.x, r.w, s.x, s.w, 0) && meet(r.y, r.h, s.y, s.h, 1);
    !beside && !below
}

/// Returns whether one of the `size` numbers from `from` on is `step` above one of the `other_size` numbers from `other`
/// on.
#[tactic(auto, unfolding(crate::specs::inner::Neighbours::meet))]
fn meet(from: u32, size: u32, other: u32, other_size: u32, step: u32) -> bool
    requires { step ≤ 1 }
    ensures { result ≡ meet from size other other_size step }
{
    let (low, high) = (u64::from(from), u64::from(from) + u64::from(size));
    let (other_low, other_high) = (
        u64::from(other) + u64::from(step),
        u64::from(other) + u64::from(other_size) + u64::from(step),
    );
    low.max(other_low) < high.min(other_high)
}
