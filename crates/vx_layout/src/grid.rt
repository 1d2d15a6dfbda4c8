//! The CTUs of a picture with a mark at each, on which rectangles are painted.
ghost use Rattle.std.specs.Prelude.{◌≡◌, ◌==◌, ℕ, ◌+◌, ◌*◌, ◌<◌, ◌≤◌, ◌≢◌, ◌^◌, min, length, vec_len, IfOk, MatchOption};

use crate::rect::Rect;
use std::alloc::{AllocError, Global};

/// A number at each CTU of a picture, row by row.
#[derive(Drop)]
pub struct Grid {
    width: usize,
    height: usize,
    marks: Vec<u32>,
    ghost small: { (width ≤ 512) × (height ≤ 512) },
    ghost whole: { vec_len marks ≡ height * width },
}

impl Grid {
    ghost use Rattle.std.specs.Prelude.{◌≡◌, ◌↔◌, IsTrue, ℕ, ◌+◌, ◌*◌, ◌<◌, ◌≤◌, ◌≢◌, length, IfOk};
    ghost use Rattle.std.specs.Bool.{OnTrue, OnFalse};
    ghost use Rattle.vx_layout.specs.inner.Marks.{IsBare, IsRising, IsTaken, IsTakenIn, Paints, PaintsRect, RisesAt, mark_at};

    /// Returns a picture with the mark 0 at each CTU.
    #[tactic(auto, unfolding(crate::specs::inner::Marks::mark_at))]
    pub fn new(alloc: Global, width: usize, height: usize) -> Result<Grid, AllocError>
        requires { (width ≤ 512) × (height ≤ 512) }
        ensures size { IfOk result (λ g. (g.width ≡ width) × (g.height ≡ height)) }
        ensures blank { IfOk result (λ g. (x y : ℕ) → mark_at g x y ≡ 0) }
    {
        Ok(Grid {
            width,
            height,
            marks: vec![in alloc; 0; height * width]?,
        })
    }

    /// Returns whether a CTU lies in the picture.
    pub fn has(&self, x: usize, y: usize) -> bool
        ensures { IsTrue result ↔ ((x < self.now.width) × (y < self.now.height)) }
    {
        x < self.width && y < self.height
    }

    /// Returns the mark of a CTU.
    #[tactic(auto, unfolding(crate::specs::inner::Marks::mark_at))]
    pub fn at(&self, x: usize, y: usize) -> u32
        requires { (x < self.now.width) × (y < self.now.height) }
        ensures { result ≡ mark_at self.now x y }
    {
        self.marks[y * self.width + x]
    }

    /// Sets the mark of a CTU.
    #[tactic(auto, unfolding(crate::specs::inner::Marks::mark_at))]
    fn set(&mut self, x: usize, y: usize, mark: u32)
        requires { (x < self.old.width) × (y < self.old.height) }
        ensures width { self.new.width ≡ self.old.width }
        ensures height { self.new.height ≡ self.old.height }
        ensures here { mark_at self.new x y ≡ mark }
        ensures same_row { (column row : ℕ) → column < self.old.width → column ≢ x → mark_at self.new column row ≡ mark_at self.old column row }
        ensures other_rows { (column row : ℕ) → column < self.old.width → row ≢ y → mark_at self.new column row ≡ mark_at self.old column row }
    {
        let place = y * self.width + x;
        self.marks[place] = mark;
    }

    /// Paints a part of a row, and returns whether no CTU of it had a mark.
    fn paint_row(&mut self, y: usize, left: usize, right: usize, mark: u32) -> bool
        requires { (left ≤ right) × (right ≤ self.old.width) × (y < self.old.height) }
        ensures painted { OnTrue result (Paints self.old self.new left right y (y + 1) mark) }
        ensures taken { OnFalse result (IsTaken self.old left right y (y + 1)) }
    {
        for x in left..right {
            if self.at(x, y) != 0 {
                return false;
            }
            self.set(x, y, mark);
        }
        true
    }

    /// Paints columns of some rows, and returns whether no CTU of them had a mark.
    fn paint_rows(&mut self, columns: (usize, usize), rows: (usize, usize), mark: u32) -> bool
        requires columns { (columns.0 ≤ columns.1) × (columns.1 ≤ self.old.width) }
        requires rows { (rows.0 ≤ rows.1) × (rows.1 ≤ self.old.height) }
        ensures painted { OnTrue result (Paints self.old self.new columns.0 columns.1 rows.0 rows.1 mark) }
        ensures taken { OnFalse result (IsTaken self.old columns.0 columns.1 rows.0 rows.1) }
    {
        for y in rows.0..rows.1 {
            if !self.paint_row(y, columns.0, columns.1, mark) {
                return false;
            }
        }
        true
    }

    /// Paints the part of a rectangle that lies in the picture, and returns whether no CTU of it had a mark.
    pub fn paint(&mut self, rect: Rect, mark: u32) -> bool
        ensures painted { OnTrue result (PaintsRect self.old self.new rect mark) }
        ensures taken { OnFalse result (IsTakenIn self.old rect) }
    {
        let columns = clip(rect.x, rect.w, self.width);
        let rows = clip(rect.y, rect.h, self.height);
        self.paint_rows(columns, rows, mark)
    }

    /// Returns whether each CTU of a row has a mark.
    fn is_row_marked(&self, y: usize) -> bool
        requires { y < self.now.height }
        ensures marked { OnTrue result ((x : ℕ) → x < self.now.width → mark_at self.now x y ≢ 0) }
        ensures bare { OnFalse result ((x : ℕ) × (x < self.now.width) × (mark_at self.now x y ≡ 0)) }
    {
        for x in 0..self.width {
            if self.at(x, y) == 0 {
                return false;
            }
        }
        true
    }

    /// Returns whether each CTU has a mark.
    pub fn is_marked(&self) -> bool
        ensures marked { OnTrue result ((x y : ℕ) → x < self.now.width → y < self.now.height → mark_at self.now x y ≢ 0) }
        ensures bare { OnFalse result (IsBare self.now) }
    {
        for y in 0..self.height {
            if !self.is_row_marked(y) {
                return false;
            }
        }
        true
    }

    /// Returns whether the left and upper neighbours of a CTU have no higher mark.
    fn rises_at(&self, x: usize, y: usize) -> bool
        requires { (x < self.now.width) × (y < self.now.height) }
        ensures rises { OnTrue result (RisesAt self.now x y) }
        ensures falls { OnFalse result (¬ RisesAt self.now x y) }
    {
        let mark = self.at(x, y);
        if x > 0 && self.at(x - 1, y) > mark {
            return false;
        }
        if y > 0 && self.at(x, y - 1) > mark {
            return false;
        }
        true
    }

    /// Returns whether no CTU of a row has a left or upper neighbour with a higher mark.
    fn row_rises(&self, y: usize) -> bool
        requires { y < self.now.height }
        ensures rises { OnTrue result ((x : ℕ) → x < self.now.width → RisesAt self.now x y) }
        ensures falls { OnFalse result (¬ ((x : ℕ) → x < self.now.width → RisesAt self.now x y)) }
    {
        for x in 0..self.width {
            if !self.rises_at(x, y) {
                return false;
            }
        }
        true
    }

    /// Returns whether no CTU has a left or upper neighbour with a higher mark.
    pub fn is_rising(&self) -> bool
        ensures rises { OnTrue result (IsRising self.now) }
        ensures falls { OnFalse result (¬ IsRising self.now) }
    {
        for y in 0..self.height {
            if !self.row_rises(y) {
                return false;
            }
        }
        true
    }
}

/// Returns the start and the end of the `size` numbers from `from` on, cut at `limit`.
fn clip(from: u32, size: u32, limit: usize) -> (usize, usize)
    ensures { result ≡ (min from limit, min (from + size) limit) }
{
    let from = from as usize;
    (from.min(limit), (from + size as usize).min(limit))
}
