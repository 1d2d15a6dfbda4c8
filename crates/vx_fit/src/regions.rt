//! The check that regions fit together into one frame.
ghost use Rattle.std.specs.Prelude.{◌≡◌, ℕ, ◌+◌, ◌*◌, ◌<◌, ◌≤◌, All, IfOk, IfErr, OnOk, length};
ghost use Rattle.std.specs.Bool.{OnTrue, OnFalse};
ghost use Rattle.std.specs.List.{AllPairs};
ghost use Rattle.vx_fit.specs.FitFaults.{ComesTooEarly, HasGap, IsFitFault, IsOffGrid, OverlapsLower};
ghost use Rattle.vx_fit.specs.Placing.{FitTogether, IsFilled, IsInRange, Overlap, frame_height, frame_width, greatest_size};
ghost use Rattle.vx_fit.specs.Lowest.{IsLowestAnswer};
ghost use Rattle.vx_fit.specs.inner.Searches.{areas};

use crate::placed::{FitFault, GREATEST_SIZE, Placed};

/// Returns the width and height of the frame that regions make up, in luma samples.
///
/// CTUs have `ctb` times `ctb` samples. Regions fit if all of this holds:
///
/// - The frame is at most 16,384 wide and high.
/// - Each corner is on the grid of CTUs.
/// - No two regions overlap, and no position of the frame is free.
/// - No CTU has its left or upper neighbour in a later region.
///
/// Takes no memory, and time with the square of the number of regions.
///
/// # Errors
///
/// The first of the regions' faults, in the order of [`FitFault`](crate::FitFault), exactly if there is one.
pub fn fit_regions(placed: &[Placed], ctb: u32) -> Result<(u32, u32), FitFault>
    requires count { (1 ≤ length placed.now) × (length placed.now ≤ 64) }
    requires numbers { All IsInRange placed.now }
    requires ctb { 1 ≤ ctb }
    ensures size { IfOk result (λ size. (size.0 ≡ frame_width placed.now) × (size.1 ≡ frame_height placed.now)) }
    ensures fit { OnOk result (FitTogether placed.now ctb) }
    ensures fault { IfErr result (λ e. IsFitFault placed.now ctb e) }
{
    let (width, height) = (frame_width(placed), frame_height(placed));
    if GREATEST_SIZE < width || GREATEST_SIZE < height {
        return Err(FitFault::TooLarge);
    }
    if let Some(region) = lowest_off_grid(placed, ctb) {
        return Err(FitFault::Geometry(region));
    }
    if let Some(k) = lowest_overlap(placed) {
        return Err(FitFault::Geometry(k));
    }
    if leaves_gap(placed, width, height) {
        return Err(FitFault::Geometry(0));
    }
    if let Some(k) = lowest_early(placed, ctb) {
        return Err(FitFault::Order(k));
    }
    Ok((width, height))
}

/// Returns how far right the regions reach.
fn frame_width(placed: &[Placed]) -> u32
    requires { All IsInRange placed.now }
    ensures width { result ≡ frame_width placed.now }
    ensures limit { result ≤ 2 * greatest_size }
{
    let mut width = 0;
    for region in placed {
        width = region.right().max(width);
    }
    width
}

/// Returns how far down the regions reach.
fn frame_height(placed: &[Placed]) -> u32
    requires { All IsInRange placed.now }
    ensures height { result ≡ frame_height placed.now }
    ensures limit { result ≤ 2 * greatest_size }
{
    let mut height = 0;
    for region in placed {
        height = region.bottom().max(height);
    }
    height
}

/// Returns the lowest region whose corner is off the grid of CTUs.
fn lowest_off_grid(placed: &[Placed], ctb: u32) -> Option<u16>
    requires count { length placed.now ≤ 64 }
    requires ctb { 1 ≤ ctb }
    ensures { IsLowestAnswer (length placed.now) (IsOffGrid placed.now ctb) result }
{
    for (k, region) in placed.iter().enumerate() {
        if !region.is_on_grid(ctb) {
            return Some(k as u16);
        }
    }
    None
}

/// Returns the lowest region that overlaps one before it.
fn lowest_overlap(placed: &[Placed]) -> Option<u16>
    requires count { length placed.now ≤ 64 }
    requires numbers { All IsInRange placed.now }
    ensures { IsLowestAnswer (length placed.now) (OverlapsLower placed.now) result }
{
    for k in 0..placed.len() {
        if overlaps_lower(placed, k) {
            return Some(k as u16);
        }
    }
    None
}

/// Returns whether a region overlaps one before it.
fn overlaps_lower(placed: &[Placed], k: usize) -> bool
    requires place { k < length placed.now }
    requires numbers { All IsInRange placed.now }
    ensures some { OnTrue result (OverlapsLower placed.now k) }
    ensures none { OnFalse result (¬ OverlapsLower placed.now k) }
{
    for j in 0..k {
        if placed[j].overlaps(&placed[k]) {
            return true;
        }
    }
    false
}

/// Returns whether a position of the frame is in no region, if no two overlap: their areas don't add up to the frame's.
fn leaves_gap(placed: &[Placed], width: u32, height: u32) -> bool
    requires count { length placed.now ≤ 64 }
    requires numbers { All IsInRange placed.now }
    requires apart { AllPairs (λ p q. ¬ Overlap p q) placed.now }
    requires frame { (width ≡ frame_width placed.now) × (height ≡ frame_height placed.now) }
    ensures gap { OnTrue result (HasGap placed.now) }
    ensures filled { OnFalse result (IsFilled placed.now) }
{
    areas(placed) != u64::from(width) * u64::from(height)
}

/// Returns the sum of the regions' areas.
fn areas(placed: &[Placed]) -> u64
    requires count { length placed.now ≤ 64 }
    requires numbers { All IsInRange placed.now }
    ensures { result ≡ areas placed.now }
{
    let mut sum = 0;
    for region in placed {
        sum += region.area();
    }
    sum
}

/// Returns the lowest region that comes too early.
fn lowest_early(placed: &[Placed], ctb: u32) -> Option<u16>
    requires count { length placed.now ≤ 64 }
    requires ctb { 1 ≤ ctb }
    ensures { IsLowestAnswer (length placed.now) (ComesTooEarly placed.now ctb) result }
{
    for k in 0..placed.len() {
        if comes_too_early(placed, ctb, k) {
            return Some(k as u16);
        }
    }
    None
}

/// Returns whether a CTU of a region has its left or upper neighbour in a later one.
fn comes_too_early(placed: &[Placed], ctb: u32, k: usize) -> bool
    requires place { k < length placed.now }
    requires ctb { 1 ≤ ctb }
    ensures early { OnTrue result (ComesTooEarly placed.now ctb k) }
    ensures fine { OnFalse result (¬ ComesTooEarly placed.now ctb k) }
{
    let region = placed[k].in_ctus(ctb);
    for j in k + 1..placed.len() {
        if !region.precedes(&placed[j].in_ctus(ctb)) {
            return true;
        }
    }
    false
}
