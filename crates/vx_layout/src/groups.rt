//! The slices of each subpicture, collected in one pass over the slice list.
ghost use Rattle.std.specs.Prelude.{◌≡◌, ℕ, ◌<◌, ◌≤◌, true, List, [], ◌∷◌, ◌++◌, All, Any, length, vec_len, OnOk, IfOk, IfErr, MatchOption};
ghost use Rattle.std.specs.List.{flat_map, slice_index_or};
ghost use Rattle.vx_layout.specs.Faults.{IfFault, SlicesFit, SubpicsCover, height, slice_split_fault, width};
ghost use Rattle.vx_layout.specs.inner.Groups.{Adds, AreGroups, IsOwner};
ghost use Rattle.vx_layout.specs.inner.Marks.{IsMapOf};
ghost use Rattle.vx_layout.specs.Rects.{IsPart, fits};
ghost use Rattle.vx_layout.specs.declared.rect.Rect.{Rect};

use crate::grid::Grid;
use crate::numbers::{LayoutError, Numbers, SLICE_SPLIT_FAULT};
use crate::rect::{Rect, RectList};
use std::alloc::{AllocError, Global};

/// Returns the slices of each subpicture, in the order of the slice list.
///
/// `owners` gives the number of the subpicture of each CTU, from 1.
///
/// # Errors
///
/// - SLICE_SPLIT_FAULT if a slice lies in no subpicture.
/// - `Memory` if memory runs out.
pub fn group_slices(
    alloc: Global,
    numbers: &Numbers,
    owners: &Grid,
) -> Result<Vec<RectList>, LayoutError>
    requires owners { IsMapOf owners.now numbers.now.subpics (width numbers.now) (height numbers.now) }
    requires parts { All (IsPart (width numbers.now) (height numbers.now)) numbers.now.subpics }
    requires some { 1 ≤ length numbers.now.subpics }
    ensures groups { IfOk result (λ groups. AreGroups groups.items numbers.now.slices numbers.now.subpics) }
    ensures split { OnOk result (SlicesFit numbers.now) }
    ensures fault { IfErr result (λ e. IfFault e (λ k. (k ≡ slice_split_fault) × (¬ SlicesFit numbers.now))) }
{
    let mut groups = empty_groups(alloc, numbers.subpics.len())?;
    for k in 0..numbers.slices.len() {
        add(
            &mut groups,
            numbers.slices.item(k),
            &numbers.subpics,
            owners,
        )?;
    }
    Ok(groups)
}

/// Returns `count` groups without a slice.
fn empty_groups(alloc: Global, count: usize) -> Result<Vec<RectList>, AllocError>
    ensures count { IfOk result (λ groups. length groups.items ≡ count) }
    ensures empty { IfOk result (λ groups. (i : ℕ) (e : List Rect) → i < count → slice_index_or groups.items i e ≡ []) }
{
    let mut groups = Vec::new(alloc);
    while groups.len() < count {
        groups.push(RectList::new(alloc))?;
    }
    Ok(groups)
}

/// Adds a slice to the group of its subpicture; a slice without a CTU lies in each.
fn add(
    groups: &mut Vec<RectList>,
    slice: Rect,
    subpics: &RectList,
    owners: &Grid,
) -> Result<(), LayoutError>
    requires owners { IsMapOf owners.now subpics.now owners.now.width owners.now.height }
    requires parts { All (IsPart owners.now.width owners.now.height) subpics.now }
    requires some { 1 ≤ length subpics.now }
    requires groups { length groups.old.items ≡ length subpics.now }
    ensures adds { OnOk result (Adds groups.old.items groups.new.items slice subpics.now) }
    ensures fits { OnOk result (Any (λ s. fits slice s ≡ true) subpics.now) }
    ensures fault { IfErr result (λ e. IfFault e (λ k. (k ≡ slice_split_fault) × (¬ Any (λ s. fits slice s ≡ true) subpics.now))) }
{
    if slice.is_empty() {
        add_to_all(groups, slice)?;
        return Ok(());
    }
    let Some(owner) = owner_of(slice, subpics, owners) else {
        return Err(LayoutError::Fault(SLICE_SPLIT_FAULT));
    };
    groups[owner].push(slice)?;
    Ok(())
}

/// Adds a slice to each group.
fn add_to_all(groups: &mut Vec<RectList>, slice: Rect) -> Result<(), AllocError>
    ensures long { length groups.new.items ≡ length groups.old.items }
    ensures each { OnOk result ((i : ℕ) (e : List Rect) → i < length groups.old.items → slice_index_or groups.new.items i e ≡ slice_index_or groups.old.items i e ++ slice ∷ []) }
{
    for i in 0..groups.len() {
        groups[i].push(slice)?;
    }
    Ok(())
}

/// Returns the index of the subpicture in which a slice lies.
fn owner_of(slice: Rect, subpics: &RectList, owners: &Grid) -> Option<usize>
    requires some { (0 < slice.w) × (0 < slice.h) }
    requires owners { IsMapOf owners.now subpics.now owners.now.width owners.now.height }
    requires parts { All (IsPart owners.now.width owners.now.height) subpics.now }
    ensures { MatchOption result (¬ Any (λ s. fits slice s ≡ true) subpics.now) (IsOwner subpics.now slice) }
{
    let (x, y) = (slice.x as usize, slice.y as usize);
    if !owners.has(x, y) {
        return None;
    }
    let owner = owners.at(x, y) as usize - 1;
    if slice.fits(&subpics.item(owner)) {
        Some(owner)
    } else {
        None
    }
}

/// Returns the groups one after another, as one list.
pub fn flatten(alloc: Global, groups: &[RectList]) -> Result<RectList, AllocError>
    ensures { IfOk result (λ all. all ≡ flat_map (λ group. group) groups.now) }
{
    let mut all = RectList::new(alloc);
    for i in 0..groups.len() {
        append(&mut all, &groups[i])?;
    }
    Ok(all)
}

/// Appends the rectangles of another list.
fn append(all: &mut RectList, more: &RectList) -> Result<(), AllocError>
    ensures { OnOk result (all.new ≡ all.old ++ more.now) }
{
    for i in 0..more.len() {
        all.push(more.item(i))?;
    }
    Ok(())
}
