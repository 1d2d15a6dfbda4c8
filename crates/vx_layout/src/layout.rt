//! A picture's layout: numbers without a fault, and its slices by subpicture and address.
ghost use Rattle.std.specs.Prelude.{OnOk, IfOk, IfErr};
ghost use Rattle.vx_layout.specs.Faults.{IfFault, IsInLimits, IsLayout, IsLowestFault};
ghost use Rattle.vx_layout.specs.inner.Groups.{AreGroups};

use crate::entry::count_entries;
use crate::faults::{check_order, check_slices, check_subpics, check_tiles};
use crate::groups::group_slices;
use crate::numbers::{LayoutError, Numbers};
use crate::rect::{Rect, RectList};
use crate::region::{count_from, cut};
use std::alloc::{AllocError, Global};
use std::marker::Model;

/// The tiles, slices and subpictures of a picture, which violate none of the rules on them.
///
/// *Model:* its numbers.
#[derive(Drop)]
pub struct Layout {
    numbers: Numbers,
    groups: Vec<RectList>,
}

impl Model for Layout {
    ghost use Rattle.vx_layout.specs.declared.numbers.Numbers.{Numbers};
    ghost use Rattle.vx_layout.specs.inner.Groups.{IsKept};

    ghost Value = { Numbers };

    ghost view = { λ l. l.numbers };

    ghost invariant = { λ l. IsKept l.numbers l.groups.items };
}

impl Layout {
    ghost use Rattle.std.specs.Prelude.{◌≡◌, ℕ, ◌<◌, length, OnOk, IfOk, IfErr, slice_get, Some};
    ghost use Rattle.vx_layout.specs.Faults.{IfFault, IsInLimits, IsLayout, IsLowestFault};
    ghost use Rattle.vx_layout.specs.Layouts.{HasLayout, slice_at, slices_in};
    ghost use Rattle.vx_layout.specs.Regions.{region_of};
    ghost use Rattle.vx_layout.specs.Scan.{entries};

    /// Checks numbers, and makes a layout of them.
    ///
    /// Takes time with the number of CTUs, slices, subpictures and tile bounds. A slice without a CTU lies in each
    /// subpicture, and is stored for each.
    ///
    /// # Errors
    ///
    /// - `Fault` with the lowest fault, from 3 to 7, exactly if there is one.
    /// - `Memory` if memory runs out.
    pub fn new(alloc: Global, numbers: Numbers) -> Result<Layout, LayoutError>
        requires { IsInLimits numbers }
        ensures numbers { IfOk result (λ layout. layout ≡ numbers) }
        ensures layout { OnOk result (HasLayout numbers) }
        ensures fault { IfErr result (λ e. IfFault e (IsLowestFault numbers)) }
    {
        let groups = checked_groups(alloc, &numbers)?;
        Ok(Layout { numbers, groups })
    }

    /// Returns the number of slices of a subpicture.
    pub fn slice_count(&self, subpic: u32) -> u32
        requires { subpic < length self.now.subpics }
        ensures count { result ≡ length (slices_in self.now subpic) }
        ensures layout { HasLayout self.now }
    {
        self.groups[subpic as usize].len() as u32
    }

    /// Returns the rectangle of a slice, by the index of its subpicture and its address there.
    pub fn slice_rect(&self, subpic: u32, address: u32) -> Rect
        requires subpic { subpic < length self.now.subpics }
        requires address { address < length (slices_in self.now subpic) }
        ensures value { slice_get (slices_in self.now subpic) address ≡ Some result }
        ensures index { result ≡ slice_at self.now subpic address }
        ensures layout { HasLayout self.now }
    {
        self.groups[subpic as usize].item(address as usize)
    }

    /// Returns the number of entry points of a slice, by the index of its subpicture and its address there.
    ///
    /// They are the CTUs in another tile than the CTU before, or with `sync` in another row (H.266 7.4.8, NumEntryPoints).
    pub fn entry_points(&self, subpic: u32, address: u32, sync: bool) -> u32
        requires subpic { subpic < length self.now.subpics }
        requires address { address < length (slices_in self.now subpic) }
        ensures count { result ≡ entries self.now.columns self.now.rows (slice_at self.now subpic address) sync }
        ensures layout { HasLayout self.now }
    {
        let slice = self.slice_rect(subpic, address);
        count_entries(&self.numbers.columns, &self.numbers.rows, slice, sync)
    }

    /// Returns a subpicture as a layout of its own, with one subpicture.
    ///
    /// Its tile bounds and slices are counted from its corner.
    ///
    /// # Errors
    ///
    /// `AllocError` if memory runs out.
    pub fn region(&self, alloc: Global, subpic: u32) -> Result<Numbers, AllocError>
        requires { subpic < length self.now.subpics }
        ensures numbers { IfOk result (λ numbers. numbers ≡ region_of self.now subpic) }
        ensures layout { HasLayout self.now }
    {
        let corner = self.numbers.subpics.item(subpic as usize);
        let columns = cut(alloc, &self.numbers.columns, corner.x, corner.w)?;
        let rows = cut(alloc, &self.numbers.rows, corner.y, corner.h)?;
        let slices = count_from(alloc, &self.groups[subpic as usize], corner)?;
        let mut subpics = RectList::new(alloc);
        subpics.push(Rect {
            x: 0,
            y: 0,
            w: corner.w,
            h: corner.h,
        })?;
        Ok(Numbers {
            columns,
            rows,
            slices,
            subpics,
        })
    }
}

/// Returns the slices of each subpicture, if numbers have no fault.
///
/// # Errors
///
/// - `Fault` with the lowest fault, exactly if there is one.
/// - `Memory` if memory runs out.
fn checked_groups(alloc: Global, numbers: &Numbers) -> Result<Vec<RectList>, LayoutError>
    requires { IsInLimits numbers.now }
    ensures groups { IfOk result (λ groups. AreGroups groups.items numbers.now.slices numbers.now.subpics) }
    ensures layout { OnOk result (IsLayout numbers.now) }
    ensures fault { IfErr result (λ e. IfFault e (IsLowestFault numbers.now)) }
{
    let owners = check_subpics(alloc, numbers)?;
    check_tiles(alloc, numbers)?;
    check_slices(alloc, numbers)?;
    let groups = group_slices(alloc, numbers, &owners)?;
    check_order(alloc, numbers, groups.as_slice())?;
    Ok(groups)
}
