//! The schedule of files: which file of each region is read.
ghost use Rattle.std.specs.Prelude.{◌≡◌, ◌<◌, ◌^◌, length, slice_get};
ghost use Rattle.vx_play.specs.Scheduled as words;

use std::alloc::{AllocError, Global};
use std::marker::Model;

/// Keeps track of which file of each region is read.
///
/// Regions and files are numbered from 0. The files of a region are read in the order of their numbers.
#[derive(Drop)]
pub struct Schedule {
    regions: Vec<u32>,
    gone: Vec<u32>,
    last: Vec<u32>,
    asked: bool,
}

impl Model for Schedule {
    ghost use Rattle.std.specs.Prelude.{◌≡◌, ◌<◌, ◌^◌, Some, None, cond, length};
    ghost use Rattle.vx_play.specs.Scheduled.{Scheduled};

    ghost Value = { Scheduled };

    ghost view = { λ s. record { regions = s.regions.items; gone = s.gone.items; last = cond s.asked (Some s.last.items) None } };

    ghost invariant = { λ s. (length s.regions.items < 2 ^ 32) × (length s.last.items ≡ length s.gone.items) };
}

/// Returns how many regions these files have: one more than the highest.
fn region_count(regions: &[u32]) -> usize
    ensures { result ≡ words.regions_counted regions.now }
{
    let mut count = 0_usize;
    for region in regions {
        count = count.max(*region as usize + 1);
    }
    count
}

/// Returns the file of a region that comes after `gone` others of it.
fn file_behind(regions: &[u32], region: u32, gone: u32) -> Option<u32>
    requires { length regions.now < 2 ^ 32 }
    ensures { result ≡ slice_get (words.files_of_region regions.now region) gone }
{
    let mut left = gone;
    for file in 0..regions.len() {
        if regions[file] == region {
            if left == 0 {
                return Some(file as u32);
            }
            left -= 1;
        }
    }
    None
}

impl Schedule {
    ghost use Rattle.std.specs.Prelude.{◌≡◌, ◌+◌, ◌<◌, ◌^◌, Some, None, IsSome, IfOk, length, replicate, slice_get, slice_index, slice_set};
    ghost use Rattle.std.specs.Bool.{OnTrue, OnFalse};
    ghost use Rattle.vx_play.specs.Scheduled as words;

    /// Makes a schedule of files that haven't ended. `regions` has the region of each file.
    ///
    /// *Errors:* [`AllocError`] if memory runs out.
    pub fn new(alloc: Global, regions: &[u32]) -> Result<Schedule, AllocError>
        requires { length regions.now < 2 ^ 32 }
        ensures { IfOk result (λ s. s ≡ record { regions = regions.now; gone = replicate (words.regions_counted regions.now) 0; last = None }) }
    {
        let count = region_count(regions);
        let mut own = Vec::new(alloc);
        own.extend_from_slice(regions)?;
        Ok(Schedule {
            regions: own,
            gone: vec![in alloc; 0_u32; count]?,
            last: vec![in alloc; 0_u32; count]?,
            asked: false,
        })
    }

    /// Returns the file of a region that is read: the first that hasn't ended, or `None` if all have.
    pub fn current(&self, region: u32) -> Option<u32>
        requires { region < length self.now.gone }
        ensures { result ≡ words.file_being_read self.now region }
    {
        file_behind(&self.regions, region, self.gone[region as usize])
    }

    /// Marks the current file of a region as ended; its next file is read from then on.
    pub fn ended(&mut self, region: u32)
        requires region { region < length self.old.gone }
        requires file { IsSome (words.file_being_read self.old region) }
        ensures { self.new ≡ record self.old { gone = slice_set self.old.gone region (slice_index self.old.gone region + 1) } }
    {
        self.gone[region as usize] += 1;
    }

    /// Returns whether another file of some region is read than at the last call. The first call returns `false`.
    ///
    /// Call it once for each round, when each region has its picture. That it reports exactly the rounds that are joined is proved in
    /// `vx_run`.
    pub fn is_join(&mut self) -> bool
        ensures join { OnTrue result (words.HasMoved self.old) }
        ensures same { OnFalse result (words.HasStayed self.old) }
        ensures asked { self.new ≡ record self.old { last = Some self.old.gone } }
    {
        let moved = self.asked && self.last.as_slice() != self.gone.as_slice();
        self.last.copy_from_slice(&self.gone);
        self.asked = true;
        moved
    }
}
