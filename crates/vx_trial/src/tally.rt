//! The counts of a trial.
ghost use Rattle.std.specs.Prelude.{◌≡◌, ◌++◌, ◌≤◌, List, ℕ, None, map, IfOk};
ghost use Rattle.std.specs.List.{AllZip, concat, range_with_len};
ghost use Rattle.vx_pic.specs.H266.{AreOfH266};
ghost use Rattle.vx_pic.specs.Parts.{parts_of};
ghost use Rattle.vx_pic.specs.Readings.{Picture};
ghost use Rattle.vx_pic.specs.Rules.{Readers};
ghost use Rattle.vx_extract.specs.Written.{IsExtraction};
ghost use Rattle.vx_gen.specs.Rounds.{corners as corners_of};
ghost use Rattle.vx_trial.specs.Trial as words;
ghost use Rattle.vx_trial.specs.Trial.{IsTally};
ghost use Rattle.vx_trial.specs.inner.Laws.{sources_of};
ghost use Rattle.vx_trial.specs.inner.Merges.{IsMergeOf};
ghost use Rattle.vx_trial.specs.inner.Regions.{AllCanBeExtracted};

use crate::laws::{generated_can_be_tried, tried_are_read_again};
use crate::merge::merge;
use crate::regions::extract;
use crate::weight::Weight;
use std::alloc::{AllocError, Global};
use vx_gen::generate;
use vx_io::GrowSink;
use vx_merge::Corner;

/// The counts of a trial.
#[derive(Clone, Copy, PartialEq, Eq)]
pub struct Tally {
    /// The number of pictures of each stream.
    pub pictures: u32,
    /// The number of slices of all streams.
    pub slices: u32,
    /// The number of bytes of the merge.
    pub bytes: u64,
    /// The weight of the merge followed by all that is extracted from it.
    ///
    /// It is the sum of each byte times its place, counted from 1, modulo 2^32.
    pub weight: u32,
}

/// Makes streams from a number, merges them side by side, extracts each region of the merge, and counts.
///
/// There are `sources` streams of `pictures` pictures each, made from `seed`. *Errors:* [`AllocError`]: only lack of memory ends a trial
/// early.
pub fn trial(alloc: Global, seed: u32, sources: u32, pictures: u32) -> Result<Tally, AllocError>
    requires sources { (1 ≤ sources) × (sources ≤ 16) }
    requires pictures { (1 ≤ pictures) × (pictures ≤ 1000) }
    ensures { (R : Readers) → AreOfH266 R → IfOk result (IsTally R seed sources pictures) }
{
    generated_can_be_tried();
    tried_are_read_again();
    let merged = merge_generated(alloc, seed, sources, pictures)?;
    let weight = weigh(alloc, merged.bytes(), sources, pictures)?;
    Ok(Tally {
        pictures,
        slices: sources * pictures,
        bytes: merged.bytes().len() as u64,
        weight,
    })
}

/// Merges streams that are generated from a number, side by side.
fn merge_generated(
    alloc: Global,
    seed: u32,
    sources: u32,
    pictures: u32,
) -> Result<GrowSink, AllocError>
    requires sources { (1 ≤ sources) × (sources ≤ 16) }
    requires pictures { (1 ≤ pictures) × (pictures ≤ 1000) }
    ensures { (R : Readers) → AreOfH266 R
        → IfOk result (λ merged. IsMergeOf (corners_of sources) (sources_of seed sources pictures) merged.taken) }
{
    generated_can_be_tried();
    let streams = generate(alloc, seed, sources, pictures)?;
    let corners = side_by_side(alloc, sources)?;
    merge(alloc, streams.as_slice(), &corners, pictures)
}

/// Returns the corners of `sources` regions side by side.
fn side_by_side(alloc: Global, sources: u32) -> Result<Vec<Corner>, AllocError>
    requires { sources ≤ 16 }
    ensures { IfOk result (λ corners. corners.items ≡ corners_of sources) }
{
    let mut corners = Vec::new(alloc);
    for k in 0..sources {
        corners.push(Corner { x: 128 * k, y: 0 })?;
    }
    Ok(corners)
}

/// Returns the weight of a merge followed by what is extracted of its regions.
fn weigh(alloc: Global, merged: &[u8], sources: u32, pictures: u32) -> Result<u32, AllocError>
    requires { (R : Readers) → AreOfH266 R → (ps : List Picture) × AllCanBeExtracted R sources pictures merged.now ps }
    ensures { (R : Readers) → AreOfH266 R → (ps : List Picture) → AllCanBeExtracted R sources pictures merged.now ps
        → IfOk result (λ weight. (parts : List (List ℕ))
        × AllZip (λ k bytes. IsExtraction k None (map parts_of ps) bytes) (range_with_len 0 sources) parts
        × (weight ≡ words.weight (merged.now ++ concat parts))) }
{
    let mut weight = Weight::new();
    weight.add(merged);
    for k in 0..sources {
        let region = extract(alloc, k, merged, pictures)?;
        weight.add(region.bytes());
    }
    Ok(weight.of_all())
}
