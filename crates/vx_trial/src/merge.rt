//! Streams in memory, merged side by side.
ghost use Rattle.std.specs.Prelude.{◌≡◌, ℕ, suc, List, All, length, map, IfOk, OnOk};
ghost use Rattle.vx_bits.specs.declared.refusal.Refusal.{Refusal};
ghost use Rattle.vx_pic.specs.H266.{AreOfH266};
ghost use Rattle.vx_pic.specs.Readings.{Picture};
ghost use Rattle.vx_pic.specs.Rules.{Readers};
ghost use Rattle.vx_pic.specs.Written.{Plan};
ghost use Rattle.vx_assemble.specs.Held.{HasPicture, lent_by};
ghost use Rattle.vx_frame.specs.Corners.{AreCorners};
ghost use Rattle.vx_merge.specs.Merging.{IsBarred, SameTask, Stands};
ghost use Rattle.vx_trial.specs.inner.Merges.{CanBeTried, HasMerged, IsMergeOf, IsWrittenOn, MayMerge};

use crate::feeds::{feeds_over, next_pictures};
use crate::outcome::to_memory;
use std::alloc::{AllocError, Global};
use vx_assemble::MemoryFeed;
use vx_bits::Bytes;
use vx_io::GrowSink;
use vx_merge::{Corner, Merger};

/// Merges streams of `pictures` pictures each, in regions with these corners.
pub(crate) fn merge(
    alloc: Global,
    streams: &[Bytes],
    corners: &[Corner],
    pictures: u32,
) -> Result<GrowSink, AllocError>
    requires corners { AreCorners corners.now }
    requires can { (R : Readers) → AreOfH266 R → (sources : List (List Picture)) × CanBeTried R corners.now pictures streams.now sources }
    ensures { (R : Readers) → AreOfH266 R → (sources : List (List Picture)) → CanBeTried R corners.now pictures streams.now sources
        → IfOk result (λ merged. IsMergeOf corners.now sources merged.taken) }
{
    let mut merger = Merger::new(alloc, corners, None)?;
    let mut feeds = feeds_over(alloc, streams)?;
    let mut merged = GrowSink::new(alloc);
    write_rounds(&mut merger, &mut feeds, pictures, &mut merged)?;
    Ok(merged)
}

/// Writes the next `pictures` rounds.
fn write_rounds(
    merger: &mut Merger,
    feeds: &mut Vec<MemoryFeed>,
    pictures: u32,
    merged: &mut GrowSink,
) -> Result<(), AllocError>
    requires { (R : Readers) → AreOfH266 R → (sources : List (List Picture)) × HasMerged R pictures sources feeds.old.items merger.old merged.old.taken }
    ensures merged { (R : Readers) → AreOfH266 R → (sources : List (List Picture)) → HasMerged R pictures sources feeds.old.items merger.old merged.old.taken
        → OnOk result (HasMerged R 0 sources feeds.new.items merger.new merged.new.taken) }
    ensures task { SameTask merger.old merger.new }
{
    for _ in 0..pictures {
        write_next(merger, feeds, merged)?;
    }
    Ok(())
}

/// Writes the next round. There is one more.
fn write_next(
    merger: &mut Merger,
    feeds: &mut Vec<MemoryFeed>,
    merged: &mut GrowSink,
) -> Result<(), AllocError>
    requires { (R : Readers) → AreOfH266 R → MayMerge R feeds.old.items merger.old merged.old.taken }
    ensures merged { (R : Readers) → AreOfH266 R → (m : ℕ) (sources : List (List Picture)) → HasMerged R (suc m) sources feeds.old.items merger.old merged.old.taken
        → OnOk result (HasMerged R m sources feeds.new.items merger.new merged.new.taken) }
    ensures task { SameTask merger.old merger.new }
{
    next_pictures(feeds)?;
    write_round(merger, feeds, merged)
}

/// Writes the round of the pictures that the feeds lend.
fn write_round(
    merger: &mut Merger,
    feeds: &[MemoryFeed],
    merged: &mut GrowSink,
) -> Result<(), AllocError>
    requires count { length feeds.now ≡ length merger.old.corners }
    requires holds { All (λ f. HasPicture f.assembler) feeds.now }
    requires goes { (done : List Plan) × Stands merger.old done
        × ((r : Refusal) → ¬ IsBarred merger.old.corners merger.old.level (map (λ f. lent_by f.assembler) feeds.now) done r) }
    ensures written { (done : List Plan) → Stands merger.old done
        → OnOk result (IsWrittenOn (map (λ f. lent_by f.assembler) feeds.now) done merger.old merger.new merged.old.taken merged.new.taken) }
    ensures task { SameTask merger.old merger.new }
{
    to_memory(merger.round(feeds, merged))
}
