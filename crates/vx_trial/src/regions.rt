//! The regions of a merge in memory, extracted.
ghost use Rattle.std.specs.Prelude.{◌≡◌, ℕ, suc, List, [], None, map, IfOk, OnOk};
ghost use Rattle.vx_pic.specs.H266.{AreOfH266};
ghost use Rattle.vx_pic.specs.Parts.{parts_of};
ghost use Rattle.vx_pic.specs.Readings.{Picture as StreamPicture};
ghost use Rattle.vx_pic.specs.Rules.{Readers};
ghost use Rattle.vx_pic.specs.Written.{Plan};
ghost use Rattle.vx_extract.specs.Extracting.{SameTask, Stands};
ghost use Rattle.vx_extract.specs.Written.{IsExtraction};
ghost use Rattle.vx_trial.specs.inner.Feeds.{Waits};
ghost use Rattle.vx_trial.specs.inner.Regions.{CanBeExtracted, HasExtracted, HasRegion, IsExtractedOn, MayExtract};

use crate::feeds::next_picture;
use crate::outcome::to_memory;
use std::alloc::{AllocError, Global};
use vx_assemble::MemoryFeed;
use vx_extract::Extractor;
use vx_io::GrowSink;
use vx_pic::Picture;

/// Extracts region `k` of a stream of `pictures` pictures.
pub(crate) fn extract(
    alloc: Global,
    k: u32,
    merged: &[u8],
    pictures: u32,
) -> Result<GrowSink, AllocError>
    requires { (R : Readers) → AreOfH266 R → (ps : List StreamPicture) × CanBeExtracted R k pictures merged.now ps }
    ensures { (R : Readers) → AreOfH266 R → (ps : List StreamPicture) → CanBeExtracted R k pictures merged.now ps
        → IfOk result (λ region. IsExtraction k None (map parts_of ps) region.taken) }
{
    let mut feed = MemoryFeed::new(alloc, merged)?;
    extract_fed(alloc, k, &mut feed, pictures)
}

/// Extracts region `k` through a feed that has taken nothing.
fn extract_fed(
    alloc: Global,
    k: u32,
    feed: &mut MemoryFeed,
    pictures: u32,
) -> Result<GrowSink, AllocError>
    requires { (R : Readers) → AreOfH266 R → (bytes : List ℕ) × (ps : List StreamPicture) × CanBeExtracted R k pictures bytes ps × Waits R pictures feed.old ps }
    ensures { (R : Readers) → AreOfH266 R → (bytes : List ℕ) (ps : List StreamPicture) → CanBeExtracted R k pictures bytes ps → Waits R pictures feed.old ps
        → IfOk result (λ region. IsExtraction k None (map parts_of ps) region.taken) }
{
    let mut extractor = Extractor::new(alloc, k, None);
    extract_pictures(alloc, feed, &mut extractor, pictures)
}

/// Extracts the region of the next `pictures` pictures.
fn extract_pictures(
    alloc: Global,
    feed: &mut MemoryFeed,
    extractor: &mut Extractor,
    pictures: u32,
) -> Result<GrowSink, AllocError>
    requires { (R : Readers) → AreOfH266 R → (ps : List StreamPicture) × HasExtracted R pictures ps feed.old extractor.old [] }
    ensures extracted { (R : Readers) → AreOfH266 R → (ps : List StreamPicture) → HasExtracted R pictures ps feed.old extractor.old []
        → IfOk result (λ region. HasExtracted R 0 ps feed.new extractor.new region.taken) }
    ensures task { SameTask extractor.old extractor.new }
{
    let mut region = GrowSink::new(alloc);
    for _ in 0..pictures {
        extract_next(feed, extractor, &mut region)?;
    }
    Ok(region)
}

/// Writes the region of the next picture. There is one more.
fn extract_next(
    feed: &mut MemoryFeed,
    extractor: &mut Extractor,
    region: &mut GrowSink,
) -> Result<(), AllocError>
    requires { (R : Readers) → AreOfH266 R → MayExtract R feed.old extractor.old region.old.taken }
    ensures extracted { (R : Readers) → AreOfH266 R → (m : ℕ) (ps : List StreamPicture) → HasExtracted R (suc m) ps feed.old extractor.old region.old.taken
        → OnOk result (HasExtracted R m ps feed.new extractor.new region.new.taken) }
    ensures task { SameTask extractor.old extractor.new }
{
    next_picture(feed)?;
    write_region(&feed.picture(), extractor, region)
}

/// Writes the region of a picture.
fn write_region(
    picture: &Picture<'_>,
    extractor: &mut Extractor,
    region: &mut GrowSink,
) -> Result<(), AllocError>
    requires tid { extractor.old.tid ≡ 6 }
    requires has { HasRegion extractor.old.target picture.now }
    requires stands { (done : List Plan) × Stands extractor.old done }
    ensures written { (done : List Plan) → Stands extractor.old done
        → OnOk result (IsExtractedOn picture.now done extractor.old extractor.new region.old.taken region.new.taken) }
    ensures task { SameTask extractor.old extractor.new }
{
    to_memory(extractor.picture(picture, region))
}
