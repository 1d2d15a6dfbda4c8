//! `extract` and `check extract`: one subpicture of each picture of a byte stream, as a stream of its own.

ghost use Rattle.std.specs.Prelude.{◌≡◌, ◌+◌, ◌<◌, ◌≤◌, [], ◌∷◌, ◌^◌, List, ℕ, true, cond, Ok, None, IfOk, IfErr, OnOk};
ghost use Rattle.vx_annexb.specs.ByteStream.{UnitPlace};
ghost use Rattle.vx_pic.specs.Readings.{Reading, Picture as StreamPicture, pictures as pictures_in};
ghost use Rattle.vx_pic.specs.Rules.{Readers};
ghost use Rattle.vx_pic.specs.H266.{AreOfH266};
ghost use Rattle.vx_pic.specs.Written.{Plan};
ghost use Rattle.vx_assemble.specs.Held.{HasPicture, ShowsLatest, lent_by};
ghost use Rattle.vx_assemble.specs.Feed.{HasFed};
ghost use Rattle.vx_extract.specs.Extracting.{Stands, SameTask};
ghost use Rattle.vx_run.specs.Change.{change};
ghost use Rattle.vx_run.specs.Conclusion.{IsOfCommand};
ghost use Rattle.vx_run.specs.Extract.{ExtractsBy, ChecksBy, ok_text};
ghost use Rattle.vx_bits.specs.declared.refusal.Refusal.TheVariants.{Extract};
ghost use Rattle.vx_run.specs.ReadAgain.{IsReadAgain};
ghost use Rattle.vx_run.specs.inner.Extracting.{ExtractsOne, ExtractsNext, ChecksOne, ChecksLatest, ChecksNext, CountsBy, HasChecked, HasExtracted, HasTaken, HaveSlices, IsTask, TakenIsReadAgain, task_held};
ghost use Rattle.vx_run.specs.declared.extract.Task.{Task};
ghost use Rattle.vx_run.specs.declared.stop.Place.TheVariants as places;
ghost use Rattle.vx_run.specs.declared.stop.Stop.TheVariants as stops;

use crate::rounds::{advance, one_more};
use crate::stop::{Place, Stop};
use std::alloc::{AllocError, Global};
use vx_annexb::units_can_stand;
use vx_assemble::Feed;
use vx_bits::Refusal;
use vx_bits::rules::NO_PICTURE;
use vx_extract::{Extractor, extraction_reads_again};
use vx_io::{Sink, Source, write_all};
use vx_pic::{Picture, subpictures_have_slices};

/// The request of an extraction: which subpicture, which pictures, and which level.
#[derive(Clone, Copy, PartialEq, Eq)]
pub struct Task {
    /// The index of the subpicture, from 0.
    pub target: u32,
    /// The level to write; `None` keeps that of the source.
    pub level: Option<u8>,
    /// The highest TemporalId of the pictures that are kept.
    pub tid: u8,
}

/// Runs `extract`: writes the subpicture of each kept picture of `source`, with the parameter sets that it needs.
pub(crate) fn extract<K: Sink>(
    alloc: Global,
    task: Task,
    source: &mut Box<dyn Source>,
    out: &mut K,
) -> Result<(), Stop>
    requires { task.tid ≤ 6 }
    ensures extracts { (R : Readers) → AreOfH266 R → ExtractsBy R task (change bytes_left read_faults source.old source.new)
        (change K.bytes_taken K.write_faults out.old out.new) result }
    ensures stop { IfErr result IsOfCommand }
{
    extractions_read_again();
    let mut feed = Feed::new(alloc)?;
    extract_fed(alloc, task, &mut feed, source, out)
}

/// Extracts through a feed that has read nothing.
fn extract_fed<K: Sink>(
    alloc: Global,
    task: Task,
    feed: &mut Feed,
    source: &mut Box<dyn Source>,
    out: &mut K,
) -> Result<(), Stop>
    requires tid { task.tid ≤ 6 }
    requires none { (R : Readers) → AreOfH266 R → HasTaken R (change bytes_left read_faults source.old source.old) feed.old [] }
    ensures extracts { (R : Readers) → AreOfH266 R → ExtractsBy R task (change bytes_left read_faults source.old source.new)
        (change K.bytes_taken K.write_faults out.old out.new) result }
    ensures stop { IfErr result IsOfCommand }
{
    extractions_read_again();
    let mut extractor = Extractor::limited(alloc, task.target, task.level, task.tid);
    extract_pictures(feed, &mut extractor, source, out)
}

/// Does the work of [`extract_fed`] with an extractor that has taken no picture.
fn extract_pictures<K: Sink>(
    feed: &mut Feed,
    extractor: &mut Extractor,
    source: &mut Box<dyn Source>,
    out: &mut K,
) -> Result<(), Stop>
    requires again { (R : Readers) → AreOfH266 R → TakenIsReadAgain R (task_held extractor.old) }
    requires none { (R : Readers) → AreOfH266 R → HasExtracted R (task_held extractor.old) (change bytes_left read_faults source.old source.old)
        (change K.bytes_taken K.write_faults out.old out.old) feed.old extractor.old 0 }
    ensures extracts { (R : Readers) → AreOfH266 R → ExtractsBy R (task_held extractor.old) (change bytes_left read_faults source.old source.new)
        (change K.bytes_taken K.write_faults out.old out.new) result }
    ensures stop { IfErr result IsOfCommand }
{
    let mut pictures = 0;
    while extract_next(feed, extractor, pictures, source, out)? {
        pictures = one_more(pictures, feed.unit());
    }
    some_picture(pictures)
}

/// States the law that the written pictures are read again.
fn extractions_read_again()
    ensures none { (R : Readers) → AreOfH266 R → (t : Task) → IsReadAgain R t [] [] }
    ensures taken { (R : Readers) → AreOfH266 R → (t : Task) → TakenIsReadAgain R t }
{
    units_can_stand();
    extraction_reads_again();
}

/// If readers of H.266 read units, then each picture has a slice of each of its subpictures.
pub fn pictures_have_slices()
    ensures { (R : Readers) → AreOfH266 R → HaveSlices R }
{
    subpictures_have_slices();
}

/// Advances to the next picture of the source, and writes its subpicture or leaves it out. Returns `false` at the end.
///
/// `pictures` is the number of pictures before it.
fn extract_next<K: Sink>(
    feed: &mut Feed,
    extractor: &mut Extractor,
    pictures: u64,
    source: &mut Box<dyn Source>,
    out: &mut K,
) -> Result<bool, Stop>
    ensures answer { (R : Readers) → AreOfH266 R → (t : Task) → IsTask t extractor.old → TakenIsReadAgain R t → (first : _) (start : _)
        → HasExtracted R t (change bytes_left read_faults first source.old) (change K.bytes_taken K.write_faults start out.old) feed.old extractor.old pictures
        → ExtractsNext R t (change bytes_left read_faults first source.new) (change K.bytes_taken K.write_faults start out.new) feed.old feed.new extractor.new pictures result }
    ensures task { SameTask extractor.old extractor.new }
    ensures few { OnOk result (feed.new.units ≤ 2 ^ 40) }
    ensures stop { IfErr result IsOfCommand }
{
    pictures_have_slices();
    if !advance(feed, source, 0)? {
        return Ok(false);
    }
    extract_picture(feed, extractor, pictures, out)?;
    Ok(true)
}

/// Runs `check extract`: writes how many pictures of `source` are kept, if the subpicture can be extracted.
pub(crate) fn check_extract<K: Sink>(
    alloc: Global,
    task: Task,
    source: &mut Box<dyn Source>,
    out: &mut K,
) -> Result<(), Stop>
    requires { task.tid ≤ 6 }
    ensures checks { (R : Readers) → AreOfH266 R → ChecksBy R task (change bytes_left read_faults source.old source.new)
        (change K.bytes_taken K.write_faults out.old out.new) result }
    ensures stop { IfErr result IsOfCommand }
{
    let kept = count_kept(alloc, task, source)?;
    let line = ok_line(alloc, kept)?;
    write_all(out, &line)?;
    Ok(())
}

/// Counts the pictures that are kept, if the subpicture can be extracted.
fn count_kept(alloc: Global, task: Task, source: &mut Box<dyn Source>) -> Result<u64, Stop>
    requires { task.tid ≤ 6 }
    ensures counts { (R : Readers) → AreOfH266 R → CountsBy R task (change bytes_left read_faults source.old source.new) result }
    ensures stop { IfErr result IsOfCommand }
{
    let mut feed = Feed::new(alloc)?;
    count_fed(alloc, task, &mut feed, source)
}

/// Counts through a feed that has read nothing.
fn count_fed(
    alloc: Global,
    task: Task,
    feed: &mut Feed,
    source: &mut Box<dyn Source>,
) -> Result<u64, Stop>
    requires tid { task.tid ≤ 6 }
    requires none { (R : Readers) → AreOfH266 R → HasTaken R (change bytes_left read_faults source.old source.old) feed.old [] }
    ensures counts { (R : Readers) → AreOfH266 R → CountsBy R task (change bytes_left read_faults source.old source.new) result }
    ensures stop { IfErr result IsOfCommand }
{
    let mut extractor = Extractor::limited(alloc, task.target, task.level, task.tid);
    count_pictures(task, feed, &mut extractor, source)
}

/// Does the work of [`count_fed`] with an extractor that has taken no picture.
fn count_pictures(
    task: Task,
    feed: &mut Feed,
    extractor: &mut Extractor,
    source: &mut Box<dyn Source>,
) -> Result<u64, Stop>
    requires task { IsTask task extractor.old }
    requires going { extractor.old.first ≡ None }
    requires none { (R : Readers) → AreOfH266 R → HasChecked R task (change bytes_left read_faults source.old source.old) feed.old 0 0 }
    ensures counts { (R : Readers) → AreOfH266 R → CountsBy R task (change bytes_left read_faults source.old source.new) result }
    ensures stop { IfErr result IsOfCommand }
{
    let mut pictures = 0;
    let mut kept = 0;
    while let Some(stays) = check_next(task.tid, feed, extractor, pictures, source)? {
        pictures = one_more(pictures, feed.unit());
        kept = with_one(stays, kept, pictures);
    }
    some_picture(pictures)?;
    Ok(kept)
}

/// Advances to the next picture of the source, checks it, and returns whether it is kept. Returns `None` at the end.
///
/// `pictures` is the number of pictures before it.
fn check_next(
    tid: u8,
    feed: &mut Feed,
    extractor: &mut Extractor,
    pictures: u64,
    source: &mut Box<dyn Source>,
) -> Result<Option<bool>, Stop>
    ensures answer { extractor.old.first ≡ None → (R : Readers) → AreOfH266 R → (t : Task) → IsTask t extractor.old → t.tid ≡ tid
        → (first : _) (kept : ℕ) → HasChecked R t (change bytes_left read_faults first source.old) feed.old pictures kept
        → ChecksNext R t (change bytes_left read_faults first source.new) feed.old feed.new pictures kept result }
    ensures stays { OnOk result (extractor.new ≡ extractor.old) }
    ensures few { OnOk result (feed.new.units ≤ 2 ^ 40) }
    ensures stop { IfErr result IsOfCommand }
{
    if !advance(feed, source, 0)? {
        return Ok(None);
    }
    let kept = check_latest(tid, feed, extractor, pictures)?;
    Ok(Some(kept))
}

/// Checks that the subpicture of the latest picture can be extracted, and returns whether the picture is kept.
fn check_latest(
    tid: u8,
    feed: &Feed,
    extractor: &mut Extractor,
    pictures: u64,
) -> Result<bool, Stop>
    requires { HasPicture feed.now.assembler }
    ensures shows { (R : Readers) (g : List ℕ) (units : List UnitPlace) (readings : List Reading) → HasFed R feed.now g units readings
        → ShowsLatest (lent_by feed.now.assembler) (pictures_in readings) }
    ensures answer { extractor.old.first ≡ None → ChecksLatest tid (lent_by feed.now.assembler) extractor.old pictures result }
    ensures stays { OnOk result (extractor.new ≡ extractor.old) }
    ensures stop { IfErr result IsOfCommand }
{
    let picture = feed.picture();
    check_picture(&picture, extractor, pictures)?;
    Ok(picture.kind().temporal_id <= tid)
}

/// Writes the subpicture of the latest picture, or leaves it out. `pictures` is the number of pictures before it.
fn extract_picture<K: Sink>(
    feed: &Feed,
    extractor: &mut Extractor,
    pictures: u64,
    out: &mut K,
) -> Result<(), Stop>
    requires { HasPicture feed.now.assembler }
    ensures answer { (R : Readers) (g : List ℕ) (units : List UnitPlace) (readings : List Reading) (p : StreamPicture)
        (ps : List StreamPicture) (done : List Plan)
        → HasFed R feed.now g units readings → pictures_in readings ≡ p ∷ ps → Stands extractor.old done
        → ExtractsOne p done extractor.new (K.bytes_taken out.old) (K.bytes_taken out.new) (K.write_faults out.old) (K.write_faults out.new) pictures result }
    ensures task { SameTask extractor.old extractor.new }
    ensures stop { IfErr result IsOfCommand }
{
    match extractor.picture(&feed.picture(), out) {
        Ok(()) => Ok(()),
        Err(error) => Err(Stop::of_write(error, pictures)),
    }
}

/// Checks that the subpicture of `picture` can be extracted. `pictures` is the number of pictures before it.
fn check_picture(
    picture: &Picture<'_>,
    extractor: &mut Extractor,
    pictures: u64,
) -> Result<(), Stop>
    ensures answer { extractor.old.first ≡ None → ChecksOne picture.now extractor.old pictures result }
    ensures stays { OnOk result (extractor.new ≡ extractor.old) }
    ensures stop { IfErr result IsOfCommand }
{
    match extractor.check(picture) {
        Ok(()) => Ok(()),
        Err(error) => Err(Stop::of_write(error, pictures)),
    }
}

/// Adds 1 to `count` if `counted`. `count` is to be below `most`.
fn with_one(counted: bool, count: u64, most: u64) -> u64
    ensures { count < most → result ≡ cond counted (count + 1) count }
{
    if counted {
        one_more(count, most)
    } else {
        count
    }
}

/// Checks that there was a picture: a stream without pictures is refused (E1).
pub fn some_picture(pictures: u64) -> Result<(), Stop>
    ensures some { OnOk result (0 < pictures) }
    ensures none { IfErr result (λ stop. (pictures ≡ 0) × (stop ≡ stops.Refused (Extract NO_PICTURE) (places.Picture 0))) }
{
    if pictures > 0 {
        return Ok(());
    }
    Err(Stop::Refused {
        refusal: Refusal::Extract { code: NO_PICTURE },
        place: Place::Picture(0),
    })
}

/// Makes the line `ok pictures 2`, with this number.
pub(crate) fn ok_line(alloc: Global, kept: u64) -> Result<Vec<u8>, AllocError>
    ensures { IfOk result (λ line. line.items ≡ ok_text kept) }
{
    Ok(format!(in alloc; "ok pictures {kept}\n")?.into_bytes())
}
