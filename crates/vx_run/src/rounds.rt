//! What commands over several byte streams share: a feed for each source, and the next picture of each.

ghost use Rattle.std.specs.Prelude.{◌≡◌, ◌+◌, ◌<◌, ◌≤◌, ◌^◌, List, ℕ, true, vec_len, Ok, Err, IfOk, IfErr, OnOk};
ghost use Rattle.vx_annexb.specs.ByteStream.{UnitPlace};
ghost use Rattle.vx_annexb.specs.Reading.{LastWasNeeded};
ghost use Rattle.vx_pic.specs.Readings.{Reading, Picture as StreamPicture};
ghost use Rattle.vx_pic.specs.Rules.{Readers};
ghost use Rattle.vx_pic.specs.H266.{AreOfH266};
ghost use Rattle.vx_assemble.specs.Held.{HasPicture};
ghost use Rattle.vx_assemble.specs.Feed.{HasFed, EndsAtEnd, Advances};
ghost use Rattle.vx_assemble.specs.declared.feed.Step.TheVariants as steps;
ghost use Rattle.vx_run.specs.Change.{sources_change};
ghost use Rattle.vx_run.specs.Conclusion.{IsOfCommand};
ghost use Rattle.vx_run.specs.Rounds.{too_many as too_many_sources};
ghost use Rattle.vx_run.specs.inner.Advancing.{AdvancesEach, AdvancesOf, AreWaiting, OfAll, IsUnfed, LendsLatest};

use crate::stop::{Place, Stop};
use std::alloc::{AllocError, Global};
use vx_assemble::{Feed, FeedFault, Step};
use vx_bits::Refusal;
use vx_bits::rules::TOO_MANY_SOURCES;
use vx_io::Source;

/// How many sources there may be.
pub(crate) const MOST_SOURCES: usize = 64;

/// Returns the refusal of more sources than there may be (L4).
pub(crate) fn too_many() -> Stop
    ensures { Err result ≡ too_many_sources }
{
    Stop::Refused {
        refusal: Refusal::Limit {
            code: TOO_MANY_SOURCES,
        },
        place: Place::Words,
    }
}

/// Makes `count` feeds that have read nothing.
pub(crate) fn feeds_for(alloc: Global, count: usize) -> Result<Vec<Feed>, AllocError>
    ensures count { IfOk result (λ feeds. vec_len feeds ≡ count) }
    ensures unfed { IfOk result (λ feeds. OfAll (λ k f. IsUnfed f) feeds.items) }
{
    let mut feeds = Vec::new(alloc);
    for _ in 0..count {
        let feed = Feed::new(alloc)?;
        feeds.push(feed)?;
    }
    Ok(feeds)
}

/// Makes the marks of `count` sources, none of them ended.
pub(crate) fn going(alloc: Global, count: usize) -> Result<Vec<bool>, AllocError>
    ensures { IfOk result (λ ended. vec_len ended ≡ count) }
{
    let mut ended = Vec::new(alloc);
    for _ in 0..count {
        ended.push(false)?;
    }
    Ok(ended)
}

/// Advances each source to its next picture, in order, and marks those that have ended.
///
/// `rounds` is the number of rounds before.
pub(crate) fn advance_each(
    feeds: &mut Vec<Feed>,
    sources: &mut Vec<Box<dyn Source>>,
    ended: &mut Vec<bool>,
    rounds: u64,
) -> Result<(), Stop>
    requires few { vec_len sources.old ≤ 65536 }
    requires feeds { vec_len feeds.old ≡ vec_len sources.old }
    requires ended { vec_len ended.old ≡ vec_len sources.old }
    ensures answer { (R : Readers) → AreOfH266 R → (first : List _) (taken : List (List StreamPicture))
        → AreWaiting R (sources_change bytes_left read_faults first sources.old.items) feeds.old.items taken rounds
        → AdvancesEach R (sources_change bytes_left read_faults first sources.new.items) feeds.new.items taken rounds ended.new.items result }
    ensures few { OnOk result (OfAll (λ k f. f.units ≤ 2 ^ 40) feeds.new.items) }
    ensures stop { IfErr result IsOfCommand }
    ensures feeds { vec_len feeds.new ≡ vec_len feeds.old }
    ensures ended { vec_len ended.new ≡ vec_len ended.old }
    ensures list { vec_len sources.new ≡ vec_len sources.old }
{
    for k in 0..feeds.len() {
        let goes = advance(&mut feeds[k], &mut sources[k], k as u16)?;
        ended[k] = !goes;
    }
    Ok(())
}

/// Advances source `k` to its next picture. Returns `false` at its end.
pub(crate) fn advance(feed: &mut Feed, source: &mut Box<dyn Source>, k: u16) -> Result<bool, Stop>
    ensures answer { (R : Readers) → AreOfH266 R → (g : List ℕ) (units : List UnitPlace) (readings : List Reading)
        → HasFed R feed.old g units readings → LastWasNeeded g units
        → AdvancesOf k R g units readings feed.new (bytes_left source.old) (bytes_left source.new) (read_faults source.old) (read_faults source.new) result }
    ensures lent { result ≡ Ok true → LendsLatest feed.new }
    ensures end { EndsAtEnd feed.old (bytes_left source.old) → EndsAtEnd feed.new (bytes_left source.new) }
    ensures few { OnOk result (feed.new.units ≤ 2 ^ 40) }
    ensures stop { IfErr result IsOfCommand }
{
    match step(feed, source) {
        Ok(Step::Picture) => {
            lends_latest(feed);
            Ok(true)
        }
        Ok(Step::End) => Ok(false),
        Err(fault) => Err(Stop::of_feed(fault, k, feed.unit())),
    }
}

/// States that a feed lends the latest picture.
fn lends_latest(feed: &Feed)
    requires { HasPicture feed.now.assembler }
    ensures { LendsLatest feed.now }
{
    let _picture = feed.picture();
}

/// Advances a feed on its source.
fn step(feed: &mut Feed, source: &mut Box<dyn Source>) -> Result<Step, FeedFault>
    ensures answer { (R : Readers) → AreOfH266 R → (g : List ℕ) (units : List UnitPlace) (readings : List Reading)
        → HasFed R feed.old g units readings → LastWasNeeded g units
        → Advances R g units readings feed.new (bytes_left source.old) (bytes_left source.new) (read_faults source.old) (read_faults source.new) result }
    ensures picture { result ≡ Ok steps.Picture → HasPicture feed.new.assembler }
    ensures end { EndsAtEnd feed.old (bytes_left source.old) → EndsAtEnd feed.new (bytes_left source.new) }
    ensures few { OnOk result (feed.new.units ≤ 2 ^ 40) }
{
    feed.advance(&mut **source)
}

/// Returns `count` plus 1. `count` is to be below `most`.
pub(crate) fn one_more(count: u64, most: u64) -> u64
    ensures { count < most → result ≡ count + 1 }
{
    most.min(count.saturating_add(1))
}
