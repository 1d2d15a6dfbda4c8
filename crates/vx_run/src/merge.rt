//! `merge` and `check merge`: the pictures of several byte streams become those of one stream, round by round.

ghost use Rattle.std.specs.Prelude.{[], ◌≡◌, ◌<◌, ◌≤◌, ◌^◌, List, All, map, length, vec_len, IfOk, IfErr, OnOk};
ghost use Rattle.vx_pic.specs.Readings.{Picture as StreamPicture};
ghost use Rattle.vx_pic.specs.Rules.{Readers};
ghost use Rattle.vx_pic.specs.H266.{AreOfH266};
ghost use Rattle.vx_pic.specs.Written.{Plan};
ghost use Rattle.vx_assemble.specs.Held.{HasPicture, lent_by};
ghost use Rattle.vx_frame.specs.Corners.{AreCorners};
ghost use Rattle.vx_merge.specs.Merging.{SameTask, Stands};
ghost use Rattle.vx_run.specs.Change.{change, sources_change};
ghost use Rattle.vx_run.specs.Conclusion.{IsOfCommand};
ghost use Rattle.vx_run.specs.Merge.{ChecksMerge, ChecksMergeBy, Merges, MergesBy, WrittenIsReadAgain, length_refused, corners_of as corners_by};
ghost use Rattle.vx_run.specs.Rounds.{most_sources};
ghost use Rattle.vx_run.specs.inner.Advancing.{AdvancesAll, AreWaiting, GoesBy, OfAll};
ghost use Rattle.vx_run.specs.inner.Merging.{DoesRound, TakesRound, TakesRounds};
ghost use Rattle.vx_run.specs.inner.Placings.{spelled};

use crate::extract::ok_line;
use crate::placings::Placings;
use crate::rounds::{MOST_SOURCES, advance_each, feeds_for, going, one_more, too_many};
use crate::stop::{Place, Stop};
use std::alloc::{AllocError, Global};
use vx_again::{merge_is_read_again, pictures_can_be_merged};
use vx_annexb::units_can_stand;
use vx_assemble::Feed;
use vx_bits::Refusal;
use vx_bits::rules::LENGTH;
use vx_io::{Sink, Source, write_all};
use vx_merge::{Corner, Lengths, Merger, WriteError, lengths};

/// What happens to each round.
#[derive(Clone, Copy, PartialEq, Eq)]
enum Work {
    /// The round is checked.
    Check,
    /// The round is written.
    Write,
}

/// Runs `merge`: writes the pictures of the placed files as those of one stream, each file in its region.
///
/// `level` is the level to write; `None` means the highest of the files'. More files than 64 are refused before anything is read.
pub(crate) fn merge<K: Sink>(
    alloc: Global,
    level: Option<u8>,
    placings: Placings<'_>,
    sources: &mut Vec<Box<dyn Source>>,
    out: &mut K,
) -> Result<(), Stop>
    requires count { vec_len sources.old ≡ length placings.words.now }
    ensures merges { Merges (corners_by (spelled placings.entry.words.now)) level
        (sources_change bytes_left read_faults sources.old.items sources.new.items)
        (change K.bytes_taken K.write_faults out.old out.new) result }
    ensures list { vec_len sources.new ≡ vec_len sources.old }
{
    if placings.len() > MOST_SOURCES {
        return Err(too_many());
    }
    write_rounds(alloc, level, placings, sources, out)
}

/// Writes all rounds of at most 64 files.
fn write_rounds<K: Sink>(
    alloc: Global,
    level: Option<u8>,
    placings: Placings<'_>,
    sources: &mut Vec<Box<dyn Source>>,
    out: &mut K,
) -> Result<(), Stop>
    requires few { length placings.words.now ≤ most_sources }
    requires count { vec_len sources.old ≡ length placings.words.now }
    ensures merges { (R : Readers) → AreOfH266 R → MergesBy R (corners_by (spelled placings.entry.words.now)) level
        (sources_change bytes_left read_faults sources.old.items sources.new.items)
        (change K.bytes_taken K.write_faults out.old out.new) result }
    ensures stop { IfErr result IsOfCommand }
    ensures list { vec_len sources.new ≡ vec_len sources.old }
{
    merges_read_again();
    let corners = placings.corners(alloc)?;
    take_rounds(alloc, Work::Write, level, &corners, sources, out)?;
    Ok(())
}

/// States the law that the written rounds are read again.
fn merges_read_again()
    ensures { WrittenIsReadAgain }
{
    units_can_stand();
    pictures_can_be_merged();
    merge_is_read_again();
}

/// Runs `check merge`: writes how many rounds the placed files have, if they can be merged.
pub(crate) fn check_merge<K: Sink>(
    alloc: Global,
    placings: Placings<'_>,
    sources: &mut Vec<Box<dyn Source>>,
    out: &mut K,
) -> Result<(), Stop>
    requires count { vec_len sources.old ≡ length placings.words.now }
    ensures checks { ChecksMerge (corners_by (spelled placings.entry.words.now))
        (sources_change bytes_left read_faults sources.old.items sources.new.items)
        (change K.bytes_taken K.write_faults out.old out.new) result }
    ensures list { vec_len sources.new ≡ vec_len sources.old }
{
    if placings.len() > MOST_SOURCES {
        return Err(too_many());
    }
    check_rounds(alloc, placings, sources, out)
}

/// Checks and counts all rounds of at most 64 files.
fn check_rounds<K: Sink>(
    alloc: Global,
    placings: Placings<'_>,
    sources: &mut Vec<Box<dyn Source>>,
    out: &mut K,
) -> Result<(), Stop>
    requires few { length placings.words.now ≤ most_sources }
    requires count { vec_len sources.old ≡ length placings.words.now }
    ensures checks { (R : Readers) → AreOfH266 R → ChecksMergeBy R (corners_by (spelled placings.entry.words.now))
        (sources_change bytes_left read_faults sources.old.items sources.new.items)
        (change K.bytes_taken K.write_faults out.old out.new) result }
    ensures stop { IfErr result IsOfCommand }
    ensures list { vec_len sources.new ≡ vec_len sources.old }
{
    let corners = placings.corners(alloc)?;
    let rounds = take_rounds(alloc, Work::Check, None, &corners, sources, out)?;
    let line = ok_line(alloc, rounds)?;
    write_all(out, &line)?;
    Ok(())
}

/// Checks or writes round after round, and returns how many there are.
fn take_rounds<K: Sink>(
    alloc: Global,
    work: Work,
    level: Option<u8>,
    corners: &[Corner],
    sources: &mut Vec<Box<dyn Source>>,
    out: &mut K,
) -> Result<u64, Stop>
    requires corners { AreCorners corners.now }
    requires count { vec_len sources.old ≡ length corners.now }
    ensures takes { (R : Readers) → AreOfH266 R → TakesRounds R work corners.now level
        (sources_change bytes_left read_faults sources.old.items sources.new.items)
        (change K.bytes_taken K.write_faults out.old out.new) result }
    ensures stop { IfErr result IsOfCommand }
    ensures list { vec_len sources.new ≡ vec_len sources.old }
{
    let mut merger = Merger::new(alloc, corners, level)?;
    take_by(alloc, work, &mut merger, sources, out)
}

/// Does the work of [`take_rounds`] with a merger that has taken no round.
fn take_by<K: Sink>(
    alloc: Global,
    work: Work,
    merger: &mut Merger,
    sources: &mut Vec<Box<dyn Source>>,
    out: &mut K,
) -> Result<u64, Stop>
    requires corners { AreCorners merger.old.corners }
    requires stands { Stands merger.old [] }
    requires count { vec_len sources.old ≡ length merger.old.corners }
    ensures takes { (R : Readers) → AreOfH266 R → TakesRounds R work merger.old.corners merger.old.level
        (sources_change bytes_left read_faults sources.old.items sources.new.items)
        (change K.bytes_taken K.write_faults out.old out.new) result }
    ensures stop { IfErr result IsOfCommand }
    ensures list { vec_len sources.new ≡ vec_len sources.old }
{
    let mut feeds = feeds_for(alloc, sources.len())?;
    let mut ended = going(alloc, sources.len())?;
    let mut rounds = 0;
    while advance_all(&mut feeds, sources, &mut ended, rounds)? {
        take_round(work, merger, &feeds, rounds, out)?;
        rounds = one_more(rounds, feeds[0].unit());
    }
    Ok(rounds)
}

/// Advances each source to its next picture, in order. Returns `false` if all have ended.
///
/// `rounds` is the number of rounds before.
fn advance_all(
    feeds: &mut Vec<Feed>,
    sources: &mut Vec<Box<dyn Source>>,
    ended: &mut Vec<bool>,
    rounds: u64,
) -> Result<bool, Stop>
    requires some { 0 < vec_len sources.old }
    requires few { vec_len sources.old ≤ most_sources }
    requires feeds { vec_len feeds.old ≡ vec_len sources.old }
    requires ended { vec_len ended.old ≡ vec_len sources.old }
    ensures answer { (R : Readers) → AreOfH266 R → (first : List _) (taken : List (List StreamPicture))
        → AreWaiting R (sources_change bytes_left read_faults first sources.old.items) feeds.old.items taken rounds
        → AdvancesAll length_refused R (sources_change bytes_left read_faults first sources.new.items) feeds.new.items taken rounds result }
    ensures few { OnOk result (OfAll (λ k f. f.units ≤ 2 ^ 40) feeds.new.items) }
    ensures stop { IfErr result IsOfCommand }
    ensures feeds { vec_len feeds.new ≡ vec_len feeds.old }
    ensures ended { vec_len ended.new ≡ vec_len ended.old }
    ensures list { vec_len sources.new ≡ vec_len sources.old }
{
    advance_each(feeds, sources, ended, rounds)?;
    all_go_on(ended, rounds)
}

/// Returns `true` if all sources go on after `rounds` rounds, and `false` if all have ended.
///
/// `ended` says which sources have ended. *Errors:* the lowest source that has ended, if another one goes on (M14).
pub fn all_go_on(ended: &[bool], rounds: u64) -> Result<bool, Stop>
    requires { (0 < length ended.now) × (length ended.now ≤ most_sources) }
    ensures goes { GoesBy length_refused ended.now rounds result }
    ensures stop { IfErr result IsOfCommand }
{
    match lengths(ended) {
        Lengths::AllGo => Ok(true),
        Lengths::AllEnded => Ok(false),
        Lengths::Differ(source) => Err(Stop::Refused {
            refusal: Refusal::Merge {
                code: LENGTH,
                source,
                field: 0,
            },
            place: Place::Picture(rounds),
        }),
    }
}

/// Checks or writes the round of the pictures that the feeds lend. `rounds` is the number of rounds before.
fn take_round<K: Sink>(
    work: Work,
    merger: &mut Merger,
    feeds: &[Feed],
    rounds: u64,
    out: &mut K,
) -> Result<(), Stop>
    requires count { length feeds.now ≡ length merger.old.corners }
    requires holds { All (λ f. HasPicture f.assembler) feeds.now }
    ensures takes { (done : List Plan) → Stands merger.old done
        → TakesRound work (map (λ f. lent_by f.assembler) feeds.now) done merger.new
        (change K.bytes_taken K.write_faults out.old out.new) rounds result }
    ensures task { SameTask merger.old merger.new }
    ensures stop { IfErr result IsOfCommand }
{
    match do_round(work, merger, feeds, out) {
        Ok(()) => Ok(()),
        Err(error) => Err(Stop::of_write(error, rounds)),
    }
}

/// Checks or writes the round of the pictures that the feeds lend.
fn do_round<K: Sink>(
    work: Work,
    merger: &mut Merger,
    feeds: &[Feed],
    out: &mut K,
) -> Result<(), WriteError>
    requires count { length feeds.now ≡ length merger.old.corners }
    requires holds { All (λ f. HasPicture f.assembler) feeds.now }
    ensures does { (done : List Plan) → Stands merger.old done
        → DoesRound work (map (λ f. lent_by f.assembler) feeds.now) done merger.new
        (change K.bytes_taken K.write_faults out.old out.new) result }
    ensures task { SameTask merger.old merger.new }
{
    match work {
        Work::Check => merger.check(feeds),
        Work::Write => merger.round(feeds, out),
    }
}
