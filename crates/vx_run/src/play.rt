//! `play`: the files of each region are played one after another, and the regions are merged round by round.

ghost use Rattle.std.specs.Prelude.{◌≡◌, ◌≢◌, ◌<◌, ◌≤◌, [], ℕ, List, All, map, length, replicate, vec_len, slice_get, slice_index, Option as OptionOf, None, Err, IfSome, IfOk, IfErr, OnOk, MatchOption};
ghost use Rattle.vx_pic.specs.Readings.{Picture as StreamPicture};
ghost use Rattle.vx_pic.specs.Rules.{Readers};
ghost use Rattle.vx_pic.specs.H266.{AreOfH266};
ghost use Rattle.vx_pic.specs.Written.{Plan};
ghost use Rattle.vx_assemble.specs.Held.{HasPicture, lent_by};
ghost use Rattle.vx_frame.specs.Corners.{AreCorners};
ghost use Rattle.vx_merge.specs.Merging.{SameTask, Stands};
ghost use Rattle.vx_play.specs.Scheduled.{regions_counted, files_of_region};
ghost use Rattle.vx_run.specs.Change.{change, sources_change};
ghost use Rattle.vx_run.specs.Conclusion.{IsOfCommand};
ghost use Rattle.vx_run.specs.Grammar.{Placing as PlacingAsked, play as for_play, AskFor, texts};
ghost use Rattle.vx_run.specs.Merge.{corners_of as corners_by};
ghost use Rattle.vx_run.specs.Play.{Plays, PlayedIsReadAgain, file_regions, most_files, region_corners, region_at_corner, with_corner, with_corners, too_many_files as too_many_of_files};
ghost use Rattle.vx_run.specs.Rounds.{most_sources};
ghost use Rattle.vx_run.specs.inner.Advancing.{IsUnfed};
ghost use Rattle.vx_run.specs.inner.Placings.{spelled};
ghost use Rattle.vx_run.specs.inner.Playing.{AdvancesEach, AdvancesRegions, AreFew, ArePlaced, GoesOn, HasFound, IsAt, PlaysRound, PlaysRounds, SameBut, SameFiles, WritesRound};

use crate::merge::all_go_on;
use crate::placings::Placings;
use crate::rounds::{MOST_SOURCES, advance, feeds_for, going, one_more, too_many};
use crate::stop::{Place, Stop};
use crate::words::{Command, command_of};
use std::alloc::{AllocError, Global};
use std::mem::replace;
use vx_again::{merge_is_read_again, pictures_can_be_merged, played_can_be_merged};
use vx_annexb::units_can_stand;
use vx_assemble::Feed;
use vx_bits::Refusal;
use vx_bits::rules::TOO_MANY_FILES;
use vx_io::{Sink, Source};
use vx_merge::{Corner, Merger, WriteError};
use vx_play::Schedule;

/// How many files there may be.
const MOST_FILES: usize = 256;

/// More rounds than this many files can have.
const MOST_ROUNDS: u64 = 1 << 49;

/// The corner of each region, and the region of each file.
#[derive(Drop)]
struct Regions {
    corners: Vec<Corner>,
    files: Vec<u32>,
}

/// Runs `play`: writes the pictures of each region's files, one file after another, as those of one stream.
///
/// `level` is the level to write; `None` means the highest of the files'. More regions than 64 and more files than 256 are refused before
/// anything is read.
pub(crate) fn play<K: Sink>(
    alloc: Global,
    level: Option<u8>,
    placings: Placings<'_>,
    sources: &mut Vec<Box<dyn Source>>,
    out: &mut K,
) -> Result<(), Stop>
    requires count { vec_len sources.old ≡ length placings.words.now }
    ensures plays { Plays (region_corners (spelled placings.entry.words.now)) level (file_regions (spelled placings.entry.words.now))
        (sources_change bytes_left read_faults sources.old.items sources.new.items)
        (change K.bytes_taken K.write_faults out.old out.new) result }
    ensures list { vec_len sources.new ≡ vec_len sources.old }
{
    plays_read_again();
    let Some(regions) = regions_of(alloc, placings)? else {
        return Err(too_many());
    };
    if regions.files.len() > MOST_FILES {
        return Err(too_many_files());
    }
    play_rounds(alloc, level, &regions.files, &regions.corners, sources, out)
}

/// States the law that the written rounds are read again.
fn plays_read_again()
    ensures { PlayedIsReadAgain }
{
    units_can_stand();
    pictures_can_be_merged();
    played_can_be_merged();
    merge_is_read_again();
}

/// Returns the refusal of more files than there may be (L11).
fn too_many_files() -> Stop
    ensures { Err result ≡ too_many_of_files }
{
    Stop::Refused {
        refusal: Refusal::Limit {
            code: TOO_MANY_FILES,
        },
        place: Place::Words,
    }
}

/// Returns the regions in which the arguments place files: equal corners are one region. `None` if there are more than 64.
fn regions_of(alloc: Global, placings: Placings<'_>) -> Result<Option<Regions>, AllocError>
    ensures { IfOk result (λ found. MatchOption found (most_sources < length (with_corners [] (corners_by (spelled placings.entry.words.now))))
        (λ r. HasFound (corners_by (spelled placings.entry.words.now)) r.corners.items r.files.items × (vec_len r.corners ≤ most_sources))) }
{
    let all = placings.corners(alloc)?;
    let mut corners = Vec::new(alloc);
    let mut files = Vec::new(alloc);
    for corner in &all {
        let region = placed(&mut corners, *corner)?;
        if region == MOST_SOURCES {
            return Ok(None);
        }
        files.push(region as u32)?;
    }
    Ok(Some(Regions { corners, files }))
}

/// Returns the region with this corner, a new one if there is none.
fn placed(corners: &mut Vec<Corner>, corner: Corner) -> Result<usize, AllocError>
    ensures region { IfOk result (λ r. r ≡ region_at_corner corners.old.items corner) }
    ensures within { IfOk result (λ r. r ≤ vec_len corners.old) }
    ensures corners { OnOk result (corners.new.items ≡ with_corner corners.old.items corner) }
{
    let region = region_of(corners, corner);
    if region < corners.len() {
        return Ok(region);
    }
    corners.push(corner)?;
    Ok(region)
}

/// Returns the index of `corner` in `corners`, or their number if it isn't there.
fn region_of(corners: &[Corner], corner: Corner) -> usize
    ensures place { result ≡ region_at_corner corners.now corner }
    ensures within { result ≤ length corners.now }
{
    for k in 0..corners.len() {
        if corners[k] == corner {
            return k;
        }
    }
    corners.len()
}

/// Writes all rounds of the regions' files.
fn play_rounds<K: Sink>(
    alloc: Global,
    level: Option<u8>,
    files: &[u32],
    corners: &[Corner],
    sources: &mut Vec<Box<dyn Source>>,
    out: &mut K,
) -> Result<(), Stop>
    requires corners { AreCorners corners.now }
    requires few { length files.now ≤ most_files }
    requires regions { regions_counted files.now ≡ length corners.now }
    requires count { vec_len sources.old ≡ length files.now }
    ensures plays { (R : Readers) → AreOfH266 R → PlaysRounds R corners.now level files.now
        (sources_change bytes_left read_faults sources.old.items sources.new.items)
        (change K.bytes_taken K.write_faults out.old out.new) result }
    ensures stop { IfErr result IsOfCommand }
    ensures list { vec_len sources.new ≡ vec_len sources.old }
{
    let mut schedule = Schedule::new(alloc, files)?;
    let mut merger = Merger::new(alloc, corners, level)?;
    play_by(
        alloc,
        corners.len(),
        &mut schedule,
        &mut merger,
        sources,
        out,
    )
}

/// Does the work of [`play_rounds`] with a schedule whose files weren't begun, and a merger that has written nothing.
fn play_by<K: Sink>(
    alloc: Global,
    count: usize,
    schedule: &mut Schedule,
    merger: &mut Merger,
    sources: &mut Vec<Box<dyn Source>>,
    out: &mut K,
) -> Result<(), Stop>
    requires corners { AreCorners merger.old.corners }
    requires stands { Stands merger.old [] }
    requires begins { schedule.old ≡ record { regions = schedule.old.regions; gone = replicate (regions_counted schedule.old.regions) 0; last = None } }
    requires few { length schedule.old.regions ≤ most_files }
    requires regions { regions_counted schedule.old.regions ≡ length merger.old.corners }
    requires count { count ≡ length merger.old.corners }
    requires sources { vec_len sources.old ≡ length schedule.old.regions }
    ensures plays { (R : Readers) → AreOfH266 R → PlaysRounds R merger.old.corners merger.old.level schedule.old.regions
        (sources_change bytes_left read_faults sources.old.items sources.new.items)
        (change K.bytes_taken K.write_faults out.old out.new) result }
    ensures stop { IfErr result IsOfCommand }
    ensures list { vec_len sources.new ≡ vec_len sources.old }
{
    let mut feeds = feeds_for(alloc, count)?;
    let mut ended = going(alloc, count)?;
    let mut rounds = 0;
    while advance_regions(alloc, schedule, &mut feeds, sources, &mut ended, rounds)? {
        play_round(schedule.is_join(), merger, &feeds, rounds, out)?;
        rounds = one_more(rounds, MOST_ROUNDS);
    }
    Ok(())
}

/// Advances each region to its next picture, in order. Returns `false` if all have ended.
///
/// `rounds` is the number of rounds before.
fn advance_regions(
    alloc: Global,
    schedule: &mut Schedule,
    feeds: &mut Vec<Feed>,
    sources: &mut Vec<Box<dyn Source>>,
    ended: &mut Vec<bool>,
    rounds: u64,
) -> Result<bool, Stop>
    requires some { 0 < vec_len feeds.old }
    requires few { vec_len feeds.old ≤ most_sources }
    requires files { length schedule.old.regions ≡ vec_len sources.old }
    requires sources { vec_len sources.old ≤ most_files }
    requires regions { length schedule.old.gone ≡ vec_len feeds.old }
    requires ended { vec_len ended.old ≡ vec_len feeds.old }
    ensures answer { (R : Readers) → AreOfH266 R → (first : List _) (passed : ℕ → List (List StreamPicture)) (own : ℕ → List StreamPicture)
        → ArePlaced R (sources_change bytes_left read_faults first sources.old.items) schedule.old feeds.old.items passed own
        → AdvancesRegions R (sources_change bytes_left read_faults first sources.new.items) schedule.old schedule.new feeds.new.items ended.new.items passed own rounds result }
    ensures schedule { SameFiles schedule.old schedule.new }
    ensures stop { IfErr result IsOfCommand }
    ensures feeds { vec_len feeds.new ≡ vec_len feeds.old }
    ensures ended { vec_len ended.new ≡ vec_len ended.old }
    ensures list { vec_len sources.new ≡ vec_len sources.old }
{
    advance_each(alloc, schedule, feeds, sources, ended)?;
    all_go_on(ended, rounds)
}

/// Advances each region to its next picture, in order, and marks those that have ended.
fn advance_each(
    alloc: Global,
    schedule: &mut Schedule,
    feeds: &mut Vec<Feed>,
    sources: &mut Vec<Box<dyn Source>>,
    ended: &mut Vec<bool>,
) -> Result<(), Stop>
    requires few { vec_len feeds.old ≤ most_sources }
    requires files { length schedule.old.regions ≡ vec_len sources.old }
    requires sources { vec_len sources.old ≤ most_files }
    requires regions { length schedule.old.gone ≡ vec_len feeds.old }
    requires ended { vec_len ended.old ≡ vec_len feeds.old }
    ensures answer { (R : Readers) → AreOfH266 R → (first : List _) (passed : ℕ → List (List StreamPicture)) (own : ℕ → List StreamPicture)
        → ArePlaced R (sources_change bytes_left read_faults first sources.old.items) schedule.old feeds.old.items passed own
        → AdvancesEach R (sources_change bytes_left read_faults first sources.new.items) schedule.old schedule.new feeds.new.items ended.new.items passed own result }
    ensures schedule { SameFiles schedule.old schedule.new }
    ensures stop { IfErr result IsOfCommand }
    ensures feeds { vec_len feeds.new ≡ vec_len feeds.old }
    ensures ended { vec_len ended.new ≡ vec_len ended.old }
    ensures list { vec_len sources.new ≡ vec_len sources.old }
{
    for k in 0..feeds.len() {
        let goes = advance_region(alloc, k as u32, schedule, &mut feeds[k], sources)?;
        ended[k] = !goes;
    }
    Ok(())
}

/// Advances region `k` to its next picture: in its current file, or in the first later file that has one. Returns `false` at its end.
fn advance_region(
    alloc: Global,
    k: u32,
    schedule: &mut Schedule,
    feed: &mut Feed,
    sources: &mut Vec<Box<dyn Source>>,
) -> Result<bool, Stop>
    requires region { k < length schedule.old.gone }
    requires files { length schedule.old.regions ≡ vec_len sources.old }
    requires sources { vec_len sources.old ≤ most_files }
    ensures answer { (R : Readers) → AreOfH266 R → (first : List _) (passed : List (List StreamPicture)) (own : List StreamPicture)
        → IsAt R (sources_change bytes_left read_faults first sources.old.items) (files_of_region schedule.old.regions k) feed.old passed own
        → AreFew passed own → length passed ≡ slice_index schedule.old.gone k
        → GoesOn R (sources_change bytes_left read_faults first sources.new.items) (files_of_region schedule.old.regions k)
        (slice_index schedule.old.gone k) (slice_index schedule.new.gone k) feed.new passed own result }
    ensures rest { (j : ℕ) → slice_index schedule.old.regions j ≢ k → slice_get sources.new.items j ≡ slice_get sources.old.items j }
    ensures schedule { SameBut k schedule.old schedule.new }
    ensures stop { IfErr result IsOfCommand }
    ensures list { vec_len sources.new ≡ vec_len sources.old }
{
    while let Some(file) = schedule.current(k) {
        if advance(feed, &mut sources[file as usize], file as u16)? {
            return Ok(true);
        }
        schedule.ended(k);
        renew(alloc, feed)?;
    }
    Ok(false)
}

/// Replaces a feed by one that has read nothing, for the next file.
fn renew(alloc: Global, feed: &mut Feed) -> Result<(), AllocError>
    ensures { OnOk result (IsUnfed feed.new) }
{
    let fresh = Feed::new(alloc)?;
    drop(replace(feed, fresh));
    Ok(())
}

/// Writes the round of the pictures that the feeds lend; `joins` says whether it comes after an end of sequence.
///
/// `rounds` is the number of rounds before.
fn play_round<K: Sink>(
    joins: bool,
    merger: &mut Merger,
    feeds: &[Feed],
    rounds: u64,
    out: &mut K,
) -> Result<(), Stop>
    requires count { length feeds.now ≡ length merger.old.corners }
    requires holds { All (λ f. HasPicture f.assembler) feeds.now }
    ensures plays { (done : List Plan) → Stands merger.old done
        → PlaysRound joins (map (λ f. lent_by f.assembler) feeds.now) done merger.new
        (change K.bytes_taken K.write_faults out.old out.new) rounds result }
    ensures task { SameTask merger.old merger.new }
    ensures stop { IfErr result IsOfCommand }
{
    match write_round(joins, merger, feeds, out) {
        Ok(()) => Ok(()),
        Err(error) => Err(Stop::of_write(error, rounds)),
    }
}

/// Writes the round, joined or as it is.
fn write_round<K: Sink>(
    joins: bool,
    merger: &mut Merger,
    feeds: &[Feed],
    out: &mut K,
) -> Result<(), WriteError>
    requires count { length feeds.now ≡ length merger.old.corners }
    requires holds { All (λ f. HasPicture f.assembler) feeds.now }
    ensures writes { (done : List Plan) → Stands merger.old done
        → WritesRound joins (map (λ f. lent_by f.assembler) feeds.now) done merger.new
        (K.bytes_taken out.old) (K.bytes_taken out.new) (K.write_faults out.old) (K.write_faults out.new) result }
    ensures task { SameTask merger.old merger.new }
{
    if joins {
        return merger.joined_round(feeds, out);
    }
    merger.round(feeds, out)
}

/// Returns the region of file `k` of a `play` command, from 0.
///
/// Returns `None` if the arguments are others, or place no such file. Files with equal corners are in one region. Regions are numbered in
/// the order in which they first appear.
pub fn play_region(words: &[String], k: usize) -> Option<usize>
    ensures region { (level : OptionOf ℕ) (placings : List PlacingAsked) → AskFor (texts words.now) (for_play level placings)
        → result ≡ slice_get (file_regions placings) k }
    ensures other { ((level : OptionOf ℕ) (placings : List PlacingAsked) → AskFor (texts words.now) (for_play level placings) → ⊥)
        → result ≡ None }
{
    match command_of(words)? {
        Command::Play { placings, .. } => file_region(placings, k),
        _ => None,
    }
}

/// Returns the region of file `k`: the number of distinct corners before the first file with its corner.
fn file_region(placings: Placings<'_>, k: usize) -> Option<usize>
    ensures { result ≡ slice_get (file_regions (spelled placings.entry.words.now)) k }
{
    if k >= placings.len() {
        return None;
    }
    let mut region = 0;
    for i in 0..first_like(placings, k) {
        if first_like(placings, i) == i {
            region += 1;
        }
    }
    Some(region)
}

/// Returns the first file with the corner of file `k`.
fn first_like(placings: Placings<'_>, k: usize) -> usize
    requires within { k < length placings.words.now }
    ensures first { let corners = corners_by (spelled placings.entry.words.now) in
        IfSome (slice_get corners k) (λ corner. result ≡ region_at_corner corners corner) }
    ensures within { result ≤ k }
{
    let corner = placings.at(k).corner();
    for i in 0..k {
        if placings.at(i).corner() == corner {
            return i;
        }
    }
    k
}
