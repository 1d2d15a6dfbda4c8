//! `verify merge`: whether a finished byte stream is the merge of its sources, round by round.

ghost use Rattle.std.specs.Prelude.{◌≡◌, ◌+◌, ◌<◌, ◌≤◌, ◌^◌, List, All, None, map, length, vec_len, IfOk, IfErr, OnOk};
ghost use Rattle.vx_pic.specs.Readings.{Picture as StreamPicture};
ghost use Rattle.vx_pic.specs.Rules.{Readers};
ghost use Rattle.vx_pic.specs.H266.{AreOfH266};
ghost use Rattle.vx_assemble.specs.Held.{HasPicture, lent_by};
ghost use Rattle.vx_run.specs.Change.{change, sources_change};
ghost use Rattle.vx_run.specs.Conclusion.{IsOfCommand};
ghost use Rattle.vx_run.specs.Rounds.{most_sources};
ghost use Rattle.vx_run.specs.Verify.{Verifies, VerifiesBy, length_differs, spots_of as spots_by, yes_text};
ghost use Rattle.vx_run.specs.inner.Advancing.{AdvancesAll, AreWaiting, GoesBy, OfAll};
ghost use Rattle.vx_run.specs.inner.Placings.{spelled};
ghost use Rattle.vx_run.specs.inner.Verifying.{VerifiesRound, VerifiesRounds, stop_in};

use crate::placings::Placings;
use crate::rounds::{MOST_SOURCES, advance_each, feeds_for, going, one_more, too_many};
use crate::stop::Stop;
use std::alloc::{AllocError, Global};
use vx_assemble::Feed;
use vx_io::{Sink, Source, write_all};
use vx_merge::{Lengths, lengths};
use vx_verify::{Mismatch, Spot, Verifier, VerifyError};

/// Runs `verify merge`: writes how many rounds there are, if file 0 is the merge of the others at their places.
pub(crate) fn verify<K: Sink>(
    alloc: Global,
    placings: Placings<'_>,
    sources: &mut Vec<Box<dyn Source>>,
    out: &mut K,
) -> Result<(), Stop>
    requires count { vec_len sources.old ≡ length placings.words.now + 1 }
    ensures verifies { Verifies (spots_by (spelled placings.entry.words.now))
        (sources_change bytes_left read_faults sources.old.items sources.new.items)
        (change K.bytes_taken K.write_faults out.old out.new) result }
    ensures list { vec_len sources.new ≡ vec_len sources.old }
{
    if placings.len() > MOST_SOURCES {
        return Err(too_many());
    }
    verify_files(alloc, placings, sources, out)
}

/// Verifies all rounds of at most 64 sources, and writes how many there are.
fn verify_files<K: Sink>(
    alloc: Global,
    placings: Placings<'_>,
    sources: &mut Vec<Box<dyn Source>>,
    out: &mut K,
) -> Result<(), Stop>
    requires few { length placings.words.now ≤ most_sources }
    requires count { vec_len sources.old ≡ length placings.words.now + 1 }
    ensures verifies { (R : Readers) → AreOfH266 R → VerifiesBy R (spots_by (spelled placings.entry.words.now))
        (sources_change bytes_left read_faults sources.old.items sources.new.items)
        (change K.bytes_taken K.write_faults out.old out.new) result }
    ensures stop { IfErr result IsOfCommand }
    ensures list { vec_len sources.new ≡ vec_len sources.old }
{
    let spots = spots_of(alloc, placings)?;
    let rounds = verify_rounds(alloc, &spots, sources)?;
    let line = yes_line(alloc, rounds)?;
    write_all(out, &line)?;
    Ok(())
}

/// Returns the place of each source.
fn spots_of(alloc: Global, placings: Placings<'_>) -> Result<Vec<Spot>, AllocError>
    ensures { IfOk result (λ spots. spots.items ≡ spots_by (spelled placings.entry.words.now)) }
{
    let mut spots = Vec::new(alloc);
    for k in 0..placings.len() {
        let placing = placings.at(k);
        spots.push(Spot {
            x: placing.x,
            y: placing.y,
        })?;
    }
    Ok(spots)
}

/// Verifies round after round, and returns how many there are.
fn verify_rounds(
    alloc: Global,
    spots: &[Spot],
    sources: &mut Vec<Box<dyn Source>>,
) -> Result<u64, Stop>
    requires few { length spots.now ≤ most_sources }
    requires count { vec_len sources.old ≡ length spots.now + 1 }
    ensures verifies { (R : Readers) → AreOfH266 R → VerifiesRounds R spots.now
        (sources_change bytes_left read_faults sources.old.items sources.new.items) result }
    ensures stop { IfErr result IsOfCommand }
    ensures list { vec_len sources.new ≡ vec_len sources.old }
{
    let mut feeds = feeds_for(alloc, sources.len())?;
    let mut ended = going(alloc, sources.len())?;
    let mut verifier = Verifier::new(alloc, spots)?;
    let mut rounds = 0;
    while advance_files(&mut feeds, sources, &mut ended, rounds)? {
        verify_round(&mut verifier, &feeds, rounds)?;
        rounds = one_more(rounds, feeds[0].unit());
    }
    Ok(rounds)
}

/// Advances each file to its next picture, in order. Returns `false` if all have ended.
///
/// `rounds` is the number of rounds before.
fn advance_files(
    feeds: &mut Vec<Feed>,
    sources: &mut Vec<Box<dyn Source>>,
    ended: &mut Vec<bool>,
    rounds: u64,
) -> Result<bool, Stop>
    requires some { 0 < vec_len sources.old }
    requires few { vec_len sources.old ≤ 65536 }
    requires feeds { vec_len feeds.old ≡ vec_len sources.old }
    requires ended { vec_len ended.old ≡ vec_len sources.old }
    ensures answer { (R : Readers) → AreOfH266 R → (first : List _) (taken : List (List StreamPicture))
        → AreWaiting R (sources_change bytes_left read_faults first sources.old.items) feeds.old.items taken rounds
        → AdvancesAll length_differs R (sources_change bytes_left read_faults first sources.new.items) feeds.new.items taken rounds result }
    ensures few { OnOk result (OfAll (λ k f. f.units ≤ 2 ^ 40) feeds.new.items) }
    ensures stop { IfErr result IsOfCommand }
    ensures feeds { vec_len feeds.new ≡ vec_len feeds.old }
    ensures ended { vec_len ended.new ≡ vec_len ended.old }
    ensures list { vec_len sources.new ≡ vec_len sources.old }
{
    advance_each(feeds, sources, ended, rounds)?;
    all_alike(ended, rounds)
}

/// Returns `true` if all files go on after `rounds` rounds, and `false` if all have ended.
///
/// *Errors:* the lowest file that has ended, if another one goes on (C5).
fn all_alike(ended: &[bool], rounds: u64) -> Result<bool, Stop>
    requires { (0 < length ended.now) × (length ended.now ≤ 65536) }
    ensures goes { GoesBy length_differs ended.now rounds result }
    ensures stop { IfErr result IsOfCommand }
{
    match lengths(ended) {
        Lengths::AllGo => Ok(true),
        Lengths::AllEnded => Ok(false),
        Lengths::Differ(file) => Err(Stop::Mismatched {
            mismatch: Mismatch::Length(file),
            picture: rounds,
        }),
    }
}

/// Verifies the round of the pictures that the feeds lend, of which the first is the finished stream's. `rounds` is the number of rounds
/// before.
fn verify_round(verifier: &mut Verifier, feeds: &[Feed], rounds: u64) -> Result<(), Stop>
    requires count { length feeds.now ≡ length verifier.old.spots + 1 }
    requires holds { All (λ f. HasPicture f.assembler) feeds.now }
    ensures verifies { verifier.old.first ≡ None → VerifiesRound verifier.old.spots (map (λ f. lent_by f.assembler) feeds.now) rounds result }
    ensures stays { OnOk result (verifier.new ≡ verifier.old) }
    ensures stop { IfErr result IsOfCommand }
{
    match verifier.round(&feeds[0].picture(), &feeds[1..]) {
        Ok(()) => Ok(()),
        Err(error) => Err(stop_of_round(error, rounds)),
    }
}

/// Returns why the command stops if round `n` isn't verified.
fn stop_of_round(error: VerifyError, n: u64) -> Stop
    ensures { result ≡ stop_in error n }
{
    match error {
        VerifyError::Refused(mismatch) => Stop::Mismatched {
            mismatch,
            picture: n,
        },
        VerifyError::Memory | VerifyError::Stopped(_) => Stop::NoMemory,
    }
}

/// Makes the line `yes pictures 2`, with this number.
fn yes_line(alloc: Global, rounds: u64) -> Result<Vec<u8>, AllocError>
    ensures { IfOk result (λ line. line.items ≡ yes_text rounds) }
{
    Ok(format!(in alloc; "yes pictures {rounds}\n")?.into_bytes())
}
