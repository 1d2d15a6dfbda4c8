//! The checks of a round, in their order.
ghost use Rattle.std.specs.Prelude.{◌≡◌, ◌<◌, ◌≤◌, suc, length, IfOk};
ghost use Rattle.std.specs.Bool.{OnTrue, OnFalse};
ghost use Rattle.vx_sps.specs.Subpictures.{subpics_of};
ghost use Rattle.vx_verify.specs.Verified as words;
ghost use Rattle.vx_verify.specs.inner.Found.{AllOf, Finds, IsLowestFile};

use crate::inputs::input_mismatch;
use crate::mismatch::Mismatch;
use crate::places::places;
use crate::spot::Spot;
use std::alloc::{AllocError, Global};
use vx_pic::Picture;

/// C1: returns the lowest file whose picture has another number of subpictures than it should.
fn lowest_count(finished: &Picture<'_>, round: &[Picture<'_>]) -> Option<u16>
    requires { length round.now ≤ 64 }
    ensures { IsLowestFile (suc (length round.now)) (words.count_check finished.now round.now).fails
        ((subpics_of finished.now.sps ≡ length round.now) × AllOf round.now words.IsAlone) result }
{
    if finished.sps().subpics() as usize != round.len() {
        return Some(0);
    }
    for k in 0..round.len() {
        if round[k].sps().subpics() != 1 {
            return Some(k as u16 + 1);
        }
    }
    None
}

/// Returns whether a subpicture is at this place.
fn stands_at(picture: &Picture<'_>, k: u32, spot: Spot) -> bool
    requires { k < subpics_of picture.now.sps }
    ensures there { OnTrue result (words.StandsAtSpot picture.now k spot) }
    ensures elsewhere { OnFalse result (¬ words.StandsAtSpot picture.now k spot) }
{
    let sps = picture.sps();
    let (rect, ctb) = (sps.rect(k), u64::from(sps.ctb()));
    if u64::from(rect.x) * ctb != u64::from(spot.x) {
        return false;
    }
    u64::from(rect.y) * ctb == u64::from(spot.y)
}

/// C2: returns the lowest file whose subpicture isn't at its place.
fn lowest_moved(spots: &[Spot], finished: &Picture<'_>) -> Option<u16>
    requires few { length spots.now ≤ 64 }
    requires count { subpics_of finished.now.sps ≡ length spots.now }
    ensures { IsLowestFile (suc (length spots.now)) (words.corner_check spots.now finished.now).fails (AllOf spots.now (words.StandsAtSpot finished.now)) result }
{
    for k in 0..spots.len() {
        if !stands_at(finished, k as u32, spots[k]) {
            return Some(k as u16 + 1);
        }
    }
    None
}

/// Returns whether a subpicture has as many slices as a source's picture.
fn has_as_many(
    alloc: Global,
    finished: &Picture<'_>,
    k: u32,
    source: &Picture<'_>,
) -> Result<bool, AllocError>
    ensures same { IfOk result (λ same. OnTrue same (words.HasAsMany finished.now k source.now)) }
    ensures other { IfOk result (λ same. OnFalse same (¬ words.HasAsMany finished.now k source.now)) }
{
    let own = places(alloc, finished, k)?;
    let others = places(alloc, source, 0)?;
    Ok(own.len() == others.len())
}

/// C3: returns the lowest file whose picture has another number of slices than its subpicture.
fn lowest_uneven(
    alloc: Global,
    finished: &Picture<'_>,
    round: &[Picture<'_>],
) -> Result<Option<u16>, AllocError>
    requires { length round.now ≤ 64 }
    ensures { IfOk result (IsLowestFile (suc (length round.now)) (words.slice_check finished.now round.now).fails (AllOf round.now (words.HasAsMany finished.now))) }
{
    for k in 0..round.len() {
        let same = has_as_many(alloc, finished, k as u32, &round[k])?;
        if !same {
            return Ok(Some(k as u16 + 1));
        }
    }
    Ok(None)
}

/// Returns the first difference in a round, or `None` if it is verified.
pub(crate) fn mismatch(
    alloc: Global,
    spots: &[Spot],
    finished: &Picture<'_>,
    round: &[Picture<'_>],
) -> Result<Option<Mismatch>, AllocError>
    requires few { length spots.now ≤ 64 }
    requires same { length round.now ≡ length spots.now }
    ensures { IfOk result (Finds spots.now finished.now round.now) }
{
    if let Some(file) = lowest_count(finished, round) {
        return Ok(Some(Mismatch::Count(file)));
    }
    if let Some(file) = lowest_moved(spots, finished) {
        return Ok(Some(Mismatch::Rect(file)));
    }
    let uneven = lowest_uneven(alloc, finished, round)?;
    if let Some(file) = uneven {
        return Ok(Some(Mismatch::Slices(file)));
    }
    let found = input_mismatch(alloc, finished, round)?;
    Ok(found)
}
