//! The verdict on the pictures of a round whose sets break no rule.
ghost use Rattle.std.specs.Prelude.{◌≡◌, ◌<◌, ◌≤◌, ◌∷◌, [], ◌++◌, length, None, IfOk};
ghost use Rattle.vx_frame.specs.Rules as rules;
ghost use Rattle.vx_frame.specs.inner.Found.{Finds};
ghost use Rattle.vx_frame.specs.inner.Frames.{KnownWhereKept, SomePassed};
ghost use Rattle.vx_frame.specs.inner.Gathered.{AreGathered};

use crate::bodies::RoundBodies;
use crate::borders::filter_flags;
use crate::filters::too_many_filters;
use crate::frame::RoundFrame;
use crate::headers::{picture_header, picture_kind, reference_lists, shared_sets};
use crate::sets::pps_tools;
use crate::slices::{collocated_pictures, output_of_prior};
use std::alloc::{AllocError, Global};
use vx_bits::Refusal;
use vx_pic::Picture;

/// Returns the verdict by the rule on PPSs. A kept frame has passed it.
fn verdict_of_pps(
    alloc: Global,
    round: &[Picture<'_>],
    frame: &RoundFrame,
) -> Result<Option<Refusal>, AllocError>
    requires count { (0 < length round.now) × (length round.now ≤ 64) }
    requires frame { KnownWhereKept (Finds (length round.now) (rules.pps_tools round.now ∷ []) None) round.now frame.now }
    ensures { IfOk result (Finds (length round.now) (rules.pps_tools round.now ∷ [])) }
{
    match frame {
        RoundFrame::Kept(_) => Ok(None),
        RoundFrame::New(_) => pps_tools(alloc, round),
    }
}

/// Returns the verdict by the rule on loop filters. A kept frame has passed it.
fn verdict_of_flags(round: &[Picture<'_>], frame: &RoundFrame) -> Option<Refusal>
    requires count { (0 < length round.now) × (length round.now ≤ 64) }
    requires frame { KnownWhereKept (Finds (length round.now) (rules.filter_flags round.now ∷ []) None) round.now frame.now }
    ensures { Finds (length round.now) (rules.filter_flags round.now ∷ []) result }
{
    match frame {
        RoundFrame::Kept(_) => None,
        RoundFrame::New(geometry) => filter_flags(round, geometry.layouts.as_slice()),
    }
}

/// Returns the verdict by the rules on pictures.
fn verdict_of_pictures(
    alloc: Global,
    round: &[Picture<'_>],
    gathered: &RoundBodies<'_>,
    frame: &RoundFrame,
) -> Result<Option<Refusal>, AllocError>
    requires count { (0 < length round.now) × (length round.now ≤ 64) }
    requires gathered { AreGathered round.now gathered.now }
    requires frame { KnownWhereKept (Finds (length round.now) (rules.pps_tools round.now ∷ []) None) round.now frame.now }
    ensures { IfOk result (Finds (length round.now) (rules.rules_of_pictures round.now)) }
{
    if let Some(refusal) = picture_kind(round) {
        return Ok(Some(refusal));
    }
    let of_pps = verdict_of_pps(alloc, round, frame)?;
    if let Some(refusal) = of_pps {
        return Ok(Some(refusal));
    }
    let of_header = picture_header(alloc, round, gathered)?;
    if let Some(refusal) = of_header {
        return Ok(Some(refusal));
    }
    if let Some(refusal) = shared_sets(round, gathered) {
        return Ok(Some(refusal));
    }
    Ok(reference_lists(round))
}

/// Returns the verdict by the rules on slices.
fn verdict_of_slices(
    round: &[Picture<'_>],
    gathered: &RoundBodies<'_>,
    frame: &RoundFrame,
) -> Option<Refusal>
    requires count { (0 < length round.now) × (length round.now ≤ 64) }
    requires gathered { AreGathered round.now gathered.now }
    requires frame { KnownWhereKept (Finds (length round.now) (rules.filter_flags round.now ∷ []) None) round.now frame.now }
    ensures { Finds (length round.now) (rules.rules_of_slices round.now) result }
{
    if let Some(refusal) = output_of_prior(round) {
        return Some(refusal);
    }
    if let Some(refusal) = too_many_filters(&gathered.filters) {
        return Some(refusal);
    }
    if let Some(refusal) = verdict_of_flags(round, frame) {
        return Some(refusal);
    }
    collocated_pictures(round)
}

/// Returns the verdict on a round whose sets break no rule.
pub(crate) fn verdict(
    alloc: Global,
    round: &[Picture<'_>],
    gathered: &RoundBodies<'_>,
    frame: &RoundFrame,
) -> Result<Option<Refusal>, AllocError>
    requires count { (0 < length round.now) × (length round.now ≤ 64) }
    requires gathered { AreGathered round.now gathered.now }
    requires frame { KnownWhereKept (SomePassed round.now) round.now frame.now }
    ensures { IfOk result (Finds (length round.now) (rules.rules_of_pictures round.now ++ rules.rules_of_slices round.now)) }
{
    let of_pictures = verdict_of_pictures(alloc, round, gathered, frame)?;
    if let Some(refusal) = of_pictures {
        return Ok(Some(refusal));
    }
    Ok(verdict_of_slices(round, gathered, frame))
}
