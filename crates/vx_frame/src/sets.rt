//! The rules on parameter sets.
ghost use Rattle.std.specs.Prelude.{◌≡◌, ◌<◌, ◌≤◌, ◌∷◌, [], length, IfOk};
ghost use Rattle.std.specs.Bool.{OnTrue, OnFalse};
ghost use Rattle.std.specs.Option.{option_or};
ghost use Rattle.vx_fit.specs.Lowest.{IsLowestAnswer};
ghost use Rattle.vx_sps.specs.Subpictures.{subpics_of};
ghost use Rattle.vx_pic.specs.Differences as differences;
ghost use Rattle.vx_pic.specs.Inputs as inputs;
ghost use Rattle.vx_frame.specs.Rounds.{picture_at};
ghost use Rattle.vx_frame.specs.Rules as rules;
ghost use Rattle.vx_frame.specs.inner.Found.{Finds, IsLowestField, TellsField};
ghost use Rattle.vx_frame.specs.inner.Tools as tools;

use crate::sought::{Sought, lowest_with};
use crate::told::{Differing, of_field, of_source};
use std::alloc::{AllocError, Global};
use vx_bits::rules::{PPS_TOOLS, SEVERAL_SUBPICTURES, SPS_TOOLS};
use vx_bits::{Fields, Refusal};
use vx_fields::ptl::{
    general_profile_idc, general_tier_flag, ptl_frame_only_constraint_flag,
    ptl_multilayer_enabled_flag,
};
use vx_pic::{Picture, differing_field, same_items};
use vx_pps::{Pps, keep_pps};
use vx_sps::{Sps, keep_sps};

/// The fields of a profile that sources must share: profile, tier, only frames, only one layer.
const PROFILE: [u16; 4] = [
    general_profile_idc,
    general_tier_flag,
    ptl_frame_only_constraint_flag,
    ptl_multilayer_enabled_flag,
];

// ---- several subpictures

/// Returns whether a picture has several subpictures.
pub(crate) fn has_several(picture: &Picture<'_>) -> bool
    ensures several { OnTrue result (1 < subpics_of picture.now.sps) }
    ensures alone { OnFalse result (¬ (1 < subpics_of picture.now.sps)) }
{
    1 < picture.sps().subpics()
}

/// Returns the lowest source with several subpictures.
fn lowest_several(round: &[Picture<'_>]) -> Option<u16>
    requires { length round.now ≤ 64 }
    ensures { IsLowestAnswer (length round.now) (λ k. 1 < subpics_of (picture_at round.now k).sps) result }
{
    lowest_with(round, Sought::Subpictures)
}

/// Returns the refusal of a source with several subpictures.
pub(crate) fn several_subpictures(round: &[Picture<'_>]) -> Option<Refusal>
    requires { length round.now ≤ 64 }
    ensures { Finds (length round.now) (rules.several_subpictures round.now ∷ []) result }
{
    of_source(SEVERAL_SUBPICTURES, lowest_several(round))
}

// ---- tools of sequences

/// Returns the first field of the profile that differs between two SPSs.
fn differing_profile(sps: &Sps, first: &Sps) -> Option<u16>
    ensures { result ≡ rules.differing_number rules.profile_fields sps.now first.now }
{
    let (scope, others) = (sps.scope(), first.scope());
    if scope.latest(PROFILE[0]) != others.latest(PROFILE[0]) {
        return Some(PROFILE[0]);
    }
    if scope.latest(PROFILE[1]) != others.latest(PROFILE[1]) {
        return Some(PROFILE[1]);
    }
    if scope.latest(PROFILE[2]) != others.latest(PROFILE[2]) {
        return Some(PROFILE[2]);
    }
    if scope.latest(PROFILE[3]) != others.latest(PROFILE[3]) {
        return Some(PROFILE[3]);
    }
    None
}

/// Returns the field in which an SPS differs from `first`, whose kept fields are `kept`.
fn sps_field(
    alloc: Global,
    sps: &Sps,
    first: &Sps,
    kept: &Fields,
) -> Result<Option<u16>, AllocError>
    requires { kept.now ≡ inputs.sps_fields first.now }
    ensures { IfOk result (λ field. field ≡ option_or (differences.differing_field (inputs.sps_fields sps.now) (inputs.sps_fields first.now)) (rules.differing_number rules.profile_fields sps.now first.now)) }
{
    if same_items(sps.fields().as_slice(), first.fields().as_slice()) {
        return Ok(None);
    }
    let own = keep_sps(alloc, sps)?;
    match differing_field(own.as_slice(), kept.as_slice()) {
        Some(field) => Ok(Some(field)),
        None => Ok(differing_profile(sps, first)),
    }
}

/// Returns the field in which the SPS of source `k` differs from source 0's, whose kept fields are `kept`.
fn sps_field_at(
    alloc: Global,
    round: &[Picture<'_>],
    kept: &Fields,
    k: usize,
) -> Result<Option<u16>, AllocError>
    requires k { k < length round.now }
    requires kept { kept.now ≡ rules.kept_sps (picture_at round.now 0) }
    ensures { IfOk result (TellsField (rules.sps_tools round.now).breaks (rules.sps_field round.now) k) }
{
    let field = sps_field(alloc, round[k].sps(), round[0].sps(), kept)?;
    Ok(field)
}

// ---- tools of pictures

/// Returns the field in which a PPS differs from `first`, whose kept fields are `kept`.
fn pps_field(
    alloc: Global,
    pps: &Pps,
    first: &Pps,
    kept: &Fields,
) -> Result<Option<u16>, AllocError>
    requires { kept.now ≡ inputs.pps_fields first.now }
    ensures { IfOk result (λ field. field ≡ differences.differing_field (inputs.pps_fields pps.now) kept.now) }
{
    if same_items(pps.fields().as_slice(), first.fields().as_slice()) {
        return Ok(None);
    }
    let own = keep_pps(alloc, pps)?;
    Ok(differing_field(own.as_slice(), kept.as_slice()))
}

/// Returns the field in which the PPS of source `k` differs from source 0's, whose kept fields are `kept`.
fn pps_field_at(
    alloc: Global,
    round: &[Picture<'_>],
    kept: &Fields,
    k: usize,
) -> Result<Option<u16>, AllocError>
    requires k { k < length round.now }
    requires kept { kept.now ≡ rules.kept_pps (picture_at round.now 0) }
    ensures { IfOk result (TellsField (rules.pps_tools round.now).breaks (rules.pps_field round.now) k) }
{
    let field = pps_field(alloc, round[k].pps(), round[0].pps(), kept)?;
    Ok(field)
}

// ---- tools of either

/// Which parameter set of a picture is compared.
#[derive(Clone, Copy)]
enum SetKind {
    /// Its SPS.
    Sps,
    /// Its PPS.
    Pps,
}

/// Returns the kept fields of a picture's set.
fn kept_in(alloc: Global, picture: &Picture<'_>, set: SetKind) -> Result<Fields, AllocError>
    ensures { IfOk result (λ kept. kept ≡ tools.kept_in set picture.now) }
{
    match set {
        SetKind::Sps => keep_sps(alloc, picture.sps()),
        SetKind::Pps => keep_pps(alloc, picture.pps()),
    }
}

/// Returns the field in which the set of source `k` differs from source 0's, whose kept fields are `kept`.
fn field_at(
    alloc: Global,
    round: &[Picture<'_>],
    set: SetKind,
    kept: &Fields,
    k: usize,
) -> Result<Option<u16>, AllocError>
    requires k { k < length round.now }
    requires kept { kept.now ≡ tools.kept_in set (picture_at round.now 0) }
    ensures { IfOk result (TellsField (tools.rule_of set round.now).breaks (tools.field_of set round.now) k) }
{
    match set {
        SetKind::Sps => sps_field_at(alloc, round, kept, k),
        SetKind::Pps => pps_field_at(alloc, round, kept, k),
    }
}

/// Returns the lowest source whose set differs from source 0's in its tools.
fn lowest_other(
    alloc: Global,
    round: &[Picture<'_>],
    set: SetKind,
) -> Result<Option<Differing>, AllocError>
    requires { (0 < length round.now) × (length round.now ≤ 64) }
    ensures { IfOk result (IsLowestField (length round.now) (tools.rule_of set round.now).breaks (tools.field_of set round.now)) }
{
    let kept = kept_in(alloc, &round[0], set)?;
    for k in 0..round.len() {
        let field = field_at(alloc, round, set, &kept, k)?;
        if let Some(field) = field {
            return Ok(Some(Differing {
                source: k as u16,
                field,
            }));
        }
    }
    Ok(None)
}

/// Returns the refusal of a source whose SPS differs from source 0's in its tools.
pub(crate) fn sps_tools(alloc: Global, round: &[Picture<'_>]) -> Result<Option<Refusal>, AllocError>
    requires { (0 < length round.now) × (length round.now ≤ 64) }
    ensures { IfOk result (Finds (length round.now) (rules.sps_tools round.now ∷ [])) }
{
    let lowest = lowest_other(alloc, round, SetKind::Sps)?;
    Ok(of_field(SPS_TOOLS, lowest))
}

/// Returns the refusal of a source whose PPS differs from source 0's in its tools.
pub(crate) fn pps_tools(alloc: Global, round: &[Picture<'_>]) -> Result<Option<Refusal>, AllocError>
    requires { (0 < length round.now) × (length round.now ≤ 64) }
    ensures { IfOk result (Finds (length round.now) (rules.pps_tools round.now ∷ [])) }
{
    let lowest = lowest_other(alloc, round, SetKind::Pps)?;
    Ok(of_field(PPS_TOOLS, lowest))
}
