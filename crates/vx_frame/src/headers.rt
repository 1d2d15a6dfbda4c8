//! The rules on pictures and their headers.
ghost use Rattle.std.specs.Prelude.{◌≡◌, ◌≢◌, ◌<◌, ◌≤◌, ◌∷◌, [], length, IfOk, option_copied};
ghost use Rattle.std.specs.Bool.{OnTrue, OnFalse};
ghost use Rattle.vx_fit.specs.Lowest.{IsLowestAnswer};
ghost use Rattle.vx_table.specs.Loaded as loaded;
ghost use Rattle.vx_ph.specs.Depends as header_kept;
ghost use Rattle.vx_pic.specs.Differences.{differing_field as differing};
ghost use Rattle.vx_pic.specs.Inputs as inputs;
ghost use Rattle.vx_frame.specs.Bodies as bodies;
ghost use Rattle.vx_frame.specs.Rounds.{UnlikeFirst, UnlikeLowest, picture_at};
ghost use Rattle.vx_frame.specs.Rules as rules;
ghost use Rattle.vx_frame.specs.inner.Found.{Finds, HaveSameItems, IsLowestField, TellsField};
ghost use Rattle.vx_frame.specs.inner.Gathered.{AreGathered, IsLowestWith};

use crate::bodies::RoundBodies;
use crate::items::same_items;
use crate::sought::{Sought, lowest_with};
use crate::told::{Differing, of_field, of_source};
use std::alloc::{AllocError, Global};
use vx_aps::{LMCS, SCALING};
use vx_bits::rules::{PICTURE_HEADER, PICTURE_KIND, REFERENCE_LISTS, SHARED_SETS};
use vx_bits::{Fields, Kept, Refusal};
use vx_fields::ph::{
    ph_chroma_residual_scale_flag, ph_explicit_scaling_list_enabled_flag, ph_lmcs_aps_id,
    ph_lmcs_enabled_flag, ph_scaling_list_aps_id,
};
use vx_fields::pps::pps_rpl_info_in_ph_flag;
use vx_pic::{
    Picture, body_named, differing_field, header_fields, kept_among, number_of, same_body,
    same_lists,
};
use vx_rpl::RefLists;
use vx_sh::SliceHeader;

// ---- the kind

/// Returns whether two pictures have the same type, TemporalId, and end of sequence before them or none.
pub(crate) fn same_kind(a: &Picture<'_>, b: &Picture<'_>) -> bool
    ensures same { OnTrue result (rules.shared_kind a.now ≡ rules.shared_kind b.now) }
    ensures other { OnFalse result (rules.shared_kind a.now ≢ rules.shared_kind b.now) }
{
    let (a, b) = (a.kind(), b.kind());
    if a.nal_type != b.nal_type {
        return false;
    }
    if a.temporal_id != b.temporal_id {
        return false;
    }
    a.after_eos == b.after_eos
}

/// Returns the lowest source whose picture is of another kind than source 0's.
fn lowest_other_kind(round: &[Picture<'_>]) -> Option<u16>
    requires { (0 < length round.now) × (length round.now ≤ 64) }
    ensures { IsLowestAnswer (length round.now) (UnlikeFirst rules.shared_kind round.now) result }
{
    lowest_with(round, Sought::OtherKind)
}

/// Returns the refusal of a source whose picture is of another kind than source 0's.
pub(crate) fn picture_kind(round: &[Picture<'_>]) -> Option<Refusal>
    requires { (0 < length round.now) × (length round.now ≤ 64) }
    ensures { Finds (length round.now) (rules.picture_kind round.now ∷ []) result }
{
    of_source(PICTURE_KIND, lowest_other_kind(round))
}

// ---- flags and bodies of headers

/// Returns the number of a field of a picture's header.
pub fn header_number(picture: &Picture<'_>, field: u16) -> u32
    ensures { result ≡ loaded.number picture.now.header.fields field }
{
    number_of(&picture.header().fields, field)
}

/// Returns whether a picture's header has LMCS.
pub(crate) fn has_lmcs(picture: &Picture<'_>) -> bool
    ensures { result ≡ bodies.has_lmcs picture.now }
{
    header_number(picture, ph_lmcs_enabled_flag) != 0
}

/// Returns whether a picture's header has scaling lists.
pub(crate) fn has_scaling(picture: &Picture<'_>) -> bool
    ensures { result ≡ bodies.has_scaling picture.now }
{
    header_number(picture, ph_explicit_scaling_list_enabled_flag) != 0
}

/// Returns whether a picture's header scales chroma residuals.
pub fn is_chroma_scaled(picture: &Picture<'_>) -> bool
    ensures { result ≡ bodies.is_chroma_scaled picture.now }
{
    header_number(picture, ph_chroma_residual_scale_flag) != 0
}

/// Returns the body of the LMCS that a picture's header names, if the picture has it.
pub fn lmcs_body<'a>(picture: &Picture<'a>) -> Option<&'a [u8]>
    ensures { option_copied result ≡ bodies.lmcs_body picture.now }
{
    body_named(picture, LMCS, ph_lmcs_aps_id, &picture.header().fields)
}

/// Returns the body of the scaling lists that a picture's header names, if the picture has them.
pub fn scaling_body<'a>(picture: &Picture<'a>) -> Option<&'a [u8]>
    ensures { option_copied result ≡ bodies.scaling_body picture.now }
{
    body_named(
        picture,
        SCALING,
        ph_scaling_list_aps_id,
        &picture.header().fields,
    )
}

/// Returns the lowest source whose header has LMCS.
pub(crate) fn lowest_with_lmcs(round: &[Picture<'_>]) -> Option<u16>
    requires { length round.now ≤ 64 }
    ensures { IsLowestWith bodies.has_lmcs round.now result }
{
    lowest_with(round, Sought::Lmcs)
}

/// Returns the lowest source whose header has scaling lists.
pub(crate) fn lowest_with_scaling(round: &[Picture<'_>]) -> Option<u16>
    requires { length round.now ≤ 64 }
    ensures { IsLowestWith bodies.has_scaling round.now result }
{
    lowest_with(round, Sought::Scaling)
}

/// Returns whether source `k` has LMCS, and scales chroma residuals otherwise than the lowest source that has it.
fn scales_otherwise(round: &[Picture<'_>], lowest: Option<u16>, k: usize) -> bool
    requires k { k < length round.now }
    requires lowest { IsLowestWith bodies.has_lmcs round.now lowest }
    ensures unlike { OnTrue result (UnlikeLowest bodies.has_lmcs bodies.is_chroma_scaled round.now k) }
    ensures alike { OnFalse result (¬ UnlikeLowest bodies.has_lmcs bodies.is_chroma_scaled round.now k) }
{
    let Some(j) = lowest else {
        return false;
    };
    let picture = &round[k];
    if !has_lmcs(picture) {
        return false;
    }
    is_chroma_scaled(picture) != is_chroma_scaled(&round[usize::from(j)])
}

/// Returns whether source `k` has LMCS that differs from that of the lowest source that has it.
pub(crate) fn has_other_lmcs(round: &[Picture<'_>], lowest: Option<u16>, k: usize) -> bool
    requires k { k < length round.now }
    requires lowest { IsLowestWith bodies.has_lmcs round.now lowest }
    ensures unlike { OnTrue result (UnlikeLowest bodies.has_lmcs bodies.lmcs_body round.now k) }
    ensures alike { OnFalse result (¬ UnlikeLowest bodies.has_lmcs bodies.lmcs_body round.now k) }
{
    let Some(j) = lowest else {
        return false;
    };
    let picture = &round[k];
    if !has_lmcs(picture) {
        return false;
    }
    !same_body(lmcs_body(picture), lmcs_body(&round[usize::from(j)]))
}

/// Returns whether source `k` has scaling lists that differ from those of the lowest source that has them.
pub(crate) fn has_other_scaling(round: &[Picture<'_>], lowest: Option<u16>, k: usize) -> bool
    requires k { k < length round.now }
    requires lowest { IsLowestWith bodies.has_scaling round.now lowest }
    ensures unlike { OnTrue result (UnlikeLowest bodies.has_scaling bodies.scaling_body round.now k) }
    ensures alike { OnFalse result (¬ UnlikeLowest bodies.has_scaling bodies.scaling_body round.now k) }
{
    let Some(j) = lowest else {
        return false;
    };
    let picture = &round[k];
    if !has_scaling(picture) {
        return false;
    }
    !same_body(scaling_body(picture), scaling_body(&round[usize::from(j)]))
}

// ---- the header

/// Returns the kept fields of a picture's header, which are among `fields`.
fn kept_header(alloc: Global, picture: &Picture<'_>, fields: &[u16]) -> Result<Kept, AllocError>
    requires { fields.now ≡ header_kept.kept_ph_fields }
    ensures { IfOk result (λ kept. kept ≡ rules.kept_header picture.now) }
{
    let kept = kept_among(alloc, &picture.header().fields, fields)?;
    Ok(kept)
}

/// Returns the field in which the kept fields of a picture's header differ from `first`.
fn kept_header_field(
    alloc: Global,
    picture: &Picture<'_>,
    fields: &[u16],
    first: &Kept,
) -> Result<Option<u16>, AllocError>
    requires { fields.now ≡ header_kept.kept_ph_fields }
    ensures { IfOk result (λ field. field ≡ differing (rules.kept_header picture.now) first.now) }
{
    let own = kept_header(alloc, picture, fields)?;
    Ok(differing_field(own.as_slice(), first.as_slice()))
}

/// Returns the field in which the header of source `k` differs from source 0's, whose kept fields are `first`.
fn header_field(
    alloc: Global,
    round: &[Picture<'_>],
    fields: &[u16],
    first: &Kept,
    lowest: Option<u16>,
    k: usize,
) -> Result<Option<u16>, AllocError>
    requires k { k < length round.now }
    requires fields { fields.now ≡ header_kept.kept_ph_fields }
    requires first { first.now ≡ rules.kept_header (picture_at round.now 0) }
    requires lowest { IsLowestWith bodies.has_lmcs round.now lowest }
    ensures { IfOk result (TellsField (rules.picture_header round.now).breaks (rules.header_field round.now) k) }
{
    let kept = kept_header_field(alloc, &round[k], fields, first)?;
    if let Some(field) = kept {
        return Ok(Some(field));
    }
    if scales_otherwise(round, lowest, k) {
        return Ok(Some(ph_chroma_residual_scale_flag));
    }
    Ok(None)
}

/// Returns whether the headers of all sources have the same items.
fn have_same_items(round: &[Picture<'_>]) -> bool
    requires { 0 < length round.now }
    ensures { OnTrue result (HaveSameItems (length round.now) round.now) }
{
    for k in 0..round.len() {
        if !same_items(&round[k].header().fields, &round[0].header().fields) {
            return false;
        }
    }
    true
}

/// Returns the lowest source whose header differs from source 0's, whose kept fields are `first`.
fn lowest_in_headers(
    alloc: Global,
    round: &[Picture<'_>],
    fields: &[u16],
    first: &Kept,
    lowest: Option<u16>,
) -> Result<Option<Differing>, AllocError>
    requires few { length round.now ≤ 64 }
    requires fields { fields.now ≡ header_kept.kept_ph_fields }
    requires first { first.now ≡ rules.kept_header (picture_at round.now 0) }
    requires lowest { IsLowestWith bodies.has_lmcs round.now lowest }
    ensures { IfOk result (IsLowestField (length round.now) (rules.picture_header round.now).breaks (rules.header_field round.now)) }
{
    for k in 0..round.len() {
        let field = header_field(alloc, round, fields, first, lowest, k)?;
        if let Some(field) = field {
            return Ok(Some(Differing {
                source: k as u16,
                field,
            }));
        }
    }
    Ok(None)
}

/// Returns the lowest source whose header differs from source 0's.
fn lowest_other_header(
    alloc: Global,
    round: &[Picture<'_>],
    lowest: Option<u16>,
) -> Result<Option<Differing>, AllocError>
    requires count { (0 < length round.now) × (length round.now ≤ 64) }
    requires lowest { IsLowestWith bodies.has_lmcs round.now lowest }
    ensures { IfOk result (IsLowestField (length round.now) (rules.picture_header round.now).breaks (rules.header_field round.now)) }
{
    // Most rounds end here.
    if have_same_items(round) {
        return Ok(None);
    }
    let fields = header_fields(alloc)?;
    let first = kept_header(alloc, &round[0], fields.as_slice())?;
    lowest_in_headers(alloc, round, fields.as_slice(), &first, lowest)
}

/// Returns the refusal of a source whose header differs from source 0's.
pub(crate) fn picture_header(
    alloc: Global,
    round: &[Picture<'_>],
    gathered: &RoundBodies<'_>,
) -> Result<Option<Refusal>, AllocError>
    requires count { (0 < length round.now) × (length round.now ≤ 64) }
    requires gathered { AreGathered round.now gathered.now }
    ensures { IfOk result (Finds (length round.now) (rules.picture_header round.now ∷ [])) }
{
    let lowest = lowest_other_header(alloc, round, gathered.lmcs)?;
    Ok(of_field(PICTURE_HEADER, lowest))
}

/// Returns the lowest source whose LMCS or scaling lists differ.
fn lowest_other_sets(round: &[Picture<'_>], lmcs: Option<u16>, scaling: Option<u16>) -> Option<u16>
    requires few { length round.now ≤ 64 }
    requires lmcs { IsLowestWith bodies.has_lmcs round.now lmcs }
    requires scaling { IsLowestWith bodies.has_scaling round.now scaling }
    ensures { IsLowestAnswer (length round.now) (rules.shared_sets round.now).breaks result }
{
    lowest_with(round, Sought::OtherSets { lmcs, scaling })
}

/// Returns the refusal of a source whose LMCS or scaling lists differ.
pub(crate) fn shared_sets(round: &[Picture<'_>], gathered: &RoundBodies<'_>) -> Option<Refusal>
    requires few { length round.now ≤ 64 }
    requires gathered { AreGathered round.now gathered.now }
    ensures { Finds (length round.now) (rules.shared_sets round.now ∷ []) result }
{
    let lowest = lowest_other_sets(round, gathered.lmcs, gathered.scaling);
    of_source(SHARED_SETS, lowest)
}

// ---- reference picture lists

/// Returns both reference picture lists of a slice: the picture header's or its own.
pub(crate) fn lists_of<'a>(picture: &Picture<'a>, slice: &'a SliceHeader) -> &'a RefLists
    ensures { result.now ≡ inputs.lists_in_force picture.now slice.now }
{
    if picture.pps().scope().latest(pps_rpl_info_in_ph_flag) != 0 {
        &picture.header().lists
    } else {
        &slice.lists
    }
}

/// Returns the reference picture lists of a picture's first slice.
fn first_lists<'a>(picture: &Picture<'a>) -> &'a RefLists
    ensures { rules.first_lists picture.now ≡ result.now ∷ [] }
{
    // The call states that there is a slice.
    let _count = picture.slice_count();
    lists_of(picture, picture.slice(0).header)
}

/// Returns whether the first slices of two pictures have the same reference picture lists.
pub(crate) fn same_first_lists(a: &Picture<'_>, b: &Picture<'_>) -> bool
    ensures same { OnTrue result (rules.first_lists a.now ≡ rules.first_lists b.now) }
    ensures other { OnFalse result (rules.first_lists a.now ≢ rules.first_lists b.now) }
{
    if same_lists(first_lists(a), first_lists(b)) {
        return true;
    }
    false
}

/// Returns the lowest source whose first slice has other lists than source 0's.
fn lowest_other_lists(round: &[Picture<'_>]) -> Option<u16>
    requires { (0 < length round.now) × (length round.now ≤ 64) }
    ensures { IsLowestAnswer (length round.now) (UnlikeFirst rules.first_lists round.now) result }
{
    lowest_with(round, Sought::OtherLists)
}

/// Returns the refusal of a source whose first slice has other lists than source 0's.
pub(crate) fn reference_lists(round: &[Picture<'_>]) -> Option<Refusal>
    requires { (0 < length round.now) × (length round.now ≤ 64) }
    ensures { Finds (length round.now) (rules.reference_lists round.now ∷ []) result }
{
    of_source(REFERENCE_LISTS, lowest_other_lists(round))
}
