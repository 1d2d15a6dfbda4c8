//! What is in force at a slice of a picture.
ghost use Rattle.std.specs.Prelude.{◌≡◌, ◌++◌, true, pos, neg_ℤ, ◌+ℤ◌, ◌≤ℤ◌, map, option_map, option_copied, OnOk, IfOk};
ghost use Rattle.vx_pic.specs.Sets as sets;
ghost use Rattle.vx_pic.specs.Sets.{named, filter_items, is_qp};
ghost use Rattle.vx_pic.specs.Parts.{read_of};
ghost use Rattle.vx_pic.specs.Inputs.{alf_of, bodies_of, named_body, is_used, lmcs_of, scaling_of, lists_in_force};
ghost use Rattle.vx_pic.specs.Seen.{alf_seen};
ghost use Rattle.vx_pic.specs.inner.Bodies.{luma_of};
ghost use Rattle.vx_fields.specs.declared.alf.TheConstants as alf_fields;
ghost use Rattle.vx_fields.specs.declared.pps.TheConstants as pps_fields;
ghost use Rattle.vx_aps.specs.declared.aps.TheConstants as types;

use crate::numbers::number_of;
use crate::picture::Picture;
use std::alloc::{AllocError, Global};
use vx_aps::{ALF, LMCS, SCALING};
use vx_bits::{BodyList, Fields, Item};
use vx_fields::alf::{
    alf_aps_id_chroma, alf_aps_id_luma, alf_cb_enabled_flag, alf_cc_cb_aps_id, alf_cc_cr_aps_id,
    alf_cr_enabled_flag, alf_enabled_flag,
};
use vx_fields::ph::{
    ph_chroma_residual_scale_flag, ph_explicit_scaling_list_enabled_flag, ph_lmcs_aps_id,
    ph_lmcs_enabled_flag, ph_qp_delta, ph_scaling_list_aps_id,
};
use vx_fields::pps::{
    pps_alf_info_in_ph_flag, pps_init_qp_minus26, pps_qp_delta_info_in_ph_flag,
    pps_rpl_info_in_ph_flag,
};
use vx_fields::sh::{
    sh_explicit_scaling_list_used_flag, sh_lmcs_used_flag, sh_picture_header_in_slice_header_flag,
    sh_qp_delta,
};
use vx_rpl::{RefList, RefLists};
use vx_sh::SliceHeader;
use vx_table::natural;

/// The adaptive loop filter in force at a slice, with the bodies of its adaptation parameter sets.
#[derive(Drop)]
pub struct AlfInForce<'a> {
    /// Whether it is on.
    pub enabled: bool,
    /// The bodies for luma, in order.
    pub luma: BodyList<'a>,
    /// Whether Cb is filtered.
    pub cb: bool,
    /// Whether Cr is filtered.
    pub cr: bool,
    /// The body for chroma.
    pub chroma: Option<&'a [u8]>,
    /// The body with which Cb is filtered by luma.
    pub cc_cb: Option<&'a [u8]>,
    /// The body with which Cr is filtered by luma.
    pub cc_cr: Option<&'a [u8]>,
}

/// Returns the body of the adaptation parameter set of type `kind` that `field` names, if the field is present. Takes no memory.
pub fn body_named<'a>(
    picture: &Picture<'a>,
    kind: u8,
    field: u16,
    items: &Fields,
) -> Option<&'a [u8]>
    ensures { option_copied result ≡ named_body picture.now kind field items.now }
{
    match items.first(field) {
        Some(id) => picture.body_of(kind, natural(id)),
        None => None,
    }
}

/// Appends the body for luma that an item names.
fn push_luma<'a>(
    bodies: &mut BodyList<'a>,
    picture: &Picture<'a>,
    item: Item,
) -> Result<(), AllocError>
    ensures { OnOk result (map (λ body. body.now) bodies.new ≡ map (λ body. body.now) bodies.old ++ luma_of picture.now item) }
{
    if item.field != alf_aps_id_luma {
        return Ok(());
    }
    match picture.body_of(ALF, natural(item.value)) {
        Some(body) => bodies.push(body),
        None => Ok(()),
    }
}

/// Returns the bodies for luma that items name, in order.
///
/// # Errors
///
/// `AllocError` if memory runs out.
#[tactic(auto, using(crate::proofs::Bodies::luma_more))]
pub fn luma_bodies<'a>(
    alloc: Global,
    picture: &Picture<'a>,
    items: &Fields,
) -> Result<BodyList<'a>, AllocError>
    ensures { IfOk result (λ l. map (λ body. body.now) l ≡ bodies_of picture.now (named types.ALF alf_fields.alf_aps_id_luma items.now)) }
{
    let mut bodies = BodyList::new(alloc);
    for i in 0..items.len() {
        push_luma(&mut bodies, picture, items.item(i))?;
    }
    Ok(bodies)
}

/// Returns the adaptive loop filter from the items of a header.
fn alf_in<'a>(
    alloc: Global,
    picture: &Picture<'a>,
    items: &Fields,
) -> Result<AlfInForce<'a>, AllocError>
    ensures { IfOk result (λ alf. alf_seen alf ≡ alf_of picture.now items.now) }
{
    Ok(AlfInForce {
        enabled: number_of(items, alf_enabled_flag) != 0,
        luma: luma_bodies(alloc, picture, items)?,
        cb: number_of(items, alf_cb_enabled_flag) != 0,
        cr: number_of(items, alf_cr_enabled_flag) != 0,
        chroma: body_named(picture, ALF, alf_aps_id_chroma, items),
        cc_cb: body_named(picture, ALF, alf_cc_cb_aps_id, items),
        cc_cr: body_named(picture, ALF, alf_cc_cr_aps_id, items),
    })
}

/// Returns the items that contain the adaptive loop filter of a slice: the picture header's or its own. Takes no memory.
pub fn filter_fields<'s, 'a: 's>(picture: &Picture<'a>, slice: &'s SliceHeader) -> &'s Fields
    ensures { result.now ≡ filter_items picture.now.pps picture.now.header.fields (read_of slice.now) }
{
    if picture.pps().scope().latest(pps_alf_info_in_ph_flag) != 0 {
        &picture.header().fields
    } else {
        &slice.fields
    }
}

/// Returns the adaptive loop filter of a slice: the picture header's or its own.
///
/// # Errors
///
/// `AllocError` if memory runs out.
pub fn alf_in_force<'a>(
    alloc: Global,
    picture: &Picture<'a>,
    slice: &SliceHeader,
) -> Result<AlfInForce<'a>, AllocError>
    ensures { IfOk result (λ alf. alf_seen alf ≡ alf_of picture.now (filter_items picture.now.pps picture.now.header.fields (read_of slice.now))) }
{
    alf_in(alloc, picture, filter_fields(picture, slice))
}

/// Returns whether a slice uses what the picture header may enable.
fn uses(header: &Fields, slice: &SliceHeader, enabled: u16, used: u16) -> bool
    ensures { result ≡ is_used header.now slice.now enabled used }
{
    number_of(header, enabled) != 0
        && (number_of(&slice.fields, sh_picture_header_in_slice_header_flag) != 0
            || number_of(&slice.fields, used) != 0)
}

/// Returns luma mapping with chroma scaling, if the slice uses it: its body, and ph_chroma_residual_scale_flag.
pub(crate) fn lmcs_in_force<'a>(
    picture: &Picture<'a>,
    slice: &SliceHeader,
) -> Option<(&'a [u8], bool)>
    ensures { option_map (λ x. (x.0.now, x.1)) result ≡ lmcs_of picture.now slice.now }
{
    let header = &picture.header().fields;
    if !uses(header, slice, ph_lmcs_enabled_flag, sh_lmcs_used_flag) {
        return None;
    }
    let scaled = number_of(header, ph_chroma_residual_scale_flag) != 0;
    body_named(picture, LMCS, ph_lmcs_aps_id, header).map(|body| (body, scaled))
}

/// Returns scaling lists, if the slice uses them.
pub(crate) fn scaling_in_force<'a>(picture: &Picture<'a>, slice: &SliceHeader) -> Option<&'a [u8]>
    ensures { option_copied result ≡ scaling_of picture.now slice.now }
{
    let header = &picture.header().fields;
    let (enabled, used) = (
        ph_explicit_scaling_list_enabled_flag,
        sh_explicit_scaling_list_used_flag,
    );
    if !uses(header, slice, enabled, used) {
        return None;
    }
    body_named(picture, SCALING, ph_scaling_list_aps_id, header)
}

/// Returns a copy of a reference picture list.
#[tactic(auto, using(crate::proofs::Spans::gained))]
fn copied(alloc: Global, list: &RefList) -> Result<RefList, AllocError>
    ensures { IfOk result (λ copy. copy ≡ list.now) }
{
    let mut copy = RefList::new(alloc);
    for i in 0..list.len() {
        copy.push(list.item(i))?;
    }
    Ok(copy)
}

/// Returns both reference picture lists of a slice: the picture header's or its own.
pub(crate) fn lists_of_slice(
    alloc: Global,
    picture: &Picture<'_>,
    slice: &SliceHeader,
) -> Result<RefLists, AllocError>
    ensures { IfOk result (λ lists. lists ≡ lists_in_force picture.now slice.now) }
{
    let in_header = picture.pps().scope().latest(pps_rpl_info_in_ph_flag) != 0;
    let lists = if in_header {
        &picture.header().lists
    } else {
        &slice.lists
    };
    Ok(RefLists {
        first: copied(alloc, &lists.first)?,
        second: copied(alloc, &lists.second)?,
    })
}

/// Returns the value of a field, or 0 if it is absent.
fn signed(items: &Fields, field: u16) -> i64
    ensures { result ≡ sets.signed items.now field }
{
    items.first(field).unwrap_or(0)
}

/// Returns ph_qp_delta or sh_qp_delta.
fn qp_delta(picture: &Picture<'_>, slice: &SliceHeader) -> i64
    ensures { result ≡ sets.qp_delta picture.now.pps picture.now.header.fields (read_of slice.now) }
{
    if picture.pps().scope().latest(pps_qp_delta_info_in_ph_flag) != 0 {
        signed(&picture.header().fields, ph_qp_delta)
    } else {
        signed(&slice.fields, sh_qp_delta)
    }
}

/// Returns pps_init_qp_minus26.
fn init_qp(picture: &Picture<'_>) -> i64
    ensures { result ≡ sets.signed picture.now.pps pps_fields.pps_init_qp_minus26 }
{
    signed(picture.pps().fields(), pps_init_qp_minus26)
}

/// Returns the sum of 26 and both parts of SliceQpY.
fn total_qp(init: i64, delta: i64) -> i32
    requires low { neg_ℤ (pos 12) ≤ℤ ((init +ℤ delta) +ℤ pos 26) }
    requires high { ((init +ℤ delta) +ℤ pos 26) ≤ℤ pos 63 }
    ensures { result ≡ (init +ℤ delta) +ℤ pos 26 }
{
    (init + delta + 26) as i32
}

/// Returns SliceQpY of a slice.
#[tactic(auto, using(crate::proofs::Ranges::qp_low, crate::proofs::Ranges::qp_high, crate::proofs::Ranges::qp_sum))]
pub(crate) fn slice_qp_of(picture: &Picture<'_>, slice: &SliceHeader) -> i32
    requires { is_qp picture.now.sps (sets.slice_qp picture.now.pps picture.now.header.fields (read_of slice.now)) ≡ true }
    ensures { result ≡ sets.slice_qp picture.now.pps picture.now.header.fields (read_of slice.now) }
{
    // The items of an SPS are in their ranges, including the bit depth, which bounds the QP.
    let _sps = picture.sps_fields();
    total_qp(init_qp(picture), qp_delta(picture, slice))
}
