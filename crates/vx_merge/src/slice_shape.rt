//! What the header of a slice says in the merged picture.
ghost use Rattle.std.specs.Prelude.{◌≡◌, pos, neg_ℤ, ◌+ℤ◌, ◌-ℤ◌, ◌≤ℤ◌, true, length, map, option_copied, IfOk};
ghost use Rattle.vx_fields.specs.declared.alf.TheConstants as alf_fields;
ghost use Rattle.vx_fields.specs.declared.pps.TheConstants as pps_fields;
ghost use Rattle.vx_table.specs.Depends.{has};
ghost use Rattle.vx_aps.specs.declared.aps.TheConstants as types;
ghost use Rattle.vx_ph.specs.Filter.{filter_of, set_ids, with_ids};
ghost use Rattle.vx_pic.specs.Inputs as inputs;
ghost use Rattle.vx_pic.specs.Inputs.{body_of};
ghost use Rattle.vx_pic.specs.Parts.{read_of};
ghost use Rattle.vx_pic.specs.Sets as sets;
ghost use Rattle.vx_pic.specs.Sets.{is_qp, slice_qp};
ghost use Rattle.vx_merge.specs.Needed as words;
ghost use Rattle.vx_merge.specs.inner.Fronts.{HasShape, new_filter, new_id};
ghost use Rattle.vx_merge.specs.inner.Fronts as spec;

use crate::needed::NamedBodies;
use std::alloc::{AllocError, Global};
use vx_aps::ALF;
use vx_bits::{Fields, Item};
use vx_fields::alf::{
    alf_aps_id_chroma, alf_aps_id_luma, alf_cc_cb_aps_id, alf_cc_cr_aps_id, alf_enabled_flag,
};
use vx_fields::ph::{ph_explicit_scaling_list_enabled_flag, ph_lmcs_enabled_flag, ph_qp_delta};
use vx_fields::pps::pps_qp_delta_info_in_ph_flag;
use vx_fields::sh::{
    sh_explicit_scaling_list_used_flag, sh_lmcs_used_flag, sh_picture_header_in_slice_header_flag,
    sh_qp_delta,
};
use vx_frame::{header_number, init_qp, same_bytes};
use vx_pic::{Picture, filter_fields, number_of};
use vx_sh::{ShShape, SliceHeader};
use vx_table::natural;

/// How many ids adaptive loop filters have.
const MOST_IDS: u32 = 8;

/// The fields of a filter that name a set.
const NAMING: [u16; 4] = [
    alf_aps_id_luma,
    alf_aps_id_chroma,
    alf_cc_cb_aps_id,
    alf_cc_cr_aps_id,
];

// ---- the filter

/// Returns whether a field belongs to a filter. The numbers of such fields are consecutive.
fn is_of_filter(field: u16) -> bool
    ensures { result ≡ has alf_fields.ALL field }
{
    alf_enabled_flag <= field && field <= alf_cc_cr_aps_id
}

/// Returns whether a field of a filter names a set.
fn names_set(field: u16) -> bool
    ensures { result ≡ has set_ids field }
{
    NAMING.contains(&field)
}

/// Returns the id that a body takes, or 0 if the body isn't among these.
fn id_of(named: &NamedBodies<'_>, body: &[u8]) -> u8
    requires { length named.now.ids.items ≡ length named.now.bodies }
    ensures { result ≡ words.id_of_body (map (λ b. b.now) named.now.bodies) named.now.ids.items body.now }
{
    let ids = named.ids.as_slice();
    for i in 0..named.bodies.len() {
        if same_bytes(named.bodies.item(i), body) {
            return ids[i];
        }
    }
    0
}

/// Returns the body of the adaptive loop filter with this id, if the picture has it.
fn filter_body<'a>(picture: &Picture<'a>, id: u32) -> Option<&'a [u8]>
    ensures { option_copied result ≡ body_of picture.now types.ALF id }
{
    if MOST_IDS <= id {
        return None;
    }
    picture.body(ALF, id as u8)
}

/// Returns the new id of the body that the picture has under this id.
fn new_id(named: &NamedBodies<'_>, picture: &Picture<'_>, id: u32) -> u8
    requires { length named.now.ids.items ≡ length named.now.bodies }
    ensures { result ≡ spec.new_id named.now picture.now id }
{
    match filter_body(picture, id) {
        Some(body) => id_of(named, body),
        None => id_of(named, &[]),
    }
}

/// Returns an item of a filter, with the new id if it names a set.
fn renamed(named: &NamedBodies<'_>, picture: &Picture<'_>, item: Item) -> Item
    requires { length named.now.ids.items ≡ length named.now.bodies }
    ensures { result ≡ spec.renamed named.now picture.now item }
{
    if !names_set(item.field) {
        return item;
    }
    Item {
        field: item.field,
        value: i64::from(new_id(named, picture, natural(item.value))),
    }
}

/// Returns the filter among the items of a header, with the new ids of its bodies.
fn renamed_filter(
    alloc: Global,
    named: &NamedBodies<'_>,
    picture: &Picture<'_>,
    items: &Fields,
) -> Result<Fields, AllocError>
    requires { length named.now.ids.items ≡ length named.now.bodies }
    ensures { IfOk result (λ made. made ≡ with_ids (new_id named.now picture.now) (filter_of items.now)) }
{
    let mut made = Fields::new(alloc);
    for i in 0..items.len() {
        let item = items.item(i);
        if is_of_filter(item.field) {
            made.push(renamed(named, picture, item))?;
        }
    }
    Ok(made)
}

/// Returns the filter in force for a slice, with the new ids of its bodies.
///
/// The filter is the picture header's or the slice's own.
pub(crate) fn filter_in(
    alloc: Global,
    named: &NamedBodies<'_>,
    picture: &Picture<'_>,
    slice: &SliceHeader,
) -> Result<Fields, AllocError>
    requires { length named.now.ids.items ≡ length named.now.bodies }
    ensures { IfOk result (λ made. made ≡ new_filter named.now picture.now slice.now) }
{
    renamed_filter(alloc, named, picture, filter_fields(picture, slice))
}

// ---- what it uses

/// Returns whether a slice uses what the picture header may enable.
fn is_used(picture: &Picture<'_>, slice: &SliceHeader, enabled: u16, used: u16) -> bool
    ensures { result ≡ inputs.is_used picture.now.header.fields slice.now enabled used }
{
    if header_number(picture, enabled) == 0 {
        return false;
    }
    let stands_in = number_of(&slice.fields, sh_picture_header_in_slice_header_flag) != 0;
    stands_in || number_of(&slice.fields, used) != 0
}

// ---- its QP

/// Returns the value of a field, or 0 if it is absent.
fn signed(items: &Fields, field: u16) -> i64
    ensures { result ≡ sets.signed items.now field }
{
    items.first(field).unwrap_or(0)
}

/// Returns ph_qp_delta or sh_qp_delta.
fn qp_delta(picture: &Picture<'_>, slice: &SliceHeader) -> i64
    ensures { result ≡ sets.qp_delta picture.now.pps picture.now.header.fields (read_of slice.now) }
{
    if picture.pps().scope().latest(pps_qp_delta_info_in_ph_flag) != 0 {
        signed(&picture.header().fields, ph_qp_delta)
    } else {
        signed(&slice.fields, sh_qp_delta)
    }
}

/// Returns a difference from `init` as a difference from `first`.
fn moved(init: i64, delta: i64, first: i64) -> i64
    requires low { neg_ℤ (pos 12) ≤ℤ ((init +ℤ delta) +ℤ pos 26) }
    requires high { ((init +ℤ delta) +ℤ pos 26) ≤ℤ pos 63 }
    requires init { (neg_ℤ (pos 38) ≤ℤ init) × (init ≤ℤ pos 37) }
    requires first { (neg_ℤ (pos 38) ≤ℤ first) × (first ≤ℤ pos 37) }
    ensures sum { result ≡ (init +ℤ delta) -ℤ first }
    ensures low { neg_ℤ (pos 75) ≤ℤ result }
    ensures high { result ≤ℤ pos 75 }
{
    init + delta - first
}

/// Returns the same number in fewer bits.
fn narrowed(delta: i64) -> i32
    requires { (neg_ℤ (pos 75) ≤ℤ delta) × (delta ≤ℤ pos 75) }
    ensures { result ≡ delta }
{
    delta as i32
}

/// Returns the QP of a slice as a difference from that of the first source's PPS.
fn moved_delta(first: &Picture<'_>, picture: &Picture<'_>, slice: &SliceHeader) -> i32
    requires { is_qp picture.now.sps (slice_qp picture.now.pps picture.now.header.fields (read_of slice.now)) ≡ true }
    ensures says { (pos 26 +ℤ sets.signed first.now.pps pps_fields.pps_init_qp_minus26) +ℤ result ≡ slice_qp picture.now.pps picture.now.header.fields (read_of slice.now) }
    ensures low { neg_ℤ (pos 75) ≤ℤ result }
    ensures high { result ≤ℤ pos 75 }
{
    // The items of an SPS are in their ranges, the bit depth among them, which bounds the QP.
    let _sps = picture.sps().fields();
    let (own, others) = (init_qp(picture), init_qp(first));
    let delta = qp_delta(picture, slice);
    narrowed(moved(i64::from(own), delta, i64::from(others)))
}

// ---- all of it

/// Returns what the header of a slice says in subpicture `id`, with this filter. `first` is source 0's picture.
pub(crate) fn slice_shape<'a>(
    first: &Picture<'_>,
    picture: &Picture<'_>,
    id: u32,
    slice: &SliceHeader,
    filter: &'a Fields,
) -> ShShape<'a>
    requires { is_qp picture.now.sps (slice_qp picture.now.pps picture.now.header.fields (read_of slice.now)) ≡ true }
    ensures { HasShape first.now picture.now id slice.now filter.now result }
{
    ShShape {
        subpic_id: id,
        filter,
        uses_lmcs: is_used(picture, slice, ph_lmcs_enabled_flag, sh_lmcs_used_flag),
        uses_scaling: is_used(
            picture,
            slice,
            ph_explicit_scaling_list_enabled_flag,
            sh_explicit_scaling_list_used_flag,
        ),
        qp_delta: moved_delta(first, picture, slice),
    }
}
