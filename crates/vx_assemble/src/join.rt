//! A slice that joins a picture.
ghost use Rattle.std.specs.Prelude.{◌≡◌, ◌+◌, ◌*◌, ◌<◌, ◌≤◌, ◌∷◌, [], length, take, None, IfOk, OnOk};
ghost use Rattle.vx_bits.specs.Limits.{unit_limit};
ghost use Rattle.vx_layout.specs.Rects.{in_order};
ghost use Rattle.vx_aps.specs.declared.aps.TheConstants.{SCALING};
ghost use Rattle.vx_pic.specs.Sets as sets;
ghost use Rattle.vx_pic.specs.Rules.{Readers, joins, picture_limit};
ghost use Rattle.vx_pic.specs.Readings.{Picture};
ghost use Rattle.vx_pic.specs.H266.{AreOfH266};
ghost use Rattle.vx_assemble.specs.inner.Held.{begun_of};
ghost use Rattle.vx_assemble.specs.inner.Order.{IsHeader};
ghost use Rattle.vx_assemble.specs.inner.Takes.{Gives, answer_by, header_read_as, slice_read_as, AreSmall, IsReadUnder};
ghost use Rattle.vx_assemble.specs.inner.Joining.{same_picture, all_there, next_slice, items_only, names_in, qp_in, qp_checked, in_limits, checked, IsJoined};
ghost use Rattle.vx_assemble.specs.inner.Places.{IsAt};

use crate::items::signed;
use crate::readers::{ReadSlice, slice_header_of};
use crate::refusals::{missing, structure};
use crate::state::BegunPicture;
use crate::unit::SliceUnit;
use std::alloc::Global;
use vx_annexb::NalHeader;
use vx_aps::{ALF, LMCS, SCALING};
use vx_bits::limits::PICTURE_LIMIT;
use vx_bits::rules::{
    EMPTY_PAYLOAD, LONG_PICTURE, QP_RANGE, SLICE_MISSING, TEMPORAL_ID_DIFFERS, TYPES_DIFFER,
};
use vx_bits::{Fields, Item, ReadError, Refusal};
use vx_fields::alf::{alf_aps_id_chroma, alf_aps_id_luma, alf_cc_cb_aps_id, alf_cc_cr_aps_id};
use vx_fields::ph::{ph_lmcs_aps_id, ph_qp_delta, ph_scaling_list_aps_id};
use vx_fields::pps::{pps_alf_info_in_ph_flag, pps_init_qp_minus26, pps_qp_delta_info_in_ph_flag};
use vx_fields::sh::{sh_qp_delta, sh_slice_address};
use vx_fields::sps::sps_bitdepth_minus8;
use vx_layout::Layout;
use vx_pic::{ApsList, Kind, number_of};
use vx_pps::Pps;
use vx_sps::Sps;
use vx_table::natural;

/// The picture that a slice joins, as far as the rules need it.
#[derive(Clone, Copy)]
pub(crate) struct Place<'a> {
    /// The picture's kind.
    pub kind: Kind,
    /// Its header, with what is in force for it.
    pub begun: &'a BegunPicture,
    /// Its adaptation parameter sets.
    pub bodies: &'a ApsList,
    /// The number of slices before.
    pub count: usize,
    /// The number of bytes before.
    pub size: usize,
}

/// Checks that a unit has the picture's TemporalId and type.
fn check_kind(place: Place<'_>, header: NalHeader) -> Result<(), Refusal>
    ensures { result ≡ same_picture place.entry.begun.now.temporal_id place.entry.kind.nal_type header.nal_type header.temporal_id }
{
    if header.temporal_id != place.begun.temporal_id {
        return Err(structure(TEMPORAL_ID_DIFFERS));
    }
    if header.nal_type != place.kind.nal_type {
        return Err(structure(TYPES_DIFFER));
    }
    Ok(())
}

/// Returns the number of slices in the subpictures before one.
#[tactic(auto, using(crate::proofs::Counted::count_more))]
fn slices_before(layout: &Layout, subpic: u32) -> usize
    requires { subpic ≤ length layout.now.subpics }
    ensures count { result ≡ length (in_order layout.now.slices (take subpic layout.now.subpics)) }
    ensures few { result ≤ subpic * 4294967296 }
{
    let mut count = 0;
    for i in 0..subpic {
        count += layout.slice_count(i) as usize;
    }
    count
}

/// Checks that the set is there that an item names, if the item is of this field.
fn check_item(bodies: &ApsList, kind: u8, field: u16, item: Item) -> Result<(), Refusal>
    requires kind { kind ≤ SCALING }
    requires small { AreSmall (sets.named kind field (item ∷ [])) }
    ensures { result ≡ all_there bodies.now (sets.named kind field (item ∷ [])) }
{
    if item.field != field {
        return Ok(());
    }
    let id = natural(item.value) as u8;
    if bodies.get(kind, id).is_none() {
        return Err(missing(kind, id));
    }
    Ok(())
}

/// Checks that the sets that a field names are there.
#[tactic(auto, using(crate::proofs::Named::there_first, crate::proofs::Named::item_small, crate::proofs::Named::there_on, crate::proofs::Named::there_not, crate::proofs::Named::there_all))]
fn check_named(bodies: &ApsList, kind: u8, field: u16, fields: &Fields) -> Result<(), Refusal>
    requires kind { kind ≤ SCALING }
    requires small { AreSmall (sets.named kind field fields.now) }
    ensures { result ≡ all_there bodies.now (sets.named kind field fields.now) }
{
    for i in 0..fields.len() {
        let item = fields.item(i);
        check_item(bodies, kind, field, item)?;
    }
    Ok(())
}

/// Checks that the filters that items name are there.
fn check_filters(bodies: &ApsList, items: &Fields) -> Result<(), Refusal>
    requires { AreSmall (sets.named_filters items.now) }
    ensures { result ≡ all_there bodies.now (sets.named_filters items.now) }
{
    check_named(bodies, ALF, alf_aps_id_luma, items)?;
    check_named(bodies, ALF, alf_aps_id_chroma, items)?;
    check_named(bodies, ALF, alf_cc_cb_aps_id, items)?;
    check_named(bodies, ALF, alf_cc_cr_aps_id, items)
}

/// Returns the items that name filters: those of the picture header, or of the slice header.
fn filter_items<'a>(pps: &Pps, header: &'a Fields, slice: &'a Fields) -> &'a Fields
    ensures { result.now ≡ sets.filter_items pps.now header.now (items_only slice.now) }
{
    if pps.number(pps_alf_info_in_ph_flag) != 0 {
        header
    } else {
        slice
    }
}

/// Checks that the adaptation parameter sets that a slice names are there: LMCS and scaling lists whether it uses them or not.
fn check_bodies(bodies: &ApsList, pps: &Pps, header: &Fields, slice: &Fields) -> Result<(), Refusal>
    requires { AreSmall (names_in pps.now header.now slice.now) }
    ensures { result ≡ all_there bodies.now (names_in pps.now header.now slice.now) }
{
    check_filters(bodies, filter_items(pps, header, slice))?;
    check_named(bodies, LMCS, ph_lmcs_aps_id, header)?;
    check_named(bodies, SCALING, ph_scaling_list_aps_id, header)
}

/// Returns what a picture header or a slice header adds to the quantization parameter.
fn qp_delta(pps: &Pps, header: &Fields, slice: &Fields) -> i64
    ensures { result ≡ sets.qp_delta pps.now header.now (items_only slice.now) }
{
    if pps.number(pps_qp_delta_info_in_ph_flag) != 0 {
        signed(header, ph_qp_delta)
    } else {
        signed(slice, sh_qp_delta)
    }
}

/// Returns SliceQpY.
#[tactic(auto, unfolding(vx_pic::specs::Sets::slice_qp))]
fn slice_qp(pps: &Pps, header: &Fields, slice: &Fields) -> i128
    ensures { result ≡ qp_in pps.now header.now slice.now }
{
    let init = signed(pps.fields(), pps_init_qp_minus26);
    let delta = qp_delta(pps, header, slice);
    26 + i128::from(init) + i128::from(delta)
}

/// Checks that a slice's quantization parameter is in its range.
#[tactic(auto, unfolding(vx_pic::specs::Sets::is_qp))]
fn check_qp(sps: &Sps, qp: i128) -> Result<(), Refusal>
    ensures { result ≡ qp_checked sps.now qp }
{
    let depth = sps.number(sps_bitdepth_minus8);
    if qp < -6 * i128::from(depth) {
        return Err(structure(QP_RANGE));
    }
    if 63 < qp {
        return Err(structure(QP_RANGE));
    }
    Ok(())
}

/// Checks that the quantization parameter of a slice with this header is in its range.
fn check_slice_qp(sps: &Sps, pps: &Pps, header: &Fields, slice: &Fields) -> Result<(), Refusal>
    ensures { result ≡ qp_checked sps.now (qp_in pps.now header.now slice.now) }
{
    check_qp(sps, slice_qp(pps, header, slice))
}

/// Checks that there is a payload, and that the picture isn't too long.
#[tactic(auto, unfolding(vx_pic::specs::Rules::picture_limit))]
fn check_limits(size: usize, more: usize, payload: usize) -> Result<(), Refusal>
    requires old { size ≤ picture_limit }
    requires more { more ≤ unit_limit }
    ensures answer { result ≡ in_limits size more payload }
    ensures payload { OnOk result (payload < more) }
    ensures size { OnOk result (size + more ≤ picture_limit) }
{
    if payload >= more {
        return Err(structure(EMPTY_PAYLOAD));
    }
    if size + more > PICTURE_LIMIT {
        return Err(Refusal::Limit { code: LONG_PICTURE });
    }
    Ok(())
}

/// Checks that a slice that was read is the next one of a picture.
#[tactic(auto, unfolding(vx_pic::specs::Sets::slices_before, vx_pic::specs::Sets::address_of))]
fn check_place(place: Place<'_>, read: &ReadSlice) -> Result<(), Refusal>
    requires { read.now.header.subpic < length place.begun.now.sets.layout.subpics }
    ensures { result ≡ next_slice place.entry.begun.now.sets.layout place.entry.count (header_read_as read.now) }
{
    let layout = &place.begun.sets.value().layout;
    let before = slices_before(layout, read.header.subpic);
    if before + number_of(&read.header.fields, sh_slice_address) as usize != place.count {
        return Err(structure(SLICE_MISSING));
    }
    Ok(())
}

/// Checks that a slice that was read, in a unit of `more` bytes, joins a picture.
fn check_slice(place: Place<'_>, read: &ReadSlice, more: usize) -> Result<(), Refusal>
    requires old { place.size ≤ picture_limit }
    requires more { more ≤ unit_limit }
    requires read { IsReadUnder place.begun.now place.kind.nal_type read.now }
    ensures answer { result ≡ checked (begun_of place.entry.begun.now None) place.entry.bodies.now place.entry.count place.entry.size more (header_read_as read.now) }
    ensures joined { OnOk result (IsJoined place.entry.begun.now place.entry.kind.nal_type place.entry.bodies.now more read.now) }
    ensures size { OnOk result (place.entry.size + more ≤ picture_limit) }
{
    check_place(place, read)?;
    let sets = place.begun.sets.value();
    let (header, slice) = (&place.begun.header.fields, &read.header.fields);
    let pps = sets.pps.value();
    check_bodies(place.bodies, pps, header, slice)?;
    check_slice_qp(sets.sps.value(), pps, header, slice)?;
    check_limits(place.size, more, read.payload)
}

/// Reads a slice that joins a picture.
///
/// # Errors
///
/// - `Refused` with the first rule that it breaks.
/// - `Memory` if memory runs out.
pub(crate) fn join(
    alloc: Global,
    unit: SliceUnit<'_>,
    place: Place<'_>,
) -> Result<ReadSlice, ReadError>
    requires size { place.size ≤ picture_limit }
    requires header { IsHeader place.begun.now }
    ensures answer { (R : Readers) → AreOfH266 R → (p : Picture) → IsAt place.entry p
        → Gives (joins R p unit.entry.bytes.now) (answer_by (slice_read_as unit.entry.bytes.now) result) }
    ensures joined { IfOk result (IsJoined place.entry.begun.now place.entry.kind.nal_type place.entry.bodies.now (length unit.entry.bytes.now)) }
    ensures size { OnOk result (place.entry.size + length unit.entry.bytes.now ≤ picture_limit) }
{
    if let Err(refusal) = check_kind(place, unit.header) {
        return Err(ReadError::Refused(refusal));
    }
    let read = slice_header_of(alloc, place.kind.nal_type, place.begun, unit)?;
    if let Err(refusal) = check_slice(place, &read, unit.bytes.len()) {
        return Err(ReadError::Refused(refusal));
    }
    Ok(read)
}
