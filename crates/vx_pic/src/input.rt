//! The decoding input of a slice.
ghost use Rattle.std.specs.Prelude.{◌≡◌, ◌<◌, true, Some, length, drop, slice_get, option_map, option_copied, IfOk, IfSome};
ghost use Rattle.vx_pic.specs.Readings as stream;
ghost use Rattle.vx_pic.specs.Sets.{filter_items, is_qp, slice_qp};
ghost use Rattle.vx_pic.specs.Parts.{ShowsPicture, part_of, read_of};
ghost use Rattle.vx_pic.specs.Inputs.{header_fields, input_in, input_of, pps_fields, kept_slice_items, sps_fields, alf_of, lmcs_of, scaling_of, lists_in_force, place_in};
ghost use Rattle.vx_pic.specs.Seen.{alf_seen, input_seen};

use crate::in_force::{
    AlfInForce, alf_in_force, lists_of_slice, lmcs_in_force, scaling_in_force, slice_qp_of,
};
use crate::kept_fields::{kept_of_header, kept_of_pps, kept_of_slice, kept_of_sps};
use crate::kind::Kind;
use crate::picture::{Picture, SliceView};
use crate::place::{Place, place_of};
use std::alloc::{AllocError, Global};
use vx_bits::Kept;
use vx_rpl::RefLists;
use vx_sh::SliceHeader;

/// The decoding input of a slice: everything that its decoding depends on, except the pictures to which it refers.
///
/// By H.266, two slices with the same input decode alike, wherever they are in a frame and whatever ids name their sets. That is
/// not proved here.
pub struct DecodingInput<'a> {
    /// The kind of its picture among the pictures of its stream.
    pub kind: Kind,
    /// The kept fields of the SPS.
    pub sps: Kept,
    /// The kept fields of the PPS.
    pub pps: Kept,
    /// The kept fields of the picture header.
    pub header: Kept,
    /// The kept fields of the slice header.
    pub slice: Kept,
    /// The adaptive loop filter.
    pub alf: AlfInForce<'a>,
    /// Luma mapping with chroma scaling, if the slice uses it: its body, and ph_chroma_residual_scale_flag.
    pub lmcs: Option<(&'a [u8], bool)>,
    /// Scaling lists, if the slice uses them.
    pub scaling: Option<&'a [u8]>,
    /// The reference picture lists.
    pub lists: RefLists,
    /// SliceQpY.
    pub slice_qp: i32,
    /// The place of the slice in its subpicture.
    pub place: Place,
    /// The bytes of its unit after the slice header.
    pub payload: &'a [u8],
}

impl Drop for DecodingInput<'_> {
    fn drop(self) {
        let DecodingInput {
            kind: _,
            sps: _,
            pps: _,
            header: _,
            slice: _,
            alf: _,
            lmcs: _,
            scaling: _,
            lists: _,
            slice_qp: _,
            place: _,
            payload: _,
        } = self;
    }
}

/// The kept fields of the sets and the headers of a slice.
#[derive(Drop)]
struct KeptParts {
    sps: Kept,
    pps: Kept,
    header: Kept,
    slice: Kept,
}

/// Returns the kept fields for a slice of a picture.
fn kept_parts(
    alloc: Global,
    picture: &Picture<'_>,
    header: &SliceHeader,
) -> Result<KeptParts, AllocError>
    ensures sps { IfOk result (λ kept. kept.sps ≡ sps_fields picture.now.sps) }
    ensures pps { IfOk result (λ kept. kept.pps ≡ pps_fields picture.now.pps) }
    ensures header { IfOk result (λ kept. kept.header ≡ header_fields picture.now.header.fields) }
    ensures slice { IfOk result (λ kept. kept.slice ≡ kept_slice_items header.now.fields) }
{
    Ok(KeptParts {
        sps: kept_of_sps(alloc, picture.sps())?,
        pps: kept_of_pps(alloc, picture.pps())?,
        header: kept_of_header(alloc, &picture.header().fields)?,
        slice: kept_of_slice(alloc, &header.fields)?,
    })
}

/// What is in force at a slice.
#[derive(Drop)]
struct InForce<'a> {
    alf: AlfInForce<'a>,
    lmcs: Option<(&'a [u8], bool)>,
    scaling: Option<&'a [u8]>,
    lists: RefLists,
    slice_qp: i32,
}

/// Returns what is in force at a slice of a picture.
fn in_force_at<'a>(
    alloc: Global,
    picture: &Picture<'a>,
    slice: &SliceHeader,
) -> Result<InForce<'a>, AllocError>
    requires { is_qp picture.now.sps (slice_qp picture.now.pps picture.now.header.fields (read_of slice.now)) ≡ true }
    ensures alf { IfOk result (λ here. alf_seen here.alf ≡ alf_of picture.now (filter_items picture.now.pps picture.now.header.fields (read_of slice.now))) }
    ensures lmcs { IfOk result (λ here. option_map (λ x. (x.0.now, x.1)) here.lmcs ≡ lmcs_of picture.now slice.now) }
    ensures scaling { IfOk result (λ here. option_copied here.scaling ≡ scaling_of picture.now slice.now) }
    ensures lists { IfOk result (λ here. here.lists ≡ lists_in_force picture.now slice.now) }
    ensures qp { IfOk result (λ here. here.slice_qp ≡ slice_qp picture.now.pps picture.now.header.fields (read_of slice.now)) }
{
    let lmcs = lmcs_in_force(picture, slice);
    let scaling = scaling_in_force(picture, slice);
    let slice_qp = slice_qp_of(picture, slice);
    Ok(InForce {
        alf: alf_in_force(alloc, picture, slice)?,
        lmcs,
        scaling,
        lists: lists_of_slice(alloc, picture, slice)?,
        slice_qp,
    })
}

/// Returns the decoding input with these parts.
fn input_from<'a>(
    kind: Kind,
    kept: KeptParts,
    here: InForce<'a>,
    place: Place,
    payload: &'a [u8],
) -> DecodingInput<'a>
    ensures { result ≡ record { kind = kind; sps = kept.sps; pps = kept.pps; header = kept.header; slice = kept.slice; alf = here.entry.alf; lmcs = here.entry.lmcs; scaling = here.entry.scaling; lists = here.entry.lists; slice_qp = here.entry.slice_qp; place = place; payload = payload.entry } }
{
    DecodingInput {
        kind,
        sps: kept.sps,
        pps: kept.pps,
        header: kept.header,
        slice: kept.slice,
        alf: here.alf,
        lmcs: here.lmcs,
        scaling: here.scaling,
        lists: here.lists,
        slice_qp: here.slice_qp,
        place,
        payload,
    }
}

/// Returns what is in force at a slice of a picture, and its place.
fn here_and_place<'a>(
    alloc: Global,
    picture: &Picture<'a>,
    slice: &SliceHeader,
) -> Result<(InForce<'a>, Place), AllocError>
    requires subpic { slice.now.subpic < length picture.now.layout.subpics }
    requires qp { is_qp picture.now.sps (slice_qp picture.now.pps picture.now.header.fields (read_of slice.now)) ≡ true }
    ensures alf { IfOk result (λ x. alf_seen x.0.alf ≡ alf_of picture.now (filter_items picture.now.pps picture.now.header.fields (read_of slice.now))) }
    ensures lmcs { IfOk result (λ x. option_map (λ y. (y.0.now, y.1)) x.0.lmcs ≡ lmcs_of picture.now slice.now) }
    ensures scaling { IfOk result (λ x. option_copied x.0.scaling ≡ scaling_of picture.now slice.now) }
    ensures lists { IfOk result (λ x. x.0.lists ≡ lists_in_force picture.now slice.now) }
    ensures qp { IfOk result (λ x. x.0.slice_qp ≡ slice_qp picture.now.pps picture.now.header.fields (read_of slice.now)) }
    ensures place { IfOk result (λ x. x.1 ≡ place_in picture.now slice.now.subpic slice.now.address) }
{
    let here = in_force_at(alloc, picture, slice)?;
    let place = place_of(alloc, picture, slice.subpic, slice.address)?;
    Ok((here, place))
}

/// Returns the decoding input of a slice that a picture lends.
fn input_of_view<'a>(
    alloc: Global,
    picture: &Picture<'a>,
    slice: SliceView<'a>,
) -> Result<DecodingInput<'a>, AllocError>
    requires suffix { slice.payload.now ≡ drop (part_of slice).payload slice.unit.now }
    requires subpic { slice.header.now.subpic < length picture.now.layout.subpics }
    requires qp { is_qp picture.now.sps (slice_qp picture.now.pps picture.now.header.fields (read_of slice.header.now)) ≡ true }
    ensures { IfOk result (λ input. input_seen input ≡ input_in picture.now (part_of slice.entry)) }
{
    let kept = kept_parts(alloc, picture, slice.header)?;
    let (here, place) = here_and_place(alloc, picture, slice.header)?;
    Ok(input_from(picture.kind(), kept, here, place, slice.payload))
}

/// Returns the decoding input of a slice of a picture, in terms of their models.
fn input_at<'a>(
    alloc: Global,
    picture: &Picture<'a>,
    i: u32,
) -> Result<DecodingInput<'a>, AllocError>
    requires { i < length picture.now.slices }
    ensures { IfOk result (λ input. IfSome (slice_get picture.now.slices i) (λ s. input_seen input ≡ input_in picture.now s)) }
{
    input_of_view(alloc, picture, picture.slice(i))
}

/// Returns the decoding input of slice `i` of a picture, from 0 in the order of the picture.
///
/// It has the kind, the kept fields, what is in force, the place counted from the corner of its subpicture, and the payload.
/// Bodies and payload are borrowed.
///
/// # Errors
///
/// `AllocError` if memory runs out.
pub fn decoding_input<'a>(
    alloc: Global,
    picture: &Picture<'a>,
    i: u32,
) -> Result<DecodingInput<'a>, AllocError>
    requires { i < length picture.now.slices }
    ensures parts { IfOk result (λ input. IfSome (slice_get picture.now.slices i) (λ s. input_seen input ≡ input_in picture.now s)) }
    ensures stream { (p : stream.Picture) (s : stream.Slice) → ShowsPicture picture.now p → slice_get p.slices i ≡ Some s → IfOk result (λ input. input_seen input ≡ input_of p s) }
{
    let input = input_at(alloc, picture, i)?;
    Ok(input)
}
