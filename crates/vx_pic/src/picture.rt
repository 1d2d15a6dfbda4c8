//! A picture, as readers return it.

use crate::aps_list::ApsList;
use crate::kind::Kind;
use std::marker::Model;
use vx_bits::{Fields, IdList, LentList};
use vx_layout::{Layout, Rect};
use vx_ph::PictureHeader;
use vx_pps::Pps;
use vx_sei::MessageList;
use vx_sh::SliceHeader;
use vx_sps::Sps;

/// A slice, as a picture lends it.
#[derive(Clone, Copy)]
pub struct SliceView<'a> {
    /// Its header.
    pub header: &'a SliceHeader,
    /// Its NAL unit.
    pub unit: &'a [u8],
    /// The bytes of the unit after the slice header.
    pub payload: &'a [u8],
}

/// A slice, as it is stored: its header, and the place of its unit in the bytes of its picture.
#[derive(Drop)]
pub struct SliceSlot {
    /// Its header.
    pub header: SliceHeader,
    /// The place where its unit begins.
    pub start: usize,
    /// The place where the bytes after its header begin.
    pub payload: usize,
    /// The place where its unit ends.
    pub end: usize,
}

/// A list of the slices of a picture, in order.
pub type SliceSlots = LentList<SliceSlot>;

/// The parts of a picture.
#[derive(Clone, Copy)]
pub struct PictureParts<'a> {
    /// Its kind among the pictures of its stream.
    pub kind: Kind,
    /// Its SPS.
    pub sps: &'a Sps,
    /// Its PPS.
    pub pps: &'a Pps,
    /// Its tiles, slices and subpictures.
    pub layout: &'a Layout,
    /// Its header.
    pub header: &'a PictureHeader,
    /// The ids of its subpictures, by their index.
    pub ids: &'a IdList,
    /// The bytes of its PH unit, if it has one, and of its slices' units.
    pub bytes: &'a [u8],
    /// The place where the PH unit ends, which begins at 0; 0 if the picture header is inside the slice.
    pub header_end: usize,
    /// Its slices.
    pub slices: &'a SliceSlots,
    /// The adaptation parameter sets that were stored before its first slice.
    pub bodies: &'a ApsList,
    /// Its messages.
    pub messages: &'a MessageList,
}

/// A whole picture of a stream. None of its calls takes memory.
///
/// Its two sets have the same size and make up its layout and its ids. Its header was read under them, and each slice header
/// under them and the header. Its adaptation parameter sets are valid. *Model:* a record of the values that its calls return.
pub struct Picture<'a> {
    parts: PictureParts<'a>,
}

impl Drop for Picture<'_> {
    fn drop(self) {
        let Picture { parts: _ } = self;
    }
}

impl<'a> Model for Picture<'a> {
    ghost use Rattle.vx_pic.specs.Parts.{Parts, seen, MakePicture};

    ghost Value = { Parts };

    ghost view = { λ p. seen p.parts };

    ghost invariant = { λ p. MakePicture p.parts };
}

impl<'a> Picture<'a> {
    ghost use Rattle.std.specs.Prelude.{◌≡◌, ◌<◌, ◌≤◌, true, Some, length, drop, slice_get, option_copied, option_map, IfSome};
    ghost use Rattle.vx_sps.specs.Set.{AreSpsItems};
    ghost use Rattle.vx_sps.specs.Subpictures.{rect_of};
    ghost use Rattle.vx_bits.specs.Codes.{EndsInNoZero};
    ghost use Rattle.vx_pic.specs.Sets.{is_qp, same_size, slice_qp};
    ghost use Rattle.vx_pic.specs.PictureLayout.{MakeLayout, ids_of, numbers_in};
    ghost use Rattle.vx_ph.specs.InForce.{in_force, structures};
    ghost use Rattle.vx_ph.specs.Picture.{IsHeader};
    ghost use Rattle.vx_sh.specs.InForce.{at_sets};
    ghost use Rattle.vx_pic.specs.Parts.{seen, MakePicture, IsReadAt, aps_at, part_of, AreThere, aps_named_by, read_of};
    ghost use Rattle.vx_pic.specs.Inputs.{body_of};

    /// Returns the picture that these parts make up.
    pub fn of(parts: PictureParts<'a>) -> Picture<'a>
        requires { MakePicture parts }
        ensures { result ≡ seen parts.entry }
    {
        Picture { parts }
    }

    /// Returns the same picture after an end of sequence.
    pub fn after_end(&self) -> Picture<'a>
        ensures { result ≡ record self.now { kind = record self.now.kind { after_eos = true } } }
    {
        let kind = Kind {
            after_eos: true,
            ..self.parts.kind
        };
        Picture {
            parts: PictureParts { kind, ..self.parts },
        }
    }

    /// Returns its kind among the pictures of its stream.
    pub fn kind(&self) -> Kind
        ensures value { result ≡ self.now.kind }
        ensures nal_type { result.nal_type < 32 }
        ensures tid { result.temporal_id < 7 }
    {
        self.parts.kind
    }

    /// Returns its SPS.
    pub fn sps(&self) -> &'a Sps
        ensures { result.now ≡ self.now.sps }
    {
        self.parts.sps
    }

    /// Returns its PPS.
    pub fn pps(&self) -> &'a Pps
        ensures { result.now ≡ self.now.pps }
    {
        self.parts.pps
    }

    /// Returns its tiles, slices and subpictures, as its two sets determine them.
    pub fn layout(&self) -> &'a Layout
        ensures value { result.now ≡ self.now.layout }
        ensures sets { self.now.layout ≡ numbers_in self.now.sps self.now.pps }
        ensures made { MakeLayout self.now.sps self.now.pps }
        ensures size { same_size self.now.sps self.now.pps ≡ true }
    {
        self.parts.layout
    }

    /// Returns its header.
    pub fn header(&self) -> &'a PictureHeader
        ensures value { result.now ≡ self.now.header }
        ensures read { IsHeader (structures self.now.sps) (in_force self.now.sps self.now.pps) self.now.header }
    {
        self.parts.header
    }

    /// Returns the ids of its subpictures, by their index.
    pub fn ids(&self) -> &'a IdList
        ensures ids { result.now ≡ self.now.ids }
        ensures sets { self.now.ids ≡ ids_of self.now.sps self.now.pps }
        ensures number { length self.now.ids ≡ length self.now.layout.subpics }
    {
        self.parts.ids
    }

    /// Returns its PH unit, or `None` if the picture header is inside the slice.
    pub fn header_unit(&self) -> Option<&'a [u8]>
        ensures { option_copied result ≡ self.now.unit }
    {
        if self.parts.header_end == 0 {
            return None;
        }
        Some(&self.parts.bytes[..self.parts.header_end])
    }

    /// Returns the number of its slices, at most 1,000: all those of its layout.
    pub fn slice_count(&self) -> u32
        ensures number { result ≡ length self.now.slices }
        ensures whole { result ≡ length self.now.layout.slices }
        ensures some { 0 < result }
        ensures few { result ≤ 1000 }
    {
        self.parts.slices.len() as u32
    }

    /// Returns slice `i`, from 0 in the order of the picture.
    #[tactic(auto, using(crate::proofs::Spans::suffix))]
    pub fn slice(&self, i: u32) -> SliceView<'a>
        requires { i < length self.now.slices }
        ensures slice { slice_get self.now.slices i ≡ Some (part_of result) }
        ensures suffix { result.payload.now ≡ drop (part_of result).payload result.unit.now }
        ensures some { 0 < length result.payload.now }
        ensures subpic { result.header.now.subpic < length self.now.layout.subpics }
        ensures bodies { AreThere self.now.bodies (aps_named_by self.now.pps self.now.header.fields result.header.now) }
        ensures qp { is_qp self.now.sps (slice_qp self.now.pps self.now.header.fields (read_of result.header.now)) ≡ true }
        ensures read { IsReadAt (at_sets self.now.kind.nal_type self.now.sps self.now.pps self.now.header self.now.ids self.now.layout) result.header.now }
    {
        let slot = self.parts.slices.item(i as usize);
        SliceView {
            header: &slot.header,
            unit: &self.parts.bytes[slot.start..slot.end],
            payload: &self.parts.bytes[slot.payload..slot.end],
        }
    }

    /// Returns the body of the adaptation parameter set with a type and id, as it was stored before the first slice.
    pub fn body(&self, kind: u8, id: u8) -> Option<&'a [u8]>
        ensures body { option_copied result ≡ option_map (λ aps. aps.body) (aps_at self.now.bodies kind id) }
        ensures some { IfSome result (λ body. 0 < length body.now) }
        ensures ends { IfSome result (λ body. EndsInNoZero body.now) }
    {
        match self.parts.bodies.get(kind, id) {
            Some(aps) => Some(aps.body.as_slice()),
            None => None,
        }
    }

    /// Returns the body of an adaptation parameter set, by its type and an id of any size.
    pub(crate) fn body_of(&self, kind: u8, id: u32) -> Option<&'a [u8]>
        ensures { option_copied result ≡ body_of self.now kind id }
    {
        self.parts
            .bodies
            .at(kind, id)
            .map(|aps| aps.body.as_slice())
    }

    /// Returns the items of its SPS.
    pub(crate) fn sps_fields(&self) -> &'a Fields
        ensures items { result.now ≡ self.now.sps }
        ensures set { AreSpsItems result.now }
    {
        self.parts.sps.fields()
    }

    /// Returns the rectangle of a subpicture, in CTUs.
    #[tactic(auto, using(crate::proofs::Ranges::within_sps))]
    pub(crate) fn rect(&self, subpic: u32) -> Rect
        requires { subpic < length self.now.layout.subpics }
        ensures { result ≡ rect_of self.now.sps subpic }
    {
        self.parts.sps.rect(subpic)
    }

    /// Returns its messages.
    pub fn messages(&self) -> &'a MessageList
        ensures { result.now ≡ self.now.messages }
    {
        self.parts.messages
    }
}
