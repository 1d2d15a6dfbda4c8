//! A picture that begins with its first slice.
ghost use Rattle.std.specs.Prelude.{◌≡◌, ◌^◌, ◌<◌, ◌≤◌, Some, IfOk};
ghost use Rattle.vx_pic.specs.Sets as sets;
ghost use Rattle.vx_assemble.specs.inner.Held.{begun_of, last_held};
ghost use Rattle.vx_assemble.specs.inner.Order.{KnowsSps};
ghost use Rattle.vx_assemble.specs.inner.Opening.{held_anew, held_changed, opened_in, IsCountedBy, tid0_by};
ghost use Rattle.vx_assemble.specs.inner.Changes as changes;

use crate::refusals::structure;
use crate::state::{BegunPicture, State};
use vx_annexb::NalHeader;
use vx_bits::rules::{SPS_CHANGED, STARTS_ELSEWHERE};
use vx_bits::{Fields, Refusal};
use vx_fields::ph::{
    ph_non_ref_pic_flag, ph_pic_order_cnt_lsb, ph_poc_msb_cycle_present_flag, ph_poc_msb_cycle_val,
};
use vx_fields::sps::sps_log2_max_pic_order_cnt_lsb_minus4;
use vx_pic::{
    CountFields, Kind, PrevTid0, RADL_NUT, RASL_NUT, is_cra_or_gdr, is_idr, is_irap_or_gdr,
    number_of, picture_order_count, same_items,
};
use vx_sps::Sps;

/// Returns ph_poc_msb_cycle_val, if it is present.
#[tactic(auto, unfolding(vx_pic::specs::Sets::msb_cycle))]
fn msb_cycle(header: &Fields) -> Option<u32>
    ensures { result ≡ sets.msb_cycle header.now }
{
    if number_of(header, ph_poc_msb_cycle_present_flag) != 0 {
        return Some(number_of(header, ph_poc_msb_cycle_val));
    }
    None
}

/// Returns the number of bits of ph_pic_order_cnt_lsb.
#[tactic(auto, using(crate::proofs::Ids::lsb_below), unfolding(vx_pic::specs::Sets::max_lsb))]
fn lsb_bits(sps: &Sps) -> u32
    ensures max { 2 ^ result ≡ sets.max_lsb sps.now }
    ensures few { result ≤ 16 }
{
    let _fields = sps.fields();
    sps.number(sps_log2_max_pic_order_cnt_lsb_minus4) + 4
}

/// Returns the fields of a header and an SPS from which counts are computed.
#[tactic(auto, unfolding(vx_pic::specs::Sets::lsb_of))]
fn count_fields(sps: &Sps, header: &Fields) -> CountFields
    ensures told { IsCountedBy result sps.now header.now }
    ensures few { result.lsb_bits ≤ 16 }
{
    CountFields {
        lsb_bits: lsb_bits(sps),
        lsb: number_of(header, ph_pic_order_cnt_lsb),
        msb_cycle: msb_cycle(header),
    }
}

/// Returns whether later counts are computed from a picture.
#[tactic(auto, unfolding(vx_pic::specs::Sets::is_non_ref))]
fn is_tid0(header: &Fields, kind: Kind) -> bool
    ensures { result ≡ tid0_by header.now kind }
{
    if kind.temporal_id != 0 || number_of(header, ph_non_ref_pic_flag) != 0 {
        return false;
    }
    kind.nal_type != RADL_NUT && kind.nal_type != RASL_NUT
}

/// Returns what later counts are computed from, after a whole picture; before it that was `old`.
#[tactic(auto, unfolding(vx_pic::specs::Sets::lsb_of))]
pub(crate) fn counts_behind(begun: &BegunPicture, kind: Kind, old: PrevTid0) -> PrevTid0
    ensures { result ≡ changes.counts_behind begun.now kind old }
{
    if is_tid0(&begun.header.fields, kind) {
        PrevTid0 {
            lsb: number_of(&begun.header.fields, ph_pic_order_cnt_lsb),
            poc: kind.poc,
        }
    } else {
        old
    }
}

impl State {
    /// Returns whether the next picture is the first, or the first after an end of sequence.
    fn begins_anew(&self) -> bool
        ensures { result ≡ held_anew self.now }
    {
        self.ended || self.last.is_none()
    }

    /// Returns whether the SPS of the picture that was begun last differs from that of the picture before.
    #[tactic(auto, using(crate::proofs::Openings::held_same))]
    fn changes(&self, sps: &Sps) -> bool
        requires { KnowsSps self.now (Some sps.now) }
        ensures { result ≡ held_changed (last_held self.now) sps.now }
    {
        if self.unchanged {
            return false;
        }
        match &self.last {
            Some(last) => {
                let kept = last.value().sps.value().fields();
                !same_items(kept.as_slice(), sps.fields().as_slice())
            }
            None => false,
        }
    }

    /// Returns the kind of the picture that was begun last, whose first slice is in a unit with this header.
    ///
    /// # Errors
    ///
    /// The refusal if it starts other than at an IRAP or GDR picture, if its SPS has changed, or if its count is out of range.
    pub(crate) fn open(&self, begun: &BegunPicture, header: NalHeader) -> Result<Kind, Refusal>
        requires { KnowsSps self.now (Some begun.now.sets.sps) }
        ensures value { result ≡ opened_in self.now (begun_of begun.now None) header.nal_type header.temporal_id }
        ensures heads { IfOk result (λ kind. (kind.nal_type ≡ header.nal_type) × (kind.temporal_id ≡ header.temporal_id)) }
    {
        let anew = self.begins_anew();
        if anew && !is_irap_or_gdr(header.nal_type) {
            return Err(structure(STARTS_ELSEWHERE));
        }
        let clvss = is_idr(header.nal_type) || (is_cra_or_gdr(header.nal_type) && anew);
        let sps = begun.sets.value().sps.value();
        if !clvss && self.changes(sps) {
            return Err(structure(SPS_CHANGED));
        }
        let fields = count_fields(sps, &begun.header.fields);
        let poc = picture_order_count(&fields, clvss, self.previous)?;
        Ok(Kind {
            nal_type: header.nal_type,
            temporal_id: header.temporal_id,
            clvss,
            after_eos: self.ended && self.last.is_some(),
            poc,
        })
    }
}
