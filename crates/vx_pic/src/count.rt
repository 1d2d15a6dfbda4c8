//! Picture order count (H.266 8.3.1).
ghost use Rattle.std.specs.Prelude.{◌≡◌, ◌≤◌, ◌^◌, pos, neg_ℤ, ◌-ℤ◌, ◌≤ℤ◌};
ghost use Rattle.vx_pic.specs.Counts.{nearest_msb, msb_by, pic_order_count};
ghost use Rattle.vx_pic.specs.Counted.{previous_of, checked};

use vx_bits::Refusal;
use vx_bits::rules::POC_RANGE;

/// prevTid0Pic as the counts of later pictures use it (H.266 8.3.1). It is the last picture with TemporalId 0 and
/// ph_non_ref_pic_flag 0 that is neither RADL nor RASL. Both numbers are 0 if there is none.
#[derive(Clone, Copy, Default, PartialEq, Eq)]
pub struct PrevTid0 {
    /// Its ph_pic_order_cnt_lsb.
    pub lsb: u32,
    /// Its PicOrderCntVal.
    pub poc: i32,
}

/// The fields of an SPS and a picture header from which a picture's count is computed.
#[derive(Clone, Copy, PartialEq, Eq)]
pub struct CountFields {
    /// The number of bits of ph_pic_order_cnt_lsb, from 4 to 16: sps_log2_max_pic_order_cnt_lsb_minus4 + 4.
    pub lsb_bits: u32,
    /// ph_pic_order_cnt_lsb.
    pub lsb: u32,
    /// ph_poc_msb_cycle_val, if it is present.
    pub msb_cycle: Option<u32>,
}

/// Returns prevPicOrderCntMsb.
fn previous_msb(previous: PrevTid0) -> i64
    ensures value { result ≡ previous.poc -ℤ pos previous.lsb }
    ensures low { neg_ℤ (pos (2 ^ 33)) ≤ℤ result }
    ensures high { result ≤ℤ pos (2 ^ 33) }
{
    i64::from(previous.poc) - i64::from(previous.lsb)
}

/// Returns PicOrderCntMsb from prevTid0Pic; `max` is MaxPicOrderCntLsb.
fn nearest(max: u32, lsb: u32, previous: PrevTid0) -> i64
    ensures value { result ≡ nearest_msb max lsb (previous_of previous) }
    ensures low { neg_ℤ (pos (2 ^ 50)) ≤ℤ result }
    ensures high { result ≤ℤ pos (2 ^ 50) }
{
    let msb = previous_msb(previous);
    let (range, new, old) = (u64::from(max), u64::from(lsb), u64::from(previous.lsb));
    if new < old && range <= 2 * (old - new) {
        return msb + i64::from(max);
    }
    if old < new && range < 2 * (new - old) {
        return msb - i64::from(max);
    }
    msb
}

/// Returns PicOrderCntMsb.
fn picture_msb(max: u32, fields: &CountFields, clvss: bool, previous: PrevTid0) -> i64
    requires { max ≤ 2 ^ 16 }
    ensures value { result ≡ msb_by fields.now.msb_cycle clvss max fields.now.lsb (previous_of previous) }
    ensures low { neg_ℤ (pos (2 ^ 50)) ≤ℤ result }
    ensures high { result ≤ℤ pos (2 ^ 50) }
{
    match fields.msb_cycle {
        Some(cycle) => i64::from(cycle) * i64::from(max),
        None if clvss => 0,
        None => nearest(max, fields.lsb, previous),
    }
}

/// Returns a count, if it fits in 32 bits.
#[tactic(auto, using(crate::proofs::Fitting::fit_count, crate::proofs::Fitting::misfit_count))]
fn in_range(count: i64) -> Result<i32, Refusal>
    ensures { result ≡ checked count }
{
    match i32::try_from(count) {
        Ok(poc) => Ok(poc),
        Err(_) => Err(Refusal::Structure {
            code: POC_RANGE,
            kind: 0,
            id: 0,
        }),
    }
}

/// Returns PicOrderCntVal of a picture (H.266 8.3.1). Takes no memory.
///
/// `clvss` says whether the picture starts a coded layer video sequence.
///
/// # Errors
///
/// POC_RANGE if the count doesn't fit in 32 bits.
pub fn picture_order_count(
    fields: &CountFields,
    clvss: bool,
    previous: PrevTid0,
) -> Result<i32, Refusal>
    requires { fields.now.lsb_bits ≤ 16 }
    ensures { result ≡ checked (pic_order_count fields.now.msb_cycle clvss (2 ^ fields.now.lsb_bits) fields.now.lsb (previous_of previous)) }
{
    let max = 1_u32 << fields.lsb_bits;
    let count = picture_msb(max, fields, clvss, previous) + i64::from(fields.lsb);
    in_range(count)
}
