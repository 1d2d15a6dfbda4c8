//! The pictures from which slices predict motion.
ghost use Rattle.std.specs.Prelude.{◌≡◌, ◌≤◌, ◌≤ℤ◌, pos, neg_ℤ, length, take};
ghost use Rattle.vx_frame.specs.Collocated as words;

use crate::headers::{header_number, lists_of};
use vx_bits::Fields;
use vx_fields::ph::ph_temporal_mvp_enabled_flag;
use vx_fields::pps::pps_rpl_info_in_ph_flag;
use vx_fields::sh::{sh_collocated_from_l0_flag, sh_collocated_ref_idx, sh_slice_type};
use vx_pic::Picture;
use vx_rpl::{RefEntry, RefList};
use vx_sh::SliceHeader;
use vx_table::natural;

/// The type of I slices.
const I: u32 = 2;

/// What an entry of a reference picture list states about its picture (H.266 8.3.2).
#[derive(Clone, Copy, PartialEq, Eq)]
pub enum Collocated {
    /// The difference of its picture order count from the picture's own.
    Nearby(i64),
    /// The low bits of its picture order count, and if stated the cycles of these between the pictures.
    ///
    /// The cycles are DeltaPocMsbCycleLt (H.266 7.4.10).
    Distant(u32, Option<u64>),
    /// There is no such entry.
    Absent,
}

/// Returns DeltaPocValSt of a short-term entry (H.266 7.4.11), and 0 for a long-term one.
fn delta_of(entry: RefEntry) -> i64
    ensures value { result ≡ words.delta_of entry }
    ensures low { neg_ℤ (pos 4294967295) ≤ℤ result }
    ensures high { result ≤ℤ pos 4294967295 }
{
    match entry {
        RefEntry::Short { abs, sign: true } => -i64::from(abs),
        RefEntry::Short { abs, sign: false } => i64::from(abs),
        RefEntry::Long { .. } => 0,
    }
}

/// Returns the sum of these of the first `count` entries.
#[tactic(auto, using(crate::proofs::Deltas::delta_more))]
fn delta_to(list: &RefList, count: usize) -> i64
    requires within { count ≤ length list.now }
    requires few { count ≤ 29 }
    ensures { result ≡ words.delta_to (take count list.now) }
{
    let mut sum = 0;
    for i in 0..count {
        sum += delta_of(list.item(i));
    }
    sum
}

/// Returns delta_poc_msb_cycle_lt of an entry, and 0 if it is absent.
fn cycles_of(entry: RefEntry) -> u64
    ensures value { result ≡ words.cycles_of entry }
    ensures high { result ≤ 4294967295 }
{
    match entry {
        RefEntry::Long {
            msb: Some(cycles),
            ..
        } => u64::from(cycles),
        _ => 0,
    }
}

/// Returns the sum of these of the first `count` entries.
fn cycles_to(list: &RefList, count: usize) -> u64
    requires within { count ≤ length list.now }
    requires few { count ≤ 29 }
    ensures { result ≡ words.cycles_to (take count list.now) }
{
    let mut sum = 0;
    for i in 0..count {
        sum += cycles_of(list.item(i));
    }
    sum
}

/// Returns what entry `i` of a list states.
fn told_at(list: &RefList, i: u32) -> Collocated
    ensures { result ≡ words.told_at list.now i }
{
    let i = i as usize;
    if list.len() <= i {
        return Collocated::Absent;
    }
    match list.item(i) {
        RefEntry::Short { .. } => Collocated::Nearby(delta_to(list, i + 1)),
        RefEntry::Long { lsb, msb: None } => Collocated::Distant(lsb, None),
        RefEntry::Long { lsb, msb: Some(_) } => Collocated::Distant(
            lsb,
            Some(cycles_to(list, i + 1)),
        ),
    }
}

/// Returns the number of a field of a header, and `absent` if there is none.
fn number_or(absent: u32, items: &Fields, field: u16) -> u32
    ensures { result ≡ words.number_or absent items.now field }
{
    natural(items.first(field).unwrap_or(i64::from(absent)))
}

/// Returns whether slices of a picture may name a collocated picture.
pub(crate) fn may_name(picture: &Picture<'_>) -> bool
    ensures { result ≡ words.may_name picture.now }
{
    if picture.pps().scope().latest(pps_rpl_info_in_ph_flag) != 0 {
        return false;
    }
    header_number(picture, ph_temporal_mvp_enabled_flag) != 0
}

/// Returns whether a slice of such a picture names one.
pub(crate) fn names_one(header: &SliceHeader) -> bool
    ensures { result ≡ words.names_one header.now }
{
    number_or(I, &header.fields, sh_slice_type) != I
}

/// Returns what is stated about the collocated picture that a slice names.
pub(crate) fn collocated_of<'a>(picture: &Picture<'a>, header: &'a SliceHeader) -> Collocated
    ensures { result ≡ words.collocated_of picture.now header.now }
{
    let lists = lists_of(picture, header);
    let i = number_or(0, &header.fields, sh_collocated_ref_idx);
    if number_or(1, &header.fields, sh_collocated_from_l0_flag) != 0 {
        told_at(&lists.first, i)
    } else {
        told_at(&lists.second, i)
    }
}
