//! Reading of sets and headers.
ghost use Rattle.std.specs.Prelude.{◌≡◌, ◌+◌, ◌<◌, ◌≤◌, drop, length, List, ℕ, Option, IfOk, IfSome, OnOk};
ghost use Rattle.vx_bits.specs.Limits.{unit_limit};
ghost use Rattle.vx_rpl.specs.HeaderLists.{lists_of};
ghost use Rattle.vx_ph.specs.InForce.{in_force, structures};
ghost use Rattle.vx_ph.specs.Picture as picture;
ghost use Rattle.vx_sh.specs.InForce.{in_force_at};
ghost use Rattle.vx_pic.specs.Parts.{IsReadAt};
ghost use Rattle.vx_aps.specs.Aps.{IsValid};
ghost use Rattle.vx_pic.specs.PictureLayout as pictures;
ghost use Rattle.vx_pic.specs.PictureLayout.{numbers_in, MakeLayout};
ghost use Rattle.vx_pic.specs.Rules.{Readers};
ghost use Rattle.vx_pic.specs.H266.{AreOfH266, header_place};
ghost use Rattle.vx_pic.specs.Readings.{Begun};
ghost use Rattle.vx_pic.specs.Units.{rbsp_of};
ghost use Rattle.vx_assemble.specs.inner.Answered.{slice_seen, AreOfBegun};
ghost use Rattle.vx_assemble.specs.inner.Held.{begun_of};
ghost use Rattle.vx_assemble.specs.inner.Headers.{IsHeaderUnder};
ghost use Rattle.vx_assemble.specs.inner.Order.{IsHeader};
ghost use Rattle.vx_assemble.specs.inner.Takes.{Gives, answer_by, header_read_as, NamesSmall, IsReadUnder};

use crate::state::BegunPicture;
use crate::unit::{NalUnit, SliceUnit};
use std::alloc::{AllocError, Global};
use vx_annexb::{unescape, unit_place};
use vx_aps::{Aps, one_answer, read_aps};
use vx_bits::{BitReader, Fields, IdList, ReadError};
use vx_layout::Layout;
use vx_ph::{PictureHeader, read_header_at, read_pps_id, read_unit_at};
use vx_pic::{picture_ids, picture_layout};
use vx_pps::{Pps, read_pps};
use vx_ptl::read_vps;
use vx_sei::{MessageList, read_sei};
use vx_sh::{SliceHeader, SliceNumbers, read_sh_at};
use vx_sps::{Sps, read_sps};
use vx_table::Scope;

/// A slice header, and the place in its unit after it.
#[derive(Drop)]
pub(crate) struct ReadSlice {
    /// The header.
    pub header: SliceHeader,
    /// The place where slice_data( ) begins.
    pub payload: usize,
}

/// Returns the items of a VPS.
pub(crate) fn vps_of(alloc: Global, rbsp: &[u8]) -> Result<Fields, ReadError>
    requires { length rbsp.now ≤ unit_limit }
    ensures { (R : Readers) → AreOfH266 R → Gives (R.vps rbsp.now) result }
{
    read_vps(alloc, rbsp)
}

/// Returns an SPS.
pub(crate) fn sps_of(alloc: Global, rbsp: &[u8]) -> Result<Sps, ReadError>
    requires { length rbsp.now ≤ unit_limit }
    ensures { (R : Readers) → AreOfH266 R → Gives (R.sps rbsp.now) result }
{
    read_sps(alloc, rbsp)
}

/// Returns a PPS.
pub(crate) fn pps_of(alloc: Global, rbsp: &[u8]) -> Result<Pps, ReadError>
    requires { length rbsp.now ≤ unit_limit }
    ensures { (R : Readers) → AreOfH266 R → Gives (R.pps rbsp.now) result }
{
    read_pps(alloc, rbsp)
}

/// Returns an APS, or `None` if its type is dropped.
pub(crate) fn aps_of(alloc: Global, rbsp: &[u8]) -> Result<Option<Aps>, ReadError>
    requires { length rbsp.now ≤ unit_limit }
    ensures answer { (R : Readers) → AreOfH266 R → Gives (R.aps rbsp.now) result }
    ensures valid { IfOk result (λ aps. IfSome aps IsValid) }
{
    one_answer();
    read_aps(alloc, rbsp)
}

/// Returns the messages of an SEI RBSP that are copied.
pub(crate) fn messages_of(alloc: Global, rbsp: &[u8]) -> Result<MessageList, AllocError>
    requires { length rbsp.now ≤ unit_limit }
    ensures { (R : Readers) → AreOfH266 R → IfOk result (λ messages. messages ≡ R.sei rbsp.now) }
{
    let carried = read_sei(alloc, rbsp)?;
    Ok(carried.unwrap_or(MessageList::new(alloc)))
}

/// Returns the layout that two sets make up.
pub(crate) fn layout_of(alloc: Global, sps: &Sps, pps: &Pps) -> Result<Layout, ReadError>
    ensures answer { (R : Readers) → AreOfH266 R → Gives (R.layout sps.now pps.now) result }
    ensures numbers { IfOk result (λ layout. layout ≡ numbers_in sps.now pps.now) }
    ensures make { OnOk result (MakeLayout sps.now pps.now) }
    ensures few { IfOk result (λ layout. length layout.slices ≤ 1000) }
    ensures few_subpics { IfOk result (λ layout. length layout.subpics ≤ 1000) }
{
    picture_layout(alloc, sps, pps)
}

/// Returns the ids of the subpictures of two sets that make up a layout.
#[tactic(auto, using(crate::proofs::Small::one_each))]
pub(crate) fn ids_of(alloc: Global, sps: &Sps, pps: &Pps) -> Result<IdList, AllocError>
    requires { MakeLayout sps.now pps.now }
    ensures ids { IfOk result (λ ids. ids ≡ pictures.ids_of sps.now pps.now) }
    ensures one_each { IfOk result (λ ids. length ids ≡ length (numbers_in sps.now pps.now).subpics) }
{
    let ids = picture_ids(alloc, sps, pps)?;
    Ok(ids)
}

/// Takes the next bit, if there is one.
fn skip_bit(bits: &mut BitReader<'_>)
    ensures left { bits.new.left ≡ drop 1 bits.old.left }
    ensures total { bits.new.total ≡ bits.old.total }
{
    let _bit = bits.u(1);
}

/// Returns the bits from a picture header on, which comes after the first bit of a slice if it is inside (H.266 7.3.7).
#[tactic(auto, using(crate::proofs::Answers::behind_bit, crate::proofs::Answers::at_first))]
pub(crate) fn header_bits(inside: bool, rbsp: &[u8]) -> BitReader<'_>
    requires { length rbsp.now ≤ unit_limit }
    ensures { result ≡ header_place inside rbsp.now }
{
    let mut bits = BitReader::new(rbsp);
    if inside {
        skip_bit(&mut bits);
    }
    bits
}

/// Returns ph_pic_parameter_set_id of a picture header, which may be inside a slice.
pub(crate) fn referred_pps(inside: bool, rbsp: &[u8]) -> Result<u8, ReadError>
    requires { length rbsp.now ≤ unit_limit }
    ensures { (R : Readers) → AreOfH266 R → Gives (R.referred_pps inside rbsp.now) result }
{
    let mut bits = header_bits(inside, rbsp);
    match read_pps_id(&mut bits) {
        Ok(id) => Ok(id),
        Err(refusal) => Err(ReadError::Refused(refusal)),
    }
}

/// Returns a picture header, which may be inside a slice, under its sets, whose numbers the scope has.
#[tactic(auto, using(crate::proofs::Small::header_small))]
pub(crate) fn header_of(
    alloc: Global,
    inside: bool,
    sps: &Sps,
    pps: &Pps,
    scope: &Scope,
    rbsp: &[u8],
) -> Result<PictureHeader, ReadError>
    requires size { length rbsp.now ≤ unit_limit }
    requires scope { scope.now ≡ in_force sps.now pps.now }
    ensures answer { (R : Readers) → AreOfH266 R
        → Gives (R.header inside sps.now pps.now rbsp.now) (answer_by (λ header. header.fields) result) }
    ensures made { IfOk result (IsHeaderUnder sps.now pps.now) }
    ensures read { IfOk result (picture.IsHeader (structures sps.now) (in_force sps.now pps.now)) }
    ensures small { IfOk result (λ header. NamesSmall header.fields) }
{
    if !inside {
        return read_unit_at(alloc, rbsp, sps.table(), scope);
    }
    let mut bits = header_bits(true, rbsp);
    read_header_at(alloc, &mut bits, sps.table(), scope)
}

/// Returns the header of a slice, whose unit has this RBSP, and the place in the unit after it. The scope has the numbers of its
/// sets.
pub(crate) fn read_slice(
    alloc: Global,
    unit: &[u8],
    rbsp: &[u8],
    numbers: &SliceNumbers<'_>,
    scope: &Scope,
) -> Result<(SliceHeader, usize), ReadError>
    requires spells { rbsp.now ≡ rbsp_of unit.now }
    requires size { length rbsp.now ≤ unit_limit }
    requires few { length numbers.now.ids.now ≤ 1000 }
    requires one_each { length numbers.now.ids.now ≡ length numbers.now.layout.now.subpics }
    requires scope { scope.now ≡ in_force numbers.now.sps.now numbers.now.pps.now }
    ensures answer { (R : Readers) → AreOfH266 R → (b : Begun) → AreOfBegun numbers.now b
        → Gives (R.slice numbers.now.nal_type b unit.now) (answer_by slice_seen result) }
    ensures read { IfOk result (λ read. IsReadAt (in_force_at numbers.now) read.0) }
    ensures subpic { IfOk result (λ read. read.0.subpic < length numbers.now.ids.now) }
    ensures small { IfOk result (λ read. NamesSmall read.0.fields) }
    ensures within { IfOk result (λ read. read.1 ≤ length unit.now) }
    ensures lists { IfOk result (λ read. read.0.lists ≡ lists_of (structures numbers.now.sps.now) (in_force numbers.now.sps.now numbers.now.pps.now) read.0.fields) }
{
    let (header, size) = read_sh_at(alloc, rbsp, numbers, scope)?;
    let payload = unit_place(unit, 2 + size);
    Ok((header, payload))
}

/// Returns what a slice of a picture is read under, if the picture's first slice has this type.
pub(crate) fn numbers_under<'a>(nal_type: u8, begun: &'a BegunPicture) -> SliceNumbers<'a>
    requires { IsHeader begun.now }
    ensures nal_type { result.nal_type ≡ nal_type }
    ensures under { (head : Option (List ℕ)) → AreOfBegun result (begun_of begun.now head) }
    ensures few { length result.ids.now ≤ 1000 }
    ensures one_each { length result.ids.now ≡ length result.layout.now.subpics }
{
    let sets = begun.sets.value();
    let sps = sets.sps.value();
    let pps = sets.pps.value();
    SliceNumbers {
        nal_type,
        sps,
        pps,
        header: &begun.header,
        layout: &sets.layout,
        ids: &sets.ids,
    }
}

/// Returns the header of a slice of a picture, whose first slice has this type, from the RBSP of its unit.
///
/// # Errors
///
/// - `Refused` with the first refusal.
/// - `Memory` if memory runs out.
fn slice_of(
    alloc: Global,
    nal_type: u8,
    begun: &BegunPicture,
    unit: NalUnit<'_>,
) -> Result<ReadSlice, ReadError>
    requires { IsHeader begun.now }
    ensures answer { (R : Readers) → AreOfH266 R → (head : Option (List ℕ))
        → Gives (R.slice nal_type (begun_of begun.now head) unit.entry.bytes.now) (answer_by header_read_as result) }
    ensures made { IfOk result (IsReadUnder begun.now nal_type) }
    ensures within { IfOk result (λ read. read.payload ≤ length unit.entry.bytes.now) }
{
    let numbers = numbers_under(nal_type, begun);
    let scope = begun.sets.value().scope.value();
    let (header, payload) = read_slice(alloc, unit.bytes, unit.rbsp, &numbers, scope)?;
    Ok(ReadSlice { header, payload })
}

/// Returns the header of a slice of a picture, whose first slice has this type.
///
/// # Errors
///
/// - `Refused` with the first refusal.
/// - `Memory` if memory runs out.
pub(crate) fn slice_header_of(
    alloc: Global,
    nal_type: u8,
    begun: &BegunPicture,
    unit: SliceUnit<'_>,
) -> Result<ReadSlice, ReadError>
    requires { IsHeader begun.now }
    ensures answer { (R : Readers) → AreOfH266 R → (head : Option (List ℕ))
        → Gives (R.slice nal_type (begun_of begun.now head) unit.entry.bytes.now) (answer_by header_read_as result) }
    ensures made { IfOk result (IsReadUnder begun.now nal_type) }
{
    if let Ok(read) = slice_of(alloc, nal_type, begun, unit.front) {
        return Ok(read);
    }
    let bytes = unescape(alloc, unit.bytes)?;
    let whole = unit.whole(&bytes);
    slice_of(alloc, nal_type, begun, whole)
}
