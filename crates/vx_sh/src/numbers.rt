//! Slice headers under the sets, the picture header and the layout in force.
ghost use Rattle.std.specs.Prelude.{◌≡◌, ◌≤◌, length, IfOk};
ghost use Rattle.vx_bits.specs.Place.{Place};
ghost use Rattle.vx_bits.specs.Limits.{unit_limit};
ghost use Rattle.vx_table.specs.Reading.{Reads, at_front};
ghost use Rattle.vx_ph.specs.InForce as ph;
ghost use Rattle.vx_sh.specs.Whole.{slice_form};
ghost use Rattle.vx_sh.specs.Value.{ReadsSlice, IsSliceOf, IsSliceHeaderSpelling};
ghost use Rattle.vx_sh.specs.InForce as scopes;
ghost use Rattle.vx_sh.specs.InForce.{in_force_at};

use crate::context::Context;
use crate::header::SliceHeader;
use crate::read::{read_fields_at, read_slice_at};
use crate::write::write_slice_at;
use std::alloc::{AllocError, Global};
use vx_bits::{Fields, IdList, ReadError};
use vx_fields::names::rpl::{ENTRIES_0, ENTRIES_1};
use vx_fields::names::sh::{DEFAULT_ACTIVE_0, DEFAULT_ACTIVE_1, EXTRA_SH_BITS, NAL_TYPE};
use vx_fields::ph::ph_gdr_or_irap_pic_flag;
use vx_layout::Layout;
use vx_ph::{PictureHeader, in_force};
use vx_pps::Pps;
use vx_sps::Sps;
use vx_table::Scope;

/// The sets, the picture header and the layout in force at a slice.
#[derive(Clone, Copy)]
pub struct SliceNumbers<'a> {
    /// The type of its NAL unit.
    pub nal_type: u8,
    /// The SPS.
    pub sps: &'a Sps,
    /// The PPS.
    pub pps: &'a Pps,
    /// The picture header.
    pub header: &'a PictureHeader,
    /// The layout of the picture.
    pub layout: &'a Layout,
    /// The ids of its subpictures, one for each.
    pub ids: &'a IdList,
}

/// Turns the scope of the sets into that of a slice.
fn add_slice(nal_type: u8, sps: &Sps, pps: &Pps, header: &PictureHeader, scope: &mut Scope)
    ensures { scope.new ≡ scopes.slice_scope nal_type sps.now pps.now header.now scope.old }
{
    scope.load_from(&header.fields, ph_gdr_or_irap_pic_flag);
    scope.set(ENTRIES_0, header.lists.first.len() as u32);
    scope.set(ENTRIES_1, header.lists.second.len() as u32);
    scope.set(NAL_TYPE, u32::from(nal_type));
    scope.set(EXTRA_SH_BITS, sps.extra_sh_bits());
    scope.set(DEFAULT_ACTIVE_0, pps.default_active_0());
    scope.set(DEFAULT_ACTIVE_1, pps.default_active_1());
}

/// Returns the scope of a slice, from that of the sets.
pub(crate) fn slice_scope(
    nal_type: u8,
    sps: &Sps,
    pps: &Pps,
    header: &PictureHeader,
    sets: &Scope,
) -> Scope
    ensures { result ≡ scopes.slice_scope nal_type sps.now pps.now header.now sets.now }
{
    let mut scope = *sets;
    add_slice(nal_type, sps, pps, header, &mut scope);
    scope
}

/// Reads the slice header at the start of an RBSP, `slice_header()` (clause 7.3.7). Returns it and its number of bytes.
///
/// A picture header inside is passed over. The last byte of the header is never 00.
///
/// # Errors
///
/// - `Refused` with the first refusal: of a field, of an id that no subpicture has (S5), or of the picture header inside.
/// - `Memory` if memory runs out.
pub fn read_sh(
    alloc: Global,
    rbsp: &[u8],
    numbers: &SliceNumbers<'_>,
) -> Result<(SliceHeader, usize), ReadError>
    requires size { length rbsp.now ≤ unit_limit }
    requires few { length numbers.now.ids.now ≤ 1000 }
    requires one_each { length numbers.now.ids.now ≡ length numbers.now.layout.now.subpics }
    ensures { ReadsSlice (in_force_at numbers.now) rbsp.now result }
{
    let sets = in_force(numbers.sps, numbers.pps);
    let read = read_sh_at(alloc, rbsp, numbers, &sets)?;
    Ok(read)
}

/// Reads a slice header as [`read_sh`] does, at the scope of the sets in force ([`vx_ph::in_force`]).
///
/// Make that scope once for all slices under the same sets.
///
/// # Errors
///
/// As [`read_sh`].
pub fn read_sh_at(
    alloc: Global,
    rbsp: &[u8],
    numbers: &SliceNumbers<'_>,
    sets: &Scope,
) -> Result<(SliceHeader, usize), ReadError>
    requires size { length rbsp.now ≤ unit_limit }
    requires few { length numbers.now.ids.now ≤ 1000 }
    requires one_each { length numbers.now.ids.now ≡ length numbers.now.layout.now.subpics }
    requires sets { sets.now ≡ ph.in_force numbers.now.sps.now numbers.now.pps.now }
    ensures { ReadsSlice (in_force_at numbers.now) rbsp.now result }
{
    let (sps, pps) = (numbers.sps, numbers.pps);
    let context = Context {
        sets,
        table: sps.table(),
        layout: numbers.layout,
        ids: numbers.ids,
    };
    let mut scope = *sets;
    add_slice(numbers.nal_type, sps, pps, numbers.header, &mut scope);
    let read = read_slice_at(alloc, rbsp, &context, &mut scope)?;
    Ok(read)
}

/// Reads the fields of the slice header at the start of an RBSP, `slice_header()` (clause 7.3.7), and appends their items.
///
/// They come in the order of the bits, with those of a picture header inside.
///
/// # Errors
///
/// As [`read_sh`]. `into` has then gained the fields read before.
pub fn read_sh_fields(
    rbsp: &[u8],
    numbers: &SliceNumbers<'_>,
    into: &mut Fields,
) -> Result<(), ReadError>
    requires size { length rbsp.now ≤ unit_limit }
    requires few { length numbers.now.ids.now ≤ 1000 }
    requires one_each { length numbers.now.ids.now ≡ length numbers.now.layout.now.subpics }
    ensures { (new : Place) × Reads (slice_form (in_force_at numbers.now)) (at_front rbsp.now) into.old result new into.new }
{
    let (sps, pps) = (numbers.sps, numbers.pps);
    let sets = in_force(sps, pps);
    let mut slice = slice_scope(numbers.nal_type, sps, pps, numbers.header, &sets);
    let context = Context {
        sets: &sets,
        table: sps.table(),
        layout: numbers.layout,
        ids: numbers.ids,
    };
    read_fields_at(rbsp, &context, &mut slice, into)?;
    Ok(())
}

/// Returns the bytes of a slice header, `slice_header()` (clause 7.3.7), with the picture header of `numbers` if it is inside.
///
/// # Errors
///
/// `AllocError` if memory runs out.
pub fn write_sh(
    alloc: Global,
    header: &SliceHeader,
    numbers: &SliceNumbers<'_>,
) -> Result<Vec<u8>, AllocError>
    requires slice { IsSliceOf (in_force_at numbers.now) header.now.fields numbers.now.header.now.fields }
    requires few { length numbers.now.ids.now ≤ 1000 }
    requires one_each { length numbers.now.ids.now ≡ length numbers.now.layout.now.subpics }
    ensures { IfOk result (λ bytes. IsSliceHeaderSpelling (in_force_at numbers.now) header.now.fields numbers.now.header.now.fields bytes.items) }
{
    let (sps, pps) = (numbers.sps, numbers.pps);
    let sets = in_force(sps, pps);
    let mut slice = slice_scope(numbers.nal_type, sps, pps, numbers.header, &sets);
    let context = Context {
        sets: &sets,
        table: sps.table(),
        layout: numbers.layout,
        ids: numbers.ids,
    };
    let bytes = write_slice_at(alloc, header, &numbers.header.fields, &context, &mut slice)?;
    Ok(bytes)
}
