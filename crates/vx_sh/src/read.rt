//! Reading of a slice header.
ghost use Rattle.std.specs.Prelude.{◌≡◌, ◌≤◌, [], length};
ghost use Rattle.vx_bits.specs.Place.{Place};
ghost use Rattle.vx_bits.specs.Limits.{unit_limit};
ghost use Rattle.vx_table.specs.Reading.{Reads, at_front};
ghost use Rattle.vx_table.specs.Walks.{leaving};
ghost use Rattle.vx_sh.specs.Whole.{header_inside, at_of, slice_form};
ghost use Rattle.vx_sh.specs.Value.{ReadsSlice};
ghost use Rattle.vx_sh.specs.inner.Reading.{IsPassed, ReadsFields};

use crate::context::Context;
use crate::front::{code_behind, code_header_inside, code_inside};
use crate::header::SliceHeader;
use std::alloc::Global;
use vx_bits::{BitReader, Fields, ReadError};
use vx_fields::names::sh::SUBPIC;
use vx_fields::sh::{sh_picture_header_in_slice_header_flag, sh_slice_address};
use vx_rpl::resolve_lists;
use vx_table::Scope;

/// The number of items that most slice headers don't exceed.
const USUAL_ITEMS: usize = 64;

/// Passes over the picture header, if it is inside.
fn pass_inside(n: &Context<'_>, scope: &Scope, bits: &mut BitReader<'_>) -> Result<(), ReadError>
    ensures { IsPassed (header_inside n.now.table.now n.now.sets.now scope.now) scope.now bits.old result bits.new }
{
    match code_inside(n, scope, bits, &mut ()) {
        Ok(()) => Ok(()),
        Err(refusal) => Err(ReadError::Refused(refusal)),
    }
}

/// Reads the fields. The scope is then the one after them.
fn read_fields(
    n: &Context<'_>,
    scope: &mut Scope,
    bits: &mut BitReader<'_>,
    into: &mut Fields,
) -> Result<(), ReadError>
    requires { into.old ≡ [] }
    ensures { ReadsFields (at_of n.now scope.old) bits.old (leaving scope.new result) bits.new into.new }
{
    code_header_inside(scope, bits, into)?;
    pass_inside(n, scope, bits)?;
    code_behind(n, scope, bits, into)?;
    Ok(())
}

/// Reads all fields, also those of the picture header inside.
fn read_all(
    n: &Context<'_>,
    scope: &mut Scope,
    bits: &mut BitReader<'_>,
    into: &mut Fields,
) -> Result<(), ReadError>
    ensures { Reads (slice_form (at_of n.now scope.old)) bits.old into.old result bits.new into.new }
{
    code_header_inside(scope, bits, into)?;
    code_inside(n, scope, bits, into)?;
    code_behind(n, scope, bits, into)
}

/// Reads the fields of the slice header at the start of an RBSP, with those of a picture header inside, and appends their items.
///
/// # Errors
///
/// As [`read_slice_at`]. `into` has then gained the fields read before.
pub(crate) fn read_fields_at(
    rbsp: &[u8],
    n: &Context<'_>,
    scope: &mut Scope,
    into: &mut Fields,
) -> Result<(), ReadError>
    requires { length rbsp.now ≤ unit_limit }
    ensures { (new : Place) × Reads (slice_form (at_of n.now scope.old)) (at_front rbsp.now) into.old result new into.new }
{
    let mut bits = BitReader::new(rbsp);
    read_all(n, scope, &mut bits, into)
}

/// Reads the slice header at the start of an RBSP, `slice_header()` (clause 7.3.7), and returns it and its number of bytes.
///
/// A picture header inside is passed over. The scope is the slice's, and receives the numbers that are read.
///
/// # Errors
///
/// - `Refused` with the first refusal: of a field, of an id that no subpicture has, or of the picture header inside.
/// - `Memory` if memory runs out.
pub(crate) fn read_slice_at(
    alloc: Global,
    rbsp: &[u8],
    n: &Context<'_>,
    scope: &mut Scope,
) -> Result<(SliceHeader, usize), ReadError>
    requires { length rbsp.now ≤ unit_limit }
    ensures { ReadsSlice (at_of n.now scope.old) rbsp.now result }
{
    let mut bits = BitReader::new(rbsp);
    let mut fields = Fields::with_capacity(alloc, USUAL_ITEMS)?;
    read_fields(n, scope, &mut bits, &mut fields)?;
    let lists = resolve_lists(alloc, n.table, n.sets, fields.as_slice())?;
    let size = (bits.at() / 8) as usize;
    let header = SliceHeader {
        inside: scope.latest(sh_picture_header_in_slice_header_flag) != 0,
        fields,
        subpic: scope.latest(SUBPIC),
        address: scope.latest(sh_slice_address),
        lists,
    };
    Ok((header, size))
}
