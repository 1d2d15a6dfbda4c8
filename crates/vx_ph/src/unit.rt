//! Reading of a picture header that is a unit of its own.
ghost use Rattle.std.specs.Prelude.{◌≡◌, ◌≤◌, length, IfOk};
ghost use Rattle.vx_bits.specs.Limits.{unit_limit};
ghost use Rattle.vx_table.specs.Reading.{Reads};
ghost use Rattle.vx_ph.specs.Picture.{IsHeader, ReadsUnit, unit_form};

use crate::header::PictureHeader;
use crate::walk::code_unit;
use std::alloc::Global;
use vx_bits::{BitReader, Fields, ReadError};
use vx_rpl::{RplTable, resolve_lists};
use vx_table::Scope;

/// Reads the fields of a header, and the trailing bits.
pub(crate) fn read_unit(
    bits: &mut BitReader<'_>,
    table: &RplTable,
    mut scope: Scope,
    into: &mut Fields,
) -> Result<(), ReadError>
    ensures { Reads (unit_form table.now scope) bits.old into.old result bits.new into.new }
{
    code_unit(table, &mut scope, bits, into)
}

/// Reads the RBSP of a picture header unit, `picture_header_rbsp()` (clause 7.3.2.7), at the scope of the sets in force.
///
/// `table` has the SPS's list structures.
///
/// # Errors
///
/// - `Refused` with the first refusal.
/// - `Memory` if memory runs out.
pub fn read_unit_at(
    alloc: Global,
    rbsp: &[u8],
    table: &RplTable,
    scope: &Scope,
) -> Result<PictureHeader, ReadError>
    requires { length rbsp.now ≤ unit_limit }
    ensures answer { ReadsUnit table.now scope.now rbsp.now result }
    ensures value { IfOk result (λ header. IsHeader table.now scope.now header) }
{
    let mut bits = BitReader::new(rbsp);
    let mut fields = Fields::new(alloc);
    read_unit(&mut bits, table, *scope, &mut fields)?;
    let lists = resolve_lists(alloc, table, scope, fields.as_slice())?;
    Ok(PictureHeader { fields, lists })
}
