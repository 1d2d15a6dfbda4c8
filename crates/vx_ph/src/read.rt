//! Reading of a picture header.
ghost use Rattle.std.specs.Prelude.{◌≡◌, IfOk};
ghost use Rattle.vx_table.specs.Reading.{Reads};
ghost use Rattle.vx_ph.specs.Header.{header_form};
ghost use Rattle.vx_ph.specs.Picture.{IsHeader, ReadsHeader};

use crate::header::PictureHeader;
use crate::walk::code_header;
use std::alloc::Global;
use vx_bits::{BitReader, Fields, ReadError};
use vx_rpl::{RplTable, resolve_lists};
use vx_table::Scope;

/// Reads the fields of a header.
pub(crate) fn read_fields(
    bits: &mut BitReader<'_>,
    table: &RplTable,
    mut scope: Scope,
    into: &mut Fields,
) -> Result<(), ReadError>
    ensures { Reads (header_form table.now scope) bits.old into.old result bits.new into.new }
{
    code_header(table, &mut scope, bits, into)
}

/// Reads a picture header, `picture_header_structure()` (clause 7.3.2.8), at the scope of the sets in force.
///
/// `table` has the SPS's list structures, and `scope` is that of [`both_sets`](crate::both_sets). The end of a unit isn't read.
///
/// # Errors
///
/// - `Refused` with the first refusal. `bits` is then at its field.
/// - `Memory` if memory runs out.
pub fn read_header_at(
    alloc: Global,
    bits: &mut BitReader<'_>,
    table: &RplTable,
    scope: &Scope,
) -> Result<PictureHeader, ReadError>
    ensures answer { ReadsHeader table.now scope.now bits.old result bits.new }
    ensures value { IfOk result (λ header. IsHeader table.now scope.now header) }
{
    let mut fields = Fields::new(alloc);
    read_fields(bits, table, *scope, &mut fields)?;
    let lists = resolve_lists(alloc, table, scope, fields.as_slice())?;
    Ok(PictureHeader { fields, lists })
}
