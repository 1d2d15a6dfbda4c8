//! Writing of a picture header.
ghost use Rattle.std.specs.Prelude.{◌≡◌, [], ◌++◌, IfOk, OnOk, OnErr};
ghost use Rattle.vx_table.specs.Writing.{Writes};
ghost use Rattle.vx_ph.specs.Header.{header_form};
ghost use Rattle.vx_ph.specs.Picture.{IsHeader, IsPictureHeaderSpelling, IsPictureHeaderFront, IsPictureHeaderUnit, unit_form};

use crate::header::PictureHeader;
use crate::walk::{code_header, code_unit};
use std::alloc::{AllocError, Global};
use vx_bits::BitWriter;
use vx_rpl::RplTable;
use vx_table::{Scope, SpellError, Unwritten, only_memory};

/// Writes the header whose items come next.
fn write_fields(
    bits: &mut BitWriter,
    items: &mut Unwritten<'_>,
    table: &RplTable,
    mut scope: Scope,
) -> Result<(), SpellError>
    ensures { Writes (header_form table.now scope) bits.old items.old result bits.new items.new }
{
    code_header(table, &mut scope, bits, items)
}

/// Writes a picture header without trailing bits (clause 7.3.2.8), at the scope of the sets in force.
///
/// `table` has the SPS's list structures.
///
/// # Errors
///
/// `AllocError` if memory runs out. `bits` has then gained a prefix of the header's bits.
pub fn write_header_at(
    bits: &mut BitWriter,
    header: &PictureHeader,
    table: &RplTable,
    scope: &Scope,
) -> Result<(), AllocError>
    requires { IsHeader table.now scope.now header.now }
    ensures ok { OnOk result (IsPictureHeaderSpelling table.now scope.now header.now bits.old bits.new) }
    ensures err { OnErr result (IsPictureHeaderFront table.now scope.now header.now bits.old bits.new) }
{
    let fields = &header.fields;
    let mut items = Unwritten::new(fields, 0, fields.len());
    match write_fields(bits, &mut items, table, *scope) {
        Ok(()) => Ok(()),
        Err(error) => Err(only_memory(error)),
    }
}

/// Writes the unit whose items come next.
fn write_unit(
    bits: &mut BitWriter,
    items: &mut Unwritten<'_>,
    table: &RplTable,
    mut scope: Scope,
) -> Result<(), SpellError>
    ensures { Writes (unit_form table.now scope) bits.old items.old result bits.new items.new }
{
    code_unit(table, &mut scope, bits, items)
}

/// Returns the RBSP of a picture header unit (clause 7.3.2.7), at the scope of the sets in force.
///
/// `table` has the SPS's list structures.
///
/// # Errors
///
/// `AllocError` if memory runs out.
pub fn write_unit_at(
    alloc: Global,
    header: &PictureHeader,
    table: &RplTable,
    scope: &Scope,
) -> Result<Vec<u8>, AllocError>
    requires { IsHeader table.now scope.now header.now }
    ensures { IfOk result (λ bytes. IsPictureHeaderUnit table.now scope.now header.now bytes.items) }
{
    let fields = &header.fields;
    let mut bits = BitWriter::new(alloc);
    let mut items = Unwritten::new(fields, 0, fields.len());
    match write_unit(&mut bits, &mut items, table, *scope) {
        Ok(()) => Ok(bits.into_bytes()),
        Err(error) => Err(only_memory(error)),
    }
}
