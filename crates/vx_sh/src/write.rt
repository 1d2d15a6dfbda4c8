//! Writing of a slice header.
ghost use Rattle.std.specs.Prelude.{◌≡◌, [], length, IfOk};
ghost use Rattle.vx_sh.specs.Whole.{at_of};
ghost use Rattle.vx_sh.specs.Value.{IsSliceOf, IsSliceHeaderSpelling};
ghost use Rattle.vx_sh.specs.inner.Writing.{WritesFields};

use crate::context::Context;
use crate::front::{code_behind, code_header_inside, code_inside};
use crate::header::SliceHeader;
use std::alloc::{AllocError, Global};
use vx_bits::{BitWriter, Fields};
use vx_table::{Scope, SpellError, Unwritten, only_memory};

/// Writes the fields, with those of the picture header if it is inside.
fn write_fields(
    n: &Context<'_>,
    scope: &mut Scope,
    fields: &Fields,
    inside: &Fields,
    bits: &mut BitWriter,
) -> Result<(), SpellError>
    requires slice { IsSliceOf (at_of n.now scope.old) fields.now inside.now }
    requires bits { bits.old ≡ [] }
    ensures { WritesFields (at_of n.now scope.old) fields.now inside.now result bits.new }
{
    let mut own = Unwritten::new(fields, 0, fields.len());
    let mut header = Unwritten::new(inside, 0, inside.len());
    code_header_inside(scope, bits, &mut own)?;
    code_inside(n, scope, bits, &mut header)?;
    code_behind(n, scope, bits, &mut own)?;
    Ok(())
}

/// Returns the bytes of a slice header, `slice_header()` (clause 7.3.7), with the picture header of these items if it is inside.
///
/// The scope is the slice's, and receives the numbers that are written.
///
/// # Errors
///
/// `AllocError` if memory runs out.
pub(crate) fn write_slice_at(
    alloc: Global,
    header: &SliceHeader,
    inside: &Fields,
    n: &Context<'_>,
    scope: &mut Scope,
) -> Result<Vec<u8>, AllocError>
    requires { IsSliceOf (at_of n.now scope.old) header.now.fields inside.now }
    ensures { IfOk result (λ bytes. IsSliceHeaderSpelling (at_of n.now scope.old) header.now.fields inside.now bytes.items) }
{
    let mut bits = BitWriter::new(alloc);
    match write_fields(n, scope, &header.fields, inside, &mut bits) {
        Ok(()) => Ok(bits.into_bytes()),
        Err(error) => Err(only_memory(error)),
    }
}
