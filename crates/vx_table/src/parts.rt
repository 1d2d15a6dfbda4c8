//! A structure of several tables, some of them conditional or repeated.

ghost use Rattle.std.specs.Prelude.{◌≡◌, OnOk};
ghost use Rattle.vx_table.specs.Walks.{Walks, leaving};
ghost use Rattle.vx_table.specs.Parts.{parts_form};
ghost use Rattle.vx_table.specs.Reading.{Reads, LeadsTo};
ghost use Rattle.vx_table.specs.Writing.{Writes, ItemsLeadTo};

use crate::rows::{Presence, Row};
use crate::scope::Scope;
use crate::walk::{Coder, code_block};
use crate::writer::{SpellError, Unwritten};
use vx_bits::{BitReader, BitWriter, Fields, ReadError};

/// A table of a structure, and how often it is present.
#[derive(Clone, Copy)]
pub struct Part<'a> {
    pub presence: Presence,
    pub rows: &'a [Row],
}

/// Codes the parts of a structure in order.
///
/// # Errors
///
/// The coder's error at the first field that it refuses.
pub fn code_parts<I, C: Coder<I>>(
    parts: &[Part<'_>],
    scope: &mut Scope,
    coder: &mut C,
    items: &mut I,
) -> Result<(), C::Fault>
    ensures { Walks C.step (parts_form parts.now scope.old) coder.old items.old (leaving scope.new result) coder.new items.new }
{
    for part in parts {
        code_block(&part.presence, part.rows, scope, coder, items)?;
    }
    Ok(())
}

/// Reads the parts of a structure, as [`crate::read_table`] reads a table.
///
/// # Errors
///
/// - `Refused` with the first refusal.
/// - `Memory` if memory runs out.
///
/// After an error, `items` has gained the fields read before, `bits` is at the next field, and `scope` is unspecified.
pub fn read_parts(
    parts: &[Part<'_>],
    scope: &mut Scope,
    bits: &mut BitReader<'_>,
    items: &mut Fields,
) -> Result<(), ReadError>
    ensures answer { Reads (parts_form parts.now scope.old) bits.old items.old result bits.new items.new }
    ensures scope { OnOk result (LeadsTo (parts_form parts.now scope.old) bits.old scope.new) }
{
    code_parts(parts, scope, bits, items)
}

/// Writes the parts of a structure, as [`crate::write_table`] writes a table.
///
/// # Errors
///
/// - `NoValue` if `items` doesn't start with the items of a value of the structure.
/// - `Memory` if memory runs out.
///
/// After an error, `bits` has gained the codes of the fields before the one that failed, `items` starts at that field, and `scope` is
/// unspecified.
pub fn write_parts(
    parts: &[Part<'_>],
    scope: &mut Scope,
    bits: &mut BitWriter,
    items: &mut Unwritten<'_>,
) -> Result<(), SpellError>
    ensures answer { Writes (parts_form parts.now scope.old) bits.old items.old result bits.new items.new }
    ensures scope { OnOk result (ItemsLeadTo (parts_form parts.now scope.old) items.old scope.new) }
{
    code_parts(parts, scope, bits, items)
}
