//! Passing over a structure: reading only for the numbers in the scope, without items and without memory.

ghost use Rattle.std.specs.Prelude.{OnOk};
ghost use Rattle.vx_table.specs.Forms.{form_of};
ghost use Rattle.vx_table.specs.Parts.{parts_form};
ghost use Rattle.vx_table.specs.Reading.{PassesField, PassesOver, LeadsTo};

use crate::parts::{Part, code_parts};
use crate::reader::take_field;
use crate::rows::{Cell, Row};
use crate::scope::Scope;
use crate::walk::{Coder, code_table};
use vx_bits::{BitReader, Refusal};

impl<'a> Coder<()> for BitReader<'a> {
    type Fault = Refusal;

    ghost step = { PassesField };

    #[inline(always)]
    fn code(&mut self, items: &mut (), cell: Cell<u32>) -> Result<i64, Refusal> {
        take_field(self, cell)
    }
}

/// Takes the fields of a table from `bits`, and stores their numbers in `scope`. Takes no memory.
///
/// The result is that of a reader of the same bits.
///
/// # Errors
///
/// The first refusal. `bits` is then at its field, and `scope` is unspecified.
pub fn pass_table(table: &[Row], scope: &mut Scope, bits: &mut BitReader<'_>) -> Result<(), Refusal>
    ensures answer { PassesOver (form_of table.now scope.old) bits.old result bits.new }
    ensures scope { OnOk result (LeadsTo (form_of table.now scope.old) bits.old scope.new) }
{
    code_table(table, scope, bits, &mut ())
}

/// Takes the fields of a structure's parts, as [`pass_table`] does for one table. Takes no memory.
///
/// # Errors
///
/// The first refusal. `bits` is then at its field, and `scope` is unspecified.
pub fn pass_parts(
    parts: &[Part<'_>],
    scope: &mut Scope,
    bits: &mut BitReader<'_>,
) -> Result<(), Refusal>
    ensures answer { PassesOver (parts_form parts.now scope.old) bits.old result bits.new }
    ensures scope { OnOk result (LeadsTo (parts_form parts.now scope.old) bits.old scope.new) }
{
    code_parts(parts, scope, bits, &mut ())
}
