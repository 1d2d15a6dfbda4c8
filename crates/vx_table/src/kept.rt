//! Selection by a table: from all items of a structure to those of its kept fields.

ghost use Rattle.std.specs.Prelude.{◌≡◌, ◌++◌, OnOk, OnErr};
ghost use Rattle.vx_table.specs.Forms.{form_of};
ghost use Rattle.vx_table.specs.Parts.{parts_form};
ghost use Rattle.vx_table.specs.Kept as kept;
ghost use Rattle.vx_table.specs.Writing.{ItemsLeadTo};
ghost use Rattle.vx_table.specs.Kept.{kept_item, Keeps};

use crate::parts::{Part, code_parts};
use crate::rows::{Cell, Coding, Row};
use crate::scope::Scope;
use crate::walk::{Coder, code_table};
use crate::writer::{SpellError, Unwritten, take_value};
use std::alloc::AllocError;
use vx_bits::{Fields, Item};

/// Returns whether a coding is that of a field, or of an absent one that counts among the kept ones.
#[tactic(auto, unfolding(crate::specs::Kept::stands_for_field))]
#[inline(always)]
pub(crate) fn stands_for_field<N: Copy>(coding: Coding<N>) -> bool
    ensures { result ≡ kept.stands_for_field coding }
{
    matches!(
        coding,
        Coding::Fixed(_) | Coding::Golomb | Coding::SignedGolomb | Coding::Absent
    )
}

/// Appends the item of a kept field.
#[inline(always)]
fn keep_item(into: &mut Fields, cell: Cell<u32>, value: i64) -> Result<(), AllocError>
    ensures ok { OnOk result (into.new ≡ into.old ++ kept_item cell value) }
    ensures err { OnErr result (into.new ≡ into.old) }
{
    if !cell.kept {
        return Ok(());
    }
    if !stands_for_field(cell.coding) {
        return Ok(());
    }
    into.push(Item {
        field: cell.field,
        value,
    })
}

impl<'a> Coder<Fields> for Unwritten<'a> {
    ghost use Rattle.vx_table.specs.Kept.{KeepsField};

    type Fault = SpellError;

    ghost step = { KeepsField };

    #[inline(always)]
    fn code(&mut self, items: &mut Fields, cell: Cell<u32>) -> Result<i64, SpellError> {
        let mut behind = self.fork();
        let Some(value) = take_value(&mut behind, cell) else {
            return Err(SpellError::NoValue);
        };
        match keep_item(items, cell, value) {
            Ok(()) => {
                *self = behind;
                Ok(value)
            }
            Err(_) => Err(SpellError::Memory),
        }
    }
}

/// Consumes from `items` the items of one value of `table`, and appends the kept ones (fields without a star) to `into`.
///
/// A `fill` row gives an item with value 0. `scope` receives the numbers, as if the table had been read.
///
/// # Errors
///
/// - `NoValue` if `items` doesn't start with the items of a value of `table`.
/// - `Memory` if memory runs out.
///
/// After an error, `into` has the kept items up to the field that failed, `items` starts at that field, and `scope` is unspecified.
pub fn keep_table(
    table: &[Row],
    scope: &mut Scope,
    items: &mut Unwritten<'_>,
    into: &mut Fields,
) -> Result<(), SpellError>
    ensures answer { Keeps (form_of table.now scope.old) into.old items.old result into.new items.new }
    ensures scope { OnOk result (ItemsLeadTo (form_of table.now scope.old) items.old scope.new) }
{
    code_table(table, scope, items, into)
}

/// Consumes from `items` the items of one value of a structure's parts, as [`keep_table`] does for one table.
///
/// # Errors
///
/// - `NoValue` if `items` doesn't start with the items of a value of the structure.
/// - `Memory` if memory runs out.
///
/// After an error, `into` has the kept items up to the field that failed, `items` starts at that field, and `scope` is unspecified.
pub fn keep_parts(
    parts: &[Part<'_>],
    scope: &mut Scope,
    items: &mut Unwritten<'_>,
    into: &mut Fields,
) -> Result<(), SpellError>
    ensures answer { Keeps (parts_form parts.now scope.old) into.old items.old result into.new items.new }
    ensures scope { OnOk result (ItemsLeadTo (parts_form parts.now scope.old) items.old scope.new) }
{
    code_parts(parts, scope, items, into)
}
