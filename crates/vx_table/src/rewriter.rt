//! Rewriting: the items of some fields and those of the others are joined to the items of one value of a structure.

ghost use Rattle.std.specs.Prelude.{◌≡◌, ◌↔◌, [], IsTrue};
ghost use Rattle.vx_table.specs.Parts.{parts_form};
ghost use Rattle.vx_table.specs.Forms.{form_of};
ghost use Rattle.vx_table.specs.Spelling as spelling;
ghost use Rattle.vx_table.specs.Spelling.{IsCodable};
ghost use Rattle.vx_table.specs.Rewritten.{Sources, TakesNext, RewritesInto};

use crate::depends::has;
use crate::parts::{Part, code_parts};
use crate::reader::push;
use crate::rows::{Cell, Row};
use crate::scope::Scope;
use crate::walk::{Coder, code_table};
use crate::writer::{SpellError, Unwritten, take_value};
use std::marker::Model;
use vx_bits::Fields;

/// The source of a rewritten structure: the fields in a set, their items, and those of all other fields.
#[derive(Drop)]
pub struct Rewriter<'a> {
    names: &'a [u16],
    shown: Unwritten<'a>,
    others: Unwritten<'a>,
}

impl<'a> Model for Rewriter<'a> {
    ghost Value = { Sources };

    ghost view = { λ r. record { names = r.names.now; shown = r.shown; others = r.others } };
}

impl<'a> Rewriter<'a> {
    /// Returns a rewriter of the items of the fields in `names`, and those of all other fields. Each list begins with the
    /// next item.
    pub fn new(names: &'a [u16], shown: Unwritten<'a>, others: Unwritten<'a>) -> Rewriter<'a>
        ensures { result ≡ record { names = names.now; shown = shown.entry; others = others.entry } }
    {
        Rewriter {
            names,
            shown,
            others,
        }
    }

    /// Returns whether all items were taken.
    pub fn is_empty(&self) -> bool
        ensures { IsTrue result ↔ ((self.now.shown ≡ []) × (self.now.others ≡ [])) }
    {
        self.shown.is_empty() && self.others.is_empty()
    }

    /// Takes the item of the next field's value; a gap has the value 0 and no item.
    #[inline(always)]
    fn take(&mut self, cell: Cell<u32>) -> Option<i64>
        requires { IsCodable cell.coding }
        ensures { TakesNext cell self.old result self.new }
    {
        if has(self.names, cell.field) {
            take_value(&mut self.shown, cell)
        } else {
            take_value(&mut self.others, cell)
        }
    }
}

impl<'a> Coder<Fields> for Rewriter<'a> {
    ghost use Rattle.vx_table.specs.Rewritten.{RewritesField};

    type Fault = SpellError;

    ghost step = { RewritesField };

    #[inline(always)]
    fn code(&mut self, items: &mut Fields, cell: Cell<u32>) -> Result<i64, SpellError> {
        let Some(value) = self.take(cell) else {
            return Err(SpellError::NoValue);
        };
        match push(items, cell, value) {
            Ok(()) => Ok(value),
            Err(_) => Err(SpellError::Memory),
        }
    }
}

/// Joins the items of one value of `table` and appends them to `into`, in the order of the table.
///
/// Each item is taken from the list of its kind, and `scope` receives the numbers.
///
/// # Errors
///
/// - `NoValue` if the items don't start with those of a value of the table.
/// - `Memory` if memory runs out.
///
/// After an error, `into` has gained the items of the fields before the one that failed; `scope` and `rewriter` are unspecified.
pub fn rewrite_table(
    table: &[Row],
    scope: &mut Scope,
    rewriter: &mut Rewriter<'_>,
    into: &mut Fields,
) -> Result<(), SpellError>
    ensures { RewritesInto (form_of table.now scope.old) rewriter.old into.old result rewriter.new into.new }
{
    code_table(table, scope, rewriter, into)
}

/// Joins the items of one value of a structure's parts, as [`rewrite_table`] does for one table.
///
/// # Errors
///
/// - `NoValue` if the items don't start with those of a value of the structure.
/// - `Memory` if memory runs out.
///
/// After an error, `into` has gained the items of the fields before the one that failed; `scope` and `rewriter` are unspecified.
pub fn rewrite_parts(
    parts: &[Part<'_>],
    scope: &mut Scope,
    rewriter: &mut Rewriter<'_>,
    into: &mut Fields,
) -> Result<(), SpellError>
    ensures { RewritesInto (parts_form parts.now scope.old) rewriter.old into.old result rewriter.new into.new }
{
    code_parts(parts, scope, rewriter, into)
}
