//! Tables as types. A value of such a type holds nothing, and its type contains all rows of the table, so that a walk over
//! it is compiled to the steps of these rows only.
//!
//! [`rows!`](crate::rows) makes one from the text of a table. Use them for structures that are walked very often, such as
//! slice headers; for others, an array takes less code.

ghost use Rattle.std.specs.Prelude.{◌≡◌, ◌∷◌, ⊤};
ghost use Rattle.vx_table.specs.declared.rows.Presence.TheVariants.{When, Repeat};
ghost use Rattle.vx_table.specs.Spelling.{IsCodable};
ghost use Rattle.vx_table.specs.Forms.{done, field, after, one_field, form_of, present};
ghost use Rattle.vx_table.specs.Walks.{Walks, leaving};
ghost use Rattle.vx_table.specs.inner.ByType.{flag_cell};

pub use crate::constants::{
    Absent, AtMost, Below, BelowBound, Both, CeilLog2, Constant, Differs, Either, Equal, Fixed,
    Golomb, InRange, Least, Limit, Limited, Minus, NO_FIELD, OneAndZeros, OutOfRange, Plain, Plus,
    PowerOfTwo, Profile, Quotient, Refused, SignedGolomb, Structure, Times, Trailing, Zeros,
};
use crate::rows::{Cell, Coding, Formula, Limits};
use crate::scope::Scope;
use crate::walk::{Coder, cell, code_cell};
use std::alloc::AllocError;

// ---- fields

/// Codes one field at a scope. It isn't inlined, so that the compiled walks stay small.
#[inline(never)]
fn code_cell_outlined<I, C: Coder<I>>(
    cell: Cell<u32>,
    scope: &mut Scope,
    coder: &mut C,
    items: &mut I,
) -> Result<(), C::Fault>
    requires { IsCodable cell.coding }
    ensures { Walks C.step (field cell (λ v. done (after scope.old cell v))) coder.old items.old (leaving scope.new result) coder.new items.new }
{
    code_cell(cell, scope, coder, items)
}

/// Codes one field, and stores its value in the scope.
#[inline(always)]
fn code_field<I, C: Coder<I>>(
    row: &Cell<Formula>,
    scope: &mut Scope,
    coder: &mut C,
    items: &mut I,
) -> Result<(), C::Fault>
    ensures { Walks C.step (one_field scope.old row.now) coder.old items.old (leaving scope.new result) coder.new items.new }
{
    let cell = cell(scope, row);
    code_cell_outlined(cell, scope, coder, items)
}

/// Codes a field of one bit without a range, and stores its value in the scope. It isn't inlined.
#[inline(never)]
fn code_flag<I, C: Coder<I>>(
    field: u16,
    kept: bool,
    scope: &mut Scope,
    coder: &mut C,
    items: &mut I,
) -> Result<(), C::Fault>
    ensures { Walks C.step (one_field scope.old (flag_cell field kept)) coder.old items.old (leaving scope.new result) coder.new items.new }
{
    let cell = Cell {
        field,
        kept,
        coding: Coding::Fixed(1),
        limits: Limits::Any,
    };
    code_cell(cell, scope, coder, items)
}

// ---- blocks

/// Codes rows if a formula isn't 0.
#[tactic(auto, using(crate::proofs::ByType::not_there, crate::proofs::Steps::here))]
#[inline(always)]
fn code_when<I, C: Coder<I>, B: Rows>(
    holds: &Formula,
    block: &B,
    scope: &mut Scope,
    coder: &mut C,
    items: &mut I,
) -> Result<(), C::Fault>
    ensures { Walks C.step (present (When holds.now) (form_of B.rows) scope.old) coder.old items.old (leaving scope.new result) coder.new items.new }
{
    if scope.number_inlined(holds) == 0 {
        return Ok(());
    }
    block.code(scope, coder, items)
}

/// Codes rows `times` times, with the number of the turn as the counter's number.
#[inline(always)]
fn code_repeated<I, C: Coder<I>, B: Rows>(
    counter: u16,
    times: &Formula,
    block: &B,
    scope: &mut Scope,
    coder: &mut C,
    items: &mut I,
) -> Result<(), C::Fault>
    ensures { Walks C.step (present (Repeat counter times.now) (form_of B.rows) scope.old) coder.old items.old (leaving scope.new result) coder.new items.new }
{
    let times = scope.number_inlined(times);
    for turn in 0..times {
        scope.set(counter, turn);
        block.code(scope, coder, items)?;
    }
    Ok(())
}

// ---- the rows of a table

/// The rows of a table, as a type.
pub trait Rows {
    ghost use Rattle.std.specs.Prelude.{List};
    ghost use Rattle.vx_table.specs.declared.rows.Row.{Row};
    ghost use Rattle.vx_table.specs.Forms.{form_of};
    ghost use Rattle.vx_table.specs.Walks.{Walks, leaving};

    ghost rows: { List Row };

    /// Codes these rows in order, as [`code_table`](crate::code_table) does.
    ///
    /// # Errors
    ///
    /// The coder's error at the first field that it refuses.
    fn code<I, C: Coder<I>>(
        &self,
        scope: &mut Scope,
        coder: &mut C,
        items: &mut I,
    ) -> Result<(), C::Fault>
        ensures { Walks C.step (form_of rows scope.old) coder.old items.old (leaving scope.new result) coder.new items.new };
}

/// A table without rows.
#[derive(Clone, Copy)]
pub struct NoRow;

impl Rows for NoRow {
    ghost use Rattle.std.specs.Prelude.{[]};

    ghost rows = { [] };

    #[tactic(auto, using(crate::proofs::ByType::no_row))]
    #[inline(always)]
    fn code<I, C: Coder<I>>(
        &self,
        scope: &mut Scope,
        coder: &mut C,
        items: &mut I,
    ) -> Result<(), C::Fault> {
        Ok(())
    }
}

/// A field or a gap, and the rows after it.
pub struct FieldThen<F, R> {
    /// The field.
    pub field: F,
    /// The rows after it.
    pub rest: R,
}

impl<F: Copy, R: Copy> Copy for FieldThen<F, R> {}

impl<F: Copy, R: Copy> Clone for FieldThen<F, R> {
    ghost is_clone = { λ x y. y ≡ x };

    ghost is_infallible = { λ _. ⊤ };

    fn clone(&self) -> Result<Self, AllocError> {
        Ok(*self)
    }
}

impl<F: Constant<Cell<Formula>>, R: Rows> Rows for FieldThen<F, R> {
    ghost use Rattle.std.specs.Prelude.{◌∷◌};
    ghost use Rattle.vx_table.specs.declared.rows.Row.TheVariants as row;

    ghost rows = { row.Field F.Constant.value ∷ R.Rows.rows };

    #[inline(always)]
    fn code<I, C: Coder<I>>(
        &self,
        scope: &mut Scope,
        coder: &mut C,
        items: &mut I,
    ) -> Result<(), C::Fault> {
        code_field(&F::get(), scope, coder, items)?;
        self.rest.code(scope, coder, items)
    }
}

/// A field of one bit without a range, and the rows after it.
pub struct FlagThen<const FIELD: u16, const KEPT: bool, R> {
    /// The rows after it.
    pub rest: R,
}

impl<const FIELD: u16, const KEPT: bool, R: Copy> Copy for FlagThen<FIELD, KEPT, R> {}

impl<const FIELD: u16, const KEPT: bool, R: Copy> Clone for FlagThen<FIELD, KEPT, R> {
    ghost is_clone = { λ x y. y ≡ x };

    ghost is_infallible = { λ _. ⊤ };

    fn clone(&self) -> Result<Self, AllocError> {
        Ok(*self)
    }
}

impl<const FIELD: u16, const KEPT: bool, R: Rows> Rows for FlagThen<FIELD, KEPT, R> {
    ghost use Rattle.std.specs.Prelude.{◌∷◌};
    ghost use Rattle.vx_table.specs.declared.rows.Row.TheVariants as row;
    ghost use Rattle.vx_table.specs.inner.ByType.{flag_cell};

    ghost rows = { row.Field (flag_cell FIELD KEPT) ∷ R.Rows.rows };

    #[inline(always)]
    fn code<I, C: Coder<I>>(
        &self,
        scope: &mut Scope,
        coder: &mut C,
        items: &mut I,
    ) -> Result<(), C::Fault> {
        code_flag(FIELD, KEPT, scope, coder, items)?;
        self.rest.code(scope, coder, items)
    }
}

/// A name for a number, and the rows after it.
pub struct NameThen<const NAME: u16, F, R> {
    /// The number.
    pub formula: F,
    /// The rows after it.
    pub rest: R,
}

impl<const NAME: u16, F: Copy, R: Copy> Copy for NameThen<NAME, F, R> {}

impl<const NAME: u16, F: Copy, R: Copy> Clone for NameThen<NAME, F, R> {
    ghost is_clone = { λ x y. y ≡ x };

    ghost is_infallible = { λ _. ⊤ };

    fn clone(&self) -> Result<Self, AllocError> {
        Ok(*self)
    }
}

impl<const NAME: u16, F: Constant<Formula>, R: Rows> Rows for NameThen<NAME, F, R> {
    ghost use Rattle.std.specs.Prelude.{◌∷◌};
    ghost use Rattle.vx_table.specs.declared.rows.Row.TheVariants as row;

    ghost rows = { row.Name NAME F.Constant.value ∷ R.Rows.rows };

    #[inline(always)]
    fn code<I, C: Coder<I>>(
        &self,
        scope: &mut Scope,
        coder: &mut C,
        items: &mut I,
    ) -> Result<(), C::Fault> {
        let number = scope.number_inlined(&F::get());
        scope.set(NAME, number);
        self.rest.code(scope, coder, items)
    }
}

/// A block of rows that is present if a formula isn't 0, and the rows after it.
pub struct WhenThen<F, B, R> {
    /// The formula.
    pub holds: F,
    /// The block.
    pub block: B,
    /// The rows after it.
    pub rest: R,
}

impl<F: Copy, B: Copy, R: Copy> Copy for WhenThen<F, B, R> {}

impl<F: Copy, B: Copy, R: Copy> Clone for WhenThen<F, B, R> {
    ghost is_clone = { λ x y. y ≡ x };

    ghost is_infallible = { λ _. ⊤ };

    fn clone(&self) -> Result<Self, AllocError> {
        Ok(*self)
    }
}

impl<F: Constant<Formula>, B: Rows, R: Rows> Rows for WhenThen<F, B, R> {
    ghost use Rattle.std.specs.Prelude.{◌∷◌, ◌++◌, length};
    ghost use Rattle.vx_table.specs.declared.rows.Row.TheVariants as row;
    ghost use Rattle.vx_table.specs.declared.rows.Presence.TheVariants.{When};

    ghost rows = { row.Block (When F.Constant.value) (length B.Rows.rows) ∷ B.Rows.rows ++ R.Rows.rows };

    #[inline(always)]
    fn code<I, C: Coder<I>>(
        &self,
        scope: &mut Scope,
        coder: &mut C,
        items: &mut I,
    ) -> Result<(), C::Fault> {
        code_when(&F::get(), &self.block, scope, coder, items)?;
        self.rest.code(scope, coder, items)
    }
}

/// A block of rows that is repeated, with a counter from 0, and the rows after it.
pub struct RepeatThen<const COUNTER: u16, F, B, R> {
    /// The number of repetitions.
    pub times: F,
    /// The block.
    pub block: B,
    /// The rows after it.
    pub rest: R,
}

impl<const COUNTER: u16, F: Copy, B: Copy, R: Copy> Copy for RepeatThen<COUNTER, F, B, R> {}

impl<const COUNTER: u16, F: Copy, B: Copy, R: Copy> Clone for RepeatThen<COUNTER, F, B, R> {
    ghost is_clone = { λ x y. y ≡ x };

    ghost is_infallible = { λ _. ⊤ };

    fn clone(&self) -> Result<Self, AllocError> {
        Ok(*self)
    }
}

impl<const COUNTER: u16, F: Constant<Formula>, B: Rows, R: Rows> Rows
    for RepeatThen<COUNTER, F, B, R> {
    ghost use Rattle.std.specs.Prelude.{◌∷◌, ◌++◌, length};
    ghost use Rattle.vx_table.specs.declared.rows.Row.TheVariants as row;
    ghost use Rattle.vx_table.specs.declared.rows.Presence.TheVariants.{Repeat};

    ghost rows = { row.Block (Repeat COUNTER F.Constant.value) (length B.Rows.rows) ∷ B.Rows.rows ++ R.Rows.rows };

    #[inline(always)]
    fn code<I, C: Coder<I>>(
        &self,
        scope: &mut Scope,
        coder: &mut C,
        items: &mut I,
    ) -> Result<(), C::Fault> {
        code_repeated(COUNTER, &F::get(), &self.block, scope, coder, items)?;
        self.rest.code(scope, coder, items)
    }
}

// ---- the tables of a structure

/// The condition of a table that is always present.
pub const ALWAYS: Plain<NO_FIELD, 1> = Plain;

/// Codes a table that is present if a formula isn't 0, as [`code_parts`](crate::code_parts) does.
///
/// # Errors
///
/// The coder's error at the first field that it refuses.
#[inline(always)]
pub fn code_section<I, C: Coder<I>, F: Constant<Formula>, T: Rows>(
    _holds: &F,
    table: &T,
    scope: &mut Scope,
    coder: &mut C,
    items: &mut I,
) -> Result<(), C::Fault>
    ensures { Walks C.step (present (When F.value) (form_of T.rows) scope.old) coder.old items.old (leaving scope.new result) coder.new items.new }
{
    code_when(&F::get(), table, scope, coder, items)
}
