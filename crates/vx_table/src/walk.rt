//! The walk over a table, for every coder.

ghost use Rattle.std.specs.Prelude.{◌≡◌, ℕ, ℤ, ◌+◌, ◌≤◌, min, List, ◌∷◌, length, take, drop, Result, Err, MatchOption, IfSome, IfOk, IfErr};
ghost use Rattle.vx_table.specs.declared.rows.Row.TheVariants.{Block};
ghost use Rattle.vx_table.specs.Scope.{value};
ghost use Rattle.vx_table.specs.Forms as forms;
ghost use Rattle.vx_table.specs.Forms.{Form, done, coding_in, limits_at, cell_at, after, turns, present, form_of, one_field};
ghost use Rattle.vx_table.specs.Spelling.{IsCodable};
ghost use Rattle.vx_table.specs.Walks.{Walks, leaving};
ghost use Rattle.vx_table.specs.inner.Leading.{Leads};

use crate::arithmetic::natural;
use crate::rows::{Cell, Coding, Formula, Limits, Presence, Row, Term};
use crate::scope::Scope;

/// A coder of the fields of a structure, one after another. A reader turns bits into items, a writer items into bits.
pub trait Coder<I> {
    ghost use Rattle.std.specs.Prelude.{IfOk};
    ghost use Rattle.vx_table.specs.Values.{IsValueOf};
    ghost use Rattle.vx_table.specs.Walks.{Step};

    /// The error of a field that can't be coded.
    type Fault;

    ghost step: { Step Self I Self.Fault };

    /// Codes one field, and returns its value, which is one that the field may have; 0 for a gap.
    fn code(&mut self, items: &mut I, cell: Cell<u32>) -> Result<i64, Self::Fault>
        requires { IsCodable cell.coding }
        ensures step { step self.old items.old cell result self.new items.new }
        ensures value { IfOk result (λ v. IsValueOf cell v) };
}

/// Returns a field's coding at a scope.
#[tactic(auto, unfolding(crate::specs::Forms::coding_at))]
#[inline(always)]
fn coding_at(scope: &Scope, coding: &Coding<Formula>) -> Coding<u32>
    ensures value { result ≡ forms.coding_at scope.now coding.now }
    ensures width { IsCodable result }
{
    match coding {
        Coding::Fixed(width) => Coding::Fixed(scope.number(width).min(32)),
        Coding::Golomb => Coding::Golomb,
        Coding::SignedGolomb => Coding::SignedGolomb,
        Coding::Zeros => Coding::Zeros,
        Coding::OneAndZeros => Coding::OneAndZeros,
        Coding::Trailing => Coding::Trailing,
        Coding::Absent => Coding::Absent,
        Coding::Refused => Coding::Refused,
    }
}

/// Returns whether the coding is that of a field with a value, and not of a gap.
#[tactic(auto, unfolding(crate::specs::Forms::has_value))]
#[inline(always)]
pub fn has_value<N: Copy>(coding: Coding<N>) -> bool
    ensures { result ≡ forms.has_value coding }
{
    matches!(
        coding,
        Coding::Fixed(_) | Coding::Golomb | Coding::SignedGolomb
    )
}

/// Returns the coding of a row that codes `field`.
fn coding_in_row(row: Row, field: u16) -> Option<Coding<Formula>>
    ensures { result ≡ coding_in row field }
{
    match row {
        Row::Field(cell) if cell.field == field && has_value(cell.coding) => Some(cell.coding),
        _ => None,
    }
}

/// Returns how a table codes `field`, or `None` if it has no such field.
pub fn coding_of(table: &[Row], field: u16) -> Option<Coding<Formula>>
    ensures { result ≡ forms.coding_of table.now field }
{
    for row in table {
        if let Some(coding) = coding_in_row(*row, field) {
            return Some(coding);
        }
    }
    None
}

/// Returns a field's range at a scope.
#[tactic(auto, unfolding(crate::specs::Forms::limits_at))]
#[inline(always)]
fn limits(scope: &Scope, limits: &Limits<Formula>) -> Limits<u32>
    ensures { result ≡ limits_at scope.now limits.now }
{
    match limits {
        Limits::Any => Limits::Any,
        Limits::Within { low, high, fault } => Limits::Within {
            low: *low,
            high: scope.number(high),
            fault: *fault,
        },
        Limits::Below { bound, fault } => Limits::Below {
            bound: scope.number(bound),
            fault: *fault,
        },
        Limits::Multiple { unit, high, fault } => Limits::Multiple {
            unit: *unit,
            high: *high,
            fault: *fault,
        },
    }
}

/// Returns a field at a scope.
#[inline(always)]
pub(crate) fn cell(scope: &Scope, row: &Cell<Formula>) -> Cell<u32>
    ensures { result ≡ cell_at scope.now row.now }
{
    Cell {
        field: row.field,
        kept: row.kept,
        coding: coding_at(scope, &row.coding),
        limits: limits(scope, &row.limits),
    }
}

/// Stores a field's value in the scope; a gap has none.
#[tactic(auto, unfolding(crate::specs::Forms::after))]
#[inline(always)]
fn set_field(scope: &mut Scope, cell: Cell<u32>, value: i64)
    ensures { scope.new ≡ after scope.old cell value }
{
    if has_value(cell.coding) {
        scope.set(cell.field, natural(value));
    }
}

/// Returns a field of one bit without a range, which is the same at every scope.
#[tactic(auto, unfolding(crate::specs::Forms::coding_at, crate::specs::Forms::limits_at, crate::specs::Scope::value))]
#[inline(always)]
fn flag(row: &Cell<Formula>) -> Option<Cell<u32>>
    ensures { IfSome result (λ cell. (s : List ℕ) → cell ≡ cell_at s row.now) }
{
    let Coding::Fixed(Formula::Plain(Term::Number(1))) = row.coding else {
        return None;
    };
    let Limits::Any = row.limits else {
        return None;
    };
    Some(Cell {
        field: row.field,
        kept: row.kept,
        coding: Coding::Fixed(1),
        limits: Limits::Any,
    })
}

/// Codes one field at a scope, and stores its value there.
#[inline(always)]
pub(crate) fn code_cell<I, C: Coder<I>>(
    cell: Cell<u32>,
    scope: &mut Scope,
    coder: &mut C,
    items: &mut I,
) -> Result<(), C::Fault>
    requires { IsCodable cell.coding }
    ensures { Walks C.step (forms.field cell (λ v. done (after scope.old cell v))) coder.old items.old (leaving scope.new result) coder.new items.new }
{
    let value = coder.code(items, cell)?;
    set_field(scope, cell, value);
    Ok(())
}

/// Codes one field, and stores its value in the scope.
#[inline(always)]
fn code_field<I, C: Coder<I>>(
    row: &Cell<Formula>,
    scope: &mut Scope,
    coder: &mut C,
    items: &mut I,
) -> Result<(), C::Fault>
    ensures { Walks C.step (one_field scope.old row.now) coder.old items.old (leaving scope.new result) coder.new items.new }
{
    if let Some(flag) = flag(row) {
        return code_cell(flag, scope, coder, items);
    }
    let cell = cell(scope, row);
    code_cell(cell, scope, coder, items)
}

/// Splits rows into those of a block, at most all, and those after it.
#[inline(always)]
pub(crate) fn split_block(rows: &[Row], inside: usize) -> (&[Row], &[Row])
    ensures block { result.0.now ≡ take (min inside (length rows.now)) rows.now }
    ensures behind { result.1.now ≡ drop (min inside (length rows.now)) rows.now }
    ensures all { length result.0.now + length result.1.now ≡ length rows.now }
{
    rows.split_at(inside.min(rows.len()))
}

/// Returns the first of some rows and of others after them, and the rows that come after it in each.
#[inline(always)]
fn first_row<'a>(rows: &'a [Row], behind: &'a [Row]) -> Option<(&'a Row, &'a [Row], &'a [Row])>
    ensures form { MatchOption result
        ((s : List ℕ) → forms.◌>>=◌ (form_of rows.now s) (form_of behind.now) ≡ done s)
        (λ r. (s : List ℕ) → forms.◌>>=◌ (form_of rows.now s) (form_of behind.now) ≡ forms.◌>>=◌ (form_of (r.0.now ∷ r.1.now) s) (form_of r.2.now)) }
    ensures one { IfSome result (λ r. length r.1.now + length r.2.now + 1 ≡ length rows.now + length behind.now) }
{
    match rows.split_first() {
        Some((row, rest)) => Some((row, rest, behind)),
        None => match behind.split_first() {
            Some((row, rest)) => Some((row, rest, &[])),
            None => None,
        },
    }
}

/// Returns the rows of both, if at least one of them is empty.
#[inline(always)]
fn one_behind<'a>(next: &'a [Row], behind: &'a [Row]) -> Option<&'a [Row]>
    ensures form { IfSome result
        (λ all. (f : Form (List ℕ)) → forms.◌>>=◌ (forms.◌>>=◌ f (form_of next.now)) (form_of behind.now) ≡ forms.◌>>=◌ f (form_of all.now)) }
    ensures all { IfSome result (λ all. length all.now ≡ length next.now + length behind.now) }
{
    if next.is_empty() {
        return Some(behind);
    }
    if behind.is_empty() {
        return Some(next);
    }
    None
}

/// Codes a table's rows in order.
///
/// # Errors
///
/// The coder's error at the first field that it refuses.
#[cycle(walk)]
pub fn code_table<I, C: Coder<I>>(
    table: &[Row],
    scope: &mut Scope,
    coder: &mut C,
    items: &mut I,
) -> Result<(), C::Fault>
    ensures { Walks C.step (form_of table.now scope.old) coder.old items.old (leaving scope.new result) coder.new items.new }
{
    let mut rows = table;
    let mut behind: &[Row] = &[];
    while let Some((row, rest, last)) = first_row(rows, behind) {
        behind = last;
        match row {
            Row::Field(field) => {
                code_field(field, scope, coder, items)?;
                rows = rest;
            }
            Row::Block {
                presence,
                rows: inside,
            } => {
                let (next, after) = pass_block(presence, *inside, rest, last, scope, coder, items)?;
                rows = next;
                behind = after;
            }
            Row::Name { name, formula } => {
                let number = scope.number(formula);
                scope.set(*name, number);
                rows = rest;
            }
        }
    }
    Ok(())
}

/// Codes a block that comes before the rest of some rows. If the block is present once and one of the two runs of rows
/// after it is empty, it only leads into the block. Returns the rows that come next, and those after them.
#[cycle(walk)]
#[inline(always)]
fn pass_block<'a, I, C: Coder<I>>(
    presence: &Presence,
    inside: usize,
    rest: &'a [Row],
    behind: &'a [Row],
    scope: &mut Scope,
    coder: &mut C,
    items: &mut I,
) -> Result<(&'a [Row], &'a [Row]), C::Fault>
    ensures leads { IfOk result (λ r. Leads C.step
        (forms.◌>>=◌ (form_of (Block presence.now inside ∷ rest.now) scope.old) (form_of behind.now)) coder.old items.old
        (forms.◌>>=◌ (form_of r.0.now scope.new) (form_of r.1.now)) coder.new items.new) }
    ensures fewer { IfOk result (λ r. length r.0.now + length r.1.now ≤ length rest.now + length behind.now) }
    ensures refused { IfErr result (λ e. Walks C.step
        (forms.◌>>=◌ (form_of (Block presence.now inside ∷ rest.now) scope.old) (form_of behind.now)) coder.old items.old
        (Err e) coder.new items.new) }
{
    let (block, next) = split_block(rest, inside);
    match presence {
        Presence::When(holds) => {
            if scope.number(holds) == 0 {
                return Ok((next, behind));
            }
            if let Some(all) = one_behind(next, behind) {
                return Ok((block, all));
            }
            code_table(block, scope, coder, items)?;
            Ok((next, behind))
        }
        Presence::Repeat { counter, times } => {
            let times = scope.number(times);
            if times == 0 {
                return Ok((next, behind));
            }
            code_turns(block, *counter, times, scope, coder, items)?;
            Ok((next, behind))
        }
    }
}

/// Codes a block of rows as often as it is present.
pub(crate) fn code_block<I, C: Coder<I>>(
    presence: &Presence,
    block: &[Row],
    scope: &mut Scope,
    coder: &mut C,
    items: &mut I,
) -> Result<(), C::Fault>
    ensures { Walks C.step (present presence.now (form_of block.now) scope.old) coder.old items.old (leaving scope.new result) coder.new items.new }
{
    match presence {
        Presence::When(holds) => {
            if scope.number(holds) == 0 {
                return Ok(());
            }
            code_table(block, scope, coder, items)
        }
        Presence::Repeat { counter, times } => {
            let times = scope.number(times);
            code_turns(block, *counter, times, scope, coder, items)
        }
    }
}

/// Codes a block of rows `times` times, with the number of the turn as the counter's number.
#[cycle(walk)]
fn code_turns<I, C: Coder<I>>(
    block: &[Row],
    counter: u16,
    times: u32,
    scope: &mut Scope,
    coder: &mut C,
    items: &mut I,
) -> Result<(), C::Fault>
    ensures { Walks C.step (turns (form_of block.now) counter 0 times scope.old) coder.old items.old (leaving scope.new result) coder.new items.new }
{
    for turn in 0..times {
        scope.set(counter, turn);
        code_table(block, scope, coder, items)?;
    }
    Ok(())
}
