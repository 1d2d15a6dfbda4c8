//! The fields on which those of a table depend: a test over its rows.

ghost use Rattle.std.specs.Prelude.{◌≡◌, ◌&&◌, IsTrue};
ghost use Rattle.vx_table.specs.Forms.{form_of};
ghost use Rattle.vx_table.specs.Parts.{sections_of, sections_form};
ghost use Rattle.vx_table.specs.Depends as sets;
ghost use Rattle.vx_table.specs.Depends.{DependsOnlyOn};
ghost use Rattle.vx_table.specs.Claims as test;
ghost use Rattle.vx_table.specs.inner.Names.{listed, chain};

use crate::parts::Part;
use crate::rows::{Cell, Coding, Formula, Limits, Presence, Row, Term};
use crate::walk::{has_value, split_block};

/// Returns whether a list of fields and names contains `n`.
#[inline(always)]
pub(crate) fn has(names: &[u16], n: u16) -> bool
    ensures { result ≡ sets.has names.now n }
{
    names.contains(&n)
}

/// A set of names in a test: a list, or a list followed by another set.
#[derive(Drop)]
enum Names<'a> {
    Listed(&'a [u16]),
    More(&'a [u16], &'a Names<'a>),
}

/// Returns whether such a set contains `n`.
#[tactic(auto, unfolding(crate::specs::inner::Names::listed), using(crate::proofs::Agreeing::has_either))]
fn among(names: &Names<'_>, n: u16) -> bool
    ensures { result ≡ sets.has (listed names.now) n }
{
    match names {
        Names::Listed(all) => has(all, n),
        Names::More(more, others) => has(more, n) || among(others, n),
    }
}

/// Returns whether a term reads only known names.
fn knows(known: &Names<'_>, term: Term) -> bool
    ensures { result ≡ test.knows (listed known.now) term }
{
    match term {
        Term::Number(_) => true,
        Term::Latest(of) => among(known, of),
    }
}

/// Returns whether two terms read only known names.
fn knows_both(known: &Names<'_>, a: Term, b: Term) -> bool
    ensures { result ≡ (test.knows (listed known.now) a && test.knows (listed known.now) b) }
{
    knows(known, a) && knows(known, b)
}

/// Returns whether a formula reads only known names.
#[tactic(auto, unfolding(crate::specs::Claims::knows_formula))]
fn knows_formula(known: &Names<'_>, formula: Formula) -> bool
    ensures { result ≡ test.knows_formula (listed known.now) formula }
{
    match formula {
        Formula::Plain(a) | Formula::PowerOfTwo(a) | Formula::CeilLog2(a) => knows(known, a),
        Formula::Plus(a, b)
        | Formula::Minus(a, b)
        | Formula::Times(a, b)
        | Formula::Quotient(a, b)
        | Formula::Least(a, b)
        | Formula::Equal(a, b)
        | Formula::Differs(a, b)
        | Formula::Below(a, b)
        | Formula::AtMost(a, b)
        | Formula::Both(a, b)
        | Formula::Either(a, b) => knows_both(known, a, b),
    }
}

/// Returns whether a field's width is known.
#[tactic(auto, unfolding(crate::specs::Claims::knows_width))]
fn knows_width(known: &Names<'_>, coding: Coding<Formula>) -> bool
    ensures { result ≡ test.knows_width (listed known.now) coding }
{
    match coding {
        Coding::Fixed(width) => knows_formula(known, width),
        _ => true,
    }
}

/// Returns whether a field's range is known.
#[tactic(auto, unfolding(crate::specs::Claims::knows_range))]
fn knows_range(known: &Names<'_>, limits: Limits<Formula>) -> bool
    ensures { result ≡ test.knows_range (listed known.now) limits }
{
    match limits {
        Limits::Within { high, .. } => knows_formula(known, high),
        Limits::Below { bound, .. } => knows_formula(known, bound),
        Limits::Any | Limits::Multiple { .. } => true,
    }
}

/// Returns whether the number of a block's repetitions is known.
#[tactic(auto, unfolding(crate::specs::Claims::knows_presence))]
fn knows_presence(known: &Names<'_>, presence: Presence) -> bool
    ensures { result ≡ test.knows_presence (listed known.now) presence }
{
    match presence {
        Presence::When(holds) => knows_formula(known, holds),
        Presence::Repeat { times, .. } => knows_formula(known, times),
    }
}

/// Returns whether a block gives no shown counter a number.
#[tactic(auto, unfolding(crate::specs::Claims::hides_counter))]
fn hides_counter(shown: &Names<'_>, presence: Presence) -> bool
    ensures { result ≡ test.hides_counter (listed shown.now) presence }
{
    match presence {
        Presence::When(_) => true,
        Presence::Repeat { counter, .. } => !among(shown, counter),
    }
}

/// Returns whether a row is no shown field, and gives no shown name a number.
#[tactic(auto, unfolding(crate::specs::Claims::hides_row))]
fn hides_row(shown: &Names<'_>, row: Row) -> bool
    ensures { result ≡ test.hides_row (listed shown.now) row }
{
    match row {
        Row::Field(cell) => !among(shown, cell.field),
        Row::Block { presence, .. } => hides_counter(shown, presence),
        Row::Name { name, .. } => !among(shown, name),
    }
}

/// Returns whether rows have no shown field, and give no shown name a number.
fn hides(shown: &Names<'_>, rows: &[Row]) -> bool
    ensures { result ≡ test.hides (listed shown.now) rows.now }
{
    for row in rows {
        if !hides_row(shown, *row) {
            return false;
        }
    }
    true
}

/// Returns whether a shown field's width and range are known.
fn field_depends(shown: &Names<'_>, known: &Names<'_>, cell: Cell<Formula>) -> bool
    ensures { result ≡ test.field_depends (listed shown.now) (listed known.now) cell }
{
    if !among(shown, cell.field) {
        return true;
    }
    knows_width(known, cell.coding) && knows_range(known, cell.limits)
}

/// Returns whether a shown name's formula is known.
fn name_depends(shown: &Names<'_>, known: &Names<'_>, name: u16, formula: Formula) -> bool
    ensures { result ≡ test.name_depends (listed shown.now) (listed known.now) name formula }
{
    if !among(shown, name) {
        return true;
    }
    knows_formula(known, formula)
}

/// Returns whether the test holds for the rows after a name, and for the parts after these, with the name known if it is
/// shown.
#[cycle(claims)]
fn behind_name(
    shown: &Names<'_>,
    known: &Names<'_>,
    n: u16,
    rows: &[Row],
    parts: &[Part<'_>],
) -> bool
    ensures { result ≡ chain (listed shown.now) (test.grown (listed shown.now) (listed known.now) n) rows.now (sections_of parts.now) }
{
    if among(shown, n) {
        return rows_depend(shown, &Names::More(&[n], &*known), rows, parts);
    }
    rows_depend(shown, known, rows, parts)
}

/// Returns whether the shown fields and names of rows, and of the parts after them, depend only on what is known before
/// them.
#[cycle(claims)]
fn rows_depend(shown: &Names<'_>, known: &Names<'_>, rows: &[Row], parts: &[Part<'_>]) -> bool
    ensures { result ≡ chain (listed shown.now) (listed known.now) rows.now (sections_of parts.now) }
{
    let Some((row, rest)) = rows.split_first() else {
        return parts_depend(shown, known, parts);
    };
    match *row {
        Row::Field(cell) => {
            if !field_depends(shown, known, cell) {
                return false;
            }
            if has_value(cell.coding) {
                return behind_name(shown, known, cell.field, rest, parts);
            }
            rows_depend(shown, known, rest, parts)
        }
        Row::Block {
            presence,
            rows: inside,
        } => {
            let (block, behind) = split_block(rest, inside);
            block_depends(shown, known, presence, block) && rows_depend(shown, known, behind, parts)
        }
        Row::Name { name, formula } => {
            name_depends(shown, known, name, formula)
                && behind_name(shown, known, name, rest, parts)
        }
    }
}

/// Returns whether a block has no shown field, and gives no shown name a number.
fn hides_block(shown: &Names<'_>, presence: Presence, block: &[Row]) -> bool
    ensures { result ≡ (test.hides_counter (listed shown.now) presence && test.hides (listed shown.now) block.now) }
{
    hides_counter(shown, presence) && hides(shown, block)
}

/// Returns whether a block's presence is known and its rows depend on what is known within it, or everything in it is
/// hidden.
#[cycle(claims)]
fn block_depends(shown: &Names<'_>, known: &Names<'_>, presence: Presence, block: &[Row]) -> bool
    ensures { result ≡ test.rows_depend (listed shown.now) (listed known.now) presence block.now }
{
    if hides_block(shown, presence, block) {
        return true;
    }
    if !knows_presence(known, presence) {
        return false;
    }
    match presence {
        Presence::When(_) => rows_depend(shown, known, block, &[]),
        Presence::Repeat { counter, .. } => behind_name(shown, known, counter, block, &[]),
    }
}

/// Returns whether the shown fields and names of a structure's parts depend only on what is known before each.
#[cycle(claims)]
fn parts_depend(shown: &Names<'_>, known: &Names<'_>, parts: &[Part<'_>]) -> bool
    ensures { result ≡ test.sections_chain (listed shown.now) (listed known.now) (sections_of parts.now) }
{
    let Some((part, more)) = parts.split_first() else {
        return true;
    };
    if comes_always(part.presence) {
        return rows_depend(shown, known, part.rows, more);
    }
    block_depends(shown, known, part.presence, part.rows) && parts_depend(shown, known, more)
}

/// Returns whether a table of a structure is present at every scope.
#[tactic(auto, unfolding(crate::specs::Claims::comes_always))]
fn comes_always(presence: Presence) -> bool
    ensures { result ≡ test.comes_always presence }
{
    match presence {
        Presence::When(Formula::Plain(Term::Number(number))) => number != 0,
        _ => false,
    }
}

/// Tests whether the shown fields and names of a table depend only on the given numbers of the scope.
///
/// It is a test of the rows: `true` means that they do, `false` only that the rows don't pass. A width, a range, or a shown
/// name's formula may use a given number, or one that the table gave a shown field or name before it in the same block or
/// around it. A block whose presence uses other numbers must hide everything in it.
pub fn depends_only_on(table: &[Row], given: &[u16], shown: &[u16]) -> bool
    ensures test { result ≡ test.depends_only_on given.now shown.now table.now }
    ensures depends { IsTrue result → DependsOnlyOn given.now shown.now (form_of table.now) }
{
    let more = Names::Listed(shown);
    rows_depend(
        &Names::More(given, &more),
        &Names::Listed(given),
        table,
        &[],
    )
}

/// Tests whether the shown fields and names of a structure's parts depend only on the given numbers of the scope.
///
/// The test is that of [`depends_only_on`]. A number that a part sets outside its blocks is known after it if the part is
/// always present.
pub fn parts_depend_only_on(parts: &[Part<'_>], given: &[u16], shown: &[u16]) -> bool
    ensures test { result ≡ test.sections_depend_only_on given.now shown.now (sections_of parts.now) }
    ensures depends { IsTrue result → DependsOnlyOn given.now shown.now (sections_form (sections_of parts.now)) }
{
    let more = Names::Listed(shown);
    parts_depend(&Names::More(given, &more), &Names::Listed(given), parts)
}
