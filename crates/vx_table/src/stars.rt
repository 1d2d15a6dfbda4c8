//! The fields without a star, and the test that the stars of a table mark what is not shown.

ghost use Rattle.std.specs.Prelude.{◌≡◌, ◌++◌, IsTrue, OnOk};
ghost use Rattle.vx_table.specs.Forms.{form_of};
ghost use Rattle.vx_table.specs.Parts.{sections_of, sections_form};
ghost use Rattle.vx_table.specs.Shown as stars;
ghost use Rattle.vx_table.specs.Shown.{KeepsOnly};
ghost use Rattle.vx_table.specs.Unstarred.{unstarred_row, unstarred_rows};

use crate::depends::has;
use crate::kept::stands_for_field;
use crate::parts::Part;
use crate::rows::Row;
use std::alloc::AllocError;
use vx_bits::CopyList;

/// A set of fields, as a list.
pub type NameList = CopyList<u16>;

/// Appends the field of a row, if it has no star.
fn push_unstarred_row(names: &mut NameList, row: Row) -> Result<(), AllocError>
    ensures { OnOk result (names.new ≡ names.old ++ unstarred_row row) }
{
    if let Row::Field(cell) = row {
        if cell.kept {
            names.push(cell.field)?;
        }
    }
    Ok(())
}

/// Appends the fields of `table` that have no star. Over all tables of a structure, they are its kept fields.
///
/// # Errors
///
/// `AllocError` if memory runs out.
pub fn push_unstarred(names: &mut NameList, table: &[Row]) -> Result<(), AllocError>
    ensures { OnOk result (names.new ≡ names.old ++ unstarred_rows table.now) }
{
    for row in table {
        push_unstarred_row(names, *row)?;
    }
    Ok(())
}

/// Returns whether a row's field has a star exactly if it isn't shown.
#[tactic(auto, unfolding(crate::specs::Shown::star_tells), using(crate::proofs::Agreeing::has_either))]
fn star_tells(given: &[u16], shown: &[u16], row: Row) -> bool
    ensures { result ≡ stars.star_tells (given.now ++ shown.now) row }
{
    match row {
        Row::Field(cell) => {
            if !stands_for_field(cell.coding) {
                return true;
            }
            cell.kept == (has(given, cell.field) || has(shown, cell.field))
        }
        _ => true,
    }
}

/// Returns whether each row's field has a star exactly if it isn't shown.
fn stars_tell(given: &[u16], shown: &[u16], rows: &[Row]) -> bool
    ensures { result ≡ stars.stars_tell (given.now ++ shown.now) rows.now }
{
    for row in rows {
        if !star_tells(given, shown, *row) {
            return false;
        }
    }
    true
}

/// Returns whether in all parts each field has a star exactly if it isn't shown.
fn parts_stars_tell(given: &[u16], shown: &[u16], parts: &[Part<'_>]) -> bool
    ensures { result ≡ stars.sections_stars_tell (given.now ++ shown.now) (sections_of parts.now) }
{
    for part in parts {
        if !stars_tell(given, shown, part.rows) {
            return false;
        }
    }
    true
}

/// Tests whether the fields of `table` without a star are exactly the shown ones. A given field counts as shown.
///
/// It is a test of the rows: `true` means that they are.
pub fn keeps_only(table: &[Row], given: &[u16], shown: &[u16]) -> bool
    ensures test { result ≡ stars.stars_tell (given.now ++ shown.now) table.now }
    ensures keeps { IsTrue result → KeepsOnly given.now shown.now (form_of table.now) }
{
    stars_tell(given, shown, table)
}

/// Tests whether the fields of a structure's parts without a star are exactly the shown ones, as [`keeps_only`] does.
pub fn parts_keep_only(parts: &[Part<'_>], given: &[u16], shown: &[u16]) -> bool
    ensures test { result ≡ stars.sections_stars_tell (given.now ++ shown.now) (sections_of parts.now) }
    ensures keeps { IsTrue result → KeepsOnly given.now shown.now (sections_form (sections_of parts.now)) }
{
    parts_stars_tell(given, shown, parts)
}
