//! Writing of items of the structures.

ghost use Rattle.std.specs.Prelude.{◌≡◌, ◌↔◌, ◌+◌, ◌-◌, ◌≤◌, ◌++◌, length, take, drop, slice_set, All, IsTrue, OnOk, OnErr};
ghost use Rattle.vx_ptl.specs.Spelling.{AppendsSpelling};
ghost use Rattle.vx_ptl.specs.Run as run;
ghost use Rattle.vx_ptl.specs.Run.{codes_of, code_at, zeros_at, field_code, zeros_behind, item_bits, run_bits, IsRunItem, IsCodableIfAny, GrowsByFront};

use crate::tables::{DPB, PTL, SUBLAYER_TIMING, TIMING};
use std::alloc::AllocError;
use vx_bits::{BitWriter, Fields, Item};
use vx_table::{Coding, Formula, Row, Term, has_code, write_code};

/// How a field of these structures is written, which its row determines at every scope.
#[derive(Clone, Copy)]
struct FieldCode {
    coding: Option<Coding<u32>>,
    /// The zeros up to a byte boundary that come last before it in its table, by the field as which they are reported;
    /// 0 if there are none.
    zeros: u16,
}

const NO_CODE: FieldCode = FieldCode {
    coding: None,
    zeros: 0,
};

/// Returns how a row codes its field, if that is the same at every scope.
fn fixed_coding(coding: Coding<Formula>) -> Option<Coding<u32>>
    ensures { result ≡ run.fixed_coding coding }
{
    match coding {
        Coding::Fixed(Formula::Plain(Term::Number(width))) => Some(Coding::Fixed(width.min(32))),
        Coding::Golomb => Some(Coding::Golomb),
        Coding::SignedGolomb => Some(Coding::SignedGolomb),
        _ => None,
    }
}

/// Returns the zeros that come last before what follows a row.
fn zeros_over(before: u16, coding: Coding<Formula>, field: u16) -> u16
    ensures { result ≡ run.zeros_over before coding field }
{
    match coding {
        Coding::Zeros => field,
        _ => before,
    }
}

/// Stores how the fields of a table are written.
fn note_table(codes: &mut [FieldCode; 64], table: &[Row])
    ensures { codes.new ≡ codes_of 0 table.now codes.old }
{
    let mut zeros = 0;
    for row in table {
        zeros = note_row(codes, zeros, *row);
    }
}

/// Stores how a row's field is written, and returns the zeros that come last before the next row.
fn note_row(codes: &mut [FieldCode; 64], before: u16, row: Row) -> u16
    ensures codes { codes.new ≡ code_at before row codes.old }
    ensures zeros { result ≡ zeros_at before row }
{
    let Row::Field(cell) = row else {
        return before;
    };
    let zeros = zeros_over(before, cell.coding, cell.field);
    let coding = fixed_coding(cell.coding);
    note(codes, cell.field, FieldCode { coding, zeros });
    zeros
}

/// Stores how a field is written.
#[tactic(auto, using(std::proofs::lemmas::List::set_past))]
fn note(codes: &mut [FieldCode; 64], field: u16, code: FieldCode)
    ensures { codes.new ≡ slice_set codes.old field code }
{
    let place = usize::from(field);
    if place < codes.len() {
        codes[place] = code;
    }
}

/// Returns how each field of these structures is written, by its number.
fn field_codes() -> [FieldCode; 64]
    ensures { result ≡ run.field_codes }
{
    let mut codes = [NO_CODE; 64];
    note_table(&mut codes, &PTL);
    note_table(&mut codes, &DPB);
    note_table(&mut codes, &TIMING);
    note_table(&mut codes, &SUBLAYER_TIMING);
    codes
}

/// Returns how a field is written.
#[tactic(auto, using(crate::proofs::Codes::codable))]
fn code_of(codes: &[FieldCode; 64], field: u16) -> FieldCode
    requires { codes.now ≡ run.field_codes }
    ensures code { result ≡ field_code field }
    ensures width { IsCodableIfAny result.coding }
{
    codes.get(usize::from(field)).copied().unwrap_or(NO_CODE)
}

/// Returns whether an item is of a field of these structures, and its value has a code.
#[tactic(auto, unfolding(crate::specs::Run::IsRunItem))]
fn is_run_item(codes: &[FieldCode; 64], item: Item) -> bool
    requires { codes.now ≡ run.field_codes }
    ensures { IsTrue result ↔ IsRunItem item }
{
    match code_of(codes, item.field).coding {
        Some(coding) => has_code(coding, item.value),
        None => false,
    }
}

/// Returns whether [`write_run`] can write the items from place `from` up to `to`.
pub fn is_run(items: &Fields, from: usize, to: usize) -> bool
    requires order { from ≤ to }
    requires within { to ≤ length items.now }
    ensures { IsTrue result ↔ All IsRunItem (take (to - from) (drop from items.now)) }
{
    let codes = field_codes();
    for i in from..to {
        if !is_run_item(&codes, items.item(i)) {
            return false;
        }
    }
    true
}

/// Writes an item that follows an item of field `before`, with the zeros before it.
#[tactic(auto, unfolding(crate::specs::Run::item_bits, crate::specs::Run::IsRunItem))]
fn write_item(
    bits: &mut BitWriter,
    codes: &[FieldCode; 64],
    before: u16,
    item: Item,
) -> Result<(), AllocError>
    requires codes { codes.now ≡ run.field_codes }
    requires item { IsRunItem item }
    ensures ok { OnOk result (bits.new ≡ bits.old ++ item_bits before (length bits.old) item) }
    ensures err { OnErr result (GrowsByFront bits.old bits.new (item_bits before (length bits.old) item)) }
{
    let code = code_of(codes, item.field);
    write_gap(bits, before, code.zeros)?;
    match code.coding {
        Some(coding) => write_code(bits, coding, item.value)?,
        None => unreachable!(),
    }
    Ok(())
}

/// Writes the zeros up to the byte boundary, if the item before is of a field that precedes them.
fn write_gap(bits: &mut BitWriter, before: u16, zeros: u16) -> Result<(), AllocError>
    ensures ok { OnOk result (bits.new ≡ bits.old ++ zeros_behind before zeros (length bits.old)) }
    ensures err { OnErr result (bits.new ≡ bits.old) }
{
    if before < zeros {
        bits.align()?;
    }
    Ok(())
}

/// Writes the items of fields 11 to 60 from place `from` up to `to`, with their alignments.
///
/// Items of whole structures are written as their spellings. So items that were read are written as the bits from which
/// they were read.
///
/// # Errors
///
/// `AllocError` if memory runs out. The bits have then gained a prefix of the items' bits.
pub fn write_run(
    bits: &mut BitWriter,
    items: &Fields,
    from: usize,
    to: usize,
) -> Result<(), AllocError>
    requires order { from ≤ to }
    requires within { to ≤ length items.now }
    requires run { All IsRunItem (take (to - from) (drop from items.now)) }
    ensures bits { OnOk result (bits.new ≡ bits.old ++ run_bits 0 (length bits.old) (take (to - from) (drop from items.now))) }
    ensures err { OnErr result (GrowsByFront bits.old bits.new (run_bits 0 (length bits.old) (take (to - from) (drop from items.now)))) }
    ensures structures { OnOk result (AppendsSpelling bits.old (take (to - from) (drop from items.now)) bits.new) }
{
    let codes = field_codes();
    let mut before = 0;
    for i in from..to {
        let item = items.item(i);
        write_item(bits, &codes, before, item)?;
        before = item.field;
    }
    Ok(())
}
