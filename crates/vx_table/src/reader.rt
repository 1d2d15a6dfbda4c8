//! Reading by a table: from bits to items.

ghost use Rattle.std.specs.Prelude.{◌≡◌, ◌≤◌, ◌++◌, length, OnOk, OnErr, IfErr};
ghost use Rattle.vx_bits.specs.Place.{taken};
ghost use Rattle.vx_bits.specs.Limits.{unit_limit};
ghost use Rattle.vx_table.specs.Forms.{form_of};
ghost use Rattle.vx_table.specs.Spelling as spelling;
ghost use Rattle.vx_table.specs.Spelling.{IsCodable};
ghost use Rattle.vx_table.specs.Reading.{TakesCode, TakesField, ReadsField, at_front, Reads, ReadsValue, LeadsTo};

use crate::ranges::fault_of;
use crate::rows::{Cell, Coding, Fault, Row};
use crate::scope::Scope;
use crate::walk::{Coder, code_table, has_value};
use std::alloc::Global;
use vx_bits::{BitCause, BitReader, Fields, Item, ReadError, Refusal};

/// Takes the code of a field or a gap, and returns its value, 0 for a gap. Doesn't check the field's range.
///
/// # Errors
///
/// The cause why no code begins here. `bits` is then unchanged.
#[inline(always)]
pub fn take_code(bits: &mut BitReader<'_>, coding: Coding<u32>) -> Result<i64, BitCause>
    requires { IsCodable coding }
    ensures { TakesCode coding bits.old result bits.new }
{
    match coding {
        Coding::Fixed(width) => Ok(bits.u(width)? as i64),
        Coding::Golomb => Ok(i64::from(bits.ue()?)),
        Coding::SignedGolomb => Ok(i64::from(bits.se()?)),
        Coding::Zeros => bits.align().and(Ok(0)),
        Coding::OneAndZeros => bits.align_after_one().and(Ok(0)),
        Coding::Trailing => bits.trailing().and(Ok(0)),
        Coding::Absent => Ok(0),
        Coding::Refused => Err(BitCause::OutOfRange),
    }
}

/// Returns a fault as the refusal that is reported, at a field and the bit where it begins.
#[tactic(auto, unfolding(crate::specs::Spelling::reported))]
pub fn report(fault: Fault, field: u16, bit: u32) -> Refusal
    ensures { result ≡ spelling.reported fault field bit }
{
    match fault {
        Fault::OutOfRange => Refusal::Syntax {
            field,
            bit,
            cause: BitCause::OutOfRange,
        },
        Fault::Profile(code) => Refusal::Profile { code },
        Fault::Limit(code) => Refusal::Limit { code },
        Fault::Structure(code) => Refusal::Structure {
            code,
            kind: 0,
            id: 0,
        },
    }
}

/// Takes a field, and returns its value, which is in its range; 0 for a gap.
///
/// # Errors
///
/// The field's refusal. `bits` is then unchanged.
#[inline(always)]
pub fn take_field(bits: &mut BitReader<'_>, cell: Cell<u32>) -> Result<i64, Refusal>
    requires { IsCodable cell.coding }
    ensures { TakesField cell bits.old result bits.new }
{
    let field = cell.field;
    let bit = bits.at();
    let mut behind = bits.fork();
    let value = match take_code(&mut behind, cell.coding) {
        Ok(value) => value,
        Err(cause) => return Err(Refusal::Syntax { field, bit, cause }),
    };
    if let Some(fault) = fault_of(cell.limits, value) {
        return Err(report(fault, field, bit));
    }
    *bits = behind;
    Ok(value)
}

impl<'a> Coder<Fields> for BitReader<'a> {
    type Fault = ReadError;

    ghost step = { ReadsField };

    #[inline(always)]
    fn code(&mut self, items: &mut Fields, cell: Cell<u32>) -> Result<i64, ReadError> {
        let mut behind = self.fork();
        let value = match take_field(&mut behind, cell) {
            Ok(value) => value,
            Err(refusal) => return Err(ReadError::Refused(refusal)),
        };
        push(items, cell, value)?;
        *self = behind;
        Ok(value)
    }
}

/// Appends the item of a field's value; a gap has none.
#[tactic(auto, unfolding(crate::specs::Spelling::item_of))]
#[inline(always)]
pub(crate) fn push(items: &mut Fields, cell: Cell<u32>, value: i64) -> Result<(), ReadError>
    ensures ok { OnOk result (items.new ≡ items.old ++ spelling.item_of cell value) }
    ensures err { OnErr result (items.new ≡ items.old) }
    ensures memory { IfErr result (λ e. e ≡ ReadError.Memory) }
{
    if has_value(cell.coding) {
        items.push(Item {
            field: cell.field,
            value,
        })?;
    }
    Ok(())
}

/// Reads the fields of `table` from `bits`, appends their items, and stores their numbers in `scope`.
///
/// # Errors
///
/// - `Refused` with the first refusal.
/// - `Memory` if memory runs out.
///
/// After an error, `items` has gained the fields read before, `bits` is at the next field, and `scope` is unspecified.
pub fn read_table(
    table: &[Row],
    scope: &mut Scope,
    bits: &mut BitReader<'_>,
    items: &mut Fields,
) -> Result<(), ReadError>
    ensures answer { Reads (form_of table.now scope.old) bits.old items.old result bits.new items.new }
    ensures scope { OnOk result (LeadsTo (form_of table.now scope.old) bits.old scope.new) }
{
    code_table(table, scope, bits, items)
}

/// Reads the fields of `table` from the start of an RBSP of at most 2^23 bytes.
///
/// # Errors
///
/// - `Refused` with the first refusal.
/// - `Memory` if memory runs out.
pub fn read_value(
    alloc: Global,
    table: &[Row],
    scope: &mut Scope,
    rbsp: &[u8],
) -> Result<Fields, ReadError>
    requires { length rbsp.now ≤ unit_limit }
    ensures answer { ReadsValue (form_of table.now scope.old) rbsp.now result }
    ensures scope { OnOk result (LeadsTo (form_of table.now scope.old) (at_front rbsp.now) scope.new) }
{
    let mut bits = BitReader::new(rbsp);
    let mut items = Fields::new(alloc);
    read_table(table, scope, &mut bits, &mut items)?;
    Ok(items)
}
