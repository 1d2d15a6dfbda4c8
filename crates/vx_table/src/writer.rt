//! Writing by a table: from items to bits.

ghost use Rattle.std.specs.Prelude.{◌≡◌, ◌↔◌, ℕ, pos, ◌^◌, ◌<◌, ◌-◌, ◌≤◌, List, ◌∷◌, ◌++◌, [], length, take, drop, IsTrue, OnOk, OnErr, MatchOption};
ghost use Rattle.vx_bits.specs.declared.list.Item.{Item};
ghost use Rattle.vx_table.specs.Spelling.{IsCodable, HasCode, code_of};
ghost use Rattle.vx_table.specs.Forms.{form_of};
ghost use Rattle.vx_table.specs.Writing.{TellsValue, TakesValue, Writes, ItemsLeadTo};

use crate::ranges::is_value;
use crate::rows::{Cell, Coding, Row};
use crate::scope::Scope;
use crate::walk::{Coder, code_table, has_value};
use std::alloc::AllocError;
use std::marker::Model;
use vx_bits::{BitWriter, Fields, Item};

/// The reason why a value isn't written.
#[derive(Clone, Copy, Debug, PartialEq, Eq)]
pub enum SpellError {
    /// Memory ran out.
    Memory,
    /// The items don't begin with those of a value of the structure.
    NoValue,
}

/// Converts an error that isn't `NoValue` to the only other one: memory ran out.
pub fn only_memory(error: SpellError) -> AllocError
    requires { error ≡ SpellError.NoValue → ⊥ }
{
    match error {
        SpellError::Memory => AllocError,
        SpellError::NoValue => unreachable!(),
    }
}

/// Items that are to be written, the next one first.
///
/// *Model:* the list of these items.
#[derive(Drop)]
pub struct Unwritten<'a> {
    items: &'a Fields,
    at: usize,
    end: usize,
}

impl<'a> Model for Unwritten<'a> {
    ghost Value = { List Item };

    ghost view = { λ u. take (u.end - u.at) (drop u.at u.items.now) };

    ghost invariant = { λ u. (u.at ≤ u.end) × (u.end ≤ length u.items.now) };
}

impl<'a> Unwritten<'a> {
    /// Returns the items from place `from` up to `to`.
    pub fn new(items: &'a Fields, from: usize, to: usize) -> Unwritten<'a>
        requires order { from ≤ to }
        requires within { to ≤ length items.now }
        ensures { result ≡ take (to - from) (drop from items.now) }
    {
        Unwritten {
            items,
            at: from,
            end: to,
        }
    }

    /// Returns a second list of the same items, which is then independent of this one.
    #[inline(always)]
    pub fn fork(&self) -> Unwritten<'a>
        ensures { result ≡ self.now }
    {
        Unwritten {
            items: self.items,
            at: self.at,
            end: self.end,
        }
    }

    /// Returns whether all items were taken.
    pub fn is_empty(&self) -> bool
        ensures { IsTrue result ↔ (self.now ≡ []) }
    {
        self.at == self.end
    }

    /// Takes the next item, if there is one.
    #[inline(always)]
    pub fn next(&mut self) -> Option<Item>
        ensures { MatchOption result ((self.old ≡ []) × (self.new ≡ [])) (λ item. self.old ≡ item ∷ self.new) }
    {
        if self.at == self.end {
            return None;
        }
        let item = self.items.item(self.at);
        self.at += 1;
        Some(item)
    }
}

/// Returns the value of the next field; 0 for a gap, which has no item.
#[inline(always)]
fn next_value(items: &mut Unwritten<'_>, field: u16, coding: Coding<u32>) -> Option<i64>
    ensures { TellsValue field coding items.old result items.new }
{
    if !has_value(coding) {
        return Some(0);
    }
    match items.next() {
        Some(item) if item.field == field => Some(item.value),
        _ => None,
    }
}

/// Takes the item of the next field's value, if the field may have it. A gap has the value 0 and no item.
///
/// After `None`, items may have been taken; so take the value from a fork.
#[inline(always)]
pub fn take_value(items: &mut Unwritten<'_>, cell: Cell<u32>) -> Option<i64>
    requires { IsCodable cell.coding }
    ensures { TakesValue cell items.old result items.new }
{
    let Some(value) = next_value(items, cell.field, cell.coding) else {
        return None;
    };
    if !is_value(cell, value) {
        return None;
    }
    Some(value)
}

/// Returns a value as a number, if 32 bits hold it.
#[inline(always)]
fn number(value: i64) -> u32
    ensures { (n : ℕ) → value ≡ pos n → n < 2 ^ 32 → result ≡ n }
{
    u32::try_from(value).unwrap_or(0)
}

/// Appends the code of a field's value, or the bits of a gap.
///
/// # Errors
///
/// `AllocError` if memory runs out. The bits are then unchanged.
#[inline(always)]
pub fn write_code(bits: &mut BitWriter, coding: Coding<u32>, value: i64) -> Result<(), AllocError>
    requires width { IsCodable coding }
    requires code { HasCode coding value }
    ensures ok { OnOk result (bits.new ≡ bits.old ++ code_of coding (length bits.old) value) }
    ensures err { OnErr result (bits.new ≡ bits.old) }
{
    match coding {
        Coding::Fixed(width) => bits.u(width, u64::from(number(value))),
        Coding::Golomb => bits.ue(number(value)),
        Coding::SignedGolomb => bits.se(value as i32),
        Coding::Zeros => bits.align(),
        Coding::OneAndZeros | Coding::Trailing => bits.align_after_one(),
        Coding::Absent | Coding::Refused => Ok(()),
    }
}

impl<'a> Coder<Unwritten<'a>> for BitWriter {
    ghost use Rattle.vx_table.specs.Writing.{WritesField};

    type Fault = SpellError;

    ghost step = { WritesField };

    #[inline(always)]
    fn code(&mut self, items: &mut Unwritten<'a>, cell: Cell<u32>) -> Result<i64, SpellError> {
        let mut behind = items.fork();
        let Some(value) = take_value(&mut behind, cell) else {
            return Err(SpellError::NoValue);
        };
        match write_code(self, cell.coding, value) {
            Ok(()) => {
                *items = behind;
                Ok(value)
            }
            Err(_) => Err(SpellError::Memory),
        }
    }
}

/// Writes the fields of `table`, whose items come next in `items`, and stores their numbers in `scope`.
///
/// # Errors
///
/// - `NoValue` if `items` doesn't start with the items of a value of `table`.
/// - `Memory` if memory runs out.
///
/// After an error, `bits` has gained the codes of the fields before the one that failed, `items` starts at that field, and `scope` is
/// unspecified.
pub fn write_table(
    table: &[Row],
    scope: &mut Scope,
    bits: &mut BitWriter,
    items: &mut Unwritten<'_>,
) -> Result<(), SpellError>
    ensures answer { Writes (form_of table.now scope.old) bits.old items.old result bits.new items.new }
    ensures scope { OnOk result (ItemsLeadTo (form_of table.now scope.old) items.old scope.new) }
{
    code_table(table, scope, bits, items)
}
