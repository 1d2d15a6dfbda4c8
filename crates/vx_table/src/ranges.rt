//! The values that a field may have: those of its coding that are in its range.

ghost use Rattle.std.specs.Prelude.{◌≡◌, ◌↔◌, ℕ, ℤ, pos, ◌≤ℤ◌, ◌^◌, ◌-◌, ◌≤◌, IsTrue};
ghost use Rattle.vx_table.specs.Spelling as spelling;
ghost use Rattle.vx_table.specs.Spelling.{IsCodable, HasCode};
ghost use Rattle.vx_table.specs.Values.{IsValueOf};

use crate::rows::{Cell, Coding, Fault, Limits};

/// Returns whether a value lies in a range.
#[inline(always)]
fn is_within(low: i64, value: i64, high: i64) -> bool
    ensures { IsTrue result ↔ ((low ≤ℤ value) × (value ≤ℤ high)) }
{
    low <= value && value <= high
}

/// Returns the largest number of `u(n)` for a width of at most 32.
#[inline(always)]
fn largest(width: u32) -> i64
    requires { width ≤ 32 }
    ensures { result ≡ pos (2 ^ width - 1) }
{
    (1 << width) - 1
}

/// The largest value of `ue(v)`.
const LAST_NUMBER: i64 = 0xffff_fffe;

/// The largest value of `se(v)`; the smallest is its negative.
const LAST_SIGNED: i64 = 0x7fff_ffff;

/// Returns whether a coding has a code for the value.
#[inline(always)]
pub fn has_code(coding: Coding<u32>, value: i64) -> bool
    requires { IsCodable coding }
    ensures { IsTrue result ↔ HasCode coding value }
{
    match coding {
        Coding::Fixed(width) => is_within(0, value, largest(width)),
        Coding::Golomb => is_within(0, value, LAST_NUMBER),
        Coding::SignedGolomb => is_within(-LAST_SIGNED, value, LAST_SIGNED),
        Coding::Zeros | Coding::OneAndZeros | Coding::Trailing | Coding::Absent => {
            is_within(0, value, 0)
        }
        Coding::Refused => false,
    }
}

/// Returns the fault of a value that is outside its range, or `None`.
#[tactic(auto, unfolding(crate::specs::Spelling::fault_of))]
#[inline(always)]
pub fn fault_of(limits: Limits<u32>, value: i64) -> Option<Fault>
    ensures { result ≡ spelling.fault_of limits value }
{
    match limits {
        Limits::Any => None,
        Limits::Within { low, high, fault } => {
            let inside = i64::from(low) <= value && value <= i64::from(high);
            if inside { None } else { Some(fault) }
        }
        Limits::Below { bound, fault } => {
            let inside = 0 <= value && value < i64::from(bound);
            if inside { None } else { Some(fault) }
        }
        Limits::Multiple { unit, high, fault } => {
            if value > i64::from(high) {
                Some(fault)
            } else if is_multiple(unit, value) {
                None
            } else {
                Some(Fault::OutOfRange)
            }
        }
    }
}

/// Returns whether the value is 1, 2, 3 .. times the unit.
fn is_multiple(unit: u32, value: i64) -> bool
    ensures { result ≡ spelling.is_multiple unit value }
{
    value > 0 && unit > 0 && value % i64::from(unit) == 0
}

/// Returns whether a field may have the value: it has a code, and is in the range.
#[inline(always)]
pub fn is_value(cell: Cell<u32>, value: i64) -> bool
    requires { IsCodable cell.coding }
    ensures { IsTrue result ↔ IsValueOf cell value }
{
    has_code(cell.coding, value) && fault_of(cell.limits, value).is_none()
}
