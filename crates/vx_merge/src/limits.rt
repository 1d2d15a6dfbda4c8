//! The limits of a unit, of a picture and of the stream that are to be written, from lengths only.
ghost use Rattle.std.specs.Prelude.{◌≡◌, ◌+◌, ◌++◌, length, map, option_copied, option_to_list, IfOk, IfErr, OnOk, Some, None};
ghost use Rattle.std.specs.List.{AllByRecursion, list_any};
ghost use Rattle.vx_pic.specs.Written.{eos_units};
ghost use Rattle.vx_bits.specs.Codes.{AreBytes};
ghost use Rattle.vx_merge.specs.inner.Making as making;
ghost use Rattle.vx_merge.specs.inner.Making.{HasPayloads};

use crate::output::RoundUnits;
use vx_bits::Refusal;
use vx_bits::limits::{PICTURE_LIMIT, SOURCE_LIMIT, UNIT_LIMIT};
use vx_bits::rules::{LONG_PICTURE, LONG_SOURCE, LONG_UNIT};

/// How many bytes a start code has.
const START_CODE: u64 = 4;

// ---- units

/// Returns whether a unit in two pieces is too long.
fn is_long(front: &[u8], rest: &[u8]) -> bool
    ensures { result ≡ making.is_long (front.now ++ rest.now) }
{
    front.len() + rest.len() > UNIT_LIMIT
}

/// Returns whether one of these units is too long.
fn has_long(units: &[Vec<u8>]) -> bool
    ensures { result ≡ list_any making.is_long (map (λ unit. unit.items) units.now) }
{
    for k in 0..units.len() {
        if is_long(units[k].as_slice(), &[]) {
            return true;
        }
    }
    false
}

/// Returns whether there is a unit and it is too long.
fn is_some_long(unit: Option<&[u8]>) -> bool
    ensures { result ≡ list_any making.is_long (option_to_list (option_copied unit.entry)) }
{
    match unit {
        Some(unit) => is_long(unit, &[]),
        None => false,
    }
}

/// Returns whether the unit of a slice is too long.
fn has_long_slice(units: &RoundUnits<'_>) -> bool
    requires { HasPayloads units.now }
    ensures { result ≡ list_any making.is_long (making.slice_units units.now) }
{
    for i in 0..units.fronts.len() {
        let slice = units.slice(i);
        if is_long(slice.front, slice.payload) {
            return true;
        }
    }
    false
}

/// Returns whether a unit of the round is too long.
fn has_long_unit(units: &RoundUnits<'_>) -> bool
    requires { HasPayloads units.now }
    ensures { result ≡ list_any making.is_long (making.units_made units.now) }
{
    if has_long(units.sets.as_slice()) {
        return true;
    }
    if is_some_long(units.sei_unit()) {
        return true;
    }
    if is_long(units.header.as_slice(), &[]) {
        return true;
    }
    has_long_slice(units)
}

// ---- bytes: counts stay at the highest number of 64 bits

/// Adds the bytes of a unit and its start code.
fn with_unit(total: u64, unit: &[u8]) -> u64
    ensures count { result ≡ making.capped (total + (4 + length unit.now)) }
    ensures bytes { AreBytes unit.now }
{
    total
        .saturating_add(START_CODE)
        .saturating_add(unit.len() as u64)
}

/// Adds the bytes of an end of sequence, if there is one.
fn with_end(total: u64, after_eos: bool) -> u64
    ensures { result ≡ making.capped (total + making.size_of 4 (eos_units after_eos)) }
{
    if after_eos {
        return total.saturating_add(START_CODE).saturating_add(2);
    }
    total
}

/// Adds the bytes of units.
fn with_units(total: u64, units: &[Vec<u8>]) -> u64
    ensures count { result ≡ making.capped (total + making.size_of 4 (map (λ unit. unit.items) units.now)) }
    ensures bytes { AllByRecursion AreBytes (map (λ unit. unit.items) units.now) }
{
    let mut sum = total;
    for k in 0..units.len() {
        sum = with_unit(sum, units[k].as_slice());
    }
    sum
}

/// Adds the bytes of a unit, if there is one.
fn with_some(total: u64, unit: Option<&[u8]>) -> u64
    ensures count { result ≡ making.capped (total + making.size_of 4 (option_to_list (option_copied unit.entry))) }
    ensures bytes { AllByRecursion AreBytes (option_to_list (option_copied unit.entry)) }
{
    match unit {
        Some(unit) => with_unit(total, unit),
        None => total,
    }
}

/// Adds the bytes of a slice, in two pieces, and `each` more.
fn with_slice(total: u64, each: u64, front: &[u8], payload: &[u8]) -> u64
    ensures count { result ≡ making.capped (total + (each + length (front.now ++ payload.now))) }
    ensures bytes { AreBytes (front.now ++ payload.now) }
{
    let length = front.len() + payload.len();
    total.saturating_add(each).saturating_add(length as u64)
}

/// Adds the bytes of the slices, and `each` more for each.
fn with_slices(total: u64, each: u64, units: &RoundUnits<'_>) -> u64
    requires { HasPayloads units.now }
    ensures count { result ≡ making.capped (total + making.size_of each (making.slice_units units.now)) }
    ensures bytes { AllByRecursion AreBytes (making.slice_units units.now) }
{
    let mut sum = total;
    for i in 0..units.fronts.len() {
        let slice = units.slice(i);
        sum = with_slice(sum, each, slice.front, slice.payload);
    }
    sum
}

/// Adds all bytes that are written of a round.
fn with_round(bytes: u64, units: &RoundUnits<'_>) -> u64
    requires { HasPayloads units.now }
    ensures count { result ≡ making.capped (bytes + making.size_of 4 (making.units_made units.now)) }
    ensures bytes { AllByRecursion AreBytes (making.units_made units.now) }
{
    let end = with_end(bytes, units.after_eos);
    let sets = with_units(end, units.sets.as_slice());
    let sei = with_some(sets, units.sei_unit());
    let header = with_unit(sei, units.header.as_slice());
    with_slices(header, START_CODE, units)
}

// ---- limits

/// Returns how many bytes are written in all if the round keeps the limits. `bytes` of them come before.
///
/// *Errors:* the first limit that the round exceeds (L1, L2, L3).
pub(crate) fn bytes_within(units: &RoundUnits<'_>, bytes: u64) -> Result<u64, Refusal>
    requires { HasPayloads units.now }
    ensures total { IfOk result (λ total. total ≡ bytes + making.size_of 4 (making.units_made units.now)) }
    ensures within { OnOk result (making.AreLimits units.now bytes None) }
    ensures broken { IfErr result (λ r. making.AreLimits units.now bytes (Some r)) }
    ensures bytes { AllByRecursion AreBytes (making.units_made units.now) }
{
    let total = with_round(bytes, units);
    if has_long_unit(units) {
        return Err(Refusal::Limit { code: LONG_UNIT });
    }
    if with_slices(units.header.len() as u64, 0, units) > PICTURE_LIMIT as u64 {
        return Err(Refusal::Limit { code: LONG_PICTURE });
    }
    if total > SOURCE_LIMIT {
        return Err(Refusal::Limit { code: LONG_SOURCE });
    }
    Ok(total)
}
