//! Emulation prevention: the 03 bytes that keep start codes out of a NAL unit (H.266 7.3.1.1, 7.4.2.1).
ghost use Rattle.std.specs.Prelude.{◌≡◌, ℕ, ◌≤◌, ◌<◌, length, IfOk, MatchOption};
ghost use Rattle.vx_bits.specs.Codes.{EndsInNoZero};
ghost use Rattle.vx_annexb.specs.Places.{IsMark, IsFirstFrom};
ghost use Rattle.vx_annexb.specs.Emulation.{is_emulation, BreaksRule, unescaped_to, unescaped, IsEscaped};

use crate::search::find_mark;
use std::alloc::{AllocError, Global};

/// emulation_prevention_three_byte
pub(crate) const EMULATION: u8 = 3;

/// Returns the place of the first byte that violates emulation prevention, or `None`. Takes no memory.
///
/// Such a byte is 00, 01 or 02 after 00 00, or more than 03 after 00 00 03.
pub fn emulation_fault(unit: &[u8]) -> Option<usize>
    ensures { MatchOption result ((k : ℕ) → ¬ BreaksRule unit.now k) (IsFirstFrom (BreaksRule unit.now) 0) }
{
    fault_from(unit, 0)
}

/// Returns what [`emulation_fault`] does, if no 00 00 and a byte of at most 03 begins before `from`.
pub(crate) fn fault_from(unit: &[u8], from: usize) -> Option<usize>
    requires within { from ≤ length unit.now }
    requires clear { (k : ℕ) → k < from → ¬ IsMark EMULATION unit.now k }
    ensures { MatchOption result ((k : ℕ) → ¬ BreaksRule unit.now k) (IsFirstFrom (BreaksRule unit.now) 0) }
{
    let mut at = from;
    while let Some(mark) = find_mark(unit, at, EMULATION) {
        if unit[mark + 2] < EMULATION {
            return Some(mark + 2);
        }
        at = mark + 3;
        if at < unit.len() && unit[at] > EMULATION {
            return Some(at);
        }
    }
    None
}

/// Returns a unit without its emulation prevention bytes. Requires that no byte of `unit` violates emulation
/// prevention.
///
/// # Errors
///
/// `AllocError` if memory runs out.
pub fn unescape(alloc: Global, unit: &[u8]) -> Result<Vec<u8>, AllocError>
    requires { (k : ℕ) → ¬ BreaksRule unit.now k }
    ensures value { IfOk result (λ bytes. bytes.items ≡ unescaped unit.now) }
    ensures size { IfOk result (λ bytes. length bytes.items ≤ length unit.now) }
    ensures escaped { EndsInNoZero unit.now → IfOk result (λ bytes. IsEscaped bytes.items unit.now) }
{
    let mut bytes = Vec::with_capacity(alloc, unit.len())?;
    let mut at = 0;
    while let Some(mark) = find_mark(unit, at, EMULATION) {
        bytes.extend_from_slice(&unit[at..mark + 2])?;
        at = mark + 3;
    }
    bytes.extend_from_slice(&unit[at..])?;
    Ok(bytes)
}

/// Returns `bytes` with the emulation prevention bytes that they need. Requires that `bytes` doesn't end in 00.
///
/// # Errors
///
/// `AllocError` if memory runs out.
pub fn escape(alloc: Global, bytes: &[u8]) -> Result<Vec<u8>, AllocError>
    requires { EndsInNoZero bytes.now }
    ensures { IfOk result (λ unit. IsEscaped bytes.now unit.items) }
{
    let mut unit = Vec::with_capacity(alloc, bytes.len())?;
    // The number of zeros at the end of `unit`.
    let mut zeros = 0u8;
    for byte in bytes {
        if zeros == 2 && *byte <= EMULATION {
            unit.push(EMULATION)?;
            zeros = 0;
        }
        unit.push(*byte)?;
        zeros = if *byte == 0 { zeros + 1 } else { 0 };
    }
    Ok(unit)
}

/// Returns the first place in `unit` before which there are `n` bytes that are no emulation prevention bytes.
/// Takes no memory.
pub fn unit_place(unit: &[u8], n: usize) -> usize
    requires { n ≤ length (unescaped unit.now) }
    ensures within { result ≤ length unit.now }
    ensures first { IsFirstFrom (λ place. length (unescaped_to unit.now place) ≡ n) 0 result }
{
    let mut place = 0;
    let mut left = n;
    while left > 0 {
        if !stands_emulation(unit, place) {
            left -= 1;
        }
        place += 1;
    }
    place
}

/// Returns whether the byte at `place` is an emulation prevention byte.
fn stands_emulation(unit: &[u8], place: usize) -> bool
    requires { place < length unit.now }
    ensures { result ≡ is_emulation unit.now place }
{
    place >= 2 && unit[place - 2] == 0 && unit[place - 1] == 0 && unit[place] == EMULATION
}
