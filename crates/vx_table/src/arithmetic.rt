//! The operations of formulas, in 32 bits.

ghost use Rattle.std.specs.Prelude.{◌≡◌, ℕ, ◌+◌, ◌-◌, ◌^◌, ◌<◌, ◌≤◌, cond, nat_lt};
ghost use Rattle.vx_table.specs.Scope as numbers;

/// Returns the number that formulas see for a field's value.
#[tactic(auto, unfolding(crate::specs::Scope::natural))]
#[inline(always)]
pub fn natural(value: i64) -> u32
    ensures { result ≡ numbers.natural value }
{
    value.max(0).min(i64::from(u32::MAX)) as u32
}

/// Returns the quotient, rounded up, or 0 if the divisor is 0.
pub fn quotient(n: u32, divisor: u32) -> u32
    ensures { result ≡ numbers.quotient n divisor }
{
    if divisor == 0 { 0 } else { n.div_ceil(divisor) }
}

/// Returns 2 to the power of `n`, if 32 bits hold it.
pub(crate) fn power_of_two(n: u32) -> u32
    ensures { result ≡ cond (nat_lt n 32) (2 ^ n) numbers.most }
{
    if n < 32 { 1 << n } else { u32::MAX }
}

/// Returns Ceil(Log2(n)): the number of powers of two below `n`.
pub fn ceil_log2(n: u32) -> u32
    ensures { result ≡ numbers.powers_below 32 n }
{
    if n <= 1 {
        0
    } else {
        32 - (n - 1).leading_zeros()
    }
}
