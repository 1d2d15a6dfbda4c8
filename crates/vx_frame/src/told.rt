//! The lowest source that breaks a rule, and the refusal for it.
ghost use Rattle.std.specs.Prelude.{◌≡◌, ℕ, ◌<◌, ◌≤◌, length};
ghost use Rattle.std.specs.Fn.{FnReturnsAt};
ghost use Rattle.vx_frame.specs.Rounds.{picture_at};
ghost use Rattle.vx_frame.specs.inner.Found as found;

use vx_bits::Refusal;
use vx_pic::Picture;

/// A source, and the field in which it differs from another.
#[derive(Clone, Copy)]
pub(crate) struct Differing {
    /// The source.
    pub(crate) source: u16,
    /// The field.
    pub(crate) field: u16,
}

/// Returns the lowest index below `count` for which `holds` is true.
pub fn lowest_of<F: Fn(usize) -> bool>(count: usize, holds: F) -> Option<u16>
    requires few { count ≤ 65536 }
    requires may { (k : ℕ) → k < count → F.pre holds k }
    ensures { found.IsFirstTold count (F.post holds) result }
{
    for k in 0..count {
        if holds(k) {
            return Some(k as u16);
        }
    }
    None
}

/// Returns the lowest source for whose picture `holds` is true.
pub fn lowest_source<F: Fn(&Picture<'_>) -> bool>(round: &[Picture<'_>], holds: F) -> Option<u16>
    requires few { length round.now ≤ 65536 }
    requires may { F.IsAlwaysCallable holds }
    ensures { found.IsFirstTold (length round.now) (λ k. FnReturnsAt F.Fn holds (picture_at round.now k)) result }
{
    for k in 0..round.len() {
        if holds(&round[k]) {
            return Some(k as u16);
        }
    }
    None
}

/// Returns the refusal by a rule without a field, for the lowest source that breaks it.
pub fn of_source(code: u8, lowest: Option<u16>) -> Option<Refusal>
    ensures { result ≡ found.told_source code lowest }
{
    let source = lowest?;
    Some(Refusal::Merge {
        code,
        source,
        field: 0,
    })
}

/// Returns the refusal by a rule on fields, for the lowest source that breaks it.
pub(crate) fn of_field(code: u8, lowest: Option<Differing>) -> Option<Refusal>
    ensures { result ≡ found.told_field code lowest }
{
    let Differing { source, field } = lowest?;
    Some(Refusal::Merge {
        code,
        source,
        field,
    })
}
