//! Numbers, flags and tables of a picture parameter set, for every coder.
ghost use Rattle.std.specs.Prelude.{◌≡◌, ℕ, pos, ◌<◌, ◌≤◌, false, IfOk, None};
ghost use Rattle.vx_table.specs.Forms.{form_of};
ghost use Rattle.vx_table.specs.Parts.{parts_form};
ghost use Rattle.vx_table.specs.Spelling as spelling;
ghost use Rattle.vx_table.specs.Walks.{leaving};
ghost use Rattle.vx_pps.specs.Slices.{below, golomb_form};
ghost use Rattle.vx_pps.specs.Partition.{golomb_below, fixed_form};
ghost use Rattle.vx_pps.specs.inner.Walked.{Walked};

use crate::halt::Halt;
use vx_table::{Cell, Coder, Coding, Fault, Limits, Part, Scope, code_parts, natural};

/// Returns the range of the values below a bound.
pub(crate) const fn below(bound: u32) -> Limits<u32>
    ensures { result ≡ below bound }
{
    Limits::Below {
        bound,
        fault: Fault::OutOfRange,
    }
}

/// Codes a number of ue(v), in a range.
pub(crate) fn code_number<I, C: Coder<I>>(
    field: u16,
    limits: Limits<u32>,
    coder: &mut C,
    items: &mut I,
) -> Result<u32, Halt<C::Fault>>
    ensures walk { Walked C.step (golomb_form field limits) coder.old items.old result coder.new items.new }
    ensures range { IfOk result (λ n. spelling.fault_of limits (pos n) ≡ None) }
{
    let cell = Cell {
        field,
        kept: false,
        coding: Coding::Golomb,
        limits,
    };
    match coder.code(items, cell) {
        Ok(value) => Ok(natural(value)),
        Err(fault) => Err(Halt::Refused(fault)),
    }
}

/// Codes a number of ue(v), below a bound.
#[tactic(auto, unfolding(crate::specs::Partition::golomb_below))]
pub(crate) fn code_below<I, C: Coder<I>>(
    field: u16,
    bound: u32,
    coder: &mut C,
    items: &mut I,
) -> Result<u32, Halt<C::Fault>>
    ensures walk { Walked C.step (golomb_below field bound) coder.old items.old result coder.new items.new }
    ensures range { IfOk result (λ n. n < bound) }
{
    code_number(field, below(bound), coder, items)
}

/// Codes a number of u(n), in a range.
pub(crate) fn code_fixed<I, C: Coder<I>>(
    field: u16,
    bits: u32,
    limits: Limits<u32>,
    coder: &mut C,
    items: &mut I,
) -> Result<u32, Halt<C::Fault>>
    requires { bits ≤ 32 }
    ensures walk { Walked C.step (fixed_form field bits limits) coder.old items.old result coder.new items.new }
    ensures range { IfOk result (λ n. spelling.fault_of limits (pos n) ≡ None) }
{
    let cell = Cell {
        field,
        kept: false,
        coding: Coding::Fixed(bits),
        limits,
    };
    match coder.code(items, cell) {
        Ok(value) => Ok(natural(value)),
        Err(fault) => Err(Halt::Refused(fault)),
    }
}

/// Codes tables, one after another.
pub(crate) fn code_sections<I, C: Coder<I>>(
    parts: &[Part<'_>],
    scope: &mut Scope,
    coder: &mut C,
    items: &mut I,
) -> Result<(), Halt<C::Fault>>
    ensures { Walked C.step (parts_form parts.now scope.old) coder.old items.old (leaving scope.new result) coder.new items.new }
{
    match code_parts(parts, scope, coder, items) {
        Ok(()) => Ok(()),
        Err(fault) => Err(Halt::Refused(fault)),
    }
}
