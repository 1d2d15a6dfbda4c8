//! A structure of a table, a part in direct style and a table, and claims on it.
//!
//! One walk reads, skips, writes, sifts and rewrites it.
#![allow(non_upper_case_globals)]

ghost use Rattle.std.specs.Prelude.{◌≡◌};
ghost use Rattle.vx_table.specs.Walks.{Walks, leaving};
ghost use Rattle.vx_table.specs.Reading.{Reads, PassesOver};
ghost use Rattle.vx_table.specs.Writing.{Writes};
ghost use Rattle.vx_table.specs.Kept.{Keeps};
ghost use Rattle.vx_table.specs.Rewritten.{RewritesInto};
ghost use Rattle.vx_calls.specs.Composite as example;
ghost use Rattle.vx_calls.specs.Composite.{one_share, shares_of, composite, CompositeDepends, WrongClaimsFail, CompositeIsRewritten};
ghost use Rattle.vx_calls.specs.declared.composite.TheConstants.{FRONT, BEHIND};

use vx_bits::{BitReader, BitWriter, Fields, ReadError, Refusal};
use vx_table::{
    Cell, Coder, Coding, Fault, Limits, Rewriter, Row, Scope, SpellError, Unwritten, code_table,
    natural, table,
};

const shares: u16 = 30;

const total: u16 = 31;

const mode: u16 = 32;

const share: u16 = 33;

const level: u16 = 34;

const tail: u16 = 35;

const trailing_bits: u16 = 36;

const FRONT: [Row; 3] = table! { shares: u(3) in 0..=4; total: u(5); mode; };

const BEHIND: [Row; 4] = table! {
    if mode { level: u(shares); }
    tail*: ue;
    trailing trailing_bits;
};

/// Returns the cell of a share of what is left.
const fn share_cell(left: u32) -> Cell<u32>
    ensures { result ≡ example.share left }
{
    Cell {
        field: share,
        kept: true,
        coding: Coding::Golomb,
        limits: Limits::Below {
            bound: left,
            fault: Fault::OutOfRange,
        },
    }
}

/// Codes one share, and gives what it leaves.
fn code_share<I, C: Coder<I>>(left: u32, coder: &mut C, items: &mut I) -> Result<u32, C::Fault>
    ensures { Walks C.step (one_share left) coder.old items.old result coder.new items.new }
{
    let value = coder.code(items, share_cell(left))?;
    let rest = left.saturating_sub(natural(value));
    Ok(rest.saturating_sub(1))
}

/// Codes the shares that the scope asks for.
fn code_shares<I, C: Coder<I>>(scope: &Scope, coder: &mut C, items: &mut I) -> Result<(), C::Fault>
    ensures { Walks C.step (shares_of scope.now) coder.old items.old (leaving scope.now result) coder.new items.new }
{
    let mut left = scope.latest(total);
    for turn in 0..scope.latest(shares) {
        left = code_share(left, coder, items)?;
    }
    Ok(())
}

/// Walks over the structure, for every coder.
#[tactic(auto, unfolding(crate::specs::Composite::composite), using(vx_table::proofs::Steps::then, vx_table::proofs::Steps::stop))]
fn code_composite<I, C: Coder<I>>(
    scope: &mut Scope,
    coder: &mut C,
    items: &mut I,
) -> Result<(), C::Fault>
    ensures { Walks C.step (composite FRONT BEHIND scope.old) coder.old items.old (leaving scope.new result) coder.new items.new }
{
    code_table(&FRONT, scope, coder, items)?;
    code_shares(scope, coder, items)?;
    code_table(&BEHIND, scope, coder, items)
}

pub(crate) fn read(
    scope: &mut Scope,
    bits: &mut BitReader<'_>,
    items: &mut Fields,
) -> Result<(), ReadError>
    ensures { Reads (composite FRONT BEHIND scope.old) bits.old items.old result bits.new items.new }
{
    code_composite(scope, bits, items)
}

pub(crate) fn pass(scope: &mut Scope, bits: &mut BitReader<'_>) -> Result<(), Refusal>
    ensures { PassesOver (composite FRONT BEHIND scope.old) bits.old result bits.new }
{
    code_composite(scope, bits, &mut ())
}

pub(crate) fn write(
    scope: &mut Scope,
    bits: &mut BitWriter,
    items: &mut Unwritten<'_>,
) -> Result<(), SpellError>
    ensures { Writes (composite FRONT BEHIND scope.old) bits.old items.old result bits.new items.new }
{
    code_composite(scope, bits, items)
}

pub(crate) fn keep(
    scope: &mut Scope,
    items: &mut Unwritten<'_>,
    into: &mut Fields,
) -> Result<(), SpellError>
    ensures { Keeps (composite FRONT BEHIND scope.old) into.old items.old result into.new items.new }
{
    code_composite(scope, items, into)
}

pub(crate) fn rewrite(
    scope: &mut Scope,
    rewriter: &mut Rewriter<'_>,
    into: &mut Fields,
) -> Result<(), SpellError>
    ensures { RewritesInto (composite FRONT BEHIND scope.old) rewriter.old into.old result rewriter.new into.new }
{
    code_composite(scope, rewriter, into)
}

/// States what its fields depend on, by the laws of its parts; and that the test refuses wrong claims.
pub(crate) fn composite_depends()
    ensures right { CompositeDepends FRONT BEHIND }
    ensures wrong { WrongClaimsFail FRONT BEHIND }
{}

/// States that it can be rewritten with other shares.
pub(crate) fn composite_is_rewritten()
    ensures { CompositeIsRewritten FRONT BEHIND }
{}
