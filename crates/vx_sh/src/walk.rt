//! The walk over a slice header after the id of its subpicture, for every coder.
ghost use Rattle.std.specs.Prelude.{◌≡◌, ℕ};
ghost use Rattle.vx_table.specs.Walks.{Walks, leaving};
ghost use Rattle.vx_table.specs.Parts.{sections_form};
ghost use Rattle.vx_sh.specs.Slice.{with_entry_points, address_form, before_lists, lists_here, between, weights_here, behind_weights, front_form, sh_before_weights, rest_form};

use crate::tables::{
    active_syntax, address_syntax, alignment_syntax, chroma_qp_and_filters_syntax, end_syntax,
    filter_here_syntax, inter_syntax, lists_here_syntax, lmcs_and_scaling_syntax, qp_syntax,
    type_syntax,
};
use vx_fields::alf::*;
use vx_fields::names::ph::FILTER_SET;
use vx_fields::names::rpl::*;
use vx_fields::names::sh::*;
use vx_fields::ph::*;
use vx_fields::pps::*;
use vx_fields::sh::*;
use vx_fields::sps::*;
use vx_ph::alf_syntax;
use vx_rpl::{RplTable, code_lists, code_weights};
use vx_table::by_type::ALWAYS;
use vx_table::{Coder, Rows, Scope, code_section, formula, rows};

/// A source of the numbers of entry points of the slices of a subpicture.
pub trait EntryPoints {
    ghost use Rattle.std.specs.Prelude.{◌≡◌, ℕ};

    ghost points: { Self → ℕ → ℕ };

    /// Returns NumEntryPoints of the slice at an address.
    fn entry_points(&self, address: u32) -> u32
        ensures { result ≡ points self.now address };
}

/// Sets in the scope how many entry points the slice at its address has.
#[tactic(auto, unfolding(crate::specs::Slice::with_entry_points))]
fn count_entry_points<P: EntryPoints>(points: &P, scope: &mut Scope)
    ensures { scope.new ≡ with_entry_points (P.points points.now) scope.old }
{
    let number = points.entry_points(scope.latest(sh_slice_address));
    scope.set(NUM_ENTRY_POINTS, number);
}

/// Codes the address.
fn code_address<I, C: Coder<I>, P: EntryPoints>(
    points: &P,
    scope: &mut Scope,
    coder: &mut C,
    items: &mut I,
) -> Result<(), C::Fault>
    ensures { Walks C.step (address_form (P.points points.now) scope.old) coder.old items.old (leaving scope.new result) coder.new items.new }
{
    let address = address_syntax!(rows);
    address.code(scope, coder, items)?;
    count_entry_points(points, scope);
    Ok(())
}

/// Codes the fields between the address and the lists.
fn code_before_lists<I, C: Coder<I>>(
    scope: &mut Scope,
    coder: &mut C,
    items: &mut I,
) -> Result<(), C::Fault>
    ensures { Walks C.step (sections_form before_lists scope.old) coder.old items.old (leaving scope.new result) coder.new items.new }
{
    code_section(&ALWAYS, &type_syntax!(rows), scope, coder, items)?;
    code_section(&ALWAYS, &filter_here_syntax!(rows), scope, coder, items)?;
    code_section(
        &formula!(by_type HAS_ALF),
        &alf_syntax!(rows),
        scope,
        coder,
        items,
    )?;
    code_section(
        &ALWAYS,
        &lmcs_and_scaling_syntax!(rows),
        scope,
        coder,
        items,
    )?;
    code_section(&ALWAYS, &lists_here_syntax!(rows), scope, coder, items)?;
    Ok(())
}

/// Codes the reference picture lists, if they are in this header.
fn code_lists_here<I, C: Coder<I>>(
    table: &RplTable,
    scope: &mut Scope,
    coder: &mut C,
    items: &mut I,
) -> Result<(), C::Fault>
    ensures { Walks C.step (lists_here table.now scope.old) coder.old items.old (leaving scope.new result) coder.new items.new }
{
    if scope.latest(HAS_LISTS) == 0 {
        return Ok(());
    }
    code_lists(table, scope, coder, items)
}

/// Codes the fields between the lists and prediction weights.
fn code_between<I, C: Coder<I>>(
    scope: &mut Scope,
    coder: &mut C,
    items: &mut I,
) -> Result<(), C::Fault>
    ensures { Walks C.step (sections_form between scope.old) coder.old items.old (leaving scope.new result) coder.new items.new }
{
    code_section(&ALWAYS, &active_syntax!(rows), scope, coder, items)?;
    code_section(&ALWAYS, &inter_syntax!(rows), scope, coder, items)?;
    Ok(())
}

/// Codes prediction weights, if they are in this header.
fn code_weights_here<I, C: Coder<I>>(
    scope: &mut Scope,
    coder: &mut C,
    items: &mut I,
) -> Result<(), C::Fault>
    ensures { Walks C.step (weights_here scope.old) coder.old items.old (leaving scope.new result) coder.new items.new }
{
    if scope.latest(HAS_WEIGHTS) == 0 {
        return Ok(());
    }
    code_weights(scope, coder, items)
}

/// Codes the fields after prediction weights.
fn code_behind_weights<I, C: Coder<I>>(
    scope: &mut Scope,
    coder: &mut C,
    items: &mut I,
) -> Result<(), C::Fault>
    ensures { Walks C.step (sections_form behind_weights scope.old) coder.old items.old (leaving scope.new result) coder.new items.new }
{
    code_section(&ALWAYS, &qp_syntax!(rows), scope, coder, items)?;
    code_section(
        &ALWAYS,
        &chroma_qp_and_filters_syntax!(rows),
        scope,
        coder,
        items,
    )?;
    code_section(&ALWAYS, &end_syntax!(rows), scope, coder, items)?;
    code_section(&ALWAYS, &alignment_syntax!(rows), scope, coder, items)?;
    Ok(())
}

/// Codes the fields before the lists.
#[tactic(auto, unfolding(crate::specs::Slice::front_form), using(vx_table::proofs::Steps::then, vx_table::proofs::Steps::stop))]
fn code_front<I, C: Coder<I>, P: EntryPoints>(
    points: &P,
    scope: &mut Scope,
    coder: &mut C,
    items: &mut I,
) -> Result<(), C::Fault>
    ensures { Walks C.step (front_form (P.points points.now) scope.old) coder.old items.old (leaving scope.new result) coder.new items.new }
{
    code_address(points, scope, coder, items)?;
    code_before_lists(scope, coder, items)
}

/// Codes the fields before prediction weights.
#[tactic(auto, unfolding(crate::specs::Slice::sh_before_weights), using(vx_table::proofs::Steps::then, vx_table::proofs::Steps::stop))]
fn code_before_weights<I, C: Coder<I>, P: EntryPoints>(
    table: &RplTable,
    points: &P,
    scope: &mut Scope,
    coder: &mut C,
    items: &mut I,
) -> Result<(), C::Fault>
    ensures { Walks C.step (sh_before_weights table.now (P.points points.now) scope.old) coder.old items.old (leaving scope.new result) coder.new items.new }
{
    code_front(points, scope, coder, items)?;
    code_lists_here(table, scope, coder, items)?;
    code_between(scope, coder, items)
}

/// Codes a slice header, `slice_header()` (clause 7.3.7), after the id of its subpicture, with its alignment.
///
/// The scope has the numbers of the sets and the picture header in force, and `table` is the SPS's.
///
/// # Errors
///
/// The coder's error at the first field that it refuses.
#[tactic(auto, unfolding(crate::specs::Slice::rest_form), using(vx_table::proofs::Steps::then, vx_table::proofs::Steps::stop))]
pub fn code_rest<I, C: Coder<I>, P: EntryPoints>(
    table: &RplTable,
    points: &P,
    scope: &mut Scope,
    coder: &mut C,
    items: &mut I,
) -> Result<(), C::Fault>
    ensures { Walks C.step (rest_form table.now (P.points points.now) scope.old) coder.old items.old (leaving scope.new result) coder.new items.new }
{
    code_before_weights(table, points, scope, coder, items)?;
    code_weights_here(scope, coder, items)?;
    code_behind_weights(scope, coder, items)
}
