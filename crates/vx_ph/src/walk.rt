//! The walk over a picture header, for every coder.
ghost use Rattle.std.specs.Prelude.{◌≡◌};
ghost use Rattle.vx_table.specs.Walks.{Walks, leaving};
ghost use Rattle.vx_table.specs.Parts.{sections_form};
ghost use Rattle.vx_ph.specs.Header.{ph_before_lists, lists_if_present, middle, weights_if_present, back, ph_before_weights, header_form};
ghost use Rattle.vx_ph.specs.Id.{to_id};
ghost use Rattle.vx_ph.specs.Picture.{unit_form};

use crate::alf_syntax;
use crate::tables::{
    TRAILING, filters_syntax, inter_syntax, intra_syntax, lmcs_and_scaling_syntax,
    order_count_syntax, output_syntax, picture_syntax, pps_id_syntax, qp_syntax,
};
use vx_fields::alf::*;
use vx_fields::names::ph::*;
use vx_fields::names::rpl::*;
use vx_fields::ph::*;
use vx_fields::pps::*;
use vx_fields::sps::*;
use vx_rpl::{RplTable, code_lists, code_weights};
use vx_table::by_type::ALWAYS;
use vx_table::{Coder, Scope, code_section, code_table, formula, rows};

/// Codes the fields up to the id of the PPS.
pub(crate) fn code_to_id<I, C: Coder<I>>(
    scope: &mut Scope,
    coder: &mut C,
    items: &mut I,
) -> Result<(), C::Fault>
    ensures { Walks C.step (sections_form to_id scope.old) coder.old items.old (leaving scope.new result) coder.new items.new }
{
    code_section(&ALWAYS, &picture_syntax!(rows), scope, coder, items)?;
    code_section(&ALWAYS, &pps_id_syntax!(rows), scope, coder, items)?;
    Ok(())
}

/// Codes the fields before the reference picture lists.
fn code_front<I, C: Coder<I>>(
    scope: &mut Scope,
    coder: &mut C,
    items: &mut I,
) -> Result<(), C::Fault>
    ensures { Walks C.step (sections_form ph_before_lists scope.old) coder.old items.old (leaving scope.new result) coder.new items.new }
{
    code_section(&ALWAYS, &picture_syntax!(rows), scope, coder, items)?;
    code_section(&ALWAYS, &pps_id_syntax!(rows), scope, coder, items)?;
    code_section(&ALWAYS, &order_count_syntax!(rows), scope, coder, items)?;
    code_section(
        &formula!(by_type (sps_alf_enabled_flag and pps_alf_info_in_ph_flag)),
        &alf_syntax!(rows),
        scope,
        coder,
        items,
    )?;
    code_section(
        &ALWAYS,
        &lmcs_and_scaling_syntax!(rows),
        scope,
        coder,
        items,
    )?;
    code_section(&ALWAYS, &output_syntax!(rows), scope, coder, items)?;
    Ok(())
}

/// Codes the reference picture lists, if the header has them.
#[tactic(auto, unfolding(vx_table::specs::Forms::present, vx_table::specs::Scope::value))]
fn code_lists_if_present<I, C: Coder<I>>(
    table: &RplTable,
    scope: &mut Scope,
    coder: &mut C,
    items: &mut I,
) -> Result<(), C::Fault>
    ensures { Walks C.step (lists_if_present table.now scope.old) coder.old items.old (leaving scope.new result) coder.new items.new }
{
    if scope.latest(pps_rpl_info_in_ph_flag) == 0 {
        return Ok(());
    }
    code_lists(table, scope, coder, items)
}

/// Codes the fields between the lists and prediction weights.
fn code_middle<I, C: Coder<I>>(
    scope: &mut Scope,
    coder: &mut C,
    items: &mut I,
) -> Result<(), C::Fault>
    ensures { Walks C.step (sections_form middle scope.old) coder.old items.old (leaving scope.new result) coder.new items.new }
{
    code_section(&ALWAYS, &intra_syntax!(rows), scope, coder, items)?;
    code_section(&ALWAYS, &inter_syntax!(rows), scope, coder, items)?;
    Ok(())
}

/// Codes prediction weights, if the header has them.
#[tactic(auto, unfolding(vx_table::specs::Forms::present, vx_table::specs::Scope::value))]
fn code_weights_if_present<I, C: Coder<I>>(
    scope: &mut Scope,
    coder: &mut C,
    items: &mut I,
) -> Result<(), C::Fault>
    ensures { Walks C.step (weights_if_present scope.old) coder.old items.old (leaving scope.new result) coder.new items.new }
{
    if scope.latest(HAS_WEIGHTS) == 0 {
        return Ok(());
    }
    code_weights(scope, coder, items)
}

/// Codes the fields after prediction weights.
fn code_back<I, C: Coder<I>>(
    scope: &mut Scope,
    coder: &mut C,
    items: &mut I,
) -> Result<(), C::Fault>
    ensures { Walks C.step (sections_form back scope.old) coder.old items.old (leaving scope.new result) coder.new items.new }
{
    code_section(&ALWAYS, &qp_syntax!(rows), scope, coder, items)?;
    code_section(&ALWAYS, &filters_syntax!(rows), scope, coder, items)?;
    Ok(())
}

/// Codes the fields before prediction weights.
#[tactic(auto, unfolding(crate::specs::Header::ph_before_weights), using(vx_table::proofs::Steps::then, vx_table::proofs::Steps::stop))]
fn code_before_weights<I, C: Coder<I>>(
    table: &RplTable,
    scope: &mut Scope,
    coder: &mut C,
    items: &mut I,
) -> Result<(), C::Fault>
    ensures { Walks C.step (ph_before_weights table.now scope.old) coder.old items.old (leaving scope.new result) coder.new items.new }
{
    code_front(scope, coder, items)?;
    code_lists_if_present(table, scope, coder, items)?;
    code_middle(scope, coder, items)
}

/// Codes a picture header, `picture_header_structure()` (clause 7.3.2.8), without trailing bits.
///
/// The scope has the numbers of the sets in force, and `table` is the SPS's.
///
/// # Errors
///
/// The coder's error at the first field that it refuses.
#[tactic(auto, unfolding(crate::specs::Header::header_form), using(vx_table::proofs::Steps::then, vx_table::proofs::Steps::stop))]
pub fn code_header<I, C: Coder<I>>(
    table: &RplTable,
    scope: &mut Scope,
    coder: &mut C,
    items: &mut I,
) -> Result<(), C::Fault>
    ensures { Walks C.step (header_form table.now scope.old) coder.old items.old (leaving scope.new result) coder.new items.new }
{
    code_before_weights(table, scope, coder, items)?;
    code_weights_if_present(scope, coder, items)?;
    code_back(scope, coder, items)
}

/// Codes a picture header that is a unit of its own, `picture_header_rbsp()` (clause 7.3.2.7).
#[tactic(auto, unfolding(crate::specs::Picture::unit_form), using(vx_table::proofs::Steps::then, vx_table::proofs::Steps::stop))]
pub(crate) fn code_unit<I, C: Coder<I>>(
    table: &RplTable,
    scope: &mut Scope,
    coder: &mut C,
    items: &mut I,
) -> Result<(), C::Fault>
    ensures { Walks C.step (unit_form table.now scope.old) coder.old items.old (leaving scope.new result) coder.new items.new }
{
    code_header(table, scope, coder, items)?;
    code_table(&TRAILING, scope, coder, items)
}
