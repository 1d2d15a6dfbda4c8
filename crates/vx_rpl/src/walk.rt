//! The walks over the lists of a header and over weights, for every coder.
ghost use Rattle.std.specs.Prelude.{◌≡◌, true, false, length, count_by, Some};
ghost use Rattle.vx_table.specs.Walks.{Walks, leaving};
ghost use Rattle.vx_table.specs.Parts.{sections_form};
ghost use Rattle.vx_rpl.specs.Lists.{begun, behind_structure, choice_form, chosen_form, first_form, is_long, list_form, lists_form, own_and_long_term, picked, second_form, weights_form};

use crate::entry::{RefList, RplTable, Structure, StructureList};
use crate::tables::{
    WEIGHTS, WEIGHTS_0, WEIGHTS_1, before_list_0_syntax, behind_list_0_syntax,
    behind_list_1_syntax, choice_syntax, long_term_syntax, ref_pic_list_struct_syntax,
};
use vx_bits::rules::TOO_MANY_ENTRIES;
use vx_fields::names::rpl::*;
use vx_fields::pps::*;
use vx_fields::rpl::*;
use vx_fields::sps::*;
use vx_table::by_type::ALWAYS;
use vx_table::{Coder, Rows, Scope, code_parts, code_section, formula, parts, rows};

/// Sets in the scope which list comes, and how many structures the SPS has for it.
#[tactic(auto, unfolding(crate::specs::Lists::begun))]
fn begin(is_list_0: bool, structures: &StructureList, scope: &mut Scope)
    ensures { scope.new ≡ begun is_list_0 structures.now scope.old }
{
    scope.set(IS_LIST_0, u32::from(is_list_0));
    scope.set(NUM_STRUCTURES, structures.len() as u32);
}

/// Returns the number of long-term entries.
#[tactic(auto, using(crate::proofs::Counted::count_more))]
fn long_entries(list: &RefList) -> u32
    ensures { result ≡ count_by is_long list.now }
{
    let mut count = 0;
    for i in 0..list.len() {
        count += u32::from(list.item(i).is_long());
    }
    count
}

/// Sets the numbers that the scope would have after a structure.
fn take_structure(structure: &Structure, scope: &mut Scope)
    ensures { scope.new ≡ behind_structure (Some structure.now) scope.old }
{
    scope.set(num_ref_entries, structure.entries.len() as u32);
    scope.set(ltrp_in_header_flag, u32::from(structure.in_header));
    scope.set(LONG_ENTRIES, long_entries(&structure.entries));
}

/// Takes over the structure of the SPS that the list names, if it names one.
#[tactic(auto, unfolding(crate::specs::Lists::picked))]
fn pick(structures: &StructureList, scope: &mut Scope)
    ensures { scope.new ≡ picked structures.now scope.old }
{
    if scope.latest(rpl_sps_flag) == 0 {
        return;
    }
    if let Some(structure) = structures.get(scope.latest(rpl_idx) as usize) {
        take_structure(structure, scope);
    }
}

/// Codes where the structure of a list is.
fn code_choice<I, C: Coder<I>>(
    is_list_0: bool,
    structures: &StructureList,
    scope: &mut Scope,
    coder: &mut C,
    items: &mut I,
) -> Result<(), C::Fault>
    ensures { Walks C.step (choice_form is_list_0 structures.now scope.old) coder.old items.old (leaving scope.new result) coder.new items.new }
{
    begin(is_list_0, structures, scope);
    let choice = choice_syntax!(rows);
    choice.code(scope, coder, items)
}

/// Codes the structure of a list, if it is the list's own, and the header's fields for the long-term entries.
fn code_structure<I, C: Coder<I>>(
    scope: &mut Scope,
    coder: &mut C,
    items: &mut I,
) -> Result<(), C::Fault>
    ensures { Walks C.step (sections_form own_and_long_term scope.old) coder.old items.old (leaving scope.new result) coder.new items.new }
{
    code_section(
        &formula!(by_type (not rpl_sps_flag)),
        &ref_pic_list_struct_syntax!(rows),
        scope,
        coder,
        items,
    )?;
    code_section(&ALWAYS, &long_term_syntax!(rows), scope, coder, items)?;
    Ok(())
}

/// Codes the structure of a list that has its own, and the header's fields for the long-term entries.
fn code_chosen<I, C: Coder<I>>(
    structures: &StructureList,
    scope: &mut Scope,
    coder: &mut C,
    items: &mut I,
) -> Result<(), C::Fault>
    ensures { Walks C.step (chosen_form structures.now scope.old) coder.old items.old (leaving scope.new result) coder.new items.new }
{
    pick(structures, scope);
    code_structure(scope, coder, items)
}

/// Codes a list of a header (clause 7.3.9).
#[tactic(auto, unfolding(crate::specs::Lists::list_form), using(vx_table::proofs::Steps::then, vx_table::proofs::Steps::stop))]
fn code_list<I, C: Coder<I>>(
    is_list_0: bool,
    structures: &StructureList,
    scope: &mut Scope,
    coder: &mut C,
    items: &mut I,
) -> Result<(), C::Fault>
    ensures { Walks C.step (list_form is_list_0 structures.now scope.old) coder.old items.old (leaving scope.new result) coder.new items.new }
{
    code_choice(is_list_0, structures, scope, coder, items)?;
    code_chosen(structures, scope, coder, items)
}

/// Codes list 0 of a header (clause 7.3.9).
///
/// # Errors
///
/// The coder's error at the first field that it refuses.
#[tactic(auto, unfolding(crate::specs::Lists::first_form), using(vx_table::proofs::Steps::then, vx_table::proofs::Steps::stop))]
pub fn code_first<I, C: Coder<I>>(
    structures: &StructureList,
    scope: &mut Scope,
    coder: &mut C,
    items: &mut I,
) -> Result<(), C::Fault>
    ensures { Walks C.step (first_form structures.now scope.old) coder.old items.old (leaving scope.new result) coder.new items.new }
{
    let before = before_list_0_syntax!(rows);
    before.code(scope, coder, items)?;
    code_list(true, structures, scope, coder, items)?;
    let behind = behind_list_0_syntax!(rows);
    behind.code(scope, coder, items)
}

/// Codes list 1 of a header, after list 0 (clause 7.3.9).
///
/// # Errors
///
/// The coder's error at the first field that it refuses.
#[tactic(auto, unfolding(crate::specs::Lists::second_form), using(vx_table::proofs::Steps::then, vx_table::proofs::Steps::stop))]
pub fn code_second<I, C: Coder<I>>(
    structures: &StructureList,
    scope: &mut Scope,
    coder: &mut C,
    items: &mut I,
) -> Result<(), C::Fault>
    ensures { Walks C.step (second_form structures.now scope.old) coder.old items.old (leaving scope.new result) coder.new items.new }
{
    code_list(false, structures, scope, coder, items)?;
    let behind = behind_list_1_syntax!(rows);
    behind.code(scope, coder, items)
}

/// Codes the two lists of a header, `ref_pic_lists()` (clause 7.3.9).
///
/// # Errors
///
/// The coder's error at the first field that it refuses.
#[tactic(auto, unfolding(crate::specs::Lists::lists_form), using(vx_table::proofs::Steps::then, vx_table::proofs::Steps::stop))]
pub fn code_lists<I, C: Coder<I>>(
    table: &RplTable,
    scope: &mut Scope,
    coder: &mut C,
    items: &mut I,
) -> Result<(), C::Fault>
    ensures { Walks C.step (lists_form table.now scope.old) coder.old items.old (leaving scope.new result) coder.new items.new }
{
    code_first(&table.first, scope, coder, items)?;
    code_second(&table.second, scope, coder, items)
}

/// Codes prediction weights, `pred_weight_table()` (clause 7.3.8).
///
/// # Errors
///
/// The coder's error at the first field that it refuses.
pub fn code_weights<I, C: Coder<I>>(
    scope: &mut Scope,
    coder: &mut C,
    items: &mut I,
) -> Result<(), C::Fault>
    ensures { Walks C.step (weights_form scope.old) coder.old items.old (leaving scope.new result) coder.new items.new }
{
    code_parts(
        &parts![WEIGHTS_0, WEIGHTS, WEIGHTS_1, WEIGHTS],
        scope,
        coder,
        items,
    )
}
