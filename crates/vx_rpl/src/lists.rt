//! The two reference picture lists that the items of a header determine.
ghost use Rattle.std.specs.Prelude.{◌≡◌, filter, length, IfOk};
ghost use Rattle.vx_rpl.specs.HeaderLists as spec;
ghost use Rattle.vx_rpl.specs.HeaderLists.{lists_of};

use crate::entry::{RefEntry, RefList, RefLists, RplTable, Structure, StructureList};
use crate::resolved::{entries, is_of_structure, next_number};
use std::alloc::{AllocError, Global};
use vx_bits::Item;
use vx_fields::pps::pps_rpl1_idx_present_flag;
use vx_fields::rpl::{
    delta_poc_msb_cycle_lt, delta_poc_msb_cycle_present_flag, num_ref_entries, poc_lsb_lt, rpl_idx,
    rpl_sps_flag,
};
use vx_fields::sps::{
    sps_long_term_ref_pics_flag, sps_weighted_bipred_flag, sps_weighted_pred_flag,
};
use vx_table::Scope;

/// Where the structure of a list is.
#[derive(Clone, Copy)]
struct Choice {
    /// rpl_sps_flag: it is in the SPS.
    from_sps: bool,
    /// rpl_idx: its index among the structures of the SPS.
    index: u32,
}

/// The choice before list 0, which inherits nothing.
const NO_CHOICE: Choice = Choice {
    from_sps: false,
    index: 0,
};

/// Returns the items after the next number, if that is one of this field.
fn behind(field: u16, items: &[Item]) -> &[Item]
    ensures { result.now ≡ spec.behind_next field items.now }
{
    match items.split_first() {
        Some((item, rest)) if item.field == field => rest,
        _ => items,
    }
}

/// Returns whether a list's structure is in the SPS, which has `count` for it.
fn is_from_sps(is_spelled: bool, count: usize, taken: Choice, items: &[Item]) -> bool
    ensures { result ≡ spec.is_from_sps is_spelled count taken items.now }
{
    if count == 0 {
        return false;
    }
    if is_spelled {
        next_number(rpl_sps_flag, items) != 0
    } else {
        taken.from_sps
    }
}

/// Returns the index of the structure in the SPS, if it is there.
fn index(is_spelled: bool, count: usize, taken: Choice, items: &[Item]) -> u32
    ensures { result ≡ spec.rpl_index is_spelled count taken items.now }
{
    if count < 2 {
        return 0;
    }
    if is_spelled {
        next_number(rpl_idx, behind(rpl_sps_flag, items))
    } else {
        taken.index
    }
}

/// Returns where the structure of a list is, whose items come first.
fn choose(is_spelled: bool, count: usize, taken: Choice, items: &[Item]) -> Choice
    ensures { result ≡ spec.choice_of is_spelled count taken items.now }
{
    Choice {
        from_sps: is_from_sps(is_spelled, count, taken, items),
        index: index(is_spelled, count, taken, items),
    }
}

/// Returns the items after that.
fn behind_choice(items: &[Item]) -> &[Item]
    ensures { result.now ≡ spec.behind_choice items.now }
{
    behind(rpl_idx, behind(rpl_sps_flag, items))
}

/// Returns the items after those of a structure.
#[tactic(auto, using(crate::proofs::Told::behind_none))]
fn behind_entries(items: &[Item]) -> &[Item]
    ensures { result.now ≡ spec.behind_entries items.now }
{
    let mut left = items;
    while let Some((item, rest)) = left.split_first() {
        if !is_of_structure(*item) {
            return left;
        }
        left = rest;
    }
    left
}

/// Returns the items after a list's own structure, if it has one.
fn behind_own(choice: Choice, items: &[Item]) -> &[Item]
    ensures { result.now ≡ spec.behind_own choice items.now }
{
    if choice.from_sps {
        items
    } else {
        behind_entries(behind(num_ref_entries, items))
    }
}

/// Returns delta_poc_msb_cycle_lt, if it is present.
fn cycle(items: &[Item]) -> Option<u32>
    ensures { result ≡ spec.cycle_of items.now }
{
    if next_number(delta_poc_msb_cycle_present_flag, items) == 0 {
        return None;
    }
    let cycle = next_number(
        delta_poc_msb_cycle_lt,
        behind(delta_poc_msb_cycle_present_flag, items),
    );
    Some(cycle)
}

/// Returns an entry, completed from the next items of the header.
fn entry_told(in_header: bool, entry: RefEntry, items: &[Item]) -> RefEntry
    ensures { result ≡ spec.entry_told in_header entry items.now }
{
    match entry {
        RefEntry::Short { abs, sign } => RefEntry::Short { abs, sign },
        RefEntry::Long { lsb, .. } => RefEntry::Long {
            lsb: if in_header {
                next_number(poc_lsb_lt, items)
            } else {
                lsb
            },
            msb: cycle(behind(poc_lsb_lt, items)),
        },
    }
}

/// Returns the items after these.
fn behind_entry(entry: RefEntry, items: &[Item]) -> &[Item]
    ensures { result.now ≡ spec.behind_entry entry items.now }
{
    match entry {
        RefEntry::Short { .. } => items,
        RefEntry::Long { .. } => behind(
            delta_poc_msb_cycle_lt,
            behind(delta_poc_msb_cycle_present_flag, behind(poc_lsb_lt, items)),
        ),
    }
}

/// Returns the entries of a structure, completed from the next items of the header.
#[tactic(auto, using(crate::proofs::Told::told_more, crate::proofs::Told::told_end))]
fn told(alloc: Global, structure: &Structure, items: &[Item]) -> Result<RefList, AllocError>
    ensures { IfOk result (λ list. list ≡ spec.told structure.now items.now) }
{
    let mut list = RefList::new(alloc);
    let mut left = items;
    for i in 0..structure.entries.len() {
        let entry = structure.entries.item(i);
        list.push(entry_told(structure.in_header, entry, left))?;
        left = behind_entry(entry, left);
    }
    Ok(list)
}

/// Returns the items after those of a list's entries.
#[tactic(auto, using(crate::proofs::Told::behind_more, crate::proofs::Told::behind_end))]
fn behind_told<'a>(list: &RefList, items: &'a [Item]) -> &'a [Item]
    ensures { result.now ≡ spec.behind_told list.now items.now }
{
    let mut left = items;
    for i in 0..list.len() {
        left = behind_entry(list.item(i), left);
    }
    left
}

/// The flags of the sets in force that lists depend on.
#[derive(Clone, Copy)]
struct Kinds {
    weighted: bool,
    long_term: bool,
}

/// Returns the flags of the sets in force.
fn kinds_at(scope: &Scope) -> Kinds
    ensures weighted { result.weighted ≡ spec.may_have_weights scope.now }
    ensures long_term { result.long_term ≡ spec.has_long_term scope.now }
{
    Kinds {
        weighted: scope.latest(sps_weighted_pred_flag) != 0
            || scope.latest(sps_weighted_bipred_flag) != 0,
        long_term: scope.latest(sps_long_term_ref_pics_flag) != 0,
    }
}

/// Returns a list that has its own structure.
fn own_list(alloc: Global, kinds: Kinds, items: &[Item]) -> Result<RefList, AllocError>
    ensures { let spelled = spec.behind_next num_ref_entries items.now in IfOk result (λ list. list ≡ spec.told (spec.own_structure kinds.weighted kinds.long_term spelled) (spec.behind_entries spelled)) }
{
    let spelled = behind(num_ref_entries, items);
    let structure = Structure {
        entries: entries(alloc, kinds.weighted, spelled)?,
        in_header: kinds.long_term,
    };
    told(alloc, &structure, behind_entries(spelled))
}

/// Returns a list whose items after its choice come first.
#[tactic(auto, unfolding(crate::specs::HeaderLists::list_of))]
fn list(
    alloc: Global,
    scope: &Scope,
    structures: &StructureList,
    choice: Choice,
    items: &[Item],
) -> Result<RefList, AllocError>
    ensures { IfOk result (λ list. list ≡ spec.list_of scope.now structures.now choice items.now) }
{
    if !choice.from_sps {
        return own_list(alloc, kinds_at(scope), items);
    }
    match structures.get(choice.index as usize) {
        Some(structure) => told(alloc, structure, items),
        None => Ok(RefList::new(alloc)),
    }
}

/// Returns the items after those of a list.
fn behind_list<'a>(choice: Choice, list: &RefList, items: &'a [Item]) -> &'a [Item]
    ensures { result.now ≡ spec.behind_list choice list.now items.now }
{
    behind_told(list, behind_own(choice, items))
}

/// Returns whether an item belongs to the lists of a header.
fn is_of_lists(item: Item) -> bool
    ensures { result ≡ spec.is_of_lists item }
{
    num_ref_entries <= item.field && item.field <= delta_poc_msb_cycle_lt
}

/// Returns the items of the lists of a header.
fn items_of_lists(alloc: Global, items: &[Item]) -> Result<Vec<Item>, AllocError>
    ensures { IfOk result (λ own. own.items ≡ filter spec.is_of_lists items.now) }
{
    items
        .iter()
        .copied()
        .filter(|item| is_of_lists(*item))
        .collect(alloc)
}

/// Returns the two lists that items of lists determine.
#[tactic(auto, unfolding(crate::specs::HeaderLists::list_0, crate::specs::HeaderLists::behind_list_0, crate::specs::HeaderLists::list_1))]
fn lists(
    alloc: Global,
    table: &RplTable,
    scope: &Scope,
    items: &[Item],
) -> Result<RefLists, AllocError>
    ensures { IfOk result (λ lists. (lists.first ≡ spec.list_0 table.now scope.now items.now) × (lists.second ≡ spec.list_1 table.now scope.now items.now)) }
{
    let choice_0 = choose(true, table.first.len(), NO_CHOICE, items);
    let first = list(alloc, scope, &table.first, choice_0, behind_choice(items))?;
    let left = behind_list(choice_0, &first, behind_choice(items));
    let is_spelled = scope.latest(pps_rpl1_idx_present_flag) != 0;
    let choice_1 = choose(is_spelled, table.second.len(), choice_0, left);
    let second = list(alloc, scope, &table.second, choice_1, behind_choice(left))?;
    Ok(RefLists { first, second })
}

/// Returns the two reference picture lists of a header, from its items and the sets in force (clause 7.4.10).
///
/// `items` may be all items of the header; only those of lists are used. Both lists are empty if it has none. They have
/// AbsDeltaPocSt and the sign of each short-term entry, and the low bits and the cycle of each long-term one. From
/// `scope` it reads sps_long_term_ref_pics_flag, sps_weighted_pred_flag, sps_weighted_bipred_flag and
/// pps_rpl1_idx_present_flag.
///
/// # Errors
///
/// `AllocError` if memory runs out.
#[tactic(auto, unfolding(crate::specs::HeaderLists::lists_of))]
pub fn resolve_lists(
    alloc: Global,
    table: &RplTable,
    scope: &Scope,
    items: &[Item],
) -> Result<RefLists, AllocError>
    ensures { IfOk result (λ lists. lists ≡ lists_of table.now scope.now items.now) }
{
    let own = items_of_lists(alloc, items)?;
    lists(alloc, table, scope, &own)
}
