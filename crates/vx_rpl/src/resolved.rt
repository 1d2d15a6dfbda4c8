//! The entries that the items of list structures determine.
ghost use Rattle.std.specs.Prelude.{◌≡◌, ◌≤◌, length, take, drop, filter, IfOk, option_copied};
ghost use Rattle.vx_fields.specs.declared.sps.TheConstants.{sps_num_ref_pic_lists};
ghost use Rattle.vx_rpl.specs.Resolved as spec;

use crate::entry::{RefEntry, RefList, RplTable, Structure, StructureList};
use std::alloc::{AllocError, Global};
use vx_bits::Item;
use vx_fields::rpl::{
    abs_delta_poc_st, ltrp_in_header_flag, num_ref_entries, rpls_poc_lsb_lt, st_ref_pic_flag,
    strp_entry_sign_flag,
};
use vx_fields::sps::sps_num_ref_pic_lists;
use vx_table::natural;

/// Returns the next number if it is one of this field, and otherwise 0.
pub(crate) fn next_number(field: u16, items: &[Item]) -> u32
    ensures { result ≡ spec.next_number field items.now }
{
    match items.first() {
        Some(item) if item.field == field => natural(item.value),
        _ => 0,
    }
}

/// Returns AbsDeltaPocSt of entry `i` (clause 7.4.11).
fn abs_delta(weighted: bool, i: usize, value: u32) -> u32
    ensures { result ≡ spec.abs_delta weighted i value }
{
    if weighted && i > 0 {
        value
    } else {
        value.saturating_add(1)
    }
}

/// Returns whether an entry begins with this item.
fn begins_entry(item: Item) -> bool
    ensures { result ≡ spec.begins_entry item }
{
    item.field == abs_delta_poc_st || (item.field == st_ref_pic_flag && natural(item.value) == 0)
}

/// Returns whether an item belongs to a structure, after its number of entries.
pub(crate) fn is_of_structure(item: Item) -> bool
    ensures { result ≡ spec.is_of_structure item }
{
    ltrp_in_header_flag <= item.field && item.field <= rpls_poc_lsb_lt
}

/// Returns the entry that begins with an item.
fn entry_of(weighted: bool, i: usize, item: Item, rest: &[Item]) -> RefEntry
    ensures { result ≡ spec.entry_of weighted i item rest.now }
{
    if item.field == abs_delta_poc_st {
        RefEntry::Short {
            abs: abs_delta(weighted, i, natural(item.value)),
            sign: next_number(strp_entry_sign_flag, rest) != 0,
        }
    } else {
        RefEntry::Long {
            lsb: next_number(rpls_poc_lsb_lt, rest),
            msb: None,
        }
    }
}

/// Returns the entries of a structure whose items after its number of entries come first.
#[tactic(auto, using(crate::proofs::Entries::entries_stop, crate::proofs::Entries::entries_pushed, crate::proofs::Entries::entries_passed))]
pub(crate) fn entries(alloc: Global, weighted: bool, items: &[Item]) -> Result<RefList, AllocError>
    ensures { IfOk result (λ list. list ≡ take 29 (spec.entries_from weighted 0 items.now)) }
{
    let mut list = RefList::new(alloc);
    let mut left = items;
    while let Some((item, rest)) = left.split_first() {
        if !is_of_structure(*item) {
            return Ok(list);
        }
        if list.len() == 29 {
            return Ok(list);
        }
        if begins_entry(*item) {
            list.push(entry_of(weighted, list.len(), *item, rest))?;
        }
        left = rest;
    }
    Ok(list)
}

/// Returns the items after the first one of a field, if there is one.
fn past(field: u16, items: &[Item]) -> Option<&[Item]>
    ensures { option_copied result ≡ spec.past field items.now }
{
    let mut left = items;
    while let Some((item, rest)) = left.split_first() {
        if item.field == field {
            return Some(rest);
        }
        left = rest;
    }
    None
}

/// Returns the structure whose items after its number of entries come first.
fn structure(alloc: Global, weighted: bool, items: &[Item]) -> Result<Structure, AllocError>
    ensures { IfOk result (λ structure. structure ≡ spec.structure_of weighted items.now) }
{
    let entries = entries(alloc, weighted, items)?;
    Ok(Structure {
        entries,
        in_header: next_number(ltrp_in_header_flag, items) != 0,
    })
}

/// Returns the structures up to the next number of structures.
fn structures(alloc: Global, weighted: bool, items: &[Item]) -> Result<StructureList, AllocError>
    ensures { IfOk result (λ list. list ≡ take 64 (spec.structures_from weighted items.now)) }
{
    let mut list = StructureList::new(alloc);
    let mut left = items;
    while let Some((item, rest)) = left.split_first() {
        if item.field == sps_num_ref_pic_lists {
            return Ok(list);
        }
        if list.len() == 64 {
            return Ok(list);
        }
        if item.field == num_ref_entries {
            list.push(structure(alloc, weighted, rest)?)?;
        }
        left = rest;
    }
    Ok(list)
}

/// Returns whether an item belongs to the structures of an SPS, or is their number.
fn is_of_table(item: Item) -> bool
    ensures { result ≡ spec.is_of_table item }
{
    item.field == sps_num_ref_pic_lists
        || (num_ref_entries <= item.field && item.field <= rpls_poc_lsb_lt)
}

/// Returns the items of the structures of an SPS.
fn items_of_table(alloc: Global, items: &[Item]) -> Result<Vec<Item>, AllocError>
    ensures { IfOk result (λ own. own.items ≡ filter spec.is_of_table items.now) }
{
    items
        .iter()
        .copied()
        .filter(|item| is_of_table(*item))
        .collect(alloc)
}

/// Returns the structures of an SPS, for each list, that its items determine.
#[tactic(auto, unfolding(crate::specs::Resolved::table_of))]
pub(crate) fn table(alloc: Global, weighted: bool, items: &[Item]) -> Result<RplTable, AllocError>
    ensures { IfOk result (λ table. table ≡ spec.table_of weighted items.now) }
{
    let own = items_of_table(alloc, items)?;
    both(alloc, weighted, &own)
}

/// Returns the structures that items of structures determine.
fn both(alloc: Global, weighted: bool, items: &[Item]) -> Result<RplTable, AllocError>
    ensures { IfOk result (λ table. table ≡ spec.both_of weighted items.now) }
{
    let first = first_structures(alloc, weighted, items)?;
    let second = second_structures(alloc, weighted, items)?;
    Ok(RplTable { first, second })
}

/// Returns the structures of list 0.
fn first_structures(
    alloc: Global,
    weighted: bool,
    items: &[Item],
) -> Result<StructureList, AllocError>
    ensures { IfOk result (λ list. list ≡ spec.list_0_structures weighted items.now) }
{
    match past(sps_num_ref_pic_lists, items) {
        None => Ok(StructureList::new(alloc)),
        Some(behind) => structures(alloc, weighted, behind),
    }
}

/// Returns the structures of list 1, which are list 0's if it has no number of its own.
fn second_structures(
    alloc: Global,
    weighted: bool,
    items: &[Item],
) -> Result<StructureList, AllocError>
    ensures { IfOk result (λ list. list ≡ spec.second_of weighted items.now) }
{
    match behind_second(items) {
        None => first_structures(alloc, weighted, items),
        Some(behind) => structures(alloc, weighted, behind),
    }
}

/// Returns the items after the second number of structures, if there is one.
fn behind_second(items: &[Item]) -> Option<&[Item]>
    ensures { option_copied result ≡ spec.behind_second (spec.past sps_num_ref_pic_lists items.now) }
{
    past(sps_num_ref_pic_lists, past(sps_num_ref_pic_lists, items)?)
}
