//! Writing of a structure, the lists of a header and weights.
ghost use Rattle.std.specs.Prelude.{◌≡◌, ◌≤◌, length, slice_range};
ghost use Rattle.vx_table.specs.Forms.{form_of};
ghost use Rattle.vx_rpl.specs.declared.tables.TheConstants.{REF_PIC_LIST_STRUCT};
ghost use Rattle.vx_rpl.specs.Lists.{lists_form, weights_form};
ghost use Rattle.vx_rpl.specs.Numbers.{lists_scope, weights_scope};
ghost use Rattle.vx_rpl.specs.Written as spec;
ghost use Rattle.vx_rpl.specs.Written.{WritesAll};

use crate::entry::RplTable;
use crate::numbers::{RplNumbers, WeightNumbers};
use crate::tables::REF_PIC_LIST_STRUCT;
use crate::walk::{code_lists, code_weights};
use vx_bits::{BitWriter, Fields, Item};
use vx_fields::rpl::ltrp_in_header_flag;
use vx_table::{Scope, SpellError, Unwritten, code_table};

/// Returns the result of writing, if these items are left: they are then those of no value.
///
/// # Errors
///
/// The writer's error; `NoValue` if an item is left.
fn all_taken(written: Result<(), SpellError>, left: &Unwritten<'_>) -> Result<(), SpellError>
    ensures { result ≡ spec.all_taken written left.now }
{
    written?;
    if left.is_empty() {
        Ok(())
    } else {
        Err(SpellError::NoValue)
    }
}

/// Returns whether the second item is of this field.
fn is_second(field: u16, items: &[Item]) -> bool
    ensures { result ≡ spec.is_second field items.now }
{
    match items {
        [_, second, ..] => second.field == field,
        _ => false,
    }
}

/// Returns the scope at which the structure of these items is written.
fn own_scope(numbers: &RplNumbers, items: &[Item]) -> Scope
    requires { (4 ≤ numbers.now.lsb_bits) × (numbers.now.lsb_bits ≤ 16) }
    ensures { result ≡ spec.own_scope numbers.now items.now }
{
    let in_sps = is_second(ltrp_in_header_flag, items);
    numbers.structure_scope(0, u32::from(in_sps))
}

/// Writes a reference picture list structure, `ref_pic_list_struct()` (clause 7.3.10), of the items from place `from`
/// up to `to`.
///
/// With an ltrp_in_header_flag it is one of an SPS; without one its bits are the same in an SPS and in a header.
///
/// # Errors
///
/// - `NoValue` if the items aren't those of a structure.
/// - `Memory` if memory runs out.
///
/// After an error, `bits` may have gained some bits.
pub fn write_struct(
    bits: &mut BitWriter,
    items: &Fields,
    from: usize,
    to: usize,
    numbers: &RplNumbers,
) -> Result<(), SpellError>
    requires order { from ≤ to }
    requires within { to ≤ length items.now }
    requires lsb { (4 ≤ numbers.now.lsb_bits) × (numbers.now.lsb_bits ≤ 16) }
    ensures { WritesAll (form_of REF_PIC_LIST_STRUCT (spec.own_scope numbers.now (slice_range items.now from to))) bits.old (slice_range items.now from to) result bits.new }
{
    let mut scope = own_scope(numbers, &items.as_slice()[from..to]);
    let mut left = Unwritten::new(items, from, to);
    let written = code_table(&REF_PIC_LIST_STRUCT, &mut scope, bits, &mut left);
    all_taken(written, &left)
}

/// Writes the two lists of a header, `ref_pic_lists()` (clause 7.3.9), of the items from place `from` up to `to`.
///
/// # Errors
///
/// - `NoValue` if the items aren't those of lists.
/// - `Memory` if memory runs out.
///
/// After an error, `bits` may have gained some bits.
pub fn write_lists(
    bits: &mut BitWriter,
    items: &Fields,
    from: usize,
    to: usize,
    numbers: &RplNumbers,
    table: &RplTable,
) -> Result<(), SpellError>
    requires order { from ≤ to }
    requires within { to ≤ length items.now }
    requires lsb { (4 ≤ numbers.now.lsb_bits) × (numbers.now.lsb_bits ≤ 16) }
    ensures { WritesAll (lists_form table.now (lists_scope numbers.now)) bits.old (slice_range items.now from to) result bits.new }
{
    let mut scope = numbers.scope();
    let mut left = Unwritten::new(items, from, to);
    let written = code_lists(table, &mut scope, bits, &mut left);
    all_taken(written, &left)
}

/// Writes prediction weights, `pred_weight_table()` (clause 7.3.8), of the items from place `from` up to `to`.
///
/// # Errors
///
/// - `NoValue` if the items aren't those of weights.
/// - `Memory` if memory runs out.
///
/// After an error, `bits` may have gained some bits.
pub fn write_weights(
    bits: &mut BitWriter,
    items: &Fields,
    from: usize,
    to: usize,
    numbers: &WeightNumbers,
) -> Result<(), SpellError>
    requires order { from ≤ to }
    requires within { to ≤ length items.now }
    ensures { WritesAll (weights_form (weights_scope numbers.now)) bits.old (slice_range items.now from to) result bits.new }
{
    let mut scope = numbers.scope();
    let mut left = Unwritten::new(items, from, to);
    let written = code_weights(&mut scope, bits, &mut left);
    all_taken(written, &left)
}
