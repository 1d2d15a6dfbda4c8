//! Reading of a structure, the lists of a header and weights; and the structures of an SPS from its items.
ghost use Rattle.std.specs.Prelude.{◌≡◌, ◌≤◌, length, drop, IfOk, OnOk, slice_range};
ghost use Rattle.vx_table.specs.Forms.{form_of};
ghost use Rattle.vx_table.specs.Reading.{Reads};
ghost use Rattle.vx_rpl.specs.declared.tables.TheConstants.{REF_PIC_LIST_STRUCT};
ghost use Rattle.vx_rpl.specs.HeaderLists.{lists_of};
ghost use Rattle.vx_rpl.specs.Lists.{lists_form, weights_form};
ghost use Rattle.vx_rpl.specs.Numbers.{lists_scope, structure_scope, weights_scope};
ghost use Rattle.vx_rpl.specs.Resolved.{table_of};

use crate::entry::{RefLists, RplTable};
use crate::lists::resolve_lists;
use crate::numbers::{RplNumbers, WeightNumbers};
use crate::resolved::table;
use crate::tables::{REF_PIC_LIST_STRUCT, WEIGHTS, WEIGHTS_0, WEIGHTS_1};
use crate::walk::code_lists;
use std::alloc::{AllocError, Global};
use vx_bits::{BitReader, Fields, ReadError};
use vx_table::{Scope, parts, read_parts, read_table};

/// Reads a reference picture list structure, `ref_pic_list_struct()` (clause 7.3.10).
///
/// It is number `index` of the SPS's `count`, or one of a header if the two are equal.
///
/// # Errors
///
/// - `Refused` with the first refusal.
/// - `Memory` if memory runs out.
///
/// After an error, `into` has gained the fields read before.
pub fn read_struct(
    bits: &mut BitReader<'_>,
    numbers: &RplNumbers,
    index: u32,
    count: u32,
    into: &mut Fields,
) -> Result<(), ReadError>
    requires { (4 ≤ numbers.now.lsb_bits) × (numbers.now.lsb_bits ≤ 16) }
    ensures { Reads (form_of REF_PIC_LIST_STRUCT (structure_scope numbers.now index count)) bits.old into.old result bits.new into.new }
{
    let mut scope = numbers.structure_scope(index, count);
    read_table(&REF_PIC_LIST_STRUCT, &mut scope, bits, into)
}

/// Reads the items of the two lists of a header.
///
/// # Errors
///
/// As [`read_struct`].
fn read_items(
    bits: &mut BitReader<'_>,
    scope: Scope,
    table: &RplTable,
    into: &mut Fields,
) -> Result<(), ReadError>
    ensures answer { Reads (lists_form table.now scope) bits.old into.old result bits.new into.new }
    ensures gained { OnOk result (length into.old ≤ length into.new) }
{
    let mut scope = scope;
    code_lists(table, &mut scope, bits, into)
}

/// Reads the two lists of a header, `ref_pic_lists()` (clause 7.3.9), and returns their entries (clause 7.4.10).
///
/// # Errors
///
/// As [`read_struct`]. An index that list 1 inherits and that is past its structures is refused at rpl_idx.
pub fn read_lists(
    alloc: Global,
    bits: &mut BitReader<'_>,
    numbers: &RplNumbers,
    table: &RplTable,
    into: &mut Fields,
) -> Result<RefLists, ReadError>
    requires { (4 ≤ numbers.now.lsb_bits) × (numbers.now.lsb_bits ≤ 16) }
    ensures answer { Reads (lists_form table.now (lists_scope numbers.now)) bits.old into.old result bits.new into.new }
    ensures lists { IfOk result (λ lists. lists ≡ lists_of table.now (lists_scope numbers.now) (drop (length into.old) into.new)) }
{
    let scope = numbers.scope();
    let from = into.len();
    read_items(bits, scope, table, into)?;
    let lists = resolve_lists(alloc, table, &scope, &into.as_slice()[from..])?;
    Ok(lists)
}

/// Reads prediction weights, `pred_weight_table()` (clause 7.3.8).
///
/// # Errors
///
/// As [`read_struct`].
pub fn read_weights(
    bits: &mut BitReader<'_>,
    numbers: &WeightNumbers,
    into: &mut Fields,
) -> Result<(), ReadError>
    ensures { Reads (weights_form (weights_scope numbers.now)) bits.old into.old result bits.new into.new }
{
    let mut scope = numbers.scope();
    read_parts(
        &parts![WEIGHTS_0, WEIGHTS, WEIGHTS_1, WEIGHTS],
        &mut scope,
        bits,
        into,
    )
}

impl RplTable {
    /// Returns the structures of an SPS, from its items from place `from` up to `to`.
    ///
    /// The items are those from sps_rpl1_same_as_rpl0_flag to the last structure; others among them are skipped.
    ///
    /// # Errors
    ///
    /// `AllocError` if memory runs out.
    pub fn new(
        alloc: Global,
        numbers: &RplNumbers,
        fields: &Fields,
        from: usize,
        to: usize,
    ) -> Result<RplTable, AllocError>
        requires order { from ≤ to }
        requires within { to ≤ length fields.now }
        ensures { IfOk result (λ made. made ≡ table_of numbers.now.weighted (slice_range fields.now from to)) }
    {
        table(alloc, numbers.weighted, &fields.as_slice()[from..to])
    }
}
