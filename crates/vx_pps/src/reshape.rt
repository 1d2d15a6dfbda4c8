//! The picture parameter set that is sent for a region or a frame, made of fields of its source and new ones.
ghost use Rattle.std.specs.Prelude.{◌≡◌, cond, List, ◌++◌, OnOk, IfOk};
ghost use Rattle.vx_bits.specs.declared.list.Item.{Item};
ghost use Rattle.vx_pps.specs.Groups.{Group};
ghost use Rattle.vx_pps.specs.Reshaped as reshaped;
ghost use Rattle.vx_pps.specs.Written as written;
ghost use Rattle.vx_pps.specs.Reshaped.{CanBeDivided, Divides, IsReshapedPps, IsShape, frame_tool_items, front_items, pps_subpic_id_items, info_items, slice_list_items, tile_flag_items, tile_items, tool_items};
ghost use Rattle.vx_pps.specs.inner.Found.{AreGroups};
ghost use Rattle.vx_pps.specs.inner.Stated.{PutsTogether, StatesAll};

use crate::halt::Halt;
use crate::list_items::{push, push_if, push_list, push_sizes, push_value};
use crate::pps::Pps;
use crate::shape::PpsShape;
use crate::taken::taken;
use crate::walk::code_pps;
use std::alloc::{AllocError, Global};
use vx_bits::Fields;
use vx_fields::pps::*;
use vx_table::{Rewriter, SpellError, Unwritten, ceil_log2, item, items_of};

/// Returns the flag that the picture isn't partitioned.
fn whole_flag(source: &Pps, shape: &PpsShape) -> u32
    ensures { result ≡ reshaped.whole_flag source.now shape.now }
{
    if shape.merged {
        0
    } else {
        source.number(pps_no_pic_partition_flag)
    }
}

/// Appends the id of the one subpicture.
fn push_id(items: &mut Fields, whole: u32, id: Option<(u32, u32)>) -> Result<(), AllocError>
    ensures { OnOk result (items.new ≡ items.old ++ pps_subpic_id_items whole id) }
{
    let Some((bits, id)) = id else {
        return push(items, pps_subpic_id_mapping_present_flag, 0);
    };
    push(items, pps_subpic_id_mapping_present_flag, 1)?;
    push_if(whole == 0, items, pps_num_subpics_minus1, 0)?;
    push(items, pps_subpic_id_len_minus1, bits)?;
    push(items, pps_subpic_id, id)
}

/// Appends ids, size, and whether the picture isn't partitioned.
fn push_front(items: &mut Fields, whole: u32, shape: &PpsShape) -> Result<(), AllocError>
    ensures { OnOk result (items.new ≡ items.old ++ front_items whole shape.now) }
{
    items.extend_from_slice(&[
        item(pps_pic_parameter_set_id, u32::from(shape.id)),
        item(pps_seq_parameter_set_id, u32::from(shape.sps_id)),
        item(pps_pic_width_in_luma_samples, shape.width),
        item(pps_pic_height_in_luma_samples, shape.height),
        item(pps_conformance_window_flag, 0),
        item(pps_no_pic_partition_flag, whole),
    ])?;
    push_id(items, whole, shape.subpic_id)
}

/// Appends all tile columns and rows, each with its size.
fn push_tiles(items: &mut Fields, shape: &PpsShape) -> Result<(), AllocError>
    requires { CanBeDivided shape.now }
    ensures { OnOk result (items.new ≡ items.old ++ tile_items shape.now) }
{
    let tiles = &shape.tiles;
    items.extend_from_slice(&[
        item(pps_num_exp_tile_columns_minus1, tiles.across() - 1),
        item(pps_num_exp_tile_rows_minus1, tiles.down() - 1),
    ])?;
    push_sizes(items, pps_tile_column_width_minus1, &tiles.columns)?;
    push_sizes(items, pps_tile_row_height_minus1, &tiles.rows)
}

/// Appends the flags of several tiles.
fn push_tile_flags(items: &mut Fields, shape: &PpsShape) -> Result<(), AllocError>
    requires { CanBeDivided shape.now }
    ensures { OnOk result (items.new ≡ items.old ++ tile_flag_items shape.now) }
{
    if shape.tiles.count() <= 1 {
        return Ok(());
    }
    items.extend_from_slice(&[
        item(
            pps_loop_filter_across_tiles_enabled_flag,
            u32::from(shape.across_tiles),
        ),
        item(pps_rect_slice_flag, 1),
    ])
}

/// Appends the number of the slices, their list, and whether loop filters cross their borders.
fn push_slices(items: &mut Fields, shape: &PpsShape) -> Result<(), AllocError>
    requires { CanBeDivided shape.now }
    ensures { OnOk result ((groups : List Group) → AreGroups shape.now.tiles groups shape.now.slices → items.new ≡ items.old ++ slice_list_items shape.now groups) }
{
    let count = shape.slices.len() as u32;
    let deltas = count > 2;
    push(items, pps_num_slices_in_pic_minus1, count.saturating_sub(1))?;
    push_if(deltas, items, pps_tile_idx_delta_present_flag, 1)?;
    push_list(items, &shape.tiles, deltas, shape.slices.as_slice())?;
    push_if(
        count > 1,
        items,
        pps_loop_filter_across_slices_enabled_flag,
        u32::from(shape.across_slices),
    )
}

/// Appends the fields of tiles and slices.
fn push_division(items: &mut Fields, shape: &PpsShape) -> Result<(), AllocError>
    requires { CanBeDivided shape.now }
    ensures { OnOk result ((division : List Item) → Divides shape.now division → items.new ≡ items.old ++ division) }
{
    push(
        items,
        pps_log2_ctu_size_minus5,
        ceil_log2(shape.ctb).saturating_sub(5),
    )?;
    push_tiles(items, shape)?;
    push_tile_flags(items, shape)?;
    push(items, pps_single_slice_per_subpic_flag, 0)?;
    push_slices(items, shape)
}

/// Returns whether the place of weights is coded.
fn has_weights(source: &Pps) -> bool
    ensures { result ≡ reshaped.has_weights source.now }
{
    let weighted = source.number(pps_weighted_pred_flag) != 0
        || source.number(pps_weighted_bipred_flag) != 0;
    weighted && source.number(pps_rpl_info_in_ph_flag) != 0
}

/// Appends the flags for what is in the picture headers of a frame.
fn push_info(items: &mut Fields, source: &Pps) -> Result<(), AllocError>
    ensures { OnOk result (items.new ≡ items.old ++ info_items source.now) }
{
    items.extend_from_slice(&[
        item(
            pps_rpl_info_in_ph_flag,
            source.number(pps_rpl_info_in_ph_flag),
        ),
        item(
            pps_sao_info_in_ph_flag,
            source.number(pps_sao_info_in_ph_flag),
        ),
        item(pps_alf_info_in_ph_flag, 0),
    ])?;
    let weights = source.number(pps_wp_info_in_ph_flag);
    push_if(has_weights(source), items, pps_wp_info_in_ph_flag, weights)?;
    push(items, pps_qp_delta_info_in_ph_flag, 0)
}

/// Appends the QP to which slices add.
fn push_qp(items: &mut Fields, shape: &PpsShape) -> Result<(), AllocError>
    ensures { OnOk result (items.new ≡ items.old ++ written.only_item pps_init_qp_minus26 shape.now.init_qp) }
{
    push_value(items, pps_init_qp_minus26, i64::from(shape.init_qp))
}

/// Appends the new items of a frame's tools.
fn push_tools(items: &mut Fields, source: &Pps, shape: &PpsShape) -> Result<(), AllocError>
    ensures { OnOk result (items.new ≡ items.old ++ frame_tool_items source.now shape.now.init_qp) }
{
    push_qp(items, shape)?;
    let is_overridden = source.number(pps_deblocking_filter_override_enabled_flag) != 0;
    let info = source.number(pps_dbf_info_in_ph_flag);
    push_if(is_overridden, items, pps_dbf_info_in_ph_flag, info)?;
    push_info(items, source)
}

/// Returns all new items.
fn stated(alloc: Global, source: &Pps, shape: &PpsShape) -> Result<Fields, AllocError>
    requires { IsShape source.now shape.now }
    ensures { IfOk result (λ items. StatesAll source.now shape.now items) }
{
    let whole = whole_flag(source, shape);
    let mut items = Fields::new(alloc);
    push_front(&mut items, whole, shape)?;
    if whole == 0 {
        push_division(&mut items, shape)?;
    }
    if shape.merged {
        push_tools(&mut items, source, shape)?;
    }
    Ok(items)
}

/// Makes a set of the items of some fields and those of all others, if there is one that has both.
fn put_together(
    alloc: Global,
    names: &[u16],
    shown: &Fields,
    others: &Fields,
) -> Result<Option<Pps>, AllocError>
    ensures { IfOk result (λ set. PutsTogether names.now shown.now others.now set) }
{
    let shown = Unwritten::new(shown, 0, shown.len());
    let others = Unwritten::new(others, 0, others.len());
    let mut rewriter = Rewriter::new(names, shown, others);
    let mut items = Fields::new(alloc);
    match code_pps(alloc, &mut rewriter, &mut items) {
        Ok(partition) => Ok(Some(Pps::new(alloc, items, partition, None)?)),
        Err(halt) => unmade(halt),
    }
}

/// Returns why no set is made: there is none, unless memory ran out.
fn unmade(halt: Halt<SpellError>) -> Result<Option<Pps>, AllocError>
    ensures { IfOk result (λ set. (set ≡ None) × (halt ≡ Halt.Refused SpellError.NoValue)) }
{
    match halt {
        Halt::Refused(SpellError::NoValue) => Ok(None),
        Halt::Memory | Halt::Refused(SpellError::Memory) => Err(AllocError),
    }
}

/// Returns the set that is sent for a region of its source's pictures, or for a frame of several sources.
///
/// It has what `shape` states, and everything else from `pps`; tile sizes and slices are coded one by one. There is no other
/// such set. Requires that `shape` is valid.
///
/// # Errors
///
/// `AllocError` if memory runs out.
pub fn reshape_pps(alloc: Global, pps: &Pps, shape: &PpsShape) -> Result<Pps, AllocError>
    requires { IsShape pps.now shape.now }
    ensures { IfOk result (λ set. IsReshapedPps pps.now shape.now set) }
{
    let list = taken(alloc, shape.merged)?;
    let names = list.as_slice();
    let fields = pps.fields();
    let shown = items_of(alloc, fields, names)?;
    let others = stated(alloc, pps, shape)?;
    let set = put_together(alloc, names, &shown, &others)?;
    match set {
        Some(set) => Ok(set),
        None => unreachable!(),
    }
}
