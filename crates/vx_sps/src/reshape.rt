//! The sequence parameter set that is sent for a region or a frame, made of fields of its source and new ones.

ghost use Rattle.std.specs.Prelude.{◌≡◌, ◌+◌, ◌<◌, ◌≤◌, [], ◌++◌, length, replicate, OnOk, IfOk};
ghost use Rattle.vx_sps.specs.Depends.{taken_sps_fields};
ghost use Rattle.vx_sps.specs.Set.{ctb_size_of};
ghost use Rattle.vx_sps.specs.inner.Makes.{MakesSet};
ghost use Rattle.vx_sps.specs.Reshaped as reshaped;
ghost use Rattle.vx_sps.specs.Reshaped.{sps_id_items, profile_items, window_items, picture_size_items, place_items, places_items, one_items, many_items, subpic_items, dpb_items, rate_items, timing_items, stated_sps_items, IsPlan, IsShape, IsReshapedSps};

use crate::shape::{SpsShape, SubpicPlan};
use crate::sps::Sps;
use crate::taken::taken_fields;
use crate::walk::code_sps;
use std::alloc::{AllocError, Global};
use vx_bits::{Fields, Item};
use vx_fields::dpb::*;
use vx_fields::ptl::*;
use vx_fields::sps::*;
use vx_fields::timing::*;
use vx_layout::RectList;
use vx_table::{
    Rewriter, Scope, SpellError, Unwritten, ceil_log2, item, items_of, only_memory, push_where,
    quotient,
};

/// Returns an item of a field with the number that the source gives it.
fn same(source: &Sps, field: u16) -> Item
    ensures { result ≡ reshaped.item_of_source source.now field }
{
    item(field, source.number(field))
}

fn push_ids(id: u8, into: &mut Fields) -> Result<(), AllocError>
    ensures { OnOk result (into.new ≡ into.old ++ sps_id_items id) }
{
    into.extend_from_slice(&[
        item(sps_seq_parameter_set_id, u32::from(id)),
        item(sps_video_parameter_set_id, 0),
    ])
}

/// Appends `times` equal items.
#[tactic(auto, using(crate::proofs::Pushed::equal_more))]
fn push_times(item: Item, times: u32, into: &mut Fields) -> Result<(), AllocError>
    ensures { OnOk result (into.new ≡ into.old ++ replicate times item) }
{
    for _turn in 0..times {
        into.push(item)?;
    }
    Ok(())
}

/// Appends profile, tier and level.
fn push_profile(source: &Sps, level: u8, into: &mut Fields) -> Result<(), AllocError>
    ensures { OnOk result (into.new ≡ into.old ++ profile_items source.now level) }
{
    into.extend_from_slice(&[
        same(source, general_profile_idc),
        same(source, general_tier_flag),
        item(general_level_idc, u32::from(level)),
        same(source, ptl_frame_only_constraint_flag),
        same(source, ptl_multilayer_enabled_flag),
        item(gci_present_flag, 0),
    ])?;
    let no_level = item(ptl_sublayer_level_present_flag, 0);
    push_times(no_level, source.number(sps_max_sublayers_minus1), into)?;
    into.push(item(ptl_num_sub_profiles, 0))
}

/// Returns whether a window leaves anything out.
fn has_window(window: [u32; 4]) -> bool
    ensures { result ≡ reshaped.has_window window }
{
    (window[0] != 0 || window[1] != 0) || (window[2] != 0 || window[3] != 0)
}

/// Appends width, height and window.
fn push_size(shape: &SpsShape, into: &mut Fields) -> Result<(), AllocError>
    ensures { OnOk result (into.new ≡ into.old ++ picture_size_items shape.now.width shape.now.height shape.now.window) }
{
    into.extend_from_slice(&[
        item(sps_pic_width_max_in_luma_samples, shape.width),
        item(sps_pic_height_max_in_luma_samples, shape.height),
    ])?;
    push_window(shape.window, into)
}

fn push_window(window: [u32; 4], into: &mut Fields) -> Result<(), AllocError>
    ensures { OnOk result (into.new ≡ into.old ++ window_items window) }
{
    if !has_window(window) {
        return into.push(item(sps_conformance_window_flag, 0));
    }
    into.extend_from_slice(&[
        item(sps_conformance_window_flag, 1),
        item(sps_conf_win_left_offset, window[0]),
        item(sps_conf_win_right_offset, window[1]),
        item(sps_conf_win_top_offset, window[2]),
        item(sps_conf_win_bottom_offset, window[3]),
    ])
}

/// Appends the place of one of several subpictures.
fn push_place(
    columns: u32,
    rows: u32,
    rects: &RectList,
    i: usize,
    into: &mut Fields,
) -> Result<(), AllocError>
    requires { i < length rects.now }
    ensures { OnOk result (into.new ≡ into.old ++ place_items columns rows rects.now i) }
{
    let rect = rects.item(i);
    let later = i != 0;
    let before_last = i < rects.len() - 1;
    push_where(
        later && 1 < columns,
        item(sps_subpic_ctu_top_left_x, rect.x),
        into,
    )?;
    push_where(
        later && 1 < rows,
        item(sps_subpic_ctu_top_left_y, rect.y),
        into,
    )?;
    push_where(
        before_last && 1 < columns,
        item(sps_subpic_width_minus1, rect.w.saturating_sub(1)),
        into,
    )?;
    push_where(
        before_last && 1 < rows,
        item(sps_subpic_height_minus1, rect.h.saturating_sub(1)),
        into,
    )
}

/// Appends the places of several subpictures.
fn push_places(
    columns: u32,
    rows: u32,
    rects: &RectList,
    into: &mut Fields,
) -> Result<(), AllocError>
    ensures { OnOk result (into.new ≡ into.old ++ places_items columns rows rects.now) }
{
    if rects.len() <= 1 {
        return Ok(());
    }
    into.extend_from_slice(&[
        item(sps_independent_subpics_flag, 1),
        item(sps_subpic_same_size_flag, 0),
    ])?;
    for i in 0..rects.len() {
        push_place(columns, rows, rects, i, into)?;
    }
    Ok(())
}

/// Appends one subpicture, whose id is mapped.
fn push_one(id_len: u32, id: Option<u32>, into: &mut Fields) -> Result<(), AllocError>
    ensures { OnOk result (into.new ≡ into.old ++ one_items id_len id) }
{
    into.extend_from_slice(&[
        item(sps_num_subpics_minus1, 0),
        item(sps_subpic_id_len_minus1, id_len),
        item(sps_subpic_id_mapping_explicitly_signalled_flag, 1),
    ])?;
    match id {
        None => into.push(item(sps_subpic_id_mapping_present_flag, 0)),
        Some(id) => into.extend_from_slice(&[
            item(sps_subpic_id_mapping_present_flag, 1),
            item(sps_subpic_id, id),
        ]),
    }
}

/// Appends several subpictures, or one whose id is its index.
fn push_many(columns: u32, rows: u32, rects: &RectList, into: &mut Fields) -> Result<(), AllocError>
    requires few { length rects.now ≤ 1000 }
    ensures { OnOk result (into.new ≡ into.old ++ many_items columns rows rects.now) }
{
    let count = rects.len() as u32;
    into.push(item(sps_num_subpics_minus1, count.saturating_sub(1)))?;
    push_places(columns, rows, rects, into)?;
    into.extend_from_slice(&[
        item(sps_subpic_id_len_minus1, ceil_log2(count).max(1) - 1),
        item(sps_subpic_id_mapping_explicitly_signalled_flag, 0),
    ])
}

/// Appends the subpictures of a picture of `columns` times `rows` CTUs.
fn push_subpics(
    columns: u32,
    rows: u32,
    plan: &SubpicPlan,
    into: &mut Fields,
) -> Result<(), AllocError>
    requires { IsPlan columns rows plan.now }
    ensures { OnOk result (into.new ≡ into.old ++ subpic_items columns rows plan.now) }
{
    match plan {
        SubpicPlan::Absent => into.push(item(sps_subpic_info_present_flag, 0)),
        SubpicPlan::One { id_len, id } => {
            into.push(item(sps_subpic_info_present_flag, 1))?;
            push_one(*id_len, *id, into)
        }
        SubpicPlan::Many(rects) => {
            into.push(item(sps_subpic_info_present_flag, 1))?;
            push_many(columns, rows, rects, into)
        }
    }
}

/// Appends DPB parameters of the highest sublayer.
fn push_dpb(source: &Sps, numbers: [u32; 3], into: &mut Fields) -> Result<(), AllocError>
    ensures { OnOk result (into.new ≡ into.old ++ dpb_items source.now numbers) }
{
    let several = source.number(sps_max_sublayers_minus1) != 0;
    push_where(several, item(sps_sublayer_dpb_params_flag, 0), into)?;
    into.extend_from_slice(&[
        item(dpb_max_dec_pic_buffering_minus1, numbers[0]),
        item(dpb_max_num_reorder_pics, numbers[1]),
        item(dpb_max_latency_increase_plus1, numbers[2]),
    ])
}

/// Appends the picture rate of the highest sublayer.
fn push_rate(source: &Sps, into: &mut Fields) -> Result<(), AllocError>
    ensures { OnOk result (into.new ≡ into.old ++ rate_items source.now) }
{
    let general = source.number(fixed_pic_rate_general_flag) != 0;
    let within = source.number(fixed_pic_rate_within_cvs_flag) != 0;
    into.push(same(source, fixed_pic_rate_general_flag))?;
    push_where(!general, same(source, fixed_pic_rate_within_cvs_flag), into)?;
    push_where(
        general || within,
        same(source, elemental_duration_in_tc_minus1),
        into,
    )
}

/// Appends timing, if the source has it.
fn push_timing(source: &Sps, into: &mut Fields) -> Result<(), AllocError>
    ensures { OnOk result (into.new ≡ into.old ++ timing_items source.now) }
{
    if source.number(sps_timing_hrd_params_present_flag) == 0 {
        return Ok(());
    }
    into.extend_from_slice(&[
        same(source, num_units_in_tick),
        same(source, time_scale),
        item(general_nal_hrd_params_present_flag, 0),
        item(general_vcl_hrd_params_present_flag, 0),
    ])?;
    let several = source.number(sps_max_sublayers_minus1) != 0;
    push_where(several, item(sps_sublayer_cpb_params_present_flag, 0), into)?;
    push_rate(source, into)
}

/// Returns all new items, in order.
fn stated_items(alloc: Global, source: &Sps, shape: &SpsShape) -> Result<Fields, AllocError>
    requires { IsShape (ctb_size_of source.now) shape.now }
    ensures items { IfOk result (λ items. items ≡ stated_sps_items source.now shape.now) }
    // A level that was read is one of its type.
    ensures level { OnOk result (shape.now.level < 256) }
{
    let side = source.ctb();
    let (columns, rows) = (quotient(shape.width, side), quotient(shape.height, side));
    let mut into = Fields::new(alloc);
    push_ids(shape.id, &mut into)?;
    push_profile(source, shape.level, &mut into)?;
    push_size(shape, &mut into)?;
    push_subpics(columns, rows, &shape.subpics, &mut into)?;
    push_dpb(source, shape.dpb, &mut into)?;
    push_timing(source, &mut into)?;
    Ok(into)
}

/// Appends the set that has these items of the copied fields, and those of all others.
///
/// # Errors
///
/// - `NoValue` if there is none.
/// - `Memory` if memory runs out.
fn rewrite(
    names: &[u16],
    taken: &Fields,
    stated: &Fields,
    into: &mut Fields,
) -> Result<(), SpellError>
    requires names { names.now ≡ taken_sps_fields }
    requires into { into.old ≡ [] }
    ensures { MakesSet taken.now stated.now result into.new }
{
    let mut rewriter = Rewriter::new(
        names,
        Unwritten::new(taken, 0, taken.len()),
        Unwritten::new(stated, 0, stated.len()),
    );
    code_sps(&mut Scope::new(), &mut rewriter, into)
}

/// Returns the set that has what `shape` states, and everything else from its source `sps`.
///
/// Its kept fields, whether there is timing, and the usability information are the source's. There is no other such set.
/// Requires that `shape` is valid.
///
/// # Errors
///
/// `AllocError` if memory runs out.
pub fn reshape_sps(alloc: Global, sps: &Sps, shape: &SpsShape) -> Result<Sps, AllocError>
    requires { IsShape (ctb_size_of sps.now) shape.now }
    ensures { IfOk result (λ reshaped. IsReshapedSps sps.now shape.now reshaped) }
{
    let names = taken_fields(alloc)?;
    let taken = items_of(alloc, sps.fields(), names.as_slice())?;
    let stated = stated_items(alloc, sps, shape)?;
    let mut items = Fields::new(alloc);
    match rewrite(names.as_slice(), &taken, &stated, &mut items) {
        Ok(()) => Sps::new(alloc, items, None),
        Err(error) => Err(only_memory(error)),
    }
}
