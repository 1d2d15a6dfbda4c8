//! The SPS and PPS that are sent for a subpicture, and what they say (H.266 7.4.3.4, 7.4.3.5).
//!
//! They have the size, window, level, subpicture, id, tiles and slices of the subpicture. DPB numbers, ticks and picture rate are those
//! of the source's highest sublayer. Constraints, levels of sublayers, sub-profiles and HRD parameters are left out; all else is the
//! source's (`IsReshapedSps`).
ghost use Rattle.std.specs.Prelude.{◌≡◌, ◌==◌, ◌+◌, ◌<◌, IfOk};
ghost use Rattle.vx_sps.specs.Set.{ctb_size_of};
ghost use Rattle.vx_sps.specs.Subpictures.{rect_of, subpics_of};
ghost use Rattle.vx_sps.specs.Reshaped as sps_reshaped;
ghost use Rattle.vx_pps.specs.Reshaped as pps_reshaped;
ghost use Rattle.vx_pic.specs.PictureLayout as layout;
ghost use Rattle.vx_extract.specs.Shapes as spec;

use std::alloc::{AllocError, Global};
use vx_fields::dpb::{
    dpb_max_dec_pic_buffering_minus1, dpb_max_latency_increase_plus1, dpb_max_num_reorder_pics,
};
use vx_fields::pps::{
    pps_loop_filter_across_slices_enabled_flag, pps_loop_filter_across_tiles_enabled_flag,
};
use vx_fields::sps::{
    sps_conf_win_bottom_offset, sps_conf_win_left_offset, sps_conf_win_right_offset,
    sps_conf_win_top_offset, sps_subpic_id_len_minus1,
    sps_subpic_id_mapping_explicitly_signalled_flag, sps_subpic_id_mapping_present_flag,
    sps_subpic_info_present_flag,
};
use vx_layout::{region_is_layout, region_is_listable};
use vx_pic::{Picture, luma_size_of};
use vx_pps::{Pps, PpsShape, Tiles, read_slices_are_listable, reshape_pps, sets_tell_partitions};
use vx_sps::{Sps, SpsShape, SubpicPlan, reshape_sps};
use vx_table::quotient;
use vx_write::{in_pps, in_sps, own_level, sets_in_force};

// ---- the subpicture

/// Returns the width and the height of a subpicture in luma samples.
fn size_of(picture: &Picture<'_>, target: u32) -> (u32, u32)
    requires { target < subpics_of picture.now.sps }
    ensures width { result.0 ≡ spec.width_in picture.now target }
    ensures height { result.1 ≡ spec.height_in picture.now target }
{
    let (rect, ctb) = (picture.sps().rect(target), picture.sps().ctb());
    let (width, height) = (picture.pps().width(), picture.pps().height());
    (
        luma_size_of(rect.x, rect.w, ctb, width),
        luma_size_of(rect.y, rect.h, ctb, height),
    )
}

/// Returns the id of a subpicture.
fn id_of(picture: &Picture<'_>, target: u32) -> u32
    ensures { result ≡ spec.id_in picture.now target }
{
    let ids = picture.ids().as_slice();
    ids.get(target as usize).copied().unwrap_or(0)
}

/// Returns whether the PPS has the ids of subpictures.
fn needs_ids(picture: &Picture<'_>) -> bool
    ensures { result ≡ layout.needs_ids picture.now.sps }
{
    in_sps(picture, sps_subpic_id_mapping_explicitly_signalled_flag) != 0
        && in_sps(picture, sps_subpic_id_mapping_present_flag) == 0
}

// ---- the SPS

/// Returns an offset of the conformance window if the subpicture touches that edge of the picture, and 0 otherwise.
fn offset(picture: &Picture<'_>, touches: bool, field: u16) -> u32
    ensures { result ≡ spec.offset picture.now.sps touches field }
{
    if touches { in_sps(picture, field) } else { 0 }
}

/// Returns whether `size` columns or rows from `from` on end at the last of `total`.
fn ends(from: u32, size: u32, total: u32) -> bool
    ensures { result ≡ (from + size == total) }
{
    u64::from(from) + u64::from(size) == u64::from(total)
}

/// Returns the offsets of the conformance window: left, right, top, bottom.
fn window(picture: &Picture<'_>, target: u32) -> [u32; 4]
    requires { target < subpics_of picture.now.sps }
    ensures { result ≡ spec.window_of picture.now.sps (rect_of picture.now.sps target) }
{
    let sps = picture.sps();
    let rect = sps.rect(target);
    let right = ends(rect.x, rect.w, quotient(sps.width(), sps.ctb()));
    let bottom = ends(rect.y, rect.h, quotient(sps.height(), sps.ctb()));
    [
        offset(picture, rect.x == 0, sps_conf_win_left_offset),
        offset(picture, right, sps_conf_win_right_offset),
        offset(picture, rect.y == 0, sps_conf_win_top_offset),
        offset(picture, bottom, sps_conf_win_bottom_offset),
    ]
}

/// Returns the DPB parameters of the highest sublayer.
fn dpb(picture: &Picture<'_>) -> [u32; 3]
    ensures { result ≡ spec.dpb_of picture.now.sps }
{
    [
        in_sps(picture, dpb_max_dec_pic_buffering_minus1),
        in_sps(picture, dpb_max_num_reorder_pics),
        in_sps(picture, dpb_max_latency_increase_plus1),
    ]
}

/// Returns the id of the subpicture, if the SPS has it.
fn id_in_sps(picture: &Picture<'_>, target: u32) -> Option<u32>
    ensures { result ≡ spec.id_in_sps picture.now target }
{
    if needs_ids(picture) {
        None
    } else {
        Some(id_of(picture, target))
    }
}

/// Returns the subpictures that the SPS describes.
fn plan(picture: &Picture<'_>, target: u32) -> SubpicPlan
    ensures { result ≡ spec.plan_of picture.now target }
{
    if in_sps(picture, sps_subpic_info_present_flag) == 0 {
        return SubpicPlan::Absent;
    }
    SubpicPlan::One {
        id_len: in_sps(picture, sps_subpic_id_len_minus1),
        id: id_in_sps(picture, target),
    }
}

/// Returns what the SPS says.
#[tactic(auto, unfolding(vx_pic::specs::Sets::sps_id))]
fn sps_shape(picture: &Picture<'_>, target: u32, level: Option<u8>) -> SpsShape
    requires { target < subpics_of picture.now.sps }
    ensures value { result ≡ spec.sps_shape picture.now target level }
    ensures shape { sps_reshaped.IsShape (ctb_size_of picture.now.sps) result }
{
    sets_in_force(picture);
    sets_tell_partitions();
    let (width, height) = size_of(picture, target);
    SpsShape {
        id: picture.sps().sps_id(),
        width,
        height,
        window: window(picture, target),
        level: level.unwrap_or(own_level(picture)),
        dpb: dpb(picture),
        subpics: plan(picture, target),
    }
}

/// Makes the SPS for a subpicture of a picture, with this level or the source's.
pub(crate) fn rewritten_sps(
    alloc: Global,
    picture: &Picture<'_>,
    target: u32,
    level: Option<u8>,
) -> Result<Sps, AllocError>
    requires { target < subpics_of picture.now.sps }
    ensures { IfOk result (λ sps. sps_reshaped.IsReshapedSps picture.now.sps (spec.sps_shape picture.now target level) sps) }
{
    let shape = sps_shape(picture, target, level);
    reshape_sps(alloc, picture.sps(), &shape)
}

// ---- the PPS

/// Returns the bits of an id, minus 1, and the id of the subpicture, if the PPS has it.
fn id_in_pps(picture: &Picture<'_>, target: u32) -> Option<(u32, u32)>
    ensures { result ≡ spec.id_in_pps picture.now target }
{
    if needs_ids(picture) {
        Some((
            in_sps(picture, sps_subpic_id_len_minus1),
            id_of(picture, target),
        ))
    } else {
        None
    }
}

/// Returns what the PPS says.
#[tactic(auto, unfolding(vx_pic::specs::Sets::pps_id, vx_pic::specs::Sets::referred_sps))]
fn pps_shape(alloc: Global, picture: &Picture<'_>, target: u32) -> Result<PpsShape, AllocError>
    requires { target < subpics_of picture.now.sps }
    ensures value { IfOk result (λ shape. shape ≡ spec.pps_shape picture.now target) }
    ensures shape { IfOk result (pps_reshaped.IsShape picture.now.pps) }
{
    sets_in_force(picture);
    sets_tell_partitions();
    read_slices_are_listable();
    region_is_layout();
    region_is_listable();
    let (width, height) = size_of(picture, target);
    let region = picture.layout().region(alloc, target)?;
    Ok(PpsShape {
        id: picture.pps().pps_id(),
        sps_id: picture.pps().sps_id(),
        width,
        height,
        ctb: picture.sps().ctb(),
        subpic_id: id_in_pps(picture, target),
        tiles: Tiles {
            columns: region.columns,
            rows: region.rows,
        },
        slices: region.slices,
        across_tiles: in_pps(picture, pps_loop_filter_across_tiles_enabled_flag) != 0,
        across_slices: in_pps(picture, pps_loop_filter_across_slices_enabled_flag) != 0,
        init_qp: 0,
        merged: false,
    })
}

/// Makes the PPS for a subpicture of a picture.
pub(crate) fn rewritten_pps(
    alloc: Global,
    picture: &Picture<'_>,
    target: u32,
) -> Result<Pps, AllocError>
    requires { target < subpics_of picture.now.sps }
    ensures { IfOk result (λ pps. pps_reshaped.IsReshapedPps picture.now.pps (spec.pps_shape picture.now target) pps) }
{
    let shape = pps_shape(alloc, picture, target)?;
    reshape_pps(alloc, picture.pps(), &shape)
}
