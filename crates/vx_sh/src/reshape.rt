//! The new items of the slice header that is sent for a frame of several sources.
ghost use Rattle.std.specs.Prelude.{◌≡◌, ◌++◌, OnOk, IfOk};
ghost use Rattle.vx_sh.specs.InForce.{in_force_at};
ghost use Rattle.vx_sh.specs.Reshaped.{sh_subpic_id_items, stated_filter_items, stated_sh_items};
ghost use Rattle.vx_sh.specs.inner.Sending.{uses_at};

use crate::numbers::SliceNumbers;
use crate::shape::ShShape;
use std::alloc::{AllocError, Global};
use vx_bits::{Fields, Item};
use vx_fields::ph::{ph_explicit_scaling_list_enabled_flag, ph_lmcs_enabled_flag};
use vx_fields::sh::{
    sh_explicit_scaling_list_used_flag, sh_lmcs_used_flag, sh_picture_header_in_slice_header_flag,
    sh_qp_delta, sh_subpic_id,
};
use vx_fields::sps::{sps_alf_enabled_flag, sps_subpic_info_present_flag};
use vx_sps::Sps;
use vx_table::{Scope, item, push_where};

/// Appends that the picture header is a unit of its own, and the id of the subpicture.
fn push_id(sps: &Sps, id: u32, into: &mut Fields) -> Result<(), AllocError>
    ensures { OnOk result (into.new ≡ into.old ++ sh_subpic_id_items sps.now id) }
{
    into.push(item(sh_picture_header_in_slice_header_flag, 0))?;
    let described = sps.number(sps_subpic_info_present_flag) != 0;
    push_where(described, item(sh_subpic_id, id), into)
}

/// Appends the filter, if the SPS has it.
fn push_filter(sps: &Sps, filter: &Fields, into: &mut Fields) -> Result<(), AllocError>
    ensures { OnOk result (into.new ≡ into.old ++ stated_filter_items sps.now filter.now) }
{
    if sps.number(sps_alf_enabled_flag) == 0 {
        return Ok(());
    }
    into.extend_from_slice(filter.as_slice())
}

/// Appends what is used of LMCS and scaling lists, if the picture header of the slice's scope has them on.
fn push_uses(
    slice: &Scope,
    uses_lmcs: bool,
    uses_scaling: bool,
    into: &mut Fields,
) -> Result<(), AllocError>
    ensures { OnOk result (into.new ≡ into.old ++ uses_at slice.now uses_lmcs uses_scaling) }
{
    push_where(
        slice.latest(ph_lmcs_enabled_flag) != 0,
        item(sh_lmcs_used_flag, u32::from(uses_lmcs)),
        into,
    )?;
    push_where(
        slice.latest(ph_explicit_scaling_list_enabled_flag) != 0,
        item(sh_explicit_scaling_list_used_flag, u32::from(uses_scaling)),
        into,
    )
}

/// Returns all new items, in order.
pub(crate) fn stated_items(
    alloc: Global,
    numbers: &SliceNumbers<'_>,
    slice: &Scope,
    shape: &ShShape<'_>,
) -> Result<Fields, AllocError>
    requires { slice.now ≡ (in_force_at numbers.now).slice }
    ensures { IfOk result (λ items. items ≡ stated_sh_items numbers.now shape.now) }
{
    let mut into = Fields::new(alloc);
    push_id(numbers.sps, shape.subpic_id, &mut into)?;
    push_filter(numbers.sps, shape.filter, &mut into)?;
    push_uses(slice, shape.uses_lmcs, shape.uses_scaling, &mut into)?;
    into.push(Item {
        field: sh_qp_delta,
        value: i64::from(shape.qp_delta),
    })?;
    Ok(into)
}
