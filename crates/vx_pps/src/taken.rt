//! The fields that a rewritten set copies from its source.
ghost use Rattle.std.specs.Prelude.{◌≡◌, ◌++◌, cond, OnOk, IfOk};
ghost use Rattle.vx_table.specs.Unstarred.{unstarred};
ghost use Rattle.vx_pps.specs.Pps.{before_tiles};
ghost use Rattle.vx_pps.specs.Reshaped.{taken_for_frame, taken_for_region};

use crate::tables::*;
use std::alloc::{AllocError, Global};
use vx_fields::pps::*;
use vx_table::{NameList, push_unstarred};

/// Appends the fields before tiles and slices that have no star.
fn push_front(names: &mut NameList) -> Result<(), AllocError>
    ensures { OnOk result (names.new ≡ names.old ++ unstarred before_tiles) }
{
    push_unstarred(names, &NAL_TYPES)?;
    push_unstarred(names, &OUTPUT)?;
    Ok(())
}

/// Appends what is copied for a frame: the kept fields, except those that say what is in picture headers; and the gap at the
/// end.
fn push_for_frame(names: &mut NameList) -> Result<(), AllocError>
    ensures { OnOk result (names.new ≡ names.old ++ taken_for_frame) }
{
    names.push(pps_rbsp_trailing_bits)?;
    push_front(names)?;
    push_unstarred(names, &PREDICTION)?;
    push_unstarred(names, &QP_OFFSETS)?;
    push_unstarred(names, &DBF_CONTROL)?;
    push_unstarred(names, &DBF_OFFSETS)?;
    push_unstarred(names, &END)?;
    Ok(())
}

/// Appends what is copied for a region: the kept fields, the QP, and where filter and QP are; and the gap at the end.
fn push_for_region(names: &mut NameList) -> Result<(), AllocError>
    ensures { OnOk result (names.new ≡ names.old ++ taken_for_region) }
{
    names.extend_from_slice(&[
        pps_init_qp_minus26,
        pps_alf_info_in_ph_flag,
        pps_qp_delta_info_in_ph_flag,
        pps_rbsp_trailing_bits,
    ])?;
    push_front(names)?;
    push_unstarred(names, &PREDICTION)?;
    push_unstarred(names, &QP_OFFSETS)?;
    push_unstarred(names, &DBF_CONTROL)?;
    push_unstarred(names, &DBF_INFO)?;
    push_unstarred(names, &DBF_OFFSETS)?;
    push_unstarred(names, &HEADER_INFO)?;
    push_unstarred(names, &END)?;
    Ok(())
}

/// Returns the fields that are copied.
pub(crate) fn taken(alloc: Global, merged: bool) -> Result<NameList, AllocError>
    ensures { IfOk result (λ names. names ≡ cond merged taken_for_frame taken_for_region) }
{
    let mut names = NameList::new(alloc);
    if merged {
        push_for_frame(&mut names)?;
    } else {
        push_for_region(&mut names)?;
    }
    Ok(names)
}
