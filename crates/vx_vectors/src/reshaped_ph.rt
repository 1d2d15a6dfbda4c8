//! Picture headers that are rewritten to say what others say.
ghost use Rattle.std.specs.Prelude.{◌≡◌, ◌≤◌, IfOk, length};
ghost use Rattle.std.specs.Bool.{OnTrue};
ghost use Rattle.vx_bits.specs.Limits.{unit_limit};
ghost use Rattle.vx_sps.specs.Set as sps_set;
ghost use Rattle.vx_pps.specs.Pps as pps_set;
ghost use Rattle.vx_ph.specs.Reshaped.{GoesUnder, HaveSameKept, IsApart, IsShape};

use crate::fault::LineFault;
use crate::frame::Sets;
use crate::reshaped_sps::{small, write_reshaped};
use crate::stream::number;
use std::alloc::{AllocError, Global};
use vx_bits::{BitReader, Fields};
use vx_fields::ph::{
    ph_chroma_residual_scale_flag, ph_explicit_scaling_list_enabled_flag, ph_lmcs_aps_id,
    ph_lmcs_enabled_flag, ph_pic_parameter_set_id, ph_scaling_list_aps_id,
};
use vx_fields::pps::{pps_alf_info_in_ph_flag, pps_qp_delta_info_in_ph_flag};
use vx_ph::{LmcsShape, PhShape, PictureHeader, read_ph, read_ph_unit, reshape_ph, write_ph};
use vx_pps::{Pps, keep_pps};
use vx_sps::keep_sps;

/// Returns whether two lists have the same items.
fn are_same(a: &Fields, b: &Fields) -> bool
    ensures { OnTrue result (a.now ≡ b.now) }
{
    a.as_slice() == b.as_slice()
}

/// States that the items of sets are those of sets.
fn are_sets(sets: &Sets)
    ensures sps { sps_set.AreSpsItems sets.now.sps }
    ensures pps { pps_set.ArePpsItems sets.now.pps }
{
    let _ = sets.sps.fields();
    let _ = sets.pps.fields();
}

/// Returns whether sets of a frame have the kept fields of a source's.
fn have_same_kept(alloc: Global, own: &Sets, frame: &Sets) -> Result<bool, AllocError>
    ensures { IfOk result (λ same. OnTrue same (HaveSameKept own.now.sps own.now.pps frame.now.sps frame.now.pps)) }
{
    are_sets(own);
    are_sets(frame);
    if !are_same(&keep_sps(alloc, &frame.sps)?, &keep_sps(alloc, &own.sps)?) {
        return Ok(false);
    }
    if !are_same(&keep_pps(alloc, &frame.pps)?, &keep_pps(alloc, &own.pps)?) {
        return Ok(false);
    }
    Ok(true)
}

/// Returns whether a PPS has the filter and the QP in slice headers.
fn is_apart(pps: &Pps) -> bool
    ensures { OnTrue result (IsApart pps.now) }
{
    pps.scope().latest(pps_alf_info_in_ph_flag) == 0
        && pps.scope().latest(pps_qp_delta_info_in_ph_flag) == 0
}

/// Returns whether a header can have such numbers.
fn is_shape(shape: &PhShape) -> bool
    ensures { OnTrue result (IsShape shape.now) }
{
    let has_lmcs = match shape.lmcs {
        Some(lmcs) => lmcs.id < 4,
        None => true,
    };
    let has_scaling = match shape.scaling {
        Some(id) => id < 8,
        None => true,
    };
    shape.pps_id < 64 && has_lmcs && has_scaling
}

/// Returns what a header says of luma mapping with chroma scaling.
fn lmcs_of(header: &PictureHeader) -> Result<Option<LmcsShape>, LineFault> {
    let fields = &header.fields;
    if number(fields, ph_lmcs_enabled_flag) == 0 {
        return Ok(None);
    }
    Ok(Some(LmcsShape {
        id: small(number(fields, ph_lmcs_aps_id))?,
        scales_chroma: number(fields, ph_chroma_residual_scale_flag) != 0,
    }))
}

/// Returns what a header says that isn't its source's.
fn shape_of(header: &PictureHeader) -> Result<PhShape, LineFault> {
    let fields = &header.fields;
    let has_scaling = number(fields, ph_explicit_scaling_list_enabled_flag) != 0;
    let scaling = small(number(fields, ph_scaling_list_aps_id))?;
    Ok(PhShape {
        pps_id: small(number(fields, ph_pic_parameter_set_id))?,
        lmcs: lmcs_of(header)?,
        scaling: if has_scaling { Some(scaling) } else { None },
    })
}

/// Returns what a unit says under sets that isn't its source's.
fn like_of(alloc: Global, like: &[u8], frame: &Sets) -> Result<PhShape, LineFault>
    requires { length like.now ≤ unit_limit }
{
    let header = read_ph_unit(alloc, like, &frame.sps, &frame.pps)?;
    shape_of(&header)
}

/// Returns the unit that is sent of a header that was read.
fn rewritten(
    alloc: Global,
    source: &PictureHeader,
    shape: &PhShape,
    frame: &Sets,
) -> Result<Vec<u8>, AllocError>
    requires shape { IsShape shape.now }
    requires source { GoesUnder source.now frame.now.sps frame.now.pps }
{
    let header = reshape_ph(alloc, source, shape, &frame.sps, &frame.pps)?;
    write_ph(alloc, &header, &frame.sps, &frame.pps)
}

/// Appends the unit that is sent of a header that was read.
fn write_rewritten(
    text: &mut String,
    alloc: Global,
    source: &PictureHeader,
    shape: &PhShape,
    frame: &Sets,
) -> Result<(), LineFault>
    requires shape { IsShape shape.now }
    requires source { GoesUnder source.now frame.now.sps frame.now.pps }
{
    let unit = rewritten(alloc, source, shape, frame)?;
    write_reshaped(text, unit.as_slice())
}

/// Appends the unit that is sent of the header that is read.
fn write_sent(
    text: &mut String,
    alloc: Global,
    own: &Sets,
    frame: &Sets,
    bits: &mut BitReader<'_>,
    shape: &PhShape,
) -> Result<(), LineFault>
    requires shape { IsShape shape.now }
    requires same { HaveSameKept own.now.sps own.now.pps frame.now.sps frame.now.pps }
    requires apart { IsApart frame.now.pps }
{
    let source = read_ph(alloc, bits, &own.sps, &own.pps)?;
    write_rewritten(text, alloc, &source, shape, frame)
}

/// Appends what is written of the header that is read under a source's sets, and that is rewritten to say what a unit says under those of
/// a frame.
///
/// *Errors:* the first refusal; if it can't say that; lack of memory.
pub(crate) fn answer_reshaped_ph(
    text: &mut String,
    alloc: Global,
    own: &Sets,
    frame: &Sets,
    bits: &mut BitReader<'_>,
    like: &[u8],
) -> Result<(), LineFault>
    requires { length like.now ≤ unit_limit }
{
    let shape = like_of(alloc, like, frame)?;
    if !is_shape(&shape) {
        return Err(LineFault::Shape);
    }
    if !is_apart(&frame.pps) {
        return Err(LineFault::Shape);
    }
    if !have_same_kept(alloc, own, frame)? {
        return Err(LineFault::Shape);
    }
    write_sent(text, alloc, own, frame, bits, &shape)
}
