//! The picture header that is sent for a frame of several sources, made of fields of a source and new ones.
ghost use Rattle.std.specs.Prelude.{◌≡◌, [], ◌++◌, OnOk, IfOk};
ghost use Rattle.vx_ph.specs.declared.tables.TheConstants as tables;
ghost use Rattle.vx_ph.specs.Header.{header_form};
ghost use Rattle.vx_ph.specs.InForce.{in_force, structures};
ghost use Rattle.vx_ph.specs.Picture.{IsHeader};
ghost use Rattle.vx_ph.specs.Reshaped.{lmcs_said, scaling_said, map_items, stated_ph_items, IsShape, GoesUnder, AreReshapedInPictureHeader, IsReshapedPictureHeader};
ghost use Rattle.vx_ph.specs.inner.Makes.{Makes};

use crate::header::PictureHeader;
use crate::scope::in_force;
use crate::shape::{LmcsShape, PhShape};
use crate::tables::STARRED;
use crate::walk::code_header;
use std::alloc::{AllocError, Global};
use vx_bits::Fields;
use vx_fields::ph::{
    ph_chroma_residual_scale_flag, ph_explicit_scaling_list_enabled_flag, ph_lmcs_aps_id,
    ph_lmcs_enabled_flag, ph_pic_parameter_set_id, ph_scaling_list_aps_id,
};
use vx_fields::sps::{
    sps_chroma_format_idc, sps_explicit_scaling_list_enabled_flag, sps_lmcs_enabled_flag,
};
use vx_pps::Pps;
use vx_rpl::{RplTable, resolve_lists};
use vx_sps::Sps;
use vx_table::{Rewriter, Scope, SpellError, Unwritten, item, only_memory, others_of, push_where};

/// Appends luma mapping with chroma scaling.
fn push_lmcs(chroma: u32, lmcs: Option<LmcsShape>, into: &mut Fields) -> Result<(), AllocError>
    ensures { OnOk result (into.new ≡ into.old ++ lmcs_said chroma lmcs) }
{
    let Some(lmcs) = lmcs else {
        return into.push(item(ph_lmcs_enabled_flag, 0));
    };
    into.extend_from_slice(&[
        item(ph_lmcs_enabled_flag, 1),
        item(ph_lmcs_aps_id, u32::from(lmcs.id)),
    ])?;
    let scales = item(ph_chroma_residual_scale_flag, u32::from(lmcs.scales_chroma));
    push_where(chroma != 0, scales, into)
}

/// Appends scaling lists.
fn push_scaling(scaling: Option<u8>, into: &mut Fields) -> Result<(), AllocError>
    ensures { OnOk result (into.new ≡ into.old ++ scaling_said scaling) }
{
    let Some(id) = scaling else {
        return into.push(item(ph_explicit_scaling_list_enabled_flag, 0));
    };
    into.extend_from_slice(&[
        item(ph_explicit_scaling_list_enabled_flag, 1),
        item(ph_scaling_list_aps_id, u32::from(id)),
    ])
}

/// Appends both, each if the SPS has it.
fn push_maps(sps: &Sps, shape: &PhShape, into: &mut Fields) -> Result<(), AllocError>
    ensures { OnOk result (into.new ≡ into.old ++ map_items sps.now shape.now) }
{
    if sps.number(sps_lmcs_enabled_flag) != 0 {
        push_lmcs(sps.number(sps_chroma_format_idc), shape.lmcs, into)?;
    }
    if sps.number(sps_explicit_scaling_list_enabled_flag) != 0 {
        push_scaling(shape.scaling, into)?;
    }
    Ok(())
}

/// Returns all new items, in order.
fn stated_items(alloc: Global, sps: &Sps, shape: &PhShape) -> Result<Fields, AllocError>
    ensures { IfOk result (λ items. items ≡ stated_ph_items sps.now shape.now) }
{
    let mut into = Fields::new(alloc);
    into.push(item(ph_pic_parameter_set_id, u32::from(shape.pps_id)))?;
    push_maps(sps, shape, &mut into)?;
    Ok(into)
}

/// Appends the header that has these items of the fields with a star, and those of the others.
///
/// # Errors
///
/// - `NoValue` if there is none.
/// - `Memory` if memory runs out.
fn put_together(
    stated: &Fields,
    kept: &Fields,
    table: &RplTable,
    mut scope: Scope,
    into: &mut Fields,
) -> Result<(), SpellError>
    requires { into.old ≡ [] }
    ensures { Makes (header_form table.now scope) tables.STARRED stated.now kept.now result into.new }
{
    let mut rewriter = Rewriter::new(
        &STARRED,
        Unwritten::new(stated, 0, stated.len()),
        Unwritten::new(kept, 0, kept.len()),
    );
    code_header(table, &mut scope, &mut rewriter, into)
}

/// Returns the items of the header.
fn reshaped_items(
    alloc: Global,
    source: &PictureHeader,
    shape: &PhShape,
    sps: &Sps,
    pps: &Pps,
) -> Result<Fields, AllocError>
    requires shape { IsShape shape.now }
    requires source { GoesUnder source.now sps.now pps.now }
    ensures { IfOk result (λ items. AreReshapedInPictureHeader source.now.fields shape.now sps.now pps.now items) }
{
    let kept = others_of(alloc, &source.fields, &STARRED)?;
    let stated = stated_items(alloc, sps, shape)?;
    let mut items = Fields::new(alloc);
    match put_together(&stated, &kept, sps.table(), in_force(sps, pps), &mut items) {
        Ok(()) => Ok(items),
        Err(error) => Err(only_memory(error)),
    }
}

/// Returns the picture header that has what `shape` states, and everything else from `source`.
///
/// Its kept fields are the source's. The PPS is stated, and LMCS and scaling lists if the SPS has them; the header has neither
/// filter nor QP. Requires that `shape` is valid, that `sps` and `pps` have the kept fields of the sets under which `source` was
/// read, and that `pps` has the filter and the QP in slice headers.
///
/// # Errors
///
/// `AllocError` if memory runs out.
pub fn reshape_ph(
    alloc: Global,
    source: &PictureHeader,
    shape: &PhShape,
    sps: &Sps,
    pps: &Pps,
) -> Result<PictureHeader, AllocError>
    requires shape { IsShape shape.now }
    requires source { GoesUnder source.now sps.now pps.now }
    ensures reshaped { IfOk result (λ header. IsReshapedPictureHeader source.now shape.now sps.now pps.now header) }
    // It is a header under the sets, which can be written.
    ensures header { IfOk result (λ header. IsHeader (structures sps.now) (in_force sps.now pps.now) header) }
{
    let fields = reshaped_items(alloc, source, shape, sps, pps)?;
    let lists = resolve_lists(alloc, sps.table(), &in_force(sps, pps), fields.as_slice())?;
    Ok(PictureHeader { fields, lists })
}
