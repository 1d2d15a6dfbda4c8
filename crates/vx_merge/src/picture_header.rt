//! The picture header of a merged picture.
ghost use Rattle.std.specs.Prelude.{◌≡◌, ℕ, ◌<◌, List, false, slice_get, option_map, IfOk};
ghost use Rattle.vx_ph.specs.InForce.{in_force, structures};
ghost use Rattle.vx_ph.specs.Picture.{IsHeader, IsPictureHeaderUnit};
ghost use Rattle.vx_ph.specs.Reshaped.{IsReshapedPictureHeader};
ghost use Rattle.vx_pic.specs.declared.unit_types.TheConstants as types;
ghost use Rattle.vx_write.specs.Units.{IsUnitOf};
ghost use Rattle.vx_frame.specs.Bodies as bodies;
ghost use Rattle.vx_frame.specs.Rounds.{picture_at};
ghost use Rattle.vx_frame.specs.Shapes.{of_lowest};
ghost use Rattle.vx_merge.specs.Headers as spec;
ghost use Rattle.vx_merge.specs.inner.Ready.{IsSomeReady, ids_in};

use crate::needed::{NamedBodies, RoundSets};
use std::alloc::{AllocError, Global};
use vx_ph::{LmcsShape, PhShape, PictureHeader, reshape_ph, write_ph};
use vx_pic::{PH_NUT, Picture};
use vx_write::plain_unit;

/// Returns the id of the first body, if there is one.
fn first_id(named: &NamedBodies<'_>) -> Option<u8>
    ensures { result ≡ slice_get named.now.ids.items 0 }
{
    named.ids.first().copied()
}

/// Returns what the header says of luma mapping with chroma scaling, if a source has it.
fn lmcs_shape(
    _round: &[Picture<'_>],
    lmcs: &NamedBodies<'_>,
    scales_chroma: bool,
) -> Option<LmcsShape>
    requires { scales_chroma ≡ of_lowest bodies.has_lmcs bodies.is_chroma_scaled false _round.now }
    ensures { result ≡ option_map (spec.lmcs_shape _round.now) (slice_get lmcs.now.ids.items 0) }
{
    let id = first_id(lmcs)?;
    Some(LmcsShape { id, scales_chroma })
}

/// Returns what the header says.
fn shape_of(round: &[Picture<'_>], needed: &RoundSets<'_, '_>) -> PhShape
    requires { needed.now.scales_chroma ≡ of_lowest bodies.has_lmcs bodies.is_chroma_scaled false round.now }
    ensures { result ≡ spec.ph_shape round.now (ids_in needed.now) }
{
    PhShape {
        pps_id: needed.pps_id,
        lmcs: lmcs_shape(round, &needed.lmcs, needed.scales_chroma),
        scaling: first_id(&needed.scaling),
    }
}

/// Makes the picture header of a round, under the sets that are sent for it.
pub(crate) fn picture_header(
    alloc: Global,
    round: &[Picture<'_>],
    needed: &RoundSets<'_, '_>,
) -> Result<PictureHeader, AllocError>
    requires ready { IsSomeReady round.now needed.now }
    ensures says { IfOk result (λ header. IsReshapedPictureHeader (picture_at round.now 0).header (spec.ph_shape round.now (ids_in needed.now)) needed.now.sps.now needed.now.pps.now header) }
    ensures is { IfOk result (λ header. IsHeader (structures needed.now.sps.now) (in_force needed.now.sps.now needed.now.pps.now) header) }
{
    let shape = shape_of(round, needed);
    reshape_ph(alloc, round[0].header(), &shape, needed.sps, needed.pps)
}

/// Makes the unit of a picture header (H.266 7.3.2.7).
pub(crate) fn header_unit(
    alloc: Global,
    header: &PictureHeader,
    needed: &RoundSets<'_, '_>,
    temporal_id: u8,
) -> Result<Vec<u8>, AllocError>
    requires tid { temporal_id < 7 }
    requires is { IsHeader (structures needed.now.sps.now) (in_force needed.now.sps.now needed.now.pps.now) header.now }
    ensures { IfOk result (λ unit. (rbsp : List ℕ) × IsPictureHeaderUnit (structures needed.now.sps.now) (in_force needed.now.sps.now needed.now.pps.now) header.now rbsp × IsUnitOf types.PH_NUT temporal_id rbsp unit.items) }
{
    let rbsp = write_ph(alloc, header, needed.sps, needed.pps)?;
    let unit = plain_unit(alloc, PH_NUT, temporal_id, &rbsp)?;
    Ok(unit)
}
