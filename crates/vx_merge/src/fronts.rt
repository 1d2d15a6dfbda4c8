//! The slices of the merged picture, up to their payloads.
ghost use Rattle.std.specs.Prelude.{◌≡◌, ℕ, ◌<◌, ◌≤◌, ◌++◌, List, length, map, slice_get, IfOk, IfSome, OnOk};
ghost use Rattle.vx_ph.specs.InForce.{in_force, structures};
ghost use Rattle.vx_ph.specs.Picture.{IsHeader};
ghost use Rattle.vx_ph.specs.Reshaped as ph_reshaped;
ghost use Rattle.vx_pic.specs.Parts.{SlicePart};
ghost use Rattle.vx_pic.specs.Readings.{Begun};
ghost use Rattle.vx_frame.specs.Rounds.{picture_at};
ghost use Rattle.vx_merge.specs.Headers.{IsFront, ph_shape, sourced};
ghost use Rattle.vx_merge.specs.inner.Fronts.{AreFronts, IsBegun, IsInForce};
ghost use Rattle.vx_merge.specs.inner.Ready.{IsReadyAt, ids_in};

use crate::needed::RoundSets;
use crate::slice_shape::{filter_in, slice_shape};
use std::alloc::{AllocError, Global};
use vx_layout::Layout;
use vx_ph::PictureHeader;
use vx_pic::{Picture, picture_ids};
use vx_sh::{SliceNumbers, SliceSender, slice_has_filter};
use vx_write::plain_unit;

/// Makes the unit of slice `i` of source `k`, up to its payload.
fn slice_front(
    alloc: Global,
    round: &[Picture<'_>],
    needed: &RoundSets<'_, '_>,
    sender: &SliceSender<'_>,
    k: usize,
    i: u32,
) -> Result<Vec<u8>, AllocError>
    requires k { k < length round.now }
    requires i { i < length (picture_at round.now k).slices }
    requires sender { IsInForce round.now needed.now sender.now }
    ensures { (b : Begun) → IsBegun round.now needed.now sender.now.header.now sender.now.layout.now b
        → IfOk result (λ front. IfSome (slice_get (picture_at round.now k).slices i) (λ s. IsFront round.now (ids_in needed.now) (picture_at round.now 0).kind.nal_type b k s front.items)) }
{
    slice_has_filter();
    let (kind, picture) = (round[0].kind(), &round[k]);
    // The picture header is one under the picture's sets.
    let _header = picture.header();
    let slice = picture.slice(i);
    let filter = filter_in(alloc, &needed.alf, picture, slice.header)?;
    let shape = slice_shape(&round[0], picture, k as u32, slice.header, &filter);
    let bytes = sender.send(alloc, slice.header, &shape)?;
    plain_unit(alloc, kind.nal_type, kind.temporal_id, &bytes)
}

/// Appends the units of the slices of source `k`.
fn push_fronts(
    alloc: Global,
    round: &[Picture<'_>],
    needed: &RoundSets<'_, '_>,
    sender: &SliceSender<'_>,
    k: usize,
    fronts: &mut Vec<Vec<u8>>,
) -> Result<(), AllocError>
    requires k { k < length round.now }
    requires sender { IsInForce round.now needed.now sender.now }
    ensures { (b : Begun) (before : List (ℕ × SlicePart)) → IsBegun round.now needed.now sender.now.header.now sender.now.layout.now b
        → AreFronts round.now needed.now b before (map (λ f. f.items) fronts.old.items)
        → OnOk result (AreFronts round.now needed.now b (before ++ map (λ s. (k, s)) (picture_at round.now k).slices) (map (λ f. f.items) fronts.new.items)) }
{
    for i in 0..round[k].slice_count() {
        fronts.push(slice_front(alloc, round, needed, sender, k, i)?)?;
    }
    Ok(())
}

/// Makes the units of the slices of all sources, under what is in force for them.
fn fronts_at(
    alloc: Global,
    round: &[Picture<'_>],
    needed: &RoundSets<'_, '_>,
    numbers: &SliceNumbers<'_>,
) -> Result<Vec<Vec<u8>>, AllocError>
    requires numbers { IsInForce round.now needed.now numbers.now }
    ensures { (b : Begun) → IsBegun round.now needed.now numbers.now.header.now numbers.now.layout.now b
        → IfOk result (λ fronts. AreFronts round.now needed.now b (sourced 0 round.now) (map (λ f. f.items) fronts.items)) }
{
    let sender = SliceSender::new(*numbers);
    let mut fronts = Vec::new(alloc);
    for k in 0..round.len() {
        push_fronts(alloc, round, needed, &sender, k, &mut fronts)?;
    }
    Ok(fronts)
}

/// Makes the units of the slices of all pictures, up to their payloads, by source and then by address.
pub(crate) fn slice_fronts(
    alloc: Global,
    round: &[Picture<'_>],
    needed: &RoundSets<'_, '_>,
    header: &PictureHeader,
    layout: &Layout,
) -> Result<Vec<Vec<u8>>, AllocError>
    requires ready { IsReadyAt round.now needed.now layout.now }
    requires says { ph_reshaped.IsReshapedPictureHeader (picture_at round.now 0).header (ph_shape round.now (ids_in needed.now)) needed.now.sps.now needed.now.pps.now header.now }
    requires is { IsHeader (structures needed.now.sps.now) (in_force needed.now.sps.now needed.now.pps.now) header.now }
    ensures { (b : Begun) → IsBegun round.now needed.now header.now layout.now b
        → IfOk result (λ fronts. AreFronts round.now needed.now b (sourced 0 round.now) (map (λ f. f.items) fronts.items)) }
{
    let ids = picture_ids(alloc, needed.sps, needed.pps)?;
    let numbers = SliceNumbers {
        nal_type: round[0].kind().nal_type,
        sps: needed.sps,
        pps: needed.pps,
        header,
        layout,
        ids: &ids,
    };
    let fronts = fronts_at(alloc, round, needed, &numbers)?;
    Ok(fronts)
}
