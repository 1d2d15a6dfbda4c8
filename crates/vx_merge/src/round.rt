//! A round, merged into one picture and written.
ghost use Rattle.std.specs.Prelude.{◌≡◌, ℕ, ◌<◌, ◌∷◌, [], ◌++◌, List, Option, length, map, flat_map, option_map, IfOk, IfSome, OnOk};
ghost use Rattle.vx_ph.specs.InForce.{in_force, structures};
ghost use Rattle.vx_ph.specs.Picture.{IsHeader};
ghost use Rattle.vx_ph.specs.Reshaped.{IsReshapedPictureHeader};
ghost use Rattle.vx_pic.specs.Resident.{kept_for as sets_kept_for};
ghost use Rattle.vx_pic.specs.Written.{Plan, SetUnit, a_pps};
ghost use Rattle.vx_write.specs.Slots.{AreLastOf, pps_with_id};
ghost use Rattle.vx_write.specs.Units.{IsSeiUnit};
ghost use Rattle.vx_frame.specs.declared.corner.Corner.{Corner};
ghost use Rattle.vx_frame.specs.Corners.{AreCorners};
ghost use Rattle.vx_frame.specs.Rounds.{picture_at};
ghost use Rattle.vx_frame.specs.Rules.{rules_of};
ghost use Rattle.vx_frame.specs.Shapes.{IsFrame};
ghost use Rattle.vx_frame.specs.Counts.{pps_slots};
ghost use Rattle.vx_frame.specs.inner.Found.{Tries};
ghost use Rattle.vx_frame.specs.inner.Gathered.{AreGathered};
ghost use Rattle.vx_frame.specs.inner.Frames.{HasPps, IsKeptFrame, IsSomeUsed, IsUsedFor, ServesAs};
ghost use Rattle.vx_merge.specs.Headers.{ph_shape};
ghost use Rattle.vx_merge.specs.Merging.{Stands};
ghost use Rattle.vx_merge.specs.Slots.{TakeSlots};
ghost use Rattle.vx_merge.specs.inner.Progress.{HasHistory, IsProgress, merging_of};
ghost use Rattle.vx_merge.specs.inner.Making.{AreHeaders, HasPayloads, AreRoundUnits, payloads_in};
ghost use Rattle.vx_merge.specs.inner.Counting.{AreUnitsOf, MakesRound};
ghost use Rattle.vx_merge.specs.inner.Ready.{AreNeeded, IsReadyAt, ids_in};
ghost use Rattle.vx_merge.specs.inner.Sending.{CanBeSent};

use crate::fronts::slice_fronts;
use crate::limits::bytes_within;
use crate::needed::{RoundSets, needed, taken_pps_id};
use crate::output::RoundUnits;
use crate::picture_header::{header_unit, picture_header};
use crate::progress::Progress;
use crate::send::send_needed;
use std::alloc::{AllocError, Global};
use vx_bits::BodyList;
use vx_frame::{Corner, Frame, RoundBodies, have_pps, round_bodies, sound_frame};
use vx_layout::Layout;
use vx_ph::PictureHeader;
use vx_pic::{Kind, Picture};
use vx_write::{Slots, WriteError, forget_before, sei_unit};

// ---- payloads

/// Appends the payloads of a picture's slices.
fn add_payloads<'a>(payloads: &mut BodyList<'a>, picture: &Picture<'a>) -> Result<(), AllocError>
    ensures { OnOk result (map (λ b. b.now) payloads.new ≡ map (λ b. b.now) payloads.old ++ payloads_in picture.now) }
{
    for i in 0..picture.slice_count() {
        payloads.push(picture.slice(i).payload)?;
    }
    Ok(())
}

/// Returns the payloads of all slices, by source and then by address.
fn payloads<'a>(alloc: Global, round: &[Picture<'a>]) -> Result<BodyList<'a>, AllocError>
    ensures { IfOk result (λ payloads. map (λ b. b.now) payloads ≡ flat_map payloads_in round.now) }
{
    let mut payloads = BodyList::new(alloc);
    for k in 0..round.len() {
        add_payloads(&mut payloads, &round[k])?;
    }
    Ok(payloads)
}

// ---- the first picture

/// Returns the kind of source 0's picture.
fn kind_of(round: &[Picture<'_>]) -> Kind
    requires { 0 < length round.now }
    ensures value { result ≡ (picture_at round.now 0).kind }
    ensures tid { result.temporal_id < 7 }
    ensures some { 0 < length (picture_at round.now 0).slices }
{
    let first = &round[0];
    let _some = first.slice_count();
    first.kind()
}

/// Makes the unit of source 0's messages.
fn messages_unit(alloc: Global, round: &[Picture<'_>]) -> Result<Option<Vec<u8>>, AllocError>
    requires { 0 < length round.now }
    ensures { IfOk result (λ sei. IsSeiUnit (picture_at round.now 0).kind.temporal_id (picture_at round.now 0).messages
        (option_map (λ u. record { unit = u.items; messages = (picture_at round.now 0).messages }) sei)) }
{
    let source = &round[0];
    sei_unit(alloc, source.messages(), source.kind().temporal_id)
}

/// Returns what is written as it is: the unit of source 0's messages, and all payloads.
fn kept_parts<'a>(
    alloc: Global,
    round: &[Picture<'a>],
) -> Result<(Option<Vec<u8>>, BodyList<'a>), AllocError>
    requires { 0 < length round.now }
    ensures sei { IfOk result (λ parts. IsSeiUnit (picture_at round.now 0).kind.temporal_id (picture_at round.now 0).messages
        (option_map (λ u. record { unit = u.items; messages = (picture_at round.now 0).messages }) parts.0)) }
    ensures payloads { IfOk result (λ parts. map (λ b. b.now) parts.1 ≡ flat_map payloads_in round.now) }
{
    let sei = messages_unit(alloc, round)?;
    let payloads = payloads(alloc, round)?;
    Ok((sei, payloads))
}

// ---- headers

/// The units of the headers of a round.
#[derive(Drop)]
struct HeaderUnits {
    /// The PH unit.
    header: Vec<u8>,
    /// The units of the slices, up to their payloads.
    fronts: Vec<Vec<u8>>,
}

/// Makes the units of the headers of a round that has this picture header.
fn units_with_header(
    alloc: Global,
    round: &[Picture<'_>],
    needed: &RoundSets<'_, '_>,
    header: &PictureHeader,
    layout: &Layout,
) -> Result<HeaderUnits, AllocError>
    requires ready { IsReadyAt round.now needed.now layout.now }
    requires says { IsReshapedPictureHeader (picture_at round.now 0).header (ph_shape round.now (ids_in needed.now)) needed.now.sps.now needed.now.pps.now header.now }
    requires is { IsHeader (structures needed.now.sps.now) (in_force needed.now.sps.now needed.now.pps.now) header.now }
    ensures { IfOk result (λ h. AreHeaders round.now needed.now layout.now h.header.items (map (λ u. u.items) h.fronts.items)) }
{
    let temporal_id = kind_of(round).temporal_id;
    let unit = header_unit(alloc, header, needed, temporal_id)?;
    let fronts = slice_fronts(alloc, round, needed, header, layout)?;
    Ok(HeaderUnits {
        header: unit,
        fronts,
    })
}

/// Makes the units of the headers of a round, under the sets that it needs and in its frame.
fn header_units(
    alloc: Global,
    round: &[Picture<'_>],
    needed: &RoundSets<'_, '_>,
    layout: &Layout,
) -> Result<HeaderUnits, AllocError>
    requires { IsReadyAt round.now needed.now layout.now }
    ensures { IfOk result (λ h. AreHeaders round.now needed.now layout.now h.header.items (map (λ u. u.items) h.fronts.items)) }
{
    match picture_header(alloc, round, needed) {
        Ok(header) => units_with_header(alloc, round, needed, &header, layout),
        Err(error) => Err(error),
    }
}

// ---- all of it

/// Makes all units of a round, under the sets that it needs and in its frame.
fn units_with<'a>(
    alloc: Global,
    layout: &Layout,
    slots: &mut Slots,
    round: &[Picture<'a>],
    needed: &RoundSets<'_, '_>,
) -> Result<RoundUnits<'a>, AllocError>
    requires ready { IsReadyAt round.now needed.now layout.now }
    requires can { CanBeSent needed.now }
    ensures payloads { IfOk result HasPayloads }
    ensures units { (corners : List Corner) (level : Option ℕ) (history : List SetUnit) → IsFrame corners round.now layout.now
        → AreNeeded corners level round.now layout.now (sets_kept_for (picture_at round.now 0).kind.nal_type history) needed.now
        → AreLastOf (sets_kept_for (picture_at round.now 0).kind.nal_type history) slots.old
        → IfOk result (λ units. AreRoundUnits corners level round.now history units slots.new) }
{
    let kind = kind_of(round);
    let headers = header_units(alloc, round, needed, layout)?;
    let sets = send_needed(alloc, slots, needed, kind.temporal_id)?;
    let (sei, payloads) = kept_parts(alloc, round)?;
    Ok(RoundUnits {
        after_eos: kind.after_eos,
        sets,
        sei,
        header: headers.header,
        fronts: headers.fronts,
        payloads,
    })
}

/// Makes all units of a round that breaks no rule, with its PPS under this id.
fn units_under<'a>(
    alloc: Global,
    frame: &Frame,
    pps_id: u8,
    slots: &mut Slots,
    round: &[Picture<'a>],
    bodies: RoundBodies<'a>,
) -> Result<RoundUnits<'a>, AllocError>
    requires bodies { AreGathered round.now bodies }
    requires frame { IsSomeUsed round.now frame.now }
    requires pps { HasPps round.now pps_id frame.now }
    requires low { pps_id < pps_slots }
    requires taken { (sent : List SetUnit) → AreLastOf sent slots.old
        → TakeSlots pps_slots 1 (picture_at round.now 0).kind.temporal_id sent (λ k id. a_pps (pps_with_id id frame.now.plain)) (pps_id ∷ []) }
    requires slots { HasHistory slots.old }
    ensures payloads { IfOk result HasPayloads }
    ensures units { (corners : List Corner) (level : Option ℕ) (history : List SetUnit) → IsUsedFor corners level round.now frame.now
        → AreLastOf (sets_kept_for (picture_at round.now 0).kind.nal_type history) slots.old
        → IfOk result (λ units. AreRoundUnits corners level round.now history units slots.new) }
{
    match needed(alloc, round, bodies, frame, pps_id, slots) {
        Ok(needed) => units_with(alloc, &frame.layout, slots, round, &needed),
        Err(error) => Err(error),
    }
}

/// Makes all units of a round that breaks no rule, in its frame, after the sets that were sent.
fn units_behind<'a>(
    alloc: Global,
    frame: &mut Frame,
    slots: &mut Slots,
    round: &[Picture<'a>],
    bodies: RoundBodies<'a>,
) -> Result<RoundUnits<'a>, AllocError>
    requires bodies { AreGathered round.now bodies }
    requires used { IsSomeUsed round.now frame.old }
    requires slots { HasHistory slots.old }
    ensures frame { OnOk result (ServesAs round.now frame.old frame.new) }
    ensures payloads { IfOk result HasPayloads }
    ensures units { (corners : List Corner) (level : Option ℕ) (history : List SetUnit) → IsUsedFor corners level round.now frame.old → AreLastOf history slots.old
        → IfOk result (λ units. AreRoundUnits corners level round.now history units slots.new) }
{
    let kind = kind_of(round);
    forget_before(slots, kind.nal_type);
    let pps_id = taken_pps_id(slots, kind.temporal_id, &frame.plain);
    have_pps(alloc, frame, round, pps_id)?;
    units_under(alloc, frame, pps_id, slots, round, bodies)
}

/// Makes all units of a round that breaks no rule, in its frame, which is then kept.
fn units_kept<'a>(
    alloc: Global,
    frame: Box<Frame>,
    kept: &mut Option<Box<Frame>>,
    slots: &mut Slots,
    round: &[Picture<'a>],
    bodies: RoundBodies<'a>,
) -> Result<RoundUnits<'a>, AllocError>
    requires bodies { AreGathered round.now bodies }
    requires used { IsSomeUsed round.now frame.value }
    requires slots { HasHistory slots.old }
    ensures kept { OnOk result (IfSome kept.new (λ f. ServesAs round.now frame.value f.value)) }
    ensures payloads { IfOk result HasPayloads }
    ensures units { (corners : List Corner) (level : Option ℕ) (history : List SetUnit) → IsUsedFor corners level round.now frame.value → AreLastOf history slots.old
        → IfOk result (λ units. AreRoundUnits corners level round.now history units slots.new) }
{
    let mut own = frame;
    let made = units_behind(alloc, &mut own, slots, round, bodies);
    drop(kept.replace(own));
    made
}

/// Makes all units of a round that breaks no rule, after the sets that were sent.
///
/// A frame of the round is kept, even if memory runs out afterwards. *Errors:* the first rule that the round breaks, or lack of memory.
fn sound_units<'a>(
    alloc: Global,
    corners: &[Corner],
    level: Option<u8>,
    kept: &mut Option<Box<Frame>>,
    slots: &mut Slots,
    round: &[Picture<'a>],
) -> Result<RoundUnits<'a>, WriteError>
    requires corners { AreCorners corners.now }
    requires same { length corners.now ≡ length round.now }
    requires kept { IfSome kept.old (λ f. IsKeptFrame corners.now level f.value) }
    requires slots { HasHistory slots.old }
    ensures kept { OnOk result (IfSome kept.new (λ f. IsKeptFrame corners.now level f.value)) }
    ensures payloads { IfOk result HasPayloads }
    ensures units { (history : List SetUnit) → AreLastOf history slots.old
        → Tries (length round.now) (rules_of corners.now round.now) (AreUnitsOf corners.now level round.now history slots.new) result }
{
    let bodies = round_bodies(alloc, round)?;
    let frame = sound_frame(alloc, corners, level, kept.take(), round, &bodies)?;
    let units = units_kept(alloc, frame, kept, slots, round, bodies)?;
    Ok(units)
}

/// Makes all units of a round, which then counts as written.
///
/// *Errors:* the first rule that the round breaks, or the first limit that the merged picture would exceed, or lack of memory.
pub(crate) fn round_units<'a>(
    alloc: Global,
    corners: &[Corner],
    level: Option<u8>,
    progress: &mut Progress,
    round: &[Picture<'a>],
) -> Result<RoundUnits<'a>, WriteError>
    requires corners { AreCorners corners.now }
    requires same { length corners.now ≡ length round.now }
    requires progress { IsProgress corners.now level progress.old }
    ensures progress { OnOk result (IsProgress corners.now level progress.new) }
    ensures payloads { IfOk result HasPayloads }
    ensures answer { (done : List Plan) → Stands (merging_of corners.now level progress.old) done
        → MakesRound round.now done (merging_of corners.now level progress.new) result }
{
    let kept = &mut progress.frame;
    let units = sound_units(alloc, corners, level, kept, &mut progress.slots, round)?;
    match bytes_within(&units, progress.bytes) {
        Ok(total) => {
            progress.bytes = total;
            Ok(units)
        }
        Err(refusal) => Err(WriteError::Refused(refusal)),
    }
}
