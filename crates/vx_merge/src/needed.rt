//! The sets that a round needs.
ghost use Rattle.std.specs.Prelude.{◌≡◌, ℕ, ◌<◌, ◌≤◌, ◌∷◌, [], List, Option, None, false, length, map, option_copied, option_to_list, IfOk};
ghost use Rattle.std.specs.Bool.{OnTrue};
ghost use Rattle.std.specs.List.{AllByRecursion};
ghost use Rattle.vx_aps.specs.declared.aps.TheConstants as types;
ghost use Rattle.vx_fit.specs.Lowest.{IsLowestAnswer};
ghost use Rattle.vx_pps.specs.Pps.{ArePpsItems};
ghost use Rattle.vx_pic.specs.Written.{SetUnit, a_pps};
ghost use Rattle.vx_write.specs.Slots.{AreLastOf, pps_with_id};
ghost use Rattle.vx_frame.specs.Bodies as words;
ghost use Rattle.vx_frame.specs.Rounds.{picture_at};
ghost use Rattle.vx_frame.specs.Shapes.{of_lowest};
ghost use Rattle.vx_frame.specs.Counts.{alf_slots, lmcs_slots, pps_slots, scaling_slots};
ghost use Rattle.vx_frame.specs.inner.Gathered.{AreGathered, HasNone, IsLowestWith};
ghost use Rattle.vx_frame.specs.declared.corner.Corner.{Corner};
ghost use Rattle.vx_frame.specs.inner.Frames.{HasPps, IsSomeUsed, IsUsedFor};
ghost use Rattle.vx_merge.specs.Needed.{lmcs_bodies, scaling_bodies};
ghost use Rattle.vx_merge.specs.Slots.{TakeSlots};
ghost use Rattle.vx_merge.specs.inner.Ready.{AreNeeded};
ghost use Rattle.vx_merge.specs.inner.Sending.{AreNamed, CanBeSent, HasEnds, HaveEnds};
ghost use Rattle.vx_merge.specs.inner.Taking.{IsEmptyPps, IsHeldAs};

use crate::ids::{Search, take_ids};
use std::alloc::{AllocError, Global};
use vx_aps::{ALF, LMCS, SCALING};
use vx_bits::BodyList;
use vx_frame::{Frame, RoundBodies, is_chroma_scaled, lmcs_body, pps_under, scaling_body};
use vx_pic::Picture;
use vx_pps::Pps;
use vx_sps::Sps;
use vx_write::Slots;

/// How many ids PPSs have (H.266 7.4.3.5).
const PPS_SLOTS: u8 = 64;

/// The bodies of one type of adaptation parameter sets, and the ids that they take, in the same order.
#[derive(Drop)]
pub(crate) struct NamedBodies<'a> {
    /// The bodies.
    pub(crate) bodies: BodyList<'a>,
    /// Their ids.
    pub(crate) ids: Vec<u8>,
}

/// The sets that a round needs, with the ids that they take.
pub(crate) struct RoundSets<'s, 'a> {
    /// The SPS, with id 0.
    pub(crate) sps: &'s Sps,
    /// The PPS.
    pub(crate) pps: &'s Pps,
    /// The id of the PPS.
    pub(crate) pps_id: u8,
    /// The adaptive loop filters.
    pub(crate) alf: NamedBodies<'a>,
    /// The luma mapping with chroma scaling, if a source has it.
    pub(crate) lmcs: NamedBodies<'a>,
    /// Whether the lowest source that has it scales chroma residuals.
    pub(crate) scales_chroma: bool,
    /// The scaling lists, if a source has them.
    pub(crate) scaling: NamedBodies<'a>,
}

impl Drop for RoundSets<'_, '_> {
    fn drop(self) {
        let RoundSets {
            sps: _,
            pps: _,
            pps_id: _,
            alf: _,
            lmcs: _,
            scales_chroma: _,
            scaling: _,
        } = self;
    }
}

// ---- bodies

/// States that the bodies of a picture can end a unit. Does nothing.
fn bodies_of(picture: &Picture<'_>)
    ensures { HasEnds picture.now }
{
    for place in 0..24 {
        let _body = picture.body(place / 8, place % 8);
    }
}

/// States that the bodies of all pictures can end a unit. Does nothing.
fn all_bodies(round: &[Picture<'_>])
    ensures { AllByRecursion HasEnds round.now }
{
    for k in 0..round.len() {
        bodies_of(&round[k]);
    }
}

/// Returns whether a round needs no adaptation parameter set.
fn has_none(bodies: &RoundBodies<'_>) -> bool
    ensures { OnTrue result (HasNone bodies.now) }
{
    if 0 < bodies.filters.bodies.len() {
        return false;
    }
    if bodies.lmcs.is_some() {
        return false;
    }
    if bodies.scaling.is_some() {
        return false;
    }
    true
}

/// States that the bodies that a round needs can end a unit. Does nothing, and looks at no picture if there are none.
fn bodies_end(round: &[Picture<'_>], bodies: &RoundBodies<'_>)
    requires gathered { AreGathered round.now bodies.now }
    requires few { bodies.now.filters.too_many ≡ None }
    ensures { HaveEnds round.now }
{
    if has_none(bodies) {
        return;
    }
    all_bodies(round);
}

/// Returns the LMCS body of the lowest source that has one.
fn shared_lmcs<'a>(round: &[Picture<'a>], lowest: Option<u16>) -> Option<&'a [u8]>
    requires { IsLowestWith words.has_lmcs round.now lowest }
    ensures { option_copied result ≡ of_lowest words.has_lmcs words.lmcs_body None round.now }
{
    match lowest {
        Some(k) => lmcs_body(&round[usize::from(k)]),
        None => None,
    }
}

/// Returns whether that source scales chroma residuals.
fn scales_chroma(round: &[Picture<'_>], lowest: Option<u16>) -> bool
    requires { IsLowestWith words.has_lmcs round.now lowest }
    ensures { result ≡ of_lowest words.has_lmcs words.is_chroma_scaled false round.now }
{
    match lowest {
        Some(k) => is_chroma_scaled(&round[usize::from(k)]),
        None => false,
    }
}

/// Returns the scaling lists of the lowest source that has them.
fn shared_scaling<'a>(round: &[Picture<'a>], lowest: Option<u16>) -> Option<&'a [u8]>
    requires { IsLowestWith words.has_scaling round.now lowest }
    ensures { option_copied result ≡ of_lowest words.has_scaling words.scaling_body None round.now }
{
    match lowest {
        Some(k) => scaling_body(&round[usize::from(k)]),
        None => None,
    }
}

/// Returns a list of the body, if there is one.
fn one_or_none<'a>(alloc: Global, body: Option<&'a [u8]>) -> Result<BodyList<'a>, AllocError>
    ensures { IfOk result (λ found. map (λ b. b.now) found ≡ option_to_list (option_copied body.entry)) }
{
    let mut bodies = BodyList::new(alloc);
    match body {
        Some(body) => bodies.push(body)?,
        None => (),
    }
    Ok(bodies)
}

// ---- ids

/// Returns bodies of one type with the ids that they take.
fn named<'a>(
    alloc: Global,
    slots: &Slots,
    search: Search,
    bodies: BodyList<'a>,
) -> Result<NamedBodies<'a>, AllocError>
    requires { length bodies ≤ search.count }
    ensures { IfOk result (AreNamed search.kind search.count search.temporal_id slots.now (map (λ b. b.now) bodies.entry)) }
{
    let ids = take_ids(alloc, slots, search, &bodies)?;
    Ok(NamedBodies { bodies, ids })
}

/// Returns where adaptive loop filters are looked for.
pub(crate) fn of_alf(temporal_id: u8) -> Search
    ensures { result ≡ record { temporal_id = temporal_id; kind = types.ALF; count = alf_slots } }
{
    Search {
        temporal_id,
        kind: ALF,
        count: 8,
    }
}

/// Returns where LMCS bodies are looked for.
pub(crate) fn of_lmcs(temporal_id: u8) -> Search
    ensures { result ≡ record { temporal_id = temporal_id; kind = types.LMCS; count = lmcs_slots } }
{
    Search {
        temporal_id,
        kind: LMCS,
        count: 4,
    }
}

/// Returns where scaling lists are looked for.
pub(crate) fn of_scaling(temporal_id: u8) -> Search
    ensures { result ≡ record { temporal_id = temporal_id; kind = types.SCALING; count = scaling_slots } }
{
    Search {
        temporal_id,
        kind: SCALING,
        count: 8,
    }
}

/// Returns the LMCS body of a round with its id.
fn named_lmcs<'a>(
    alloc: Global,
    slots: &Slots,
    temporal_id: u8,
    round: &[Picture<'a>],
    lowest: Option<u16>,
) -> Result<NamedBodies<'a>, AllocError>
    requires { IsLowestWith words.has_lmcs round.now lowest }
    ensures { IfOk result (AreNamed types.LMCS lmcs_slots temporal_id slots.now (lmcs_bodies round.now)) }
{
    let bodies = one_or_none(alloc, shared_lmcs(round, lowest))?;
    named(alloc, slots, of_lmcs(temporal_id), bodies)
}

/// Returns the scaling lists of a round with their id.
fn named_scaling<'a>(
    alloc: Global,
    slots: &Slots,
    temporal_id: u8,
    round: &[Picture<'a>],
    lowest: Option<u16>,
) -> Result<NamedBodies<'a>, AllocError>
    requires { IsLowestWith words.has_scaling round.now lowest }
    ensures { IfOk result (AreNamed types.SCALING scaling_slots temporal_id slots.now (scaling_bodies round.now)) }
{
    let bodies = one_or_none(alloc, shared_scaling(round, lowest))?;
    named(alloc, slots, of_scaling(temporal_id), bodies)
}

/// Returns the lowest id under which this PPS is resident.
fn held_pps_id(slots: &Slots, temporal_id: u8, pps: &Pps) -> Option<u8>
    ensures { IsLowestAnswer pps_slots (IsHeldAs slots.now temporal_id pps.now) result }
{
    for id in 0..PPS_SLOTS {
        if slots.serves_pps_as(temporal_id, pps, u32::from(id)) {
            return Some(id);
        }
    }
    None
}

/// Returns the lowest id under which no PPS was sent.
fn empty_pps_id(slots: &Slots) -> Option<u8>
    ensures { IsLowestAnswer pps_slots (IsEmptyPps slots.now) result }
{
    for id in 0..PPS_SLOTS {
        if slots.is_pps_vacant(u32::from(id)) {
            return Some(id);
        }
    }
    None
}

/// Returns the id that a PPS takes.
pub(crate) fn taken_pps_id(slots: &Slots, temporal_id: u8, pps: &Pps) -> u8
    requires { ArePpsItems pps.now }
    ensures low { result < pps_slots }
    ensures taken { (sent : List SetUnit) → AreLastOf sent slots.now
        → TakeSlots pps_slots 1 temporal_id sent (λ k id. a_pps (pps_with_id id pps.now)) (result ∷ []) }
{
    match held_pps_id(slots, temporal_id, pps) {
        Some(id) => id,
        None => empty_pps_id(slots).unwrap_or(0),
    }
}

// ---- all

/// Returns the sets that a round with these bodies needs, with the ids that they take.
///
/// The ids depend on the sets that were sent.
pub(crate) fn needed<'s, 'a>(
    alloc: Global,
    round: &[Picture<'a>],
    bodies: RoundBodies<'a>,
    frame: &'s Frame,
    pps_id: u8,
    slots: &Slots,
) -> Result<RoundSets<'s, 'a>, AllocError>
    requires bodies { AreGathered round.now bodies }
    requires frame { IsSomeUsed round.now frame.now }
    requires pps { HasPps round.now pps_id frame.now }
    requires low { pps_id < pps_slots }
    requires taken { (sent : List SetUnit) → AreLastOf sent slots.now
        → TakeSlots pps_slots 1 (picture_at round.now 0).kind.temporal_id sent (λ k id. a_pps (pps_with_id id frame.now.plain)) (pps_id ∷ []) }
    ensures needed { (corners : List Corner) (level : Option ℕ) (sent : List SetUnit) → IsUsedFor corners level round.now frame.now → AreLastOf sent slots.now
        → IfOk result (AreNeeded corners level round.now frame.now.geometry.numbers sent) }
    ensures can { IfOk result CanBeSent }
{
    bodies_end(round, &bodies);
    let temporal_id = round[0].kind().temporal_id;
    let scales_chroma = scales_chroma(round, bodies.lmcs);
    let pps = pps_under(frame, pps_id);
    let filters = bodies.filters.bodies;
    let alf = named(alloc, slots, of_alf(temporal_id), filters)?;
    let lmcs = named_lmcs(alloc, slots, temporal_id, round, bodies.lmcs)?;
    let scaling = named_scaling(alloc, slots, temporal_id, round, bodies.scaling)?;
    Ok(RoundSets {
        sps: &frame.sps,
        pps,
        pps_id,
        alf,
        lmcs,
        scales_chroma,
        scaling,
    })
}
