//! The sets that are written.
ghost use Rattle.std.specs.Prelude.{◌≡◌, ◌<◌, drop, IfOk};
ghost use Rattle.vx_pic.specs.Sets as sets;
ghost use Rattle.vx_pic.specs.Resident as resident;
ghost use Rattle.vx_pic.specs.Written.{a_pps};
ghost use Rattle.vx_write.specs.Units.{IsSetUnit};
ghost use Rattle.vx_write.specs.inner.Kept.{set_kept};
ghost use Rattle.vx_write.specs.Sets.{set_lent, id_of, unit_tid, CanBeWritten};
ghost use Rattle.vx_write.specs.Slots.{pps_with_id};

use crate::units::{aps_unit, pps_unit, sps_unit};
use std::alloc::{AllocError, Global};
use vx_aps::Aps;
use vx_bits::{CopyList, Fields, Item};
use vx_fields::pps::pps_pic_parameter_set_id;
use vx_pic::same_items;
use vx_pps::Pps;
use vx_sps::Sps;

/// A set that is kept.
#[derive(Drop)]
pub(crate) enum WrittenSet {
    /// The items of a sequence parameter set.
    Sps(Fields),
    /// The items of a picture parameter set.
    Pps(Fields),
    /// An adaptation parameter set.
    Aps(Aps),
}

/// An adaptation parameter set that a picture needs: its type, its id and its body.
#[derive(Clone, Copy)]
pub struct NeededAps<'a> {
    /// aps_params_type
    pub kind: u8,
    /// aps_adaptation_parameter_set_id
    pub id: u8,
    /// The bytes of the RBSP after the first.
    pub body: &'a [u8],
}

/// A set that a picture needs, lent.
#[derive(Clone, Copy)]
pub enum NeededSet<'a> {
    /// A sequence parameter set.
    Sps(&'a Sps),
    /// A picture parameter set.
    Pps(&'a Pps),
    /// An adaptation parameter set.
    Aps(NeededAps<'a>),
}

/// Returns whether two byte strings are equal.
fn same_bytes(a: &[u8], b: &[u8]) -> bool
    ensures { result ≡ resident.same_bytes a.now b.now }
{
    a == b
}

/// Makes an adaptation parameter set with this body.
fn aps_of(alloc: Global, kind: u8, id: u8, bytes: &[u8]) -> Result<Aps, AllocError>
    ensures { IfOk result (λ aps. aps ≡ record { kind = kind; id = id; body = bytes.now }) }
{
    let body = CopyList::from_slice(alloc, bytes)?;
    Ok(Aps { kind, id, body })
}

/// Copies a set to keep it.
pub(crate) fn kept(alloc: Global, set: NeededSet<'_>) -> Result<WrittenSet, AllocError>
    ensures { IfOk result (λ kept. set_kept kept ≡ set_lent set.entry) }
{
    match set {
        NeededSet::Sps(sps) => {
            let items = CopyList::from_slice(alloc, sps.fields().as_slice())?;
            Ok(WrittenSet::Sps(items))
        }
        NeededSet::Pps(pps) => {
            let items = CopyList::from_slice(alloc, pps.fields().as_slice())?;
            Ok(WrittenSet::Pps(items))
        }
        NeededSet::Aps(aps) => {
            let aps = aps_of(alloc, aps.kind, aps.id, aps.body)?;
            Ok(WrittenSet::Aps(aps))
        }
    }
}

/// Returns the id of a set.
#[tactic(auto, unfolding(vx_pic::specs::Sets::sps_id, vx_pic::specs::Sets::pps_id))]
pub(crate) fn id_of_set(set: NeededSet<'_>) -> u32
    ensures { result ≡ id_of (set_lent set.entry) }
{
    match set {
        NeededSet::Sps(sps) => u32::from(sps.sps_id()),
        NeededSet::Pps(pps) => u32::from(pps.pps_id()),
        NeededSet::Aps(aps) => u32::from(aps.id),
    }
}

/// Returns whether a kept set, with this id, has the type and id of `set`.
pub(crate) fn same_slot(kept: &WrittenSet, id: u32, set: NeededSet<'_>) -> bool
    requires { id ≡ id_of (set_kept kept.now) }
    ensures { result ≡ resident.same_slot (set_kept kept.now) (set_lent set.entry) }
{
    let other = id_of_set(set);
    match (kept, set) {
        (WrittenSet::Sps(_), NeededSet::Sps(_)) => id == other,
        (WrittenSet::Pps(_), NeededSet::Pps(_)) => id == other,
        (WrittenSet::Aps(aps), NeededSet::Aps(needed)) => aps.kind == needed.kind && id == other,
        _ => false,
    }
}

/// Returns whether a kept set is the same as `set`.
pub(crate) fn same_set(kept: &WrittenSet, set: NeededSet<'_>) -> bool
    ensures { result ≡ resident.same_set (set_kept kept.now) (set_lent set.entry) }
{
    match (kept, set) {
        (WrittenSet::Sps(items), NeededSet::Sps(sps)) => {
            same_items(items.as_slice(), sps.fields().as_slice())
        }
        (WrittenSet::Pps(items), NeededSet::Pps(pps)) => {
            same_items(items.as_slice(), pps.fields().as_slice())
        }
        (WrittenSet::Aps(aps), NeededSet::Aps(needed)) => {
            aps.kind == needed.kind
                && aps.id == needed.id
                && same_bytes(aps.body.as_slice(), needed.body)
        }
        _ => false,
    }
}

/// Returns the items after the first.
fn behind_first(items: &[Item]) -> &[Item]
    ensures { result.now ≡ drop 1 items.now }
{
    match items.split_first() {
        Some((_, rest)) => rest,
        None => items,
    }
}

/// Returns whether items are those of a PPS under this id.
fn same_with_id(items: &[Item], pps: &[Item], id: u32) -> bool
    ensures { result ≡ sets.same_items items.now (pps_with_id id pps.now) }
{
    let Some((first, rest)) = items.split_first() else {
        return false;
    };
    first.field == pps_pic_parameter_set_id
        && first.value == i64::from(id)
        && same_items(rest, behind_first(pps))
}

/// Returns whether a kept set is the PPS of these items under this id.
pub(crate) fn same_pps_as(kept: &WrittenSet, pps: &[Item], id: u32) -> bool
    ensures { result ≡ resident.same_set (set_kept kept.now) (a_pps (pps_with_id id pps.now)) }
{
    match kept {
        WrittenSet::Pps(items) => same_with_id(items.as_slice(), pps, id),
        _ => false,
    }
}

/// Returns the TemporalId of a set's unit, for a picture of this TemporalId.
pub fn tid_of_unit(set: NeededSet<'_>, temporal_id: u8) -> u8
    ensures { result ≡ unit_tid temporal_id (set_lent set.entry) }
{
    match set {
        NeededSet::Sps(_) => 0,
        _ => temporal_id,
    }
}

/// Makes the unit of a set, for a picture of this TemporalId.
///
/// *Errors:* [`AllocError`] if memory runs out.
pub fn unit_of(alloc: Global, set: NeededSet<'_>, temporal_id: u8) -> Result<Vec<u8>, AllocError>
    requires tid { temporal_id < 7 }
    requires set { CanBeWritten (set_lent set) }
    ensures { IfOk result (λ unit. IsSetUnit temporal_id (set_lent set.entry) unit.items) }
{
    match set {
        NeededSet::Sps(sps) => sps_unit(alloc, sps),
        NeededSet::Pps(pps) => pps_unit(alloc, pps, temporal_id),
        NeededSet::Aps(aps) => aps_unit(alloc, aps.kind, aps.id, aps.body, temporal_id),
    }
}
