//! The units of the sets that a picture needs.
ghost use Rattle.std.specs.Prelude.{◌≡◌, ℕ, ◌+◌, ◌<◌, List, [], ◌∷◌, map, option_copied, option_map, IfOk, IfSome};
ghost use Rattle.vx_bits.specs.declared.list.Item.{Item};
ghost use Rattle.vx_sps.specs.Set as sps_set;
ghost use Rattle.vx_sps.specs.Subpictures.{subpics_of};
ghost use Rattle.vx_pps.specs.Pps as pps_set;
ghost use Rattle.vx_pic.specs.Written.{an_sps, a_pps, SetUnit, Plan};
ghost use Rattle.vx_pic.specs.Resident.{history_of};
ghost use Rattle.vx_extract.specs.Written.{needed_sets};
ghost use Rattle.vx_write.specs.Slots.{AreLastOf};
ghost use Rattle.vx_write.specs.Sending.{AreSent};
ghost use Rattle.vx_extract.specs.inner.Sending.{sets_to, IsMade};
ghost use Rattle.vx_extract.specs.inner.Rewritings.{IsRewriting};
ghost use Rattle.vx_extract.specs.inner.Needed.{NamesOf};

use crate::needed::{APS_SLOTS, NamedAps, named_aps, needed_at};
use crate::rewritten::{Rewritten, rewrite};
use std::alloc::{AllocError, Global};
use vx_pic::Picture;
use vx_pps::Pps;
use vx_sps::Sps;
use vx_write::{NeededSet, Slots, forget_before, sei_unit, send};

/// What is made for a picture: all that is written of it besides its own units.
#[derive(Drop)]
pub(crate) struct Made {
    /// The units of the sets that are sent.
    pub(crate) sets: Vec<Vec<u8>>,
    /// The SEI unit.
    pub(crate) sei: Option<Vec<u8>>,
}

impl Made {
    /// Returns the SEI unit, if there is one.
    pub(crate) fn sei_unit(&self) -> Option<&[u8]>
        ensures { option_copied result ≡ option_map (λ unit. unit.items) self.now.sei }
    {
        self.sei.as_deref()
    }
}

/// Makes the unit of the adaptation parameter set at a place, if the subpicture names it and it isn't resident.
fn send_aps(
    alloc: Global,
    slots: &mut Slots,
    units: &mut Vec<Vec<u8>>,
    picture: &Picture<'_>,
    named: &NamedAps,
    place: u8,
) -> Result<(), AllocError>
    requires tid { picture.now.kind.temporal_id < 7 }
    requires place { place < 24 }
    ensures { (target : ℕ) (before : List SetUnit) (sps pps : List Item) → NamesOf picture.now target named.now
        → AreSent picture.now.kind.temporal_id before (sets_to picture.now target sps pps place) slots.old (map (λ unit. unit.items) units.old.items)
        → IfOk result (λ _. AreSent picture.now.kind.temporal_id before (sets_to picture.now target sps pps (place + 1))
        slots.new (map (λ unit. unit.items) units.new.items)) }
{
    let temporal_id = picture.kind().temporal_id;
    match needed_at(picture, named, place) {
        Some(aps) => send(alloc, slots, units, NeededSet::Aps(aps), temporal_id),
        None => Ok(()),
    }
}

/// Makes the units of the named adaptation parameter sets that aren't resident, by rising type and id.
fn send_named(
    alloc: Global,
    slots: &mut Slots,
    units: &mut Vec<Vec<u8>>,
    picture: &Picture<'_>,
    target: u32,
) -> Result<(), AllocError>
    requires { picture.now.kind.temporal_id < 7 }
    ensures { (before : List SetUnit) (sps pps : List Item)
        → AreSent picture.now.kind.temporal_id before (an_sps sps ∷ a_pps pps ∷ []) slots.old (map (λ unit. unit.items) units.old.items)
        → IfOk result (λ _. AreSent picture.now.kind.temporal_id before (needed_sets picture.now target sps pps)
        slots.new (map (λ unit. unit.items) units.new.items)) }
{
    let named = named_aps(picture, target);
    for place in 0..APS_SLOTS {
        send_aps(alloc, slots, units, picture, &named, place)?;
    }
    Ok(())
}

/// Makes the units of the sets that the subpicture needs and that aren't resident.
fn send_needed(
    alloc: Global,
    slots: &mut Slots,
    picture: &Picture<'_>,
    target: u32,
    sps: &Sps,
    pps: &Pps,
) -> Result<Vec<Vec<u8>>, AllocError>
    requires tid { picture.now.kind.temporal_id < 7 }
    requires sps { sps_set.AreSpsItems sps.now }
    requires pps { pps_set.ArePpsItems pps.now }
    ensures { (before : List SetUnit) → AreLastOf before slots.old
        → IfOk result (λ units. AreSent picture.now.kind.temporal_id before (needed_sets picture.now target sps.now pps.now)
        slots.new (map (λ unit. unit.items) units.items)) }
{
    let temporal_id = picture.kind().temporal_id;
    let mut units = Vec::new(alloc);
    send(alloc, slots, &mut units, NeededSet::Sps(sps), temporal_id)?;
    send(alloc, slots, &mut units, NeededSet::Pps(pps), temporal_id)?;
    send_named(alloc, slots, &mut units, picture, target)?;
    Ok(units)
}

/// Makes what is written of a picture besides its own units. The rewritten sets are kept for the next picture.
pub(crate) fn make(
    alloc: Global,
    slots: &mut Slots,
    kept: &mut Option<Rewritten>,
    picture: &Picture<'_>,
    target: u32,
    level: Option<u8>,
) -> Result<Made, AllocError>
    requires tid { picture.now.kind.temporal_id < 7 }
    requires target { target < subpics_of picture.now.sps }
    requires kept { IfSome kept.old (IsRewriting target level) }
    ensures kept { IfSome kept.new (IsRewriting target level) }
    ensures made { (done : List Plan) → AreLastOf (history_of done) slots.old
        → IfOk result (λ made. IsMade target level picture.now done (map (λ unit. unit.items) made.sets.items) (option_map (λ unit. unit.items) made.sei) slots.new) }
{
    let kind = picture.kind();
    forget_before(slots, kind.nal_type);
    let rewritten = rewrite(alloc, kept.take(), picture, target, level)?;
    let sets = send_needed(
        alloc,
        slots,
        picture,
        target,
        &rewritten.sps,
        &rewritten.pps,
    )?;
    *kept = Some(rewritten);
    let sei = sei_unit(alloc, picture.messages(), kind.temporal_id)?;
    Ok(Made { sets, sei })
}
