//! Sending sets that a receiver doesn't have.
ghost use Rattle.std.specs.Prelude.{◌≡◌, ◌<◌, List, [], ◌∷◌, ◌++◌, map, IfOk, OnErr};
ghost use Rattle.vx_pic.specs.Written.{Set, SetUnit};
ghost use Rattle.vx_pic.specs.Resident.{kept_for};
ghost use Rattle.vx_write.specs.Sets.{set_lent, CanBeWritten};
ghost use Rattle.vx_write.specs.Slots.{AreLastOf};
ghost use Rattle.vx_write.specs.Sending.{AreSent, AreOthers};

use crate::slots::Slots;
use crate::written::{NeededSet, tid_of_unit, unit_of};
use std::alloc::{AllocError, Global};
use vx_pic::is_irap_or_gdr;

/// Appends the unit of a set to `units` and records it in `slots`, unless the set is resident.
///
/// *Errors:* [`AllocError`] if memory runs out; `slots` is unchanged, and `units` is unspecified.
pub fn send(
    alloc: Global,
    slots: &mut Slots,
    units: &mut Vec<Vec<u8>>,
    set: NeededSet<'_>,
    temporal_id: u8,
) -> Result<(), AllocError>
    requires tid { temporal_id < 7 }
    requires set { CanBeWritten (set_lent set) }
    ensures sent { (before : List SetUnit) (sets : List Set) → AreSent temporal_id before sets slots.old (map (λ unit. unit.items) units.old.items)
        → AreOthers (set_lent set.entry) sets
        → IfOk result (λ _. AreSent temporal_id before (sets ++ set_lent set.entry ∷ []) slots.new (map (λ unit. unit.items) units.new.items)) }
    ensures err { OnErr result (slots.new ≡ slots.old) }
{
    if slots.serves(temporal_id, set) {
        return Ok(());
    }
    let unit = unit_of(alloc, set, temporal_id)?;
    units.push(unit)?;
    slots.put(alloc, set, tid_of_unit(set, temporal_id))?;
    Ok(())
}

/// Forgets what was sent if `nal_type` is an IRAP or GDR type, because a receiver may begin there.
pub fn forget_before(slots: &mut Slots, nal_type: u8)
    ensures { (history : List SetUnit) → AreLastOf history slots.old → AreLastOf (kept_for nal_type history) slots.new }
{
    if !is_irap_or_gdr(nal_type) {
        return;
    }
    slots.clear();
}
