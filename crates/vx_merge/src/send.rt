//! The units of the sets that a round needs.
ghost use Rattle.std.specs.Prelude.{◌≡◌, ℕ, ◌<◌, ◌≤◌, ◌++◌, List, Option, length, map, slice_index, IfOk};
ghost use Rattle.vx_fit.specs.Lowest.{IsLowestAnswer};
ghost use Rattle.vx_layout.specs.declared.numbers.Numbers.{Numbers as NumberLists};
ghost use Rattle.vx_pic.specs.Parts.{Parts};
ghost use Rattle.vx_pic.specs.Written.{Set, SetUnit};
ghost use Rattle.vx_write.specs.Sending.{AreOthers, AreSent};
ghost use Rattle.vx_write.specs.Slots.{AreLastOf};
ghost use Rattle.vx_frame.specs.declared.corner.Corner.{Corner};
ghost use Rattle.vx_merge.specs.Needed.{by_ids, sets_of_round, sets_with_id};
ghost use Rattle.vx_merge.specs.inner.Ready.{AreNeeded, ids_in};
ghost use Rattle.vx_merge.specs.inner.Sending.{AreAllApart, AreApart, AreOfOthers, CanBeNamed, CanBeSent, bodies_sent};
ghost use Rattle.vx_merge.specs.inner.Taking.{an_aps_of};

use crate::ids::Search;
use crate::needed::{NamedBodies, RoundSets, of_alf, of_lmcs, of_scaling};
use std::alloc::{AllocError, Global};
use vx_write::{NeededAps, NeededSet, Slots, send};

/// Returns the first index of an id.
fn place_of(ids: &[u8], id: u8) -> Option<usize>
    ensures { IsLowestAnswer (length ids.now) (λ k. slice_index ids.now k ≡ id) result }
{
    for k in 0..ids.len() {
        if ids[k] == id {
            return Some(k);
        }
    }
    None
}

/// Makes the unit of the set with this id, if there is such a set and it isn't resident.
fn send_with(
    alloc: Global,
    slots: &mut Slots,
    units: &mut Vec<Vec<u8>>,
    search: Search,
    named: &NamedBodies<'_>,
    id: u8,
) -> Result<(), AllocError>
    requires tid { search.temporal_id < 7 }
    requires kind { search.kind < 8 }
    requires id { id < 32 }
    requires can { CanBeNamed named.now }
    ensures { (before : List SetUnit) (sets : List Set) → AreApart named.now.ids.items
        → AreSent search.temporal_id before sets slots.old (map (λ u. u.items) units.old.items) → AreOthers (an_aps_of search.kind id) sets
        → IfOk result (λ _. AreSent search.temporal_id before (sets ++ sets_with_id search.kind (map (λ b. b.now) named.now.bodies) named.now.ids.items id)
        slots.new (map (λ u. u.items) units.new.items)) }
{
    let kind = search.kind;
    match place_of(&named.ids, id) {
        Some(k) => {
            let body = named.bodies.item(k);
            let set = NeededSet::Aps(NeededAps { kind, id, body });
            send(alloc, slots, units, set, search.temporal_id)
        }
        None => Ok(()),
    }
}

/// Makes the units of the sets of one type that aren't resident, by rising id.
fn send_named(
    alloc: Global,
    slots: &mut Slots,
    units: &mut Vec<Vec<u8>>,
    search: Search,
    named: &NamedBodies<'_>,
) -> Result<(), AllocError>
    requires tid { search.temporal_id < 7 }
    requires kind { search.kind < 8 }
    requires count { search.count ≤ 32 }
    requires can { CanBeNamed named.now }
    ensures { (before : List SetUnit) (sets : List Set) → AreApart named.now.ids.items
        → AreSent search.temporal_id before sets slots.old (map (λ u. u.items) units.old.items) → AreOfOthers search.kind sets
        → IfOk result (λ _. AreSent search.temporal_id before (sets ++ by_ids search.kind search.count (map (λ b. b.now) named.now.bodies) named.now.ids.items)
        slots.new (map (λ u. u.items) units.new.items)) }
{
    for id in 0..search.count {
        send_with(alloc, slots, units, search, named, id)?;
    }
    Ok(())
}

/// Makes the units of the needed adaptation parameter sets that aren't resident, by rising type and id.
fn send_bodies(
    alloc: Global,
    slots: &mut Slots,
    units: &mut Vec<Vec<u8>>,
    needed: &RoundSets<'_, '_>,
    temporal_id: u8,
) -> Result<(), AllocError>
    requires tid { temporal_id < 7 }
    requires can { CanBeSent needed.now }
    ensures { (before : List SetUnit) (sets : List Set) → AreAllApart needed.now
        → AreSent temporal_id before sets slots.old (map (λ u. u.items) units.old.items) → ((kind : ℕ) → AreOfOthers kind sets)
        → IfOk result (λ _. AreSent temporal_id before (sets ++ bodies_sent needed.now) slots.new (map (λ u. u.items) units.new.items)) }
{
    send_named(alloc, slots, units, of_alf(temporal_id), &needed.alf)?;
    send_named(alloc, slots, units, of_lmcs(temporal_id), &needed.lmcs)?;
    let scaling = of_scaling(temporal_id);
    send_named(alloc, slots, units, scaling, &needed.scaling)
}

/// Makes the units of the needed sets that aren't resident, which then count as sent.
///
/// The SPS comes first, then the PPS, then the adaptation parameter sets by rising type and id.
pub(crate) fn send_needed(
    alloc: Global,
    slots: &mut Slots,
    needed: &RoundSets<'_, '_>,
    temporal_id: u8,
) -> Result<Vec<Vec<u8>>, AllocError>
    requires tid { temporal_id < 7 }
    requires can { CanBeSent needed.now }
    ensures { (corners : List Corner) (level : Option ℕ) (round : List Parts) (frame : NumberLists) (sent : List SetUnit) → AreLastOf sent slots.old
        → AreNeeded corners level round frame sent needed.now
        → IfOk result (λ units. AreSent temporal_id sent (sets_of_round round (ids_in needed.now) needed.now.sps.now needed.now.pps.now)
        slots.new (map (λ u. u.items) units.items)) }
{
    let mut units = Vec::new(alloc);
    let sps = NeededSet::Sps(needed.sps);
    send(alloc, slots, &mut units, sps, temporal_id)?;
    let pps = NeededSet::Pps(needed.pps);
    send(alloc, slots, &mut units, pps, temporal_id)?;
    send_bodies(alloc, slots, &mut units, needed, temporal_id)?;
    Ok(units)
}
