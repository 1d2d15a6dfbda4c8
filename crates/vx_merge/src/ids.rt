//! The ids that the bodies of one type of adaptation parameter sets take.
ghost use Rattle.std.specs.Prelude.{◌≡◌, ◌==◌, ◌<◌, ◌≤◌, List, true, false, length, map, IfOk};
ghost use Rattle.std.specs.List.{list_any};
ghost use Rattle.vx_fit.specs.Lowest.{IsLowest, IsLowestAnswer};
ghost use Rattle.vx_pic.specs.Written.{SetUnit};
ghost use Rattle.vx_write.specs.Slots as sent_sets;
ghost use Rattle.vx_write.specs.Slots.{AreLastOf, Sent};
ghost use Rattle.vx_merge.specs.Needed.{aps_of_body};
ghost use Rattle.vx_merge.specs.Slots.{TakeSlots};
ghost use Rattle.vx_merge.specs.inner.Taking as taking;
ghost use Rattle.vx_merge.specs.inner.Taking.{IsHeldBy, AreHeld, an_aps_of};

use std::alloc::{AllocError, Global};
use vx_bits::BodyList;
use vx_write::{NeededAps, NeededSet, Slots};

/// Which sets are looked for, for a picture with this TemporalId.
#[derive(Clone, Copy)]
pub(crate) struct Search {
    /// The TemporalId of the picture.
    pub(crate) temporal_id: u8,
    /// The type of the sets, `aps_params_type`.
    pub(crate) kind: u8,
    /// How many ids the type has.
    pub(crate) count: u8,
}

/// Returns whether a body is resident under an id.
fn is_held(slots: &Slots, search: Search, body: &[u8], id: u8) -> bool
    ensures { result ≡ taking.is_held slots.now search.temporal_id search.kind body.now id }
{
    let kind = search.kind;
    slots.serves(
        search.temporal_id,
        NeededSet::Aps(NeededAps { kind, id, body }),
    )
}

/// Returns the lowest id under which a body is resident.
fn held_id(slots: &Slots, search: Search, body: &[u8]) -> Option<u8>
    ensures { IsLowestAnswer search.count (IsHeldBy slots.now search.temporal_id search.kind body.now) result }
{
    for id in 0..search.count {
        if is_held(slots, search, body, id) {
            return Some(id);
        }
    }
    None
}

/// Returns the lowest ids under which the bodies are resident.
fn held_ids(
    alloc: Global,
    slots: &Slots,
    search: Search,
    bodies: &BodyList<'_>,
) -> Result<Vec<Option<u8>>, AllocError>
    ensures { IfOk result (λ held. AreHeld slots.now search.temporal_id search.kind search.count (map (λ b. b.now) bodies.now) held.items) }
{
    let mut held = Vec::new(alloc);
    for k in 0..bodies.len() {
        held.push(held_id(slots, search, bodies.item(k)))?;
    }
    Ok(held)
}

/// Returns whether one of the resident bodies has this id.
fn has_held(held: &[Option<u8>], id: u8) -> bool
    ensures { result ≡ list_any (taking.is_id id) held.now }
{
    for k in 0..held.len() {
        if held[k] == Some(id) {
            return true;
        }
    }
    false
}

/// Returns whether an id is in the list.
fn has_id(ids: &[u8], id: u8) -> bool
    ensures { result ≡ list_any (λ i. i == id) ids.now }
{
    for k in 0..ids.len() {
        if ids[k] == id {
            return true;
        }
    }
    false
}

/// Returns whether an id is taken, by a resident body or by an earlier one.
fn is_taken(held: &[Option<u8>], ids: &[u8], id: u8) -> bool
    ensures { result ≡ taking.is_taken held.now ids.now id }
{
    has_held(held, id) || has_id(ids, id)
}

/// Returns whether nothing was sent under an id.
fn is_empty(slots: &Slots, search: Search, id: u8) -> bool
    ensures { result ≡ sent_sets.is_vacant (an_aps_of search.kind id) slots.now }
{
    let (kind, body) = (search.kind, &[]);
    slots.is_vacant(NeededSet::Aps(NeededAps { kind, id, body }))
}

/// Returns whether an id is open: it isn't taken, and nothing was sent under it.
fn is_open(slots: &Slots, search: Search, held: &[Option<u8>], ids: &[u8], id: u8) -> bool
    ensures { result ≡ taking.is_open slots.now search.kind held.now ids.now true id }
{
    !is_taken(held, ids, id) && is_empty(slots, search, id)
}

/// Returns the lowest open id.
fn lowest_open(slots: &Slots, search: Search, held: &[Option<u8>], ids: &[u8]) -> Option<u8>
    ensures { IsLowestAnswer search.count (taking.IsOpen slots.now search.kind held.now ids.now true) result }
{
    for id in 0..search.count {
        if is_open(slots, search, held, ids, id) {
            return Some(id);
        }
    }
    None
}

/// Returns the lowest id that isn't taken. There is one, because there are no more bodies than ids.
fn lowest_free(search: Search, held: &[Option<u8>], ids: &[u8]) -> u8
    requires few { length held.now ≤ search.count }
    requires room { taking.HasRoom held.now ids.now }
    ensures { (sent : List Sent) → IsLowest search.count (taking.IsOpen sent search.kind held.now ids.now false) result }
{
    let mut id = 0;
    while is_taken(held, ids, id) {
        id += 1;
    }
    id
}

/// Returns the id of a body that isn't resident: the lowest open one, otherwise the lowest that isn't taken.
fn new_id(slots: &Slots, search: Search, held: &[Option<u8>], ids: &[u8]) -> u8
    requires few { length held.now ≤ search.count }
    requires room { taking.HasRoom held.now ids.now }
    ensures { taking.TakesOpen slots.now search.kind search.count held.now ids.now result }
{
    match lowest_open(slots, search, held, ids) {
        Some(id) => id,
        None => lowest_free(search, held, ids),
    }
}

/// Returns the id of body `k`, after those of the bodies before it.
#[tactic(auto, using(crate::proofs::Assigning::next_held, crate::proofs::Assigning::next_other, crate::proofs::Assigning::room_there))]
fn next_id(slots: &Slots, search: Search, held: &[Option<u8>], ids: &[u8], k: usize) -> u8
    requires few { length held.now ≤ search.count }
    requires next { k < length held.now }
    requires place { length ids.now ≡ k }
    requires so_far { taking.AreIds slots.now search.kind search.count held.now ids.now }
    ensures { taking.IsNextId slots.now search.kind search.count held.now ids.now result }
{
    match held[k] {
        Some(id) => id,
        None => new_id(slots, search, held, ids),
    }
}

/// Returns the ids of bodies of one type, in their order.
pub(crate) fn take_ids(
    alloc: Global,
    slots: &Slots,
    search: Search,
    bodies: &BodyList<'_>,
) -> Result<Vec<u8>, AllocError>
    requires { length bodies.now ≤ search.count }
    ensures number { IfOk result (λ ids. length ids.items ≡ length bodies.now) }
    ensures taken { (sent : List SetUnit) → AreLastOf sent slots.now
        → IfOk result (λ ids. TakeSlots search.count (length (map (λ b. b.now) bodies.now)) search.temporal_id sent (aps_of_body search.kind (map (λ b. b.now) bodies.now)) ids.items) }
{
    let held = held_ids(alloc, slots, search, bodies)?;
    let mut ids = Vec::new(alloc);
    for k in 0..held.len() {
        let id = next_id(slots, search, &held, &ids, k);
        ids.push(id)?;
    }
    Ok(ids)
}
