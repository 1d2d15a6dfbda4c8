//! The stored adaptation parameter sets.
ghost use Rattle.std.specs.Prelude.{◌≡◌, option_map, IfOk};

use std::alloc::AllocError;
use std::marker::Model;
use std::sync::Arc;
use vx_aps::{Aps, SCALING};

/// The greatest number of ids of a type: 0 to 7 (H.266 7.4.3.6).
const IDS: u8 = 8;

/// A list of the stored adaptation parameter sets, at most one for each type and id. Each is valid, and shared, not copied.
///
/// *Model:* the list of 24 sets or their absence: those of type 0 by their ids, and then those of types 1 and 2.
#[derive(Drop)]
pub struct ApsList {
    sets: [Option<Arc<Aps>>; 24],
}

impl Model for ApsList {
    ghost use Rattle.std.specs.Prelude.{◌≡◌, List, Option, option_map, map, length};
    ghost use Rattle.vx_aps.specs.declared.aps.Aps.{Aps};
    ghost use Rattle.vx_pic.specs.inner.ApsLists.{AreValid};

    ghost Value = { List (Option Aps) };

    ghost view = { λ l. map (option_map (λ arc. arc.value)) l.sets };

    ghost invariant = { λ l. (length l.sets ≡ 24) × AreValid (map (option_map (λ arc. arc.value)) l.sets) };
}

/// Returns a set that may be absent, shared.
fn shared(aps: &Option<Arc<Aps>>) -> Result<Option<Arc<Aps>>, AllocError>
    ensures { IfOk result (λ copy. option_map (λ arc. arc.value) copy ≡ option_map (λ arc. arc.value) aps.now) }
{
    match aps {
        Some(aps) => Ok(Some(aps.clone()?)),
        None => Ok(None),
    }
}

impl ApsList {
    ghost use Rattle.std.specs.Prelude.{◌≡◌, ℕ, ◌<◌, ◌≤◌, List, Option, Some, None, option_copied, replicate, slice_set, IfOk, IfSome};
    ghost use Rattle.vx_aps.specs.Aps.{IsValid};
    ghost use Rattle.vx_pic.specs.Parts.{aps_at, slot_of};

    /// Returns an empty list. Takes no memory.
    pub fn new() -> ApsList
        ensures { result ≡ replicate 24 None }
    {
        ApsList {
            sets: [
                None, None, None, None, None, None, None, None, None, None, None, None, None, None,
                None, None, None, None, None, None, None, None, None, None,
            ],
        }
    }

    #[tactic(auto, using(crate::proofs::ApsLists::replaced))]
    /// Stores a set in place of the one with its type and id. Takes no memory.
    pub fn put(&mut self, aps: Arc<Aps>)
        requires { IsValid aps.value }
        ensures list { self.new ≡ slice_set self.old (slot_of aps.value.kind aps.value.id) (Some aps.value) }
    {
        let place = usize::from(IDS) * usize::from(aps.kind) + usize::from(aps.id);
        self.sets[place] = Some(aps);
    }

    /// Returns the set with a type and an id, or `None` if there is none.
    pub fn get(&self, kind: u8, id: u8) -> Option<&Aps>
        ensures set { option_copied result ≡ aps_at self.now kind id }
        ensures valid { IfSome result (λ aps. IsValid aps.now) }
    {
        self.at(kind, u32::from(id))
    }

    /// Returns the set with a type and an id of any size.
    pub(crate) fn at(&self, kind: u8, id: u32) -> Option<&Aps>
        ensures set { option_copied result ≡ aps_at self.now kind id }
        ensures valid { IfSome result (λ aps. IsValid aps.now) }
    {
        if SCALING < kind || u32::from(IDS) <= id {
            return None;
        }
        match &self.sets[usize::from(IDS) * usize::from(kind) + id as usize] {
            Some(aps) => Some(aps.as_ref()),
            None => None,
        }
    }

    #[tactic(auto, using(crate::proofs::ApsLists::filled, crate::proofs::ApsLists::all_filled))]
    /// Returns a second list of the same sets, each shared with this list. Takes no memory.
    ///
    /// # Errors
    ///
    /// `AllocError` if a set has as many owners as can be counted.
    pub fn share(&self) -> Result<ApsList, AllocError>
        ensures { IfOk result (λ list. list ≡ self.now) }
    {
        let mut list = ApsList::new();
        for i in 0..self.sets.len() {
            list.sets[i] = shared(&self.sets[i])?;
        }
        Ok(list)
    }
}
