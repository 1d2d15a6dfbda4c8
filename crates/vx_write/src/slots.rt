//! The sets that were sent: the last one of each type and id.
ghost use Rattle.std.specs.Prelude.{◌≡◌, ◌<◌, [], ◌∷◌, length, slice_set, IfOk, OnErr};
ghost use Rattle.vx_write.specs.inner.Kept.{set_kept};
ghost use Rattle.vx_write.specs.Sets.{set_lent, id_of};
ghost use Rattle.vx_write.specs.inner.Places.{IsPlace};
ghost use Rattle.vx_write.specs.Slots.{held_serves, is_vacant, a_pps_of, pps_with_id, AnswerAlike};
ghost use Rattle.vx_pic.specs.Resident as resident;
ghost use Rattle.vx_pic.specs.Written.{a_pps};

use crate::written::{NeededSet, WrittenSet, id_of_set, kept, same_pps_as, same_set, same_slot};
use std::alloc::{AllocError, Global};
use std::marker::Model;
use vx_bits::Item;
use vx_pps::Pps;

/// A set that was sent, with its id and the TemporalId of its unit.
#[derive(Drop)]
struct SentSet {
    set: WrittenSet,
    id: u32,
    temporal_id: u8,
}

impl Model for SentSet {
    ghost use Rattle.std.specs.Prelude.{◌≡◌};
    ghost use Rattle.vx_write.specs.inner.Kept.{set_kept};
    ghost use Rattle.vx_write.specs.Sets.{id_of};
    ghost use Rattle.vx_write.specs.Slots.{Sent};

    ghost Value = { Sent };

    ghost view = { λ s. record { set = set_kept s.set; temporal_id = s.temporal_id } };

    ghost invariant = { λ s. s.id ≡ id_of (set_kept s.set) };
}

impl SentSet {
    ghost use Rattle.std.specs.Prelude.{◌≡◌, ◌&&◌, nat_le, IfOk};

    /// Makes the record of a set that is sent in a unit with this TemporalId.
    fn new(alloc: Global, set: NeededSet<'_>, temporal_id: u8) -> Result<SentSet, AllocError>
        ensures { IfOk result (λ sent. sent ≡ record { set = set_lent set.entry; temporal_id = temporal_id }) }
    {
        let id = id_of_set(set);
        let set = kept(alloc, set)?;
        Ok(SentSet {
            set,
            id,
            temporal_id,
        })
    }

    /// Returns whether it has the type and id of `set`.
    fn is_of(&self, set: NeededSet<'_>) -> bool
        ensures { result ≡ resident.same_slot self.now.set (set_lent set.entry) }
    {
        same_slot(&self.set, self.id, set)
    }

    /// Returns whether it is the same set, and can be decoded with pictures of this TemporalId.
    fn serves(&self, temporal_id: u8, set: NeededSet<'_>) -> bool
        ensures { result ≡ (resident.same_set self.now.set (set_lent set.entry) && nat_le self.now.temporal_id temporal_id) }
    {
        same_set(&self.set, set) && self.temporal_id <= temporal_id
    }

    /// Returns whether it is a PPS with this id.
    #[tactic(auto, using(crate::proofs::Vacant::pps_id_of))]
    fn is_pps(&self, id: u32) -> bool
        ensures { result ≡ resident.same_slot self.now.set (a_pps_of id) }
    {
        match self.set {
            WrittenSet::Pps(_) => self.id == id,
            _ => false,
        }
    }

    /// Returns whether it is this PPS under `id`, and can be decoded with pictures of this TemporalId.
    fn serves_pps_as(&self, temporal_id: u8, pps: &[Item], id: u32) -> bool
        ensures { result ≡ (resident.same_set self.now.set (a_pps (pps_with_id id pps.now)) && nat_le self.now.temporal_id temporal_id) }
    {
        same_pps_as(&self.set, pps, id) && self.temporal_id <= temporal_id
    }
}

/// Replaces set `i`.
fn replace(sets: &mut Vec<SentSet>, i: usize, sent: SentSet)
    requires { i < length sets.old.items }
    ensures { sets.new.items ≡ slice_set sets.old.items i sent }
{
    sets[i] = sent;
}

/// The sets that were sent: the last one of each type and id.
///
/// A set is *resident* if the last one sent of its type and id, since the last IRAP or GDR picture, is the same set and has no higher
/// TemporalId than the picture. *Model:* the list of these sets.
pub struct Slots {
    sets: Vec<SentSet>,
}

impl Drop for Slots {
    fn drop(self) {
        let Slots { sets: _ } = self;
    }
}

impl Model for Slots {
    ghost use Rattle.std.specs.Prelude.{List};
    ghost use Rattle.vx_write.specs.Slots.{Sent};

    ghost Value = { List Sent };

    ghost view = { λ s. s.sets.items };
}

impl Slots {
    /// Makes a list of no sets. Takes no memory.
    pub fn new(alloc: Global) -> Slots
        ensures { result ≡ [] }
    {
        Slots {
            sets: Vec::new(alloc),
        }
    }

    /// Forgets all sets.
    pub fn clear(&mut self)
        ensures { self.new ≡ [] }
    {
        self.sets.clear();
    }

    /// Returns the index of the set with the type and id of `set`.
    fn place_of(&self, set: NeededSet<'_>) -> Option<usize>
        ensures { IsPlace (set_lent set.entry) self.now result }
    {
        for i in 0..self.sets.len() {
            if self.sets[i].is_of(set) {
                return Some(i);
            }
        }
        None
    }

    /// Returns whether `set` is the last one sent of its type and id, and can be decoded with the picture.
    ///
    /// `temporal_id` is that of the picture.
    pub fn serves(&self, temporal_id: u8, set: NeededSet<'_>) -> bool
        ensures { result ≡ held_serves temporal_id (set_lent set.entry) self.now }
    {
        match self.place_of(set) {
            Some(i) => self.sets[i].serves(temporal_id, set),
            None => false,
        }
    }

    /// Returns whether no set of its type and id was sent.
    pub fn is_vacant(&self, set: NeededSet<'_>) -> bool
        ensures { result ≡ is_vacant (set_lent set.entry) self.now }
    {
        match self.place_of(set) {
            Some(_) => false,
            None => true,
        }
    }

    /// Returns the index of the PPS with this id.
    fn place_of_pps(&self, id: u32) -> Option<usize>
        ensures { IsPlace (a_pps_of id) self.now result }
    {
        for i in 0..self.sets.len() {
            if self.sets[i].is_pps(id) {
                return Some(i);
            }
        }
        None
    }

    /// Returns whether no PPS with this id was sent.
    pub fn is_pps_vacant(&self, id: u32) -> bool
        ensures { result ≡ is_vacant (a_pps_of id) self.now }
    {
        match self.place_of_pps(id) {
            Some(_) => false,
            None => true,
        }
    }

    /// Returns whether a PPS is resident under another id.
    ///
    /// That is: the last PPS sent under `id` is the same except for its id, and can be decoded with pictures of this TemporalId.
    pub fn serves_pps_as(&self, temporal_id: u8, pps: &Pps, id: u32) -> bool
        ensures { result ≡ held_serves temporal_id (a_pps (pps_with_id id pps.now)) self.now }
    {
        let items = pps.fields();
        match self.place_of_pps(id) {
            Some(i) => self.sets[i].serves_pps_as(temporal_id, items.as_slice(), id),
            None => false,
        }
    }

    /// Records a set that is sent, in place of the one of its type and id.
    ///
    /// `temporal_id` is that of its unit. *Errors:* [`AllocError`] if memory runs out; nothing changes.
    pub fn put(
        &mut self,
        alloc: Global,
        set: NeededSet<'_>,
        temporal_id: u8,
    ) -> Result<(), AllocError>
        ensures put { IfOk result (λ _. AnswerAlike self.new (record { set = set_lent set.entry; temporal_id = temporal_id } ∷ self.old)) }
        ensures err { OnErr result (self.new ≡ self.old) }
    {
        let sent = SentSet::new(alloc, set, temporal_id)?;
        match self.place_of(set) {
            Some(i) => replace(&mut self.sets, i, sent),
            None => self.sets.push(sent)?,
        }
        Ok(())
    }
}
