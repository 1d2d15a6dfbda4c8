//! Parameter sets that are stored by their ids. A set that is sent again stays unchanged, with everything made of it. It is
//! recognized by its RBSP, or by its items once it is read.
ghost use Rattle.std.specs.Prelude.{◌≡◌, ℕ, ◌<◌, ◌≤◌, List, length, Some, None, Err, IfOk, IfErr, IfSome, IsTrue, OnErr, Result, option_copied};
ghost use Rattle.std.specs.List.{slice_index_or};
ghost use Rattle.vx_bits.specs.declared.refusal.Refusal.{Refusal};
ghost use Rattle.vx_bits.specs.Limits.{unit_limit};
ghost use Rattle.vx_pic.specs.Sets as sets;
ghost use Rattle.vx_pic.specs.Rules.{Readers};
ghost use Rattle.vx_pic.specs.H266.{AreOfH266};
ghost use Rattle.vx_assemble.specs.inner.Given.{Gives};
ghost use Rattle.vx_assemble.specs.inner.Stored.{IsSentAgain, IsPut};

use crate::readers::{pps_of, sps_of};
use crate::shared::Shared;
use crate::state::MadeSets;
use std::alloc::Global;
use vx_bits::{ReadError, is_rbsp};
use vx_pic::same_items;
use vx_pps::Pps;
use vx_sps::Sps;

/// A parameter set that is stored by its id.
pub(crate) trait ParameterSet: Drop + Sized {
    ghost use Rattle.std.specs.Prelude.{◌≡◌, ℕ, ◌<◌, ◌≤◌, List, length, Result, IsTrue};
    ghost use Rattle.vx_bits.specs.declared.refusal.Refusal.{Refusal};
    ghost use Rattle.vx_bits.specs.Limits.{unit_limit};
    ghost use Rattle.vx_pic.specs.Rules.{Readers};
    ghost use Rattle.vx_pic.specs.H266.{AreOfH266};
    ghost use Rattle.vx_assemble.specs.inner.Given.{Gives};
    ghost use Rattle.vx_assemble.specs.inner.Stored.{IsReadAs};
    ghost use Rattle.std.specs.Bool.{OnTrue};

    ghost reads: { Readers → List ℕ → Result Self Refusal };

    ghost id_of: { Self → ℕ };

    ghost ids: { ℕ };

    /// Reads the set of an RBSP.
    fn read(alloc: Global, rbsp: &[u8]) -> Result<Self, ReadError>
        requires { length rbsp.now ≤ unit_limit }
        ensures { (R : Readers) → AreOfH266 R → Gives (reads R rbsp.now) result };

    /// Returns the id of a set whose RBSP begins with a byte.
    fn id_in(byte: u8) -> u8;

    /// Returns its id.
    fn id(&self) -> u8
        ensures value { result ≡ id_of self.now }
        ensures few { result < ids };

    /// Returns whether it was read from this RBSP, which is short.
    fn is_read_from(&self, rbsp: &[u8]) -> bool
        ensures { OnTrue result (IsReadAs reads self.now rbsp.now) };

    /// Returns whether it is the same as another one.
    fn is_same(&self, other: &Self) -> bool
        ensures { IsTrue result → self.now ≡ other.now };
}

impl ParameterSet for Sps {
    ghost reads = { λ R rbsp. R.sps rbsp };

    ghost id_of = { sets.sps_id };

    ghost ids = { 16 };

    fn read(alloc: Global, rbsp: &[u8]) -> Result<Sps, ReadError> {
        sps_of(alloc, rbsp)
    }

    fn id_in(byte: u8) -> u8 {
        byte >> 4
    }

    #[tactic(auto, unfolding(vx_pic::specs::Sets::sps_id))]
    fn id(&self) -> u8 {
        self.sps_id()
    }

    #[tactic(auto, using(crate::proofs::Again::sps_read_again))]
    fn is_read_from(&self, rbsp: &[u8]) -> bool {
        is_rbsp(self.rbsp(), rbsp)
    }

    #[tactic(auto, using(crate::proofs::Again::same_sets))]
    fn is_same(&self, other: &Sps) -> bool {
        same_items(self.fields().as_slice(), other.fields().as_slice())
    }
}

impl ParameterSet for Pps {
    ghost reads = { λ R rbsp. R.pps rbsp };

    ghost id_of = { sets.pps_id };

    ghost ids = { 64 };

    fn read(alloc: Global, rbsp: &[u8]) -> Result<Pps, ReadError> {
        pps_of(alloc, rbsp)
    }

    fn id_in(byte: u8) -> u8 {
        byte >> 2
    }

    #[tactic(auto, unfolding(vx_pic::specs::Sets::pps_id))]
    fn id(&self) -> u8 {
        self.pps_id()
    }

    #[tactic(auto, using(crate::proofs::Again::pps_read_again))]
    fn is_read_from(&self, rbsp: &[u8]) -> bool {
        is_rbsp(self.rbsp(), rbsp)
    }

    #[tactic(auto, using(crate::proofs::Again::same_sets))]
    fn is_same(&self, other: &Pps) -> bool {
        same_items(self.fields().as_slice(), other.fields().as_slice())
    }
}

/// Returns the set that is stored under an id.
pub(crate) fn set_of<S: ParameterSet>(sets: &[Option<Shared<S>>], id: u8) -> Option<&Shared<S>>
    ensures { option_copied result ≡ slice_index_or sets.now id None }
{
    match sets.get(id as usize) {
        Some(Some(set)) => Some(set),
        _ => None,
    }
}

/// Returns the id of a stored set that was read from this RBSP, which means that it is sent again.
#[tactic(auto, using(crate::proofs::Again::is_again))]
fn sent_again<S: ParameterSet>(sets: &[Option<Shared<S>>], rbsp: &[u8]) -> Option<u8>
    ensures { IfSome result (IsSentAgain S.reads S.id_of sets.now rbsp.now) }
{
    let id = S::id_in(*rbsp.first()?);
    let stored = set_of(sets, id)?.value();
    if !stored.is_read_from(rbsp) {
        return None;
    }
    if stored.id() != id {
        return None;
    }
    Some(id)
}

/// Returns whether a set is the one that is stored under its id.
#[tactic(auto, using(crate::proofs::Again::is_there))]
fn is_stored<S: ParameterSet>(sets: &[Option<Shared<S>>], id: u8, set: &S) -> bool
    ensures { IsTrue result → slice_index_or sets.now id None ≡ Some set.now }
{
    match set_of(sets, id) {
        Some(stored) => stored.value().is_same(set),
        None => false,
    }
}

/// Stores the set of an RBSP in place of the one with its id, unless that is the same, and returns its id. What sets made up is
/// kept if none is new.
///
/// # Errors
///
/// - `Refused` with the first refusal.
/// - `Memory` if memory runs out.
///
/// After an error, everything is unchanged.
#[tactic(auto, using(crate::proofs::Again::put_again, crate::proofs::Again::put_stored, crate::proofs::Again::put_new))]
pub(crate) fn put_set<S: ParameterSet>(
    alloc: Global,
    sets: &mut [Option<Shared<S>>],
    made: &mut Option<MadeSets>,
    rbsp: &[u8],
) -> Result<u8, ReadError>
    requires places { length sets.old ≡ S.ids }
    requires short { length rbsp.now ≤ unit_limit }
    ensures put { IfOk result (IsPut S.reads S.id_of sets.old sets.new made.old made.new rbsp.now) }
    ensures refused { (R : Readers) → AreOfH266 R → IfErr result (λ e. Gives (S.reads R rbsp.now) (Err e)) }
    ensures kept { OnErr result (sets.new ≡ sets.old) }
    ensures made { OnErr result (made.new ≡ made.old) }
{
    if let Some(id) = sent_again(sets, rbsp) {
        return Ok(id);
    }
    let set = S::read(alloc, rbsp)?;
    let id = set.id();
    if is_stored(sets, id, &set) {
        return Ok(id);
    }
    let stored = Shared::new(alloc, set)?;
    sets[id as usize] = Some(stored);
    *made = None;
    Ok(id)
}
