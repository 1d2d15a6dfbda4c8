//! A picture header, with what is in force for it.
ghost use Rattle.std.specs.Prelude.{◌≡◌, List, ℕ, Option, None, Err, IfOk, IfErr, IfSome, OnOk, OnErr};
ghost use Rattle.vx_pic.specs.Readings.{Reading};
ghost use Rattle.vx_pic.specs.Rules.{Readers, begins};
ghost use Rattle.vx_pic.specs.H266.{AreOfH266};
ghost use Rattle.vx_assemble.specs.inner.Held.{begun_of, IsApart};
ghost use Rattle.vx_assemble.specs.inner.Order.{IsHeader, IsInOrder};
ghost use Rattle.vx_assemble.specs.inner.Takes.{Gives, answer_by};
ghost use Rattle.vx_assemble.specs.inner.Beginning.{AreInForce, layout_kept, sets_kept, unit_in};
ghost use Rattle.vx_assemble.specs.inner.Changes as changes;

use crate::in_force::InForce;
use crate::readers::{header_of, referred_pps};
use crate::refusals::missing;
use crate::shared::Shared;
use crate::state::{BegunPicture, MadeSets, State};
use crate::unit::{NalUnit, SliceUnit};
use std::alloc::{AllocError, Global};
use vx_annexb::unescape;
use vx_bits::{Bytes, ReadError};
use vx_pic::{PPS, SPS};
use vx_pps::Pps;
use vx_sps::Sps;

/// The two sets to which a picture header refers.
#[derive(Drop)]
pub(crate) struct SetPair {
    /// The SPS.
    pub sps: Shared<Sps>,
    /// The PPS.
    pub pps: Shared<Pps>,
}

/// Returns what is kept of a picture that begins: the sets of its header, and the bytes of its PH unit.
///
/// # Errors
///
/// `AllocError` if memory runs out.
fn kept_of(
    alloc: Global,
    begun: &BegunPicture,
    unit: &[u8],
) -> Result<(MadeSets, Bytes), AllocError>
    ensures sets { IfOk result (λ kept. kept.0 ≡ record { id = begun.now.pps_id; sets = begun.now.sets }) }
    ensures bytes { IfOk result (λ kept. kept.1 ≡ unit.now) }
{
    let mut bytes = Bytes::new(alloc);
    bytes.extend_from_slice(unit)?;
    let sets = begun.sets.share()?;
    let made = MadeSets {
        id: begun.pps_id,
        sets,
    };
    Ok((made, bytes))
}

impl State {
    /// Returns the sets to which a PPS id refers.
    ///
    /// # Errors
    ///
    /// - `Refused` with the first set that isn't stored.
    /// - `Memory` if memory runs out.
    #[tactic(auto, unfolding(vx_pic::specs::Sets::referred_sps))]
    fn sets_of(&self, id: u8) -> Result<SetPair, ReadError>
        ensures { Gives (sets_kept self.now id) result }
    {
        let Some(pps) = self.pps_of(id) else {
            return Err(ReadError::Refused(missing(PPS, id)));
        };
        let sps_id = pps.value().sps_id();
        let Some(sps) = self.sps_of(sps_id) else {
            return Err(ReadError::Refused(missing(SPS, sps_id)));
        };
        let sps = sps.share()?;
        let pps = pps.share()?;
        Ok(SetPair { sps, pps })
    }

    /// Returns whether what the sets of a PPS id make up is kept.
    fn has_made(&self, id: u8) -> bool
        ensures { result ≡ changes.is_made id self.now.made }
    {
        match &self.made {
            Some(made) => made.id == id,
            None => false,
        }
    }

    /// Returns the sets to which a PPS id refers, if what they make up is kept.
    fn made_of(&self, id: u8) -> Option<&Shared<InForce>>
        requires { IsInOrder self.now }
        ensures { IfSome result (λ sets. AreInForce self.now id sets.now) }
    {
        match &self.made {
            Some(made) if made.id == id => Some(&made.sets),
            _ => None,
        }
    }

    /// Returns the sets to which a PPS id refers, and what they make up: as it is kept, or computed now.
    ///
    /// # Errors
    ///
    /// - `Refused` with the first set that isn't stored, with SIZE_DIFFERS, or with the lowest fault of the layout.
    /// - `Memory` if memory runs out.
    fn in_force(&self, alloc: Global, id: u8) -> Result<Shared<InForce>, ReadError>
        requires { IsInOrder self.now }
        ensures sets { IfOk result (AreInForce self.now id) }
        ensures answer { (R : Readers) → AreOfH266 R → IfErr result (λ e. Gives (layout_kept R self.now id) (Err e)) }
    {
        if let Some(sets) = self.made_of(id) {
            let sets = sets.share()?;
            return Ok(sets);
        }
        let pair = self.sets_of(id)?;
        let made = InForce::new(alloc, pair.sps, pair.pps)?;
        let sets = Shared::new(alloc, made)?;
        Ok(sets)
    }

    /// Returns the picture header of a PH unit, or of a slice that has it inside, with what is in force for it.
    ///
    /// # Errors
    ///
    /// - `Refused` with the first rule that it breaks.
    /// - `Memory` if memory runs out.
    pub(crate) fn begin(
        &self,
        alloc: Global,
        unit: NalUnit<'_>,
        inside: bool,
    ) -> Result<BegunPicture, ReadError>
        requires { IsInOrder self.now }
        ensures answer { (R : Readers) → AreOfH266 R → (before : List Reading) → IsApart self.now before
            → Gives (begins R before unit.entry.bytes.now (unit_in inside unit.entry.bytes.now)) (answer_by (λ b. begun_of b (unit_in inside unit.entry.bytes.now)) result) }
        ensures header { IfOk result IsHeader }
        ensures stored { IfOk result (λ b. AreInForce self.now b.pps_id b.sets) }
    {
        let id = referred_pps(inside, unit.rbsp)?;
        let sets = self.in_force(alloc, id)?;
        let made = sets.value();
        let sps = made.sps.value();
        let pps = made.pps.value();
        let scope = made.scope.value();
        let header = header_of(alloc, inside, sps, pps, scope, unit.rbsp)?;
        Ok(BegunPicture {
            pps_id: id,
            sets,
            header,
            temporal_id: unit.header.temporal_id,
        })
    }

    /// Returns the picture header inside a slice, with what is in force for it.
    ///
    /// # Errors
    ///
    /// - `Refused` with the first rule that it breaks.
    /// - `Memory` if memory runs out.
    pub(crate) fn begin_alone(
        &self,
        alloc: Global,
        unit: SliceUnit<'_>,
    ) -> Result<BegunPicture, ReadError>
        requires { IsInOrder self.now }
        ensures answer { (R : Readers) → AreOfH266 R → (before : List Reading) → IsApart self.now before
            → Gives (begins R before unit.entry.bytes.now None) (answer_by (λ b. begun_of b None) result) }
        ensures header { IfOk result IsHeader }
        ensures stored { IfOk result (λ b. AreInForce self.now b.pps_id b.sets) }
    {
        if let Ok(begun) = self.begin(alloc, unit.front, true) {
            return Ok(begun);
        }
        let bytes = unescape(alloc, unit.bytes)?;
        let whole = unit.whole(&bytes);
        self.begin(alloc, whole, true)
    }

    /// Begins a picture with a header that came in this PH unit, or in none. Keeps what is in force for it, and whether its SPS
    /// is known to be the last whole picture's.
    ///
    /// # Errors
    ///
    /// `AllocError` if memory runs out. Everything is then unchanged.
    pub(crate) fn start(
        &mut self,
        alloc: Global,
        begun: BegunPicture,
        unit: &[u8],
    ) -> Result<(), AllocError>
        ensures ok { OnOk result (self.new ≡ changes.with_begun begun unit.now self.old) }
        ensures err { OnErr result (self.new ≡ self.old) }
    {
        let unchanged = self.unchanged && self.has_made(begun.pps_id);
        let (made, bytes) = kept_of(alloc, &begun, unit)?;
        self.picture.start(alloc, begun, bytes);
        self.made = Some(made);
        self.unchanged = unchanged;
        Ok(())
    }
}
