//! The assembler of pictures.
ghost use Rattle.std.specs.Prelude.{◌≡◌, [], List};

use crate::fault::{AssembleFault, First};
use crate::refusals::structure;
use crate::state::State;
use std::alloc::{AllocError, Global};
use std::marker::Model;
use vx_bits::rules::SLICE_MISSING;
use vx_bits::{Fields, ReadError};
use vx_pic::{Accepted, Lender, Picture, StructureFields};
use vx_pps::Pps;
use vx_sps::Sps;

/// A builder of pictures: it takes NAL units in order, and lends each picture once its last slice is taken.
///
/// It holds the sets in force, one picture of at most 2^25 bytes, and messages of at most 65,536 bytes each for that picture and
/// for the next one. It stores at most 16 SPSs, 64 PPSs, 8 ALF, 4 LMCS and 8 scaling sets; the picture under way refers to at
/// most as many of these last three. After a refusal or lack of memory it takes no more units.
pub struct Assembler {
    alloc: Global,
    state: State,
    // The result for the last unit that was handed in.
    told: Accepted,
    first: Option<First>,
}

impl Drop for Assembler {
    fn drop(self) {
        let Assembler {
            alloc: _,
            state: _,
            told: _,
            first: _,
        } = self;
    }
}

impl Model for Assembler {
    ghost use Rattle.vx_assemble.specs.inner.Held.{Held};
    ghost use Rattle.vx_assemble.specs.inner.Order.{IsKept};

    ghost Value = { Held };

    ghost view = { λ a. record { state = a.state; told = a.told; first = a.first } };

    ghost invariant = { λ a. IsKept a.state a.told };
}

impl Assembler {
    ghost use Rattle.std.specs.Prelude.{◌≡◌, [], ◌∷◌, List, Some, None, Err, length, IfOk, IfErr, IfSome, OnOk, option_copied};
    ghost use Rattle.vx_annexb.specs.ByteStream.{IsSound};
    ghost use Rattle.vx_pic.specs.Readings.{Reading, stored_sps, stored_pps};
    ghost use Rattle.vx_pic.specs.Rules.{Readers, reads};
    ghost use Rattle.vx_pic.specs.H266.{AreOfH266};
    ghost use Rattle.vx_pic.specs.Told.{told_of};
    ghost use Rattle.vx_pic.specs.Shown.{no_fields};
    ghost use Rattle.vx_assemble.specs.Fields.{unit_fields};
    ghost use Rattle.vx_assemble.specs.Held.{Stands, Takes, Ends, told, HasPicture, IsBounded, ShowsLatest, lent_by, first_fault, first_of, IsSet, items_of};
    ghost use Rattle.vx_pic.specs.Readings.{pictures};

    /// Returns an assembler that took no units. Takes no memory yet.
    pub fn new(alloc: Global) -> Assembler
        ensures stands { Stands result [] }
        ensures bounded { IsBounded result }
        ensures bytes { length result.state.picture.bytes ≡ 0 }
    {
        Assembler {
            alloc,
            state: State::new(alloc),
            told: Accepted::Nothing,
            first: None,
        }
    }

    /// Takes a unit, as framing returns it, and returns what it is. The picture lent before becomes invalid.
    ///
    /// # Errors
    ///
    /// - `Refused` with the first rule that the unit breaks, after those before it.
    /// - `Memory` if memory runs out.
    /// - `Stopped` with the first of these in every later call, and only then.
    pub fn accept(&mut self, unit: &[u8]) -> Result<Accepted, AssembleFault>
        requires { IsSound unit.now }
        ensures answer { (R : Readers) → AreOfH266 R → (before : List Reading) → Stands self.old before
            → Takes (reads R before unit.now) before self.new result }
        ensures told { IfOk result (λ what. told self.new ≡ what) }
        ensures none { IfErr result (λ _. ¬ HasPicture self.new) }
        ensures nothing { IfErr result (λ _. told self.new ≡ Accepted.Nothing) }
        ensures bounded { IsBounded self.new }
        ensures fault { IfErr result (λ e. first_fault self.new ≡ Some (first_of e)) }
        ensures again { (f : First) → first_fault self.old ≡ Some f → result ≡ Err (AssembleFault.Stopped f) }
        ensures stopped { (f : First) → result ≡ Err (AssembleFault.Stopped f) → first_fault self.old ≡ Some f }
    {
        self.told = Accepted::Nothing;
        if let Some(first) = self.first {
            return Err(AssembleFault::Stopped(first));
        }
        match self.state.take(self.alloc, unit) {
            Ok(what) => {
                self.told = what;
                Ok(what)
            }
            Err(ReadError::Memory) => {
                self.first = Some(First::Memory);
                Err(AssembleFault::Memory)
            }
            Err(ReadError::Refused(refusal)) => {
                self.first = Some(First::Refused(refusal));
                Err(AssembleFault::Refused(refusal))
            }
        }
    }

    /// Returns the fields of no structure.
    pub(crate) fn no_fields(&self) -> StructureFields
        ensures { result ≡ no_fields }
    {
        StructureFields::new(self.alloc)
    }

    /// Returns the fields of a unit after the units taken: all, or those before the first that is refused.
    ///
    /// The unit is one as framing returns it.
    ///
    /// # Errors
    ///
    /// `AllocError` if memory runs out.
    pub fn unit_fields(&self, unit: &[u8]) -> Result<StructureFields, AllocError>
        requires { IsSound unit.now }
        ensures { IfOk result (λ f. (R : Readers) (h : AreOfH266 R) (before : List Reading) → Stands self.now before
            → f ≡ unit_fields R h before unit.now) }
    {
        let read = self.state.unit_fields(self.alloc, unit)?;
        Ok(read)
    }

    /// Ends the stream: the units taken so far are all there are.
    ///
    /// # Errors
    ///
    /// - `Refused` with SLICE_MISSING if a picture lacks a slice.
    /// - `Stopped` with the first fault before.
    pub fn finish(&mut self) -> Result<(), AssembleFault>
        ensures answer { (before : List Reading) → Stands self.old before → Ends before result }
        ensures same { OnOk result (self.new ≡ self.old) }
        ensures none { IfErr result (λ _. ¬ HasPicture self.new) }
        ensures nothing { IfErr result (λ _. told self.new ≡ Accepted.Nothing) }
        ensures bounded { IsBounded self.new }
        ensures fault { IfErr result (λ e. first_fault self.new ≡ Some (first_of e)) }
        ensures again { (f : First) → first_fault self.old ≡ Some f → result ≡ Err (AssembleFault.Stopped f) }
        ensures stopped { (f : First) → result ≡ Err (AssembleFault.Stopped f) → first_fault self.old ≡ Some f }
    {
        if let Some(first) = self.first {
            self.told = Accepted::Nothing;
            return Err(AssembleFault::Stopped(first));
        }
        if self.state.picture.is_open() {
            let refusal = structure(SLICE_MISSING);
            self.told = Accepted::Nothing;
            self.first = Some(First::Refused(refusal));
            return Err(AssembleFault::Refused(refusal));
        }
        Ok(())
    }

    /// Returns the items of the set that was taken last, if `what` is its result.
    ///
    /// Returns `None` otherwise, and after another unit. The items of an APS are its type and its id.
    pub fn fields(&self, what: Accepted) -> Option<&Fields>
        ensures taken { (r : Reading) (before : List Reading) → Stands self.now (r ∷ before) → what ≡ told_of r before
            → option_copied result ≡ items_of r }
        ensures only { IfSome result (λ _. IsSet what × (told self.now ≡ what)) }
    {
        if what != self.told {
            return None;
        }
        match what {
            Accepted::Vps | Accepted::Aps(..) => Some(&self.state.fields),
            Accepted::Sps(id) => Some(self.state.sps_of(id)?.value().fields()),
            Accepted::Pps(id) => Some(self.state.pps_of(id)?.value().fields()),
            Accepted::Nothing | Accepted::PictureDone => None,
        }
    }

    /// Returns the stored SPS with an id, or `None`.
    pub fn sps(&self, id: u8) -> Option<&Sps>
        ensures { (before : List Reading) → Stands self.now before → option_copied result ≡ stored_sps id before }
    {
        Some(self.state.sps_of(id)?.value())
    }

    /// Returns the stored PPS with an id, or `None`.
    pub fn pps(&self, id: u8) -> Option<&Pps>
        ensures { (before : List Reading) → Stands self.now before → option_copied result ≡ stored_pps id before }
    {
        Some(self.state.pps_of(id)?.value())
    }

    /// Returns the picture whose last slice was taken last. Takes no memory.
    pub fn picture(&self) -> Picture<'_>
        requires { HasPicture self.now }
        ensures lent { result ≡ lent_by self.now }
        ensures shows { (before : List Reading) → Stands self.now before → ShowsLatest result (pictures before) }
    {
        self.state.picture.lend()
    }
}

impl Lender for Assembler {
    ghost use Rattle.std.specs.Prelude.{◌≡◌, List};
    ghost use Rattle.vx_pic.specs.Readings.{Reading, pictures};
    ghost use Rattle.vx_assemble.specs.Held.{Stands, HasPicture, ShowsLatest, lent_by};

    ghost holds = { HasPicture };

    ghost lent = { lent_by };

    fn picture(&self) -> Picture<'_>
        requires { HasPicture self.now }
        ensures lent { result ≡ lent_by self.now }
        ensures shows { (before : List Reading) → Stands self.now before → ShowsLatest result (pictures before) }
    {
        Assembler::picture(self)
    }
}
