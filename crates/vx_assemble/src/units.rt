//! Units that are taken, by their type.
ghost use Rattle.std.specs.Prelude.{◌≡◌, ◌<◌, ℕ, List, IfOk, IfSome};
ghost use Rattle.vx_annexb.specs.NalUnit.{header_of};
ghost use Rattle.vx_annexb.specs.ByteStream.{IsSound};
ghost use Rattle.vx_pic.specs.declared.accepted.Accepted.TheVariants.{PictureDone};
ghost use Rattle.vx_pic.specs.Readings.{Reading};
ghost use Rattle.vx_pic.specs.Rules.{Readers, reads, reads_as};
ghost use Rattle.vx_pic.specs.Units as units;
ghost use Rattle.vx_pic.specs.H266.{AreOfH266};
ghost use Rattle.vx_assemble.specs.inner.Held.{IsHeld};
ghost use Rattle.vx_assemble.specs.inner.Held as held;
ghost use Rattle.vx_assemble.specs.inner.Order.{IsInOrder, IsComplete};
ghost use Rattle.vx_assemble.specs.inner.Takes.{Gives, TakesUnit, outside_picture, no_slice_missing};
ghost use Rattle.vx_assemble.specs.inner.Classes.{class_seen};

use crate::readers::{aps_of, messages_of, vps_of};
use crate::refusals::structure;
use crate::sets::put_set;
use crate::state::State;
use crate::unit::{NalUnit, SliceUnit, UnitClass, class_of, front_of, nal_header};
use std::alloc::{AllocError, Global};
use std::sync::Arc;
use vx_annexb::{NalHeader, unescape};
use vx_aps::Aps;
use vx_bits::rules::{LONG_MESSAGES, SET_INSIDE_PICTURE, SEVERAL_LAYERS, SLICE_MISSING};
use vx_bits::{Fields, Item, ReadError, Refusal};
use vx_fields::aps::{aps_adaptation_parameter_set_id, aps_params_type};
use vx_pic::Accepted;

/// Returns the items of an APS: its type and its id.
fn aps_items(alloc: Global, aps: &Aps) -> Result<Fields, AllocError>
    ensures { IfOk result (λ items. items ≡ held.aps_items aps.now) }
{
    let mut items = Fields::new(alloc);
    items.push(Item {
        field: aps_params_type,
        value: i64::from(aps.kind),
    })?;
    items.push(Item {
        field: aps_adaptation_parameter_set_id,
        value: i64::from(aps.id),
    })?;
    Ok(items)
}

impl State {
    /// Checks that no picture is incomplete: within one, no set may come to which slices refer.
    ///
    /// # Errors
    ///
    /// SET_INSIDE_PICTURE.
    fn check_outside(&self) -> Result<(), ReadError>
        requires { IsInOrder self.now }
        ensures { (before : List Reading) → IsHeld self.now before → Gives (outside_picture before) result }
    {
        if self.picture.is_within() {
            return Err(ReadError::Refused(structure(SET_INSIDE_PICTURE)));
        }
        Ok(())
    }

    /// Checks that all slices of the picture that was begun last were taken.
    ///
    /// # Errors
    ///
    /// SLICE_MISSING.
    pub(crate) fn check_closed(&self) -> Result<(), ReadError>
        requires { IsInOrder self.now }
        ensures { (before : List Reading) → IsHeld self.now before → Gives (no_slice_missing before) result }
    {
        if self.picture.is_open() {
            return Err(ReadError::Refused(structure(SLICE_MISSING)));
        }
        Ok(())
    }

    /// Takes a VPS.
    #[tactic(auto, using(crate::proofs::Taking::took_vps, crate::proofs::Taking::failed_vps))]
    fn take_vps(&mut self, alloc: Global, unit: NalUnit<'_>) -> Result<Accepted, ReadError>
        requires { IsInOrder self.old }
        ensures answer { (R : Readers) → AreOfH266 R → (before : List Reading) → IsHeld self.old before
            → TakesUnit (reads_as R units.vps_unit before unit.entry.bytes.now) before self.new result }
        ensures order { IsInOrder self.new }
        ensures quiet { IfOk result (λ what. what ≡ PictureDone → ⊥) }
    {
        let items = vps_of(alloc, unit.rbsp)?;
        self.keep_items(items);
        Ok(Accepted::Vps)
    }

    /// Takes an SPS.
    fn take_sps(&mut self, alloc: Global, unit: NalUnit<'_>) -> Result<Accepted, ReadError>
        requires { IsInOrder self.old }
        ensures answer { (R : Readers) → AreOfH266 R → (before : List Reading) → IsHeld self.old before
            → TakesUnit (reads_as R units.sps_unit before unit.entry.bytes.now) before self.new result }
        ensures order { IsInOrder self.new }
        ensures quiet { IfOk result (λ what. what ≡ PictureDone → ⊥) }
    {
        self.check_outside()?;
        let id = put_set(alloc, &mut self.sps, &mut self.made, unit.rbsp)?;
        Ok(Accepted::Sps(id))
    }

    /// Takes a PPS.
    fn take_pps(&mut self, alloc: Global, unit: NalUnit<'_>) -> Result<Accepted, ReadError>
        requires { IsInOrder self.old }
        ensures answer { (R : Readers) → AreOfH266 R → (before : List Reading) → IsHeld self.old before
            → TakesUnit (reads_as R units.pps_unit before unit.entry.bytes.now) before self.new result }
        ensures order { IsInOrder self.new }
        ensures quiet { IfOk result (λ what. what ≡ PictureDone → ⊥) }
    {
        self.check_outside()?;
        let id = put_set(alloc, &mut self.pps, &mut self.made, unit.rbsp)?;
        Ok(Accepted::Pps(id))
    }

    /// Takes an APS, which may come anywhere.
    #[tactic(auto, using(crate::proofs::Taking::took_aps, crate::proofs::Taking::failed_aps, crate::proofs::Taking::dropped_aps))]
    fn take_suffix_aps(&mut self, alloc: Global, unit: NalUnit<'_>) -> Result<Accepted, ReadError>
        requires { IsInOrder self.old }
        ensures answer { (R : Readers) → AreOfH266 R → (before : List Reading) → IsHeld self.old before
            → TakesUnit (reads_as R units.suffix_aps before unit.entry.bytes.now) before self.new result }
        ensures order { IsInOrder self.new }
        ensures quiet { IfOk result (λ what. what ≡ PictureDone → ⊥) }
    {
        let Some(aps) = aps_of(alloc, unit.rbsp)? else {
            return Ok(Accepted::Nothing);
        };
        let items = aps_items(alloc, &aps)?;
        let told = Accepted::Aps(aps.kind, aps.id);
        let Ok(aps) = Arc::new(alloc, aps) else {
            return Err(ReadError::Memory);
        };
        self.keep_aps(aps, items);
        Ok(told)
    }

    /// Takes an APS that must come before slices.
    fn take_prefix_aps(&mut self, alloc: Global, unit: NalUnit<'_>) -> Result<Accepted, ReadError>
        requires { IsInOrder self.old }
        ensures answer { (R : Readers) → AreOfH266 R → (before : List Reading) → IsHeld self.old before
            → TakesUnit (reads_as R units.prefix_aps before unit.entry.bytes.now) before self.new result }
        ensures order { IsInOrder self.new }
        ensures quiet { IfOk result (λ what. what ≡ PictureDone → ⊥) }
    {
        self.check_outside()?;
        self.take_suffix_aps(alloc, unit)
    }

    /// Takes the end of a sequence, or of the bitstream.
    fn take_end(&mut self) -> Result<Accepted, ReadError>
        requires { IsInOrder self.old }
        ensures answer { (R : Readers) (u : List ℕ) → AreOfH266 R → (before : List Reading) → IsHeld self.old before
            → TakesUnit (reads_as R units.end_unit before u) before self.new result }
        ensures order { IsInOrder self.new }
        ensures quiet { IfOk result (λ what. what ≡ PictureDone → ⊥) }
    {
        self.check_closed()?;
        self.keep_end();
        Ok(Accepted::Nothing)
    }

    /// Takes a PH unit.
    fn take_header(&mut self, alloc: Global, unit: NalUnit<'_>) -> Result<Accepted, ReadError>
        requires { IsInOrder self.old }
        ensures answer { (R : Readers) → AreOfH266 R → (before : List Reading) → IsHeld self.old before
            → TakesUnit (reads_as R units.header_unit before unit.entry.bytes.now) before self.new result }
        ensures order { IsInOrder self.new }
        ensures quiet { IfOk result (λ what. what ≡ PictureDone → ⊥) }
    {
        self.check_closed()?;
        let begun = self.begin(alloc, unit, false)?;
        self.start(alloc, begun, unit.bytes)?;
        Ok(Accepted::Nothing)
    }

    /// Takes supplemental enhancement information.
    fn take_sei(&mut self, alloc: Global, unit: NalUnit<'_>) -> Result<Accepted, ReadError>
        requires { IsInOrder self.old }
        ensures answer { (R : Readers) → AreOfH266 R → (before : List Reading) → IsHeld self.old before
            → TakesUnit (reads_as R units.sei_unit before unit.entry.bytes.now) before self.new result }
        ensures order { IsInOrder self.new }
        ensures quiet { IfOk result (λ what. what ≡ PictureDone → ⊥) }
    {
        if self.picture.is_within() {
            return Ok(Accepted::Nothing);
        }
        let messages = messages_of(alloc, unit.rbsp)?;
        let kept = self.gather(alloc, &messages)?;
        if !kept {
            return Err(ReadError::Refused(Refusal::Limit {
                code: LONG_MESSAGES,
            }));
        }
        Ok(Accepted::Nothing)
    }

    /// Takes a unit of a class.
    fn take_class(
        &mut self,
        alloc: Global,
        class: UnitClass,
        unit: NalUnit<'_>,
    ) -> Result<Accepted, ReadError>
        requires { IsInOrder self.old }
        ensures answer { (R : Readers) → AreOfH266 R → (before : List Reading) → IsHeld self.old before
            → TakesUnit (reads_as R (class_seen class) before unit.entry.bytes.now) before self.new result }
        ensures order { IsInOrder self.new }
        ensures done { IfOk result (λ what. what ≡ PictureDone → IsComplete self.new.picture) }
    {
        match class {
            UnitClass::Other => Ok(Accepted::Nothing),
            UnitClass::Vps => self.take_vps(alloc, unit),
            UnitClass::Sps => self.take_sps(alloc, unit),
            UnitClass::Pps => self.take_pps(alloc, unit),
            UnitClass::PrefixAps => self.take_prefix_aps(alloc, unit),
            UnitClass::SuffixAps => self.take_suffix_aps(alloc, unit),
            UnitClass::Header => self.take_header(alloc, unit),
            UnitClass::Slice => self.take_slice(alloc, unit.as_slice()),
            UnitClass::End => self.take_end(),
            UnitClass::Sei => self.take_sei(alloc, unit),
        }
    }

    /// Takes a slice, of which the bytes are unescaped only up to the end of its header.
    fn take_slice_unit(
        &mut self,
        alloc: Global,
        unit: &[u8],
        header: NalHeader,
    ) -> Result<Accepted, ReadError>
        requires order { IsInOrder self.old }
        requires sound { IsSound unit.now }
        requires header { header ≡ header_of unit.now }
        ensures answer { (R : Readers) → AreOfH266 R → (before : List Reading) → IsHeld self.old before
            → TakesUnit (reads_as R units.slice_unit before unit.now) before self.new result }
        ensures order { IsInOrder self.new }
        ensures done { IfOk result (λ what. what ≡ PictureDone → IsComplete self.new.picture) }
    {
        let front = front_of(unit);
        let bytes = unescape(alloc, front)?;
        let slice = SliceUnit::new(unit, header, front, &bytes);
        self.take_slice(alloc, slice)
    }

    /// Takes a unit of a class, of which all bytes are unescaped.
    fn take_whole_unit(
        &mut self,
        alloc: Global,
        class: UnitClass,
        unit: &[u8],
        header: NalHeader,
    ) -> Result<Accepted, ReadError>
        requires order { IsInOrder self.old }
        requires sound { IsSound unit.now }
        requires header { header ≡ header_of unit.now }
        ensures answer { (R : Readers) → AreOfH266 R → (before : List Reading) → IsHeld self.old before
            → TakesUnit (reads_as R (class_seen class) before unit.now) before self.new result }
        ensures order { IsInOrder self.new }
        ensures done { IfOk result (λ what. what ≡ PictureDone → IsComplete self.new.picture) }
    {
        let bytes = unescape(alloc, unit)?;
        let whole = NalUnit::new(unit, header, &bytes);
        self.take_class(alloc, class, whole)
    }

    /// Takes a unit.
    ///
    /// # Errors
    ///
    /// - `Refused` with the rule that it breaks, after those before it.
    /// - `Memory` if memory runs out.
    #[tactic(auto, unfolding(vx_pic::specs::Units::is_reserved))]
    pub(crate) fn take(&mut self, alloc: Global, unit: &[u8]) -> Result<Accepted, ReadError>
        requires order { IsInOrder self.old }
        requires sound { IsSound unit.now }
        ensures answer { (R : Readers) → AreOfH266 R → (before : List Reading) → IsHeld self.old before
            → TakesUnit (reads R before unit.now) before self.new result }
        ensures order { IsInOrder self.new }
        ensures done { IfOk result (λ what. what ≡ PictureDone → IsComplete self.new.picture) }
    {
        let header = nal_header(unit);
        if header.reserved {
            return Ok(Accepted::Nothing);
        }
        if header.layer_id != 0 {
            return Err(ReadError::Refused(Refusal::Profile {
                code: SEVERAL_LAYERS,
            }));
        }
        let class = class_of(header.nal_type);
        if class == UnitClass::Other {
            return Ok(Accepted::Nothing);
        }
        if let UnitClass::Slice = class {
            return self.take_slice_unit(alloc, unit, header);
        }
        self.take_whole_unit(alloc, class, unit, header)
    }
}
