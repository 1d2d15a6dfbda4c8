//! The fields of a unit, up to the first that is refused.
ghost use Rattle.std.specs.Prelude.{◌≡◌, ◌++◌, ◌≤◌, length, true, List, Option, None, ℕ, IfOk, OnOk};
ghost use Rattle.vx_bits.specs.Place.{Place};
ghost use Rattle.vx_bits.specs.Limits.{unit_limit};
ghost use Rattle.vx_annexb.specs.NalUnit.{header_of};
ghost use Rattle.vx_annexb.specs.ByteStream.{IsSound};
ghost use Rattle.vx_table.specs.Reading.{Reads, at_front};
ghost use Rattle.vx_sh.specs.Whole.{slice_form};
ghost use Rattle.vx_pic.specs.Units as units;
ghost use Rattle.vx_pic.specs.Units.{rbsp_of};
ghost use Rattle.vx_pic.specs.UnderSets.{at_slice_of};
ghost use Rattle.vx_pic.specs.Shown as shown;
ghost use Rattle.vx_pic.specs.Readings.{Reading, current};
ghost use Rattle.vx_pic.specs.Rules.{Readers, begins};
ghost use Rattle.vx_pic.specs.H266.{AreOfH266};
ghost use Rattle.vx_assemble.specs.Fields as fields;
ghost use Rattle.vx_assemble.specs.inner.Classes.{class_seen};
ghost use Rattle.vx_assemble.specs.inner.Fields.{HasAnswered, head_items};
ghost use Rattle.vx_assemble.specs.inner.Held.{begun_of, IsApart, IsHeld};
ghost use Rattle.vx_assemble.specs.inner.Order.{IsHeader, IsInOrder};

use crate::readers::{header_bits, numbers_under, referred_pps};
use crate::state::{BegunPicture, Stage, State};
use crate::unit::{NalUnit, SliceUnit, UnitClass, class_of, front_of, nal_header};
use std::alloc::{AllocError, Global};
use vx_annexb::{NalHeader, unescape};
use vx_aps::read_aps_fields;
use vx_bits::{Fields, Item, ReadError};
use vx_fields::sh::sh_picture_header_in_slice_header_flag;
use vx_ph::{read_ph_fields, read_ph_unit_fields, read_pps_id_fields};
use vx_pic::{Structure, StructureFields};
use vx_pps::{Pps, read_pps_fields};
use vx_ptl::read_vps_fields;
use vx_sh::read_sh_fields;
use vx_sps::{Sps, read_sps_fields};

/// Drops a refusal: the fields end there.
fn unless_memory(read: Result<(), ReadError>) -> Result<(), AllocError>
    ensures { OnOk result (HasAnswered read) }
{
    match read {
        Ok(()) => Ok(()),
        Err(ReadError::Refused(_)) => Ok(()),
        Err(ReadError::Memory) => Err(AllocError),
    }
}

/// Returns the fields of a structure without a body.
fn fields_of(structure: Structure, items: Fields) -> StructureFields
    ensures { result ≡ shown.fields_of structure items }
{
    StructureFields {
        structure: Some(structure),
        items,
        body: None,
    }
}

// ---- sets

/// Returns the items of a VPS.
fn vps_items(alloc: Global, rbsp: &[u8]) -> Result<Fields, AllocError>
    requires { length rbsp.now ≤ unit_limit }
    ensures { IfOk result (λ items. (R : Readers) (h : AreOfH266 R) → items ≡ fields.vps_items R h rbsp.now) }
{
    let mut items = Fields::new(alloc);
    unless_memory(read_vps_fields(rbsp, &mut items))?;
    Ok(items)
}

/// Returns the items of an SPS.
fn sps_items(alloc: Global, rbsp: &[u8]) -> Result<Fields, AllocError>
    requires { length rbsp.now ≤ unit_limit }
    ensures { IfOk result (λ items. (R : Readers) (h : AreOfH266 R) → items ≡ fields.sps_items R h rbsp.now) }
{
    let mut items = Fields::new(alloc);
    unless_memory(read_sps_fields(rbsp, &mut items))?;
    Ok(items)
}

/// Returns the items of a PPS.
fn pps_items(alloc: Global, rbsp: &[u8]) -> Result<Fields, AllocError>
    requires { length rbsp.now ≤ unit_limit }
    ensures { IfOk result (λ items. (R : Readers) (h : AreOfH266 R) → items ≡ fields.pps_items R h rbsp.now) }
{
    let mut items = Fields::new(alloc);
    unless_memory(read_pps_fields(alloc, rbsp, &mut items))?;
    Ok(items)
}

/// Returns the fields of an APS.
fn aps_fields(alloc: Global, rbsp: &[u8]) -> Result<StructureFields, AllocError>
    ensures { IfOk result (λ f. (R : Readers) (h : AreOfH266 R) → f ≡ fields.aps_fields R h rbsp.now) }
{
    let read = read_aps_fields(alloc, rbsp)?;
    Ok(StructureFields {
        structure: Some(Structure::Aps),
        items: read.items,
        body: read.body,
    })
}

// ---- picture headers

/// Returns the items before a picture header, which may be inside a slice.
fn items_before(alloc: Global, inside: bool) -> Result<Fields, AllocError>
    ensures { IfOk result (λ items. items ≡ head_items inside) }
{
    let mut items = Fields::new(alloc);
    if inside {
        items.push(Item {
            field: sh_picture_header_in_slice_header_flag,
            value: 1,
        })?;
    }
    Ok(items)
}

/// Returns the items of a picture header up to the id of the PPS.
fn items_to_id(alloc: Global, inside: bool, rbsp: &[u8]) -> Result<Fields, AllocError>
    requires { length rbsp.now ≤ unit_limit }
    ensures { IfOk result (λ items. (R : Readers) (h : AreOfH266 R) → items ≡ head_items inside ++ fields.id_items R h inside rbsp.now) }
{
    let mut items = items_before(alloc, inside)?;
    let mut bits = header_bits(inside, rbsp);
    unless_memory(read_pps_id_fields(&mut bits, &mut items))?;
    Ok(items)
}

/// Returns the items of a picture header inside a slice, under its sets.
fn items_inside(alloc: Global, sps: &Sps, pps: &Pps, rbsp: &[u8]) -> Result<Fields, AllocError>
    requires { length rbsp.now ≤ unit_limit }
    ensures { IfOk result (λ items. (R : Readers) (h : AreOfH266 R)
        → items ≡ head_items true ++ fields.header_items R h true rbsp.now sps.now pps.now) }
{
    let mut items = items_before(alloc, true)?;
    let mut bits = header_bits(true, rbsp);
    unless_memory(read_ph_fields(&mut bits, sps, pps, &mut items))?;
    Ok(items)
}

/// Returns the items of a picture header, which may be inside a slice, under its sets.
fn header_items(
    alloc: Global,
    inside: bool,
    sps: &Sps,
    pps: &Pps,
    rbsp: &[u8],
) -> Result<Fields, AllocError>
    requires { length rbsp.now ≤ unit_limit }
    ensures { IfOk result (λ items. (R : Readers) (h : AreOfH266 R)
        → items ≡ head_items inside ++ fields.header_items R h inside rbsp.now sps.now pps.now) }
{
    if inside {
        let items = items_inside(alloc, sps, pps, rbsp)?;
        return Ok(items);
    }
    let mut items = Fields::new(alloc);
    unless_memory(read_ph_unit_fields(rbsp, sps, pps, &mut items))?;
    Ok(items)
}

// ---- slices

/// Reads the fields of a slice of a picture, whose first slice has this type, from the RBSP of its unit.
fn read_slice_fields(
    nal_type: u8,
    begun: &BegunPicture,
    unit: NalUnit<'_>,
    into: &mut Fields,
) -> Result<(), ReadError>
    requires { IsHeader begun.now }
    ensures { (head : Option (List ℕ)) → (new : Place)
        × Reads (slice_form (at_slice_of nal_type (begun_of begun.now head))) (at_front (rbsp_of unit.entry.bytes.now)) into.old result new into.new }
{
    let numbers = numbers_under(nal_type, begun);
    read_sh_fields(unit.rbsp, &numbers, into)?;
    Ok(())
}

/// Returns the items of a slice of a picture, whose first slice has this type.
fn slice_items(
    alloc: Global,
    nal_type: u8,
    begun: &BegunPicture,
    unit: SliceUnit<'_>,
) -> Result<Fields, AllocError>
    requires { IsHeader begun.now }
    ensures { IfOk result (λ items. (R : Readers) (h : AreOfH266 R) (head : Option (List ℕ))
        → items ≡ fields.slice_items R h nal_type (begun_of begun.now head) unit.entry.bytes.now) }
{
    let mut first = Fields::new(alloc);
    if let Ok(()) = read_slice_fields(nal_type, begun, unit.front, &mut first) {
        return Ok(first);
    }
    let bytes = unescape(alloc, unit.bytes)?;
    let whole = unit.whole(&bytes);
    let mut items = Fields::new(alloc);
    unless_memory(read_slice_fields(nal_type, begun, whole, &mut items))?;
    Ok(items)
}

impl State {
    /// Returns the items of a picture header, which may be inside a slice: up to the id of the PPS if one of its sets isn't
    /// stored.
    fn picture_header_items(
        &self,
        alloc: Global,
        inside: bool,
        rbsp: &[u8],
    ) -> Result<Fields, AllocError>
        requires { length rbsp.now ≤ unit_limit }
        ensures { IfOk result (λ items. (R : Readers) (h : AreOfH266 R) (before : List Reading) → IsApart self.now before
            → items ≡ head_items inside ++ fields.picture_header_items R h inside rbsp.now before) }
    {
        let id = match referred_pps(inside, rbsp) {
            Ok(id) => id,
            Err(ReadError::Memory) => return Err(AllocError),
            Err(ReadError::Refused(_)) => {
                let items = items_to_id(alloc, inside, rbsp)?;
                return Ok(items);
            }
        };
        let Some(pps) = self.pps_of(id) else {
            let items = items_to_id(alloc, inside, rbsp)?;
            return Ok(items);
        };
        let Some(sps) = self.sps_of(pps.value().sps_id()) else {
            let items = items_to_id(alloc, inside, rbsp)?;
            return Ok(items);
        };
        let items = header_items(alloc, inside, sps.value(), pps.value(), rbsp)?;
        Ok(items)
    }

    /// Returns the items of a picture header inside a slice, of which all bytes are unescaped.
    fn whole_header_items(&self, alloc: Global, unit: SliceUnit<'_>) -> Result<Fields, AllocError>
        ensures { IfOk result (λ items. (R : Readers) (h : AreOfH266 R) (before : List Reading) → IsApart self.now before
            → items ≡ head_items true ++ fields.picture_header_items R h true (rbsp_of unit.entry.bytes.now) before) }
    {
        let bytes = unescape(alloc, unit.bytes)?;
        let whole = unit.whole(&bytes);
        let items = self.picture_header_items(alloc, true, whole.rbsp)?;
        Ok(items)
    }

    /// Returns the items of a slice with the picture header inside.
    fn alone_items(&self, alloc: Global, unit: SliceUnit<'_>) -> Result<Fields, AllocError>
        requires { IsInOrder self.now }
        ensures { IfOk result (λ items. (R : Readers) (h : AreOfH266 R) (before : List Reading) → IsApart self.now before
            → items ≡ fields.alone_items R h before unit.entry.bytes.now (begins R before unit.entry.bytes.now None)) }
    {
        match self.begin_alone(alloc, unit) {
            Ok(begun) => slice_items(alloc, unit.header.nal_type, &begun, unit),
            Err(ReadError::Memory) => Err(AllocError),
            Err(ReadError::Refused(_)) => self.whole_header_items(alloc, unit),
        }
    }

    /// Returns the fields of a slice whose picture header came before it; none if there is no such picture.
    fn following_fields(
        &self,
        alloc: Global,
        unit: SliceUnit<'_>,
    ) -> Result<StructureFields, AllocError>
        requires { IsInOrder self.now }
        ensures { IfOk result (λ f. (R : Readers) (h : AreOfH266 R) (before : List Reading) → IsHeld self.now before
            → f ≡ fields.following_fields R h (current before) unit.entry.bytes.now) }
    {
        if !self.picture.is_open() {
            return Ok(StructureFields::new(alloc));
        }
        match &self.picture.stage {
            Stage::Nothing => Ok(StructureFields::new(alloc)),
            Stage::Headed(begun) => {
                let items = slice_items(alloc, unit.header.nal_type, begun, unit)?;
                Ok(fields_of(Structure::SliceHeader, items))
            }
            Stage::Going(going) => {
                let items = slice_items(alloc, going.kind.nal_type, &going.begun, unit)?;
                Ok(fields_of(Structure::SliceHeader, items))
            }
        }
    }

    /// Returns the fields of a slice.
    fn slice_fields(
        &self,
        alloc: Global,
        unit: SliceUnit<'_>,
    ) -> Result<StructureFields, AllocError>
        requires { IsInOrder self.now }
        ensures { IfOk result (λ f. (R : Readers) (h : AreOfH266 R) (before : List Reading) → IsHeld self.now before
            → f ≡ fields.slice_fields R h before unit.entry.bytes.now) }
    {
        if unit.has_header_inside() {
            let items = self.alone_items(alloc, unit)?;
            return Ok(fields_of(Structure::SliceHeader, items));
        }
        let read = self.following_fields(alloc, unit)?;
        Ok(read)
    }

    /// Returns the fields of a slice's unit, of which only the start is unescaped if the header ends there.
    fn slice_unit_fields(
        &self,
        alloc: Global,
        unit: &[u8],
        header: NalHeader,
    ) -> Result<StructureFields, AllocError>
        requires order { IsInOrder self.now }
        requires sound { IsSound unit.now }
        requires header { header ≡ header_of unit.now }
        ensures { IfOk result (λ f. (R : Readers) (h : AreOfH266 R) (before : List Reading) → IsHeld self.now before
            → f ≡ fields.slice_fields R h before unit.now) }
    {
        let front = front_of(unit);
        let bytes = unescape(alloc, front)?;
        let slice = SliceUnit::new(unit, header, front, &bytes);
        let read = self.slice_fields(alloc, slice)?;
        Ok(read)
    }

    /// Returns the fields of a unit of a class, of which all bytes are unescaped.
    fn class_fields(
        &self,
        alloc: Global,
        class: UnitClass,
        unit: NalUnit<'_>,
    ) -> Result<StructureFields, AllocError>
        requires { IsInOrder self.now }
        ensures { IfOk result (λ f. (R : Readers) (h : AreOfH266 R) (before : List Reading) → IsHeld self.now before
            → f ≡ fields.fields_as R h (class_seen class) before unit.entry.bytes.now) }
    {
        match class {
            UnitClass::Vps => Ok(fields_of(Structure::Vps, vps_items(alloc, unit.rbsp)?)),
            UnitClass::Sps => Ok(fields_of(Structure::Sps, sps_items(alloc, unit.rbsp)?)),
            UnitClass::Pps => Ok(fields_of(Structure::Pps, pps_items(alloc, unit.rbsp)?)),
            UnitClass::PrefixAps => Ok(aps_fields(alloc, unit.rbsp)?),
            UnitClass::SuffixAps => Ok(aps_fields(alloc, unit.rbsp)?),
            UnitClass::Header => {
                let items = self.picture_header_items(alloc, false, unit.rbsp)?;
                Ok(fields_of(Structure::PictureHeader, items))
            }
            UnitClass::Slice => Ok(self.slice_fields(alloc, unit.as_slice())?),
            UnitClass::Other => Ok(StructureFields::new(alloc)),
            UnitClass::End => Ok(StructureFields::new(alloc)),
            UnitClass::Sei => Ok(StructureFields::new(alloc)),
        }
    }

    /// Returns the fields of a unit of a class.
    fn whole_unit_fields(
        &self,
        alloc: Global,
        class: UnitClass,
        unit: &[u8],
        header: NalHeader,
    ) -> Result<StructureFields, AllocError>
        requires order { IsInOrder self.now }
        requires sound { IsSound unit.now }
        requires header { header ≡ header_of unit.now }
        ensures { IfOk result (λ f. (R : Readers) (h : AreOfH266 R) (before : List Reading) → IsHeld self.now before
            → f ≡ fields.fields_as R h (class_seen class) before unit.now) }
    {
        let bytes = unescape(alloc, unit)?;
        let whole = NalUnit::new(unit, header, &bytes);
        let given = self.class_fields(alloc, class, whole)?;
        Ok(given)
    }

    /// Returns the fields of a unit after those that were taken, up to the first that is refused.
    #[tactic(auto, unfolding(vx_pic::specs::Units::is_reserved))]
    pub(crate) fn unit_fields(
        &self,
        alloc: Global,
        unit: &[u8],
    ) -> Result<StructureFields, AllocError>
        requires order { IsInOrder self.now }
        requires sound { IsSound unit.now }
        ensures { IfOk result (λ f. (R : Readers) (h : AreOfH266 R) (before : List Reading) → IsHeld self.now before
            → f ≡ fields.unit_fields R h before unit.now) }
    {
        let header = nal_header(unit);
        if header.reserved {
            return Ok(StructureFields::new(alloc));
        }
        if header.layer_id != 0 {
            return Ok(StructureFields::new(alloc));
        }
        let class = class_of(header.nal_type);
        if let UnitClass::Slice = class {
            let read = self.slice_unit_fields(alloc, unit, header)?;
            return Ok(read);
        }
        let read = self.whole_unit_fields(alloc, class, unit, header)?;
        Ok(read)
    }
}
