//! Slices that are taken.
ghost use Rattle.std.specs.Prelude.{◌≡◌, ◌+◌, ◌<◌, ◌≤◌, false, [], length, List, Some, IfOk, OnOk};
ghost use Rattle.vx_pic.specs.declared.accepted.Accepted.TheVariants.{PictureDone};
ghost use Rattle.vx_pic.specs.Readings.{Begun, Reading, Picture, current, going, is_whole};
ghost use Rattle.vx_pic.specs.Rules.{Readers, first, further, follows, alone, reads_as, picture_limit};
ghost use Rattle.vx_pic.specs.Units as units;
ghost use Rattle.vx_pic.specs.H266.{AreOfH266};
ghost use Rattle.vx_assemble.specs.inner.Held.{IsApart, IsHeaded, IsGoing, IsHeld};
ghost use Rattle.vx_assemble.specs.inner.Order.{IsHeader, IsInOrder, KnowsSps, AreBodies, IsComplete};
ghost use Rattle.vx_assemble.specs.inner.Takes.{Gives, answer_by, TakesUnit};
ghost use Rattle.vx_assemble.specs.inner.Joining.{IsJoined};
ghost use Rattle.vx_assemble.specs.inner.Changes as changes;
ghost use Rattle.vx_assemble.specs.inner.Slices.{IsFresh, first_read_as, HasJoined, HasJoinedFirst, IsSettled, whole_of, with_first};

use crate::first_slice::counts_behind;
use crate::in_force::InForce;
use crate::join::{Place, join};
use crate::readers::ReadSlice;
use crate::refusals::structure;
use crate::shared::Shared;
use crate::state::{BegunPicture, Stage, State};
use crate::unit::SliceUnit;
use std::alloc::{AllocError, Global};
use std::mem::replace;
use vx_bits::ReadError;
use vx_bits::rules::{HEADER_INSIDE_OF_SEVERAL, SLICE_WITHOUT_HEADER};
use vx_pic::{Accepted, ApsList, Kind, PrevTid0, SliceSlot};
use vx_sei::MessageList;

/// What a picture begins with, at its first slice.
#[derive(Drop)]
pub(crate) struct Opened {
    /// The picture's kind.
    pub kind: Kind,
    /// Its adaptation parameter sets.
    pub bodies: ApsList,
    /// The slice.
    pub read: ReadSlice,
}

/// What later pictures need after a whole one.
#[derive(Drop)]
pub(crate) struct Whole {
    /// Its sets.
    pub sets: Shared<InForce>,
    /// What counts are computed from.
    pub previous: PrevTid0,
}

/// States the bounds of the header of a unit, from the lengths of its fields (H.266 7.3.1.2). Does nothing.
fn header_is_low(unit: SliceUnit<'_>)
    ensures { (unit.entry.header.nal_type < 32) × (unit.entry.header.temporal_id < 7) }
{
    let _second = unit.bytes[1];
}

impl State {
    /// Returns what the picture of the last header begins with, at this unit.
    ///
    /// # Errors
    ///
    /// - `Refused` with the first rule that it breaks.
    /// - `Memory` if memory runs out.
    fn open_first(
        &self,
        alloc: Global,
        begun: &BegunPicture,
        unit: SliceUnit<'_>,
    ) -> Result<Opened, ReadError>
        requires size { length self.now.picture.bytes ≤ picture_limit }
        requires header { IsHeader begun.now }
        requires sps { KnowsSps self.now (Some begun.now.sets.sps) }
        ensures answer { (R : Readers) → AreOfH266 R → (before : List Reading) → IsApart self.now before → (b : Begun) → IsFresh self.now.picture begun.now b
            → Gives (first R before b unit.entry.bytes.now) (answer_by (first_read_as b unit.entry.bytes.now) result) }
        ensures joined { IfOk result (λ o. IsJoined begun.now o.kind.nal_type o.bodies (length unit.entry.bytes.now) o.read) }
        ensures kind { IfOk result (λ o. (o.kind.nal_type < 32) × (o.kind.temporal_id < 7)) }
        ensures bodies { IfOk result (λ o. o.bodies ≡ self.now.aps) }
        ensures size { OnOk result (length self.now.picture.bytes + length unit.entry.bytes.now ≤ picture_limit) }
    {
        header_is_low(unit);
        let kind = match self.open(begun, unit.header) {
            Ok(kind) => kind,
            Err(refusal) => return Err(ReadError::Refused(refusal)),
        };
        let bodies = self.aps.share()?;
        let place = Place {
            kind,
            begun,
            bodies: &bodies,
            count: self.picture.slices.len(),
            size: self.picture.bytes.len(),
        };
        let read = join(alloc, unit, place)?;
        Ok(Opened { kind, bodies, read })
    }

    /// Appends a slice. Then no messages are gathered, and no sequence has ended.
    ///
    /// # Errors
    ///
    /// `AllocError` if memory runs out.
    #[tactic(auto, unfolding(vx_pic::specs::Rules::picture_limit))]
    fn put_slice(&mut self, alloc: Global, unit: &[u8], read: ReadSlice) -> Result<(), AllocError>
        requires order { IsInOrder self.old }
        requires size { length self.old.picture.bytes + length unit.now ≤ picture_limit }
        requires payload { read.payload < length unit.now }
        requires joined { HasJoined self.old.picture (length unit.now) read }
        ensures ok { OnOk result (self.new ≡ changes.with_begun_picture (changes.with_slice unit.now read self.old.picture) self.old) }
        ensures order { IsInOrder self.new }
    {
        let start = self.picture.bytes.len();
        self.picture.append(unit)?;
        let slot = SliceSlot {
            header: read.header,
            start,
            payload: start + read.payload,
            end: start + unit.len(),
        };
        self.picture.push(slot)?;
        self.gathered = MessageList::new(alloc);
        self.gathered_len = 0;
        self.ended = false;
        Ok(())
    }

    /// Stores what a picture begins with.
    ///
    /// # Errors
    ///
    /// `AllocError` if memory runs out.
    fn put_first(&mut self, alloc: Global, unit: &[u8], opened: Opened) -> Result<(), AllocError>
        requires order { IsInOrder self.old }
        requires size { length self.old.picture.bytes + length unit.now ≤ picture_limit }
        requires payload { opened.read.payload < length unit.now }
        requires joined { HasJoinedFirst self.old.picture (length unit.now) opened }
        requires kind { (opened.kind.nal_type < 32) × (opened.kind.temporal_id < 7) }
        requires bodies { AreBodies opened.bodies }
        ensures ok { OnOk result (self.new ≡ with_first unit.now opened self.old) }
        ensures order { IsInOrder self.new }
    {
        let messages = replace(&mut self.gathered, MessageList::new(alloc));
        self.gathered_len = 0;
        self.picture
            .open(alloc, opened.kind, opened.bodies, messages);
        self.put_slice(alloc, unit, opened.read)
    }

    /// Returns what later pictures need after the picture that was begun, if all its slices were taken.
    ///
    /// # Errors
    ///
    /// `AllocError` if the sets have as many owners as can be counted.
    fn whole(&self) -> Result<Option<Whole>, AllocError>
        ensures { IfOk result (λ whole. whole ≡ whole_of self.now.picture.stage self.now) }
    {
        let Stage::Going(going) = &self.picture.stage else {
            return Ok(None);
        };
        if !self.picture.came_all(&going.begun) {
            return Ok(None);
        }
        let sets = going.begun.sets.share()?;
        Ok(Some(Whole {
            sets,
            previous: counts_behind(&going.begun, going.kind, self.previous),
        }))
    }

    /// Returns whether a picture is complete with its last slice, and keeps what later pictures then need.
    ///
    /// # Errors
    ///
    /// `AllocError` if memory runs out. Everything is then unchanged.
    fn settle(&mut self) -> Result<Accepted, AllocError>
        requires order { IsInOrder self.old }
        requires some { 0 < length self.old.picture.slices }
        ensures ok { IfOk result (IsSettled self.old self.new) }
        ensures order { IsInOrder self.new }
        ensures done { IfOk result (λ what. what ≡ PictureDone → IsComplete self.new.picture) }
    {
        let Some(whole) = self.whole()? else {
            return Ok(Accepted::Nothing);
        };
        self.last = Some(whole.sets);
        self.unchanged = true;
        self.previous = whole.previous;
        Ok(Accepted::PictureDone)
    }

    /// Takes the first slice of the picture whose header was taken.
    fn take_first(&mut self, alloc: Global, unit: SliceUnit<'_>) -> Result<Accepted, ReadError>
        requires { IsInOrder self.old }
        ensures answer { (R : Readers) → AreOfH266 R → (before : List Reading) → IsApart self.old before → (b : Begun) → IsHeaded self.old.picture b
            → TakesUnit (first R before b unit.entry.bytes.now) before self.new result }
        ensures order { IsInOrder self.new }
        ensures done { IfOk result (λ what. what ≡ PictureDone → IsComplete self.new.picture) }
    {
        let Stage::Headed(begun) = &self.picture.stage else {
            return Err(ReadError::Refused(structure(SLICE_WITHOUT_HEADER)));
        };
        let opened = self.open_first(alloc, begun, unit)?;
        self.put_first(alloc, unit.bytes, opened)?;
        Ok(self.settle()?)
    }

    /// Takes a further slice of the picture that was begun.
    fn take_further(&mut self, alloc: Global, unit: SliceUnit<'_>) -> Result<Accepted, ReadError>
        requires { IsInOrder self.old }
        ensures answer { (R : Readers) → AreOfH266 R → (before : List Reading) → IsHeld self.old before → (p : Picture) → current before ≡ going p
            → is_whole p ≡ false → TakesUnit (further R p unit.entry.bytes.now) before self.new result }
        ensures order { IsInOrder self.new }
        ensures done { IfOk result (λ what. what ≡ PictureDone → IsComplete self.new.picture) }
    {
        let Stage::Going(going) = &self.picture.stage else {
            return Err(ReadError::Refused(structure(SLICE_WITHOUT_HEADER)));
        };
        let place = Place {
            kind: going.kind,
            begun: &going.begun,
            bodies: &self.picture.bodies,
            count: self.picture.slices.len(),
            size: self.picture.bytes.len(),
        };
        let read = join(alloc, unit, place)?;
        self.put_slice(alloc, unit.bytes, read)?;
        Ok(self.settle()?)
    }

    /// Takes a slice whose picture header came before it.
    fn take_following(&mut self, alloc: Global, unit: SliceUnit<'_>) -> Result<Accepted, ReadError>
        requires { IsInOrder self.old }
        ensures answer { (R : Readers) → AreOfH266 R → (before : List Reading) → IsHeld self.old before
            → TakesUnit (follows R before (current before) unit.entry.bytes.now) before self.new result }
        ensures order { IsInOrder self.new }
        ensures done { IfOk result (λ what. what ≡ PictureDone → IsComplete self.new.picture) }
    {
        if !self.picture.is_open() {
            return Err(ReadError::Refused(structure(SLICE_WITHOUT_HEADER)));
        }
        match &self.picture.stage {
            Stage::Nothing => Err(ReadError::Refused(structure(SLICE_WITHOUT_HEADER))),
            Stage::Headed(_) => self.take_first(alloc, unit),
            Stage::Going(_) => self.take_further(alloc, unit),
        }
    }

    /// Takes a slice with the picture header inside.
    fn take_alone(&mut self, alloc: Global, unit: SliceUnit<'_>) -> Result<Accepted, ReadError>
        requires { IsInOrder self.old }
        ensures answer { (R : Readers) → AreOfH266 R → (before : List Reading) → IsHeld self.old before
            → TakesUnit (alone R before unit.entry.bytes.now) before self.new result }
        ensures order { IsInOrder self.new }
        ensures done { IfOk result (λ what. what ≡ PictureDone → IsComplete self.new.picture) }
    {
        self.check_closed()?;
        let begun = self.begin_alone(alloc, unit)?;
        if begun.sets.value().slices > 1 {
            return Err(ReadError::Refused(structure(HEADER_INSIDE_OF_SEVERAL)));
        }
        self.start(alloc, begun, &[])?;
        self.take_first(alloc, unit)
    }

    /// Takes a slice.
    pub(crate) fn take_slice(
        &mut self,
        alloc: Global,
        unit: SliceUnit<'_>,
    ) -> Result<Accepted, ReadError>
        requires { IsInOrder self.old }
        ensures answer { (R : Readers) → AreOfH266 R → (before : List Reading) → IsHeld self.old before
            → TakesUnit (reads_as R units.slice_unit before unit.entry.bytes.now) before self.new result }
        ensures order { IsInOrder self.new }
        ensures done { IfOk result (λ what. what ≡ PictureDone → IsComplete self.new.picture) }
    {
        if unit.has_header_inside() {
            return self.take_alone(alloc, unit);
        }
        self.take_following(alloc, unit)
    }
}
