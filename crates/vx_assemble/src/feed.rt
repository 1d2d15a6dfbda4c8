//! The units of a source, taken one at a time while the source is read.
ghost use Rattle.std.specs.Prelude.{◌≡◌, ℕ, ◌+◌, ◌^◌, ◌<◌, ◌≤◌, List, Some, None, Ok, IfOk, IfSome, OnOk, OnErr};
ghost use Rattle.vx_annexb.specs.ByteStream.{UnitPlace, IsSound};
ghost use Rattle.vx_annexb.specs.Held.{IsSought, ahead, fed, is_all};
ghost use Rattle.vx_annexb.specs.Reading.{HoldsFew, IsOpen as MayRead};
ghost use Rattle.vx_annexb.specs.declared.unit_reader.Closed.TheVariants.{Failed};
ghost use Rattle.vx_assemble.specs.declared.feed.Taken.TheVariants.{End};
ghost use Rattle.vx_pic.specs.Readings.{Reading};
ghost use Rattle.vx_pic.specs.Rules.{Readers};
ghost use Rattle.vx_pic.specs.H266.{AreOfH266};
ghost use Rattle.vx_assemble.specs.Held.{Stands, IsBounded};
ghost use Rattle.vx_assemble.specs.Feed.{HasFed, Gives, GivesSeen, IsToldBy, Lowers, Counts, first_of};
ghost use Rattle.vx_assemble.specs.inner.Feed.{Accepts, fault_of, read_fault, feeding, step_by};
ghost use Rattle.vx_assemble.specs.declared.feed.FeedFault.TheVariants.{Refused as IsRefused, Memory as OutOfMemory};

use crate::assembler::Assembler;
use crate::fault::{AssembleFault, First};
use crate::unit::nal_header;
use crate::view::UnitView;
use std::alloc::{AllocError, Global};
use std::marker::Model;
use thiserror::Error;
use vx_annexb::{NalHeader, ReadFault, UnitReader};
use vx_bits::{Fields, Refusal};
use vx_io::Source;
use vx_pic::{Accepted, Lender, Picture};
use vx_pps::Pps;
use vx_sps::Sps;

/// What a feed has taken: a unit, or the end of the source.
#[derive(Clone, Copy, Debug, PartialEq, Eq)]
pub enum Taken {
    /// A NAL unit.
    Nal {
        /// Its header.
        header: NalHeader,
        /// The place of its first byte in the source.
        offset: u64,
        /// Its length in bytes.
        bytes: u64,
        /// What it was.
        what: Accepted,
    },
    /// The end of the source.
    End,
}

/// The step to which a feed advanced: a picture, or the end.
#[derive(Clone, Copy, Debug, PartialEq, Eq)]
pub enum Step {
    /// A picture, with its last slice.
    Picture,
    /// The end of the source.
    End,
}

/// The reason why a feed takes no unit.
#[derive(Clone, Copy, Debug, PartialEq, Eq, Error)]
pub enum FeedFault {
    /// Memory ran out.
    #[error("out of memory")]
    Memory,
    /// A read of the source failed.
    #[error("a read failed")]
    SourceFailed,
    /// The stream is refused.
    #[error("refused")]
    Refused(Refusal),
    /// It stopped before, for this fault.
    #[error("stopped before")]
    Stopped(First),
}

/// A reader of a stream, unit by unit, which lends each picture once its last slice is complete.
///
/// It doesn't own the source: calls that read take it as an argument. It reads only if the bytes read so far contain no further
/// complete unit. Bytes can be handed in by `feed` instead. It holds at most 2^25 + 2^23 + 65,538 bytes of its source, in
/// addition to stored sets and messages; a new feed holds none. After a refusal, a failed read or lack of memory every call
/// returns `Stopped`.
pub struct Feed {
    reader: UnitReader,
    assembler: Assembler,
    // The number of units taken.
    units: u64,
    first: Option<First>,
}

impl Drop for Feed {
    fn drop(self) {
        let Feed {
            reader: _,
            assembler: _,
            units: _,
            first: _,
        } = self;
    }
}

impl Model for Feed {
    ghost use Rattle.vx_assemble.specs.Feed.{Feeding};
    ghost use Rattle.vx_assemble.specs.inner.Feed.{IsInStep};

    ghost Value = { Feeding };

    ghost view = { λ f. record { reader = f.reader; assembler = f.assembler; units = f.units; first = f.first } };

    ghost invariant = { λ f. IsInStep (record { reader = f.reader; assembler = f.assembler; units = f.units; first = f.first }) };
}

impl From<AssembleFault> for FeedFault {
    ghost from_gives = { λ fault e. e ≡ fault_of fault };

    fn from(fault: AssembleFault) -> FeedFault {
        match fault {
            AssembleFault::Memory => FeedFault::Memory,
            AssembleFault::Refused(refusal) => FeedFault::Refused(refusal),
            AssembleFault::Stopped(first) => FeedFault::Stopped(first),
        }
    }
}

impl From<Refusal> for FeedFault {
    ghost from_gives = { λ refusal e. e ≡ IsRefused refusal };

    fn from(refusal: Refusal) -> FeedFault {
        FeedFault::Refused(refusal)
    }
}

impl From<AllocError> for FeedFault {
    ghost from_gives = { λ fault e. e ≡ OutOfMemory };

    fn from(_fault: AllocError) -> FeedFault {
        FeedFault::Memory
    }
}

impl From<ReadFault> for FeedFault {
    ghost from_gives = { λ fault e. e ≡ read_fault fault };

    fn from(fault: ReadFault) -> FeedFault {
        match fault {
            ReadFault::Memory => FeedFault::Memory,
            ReadFault::SourceFailed => FeedFault::SourceFailed,
        }
    }
}

/// Returns the first fault of a feed, from its error.
fn first_of(fault: FeedFault) -> First
    ensures { result ≡ first_of fault }
{
    match fault {
        FeedFault::Memory => First::Memory,
        FeedFault::SourceFailed => First::SourceFailed,
        FeedFault::Refused(refusal) => First::Refused(refusal),
        FeedFault::Stopped(first) => first,
    }
}

/// Takes the unit at a place.
fn accept(assembler: &mut Assembler, unit: &[u8], offset: u64) -> Result<Taken, FeedFault>
    requires { IsSound unit.now }
    ensures answer { (R : Readers) → AreOfH266 R → (before : List Reading) → Stands assembler.old before
        → Accepts R before assembler.new unit.now offset result }
    ensures told { IfOk result (λ taken. IsToldBy assembler.new (Some taken)) }
    ensures bounded { IsBounded assembler.new }
    ensures nal { result ≡ Ok End → ⊥ }
{
    let header = nal_header(unit);
    let what = assembler.accept(unit)?;
    Ok(Taken::Nal {
        header,
        offset,
        bytes: unit.len() as u64,
        what,
    })
}

/// Takes the next unit that is seen in what was read, after `view` has looked at it, or finds the end.
fn take_seen<V: UnitView>(
    reader: &mut UnitReader,
    assembler: &mut Assembler,
    units: &mut u64,
    view: &mut V,
) -> Result<Option<Taken>, FeedFault>
    requires going { reader.old.closed ≡ Some Failed → ⊥ }
    requires count { units.old + ahead reader.old.splitter < 2 ^ 64 }
    requires bounded { IsBounded assembler.old }
    ensures answer { (R : Readers) → AreOfH266 R → (g : List ℕ) (places : List UnitPlace) (before : List Reading)
        → HasFed R (feeding reader.old assembler.old units.old) g places before
        → Gives R g places before (feeding reader.new assembler.new units.new) result }
    ensures seen { (R : Readers) (h : AreOfH266 R) (g : List ℕ) (places : List UnitPlace) (before : List Reading)
        → HasFed R (feeding reader.old assembler.old units.old) g places before
        → GivesSeen (V.sees R h) V.nothing R g places before (feeding reader.new assembler.new units.new) result view.new }
    ensures count { OnOk result (units.new + ahead reader.new.splitter ≤ units.old + ahead reader.old.splitter) }
    ensures fed { fed reader.new.splitter ≡ fed reader.old.splitter }
    ensures open { result ≡ Ok None → MayRead reader.new }
    ensures sought { result ≡ Ok None → IsSought reader.new.splitter }
    ensures within { result ≡ Ok None → reader.new.taken ≤ 2 ^ 40 }
    ensures taken { reader.new.taken ≡ reader.old.taken }
    ensures closed { reader.new.closed ≡ reader.old.closed }
    ensures lowers { IfOk result (λ given. Lowers given (ahead reader.old.splitter) (ahead reader.new.splitter)) }
    ensures units { IfOk result (λ given. IfSome given (λ taken. Counts taken units.old units.new)) }
    ensures none { result ≡ Ok None → units.new ≡ units.old }
    ensures kept { OnErr result (units.new ≡ units.old) }
    ensures grows { units.old ≤ units.new }
    ensures held { HoldsFew reader.new }
    ensures bounded { IsBounded assembler.new }
    ensures all { is_all reader.new.splitter ≡ is_all reader.old.splitter }
    ensures ended { result ≡ Ok (Some End) → MayRead reader.new → ⊥ }
    ensures told { IfOk result (IsToldBy assembler.new) }
{
    view.look_away(assembler);
    if let Some(span) = reader.next()? {
        let unit = reader.bytes(span);
        view.look(assembler, unit)?;
        let taken = accept(assembler, unit, span.offset)?;
        *units += 1;
        return Ok(Some(taken));
    }
    if reader.is_open() {
        return Ok(None);
    }
    assembler.finish()?;
    Ok(Some(Taken::End))
}

/// Returns the step of a feed that took this, or `None` for a unit that completes no picture.
fn step_of(taken: Taken) -> Option<Step>
    ensures { result ≡ step_by taken }
{
    match taken {
        Taken::End => Some(Step::End),
        Taken::Nal { what, .. } => match what {
            Accepted::PictureDone => Some(Step::Picture),
            _ => None,
        },
    }
}

impl Feed {
    ghost use Rattle.std.specs.Prelude.{◌≡◌, ℕ, ◌+◌, ◌^◌, ◌<◌, ◌≤◌, [], ◌∷◌, List, option_copied, Some, None, Ok, Err, IfOk, IfErr, IfSome, OnOk, OnErr, IsTrue};
    ghost use Rattle.vx_annexb.specs.ByteStream.{UnitPlace};
    ghost use Rattle.vx_annexb.specs.Held.{IsSought, fed, is_all};
    ghost use Rattle.vx_annexb.specs.Reading as reading;
    ghost use Rattle.vx_annexb.specs.declared.unit_reader.Closed.TheVariants as closed;
    ghost use Rattle.vx_pic.specs.Readings.{Reading, pictures, stored_sps, stored_pps};
    ghost use Rattle.vx_pic.specs.Told.{told_of};
    ghost use Rattle.vx_assemble.specs.Held.{Stands, HasPicture, IsBounded, ShowsLatest, lent_by, told, IsSet, items_of};
    ghost use Rattle.vx_assemble.specs.declared.feed.Taken.TheVariants.{End};
    ghost use Rattle.vx_assemble.specs.declared.feed.Step.TheVariants as steps;
    ghost use Rattle.vx_pic.specs.Rules.{Readers};
    ghost use Rattle.vx_pic.specs.H266.{AreOfH266};
    ghost use Rattle.vx_assemble.specs.Feed.{HasFed, IsOpen, EndsAtEnd, Gives, GivesSeen, ReadsOn, IsToldBy, Lowers, Counts, left_to_take, bytes_held, Takes, Advances, CompletesNone, first_of as first_by, most_held};
    ghost use Rattle.vx_assemble.specs.inner.Feed.{read_fault};
    ghost use Rattle.vx_assemble.specs.declared.fault.First.{First as FirstFault};
    ghost use Rattle.vx_assemble.specs.declared.feed.FeedFault.TheVariants.{Stopped};

    /// Returns a feed that has read nothing.
    ///
    /// # Errors
    ///
    /// `AllocError` if memory runs out.
    pub fn new(alloc: Global) -> Result<Feed, AllocError>
        ensures fed { IfOk result (λ f. (R : Readers) → HasFed R f [] [] []) }
        ensures needed { OnOk result (reading.LastWasNeeded [] []) }
        ensures open { IfOk result IsOpen }
        ensures bounded { IfOk result (λ f. IsBounded f.assembler) }
        ensures bytes { IfOk result (λ f. bytes_held f ≡ 0) }
    {
        let reader = UnitReader::new(alloc)?;
        Ok(Feed {
            reader,
            assembler: Assembler::new(alloc),
            units: 0,
            first: None,
        })
    }

    /// Returns the next complete unit among the bytes read so far, or `Taken::End` at the end of the stream. Never reads.
    ///
    /// Returns `None` if more bytes are needed: they contain neither the end of a further unit nor a stray byte. The pictures
    /// taken are then exactly those that are complete in the bytes read. Call `read` or `feed` only after `None`.
    ///
    /// # Errors
    ///
    /// - `Refused` with the first rule that is broken.
    /// - `Memory` if memory runs out.
    /// - `Stopped` with the first fault in every later call.
    pub fn next(&mut self) -> Result<Option<Taken>, FeedFault>
        ensures answer { (R : Readers) → AreOfH266 R → (g : List ℕ) (places : List UnitPlace) (before : List Reading)
            → HasFed R self.old g places before → Gives R g places before self.new result }
        ensures going { OnOk result (self.new.first ≡ None) }
        ensures first { IfErr result (λ e. self.new.first ≡ Some (first_by e)) }
        ensures again { (f : FirstFault) → self.old.first ≡ Some f → (result ≡ Err (Stopped f)) × (self.new ≡ self.old) }
        ensures open { result ≡ Ok None → IsOpen self.new }
        ensures sought { result ≡ Ok None → IsSought self.new.reader.splitter }
        ensures within { result ≡ Ok None → self.new.reader.taken ≤ 2 ^ 40 }
        ensures taken { self.new.reader.taken ≡ self.old.reader.taken }
        ensures closed { self.new.reader.closed ≡ self.old.reader.closed }
        ensures lowers { IfOk result (λ given. Lowers given (left_to_take self.old) (left_to_take self.new)) }
        ensures counts { IfOk result (λ given. IfSome given (λ taken. Counts taken self.old.units self.new.units)) }
        ensures units { result ≡ Ok None → self.new.units ≡ self.old.units }
        ensures kept { OnErr result (self.new.units ≡ self.old.units) }
        ensures grows { self.old.units ≤ self.new.units }
        ensures few { OnOk result (self.new.units ≤ 2 ^ 40) }
        ensures held { reading.HoldsFew self.new.reader }
        ensures bytes { bytes_held self.new ≤ most_held }
        ensures bounded { IsBounded self.new.assembler }
        ensures all { is_all self.new.reader.splitter ≡ is_all self.old.reader.splitter }
        ensures ended { result ≡ Ok (Some End) → ¬ IsOpen self.new }
        ensures told { IfOk result (IsToldBy self.new.assembler) }
    {
        self.next_with(&mut ())
    }

    /// Takes the next unit as [`Feed::next`] does, after `view` has looked at it. The view also sees a unit that is refused, and
    /// sees nothing if there is no unit.
    ///
    /// # Errors
    ///
    /// As [`Feed::next`].
    pub fn next_with<V: UnitView>(&mut self, view: &mut V) -> Result<Option<Taken>, FeedFault>
        ensures answer { (R : Readers) → AreOfH266 R → (g : List ℕ) (places : List UnitPlace) (before : List Reading)
            → HasFed R self.old g places before → Gives R g places before self.new result }
        ensures seen { (R : Readers) (h : AreOfH266 R) (g : List ℕ) (places : List UnitPlace) (before : List Reading)
            → HasFed R self.old g places before → GivesSeen (V.sees R h) V.nothing R g places before self.new result view.new }
        ensures going { OnOk result (self.new.first ≡ None) }
        ensures first { IfErr result (λ e. self.new.first ≡ Some (first_by e)) }
        ensures again { (f : FirstFault) → self.old.first ≡ Some f → (result ≡ Err (Stopped f)) × (self.new ≡ self.old) }
        ensures open { result ≡ Ok None → IsOpen self.new }
        ensures sought { result ≡ Ok None → IsSought self.new.reader.splitter }
        ensures within { result ≡ Ok None → self.new.reader.taken ≤ 2 ^ 40 }
        ensures taken { self.new.reader.taken ≡ self.old.reader.taken }
        ensures closed { self.new.reader.closed ≡ self.old.reader.closed }
        ensures lowers { IfOk result (λ given. Lowers given (left_to_take self.old) (left_to_take self.new)) }
        ensures counts { IfOk result (λ given. IfSome given (λ taken. Counts taken self.old.units self.new.units)) }
        ensures units { result ≡ Ok None → self.new.units ≡ self.old.units }
        ensures kept { OnErr result (self.new.units ≡ self.old.units) }
        ensures grows { self.old.units ≤ self.new.units }
        ensures few { OnOk result (self.new.units ≤ 2 ^ 40) }
        ensures held { reading.HoldsFew self.new.reader }
        ensures bytes { bytes_held self.new ≤ most_held }
        ensures bounded { IsBounded self.new.assembler }
        ensures all { is_all self.new.reader.splitter ≡ is_all self.old.reader.splitter }
        ensures ended { result ≡ Ok (Some End) → ¬ IsOpen self.new }
        ensures told { IfOk result (IsToldBy self.new.assembler) }
    {
        if let Some(first) = self.first {
            return Err(FeedFault::Stopped(first));
        }
        match take_seen(&mut self.reader, &mut self.assembler, &mut self.units, view) {
            Ok(given) => Ok(given),
            Err(fault) => {
                self.first = Some(first_of(fault));
                Err(fault)
            }
        }
    }

    /// Returns whether the source may be read on. It has then not ended and not exceeded the limit, and the feed has not
    /// stopped.
    pub fn is_open(&self) -> bool
        ensures open { IsTrue result → IsOpen self.now }
        ensures closed { ¬ IsTrue result → ¬ IsOpen self.now }
        ensures within { IsTrue result → self.now.reader.taken ≤ 2 ^ 40 }
    {
        if self.first.is_some() {
            return false;
        }
        self.reader.is_open()
    }

    /// Reads the source once. Call it only after `next` has returned `None`.
    ///
    /// # Errors
    ///
    /// - `Memory` if memory runs out; nothing is read.
    /// - `SourceFailed` if the read failed.
    ///
    /// After an error, the feed has stopped: `next` and `take` return `Stopped`.
    pub fn read(&mut self, source: &mut dyn Source) -> Result<(), ReadFault>
        requires open { IsOpen self.old }
        requires sought { IsSought self.old.reader.splitter }
        ensures answer { (R : Readers) (g : List ℕ) (places : List UnitPlace) (before : List Reading) → HasFed R self.old g places before
            → ReadsOn R g places before self.new (bytes_left source.old) (bytes_left source.new) (read_faults source.old) (read_faults source.new) result }
        ensures going { OnOk result (self.new.first ≡ None) }
        ensures first { IfErr result (λ e. self.new.first ≡ Some (first_by (read_fault e))) }
        ensures units { self.new.units ≡ self.old.units }
        ensures lends { self.new.assembler ≡ self.old.assembler }
        ensures grows { OnOk result (IsOpen self.new → self.old.reader.taken < self.new.reader.taken) }
        ensures within { fed self.new.reader.splitter ≤ 2 ^ 40 }
        ensures end { OnOk result (EndsAtEnd self.new (bytes_left source.new)) }
        ensures unended { OnErr result (self.new.reader.closed ≡ Some closed.End → ⊥) }
        ensures held { reading.HoldsFew self.new.reader }
        ensures bytes { bytes_held self.new ≤ most_held }
        ensures bounded { IsBounded self.new.assembler }
    {
        match self.reader.read(source) {
            Ok(()) => Ok(()),
            Err(fault) => {
                self.first = Some(first_of(FeedFault::from(fault)));
                Err(fault)
            }
        }
    }

    /// Returns the number of units taken.
    pub fn unit(&self) -> u64
        ensures { result ≡ self.now.units }
    {
        self.units
    }

    /// Returns the items of the set that was taken last, if `what` is its result.
    ///
    /// Returns `None` otherwise, and after another unit. The items of an APS are its type and its id.
    pub fn fields(&self, what: Accepted) -> Option<&Fields>
        ensures taken { (r : Reading) (before : List Reading) → Stands self.now.assembler (r ∷ before) → what ≡ told_of r before
            → option_copied result ≡ items_of r }
        ensures only { IfSome result (λ _. IsSet what × (told self.now.assembler ≡ what)) }
    {
        self.assembler.fields(what)
    }

    /// Returns the picture whose last slice was the last unit taken. Takes no memory.
    pub fn picture(&self) -> Picture<'_>
        requires { HasPicture self.now.assembler }
        ensures lent { result ≡ lent_by self.now.assembler }
        ensures shows { (R : Readers) (g : List ℕ) (places : List UnitPlace) (before : List Reading) → HasFed R self.now g places before
            → ShowsLatest result (pictures before) }
    {
        self.assembler.picture()
    }

    /// Returns the stored SPS with an id, or `None`.
    pub fn sps(&self, id: u8) -> Option<&Sps>
        ensures { (before : List Reading) → Stands self.now.assembler before → option_copied result ≡ stored_sps id before }
    {
        self.assembler.sps(id)
    }

    /// Returns the stored PPS with an id, or `None`.
    pub fn pps(&self, id: u8) -> Option<&Pps>
        ensures { (before : List Reading) → Stands self.now.assembler before → option_copied result ≡ stored_pps id before }
    {
        self.assembler.pps(id)
    }

    /// Takes the next unit of the source, or returns `Taken::End` at its end, and from then on.
    ///
    /// Reads only until a further unit's end is seen. When it returns a unit, the source has given fewer than 65,536 bytes after
    /// the three that show the unit's end; at the end it has no bytes left. After a failed read, the units taken are exactly
    /// those that are complete in the bytes read.
    ///
    /// # Errors
    ///
    /// - `Refused` with the first rule that is broken.
    /// - `SourceFailed` if a read failed.
    /// - `Memory` if memory runs out.
    /// - `Stopped` with the first of these in every later call, which reads nothing.
    pub fn take(&mut self, source: &mut dyn Source) -> Result<Taken, FeedFault>
        ensures answer { (R : Readers) → AreOfH266 R → (g : List ℕ) (places : List UnitPlace) (before : List Reading)
            → HasFed R self.old g places before → reading.LastWasNeeded g places
            → Takes R g places before self.new (bytes_left source.old) (bytes_left source.new) (read_faults source.old) (read_faults source.new) result }
        ensures first { IfErr result (λ e. self.new.first ≡ Some (first_by e)) }
        ensures stopped { (f : FirstFault) → self.old.first ≡ Some f → (result ≡ Err (Stopped f)) × (self.new ≡ self.old)
            × (bytes_left source.new ≡ bytes_left source.old) × (read_faults source.new ≡ read_faults source.old) }
        ensures counts { IfOk result (λ taken. Counts taken self.old.units self.new.units) }
        ensures few { OnOk result (self.new.units ≤ 2 ^ 40) }
        ensures kept { OnErr result (self.new.units ≡ self.old.units) }
        ensures grows { self.old.units ≤ self.new.units }
        ensures going { OnOk result (self.new.first ≡ None) }
        ensures told { IfOk result (λ taken. IsToldBy self.new.assembler (Some taken)) }
        ensures end { EndsAtEnd self.old (bytes_left source.old) → EndsAtEnd self.new (bytes_left source.new) }
        ensures held { reading.HoldsFew self.new.reader }
        ensures bytes { bytes_held self.new ≤ most_held }
        ensures bounded { IsBounded self.new.assembler }
    {
        loop {
            if let Some(taken) = self.next()? {
                return Ok(taken);
            }
            self.read(source)?;
        }
    }

    /// Takes units of the source until one completes a picture, or to the end.
    ///
    /// It reads as [`Feed::take`] does. After a failed read, the pictures taken are exactly those that are complete in the bytes
    /// read.
    ///
    /// # Errors
    ///
    /// As [`Feed::take`].
    pub fn advance(&mut self, source: &mut dyn Source) -> Result<Step, FeedFault>
        ensures answer { (R : Readers) → AreOfH266 R → (g : List ℕ) (places : List UnitPlace) (before : List Reading)
            → HasFed R self.old g places before → reading.LastWasNeeded g places
            → Advances R g places before self.new (bytes_left source.old) (bytes_left source.new) (read_faults source.old) (read_faults source.new) result }
        ensures picture { result ≡ Ok steps.Picture → HasPicture self.new.assembler }
        ensures end { EndsAtEnd self.old (bytes_left source.old) → EndsAtEnd self.new (bytes_left source.new) }
        ensures going { OnOk result (self.new.first ≡ None) }
        ensures grows { self.old.units ≤ self.new.units }
        ensures kept { (R : Readers) → AreOfH266 R → (g : List ℕ) (places : List UnitPlace) (before : List Reading)
            → HasFed R self.old g places before → reading.LastWasNeeded g places
            → OnErr result (CompletesNone R g places before self.new (bytes_left source.old) (bytes_left source.new)) }
        ensures few { OnOk result (self.new.units ≤ 2 ^ 40) }
        ensures first { IfErr result (λ e. self.new.first ≡ Some (first_by e)) }
        ensures stopped { (f : FirstFault) → self.old.first ≡ Some f → (result ≡ Err (Stopped f)) × (self.new ≡ self.old)
            × (bytes_left source.new ≡ bytes_left source.old) × (read_faults source.new ≡ read_faults source.old) }
        ensures held { reading.HoldsFew self.new.reader }
        ensures bytes { bytes_held self.new ≤ most_held }
        ensures bounded { IsBounded self.new.assembler }
    {
        loop {
            let taken = self.take(source)?;
            if let Some(step) = step_of(taken) {
                return Ok(step);
            }
        }
    }
}

impl Feed {
    ghost use Rattle.std.specs.Prelude.{◌≡◌, ℕ, ◌+◌, ◌^◌, ◌≤◌, ◌++◌, List, take, min, length, Some, None, IfOk, OnOk, OnErr};
    ghost use Rattle.vx_annexb.specs.ByteStream.{UnitPlace};
    ghost use Rattle.vx_annexb.specs.Held.{IsSought, fed};
    ghost use Rattle.vx_annexb.specs.Reading as reading;
    ghost use Rattle.vx_annexb.specs.declared.unit_reader.Closed.TheVariants as closed;
    ghost use Rattle.vx_pic.specs.Readings.{Reading};
    ghost use Rattle.vx_pic.specs.Rules.{Readers};
    ghost use Rattle.vx_assemble.specs.Held.{IsBounded};
    ghost use Rattle.vx_assemble.specs.Feed.{HasFed, IsOpen, bytes_held, most_held};
    ghost use Rattle.vx_assemble.specs.declared.fault.First.TheVariants as firsts;

    /// Appends a prefix of `piece` as if it had been read, and returns its length.
    ///
    /// The length is at most 65,536 bytes, and at most 2^40 + 1 in all. Call it only after `next` has returned `None`.
    ///
    /// # Errors
    ///
    /// `AllocError` if memory runs out. Nothing is taken, and the feed has stopped: `next` and `take` return `Stopped`.
    pub fn feed(&mut self, piece: &[u8]) -> Result<usize, AllocError>
        requires open { IsOpen self.old }
        requires sought { IsSought self.old.reader.splitter }
        ensures fed { IfOk result (λ count. (R : Readers) (g : List ℕ) (places : List UnitPlace) (before : List Reading)
            → HasFed R self.old g places before → HasFed R self.new (g ++ take count piece.now) places before) }
        ensures count { IfOk result (λ count. count ≡ reading.fed_at_once self.old.reader.taken (length piece.now)) }
        ensures few { IfOk result (λ count. count ≤ length piece.now) }
        ensures whole { IfOk result (λ count. IsOpen self.new → count ≡ min (length piece.now) 65536) }
        ensures going { OnOk result (self.new.first ≡ None) }
        ensures unended { self.new.reader.closed ≡ Some closed.End → ⊥ }
        ensures first { OnErr result (self.new.first ≡ Some firsts.Memory) }
        ensures units { self.new.units ≡ self.old.units }
        ensures lends { self.new.assembler ≡ self.old.assembler }
        ensures within { fed self.new.reader.splitter ≤ 2 ^ 40 }
        ensures held { reading.HoldsFew self.new.reader }
        ensures bytes { bytes_held self.new ≤ most_held }
        ensures bounded { IsBounded self.new.assembler }
    {
        match self.reader.feed(piece) {
            Ok(count) => Ok(count),
            Err(fault) => {
                self.first = Some(First::Memory);
                Err(fault)
            }
        }
    }

    /// Ends the stream: the bytes taken so far are all there are. Call it only after `next` has returned `None`.
    pub fn finish(&mut self)
        requires open { IsOpen self.old }
        ensures fed { (R : Readers) (g : List ℕ) (places : List UnitPlace) (before : List Reading)
            → HasFed R self.old g places before → HasFed R self.new g places before }
        ensures end { self.new.reader.closed ≡ Some closed.End }
        ensures going { self.new.first ≡ None }
        ensures units { self.new.units ≡ self.old.units }
        ensures lends { self.new.assembler ≡ self.old.assembler }
        ensures held { reading.HoldsFew self.new.reader }
        ensures bytes { bytes_held self.new ≤ most_held }
        ensures bounded { IsBounded self.new.assembler }
    {
        self.reader.finish();
    }
}

impl Lender for Feed {
    ghost use Rattle.std.specs.Prelude.{◌≡◌, ℕ, List};
    ghost use Rattle.vx_annexb.specs.ByteStream.{UnitPlace};
    ghost use Rattle.vx_pic.specs.Readings.{Reading, pictures};
    ghost use Rattle.vx_pic.specs.Rules.{Readers};
    ghost use Rattle.vx_assemble.specs.Held.{HasPicture, ShowsLatest, lent_by};
    ghost use Rattle.vx_assemble.specs.Feed.{HasFed};

    ghost holds = { λ f. HasPicture f.assembler };

    ghost lent = { λ f. lent_by f.assembler };

    fn picture(&self) -> Picture<'_>
        requires { HasPicture self.now.assembler }
        ensures lent { result ≡ lent_by self.now.assembler }
        ensures shows { (R : Readers) (g : List ℕ) (places : List UnitPlace) (before : List Reading) → HasFed R self.now g places before
            → ShowsLatest result (pictures before) }
    {
        Feed::picture(self)
    }
}
