//! The pictures of bytes in memory, taken one at a time.
ghost use Rattle.std.specs.Prelude.{◌≡◌, ℕ, ◌+◌, ◌^◌, ◌<◌, ◌≤◌, [], List, length, false, Some, IfOk, IfSome, OnOk, OnErr, OnSome};
ghost use Rattle.vx_annexb.specs.ByteStream.{UnitPlace};
ghost use Rattle.vx_annexb.specs.Held.{Stands as Splits, ahead, fed, is_all};
ghost use Rattle.vx_pic.specs.Readings.{Reading, pictures};
ghost use Rattle.vx_pic.specs.Rules.{Readers};
ghost use Rattle.vx_pic.specs.H266.{AreOfH266};
ghost use Rattle.vx_pic.specs.declared.accepted.Accepted.TheVariants.{PictureDone};
ghost use Rattle.vx_assemble.specs.Held.{Stands, HasPicture, IsBounded, ShowsLatest, lent_by, told as told_by, first_of as first_by};
ghost use Rattle.vx_assemble.specs.Feed.{HasFed, seen_of};
ghost use Rattle.vx_assemble.specs.Memory.{given as given_of};
ghost use Rattle.vx_assemble.specs.inner.Feed.{feeding};
ghost use Rattle.vx_assemble.specs.inner.Memory.{IsGiven, GivesUnit, step_at};

use crate::assembler::Assembler;
use crate::fault::{AssembleFault, First};
use crate::feed::Step;
use std::alloc::{AllocError, Global};
use std::marker::Model;
use vx_annexb::Splitter;
use vx_bits::Refusal;
use vx_bits::limits::SOURCE_LIMIT;
use vx_bits::rules::LONG_SOURCE;
use vx_pic::{Accepted, Lender, Picture};

/// The refusal of a source that is longer than the limit.
const SOURCE_TOO_LONG: Refusal = Refusal::Limit { code: LONG_SOURCE };

/// A reader of bytes in memory, unit by unit, which lends each picture with its last slice. It holds a copy of the bytes.
///
/// After a refusal or lack of memory every call of `advance` returns `Stopped`.
pub struct MemoryFeed {
    splitter: Splitter,
    // The number of bytes, up to one more than a source may have.
    taken: u64,
    assembler: Assembler,
    // The number of units taken.
    units: u64,
    first: Option<First>,
}

impl Drop for MemoryFeed {
    fn drop(self) {
        let MemoryFeed {
            splitter: _,
            taken: _,
            assembler: _,
            units: _,
            first: _,
        } = self;
    }
}

impl Model for MemoryFeed {
    ghost use Rattle.vx_assemble.specs.Feed.{Feeding};
    ghost use Rattle.vx_assemble.specs.Memory.{given};
    ghost use Rattle.vx_assemble.specs.inner.Memory.{IsInMemory};

    ghost Value = { Feeding };

    ghost view = { λ f. record { reader = given f.splitter f.taken; assembler = f.assembler; units = f.units; first = f.first } };

    ghost invariant = { λ f. IsInMemory (record { reader = given f.splitter f.taken; assembler = f.assembler; units = f.units; first = f.first }) };
}

impl From<Refusal> for AssembleFault {
    ghost use Rattle.std.specs.Prelude.{◌≡◌};
    ghost use Rattle.vx_assemble.specs.declared.fault.AssembleFault.TheVariants.{Refused};

    ghost from_gives = { λ refusal e. e ≡ Refused refusal };

    fn from(refusal: Refusal) -> AssembleFault {
        AssembleFault::Refused(refusal)
    }
}

/// Returns the first fault of a feed, from its error.
fn first_of(fault: AssembleFault) -> First
    ensures { result ≡ first_by fault }
{
    match fault {
        AssembleFault::Memory => First::Memory,
        AssembleFault::Refused(refusal) => First::Refused(refusal),
        AssembleFault::Stopped(first) => first,
    }
}

#[tactic(auto, using(crate::proofs::InMemory::seen_by_count, crate::proofs::InMemory::few_seen))]
/// Returns the bytes up to the limit.
fn seen(bytes: &[u8]) -> &[u8]
    ensures seen { result.now ≡ seen_of bytes.now }
    ensures few { length result.now ≤ 2 ^ 40 }
{
    &bytes[..bytes.len().min(SOURCE_LIMIT as usize)]
}

/// Feeds the bytes to a splitter that was fed none, and returns their number, up to one more than a source may have.
fn give(splitter: &mut Splitter, bytes: &[u8]) -> Result<u64, AllocError>
    requires unfed { fed splitter.old ≡ 0 }
    requires going { is_all splitter.old ≡ false }
    requires stands { Splits splitter.old [] [] }
    ensures given { IfOk result (λ n. IsGiven bytes.now splitter.new n) }
    ensures few { OnOk result (fed splitter.new ≤ 2 ^ 40) }
{
    splitter.feed(seen(bytes))?;
    if bytes.len() as u64 > SOURCE_LIMIT {
        return Ok(SOURCE_LIMIT + 1);
    }
    splitter.finish();
    Ok(bytes.len() as u64)
}

/// Takes the next unit, of the `given` bytes, and returns what it was, or `None` at their end.
fn take_unit(
    splitter: &mut Splitter,
    assembler: &mut Assembler,
    units: &mut u64,
    given: u64,
) -> Result<Option<Accepted>, AssembleFault>
    requires count { units.old + ahead splitter.old < 2 ^ 64 }
    requires bounded { IsBounded assembler.old }
    ensures answer { (R : Readers) → AreOfH266 R → (g : List ℕ) (places : List UnitPlace) (before : List Reading)
        → HasFed R (feeding (given_of splitter.old given) assembler.old units.old) g places before
        → GivesUnit R g places before (feeding (given_of splitter.new given) assembler.new units.new) result }
    ensures count { OnOk result (units.new + ahead splitter.new ≤ units.old + ahead splitter.old) }
    ensures fed { fed splitter.new ≡ fed splitter.old }
    ensures all { is_all splitter.new ≡ is_all splitter.old }
    ensures falls { IfOk result (λ what. OnSome what (ahead splitter.new < ahead splitter.old)) }
    ensures kept { OnErr result (units.new ≡ units.old) }
    ensures told { IfOk result (λ what. IfSome what (λ accepted. told_by assembler.new ≡ accepted)) }
    ensures bounded { IsBounded assembler.new }
{
    if let Some(span) = splitter.next()? {
        let what = assembler.accept(splitter.bytes(span))?;
        *units += 1;
        return Ok(Some(what));
    }
    if given > SOURCE_LIMIT {
        return Err(AssembleFault::Refused(SOURCE_TOO_LONG));
    }
    assembler.finish()?;
    Ok(None)
}

/// Returns the step of a feed that took this unit, or the end; `None` for a unit that completes no picture.
fn step_of(assembler: &Assembler, what: Option<Accepted>) -> Option<Step>
    requires { IfSome what (λ accepted. told_by assembler.now ≡ accepted) }
    ensures step { result ≡ step_at what }
    ensures holds { what ≡ Some PictureDone → HasPicture assembler.now }
    ensures lends { what ≡ Some PictureDone → (before : List Reading) → Stands assembler.now before
        → ShowsLatest (lent_by assembler.now) (pictures before) }
{
    match what {
        None => Some(Step::End),
        Some(Accepted::PictureDone) => {
            let _picture = assembler.picture();
            Some(Step::Picture)
        }
        Some(_) => None,
    }
}

impl MemoryFeed {
    ghost use Rattle.std.specs.Prelude.{◌≡◌, ℕ, ◌<◌, ◌≤◌, ◌^◌, [], List, Option, Some, None, Ok, Err, IfOk, IfErr, OnOk, OnErr};
    ghost use Rattle.vx_annexb.specs.Held.{ahead};
    ghost use Rattle.vx_pic.specs.Readings.{Picture as StreamPicture};
    ghost use Rattle.vx_pic.specs.Bytes.{Ending, AreSourcePictures};
    ghost use Rattle.vx_pic.specs.Rules.{Readers};
    ghost use Rattle.vx_pic.specs.H266.{AreOfH266};
    ghost use Rattle.vx_assemble.specs.Held.{HasPicture, IsBounded, lent_by, first_of as first_by};
    ghost use Rattle.vx_assemble.specs.Memory.{HasSeen, Sees};
    ghost use Rattle.vx_assemble.specs.inner.Memory.{SeesOn};
    ghost use Rattle.vx_assemble.specs.declared.fault.First.{First as FirstFault};
    ghost use Rattle.vx_assemble.specs.declared.fault.AssembleFault.TheVariants.{Stopped};
    ghost use Rattle.vx_assemble.specs.declared.feed.Step.TheVariants as steps;

    /// Returns a feed of these bytes that took no units.
    ///
    /// # Errors
    ///
    /// `AllocError` if memory runs out.
    pub fn new(alloc: Global, bytes: &[u8]) -> Result<MemoryFeed, AllocError>
        ensures seen { IfOk result (λ f. (R : Readers) → HasSeen R f bytes.now []) }
        ensures going { IfOk result (λ f. f.first ≡ None) }
        ensures units { IfOk result (λ f. f.units ≡ 0) }
        ensures bounded { IfOk result (λ f. IsBounded f.assembler) }
    {
        let mut splitter = Splitter::new(alloc);
        let taken = give(&mut splitter, bytes)?;
        Ok(MemoryFeed {
            splitter,
            taken,
            assembler: Assembler::new(alloc),
            units: 0,
            first: None,
        })
    }

    /// Takes one unit, or the end; returns `None` if it completes no picture.
    fn step(&mut self) -> Result<Option<Step>, AssembleFault>
        ensures answer { (R : Readers) → AreOfH266 R → (bytes : List ℕ) (ps qs : List StreamPicture) (ending : Option Ending)
            → HasSeen R self.old bytes ps → AreSourcePictures R bytes qs ending → SeesOn R bytes qs ending ps self.new result }
        ensures picture { result ≡ Ok (Some steps.Picture) → HasPicture self.new.assembler }
        ensures going { OnOk result (self.new.first ≡ None) }
        ensures first { IfErr result (λ e. self.new.first ≡ Some (first_by e)) }
        ensures stopped { (f : FirstFault) → self.old.first ≡ Some f → (result ≡ Err (Stopped f)) × (self.new ≡ self.old) }
        ensures falls { result ≡ Ok None → ahead self.new.reader.splitter < ahead self.old.reader.splitter }
        ensures few { OnOk result (self.new.units ≤ 2 ^ 40) }
        ensures bounded { IsBounded self.new.assembler }
    {
        if let Some(first) = self.first {
            return Err(AssembleFault::Stopped(first));
        }
        match take_unit(
            &mut self.splitter,
            &mut self.assembler,
            &mut self.units,
            self.taken,
        ) {
            Ok(what) => Ok(step_of(&self.assembler, what)),
            Err(fault) => {
                self.first = Some(first_of(fault));
                Err(fault)
            }
        }
    }

    /// Takes units until one completes a picture, or to the end of the bytes.
    ///
    /// # Errors
    ///
    /// - `Refused` with the first rule that is broken.
    /// - `Memory` if memory runs out.
    /// - `Stopped` with the first of these in every later call.
    pub fn advance(&mut self) -> Result<Step, AssembleFault>
        ensures answer { (R : Readers) → AreOfH266 R → (bytes : List ℕ) (ps qs : List StreamPicture) (ending : Option Ending)
            → HasSeen R self.old bytes ps → AreSourcePictures R bytes qs ending → Sees R bytes qs ending ps self.new result }
        ensures picture { result ≡ Ok steps.Picture → HasPicture self.new.assembler }
        ensures going { OnOk result (self.new.first ≡ None) }
        ensures first { IfErr result (λ e. self.new.first ≡ Some (first_by e)) }
        ensures stopped { (f : FirstFault) → self.old.first ≡ Some f → (result ≡ Err (Stopped f)) × (self.new ≡ self.old) }
        ensures few { OnOk result (self.new.units ≤ 2 ^ 40) }
        ensures bounded { IsBounded self.new.assembler }
    {
        loop {
            if let Some(step) = self.step()? {
                return Ok(step);
            }
        }
    }

    /// Returns the number of units taken.
    pub fn unit(&self) -> u64
        ensures { result ≡ self.now.units }
    {
        self.units
    }

    /// Returns the picture whose last slice was the last unit taken. Takes no memory.
    pub fn picture(&self) -> Picture<'_>
        requires { HasPicture self.now.assembler }
        ensures { result ≡ lent_by self.now.assembler }
    {
        self.assembler.picture()
    }
}

impl Lender for MemoryFeed {
    ghost use Rattle.vx_assemble.specs.Held.{HasPicture, lent_by};

    ghost holds = { λ f. HasPicture f.assembler };

    ghost lent = { λ f. lent_by f.assembler };

    fn picture(&self) -> Picture<'_> {
        MemoryFeed::picture(self)
    }
}
