//! The NAL units of a source, returned one at a time while the source is read.
ghost use Rattle.std.specs.Prelude.{◌≡◌, ◌+◌, ◌-◌, ◌^◌, ◌<◌, ◌≤◌, ℕ, List, take, min, false, length, IfOk, OnOk, OnErr, Some, None, Err};
ghost use Rattle.std.specs.Io.KnownBytes.{IsAtEnd};
ghost use Rattle.vx_bits.specs.Limits.{unit_limit};
ghost use Rattle.vx_annexb.specs.ByteStream.{UnitPlace, source_limit};
ghost use Rattle.vx_annexb.specs.Held.{Stands, IsSought, fed, held, is_all, ahead};
ghost use Rattle.vx_annexb.specs.Reading.{ClosesAt};
ghost use Rattle.vx_annexb.specs.inner.Reading.{FedOf, ReadsPiece, fault_of};
ghost use Rattle.vx_annexb.specs.declared.unit_reader.Closed.TheVariants.{End, Failed};
ghost use Rattle.vx_annexb.specs.declared.unit_reader.ReadFault.TheVariants.{Memory};
ghost use Rattle.vx_annexb.specs.declared.unit_reader.TakeFault.TheVariants.{Refused};

use crate::{Span, Splitter};
use std::alloc::{AllocError, Global};
use std::marker::Model;
use thiserror::Error;
use vx_bits::Refusal;
use vx_bits::limits::SOURCE_LIMIT;
use vx_bits::rules::LONG_SOURCE;
use vx_io::Source;

/// The number of bytes that a read asks for.
const READ_LEN: usize = 65_536;

/// The refusal of a source that is longer than the limit.
const SOURCE_TOO_LONG: Refusal = Refusal::Limit { code: LONG_SOURCE };

/// The reason why a reader reads no more of its source.
#[derive(Clone, Copy, Debug, PartialEq, Eq)]
pub enum Closed {
    /// The source has ended.
    End,
    /// The source has more bytes than the limit.
    TooLong,
    /// A read of the source failed.
    Failed,
}

/// The error of a call that reads a source.
#[derive(Clone, Copy, Debug, PartialEq, Eq, Error)]
pub enum ReadFault {
    /// Memory ran out. Nothing was taken from the source, and it may be read again.
    #[error("out of memory")]
    Memory,
    /// A read of the source failed.
    #[error("a read failed")]
    SourceFailed,
}

/// The error of a call that takes a unit.
#[derive(Clone, Copy, Debug, PartialEq, Eq, Error)]
pub enum TakeFault {
    /// The source is refused, and every later call returns the same refusal.
    #[error("refused")]
    Refused(Refusal),
    /// Memory ran out. Nothing that was taken from the source is lost, and the call may be repeated.
    #[error("out of memory")]
    Memory,
    /// A read of the source failed.
    #[error("a read failed")]
    SourceFailed,
}

impl From<Refusal> for TakeFault {
    ghost from_gives = { λ refusal e. e ≡ Refused refusal };

    fn from(refusal: Refusal) -> TakeFault {
        TakeFault::Refused(refusal)
    }
}

impl From<ReadFault> for TakeFault {
    ghost from_gives = { λ fault e. e ≡ fault_of fault };

    fn from(fault: ReadFault) -> TakeFault {
        match fault {
            ReadFault::Memory => TakeFault::Memory,
            ReadFault::SourceFailed => TakeFault::SourceFailed,
        }
    }
}

/// A reader of the NAL units of a source (H.266 Annex B). It holds at most 2^23 + 65,538 bytes of the source.
///
/// Reads at most 2^40 + 1 bytes, and returns the units whose end is seen within the first 2^40; a longer source
/// is refused (L3). Pass the same source to every call.
pub struct UnitReader {
    splitter: Splitter,
    taken: u64,
    closed: Option<Closed>,
}

impl Drop for UnitReader {
    fn drop(self) {
        let UnitReader {
            splitter: _,
            taken: _,
            closed: _,
        } = self;
    }
}

impl Model for UnitReader {
    ghost use Rattle.vx_annexb.specs.Reading.{Reading};
    ghost use Rattle.vx_annexb.specs.inner.Reading.{IsBounded};

    ghost Value = { Reading };

    ghost view = { λ a. record {
      splitter = a.splitter;
      taken = a.taken;
      closed = a.closed;
    } };

    ghost invariant = { λ a. IsBounded (record {
      splitter = a.splitter;
      taken = a.taken;
      closed = a.closed;
    }) };
}

/// The number of bytes that a read returned, and whether the read was the last one.
#[derive(Clone, Copy)]
struct Came {
    count: u64,
    closed: Option<Closed>,
}

/// Returns why no more is read of a source that returned `count` bytes after the first `taken`: it returned
/// none, which is its end, or more than the limit.
fn close(splitter: &mut Splitter, count: usize, taken: u64) -> Option<Closed>
    requires going { is_all splitter.old ≡ false }
    requires within { taken ≤ SOURCE_LIMIT }
    requires bound { taken + count ≤ SOURCE_LIMIT + 1 }
    requires fed { fed splitter.old ≡ taken + min (SOURCE_LIMIT - taken) count }
    ensures stands { (g : List ℕ) (units : List UnitPlace) → Stands splitter.old g units → Stands splitter.new g units }
    ensures closes { ClosesAt result splitter.new (taken + count) }
    ensures fed { FedOf result splitter.new (taken + count) }
    ensures kept { (fed splitter.new ≡ fed splitter.old) × (ahead splitter.new ≡ ahead splitter.old) × (held splitter.new ≡ held splitter.old) }
    ensures some { result ≡ None → 0 < count }
    ensures end { result ≡ Some End → count ≡ 0 }
    ensures unfailed { result ≡ Some Failed → ⊥ }
{
    if count == 0 {
        splitter.finish();
        return Some(Closed::End);
    }
    if count as u64 > SOURCE_LIMIT - taken {
        return Some(Closed::TooLong);
    }
    None
}

/// Reads one piece of a source of which `taken` bytes came before, and feeds the part of it that is within the
/// limit. Makes room for it first.
fn read_piece(
    source: &mut dyn Source,
    splitter: &mut Splitter,
    taken: u64,
) -> Result<Came, ReadFault>
    requires going { is_all splitter.old ≡ false }
    requires fed { fed splitter.old ≡ taken }
    requires within { taken ≤ SOURCE_LIMIT }
    requires sought { IsSought splitter.old }
    requires held { held splitter.old ≤ unit_limit + 2 + 65536 }
    ensures answer { (g : List ℕ) (units : List UnitPlace) → length g ≡ taken → Stands splitter.old (take source_limit g) units
        → ReadsPiece g units splitter.new (bytes_left source.old) (bytes_left source.new) (read_faults source.old) (read_faults source.new) result }
    ensures count { IfOk result (λ came. came.count ≤ 65536) }
    ensures closes { IfOk result (λ came. ClosesAt came.closed splitter.new (taken + came.count)) }
    ensures fed { IfOk result (λ came. FedOf came.closed splitter.new (taken + came.count)) }
    ensures ahead { OnOk result (ahead splitter.new + fed splitter.old ≡ ahead splitter.old + fed splitter.new) }
    ensures held { held splitter.new ≤ unit_limit + 2 + 65536 }
    ensures some { IfOk result (λ came. came.closed ≡ None → 0 < came.count) }
    ensures unfailed { IfOk result (λ came. came.closed ≡ Some Failed → ⊥) }
    ensures end { IfOk result (λ came. came.closed ≡ Some End → IsAtEnd (bytes_left source.new)) }
    ensures memory { result ≡ Err Memory → splitter.new ≡ splitter.old }
    ensures failed { OnErr result ((fed splitter.new ≡ fed splitter.old) × (ahead splitter.new ≡ ahead splitter.old) × (is_all splitter.new ≡ is_all splitter.old)) }
{
    let Ok(()) = splitter.make_room(READ_LEN) else {
        return Err(ReadFault::Memory);
    };
    let limit = (SOURCE_LIMIT - taken) as usize;
    let Ok(count) = splitter.read_from(source, READ_LEN.min(limit + 1), limit) else {
        return Err(ReadFault::SourceFailed);
    };
    let closed = close(splitter, count, taken);
    Ok(Came {
        count: count as u64,
        closed,
    })
}

impl UnitReader {
    ghost use Rattle.std.specs.Prelude.{◌≡◌, ◌⊎◌, ℕ, ◌+◌, ◌^◌, ◌<◌, ◌≤◌, [], ◌++◌, List, length, take, min, slice_range, Some, None, Err, IfOk, IfErr, IfSome, IfNone, OnOk, OnErr, OnSome, IsTrue, IsSome};
    ghost use Rattle.vx_bits.specs.declared.refusal.Refusal.{Refusal};
    ghost use Rattle.vx_annexb.specs.ByteStream.{UnitPlace};
    ghost use Rattle.std.specs.Io.KnownBytes.{IsAtEnd};
    ghost use Rattle.vx_annexb.specs.Held.{IsReadable, IsSought, Lends, fed, held, lent, ahead};
    ghost use Rattle.vx_annexb.specs.Reading.{IsOpen, HoldsFew, HasRead, IsRefusedBy, Finds, Reads, LastWasNeeded, Takes, fed_at_once};
    ghost use Rattle.vx_annexb.specs.declared.unit_reader.Closed.TheVariants.{End, TooLong, Failed};
    ghost use Rattle.vx_annexb.specs.declared.unit_reader.ReadFault.TheVariants.{Memory, SourceFailed};
    ghost use Rattle.vx_annexb.specs.declared.unit_reader.TakeFault.TheVariants.{Refused, SourceFailed as ReadFailed};

    /// Returns a reader that has read nothing.
    ///
    /// # Errors
    ///
    /// `AllocError` if memory runs out.
    pub fn new(alloc: Global) -> Result<UnitReader, AllocError>
        ensures read { IfOk result (λ r. HasRead r [] []) }
        ensures needed { OnOk result (LastWasNeeded [] []) }
        ensures open { IfOk result IsOpen }
        ensures held { IfOk result HoldsFew }
    {
        let mut splitter = Splitter::new(alloc);
        splitter.make_room(READ_LEN)?;
        Ok(UnitReader {
            splitter,
            taken: 0,
            closed: None,
        })
    }

    /// Returns the next complete unit among the bytes read so far. Never reads.
    ///
    /// Returns `None` if the source has ended, or if more bytes are needed: those read contain neither the end of a further
    /// unit nor a stray byte.
    ///
    /// # Errors
    ///
    /// The refusal of the unit, of a stray byte, or of the source's length. Every later call returns it again.
    pub fn next(&mut self) -> Result<Option<Span>, Refusal>
        ensures answer { (g : List ℕ) (units : List UnitPlace) → HasRead self.old g units → Finds g units self.new result }
        ensures readable { IfOk result (λ given. IfSome given (IsReadable self.new.splitter)) }
        ensures lends { Lends self.old.splitter self.new.splitter }
        ensures taken { self.new.taken ≡ self.old.taken }
        ensures closed { self.new.closed ≡ self.old.closed }
        ensures falls { IfOk result (λ given. OnSome given (ahead self.new.splitter < ahead self.old.splitter)) }
        ensures stays { IfOk result (λ _. ahead self.new.splitter ≤ ahead self.old.splitter) }
        ensures again { (g : List ℕ) (units : List UnitPlace) (x : Refusal) → HasRead self.old g units → IsRefusedBy g units self.old x → result ≡ Err x }
        ensures sought { IfOk result (λ given. IfNone given (IsSought self.new.splitter)) }
        ensures held { HoldsFew self.new }
    {
        if let Some(span) = self.splitter.next()? {
            return Ok(Some(span));
        }
        if let Some(Closed::TooLong) = self.closed {
            return Err(SOURCE_TOO_LONG);
        }
        Ok(None)
    }

    /// Returns whether the source may be read on. It has then not ended, not exceeded the limit, and not failed.
    pub fn is_open(&self) -> bool
        ensures open { IsTrue result → IsOpen self.now }
        ensures closed { ¬ IsTrue result → IsSome self.now.closed }
        ensures within { IsTrue result → self.now.taken ≤ 2 ^ 40 }
    {
        self.closed.is_none()
    }

    /// Reads the source once. Call it only after `next` has returned `None`. Spans returned before become
    /// invalid.
    ///
    /// # Errors
    ///
    /// - `Memory` if memory runs out; nothing is read.
    /// - `SourceFailed` if the read failed; the source isn't read again.
    pub fn read(&mut self, source: &mut dyn Source) -> Result<(), ReadFault>
        requires open { IsOpen self.old }
        requires sought { IsSought self.old.splitter }
        ensures answer { (g : List ℕ) (units : List UnitPlace) → HasRead self.old g units
            → Reads g units self.new (bytes_left source.old) (bytes_left source.new) (read_faults source.old) (read_faults source.new) result }
        ensures grows { OnOk result (IsOpen self.new → self.old.taken < self.new.taken) }
        ensures ahead { OnOk result (ahead self.new.splitter + fed self.old.splitter ≡ ahead self.old.splitter + fed self.new.splitter) }
        ensures within { fed self.new.splitter ≤ 2 ^ 40 }
        ensures held { HoldsFew self.new }
        ensures memory { result ≡ Err Memory → self.new ≡ self.old }
        ensures failed { result ≡ Err SourceFailed → self.new.closed ≡ Some Failed }
        ensures end { OnOk result (self.new.closed ≡ Some End → IsAtEnd (bytes_left source.new)) }
        ensures unfailed { OnOk result (self.new.closed ≡ Some Failed → ⊥) }
    {
        let came = read_piece(source, &mut self.splitter, self.taken);
        match came {
            Ok(came) => {
                self.taken += came.count;
                self.closed = came.closed;
                Ok(())
            }
            Err(fault) => {
                if let ReadFault::SourceFailed = fault {
                    self.closed = Some(Closed::Failed);
                }
                Err(fault)
            }
        }
    }

    /// Appends a prefix of `piece` as if it had been read, and returns its length.
    ///
    /// The length is at most 65,536 bytes, and at most 2^40 + 1 in all. Call it only after `next` has returned `None`.
    /// Spans returned before become invalid.
    ///
    /// # Errors
    ///
    /// `AllocError` if memory runs out; nothing is taken.
    pub fn feed(&mut self, piece: &[u8]) -> Result<usize, AllocError>
        requires open { IsOpen self.old }
        requires sought { IsSought self.old.splitter }
        ensures read { IfOk result (λ count. (g : List ℕ) (units : List UnitPlace) → HasRead self.old g units → HasRead self.new (g ++ take count piece.now) units) }
        ensures count { IfOk result (λ count. count ≡ fed_at_once self.old.taken (length piece.now)) }
        ensures few { IfOk result (λ count. count ≤ length piece.now) }
        ensures whole { IfOk result (λ count. IsOpen self.new → count ≡ min (length piece.now) 65536) }
        ensures taken { IfOk result (λ count. self.new.taken ≡ self.old.taken + count) }
        ensures going { OnOk result (IsOpen self.new ⊎ (self.new.closed ≡ Some TooLong)) }
        ensures ahead { OnOk result (ahead self.new.splitter + fed self.old.splitter ≡ ahead self.old.splitter + fed self.new.splitter) }
        ensures within { fed self.new.splitter ≤ 2 ^ 40 }
        ensures held { HoldsFew self.new }
        ensures memory { OnErr result (self.new ≡ self.old) }
    {
        let limit = (SOURCE_LIMIT - self.taken) as usize;
        let count = piece.len().min(READ_LEN).min(limit + 1);
        self.splitter.feed(&piece[..count.min(limit)])?;
        self.taken += count as u64;
        if count > limit {
            self.closed = Some(Closed::TooLong);
        }
        Ok(count)
    }

    /// Ends the source: the bytes taken so far are all there are.
    pub fn finish(&mut self)
        requires open { IsOpen self.old }
        ensures read { (g : List ℕ) (units : List UnitPlace) → HasRead self.old g units → HasRead self.new g units }
        ensures end { self.new.closed ≡ Some End }
        ensures taken { self.new.taken ≡ self.old.taken }
        ensures ahead { ahead self.new.splitter ≡ ahead self.old.splitter }
        ensures fed { fed self.new.splitter ≡ fed self.old.splitter }
        ensures held { HoldsFew self.new }
    {
        self.splitter.finish();
        self.closed = Some(Closed::End);
    }

    /// Returns the next unit of the source, or `None` at its end. Reads only until a further unit's end is
    /// seen.
    ///
    /// When it returns a unit, the source has given fewer than 65,536 bytes after the three that show the
    /// unit's end.
    ///
    /// # Errors
    ///
    /// - `Refused` with the refusal of a unit, of a stray byte, or of the source's length. Every later call
    ///   returns it again, and reads nothing.
    /// - `Memory` if memory runs out. No bytes are lost.
    /// - `SourceFailed` if a read failed. Don't call it again.
    pub fn take(&mut self, source: &mut dyn Source) -> Result<Option<Span>, TakeFault>
        requires unfailed { self.old.closed ≡ Some Failed → ⊥ }
        ensures answer { (g : List ℕ) (units : List UnitPlace) → HasRead self.old g units → LastWasNeeded g units
            → Takes g units self.new (bytes_left source.old) (bytes_left source.new) (read_faults source.old) (read_faults source.new) result }
        ensures end { IsOpen self.old → self.new.closed ≡ Some End → IsAtEnd (bytes_left source.new) }
        ensures unfailed { self.new.closed ≡ Some Failed → result ≡ Err ReadFailed }
        ensures readable { IfOk result (λ given. IfSome given (IsReadable self.new.splitter)) }
        ensures again { (g : List ℕ) (units : List UnitPlace) (x : Refusal) → HasRead self.old g units → IsRefusedBy g units self.old x → result ≡ Err (Refused x) }
        ensures still { (g : List ℕ) (units : List UnitPlace) (x : Refusal) → HasRead self.old g units → IsRefusedBy g units self.old x
            → (bytes_left source.new ≡ bytes_left source.old) × (read_faults source.new ≡ read_faults source.old) }
        ensures held { HoldsFew self.new }
    {
        loop {
            if let Some(span) = self.next()? {
                return Ok(Some(span));
            }
            if !self.is_open() {
                return Ok(None);
            }
            self.read(source)?;
        }
    }

    /// Returns the bytes of a span. Requires that the span can be read: no call that moves bytes came after it.
    pub fn bytes(&self, span: Span) -> &[u8]
        requires { IsReadable self.now.splitter span }
        ensures { result.now ≡ slice_range (lent self.now.splitter) span.start span.end }
    {
        self.splitter.bytes(span)
    }
}
