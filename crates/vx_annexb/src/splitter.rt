//! A byte stream that arrives in pieces, and its NAL units, one at a time.

use crate::Span;
use crate::emulation::{EMULATION, emulation_fault};
use crate::queue::ByteQueue;
use crate::rules::refusal_of;
use crate::search::{find_mark, pass_to_mark, skip_zeros, trim_zeros};
use std::alloc::{AllocError, Global};
use std::marker::Model;
use vx_bits::Refusal;
use vx_bits::limits::UNIT_LIMIT;
use vx_bits::rules::{BAD_EMULATION, NOT_A_START_CODE};
use vx_io::{Source, SourceFailed};

/// A byte stream that is fed in pieces, from which NAL units are taken one at a time.
///
/// The units, their offsets and the refusal don't depend on how the bytes are cut into pieces.
///
/// It holds the bytes from the start of the unit that has begun; `make_room` drops those before. Of a unit of
/// more than 2^23 bytes it holds only the last five, and the refusal that it would get so far. After `next` has
/// returned `None`, all bytes except the last two have been searched, and after `make_room` it holds at most
/// 2^23 + 2 bytes.
pub struct Splitter {
    // The bytes held, and the place of the first of them in the stream.
    kept: ByteQueue,
    base: u64,
    // The place after the last unit returned.
    from: u64,
    // The place where the next unit begins, once its start code was found.
    start: Option<u64>,
    // The place up to which the next unit has been searched for.
    sought: u64,
    // The place up to which no 00 00 and a byte of at most 03 begins in the unit that has begun, while it is
    // held whole.
    clear: u64,
    // The refusal of the unit that has begun, once it is too long and no longer held whole.
    doomed: Option<Refusal>,
    all: bool,
    refused: Option<Refusal>,
}

impl Drop for Splitter {
    fn drop(self) {
        let Splitter {
            kept: _,
            base: _,
            from: _,
            start: _,
            sought: _,
            clear: _,
            doomed: _,
            all: _,
            refused: _,
        } = self;
    }
}

impl Model for Splitter {
    ghost use Rattle.vx_annexb.specs.Held.{Held};
    ghost use Rattle.vx_annexb.specs.inner.Order.{IsInOrder};

    ghost Value = { Held };

    ghost view = { λ a. record {
      kept = a.kept.items;
      base = a.base;
      room = a.kept.room;
      from = a.from;
      start = a.start;
      sought = a.sought;
      clear = a.clear;
      doomed = a.doomed;
      all = a.all;
      refused = a.refused;
    } };

    ghost invariant = { λ a. IsInOrder (record {
      kept = a.kept.items;
      base = a.base;
      room = a.kept.room;
      from = a.from;
      start = a.start;
      sought = a.sought;
      clear = a.clear;
      doomed = a.doomed;
      all = a.all;
      refused = a.refused;
    }) };
}

/// The place from which bytes are held after room is made, and what is then known of the unit that has begun.
#[derive(Clone, Copy)]
struct Cut {
    base: u64,
    doomed: Option<Refusal>,
}

impl Splitter {
    ghost use Rattle.std.specs.Prelude.{◌≡◌, ℕ, ◌+◌, ◌-◌, ◌^◌, ◌<◌, ◌≤◌, ◌++◌, [], List, true, false, length, slice_range, IfOk, IfErr, IfSome, IfNone, OnOk, OnErr, OnSome, IsOk, IsSome, MatchOption, MatchResult};
    ghost use Rattle.std.specs.Io.KnownBytes.{Keeps};
    ghost use Rattle.vx_io.specs.Faults.{CountsFault};
    ghost use Rattle.vx_bits.specs.declared.refusal.Refusal.{Refusal};
    ghost use Rattle.vx_bits.specs.Limits.{unit_limit};
    ghost use Rattle.vx_annexb.specs.Places.{IsFirstFrom};
    ghost use Rattle.vx_annexb.specs.ByteStream.{UnitPlace, CanEnd, IsSound, RefusesUnit};
    ghost use Rattle.vx_annexb.specs.Held.{Stands, Answers, IsReadable, IsSought, Lends, fed, held, lent, room as has_room, is_all, first_refusal, ahead};
    ghost use Rattle.vx_annexb.specs.inner.Order.{HasStarted, IsCut};
    ghost use Rattle.vx_annexb.specs.inner.Queue.{Receives};

    /// Returns a splitter that was fed nothing.
    pub fn new(alloc: Global) -> Splitter
        ensures fed { fed result ≡ 0 }
        ensures held { held result ≡ 0 }
        ensures all { is_all result ≡ false }
        ensures stands { Stands result [] [] }
    {
        Splitter {
            kept: ByteQueue::new(alloc),
            base: 0,
            from: 0,
            start: None,
            sought: 0,
            clear: 0,
            doomed: None,
            all: false,
            refused: None,
        }
    }

    /// Makes room for `n` more bytes, and drops the bytes that no later unit needs. Spans returned before
    /// become invalid.
    ///
    /// # Errors
    ///
    /// `AllocError` if memory runs out. Nothing has changed then.
    pub fn make_room(&mut self, n: usize) -> Result<(), AllocError>
        ensures stands { OnOk result ((g : List ℕ) (units : List UnitPlace) → Stands self.old g units → Stands self.new g units) }
        ensures room { OnOk result (n ≤ has_room self.new) }
        ensures fed { fed self.new ≡ fed self.old }
        ensures ahead { ahead self.new ≡ ahead self.old }
        ensures all { is_all self.new ≡ is_all self.old }
        ensures refused { first_refusal self.new ≡ first_refusal self.old }
        ensures sought { OnOk result (IsSought self.old → IsSought self.new) }
        ensures held { OnOk result (IsSought self.old → held self.new ≤ unit_limit + 2) }
        ensures succeeds { n ≤ has_room self.old → IsOk result }
        ensures err { OnErr result (self.new ≡ self.old) }
    {
        let cut = self.cut();
        self.kept.shift((cut.base - self.base) as usize, n)?;
        self.base = cut.base;
        self.doomed = cut.doomed;
        Ok(())
    }

    /// Appends the next bytes of the stream. Takes memory only if `make_room` wasn't called for as many bytes
    /// before.
    ///
    /// # Errors
    ///
    /// `AllocError` if memory runs out. Nothing has changed then.
    pub fn feed(&mut self, piece: &[u8]) -> Result<(), AllocError>
        requires going { is_all self.old ≡ false }
        requires fits { fed self.old + length piece.now < 2 ^ 64 }
        ensures stands { OnOk result ((g : List ℕ) (units : List UnitPlace) → Stands self.old g units → Stands self.new (g ++ piece.now) units) }
        ensures fed { OnOk result (fed self.new ≡ fed self.old + length piece.now) }
        ensures ahead { OnOk result (ahead self.new ≡ ahead self.old + length piece.now) }
        ensures all { is_all self.new ≡ false }
        ensures refused { first_refusal self.new ≡ first_refusal self.old }
        ensures held { OnOk result (IsSought self.old → held self.new ≤ unit_limit + 2 + length piece.now) }
        ensures room { length piece.now ≤ has_room self.old → IsOk result }
        ensures err { OnErr result (self.new ≡ self.old) }
    {
        self.make_room(piece.len())?;
        self.kept.extend(piece);
        Ok(())
    }

    /// Reads at most `most` bytes of a source, for which there is room, appends the first `limit` of them to
    /// the stream, and returns the number of bytes read. A failed read changes nothing.
    pub(crate) fn read_from(
        &mut self,
        source: &mut dyn Source,
        most: usize,
        limit: usize,
    ) -> Result<usize, SourceFailed>
        requires going { is_all self.old ≡ false }
        requires fits { fed self.old + limit < 2 ^ 64 }
        requires some { 0 < most }
        requires room { most ≤ has_room self.old }
        ensures bound { IfOk result (λ count. count ≤ most) }
        ensures answer { MatchResult result
            (λ count. Receives limit count (lent self.old) (lent self.new) (bytes_left source.old) (bytes_left source.new))
            (λ _. Keeps (bytes_left source.old) (bytes_left source.new) × (lent self.new ≡ lent self.old)) }
        ensures faults { CountsFault (read_faults source.old) (read_faults source.new) result }
        ensures stands { (piece : List ℕ) → lent self.new ≡ lent self.old ++ piece
            → (g : List ℕ) (units : List UnitPlace) → Stands self.old g units → Stands self.new (g ++ piece) units }
        ensures ahead { ahead self.new + fed self.old ≡ ahead self.old + fed self.new }
        ensures base { fed self.new + held self.old ≡ fed self.old + held self.new }
        ensures all { is_all self.new ≡ false }
    {
        self.kept.read_from(source, most, limit)
    }

    /// Returns the place from which bytes are held after room is made.
    fn cut(&self) -> Cut
        ensures cut { IsCut self.now result.base result.doomed }
        ensures held { IsSought self.now → fed self.now ≤ result.base + (unit_limit + 2) }
    {
        if self.base + self.kept.len() as u64 - self.sought > 2 {
            return Cut {
                base: self.base,
                doomed: self.doomed,
            };
        }
        let Some(start) = self.start else {
            return Cut {
                base: self.sought,
                doomed: None,
            };
        };
        if self.sought - start <= UNIT_LIMIT as u64 {
            return Cut {
                base: start,
                doomed: None,
            };
        }
        Cut {
            base: self.sought - 3,
            doomed: self.refusal_to(start, self.sought),
        }
    }

    /// Returns why the unit that has begun at `start` is refused if it ends at `end`.
    fn refusal_to(&self, start: u64, end: u64) -> Option<Refusal>
        requires begun { self.now.start ≡ Some start }
        requires order { start ≤ end }
        requires sought { self.now.sought ≤ end }
        requires within { end ≤ fed self.now }
        ensures answer { (g : List ℕ) (units : List UnitPlace) → Stands self.now g units → first_refusal self.now ≡ None
            → MatchOption result (IsSound (slice_range g start end)) (RefusesUnit (slice_range g start end) start) }
        ensures whole { IfNone result (self.now.doomed ≡ None) }
        ensures sound { IfNone result (IsSound (slice_range (lent self.now) (start - self.now.base) (end - self.now.base))) }
    {
        let last = (end - self.base) as usize;
        match self.doomed {
            None => {
                let first = (start - self.base) as usize;
                refusal_of(
                    &self.kept.as_slice()[first..last],
                    (self.clear - start) as usize,
                    start,
                )
            }
            Some(refusal) => match refusal {
                Refusal::Limit { .. } => match emulation_fault(&self.kept.as_slice()[..last]) {
                    Some(fault) => Some(Refusal::Framing {
                        code: BAD_EMULATION,
                        byte: self.base + fault as u64,
                    }),
                    None => Some(refusal),
                },
                _ => Some(refusal),
            },
        }
    }

    /// Ends the stream: the bytes fed so far are all there are.
    pub fn finish(&mut self)
        ensures stands { (g : List ℕ) (units : List UnitPlace) → Stands self.old g units → Stands self.new g units }
        ensures lent { lent self.new ≡ lent self.old }
        ensures fed { fed self.new ≡ fed self.old }
        ensures ahead { ahead self.new ≡ ahead self.old }
        ensures all { is_all self.new ≡ true }
        ensures refused { first_refusal self.new ≡ first_refusal self.old }
    {
        self.all = true;
    }

    /// Returns the next unit of the stream, or `None` if more bytes are needed or the stream has ended.
    ///
    /// More bytes are needed if those fed contain neither a further unit's end nor a stray byte, which is no
    /// part of a start code.
    ///
    /// # Errors
    ///
    /// The refusal of the unit, or of a stray byte. Every later call returns it again.
    pub fn next(&mut self) -> Result<Option<Span>, Refusal>
        ensures answer { (g : List ℕ) (units : List UnitPlace) → Stands self.old g units → Answers g units self.new result }
        ensures readable { IfOk result (λ given. IfSome given (IsReadable self.new)) }
        ensures lends { Lends self.old self.new }
        ensures falls { IfOk result (λ given. OnSome given (ahead self.new < ahead self.old)) }
        ensures stays { IfOk result (λ _. ahead self.new ≤ ahead self.old) }
        ensures refused { IfErr result (λ r. first_refusal self.new ≡ Some r) }
        ensures again { (r : Refusal) → first_refusal self.old ≡ Some r → result ≡ Err r }
        ensures sought { IfOk result (λ given. IfNone given (IsSought self.new)) }
    {
        if let Some(refusal) = self.refused {
            return Err(refusal);
        }
        let Some(start) = self.seek_start()? else {
            return Ok(None);
        };
        self.pass_clear();
        let Some(end) = self.seek_end(start) else {
            return Ok(None);
        };
        self.give(start, end)
    }

    /// Searches for the first byte of the next unit.
    fn seek_start(&mut self) -> Result<Option<u64>, Refusal>
        requires { self.old.refused ≡ None }
        ensures answer { (g : List ℕ) (units : List UnitPlace) → Stands self.old g units → HasStarted g units self.new result }
        ensures lends { Lends self.old self.new }
        ensures from { self.new.from ≡ self.old.from }
        ensures start { IfOk result (λ start. (self.new.start ≡ start) × (self.new.refused ≡ None)) }
        ensures refused { IfErr result (λ r. self.new.refused ≡ Some r) }
        ensures sought { IfOk result (λ start. IfNone start (IsSought self.new)) }
    {
        if self.start.is_some() {
            return Ok(self.start);
        }
        let at = (self.sought - self.base) as usize;
        let kept = self.kept.as_slice();
        let place = skip_zeros(kept, at);
        self.sought = self.base + place as u64;
        if place == kept.len() {
            return Ok(None);
        }
        if kept[place] != 1 || self.sought - self.from < 2 {
            let refusal = Refusal::Framing {
                code: NOT_A_START_CODE,
                byte: self.sought,
            };
            self.refused = Some(refusal);
            return Err(refusal);
        }
        self.sought += 1;
        self.clear = self.sought;
        self.start = Some(self.sought);
        Ok(self.start)
    }

    /// Passes the bytes of the unit that has begun up to its first 00 00 and a byte of at most 03. If that
    /// place was found before, `clear` stays before `sought`.
    fn pass_clear(&mut self)
        requires begun { IsSome self.old.start }
        requires open { self.old.refused ≡ None }
        ensures stands { (g : List ℕ) (units : List UnitPlace) → Stands self.old g units → Stands self.new g units }
        ensures lends { Lends self.old self.new }
        ensures start { self.new.start ≡ self.old.start }
        ensures open { self.new.refused ≡ None }
        ensures from { self.new.from ≡ self.old.from }
    {
        if self.clear == self.sought {
            let at = (self.sought - self.base) as usize;
            self.sought = self.base + pass_to_mark(self.kept.as_slice(), at, EMULATION) as u64;
            self.clear = self.sought;
        }
    }

    /// Searches for the place after the last byte of the unit that begins at `start`.
    fn seek_end(&mut self, start: u64) -> Option<u64>
        requires begun { self.old.start ≡ Some start }
        requires open { self.old.refused ≡ None }
        ensures answer { (g : List ℕ) (units : List UnitPlace) → Stands self.old g units → Stands self.new g units × MatchOption result
            ((k : ℕ) → start ≤ k → ¬ CanEnd g self.old.all k)
            (IsFirstFrom (CanEnd g self.old.all) start) }
        ensures lends { Lends self.old self.new }
        ensures start { self.new.start ≡ Some start }
        ensures open { self.new.refused ≡ None }
        ensures order { IfSome result (λ end. (start ≤ end) × (self.new.sought ≤ end) × (self.new.from ≤ start) × (end ≤ fed self.new)) }
        ensures from { self.new.from ≡ self.old.from }
        ensures sought { IfNone result (IsSought self.new) }
    {
        let at = (self.sought - self.base) as usize;
        let end = match find_mark(self.kept.as_slice(), at, 1) {
            Some(end) => end,
            None if self.all => trim_zeros(self.kept.as_slice(), at),
            None => {
                let seen = self.kept.len().saturating_sub(2);
                self.sought = self.base + at.max(seen) as u64;
                return None;
            }
        };
        Some(self.base + end as u64)
    }

    /// Returns the unit from `start` to `end`, or its refusal.
    fn give(&mut self, start: u64, end: u64) -> Result<Option<Span>, Refusal>
        requires begun { self.old.start ≡ Some start }
        requires open { self.old.refused ≡ None }
        requires order { start ≤ end }
        requires sought { self.old.sought ≤ end }
        requires within { end ≤ fed self.old }
        ensures answer { (g : List ℕ) (units : List UnitPlace) → Stands self.old g units → IsFirstFrom (CanEnd g self.old.all) start end → Answers g units self.new result }
        ensures readable { IfOk result (λ given. IfSome given (IsReadable self.new)) }
        ensures lends { Lends self.old self.new }
        ensures given { IsOk result → (self.old.from + 2 ≤ end) × (self.new.from ≡ end) }
        ensures some { IfOk result IsSome }
        ensures refused { IfErr result (λ r. self.new.refused ≡ Some r) }
    {
        if let Some(refusal) = self.refusal_to(start, end) {
            self.refused = Some(refusal);
            return Err(refusal);
        }
        self.from = end;
        self.sought = end;
        self.start = None;
        Ok(Some(Span {
            start: (start - self.base) as usize,
            end: (end - self.base) as usize,
            offset: start,
        }))
    }

    /// Returns the bytes of a span. Requires that the span can be read: no call that moves bytes came after it.
    pub fn bytes(&self, span: Span) -> &[u8]
        requires { IsReadable self.now span }
        ensures { result.now ≡ slice_range (lent self.now) span.start span.end }
    {
        &self.kept.as_slice()[span.start..span.end]
    }
}
