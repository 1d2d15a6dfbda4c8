//! A byte stream that is pushed as it arrives, and its pictures.

use crate::seek::{give_end, give_zeros, go_on, seek, waits};
use std::alloc::{AllocError, Global};
use std::marker::Model;
use vx_assemble::Feed;
use vx_bits::Refusal;
use vx_pic::{Lender, Picture};

/// The state of an intake.
#[derive(Clone, Copy, PartialEq, Eq)]
pub enum State {
    /// It waits for bytes: those pushed so far show no further picture.
    Waits,
    /// It lends a picture.
    Picture,
    /// The stream has ended.
    Ended,
    /// The stream breaks this rule, after `units` units.
    Refused { refusal: Refusal, units: u64 },
    /// Memory ran out.
    NoMemory,
}

/// Takes a byte stream as it is pushed, and lends its pictures one after another.
///
/// It takes bytes only while it waits for them, and holds at most 2^25 + 2^23 + 65,538 of them. What it finds depends only on the bytes
/// pushed, not on how they are cut. After the end, a refusal or lack of memory it takes nothing more.
pub struct Intake {
    feed: Feed,
    state: State,
    // Whether zeros were pushed after the picture that is lent, and whether there are no more bytes.
    flushed: bool,
    ended: bool,
}

impl Drop for Intake {
    fn drop(self) {
        let Intake {
            feed: _,
            state: _,
            flushed: _,
            ended: _,
        } = self;
    }
}

impl Model for Intake {
    ghost use Rattle.vx_push.specs.inner.Comes.{Intaking, IsInStep};

    ghost Value = { Intaking };

    ghost view = { λ i. record { feed = i.feed; state = i.state; flushed = i.flushed; ended = i.ended } };

    ghost invariant = { λ i. IsInStep (record { feed = i.feed; state = i.state; flushed = i.flushed; ended = i.ended }) };
}

impl Intake {
    ghost use Rattle.std.specs.Prelude.{◌≡◌, ◌⊎◌, ◌+◌, ◌^◌, ◌<◌, ◌≤◌, true, false, List, [], take, length, IfOk};
    ghost use Rattle.vx_pic.specs.Readings.{Picture as StreamPicture};
    ghost use Rattle.vx_pic.specs.Rules.{Readers};
    ghost use Rattle.vx_pic.specs.H266.{AreOfH266};
    ghost use Rattle.vx_assemble.specs.Held.{ShowsLatest, lent_by};
    ghost use Rattle.vx_assemble.specs.Feed.{most_held};
    ghost use Rattle.vx_push.specs.Handed.{Handed, nothing, with_more, with_end, zeros};
    ghost use Rattle.vx_push.specs.Comes.{HasCome, ComesTo, ComesNext, taken_at_once, bytes_held};
    ghost use Rattle.vx_push.specs.declared.intake.State.TheVariants.{Waits, Picture as Holds, NoMemory};

    /// Makes an intake that waits, to which nothing was pushed.
    pub fn new(alloc: Global) -> Result<Intake, AllocError>
        ensures comes { IfOk result (λ i. (R : Readers) → HasCome R i nothing []) }
        ensures waits { IfOk result (λ i. i.state ≡ Waits) }
        ensures bytes { IfOk result (λ i. bytes_held i ≡ 0) }
    {
        let feed = Feed::new(alloc)?;
        Ok(Intake {
            feed,
            state: State::Waits,
            flushed: false,
            ended: false,
        })
    }

    /// Returns its state.
    pub fn state(&self) -> State
        ensures state { result ≡ self.now.state }
        ensures told { (R : Readers) (h : Handed) (ps : List StreamPicture) → HasCome R self.now h ps → ComesTo R h ps result }
        ensures bytes { bytes_held self.now ≤ most_held }
    {
        self.state
    }

    /// Takes a prefix of `piece`, advances to the next picture, and returns how many bytes it took.
    ///
    /// While it waits, these are at most 65,536, and at most 2^40 + 1 over all calls. Otherwise it returns 0 and changes nothing. It also
    /// returns 0 if there is no memory for the bytes; the state is then [`State::NoMemory`].
    pub fn push(&mut self, piece: &[u8]) -> usize
        ensures comes { self.old.state ≡ Waits → (R : Readers) → AreOfH266 R → (h : Handed) (ps : List StreamPicture)
            → HasCome R self.old h ps → ComesNext R self.new (with_more h (take result piece.now)) ps self.new.state }
        ensures count { self.old.state ≡ Waits
            → (result ≡ taken_at_once self.old (length piece.now)) ⊎ ((result ≡ 0) × (self.new.state ≡ NoMemory)) }
        ensures within { result ≤ length piece.now }
        ensures kept { (self.old.state ≡ Waits → ⊥) → (result ≡ 0) × (self.new ≡ self.old) }
        ensures ended { (R : Readers) (h : Handed) (ps : List StreamPicture) → HasCome R self.old h ps → h.all ≡ true → result ≡ 0 }
        ensures bytes { bytes_held self.new ≤ most_held }
    {
        if !waits(self.state) {
            return 0;
        }
        match self.feed.feed(piece) {
            Ok(count) => {
                self.state = seek(&mut self.feed);
                count
            }
            Err(_error) => {
                self.state = State::NoMemory;
                0
            }
        }
    }

    /// Declares the last unit pushed complete: appends three zero bytes (B.2.1), and advances.
    ///
    /// While a picture is lent, the zeros are kept until it is passed, once however often this is called. After [`end`](Intake::end), a
    /// refusal or lack of memory it does nothing.
    pub fn flush(&mut self)
        ensures comes { self.old.state ≡ Waits → (R : Readers) → AreOfH266 R → (h : Handed) (ps : List StreamPicture)
            → HasCome R self.old h ps → ComesNext R self.new (with_more h zeros) ps self.new.state }
        ensures later { self.old.state ≡ Holds → (self.old.ended ≡ false) → (self.old.flushed ≡ false) → (R : Readers) (h : Handed)
            (ps : List StreamPicture) → HasCome R self.old h ps → HasCome R self.new (with_more h zeros) ps }
        ensures holds { self.old.state ≡ Holds → self.new ≡ record self.old { flushed = self.new.flushed } }
        ensures once { self.old.flushed ≡ true → self.new ≡ self.old }
        ensures ended { self.old.ended ≡ true → self.new ≡ self.old }
        ensures kept { (self.old.state ≡ Waits → ⊥) → (self.old.state ≡ Holds → ⊥) → self.new ≡ self.old }
        ensures bytes { bytes_held self.new ≤ most_held }
    {
        match self.state {
            State::Waits => self.state = give_zeros(&mut self.feed),
            State::Picture if !self.ended => self.flushed = true,
            _ => {}
        }
    }

    /// Declares that there are no more bytes, and advances. While a picture is lent, the end is kept until it is passed.
    pub fn end(&mut self)
        ensures comes { self.old.state ≡ Waits → (R : Readers) → AreOfH266 R → (h : Handed) (ps : List StreamPicture)
            → HasCome R self.old h ps → ComesNext R self.new (with_end h) ps self.new.state }
        ensures later { self.old.state ≡ Holds → (R : Readers) (h : Handed) (ps : List StreamPicture)
            → HasCome R self.old h ps → HasCome R self.new (with_end h) ps }
        ensures holds { self.old.state ≡ Holds → self.new ≡ record self.old { ended = true } }
        ensures kept { (self.old.state ≡ Waits → ⊥) → (self.old.state ≡ Holds → ⊥) → self.new ≡ self.old }
        ensures bytes { bytes_held self.new ≤ most_held }
    {
        match self.state {
            State::Waits => {
                self.ended = true;
                self.state = give_end(&mut self.feed);
            }
            State::Picture => self.ended = true,
            _ => {}
        }
    }

    /// Gives up the picture that it lends, if it lends one, and advances to the next.
    pub fn pass(&mut self)
        ensures comes { self.old.state ≡ Holds → (R : Readers) → AreOfH266 R → (h : Handed) (ps : List StreamPicture)
            → HasCome R self.old h ps → ComesNext R self.new h ps self.new.state }
        ensures kept { (self.old.state ≡ Holds → ⊥) → self.new ≡ self.old }
        ensures units { self.old.state ≡ Holds → self.new.state ≡ Holds → self.old.feed.units < self.new.feed.units }
        ensures few { self.new.state ≡ Holds → self.new.feed.units ≤ 2 ^ 40 }
        ensures bytes { bytes_held self.new ≤ most_held }
    {
        if let State::Picture = self.state {
            self.state = go_on(&mut self.feed, &mut self.flushed, self.ended);
        }
    }

    /// Returns the picture that it lends. Takes no memory.
    pub fn picture(&self) -> Picture<'_>
        requires { self.now.state ≡ Holds }
        ensures lent { result ≡ lent_by self.now.feed.assembler }
        ensures few { self.now.feed.units ≤ 2 ^ 40 }
        ensures shows { (R : Readers) (h : Handed) (ps : List StreamPicture) → HasCome R self.now h ps → ShowsLatest result ps }
    {
        self.feed.picture()
    }
}

impl Lender for Intake {
    ghost use Rattle.std.specs.Prelude.{◌≡◌};
    ghost use Rattle.vx_assemble.specs.Held.{lent_by};
    ghost use Rattle.vx_push.specs.declared.intake.State.TheVariants.{Picture as Holds};

    ghost holds = { λ i. i.state ≡ Holds };

    ghost lent = { λ i. lent_by i.feed.assembler };

    fn picture(&self) -> Picture<'_> {
        Intake::picture(self)
    }
}
