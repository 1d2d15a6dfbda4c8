//! A merge of sources whose bytes are pushed as they arrive.
ghost use Rattle.std.specs.Prelude.{◌≡◌, ℕ, ◌+◌, ◌-◌, ◌^◌, ◌<◌, ◌≤◌, All, List, [], length, vec_len, None, Ok, Err, IfOk, IfErr, OnOk};
ghost use Rattle.vx_pic.specs.Rules.{Readers};
ghost use Rattle.vx_pic.specs.H266.{AreOfH266};
ghost use Rattle.vx_pic.specs.Written.{Plan};
ghost use Rattle.vx_frame.specs.Corners.{AreCorners};
ghost use Rattle.vx_merge.specs.Merging.{SameTask, Stands};
ghost use Rattle.vx_push.specs.Comes.{Handed, nothing};
ghost use Rattle.vx_push.specs.declared.intake.State.TheVariants.{Picture as AtPicture};
ghost use Rattle.vx_push.specs.Mixing.{MixedIsMerged};
ghost use Rattle.vx_push.specs.inner.Mixing.{AreNew, stop_by, mark_of, AreSeen, HaltsBy, HaltsFirst, Looks, MergesHanded, HavePassed, end_by, round_of};

use crate::intake::{Intake, State};
use crate::store::{Store, WrittenPicture};
use std::alloc::{AllocError, Global};
use std::marker::Model;
use vx_io::GrowSink;
use vx_merge::{Corner, Merger, WriteError};
use vx_pic::{Kind, Lender};
use vx_run::{Place, Stop, all_go_on, merge_ends_once};

/// The state of a mixer.
#[derive(Clone, Copy, PartialEq, Eq)]
pub enum Mixed {
    /// A merged picture is to be taken.
    Picture,
    /// This source needs bytes, and no earlier source does.
    Waits(u16),
    /// All sources have ended, and there are no more pictures.
    Ended,
    /// The merge is stopped, and there are no more pictures.
    Stopped(Stop),
}

/// There is no source of this number.
#[derive(Clone, Copy, Debug, PartialEq, Eq)]
pub struct NoSource;

/// Merges byte streams that are pushed as they arrive.
///
/// It holds at most one merged picture, until that is taken. It merges what `merge` merges of the same streams, by the law
/// [`mixed_is_merged`]. After the end, a refusal or lack of memory [`next`](Mixer::next) returns that again.
pub struct Mixer {
    alloc: Global,
    merger: Merger,
    intakes: Vec<Intake>,
    // Which of the sources had ended in the latest round.
    ended: Vec<bool>,
    // How many rounds are merged.
    rounds: u64,
    // The picture of the latest of them, until it is taken.
    store: Store,
    // How the merge ended, once it has.
    end: Option<Mixed>,
}

impl Drop for Mixer {
    fn drop(self) {
        let Mixer {
            alloc: _,
            merger: _,
            intakes: _,
            ended: _,
            rounds: _,
            store: _,
            end: _,
        } = self;
    }
}

impl Model for Mixer {
    ghost use Rattle.std.specs.Prelude.{◌≡◌, length, vec_len};
    ghost use Rattle.vx_frame.specs.Corners.{AreCorners};
    ghost use Rattle.vx_push.specs.Mixing.{Mixing};

    ghost Value = { Mixing };

    ghost view = { λ m. record { intakes = m.intakes.items; merger = m.merger; rounds = m.rounds; merged = m.store.written.taken; held = m.store.held; end = m.end } };

    ghost invariant = { λ m. AreCorners m.merger.corners × (vec_len m.intakes ≡ length m.merger.corners) × (vec_len m.ended ≡ length m.merger.corners) };
}

/// Makes `count` intakes, to which nothing was pushed.
fn intakes_for(alloc: Global, count: usize) -> Result<Vec<Intake>, AllocError>
    ensures count { IfOk result (λ intakes. vec_len intakes ≡ count) }
    ensures new { IfOk result (λ intakes. AreNew intakes.items) }
{
    let mut intakes = Vec::new(alloc);
    for _ in 0..count {
        let intake = Intake::new(alloc)?;
        intakes.push(intake)?;
    }
    Ok(intakes)
}

/// Returns whether source `k` has ended or holds a picture; the error is what keeps a round from being merged.
fn has_ended(state: State, k: u16) -> Result<bool, Mixed>
    ensures so { IfOk result (λ ended. state ≡ mark_of ended) }
    ensures halts { IfErr result (HaltsBy state k) }
{
    match state {
        State::Picture => Ok(false),
        State::Ended => Ok(true),
        State::Waits => Err(Mixed::Waits(k)),
        State::Refused { refusal, units } => {
            let place = Place::Unit {
                source: k,
                unit: units,
            };
            Err(Mixed::Stopped(Stop::Refused { refusal, place }))
        }
        State::NoMemory => Err(Mixed::Stopped(Stop::NoMemory)),
    }
}

/// Marks which sources have ended, in order, up to the first that keeps a round from being merged.
fn look_at_each(intakes: &[Intake], ended: &mut Vec<bool>) -> Result<(), Mixed>
    requires few { length intakes.now ≤ 65536 }
    requires count { vec_len ended.old ≡ length intakes.now }
    ensures seen { OnOk result (AreSeen intakes.now ended.new.items) }
    ensures halts { IfErr result (HaltsFirst intakes.now) }
    ensures len { vec_len ended.new ≡ vec_len ended.old }
{
    for k in 0..intakes.len() {
        ended[k] = has_ended(intakes[k].state(), k as u16)?;
    }
    Ok(())
}

/// Checks that each source holds a picture; the error is what keeps the next round from being merged.
///
/// `rounds` is the number of rounds before.
fn look(intakes: &[Intake], ended: &mut Vec<bool>, rounds: u64) -> Result<(), Mixed>
    requires some { 0 < length intakes.now }
    requires few { length intakes.now ≤ 64 }
    requires count { vec_len ended.old ≡ length intakes.now }
    ensures looks { Looks intakes.now rounds result }
    ensures len { vec_len ended.new ≡ vec_len ended.old }
{
    look_at_each(intakes, ended)?;
    match all_go_on(ended, rounds) {
        Ok(true) => Ok(()),
        Ok(false) => Err(Mixed::Ended),
        Err(stop) => Err(Mixed::Stopped(stop)),
    }
}

/// Returns the end, if it is one.
fn end_of(mixed: Mixed) -> Option<Mixed>
    ensures { result ≡ end_by mixed }
{
    match mixed {
        Mixed::Picture | Mixed::Waits(_) => None,
        Mixed::Ended | Mixed::Stopped(_) => Some(mixed),
    }
}

/// Merges the pictures that the intakes lend, and returns the kind of the merged picture. `rounds` is the number of rounds before.
fn merge_round(
    alloc: Global,
    merger: &mut Merger,
    intakes: &[Intake],
    rounds: u64,
    merged: &mut GrowSink,
) -> Result<Kind, Stop>
    requires some { 0 < length intakes.now }
    requires count { length intakes.now ≡ length merger.old.corners }
    requires hold { All (λ i. i.state ≡ AtPicture) intakes.now }
    ensures merges { (done : List Plan) → Stands merger.old done
        → MergesHanded (round_of intakes.now) done merger.new merged.new.taken rounds result }
    ensures task { SameTask merger.old merger.new }
{
    *merged = GrowSink::new(alloc);
    match merger.round(intakes, merged) {
        Ok(()) => Ok(intakes[0].picture().kind()),
        Err(error) => Err(stop_of_merge(error, rounds)),
    }
}

/// Returns why a mixer stops if round `n` isn't merged. A sink in memory fails only for lack of it.
fn stop_of_merge(error: WriteError, n: u64) -> Stop
    ensures { result ≡ stop_by error n }
{
    match error {
        WriteError::SinkFailed => Stop::NoMemory,
        _ => Stop::of_write(error, n),
    }
}

/// Passes the picture that each intake lends.
fn pass_each(intakes: &mut Vec<Intake>)
    ensures { HavePassed intakes.old.items intakes.new.items }
{
    for k in 0..intakes.len() {
        intakes[k].pass();
    }
}

impl Mixer {
    ghost use Rattle.std.specs.Prelude.{◌≡◌, ◌⊎◌, ℕ, ◌+◌, ◌-◌, ◌<◌, ◌≤◌, ◌++◌, true, List, [], length, take, drop, map, slice_get, None, Some, IfOk, IfSome, OnOk, IfNone, OnErr, OnSome};
    ghost use Rattle.vx_pic.specs.Rules.{Readers};
    ghost use Rattle.vx_pic.specs.H266.{AreOfH266};
    ghost use Rattle.vx_pic.specs.declared.kind.Kind.{Kind as KindOf};
    ghost use Rattle.vx_pic.specs.Written.{Plan};
    ghost use Rattle.vx_frame.specs.Corners.{AreCorners};
    ghost use Rattle.vx_merge.specs.Merging.{SameTask};
    ghost use Rattle.vx_push.specs.Comes.{Intaking, Handed, nothing, with_more, with_zeros, with_end};
    ghost use Rattle.vx_push.specs.declared.mixer.Mixed.{Mixed as Answer};
    ghost use Rattle.vx_push.specs.declared.mixer.Mixed.TheVariants.{Picture as ToPicture, Waits as ToWait};
    ghost use Rattle.vx_push.specs.Mixing.{HasMixed, Answers, HandsIn, Takes};

    /// Makes a mixer of one source for each corner, the upper left corner of its region in luma samples.
    ///
    /// `level` is the level to write; `None` means the highest of the sources'.
    pub fn new(alloc: Global, corners: &[Corner], level: Option<u8>) -> Result<Mixer, AllocError>
        requires { AreCorners corners.now }
        ensures task { IfOk result (λ m. (m.merger.corners ≡ corners.now) × (m.merger.level ≡ level)) }
        ensures mixed { IfOk result (λ m. (R : Readers) → HasMixed R m (map (λ corner. nothing) corners.now) []) }
        ensures none { IfOk result (λ m. (m.held ≡ None) × (m.end ≡ None)) }
    {
        let merger = Merger::new(alloc, corners, level)?;
        let intakes = intakes_for(alloc, corners.len())?;
        let ended = vec![in alloc; false; corners.len()]?;
        Ok(Mixer {
            alloc,
            merger,
            intakes,
            ended,
            rounds: 0,
            store: Store::new(alloc),
            end: None,
        })
    }

    /// Pushes a prefix of `piece` to a source, at most 65,536 bytes, and returns its length.
    ///
    /// Returns 0 while the source holds a picture that isn't merged yet, and after its end, its refusal or lack of memory.
    ///
    /// *Errors:* [`NoSource`]; nothing changes.
    pub fn push(&mut self, source: usize, piece: &[u8]) -> Result<usize, NoSource>
        ensures handed { IfOk result (λ n. HandsIn self.old self.new source (λ i h. with_more h (take n piece.now))) }
        ensures count { IfOk result (λ n. (n ≤ length piece.now) × ((i later : Intaking) → slice_get self.old.intakes source ≡ Some i
            → slice_get self.new.intakes source ≡ Some later → Takes i later (length piece.now) n)) }
        ensures ended { IfOk result (λ n. (R : Readers) (given : List Handed) (done : List Plan) (h : Handed)
            → HasMixed R self.old given done → slice_get given source ≡ Some h → h.all ≡ true → n ≡ 0) }
        ensures wrong { OnErr result ((length self.old.intakes ≤ source) × (self.new ≡ self.old)) }
    {
        if source >= self.intakes.len() {
            return Err(NoSource);
        }
        Ok(self.intakes[source].push(piece))
    }

    /// Declares the last unit pushed to a source complete, as [`Intake::flush`] does.
    ///
    /// *Errors:* [`NoSource`]; nothing changes.
    pub fn flush(&mut self, source: usize) -> Result<(), NoSource>
        ensures handed { OnOk result (HandsIn self.old self.new source with_zeros) }
        ensures wrong { OnErr result ((length self.old.intakes ≤ source) × (self.new ≡ self.old)) }
    {
        if source >= self.intakes.len() {
            return Err(NoSource);
        }
        self.intakes[source].flush();
        Ok(())
    }

    /// Declares that a source has no more bytes, as [`Intake::end`] does.
    ///
    /// *Errors:* [`NoSource`]; nothing changes.
    pub fn end(&mut self, source: usize) -> Result<(), NoSource>
        ensures handed { OnOk result (HandsIn self.old self.new source (λ i h. with_end h)) }
        ensures wrong { OnErr result ((length self.old.intakes ≤ source) × (self.new ≡ self.old)) }
    {
        if source >= self.intakes.len() {
            return Err(NoSource);
        }
        self.intakes[source].end();
        Ok(())
    }

    /// Advances to the next merged picture.
    ///
    /// Returns [`Mixed::Picture`] until that picture is taken; [`Mixed::Waits`] if a source needs bytes and no earlier source does;
    /// [`Mixed::Ended`] or [`Mixed::Stopped`] at the end, and from then on. Sources are advanced in order, so a refusal of a later source
    /// is reported only when no earlier one waits.
    pub fn next(&mut self) -> Mixed
        ensures answer { self.old.held ≡ None → self.old.end ≡ None → (R : Readers) → AreOfH266 R → (given : List Handed) (done : List Plan)
            → HasMixed R self.old given done → Answers R self.new given done result }
        ensures held { (kind : KindOf) → self.old.held ≡ Some kind → (result ≡ ToPicture) × (self.new ≡ self.old) }
        ensures ended { (end : Answer) → self.old.held ≡ None → self.old.end ≡ Some end → (result ≡ end) × (self.new ≡ self.old) }
        ensures waits { (k : ℕ) → result ≡ ToWait k → self.new ≡ self.old }
        ensures task { SameTask self.old.merger self.new.merger }
    {
        if self.store.held.is_some() {
            return Mixed::Picture;
        }
        if let Some(end) = self.end {
            return end;
        }
        if let Err(mixed) = look(&self.intakes, &mut self.ended, self.rounds) {
            self.end = end_of(mixed);
            return mixed;
        }
        let (alloc, rounds) = (self.alloc, self.rounds);
        match merge_round(
            alloc,
            &mut self.merger,
            &self.intakes,
            rounds,
            &mut self.store.written,
        ) {
            Ok(kind) => {
                self.store.held = Some(kind);
                self.rounds = rounds.saturating_add(1);
                pass_each(&mut self.intakes);
                Mixed::Picture
            }
            Err(stop) => {
                self.end = Some(Mixed::Stopped(stop));
                Mixed::Stopped(stop)
            }
        }
    }

    /// Returns the merged picture that is to be taken.
    pub fn picture(&self) -> Option<WrittenPicture>
        ensures some { IfSome result (λ p. (self.now.held ≡ Some p.kind) × (p.number ≡ self.now.rounds - 1) × (p.bytes ≡ length self.now.merged)) }
        ensures none { IfNone result (self.now.held ≡ None) }
    {
        self.store.picture(self.rounds.saturating_sub(1))
    }

    /// Returns how the merge ended, if it has.
    pub fn ending(&self) -> Option<Mixed>
        ensures { result ≡ self.now.end }
    {
        self.end
    }

    /// Takes the merged picture: copies its bytes to the beginning of `into`, and returns how many they are.
    ///
    /// Returns `None` and changes nothing if there is no picture, or if `into` is too short.
    pub fn take(&mut self, into: &mut [u8]) -> Option<usize>
        ensures taken { IfSome result (λ n. (n ≡ length self.old.merged) × (into.new ≡ self.old.merged ++ drop n into.old)) }
        ensures went { OnSome result (self.new ≡ record self.old { held = None; merged = [] }) }
        ensures none { IfNone result ((self.old.held ≡ None) ⊎ (length into.old < length self.old.merged)) }
        ensures kept { IfNone result ((self.new ≡ self.old) × (into.new ≡ into.old)) }
        ensures mixed { (R : Readers) (given : List Handed) (done : List Plan) → HasMixed R self.old given done → HasMixed R self.new given done }
    {
        self.store.take(into)
    }
}

/// If a mixer came to the end of a merge, then `merge` ends alike after the same rounds.
///
/// It holds however the streams were pushed. A mixer that stopped for lack of memory isn't at the end.
pub fn mixed_is_merged()
    ensures { MixedIsMerged }
{
    merge_ends_once();
}
