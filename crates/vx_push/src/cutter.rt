//! An extraction from a source whose bytes are pushed as they arrive.
ghost use Rattle.std.specs.Prelude.{◌≡◌, List, cond, nat_le, Some, None, Ok, Err, IfErr, OnOk};
ghost use Rattle.vx_pic.specs.Written.{Plan};
ghost use Rattle.vx_extract.specs.Extracting.{Stands, SameTask};
ghost use Rattle.vx_push.specs.declared.intake.State.TheVariants.{Picture as AtPicture};
ghost use Rattle.vx_push.specs.inner.Cutting.{EndsBehind, HaltsBy, Cuts, stop_by, end_by};

use crate::intake::{Intake, State};
use crate::store::{Store, WrittenPicture};
use std::alloc::{AllocError, Global};
use std::marker::Model;
use vx_extract::{Extractor, WriteError};
use vx_io::GrowSink;
use vx_pic::{Kind, Picture};
use vx_run::{Place, Stop, Task, pictures_have_slices, some_picture};

/// The state of a cutter.
#[derive(Clone, Copy, PartialEq, Eq)]
pub enum Cut {
    /// An extracted picture is to be taken.
    Picture,
    /// The source needs bytes.
    Waits,
    /// The source has ended, and there are no more pictures.
    Ended,
    /// The extraction is stopped, and there are no more pictures.
    Stopped(Stop),
}

/// Extracts a subpicture of a byte stream that is pushed as it arrives.
///
/// It holds at most one picture of output, until that is taken. It writes what `extract` writes of the same stream. After the end, a
/// refusal or lack of memory [`next`](Cutter::next) returns that again. No clause says that `flush` and `end` keep a picture that is
/// held.
pub struct Cutter {
    alloc: Global,
    intake: Intake,
    extractor: Extractor,
    tid: u8,
    // How many pictures of the source were written or left out.
    pictures: u64,
    // The latest of them, until it is taken.
    store: Store,
    // How the extraction ended, once it has.
    end: Option<Cut>,
}

impl Drop for Cutter {
    fn drop(self) {
        let Cutter {
            alloc: _,
            intake: _,
            extractor: _,
            tid: _,
            pictures: _,
            store: _,
            end: _,
        } = self;
    }
}

impl Model for Cutter {
    ghost use Rattle.std.specs.Prelude.{◌≡◌};
    ghost use Rattle.vx_push.specs.Cutting.{Cutting};

    ghost Value = { Cutting };

    ghost view = { λ c. record { intake = c.intake; extractor = c.extractor; pictures = c.pictures; cut = c.store.written.taken; held = c.store.held; end = c.end } };

    ghost invariant = { λ c. c.tid ≡ c.extractor.tid };
}

/// Returns the end of a source that has ended after `pictures` pictures: without pictures it is refused (E1).
fn end_behind(pictures: u64) -> Cut
    ensures { EndsBehind pictures result }
{
    match some_picture(pictures) {
        Ok(()) => Cut::Ended,
        Err(stop) => Cut::Stopped(stop),
    }
}

/// Checks that the intake holds a picture; the error is what keeps it from being written. `pictures` is the number of pictures before.
fn look(intake: &Intake, pictures: u64) -> Result<(), Cut>
    ensures holds { OnOk result (intake.now.state ≡ AtPicture) }
    ensures halts { IfErr result (HaltsBy intake.now.state pictures) }
{
    match intake.state() {
        State::Picture => Ok(()),
        State::Waits => Err(Cut::Waits),
        State::Ended => Err(end_behind(pictures)),
        State::Refused { refusal, units } => {
            let place = Place::Unit {
                source: 0,
                unit: units,
            };
            Err(Cut::Stopped(Stop::Refused { refusal, place }))
        }
        State::NoMemory => Err(Cut::Stopped(Stop::NoMemory)),
    }
}

/// Returns why a cutter stops if picture `n` isn't written. A sink in memory fails only for lack of it.
fn stop_of_cut(error: WriteError, n: u64) -> Stop
    ensures { result ≡ stop_by error n }
{
    match error {
        WriteError::SinkFailed => Stop::NoMemory,
        _ => Stop::of_write(error, n),
    }
}

/// Returns the kind of a picture that is kept: its TemporalId is at most `tid`.
fn kept_kind(kind: Kind, tid: u8) -> Option<Kind>
    ensures { result ≡ cond (nat_le kind.temporal_id tid) (Some kind) None }
{
    if kind.temporal_id <= tid {
        Some(kind)
    } else {
        None
    }
}

/// Writes the subpicture of `picture` and returns the picture's kind, or leaves it out. `pictures` is the number of pictures before.
fn cut_picture(
    alloc: Global,
    extractor: &mut Extractor,
    tid: u8,
    picture: &Picture<'_>,
    pictures: u64,
    cut: &mut GrowSink,
) -> Result<Option<Kind>, Cut>
    requires { tid ≡ extractor.old.tid }
    ensures cuts { (done : List Plan) → Stands extractor.old done → Cuts picture.now done extractor.new cut.new.taken pictures result }
    ensures task { SameTask extractor.old extractor.new }
{
    *cut = GrowSink::new(alloc);
    match extractor.picture(picture, cut) {
        Ok(()) => Ok(kept_kind(picture.kind(), tid)),
        Err(error) => Err(Cut::Stopped(stop_of_cut(error, pictures))),
    }
}

/// Returns the end, if it is one.
fn end_of(cut: Cut) -> Option<Cut>
    ensures { result ≡ end_by cut }
{
    match cut {
        Cut::Picture | Cut::Waits => None,
        Cut::Ended | Cut::Stopped(_) => Some(cut),
    }
}

impl Cutter {
    ghost use Rattle.std.specs.Prelude.{◌≡◌, ◌⊎◌, ◌+◌, ◌-◌, ◌<◌, ◌≤◌, ◌++◌, true, List, [], length, take, drop, Some, None, Ok, Err, IfOk, IfSome, OnSome, IfNone};
    ghost use Rattle.vx_pic.specs.Readings.{Picture as StreamPicture};
    ghost use Rattle.vx_pic.specs.Rules.{Readers};
    ghost use Rattle.vx_pic.specs.H266.{AreOfH266};
    ghost use Rattle.vx_pic.specs.declared.kind.Kind.{Kind as KindOf};
    ghost use Rattle.vx_pic.specs.Written.{Plan};
    ghost use Rattle.vx_run.specs.declared.extract.Task.{Task as Asked};
    ghost use Rattle.vx_push.specs.Comes.{Handed, nothing, with_more, with_zeros, with_end, taken_at_once};
    ghost use Rattle.vx_push.specs.declared.cutter.Cut.{Cut as Answer};
    ghost use Rattle.vx_push.specs.declared.cutter.Cut.TheVariants.{Picture as ToPicture};
    ghost use Rattle.vx_push.specs.declared.intake.State.TheVariants.{Waits as AtWait, NoMemory as AtNoMemory};
    ghost use Rattle.vx_push.specs.Cutting.{HasCut, Answers};
    ghost use Rattle.vx_push.specs.inner.Cutting.{StepsTo, units_left};

    /// Makes a cutter for this task.
    pub fn new(alloc: Global, task: Task) -> Result<Cutter, AllocError>
        requires { task.tid ≤ 6 }
        ensures cut { IfOk result (λ c. (R : Readers) → HasCut R task c nothing [] []) }
        ensures none { IfOk result (λ c. (c.held ≡ None) × (c.end ≡ None)) }
    {
        let intake = Intake::new(alloc)?;
        Ok(Cutter {
            alloc,
            intake,
            extractor: Extractor::limited(alloc, task.target, task.level, task.tid),
            tid: task.tid,
            pictures: 0,
            store: Store::new(alloc),
            end: None,
        })
    }

    /// Pushes a prefix of `piece`, at most 65,536 bytes, and returns its length.
    ///
    /// Returns 0 while a picture is held that isn't written yet, and after the end, a refusal or lack of memory.
    pub fn push(&mut self, piece: &[u8]) -> usize
        ensures cut { (R : Readers) → AreOfH266 R → (t : Asked) (h : Handed) (ps : List StreamPicture) (done : List Plan)
            → HasCut R t self.old h ps done → HasCut R t self.new (with_more h (take result piece.now)) ps done }
        ensures count { self.old.intake.state ≡ AtWait
            → (result ≡ taken_at_once self.old.intake (length piece.now)) ⊎ ((result ≡ 0) × (self.new.intake.state ≡ AtNoMemory)) }
        ensures within { result ≤ length piece.now }
        ensures kept { (self.old.intake.state ≡ AtWait → ⊥) → (result ≡ 0) × (self.new ≡ self.old) }
        ensures ended { (R : Readers) (t : Asked) (h : Handed) (ps : List StreamPicture) (done : List Plan)
            → HasCut R t self.old h ps done → h.all ≡ true → result ≡ 0 }
    {
        self.intake.push(piece)
    }

    /// Declares the last unit pushed complete, as [`Intake::flush`] does.
    pub fn flush(&mut self)
        ensures cut { (R : Readers) → AreOfH266 R → (t : Asked) (h : Handed) (ps : List StreamPicture) (done : List Plan)
            → HasCut R t self.old h ps done
            → HasCut R t self.new (with_zeros self.old.intake h) ps done }
    {
        self.intake.flush();
    }

    /// Declares that there are no more bytes, as [`Intake::end`] does.
    pub fn end(&mut self)
        ensures cut { (R : Readers) → AreOfH266 R → (t : Asked) (h : Handed) (ps : List StreamPicture) (done : List Plan)
            → HasCut R t self.old h ps done → HasCut R t self.new (with_end h) ps done }
    {
        self.intake.end();
    }

    /// Writes the next picture and returns its kind if it is kept; otherwise leaves it out.
    fn step(&mut self) -> Result<Option<Kind>, Cut>
        ensures answer { self.old.held ≡ None → self.old.end ≡ None → (R : Readers) → AreOfH266 R → (t : Asked) (h : Handed)
            (ps : List StreamPicture) (done : List Plan) → HasCut R t self.old h ps done → StepsTo R t self.new h ps done result }
        ensures held { self.new.held ≡ self.old.held }
        ensures going { self.new.end ≡ self.old.end }
        ensures falls { result ≡ Ok None → units_left self.new.intake < units_left self.old.intake }
    {
        pictures_have_slices();
        look(&self.intake, self.pictures)?;
        let kept = cut_picture(
            self.alloc,
            &mut self.extractor,
            self.tid,
            &self.intake.picture(),
            self.pictures,
            &mut self.store.written,
        )?;
        self.pictures = self.pictures.saturating_add(1);
        self.intake.pass();
        Ok(kept)
    }

    /// Advances to the next picture that is kept.
    ///
    /// Returns [`Cut::Picture`] until that picture is taken; [`Cut::Waits`] if bytes are needed; [`Cut::Ended`] or [`Cut::Stopped`] at
    /// the end, and from then on.
    pub fn next(&mut self) -> Cut
        ensures answer { self.old.held ≡ None → self.old.end ≡ None → (R : Readers) → AreOfH266 R → (t : Asked) (h : Handed)
            (ps : List StreamPicture) (done : List Plan) → HasCut R t self.old h ps done → Answers R t self.new h ps done result }
        ensures held { (kind : KindOf) → self.old.held ≡ Some kind → (result ≡ ToPicture) × (self.new ≡ self.old) }
        ensures ended { (end : Answer) → self.old.held ≡ None → self.old.end ≡ Some end → (result ≡ end) × (self.new ≡ self.old) }
    {
        if self.store.held.is_some() {
            return Cut::Picture;
        }
        if let Some(end) = self.end {
            return end;
        }
        loop {
            match self.step() {
                Ok(None) => {}
                Ok(Some(kind)) => {
                    self.store.held = Some(kind);
                    return Cut::Picture;
                }
                Err(cut) => {
                    self.end = end_of(cut);
                    return cut;
                }
            }
        }
    }

    /// Returns the picture that is to be taken.
    pub fn picture(&self) -> Option<WrittenPicture>
        ensures some { IfSome result (λ p. (self.now.held ≡ Some p.kind) × (p.number ≡ self.now.pictures - 1) × (p.bytes ≡ length self.now.cut)) }
        ensures none { IfNone result (self.now.held ≡ None) }
    {
        self.store.picture(self.pictures.saturating_sub(1))
    }

    /// Returns how the extraction ended, if it has.
    pub fn ending(&self) -> Option<Cut>
        ensures { result ≡ self.now.end }
    {
        self.end
    }

    /// Takes the picture: copies its bytes to the beginning of `into`, and returns how many they are.
    ///
    /// Returns `None` and changes nothing if there is no picture, or if `into` is too short.
    pub fn take(&mut self, into: &mut [u8]) -> Option<usize>
        ensures taken { IfSome result (λ n. (n ≡ length self.old.cut) × (into.new ≡ self.old.cut ++ drop n into.old)) }
        ensures went { OnSome result (self.new ≡ record self.old { held = None; cut = [] }) }
        ensures none { IfNone result ((self.old.held ≡ None) ⊎ (length into.old < length self.old.cut)) }
        ensures kept { IfNone result ((self.new ≡ self.old) × (into.new ≡ into.old)) }
        ensures cut { (R : Readers) (t : Asked) (h : Handed) (ps : List StreamPicture) (done : List Plan) → HasCut R t self.old h ps done
            → HasCut R t self.new h ps done }
    {
        self.store.take(into)
    }
}
