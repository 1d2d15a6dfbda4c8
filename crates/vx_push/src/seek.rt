//! Advancing a feed in the bytes that were pushed.
ghost use Rattle.std.specs.Prelude.{◌≡◌, ℕ, ◌+◌, ◌^◌, ◌<◌, ◌≤◌, ◌++◌, Bool, false, List, Some, None, take, IfSome, IsTrue};
ghost use Rattle.vx_annexb.specs.ByteStream.{UnitPlace};
ghost use Rattle.vx_annexb.specs.Held.{IsSought};
ghost use Rattle.vx_annexb.specs.Reading.{fed_at_once};
ghost use Rattle.vx_annexb.specs.declared.unit_reader.Closed.TheVariants as closed;
ghost use Rattle.vx_pic.specs.Readings.{Reading, Picture as StreamPicture, pictures};
ghost use Rattle.vx_pic.specs.Rules.{Readers};
ghost use Rattle.vx_pic.specs.H266.{AreOfH266};
ghost use Rattle.vx_assemble.specs.Held.{HasPicture, ShowsLatest, lent_by};
ghost use Rattle.vx_assemble.specs.Feed.{HasFed, IsOpen, IsToldBy, bytes_held, left_to_take, most_held};
ghost use Rattle.vx_push.specs.Handed.{Handed, zeros};
ghost use Rattle.vx_push.specs.declared.intake.State.TheVariants.{Picture as Holds, Waits, NoMemory};
ghost use Rattle.vx_push.specs.inner.Comes.{HasTaken, IsGoing, SeeksTo, StepsTo, StepsBehind, IsLeftAs, intaking, state_by, stopped_by};

use crate::intake::State;
use vx_assemble::{Accepted, Feed, FeedFault, Taken};

/// Advances to the next completed picture, to the end, or until the bytes show no further unit.
pub(crate) fn seek(feed: &mut Feed) -> State
    ensures comes { (R : Readers) → AreOfH266 R → (g : List ℕ) (ps : List StreamPicture) → HasTaken R feed.old g ps
        → SeeksTo R g ps feed.new result }
    ensures left { IsLeftAs feed.new result }
    ensures closed { feed.new.reader.closed ≡ feed.old.reader.closed }
    ensures grows { feed.old.units ≤ feed.new.units }
    ensures units { result ≡ Holds → feed.old.units < feed.new.units }
    ensures few { result ≡ Holds → feed.new.units ≤ 2 ^ 40 }
    ensures bytes { bytes_held feed.new ≤ most_held }
{
    loop {
        if let Some(state) = step(feed) {
            return state;
        }
    }
}

/// Takes the next unit, and returns the state after it; `None` if it completes no picture.
fn step(feed: &mut Feed) -> Option<State>
    ensures answer { (R : Readers) → AreOfH266 R → (g : List ℕ) (ps : List StreamPicture) → HasTaken R feed.old g ps
        → StepsTo R g ps feed.new result }
    ensures left { IfSome result (IsLeftAs feed.new) }
    ensures closed { feed.new.reader.closed ≡ feed.old.reader.closed }
    ensures falls { result ≡ None → left_to_take feed.new < left_to_take feed.old }
    ensures grows { feed.old.units ≤ feed.new.units }
    ensures units { result ≡ Some Holds → feed.old.units < feed.new.units }
    ensures few { result ≡ Some Holds → feed.new.units ≤ 2 ^ 40 }
    ensures bytes { bytes_held feed.new ≤ most_held }
{
    match feed.next() {
        Ok(Some(taken)) => state_of(feed, taken),
        Ok(None) => Some(State::Waits),
        Err(fault) => Some(stopped(fault, feed.unit())),
    }
}

/// Returns the state of a feed that took this; `None` for a unit that completes no picture.
fn state_of(feed: &Feed, taken: Taken) -> Option<State>
    requires { IsToldBy feed.now.assembler (Some taken) }
    ensures state { result ≡ state_by taken }
    ensures holds { result ≡ Some Holds → HasPicture feed.now.assembler }
    ensures lends { result ≡ Some Holds → (R : Readers) (g : List ℕ) (places : List UnitPlace) (before : List Reading)
        → HasFed R feed.now g places before → ShowsLatest (lent_by feed.now.assembler) (pictures before) }
{
    match taken {
        Taken::End => Some(State::Ended),
        Taken::Nal { what, .. } => match what {
            Accepted::PictureDone => {
                let _picture = feed.picture();
                Some(State::Picture)
            }
            _ => None,
        },
    }
}

/// Returns the state of a feed that stops after this many units.
fn stopped(fault: FeedFault, units: u64) -> State
    ensures { result ≡ stopped_by fault units }
{
    match fault {
        FeedFault::Refused(refusal) => State::Refused { refusal, units },
        FeedFault::Memory | FeedFault::SourceFailed | FeedFault::Stopped(_) => State::NoMemory,
    }
}

/// Pushes the three zeros after a complete unit, and advances.
pub(crate) fn give_zeros(feed: &mut Feed) -> State
    requires open { IsOpen feed.old }
    requires sought { IsSought feed.old.reader.splitter }
    ensures comes { (R : Readers) → AreOfH266 R → (g : List ℕ) (ps : List StreamPicture) → HasTaken R feed.old g ps
        → SeeksTo R (g ++ take (fed_at_once feed.old.reader.taken 3) zeros) ps feed.new result }
    ensures left { IsLeftAs feed.new result }
    ensures unended { feed.new.reader.closed ≡ Some closed.End → ⊥ }
    ensures whole { (result ≡ NoMemory → ⊥) → feed.new.reader.closed ≡ None → fed_at_once feed.old.reader.taken 3 ≡ 3 }
    ensures grows { feed.old.units ≤ feed.new.units }
    ensures units { result ≡ Holds → feed.old.units < feed.new.units }
    ensures few { result ≡ Holds → feed.new.units ≤ 2 ^ 40 }
    ensures bytes { bytes_held feed.new ≤ most_held }
{
    match feed.feed(&[0, 0, 0]) {
        Ok(_count) => seek(feed),
        Err(_error) => State::NoMemory,
    }
}

/// Declares that there are no more bytes, and advances.
pub(crate) fn give_end(feed: &mut Feed) -> State
    requires { IsOpen feed.old }
    ensures comes { (R : Readers) → AreOfH266 R → (g : List ℕ) (ps : List StreamPicture) → HasTaken R feed.old g ps
        → SeeksTo R g ps feed.new result }
    ensures left { IsLeftAs feed.new result }
    ensures stays { result ≡ Waits → ⊥ }
    ensures end { feed.new.reader.closed ≡ Some closed.End }
    ensures grows { feed.old.units ≤ feed.new.units }
    ensures units { result ≡ Holds → feed.old.units < feed.new.units }
    ensures few { result ≡ Holds → feed.new.units ≤ 2 ^ 40 }
    ensures bytes { bytes_held feed.new ≤ most_held }
{
    feed.finish();
    seek(feed)
}

/// Advances past a picture: in the bytes read, then through the zeros and the end declared after it.
pub(crate) fn go_on(feed: &mut Feed, flushed: &mut bool, ended: bool) -> State
    ensures comes { (R : Readers) → AreOfH266 R → (h : Handed) (ps : List StreamPicture) → IsGoing R (intaking feed.old Holds flushed.old ended) h ps
        → StepsBehind R (intaking feed.new result flushed.new ended) h ps result }
    ensures left { IsLeftAs feed.new result }
    ensures unflushed { result ≡ Waits → flushed.new ≡ false }
    ensures unended { result ≡ Waits → ended ≡ false }
    ensures units { result ≡ Holds → feed.old.units < feed.new.units }
    ensures few { result ≡ Holds → feed.new.units ≤ 2 ^ 40 }
    ensures bytes { bytes_held feed.new ≤ most_held }
{
    let state = seek(feed);
    if !waits(state) {
        return state;
    }
    let state = give_owed(feed, flushed);
    if !waits(state) {
        return state;
    }
    if ended {
        return give_end(feed);
    }
    State::Waits
}

/// Pushes the zeros that were declared, if they were, and advances.
fn give_owed(feed: &mut Feed, flushed: &mut bool) -> State
    requires open { IsOpen feed.old }
    requires sought { IsSought feed.old.reader.splitter }
    ensures comes { (R : Readers) → AreOfH266 R → (h : Handed) (ps : List StreamPicture) (ended : Bool)
        → StepsBehind R (intaking feed.old Waits flushed.old ended) h ps Waits
        → StepsBehind R (intaking feed.new result flushed.new ended) h ps result }
    ensures left { IsLeftAs feed.new result }
    ensures unflushed { flushed.new ≡ false }
    ensures grows { feed.old.units ≤ feed.new.units }
    ensures units { result ≡ Holds → feed.old.units < feed.new.units }
    ensures few { result ≡ Holds → feed.new.units ≤ 2 ^ 40 }
    ensures bytes { bytes_held feed.old ≤ most_held → bytes_held feed.new ≤ most_held }
{
    if !*flushed {
        return State::Waits;
    }
    *flushed = false;
    give_zeros(feed)
}

/// Returns whether it is the state of an intake that waits.
pub(crate) fn waits(state: State) -> bool
    ensures yes { IsTrue result → state ≡ Waits }
    ensures no { ¬ IsTrue result → state ≡ Waits → ⊥ }
{
    matches!(state, State::Waits)
}
