//! The merger of the C library, to which bytes are pushed as they arrive.
ghost use Rattle.std.specs.Prelude.{◌≡◌, Some, None, map, IfOk, IfErr, IfSome, IfNone};
ghost use Rattle.vx_frame.specs.Corners.{AreCorners};
ghost use Rattle.vx_push.specs.Comes.{with_end, with_zeros};
ghost use Rattle.vx_push.specs.Mixing.{Mixing};
ghost use Rattle.vx_c.specs.Call.{Calls, Opens, TellsLine, TellsNone};
ghost use Rattle.vx_c.specs.Merger.{corner_of, level_of, IsFresh, HandsOver, Pushes, Advances, TakesPicture, stop_in};
ghost use Rattle.vx_c.specs.declared.state.State.TheVariants.{Merger};

use crate::corners::{GqCorner, corners_in};
use crate::handle::{Handle, call_on, open_with};
use crate::line::tell;
use crate::picture::{GqPicture, told};
use crate::state::State;
use crate::status::{DONE, ENDED, MISUSED, NO_MEMORY, WAITS, status_of, took};
use std::alloc::{AllocError, Global};
use vx_push::{Mixed, Mixer, NoSource, are_corners};

/// Returns the level to write; 0 means that of the sources.
pub(crate) fn level_in(level: u8) -> Option<u8>
    ensures { result ≡ level_of level }
{
    if level == 0 { None } else { Some(level) }
}

/// Makes a merger in a box; `None` for corners that can't be.
fn opened(alloc: Global, corners: &[GqCorner], level: u8) -> Result<Option<Box<State>>, AllocError>
    ensures made { IfOk result (λ made. IfSome made (λ state. AreCorners (map corner_of corners.now)
        × ((m : Mixing) × (state.value ≡ Merger m) × IsFresh m (map corner_of corners.now) (level_of level)))) }
    ensures none { IfOk result (λ made. IfNone made (¬ AreCorners (map corner_of corners.now))) }
{
    let corners = corners_in(alloc, corners)?;
    if !are_corners(&corners) {
        return Ok(None);
    }
    let mixer = Mixer::new(alloc, &corners, level_in(level))?;
    Ok(Some(Box::new(alloc, State::Merger(mixer))?))
}

/// Pushes the next bytes of a source.
fn push(mixer: &mut Mixer, source: usize, bytes: &[u8], taken: &mut usize) -> u8
    ensures { Pushes mixer.old mixer.new source bytes.now taken.new result }
{
    match mixer.push(source, bytes) {
        Ok(count) => {
            *taken = count;
            DONE
        }
        Err(_) => {
            *taken = 0;
            MISUSED
        }
    }
}

/// Returns the status of a call on a source: `MISUSED` if there is no such source.
fn handed_in(handed: Result<(), NoSource>) -> u8
    ensures done { IfOk handed (λ _. result ≡ DONE) }
    ensures misused { IfErr handed (λ _. result ≡ MISUSED) }
{
    match handed {
        Ok(()) => DONE,
        Err(_) => MISUSED,
    }
}

/// Advances as far as the bytes allow.
fn advance(mixer: &mut Mixer, source: &mut usize, picture: &mut GqPicture) -> u8
    ensures { Advances mixer.old mixer.new source.old source.new picture.old picture.new result }
{
    match mixer.next() {
        Mixed::Picture => {
            if let Some(merged) = mixer.picture() {
                *picture = told(merged.number, merged.bytes, merged.kind);
            }
            DONE
        }
        Mixed::Waits(k) => {
            *source = usize::from(k);
            WAITS
        }
        Mixed::Ended => ENDED,
        Mixed::Stopped(stop) => status_of(stop),
    }
}

/// Copies the picture that is to be taken, and gives it up.
fn take(mixer: &mut Mixer, into: &mut [u8]) -> u8
    ensures { TakesPicture mixer.old mixer.new into.old into.new result }
{
    if mixer.picture().is_none() {
        return MISUSED;
    }
    took(mixer.take(into))
}

/// Writes the line that says why it stopped, and returns its length; 0 if it isn't stopped.
fn line(alloc: Global, mixer: &Mixer, into: &mut [u8]) -> usize
    ensures { TellsLine (stop_in mixer.now.end) into.old into.new result }
{
    match mixer.ending() {
        Some(Mixed::Stopped(stop)) => tell(alloc, stop, into),
        _ => 0,
    }
}

/// Opens a merger of one source for each corner, the upper left corner of its region in luma samples.
///
/// There are 1 to 64 corners, with coordinates below 16,384. `level` is the level to write; 0 means the highest of the sources'. Returns
/// `MISUSED` if the handle is open, which it stays, or if the corners can't be, and `NO_MEMORY`; in both of these last cases the handle
/// stays closed.
#[unsafe(no_mangle)]
pub extern "C" fn gq_merger_open(
    alloc: Global,
    handle: &mut Handle,
    corners: &[GqCorner],
    level: u8,
) -> u8
    ensures { Opens Merger handle.old.state handle.new.state (AreCorners (map corner_of corners.now))
        (λ m. IsFresh m (map corner_of corners.now) (level_of level)) result }
{
    open_with!(handle, alloc, opened(alloc, corners, level))
}

/// Pushes the next bytes of a source, and sets `taken` to how many of them were taken.
///
/// Returns `MISUSED` if the handle isn't that of a merger or there is no such source; `taken` is then 0.
#[unsafe(no_mangle)]
pub extern "C" fn gq_merger_push(
    alloc: Global,
    handle: &mut Handle,
    source: usize,
    bytes: &[u8],
    taken: &mut usize,
) -> u8
    ensures call { Calls Merger handle.old.state handle.new.state result (λ m later. Pushes m later source bytes.now taken.new result) }
    ensures none { ((m : Mixing) → handle.old.state ≡ Some (Merger m) → ⊥) → taken.new ≡ 0 }
{
    *taken = 0;
    call_on!(
        handle,
        alloc,
        Merger,
        MISUSED,
        |mixer| push(mixer, source, bytes, taken)
    )
}

/// Declares the last unit pushed to a source complete.
///
/// Returns `MISUSED` if the handle isn't that of a merger or there is no such source; nothing changes.
#[unsafe(no_mangle)]
pub extern "C" fn gq_merger_flush(alloc: Global, handle: &mut Handle, source: usize) -> u8
    ensures { Calls Merger handle.old.state handle.new.state result (λ m later. HandsOver m later source with_zeros result) }
{
    call_on!(
        handle,
        alloc,
        Merger,
        MISUSED,
        |mixer| handed_in(mixer.flush(source))
    )
}

/// Declares that a source has no more bytes.
///
/// Returns `MISUSED` if the handle isn't that of a merger or there is no such source; nothing changes.
#[unsafe(no_mangle)]
pub extern "C" fn gq_merger_end(alloc: Global, handle: &mut Handle, source: usize) -> u8
    ensures { Calls Merger handle.old.state handle.new.state result (λ m later. HandsOver m later source (λ i h. with_end h) result) }
{
    call_on!(
        handle,
        alloc,
        Merger,
        MISUSED,
        |mixer| handed_in(mixer.end(source))
    )
}

/// Advances as far as the bytes allow.
///
/// - `DONE`: a picture is to be taken, and `picture` describes it.
/// - `WAITS`: bytes of source `source` are needed.
/// - `ENDED`: there are no more pictures.
/// - `REFUSED`: a rule is broken.
/// - `NO_MEMORY`: there is no memory.
/// - `MISUSED`: the handle isn't that of a merger.
///
/// Only `DONE` changes `picture`, and only `WAITS` changes `source`.
#[unsafe(no_mangle)]
pub extern "C" fn gq_merger_next(
    alloc: Global,
    handle: &mut Handle,
    source: &mut usize,
    picture: &mut GqPicture,
) -> u8
    ensures call { Calls Merger handle.old.state handle.new.state result
        (λ m later. Advances m later source.old source.new picture.old picture.new result) }
    ensures none { ((m : Mixing) → handle.old.state ≡ Some (Merger m) → ⊥) → (source.new ≡ source.old) × (picture.new ≡ picture.old) }
{
    call_on!(
        handle,
        alloc,
        Merger,
        MISUSED,
        |mixer| advance(mixer, source, picture)
    )
}

/// Copies the picture that is to be taken to the beginning of `into`, and gives it up.
///
/// Returns `NO_ROOM` if `into` is too short, and `MISUSED` if there is no picture or the handle isn't that of a merger; `into` is then
/// unchanged, and a picture stays.
#[unsafe(no_mangle)]
pub extern "C" fn gq_merger_take(alloc: Global, handle: &mut Handle, into: &mut [u8]) -> u8
    ensures call { Calls Merger handle.old.state handle.new.state result (λ m later. TakesPicture m later into.old into.new result) }
    ensures none { ((m : Mixing) → handle.old.state ≡ Some (Merger m) → ⊥) → into.new ≡ into.old }
{
    call_on!(handle, alloc, Merger, MISUSED, |mixer| take(mixer, into))
}

/// Writes the line that says why it stopped to `into`, and returns the line's length.
///
/// The line is cut to the length of `into`. Returns 0 if the merger isn't stopped, if there is no memory for the line, or if the handle
/// isn't that of a merger.
#[unsafe(no_mangle)]
pub extern "C" fn gq_merger_line(alloc: Global, handle: &mut Handle, into: &mut [u8]) -> usize
    ensures kept { handle.new.state ≡ handle.old.state }
    ensures line { (m : Mixing) → handle.old.state ≡ Some (Merger m) → TellsLine (stop_in m.end) into.old into.new result }
    ensures none { ((m : Mixing) → handle.old.state ≡ Some (Merger m) → ⊥) → TellsNone into.old into.new result }
{
    call_on!(handle, alloc, Merger, 0, |mixer| line(alloc, mixer, into))
}

/// Frees all that the handle holds, a merger or an extractor, and closes it.
#[unsafe(no_mangle)]
pub extern "C" fn gq_merger_close(alloc: Global, handle: &mut Handle)
    ensures { handle.new.state ≡ None }
{
    drop(handle.take(alloc));
}
