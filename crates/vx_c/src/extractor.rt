//! The extractor of the C library, to which bytes are pushed as they arrive.
ghost use Rattle.std.specs.Prelude.{◌≡◌, Some, None, IfOk, IfSome, IfNone};
ghost use Rattle.vx_push.specs.Comes.{with_end, with_zeros};
ghost use Rattle.vx_push.specs.Cutting.{Cutting};
ghost use Rattle.vx_c.specs.Call.{Calls, Opens, TellsLine, TellsNone};
ghost use Rattle.vx_c.specs.Extractor.{IsFresh, IsTask, HandsOver, Pushes, Advances, TakesPicture, stop_in, task_of};
ghost use Rattle.vx_c.specs.declared.state.State.TheVariants.{Extractor};

use crate::handle::{Handle, call_on, open_with};
use crate::line::tell;
use crate::merger::level_in;
use crate::picture::{GqPicture, told};
use crate::state::State;
use crate::status::{DONE, ENDED, MISUSED, NO_MEMORY, WAITS, status_of, took};
use std::alloc::{AllocError, Global};
use vx_push::{Cut, Cutter};
use vx_run::Task;

/// The highest index of a subpicture, and the highest TemporalId.
const MOST_INDEX: u32 = 999;

const MOST_TID: u8 = 6;

/// Makes an extractor in a box; `None` if a number is out of its range.
fn opened(alloc: Global, index: u32, tid: u8, level: u8) -> Result<Option<Box<State>>, AllocError>
    ensures made { IfOk result (λ made. IfSome made (λ state. IsTask index tid
        × ((c : Cutting) × (state.value ≡ Extractor c) × IsFresh c (task_of index tid level)))) }
    ensures none { IfOk result (λ made. IfNone made (¬ IsTask index tid)) }
{
    if index > MOST_INDEX {
        return Ok(None);
    }
    if tid > MOST_TID {
        return Ok(None);
    }
    let task = Task {
        target: index,
        level: level_in(level),
        tid,
    };
    let cutter = Cutter::new(alloc, task)?;
    Ok(Some(Box::new(alloc, State::Extractor(cutter))?))
}

/// Pushes the next bytes.
fn push(cutter: &mut Cutter, bytes: &[u8], taken: &mut usize) -> u8
    ensures { Pushes cutter.old cutter.new bytes.now taken.new result }
{
    *taken = cutter.push(bytes);
    DONE
}

/// Declares the last unit pushed complete.
fn flush(cutter: &mut Cutter) -> u8
    ensures { HandsOver cutter.old cutter.new (with_zeros cutter.old.intake) result }
{
    cutter.flush();
    DONE
}

/// Declares that there are no more bytes.
fn end(cutter: &mut Cutter) -> u8
    ensures { HandsOver cutter.old cutter.new with_end result }
{
    cutter.end();
    DONE
}

/// Advances as far as the bytes allow.
fn advance(cutter: &mut Cutter, picture: &mut GqPicture) -> u8
    ensures { Advances cutter.old cutter.new picture.old picture.new result }
{
    match cutter.next() {
        Cut::Picture => {
            if let Some(cut) = cutter.picture() {
                *picture = told(cut.number, cut.bytes, cut.kind);
            }
            DONE
        }
        Cut::Waits => WAITS,
        Cut::Ended => ENDED,
        Cut::Stopped(stop) => status_of(stop),
    }
}

/// Copies the picture that is to be taken, and gives it up.
fn take(cutter: &mut Cutter, into: &mut [u8]) -> u8
    ensures { TakesPicture cutter.old cutter.new into.old into.new result }
{
    if cutter.picture().is_none() {
        return MISUSED;
    }
    took(cutter.take(into))
}

/// Writes the line that says why it stopped, and returns its length; 0 if it isn't stopped.
fn line(alloc: Global, cutter: &Cutter, into: &mut [u8]) -> usize
    ensures { TellsLine (stop_in cutter.now.end) into.old into.new result }
{
    match cutter.ending() {
        Some(Cut::Stopped(stop)) => tell(alloc, stop, into),
        _ => 0,
    }
}

/// Opens an extractor of subpicture `index` of the pictures with a TemporalId of at most `temporal_id`.
///
/// `index` is at most 999, `temporal_id` at most 6. `level` is the level to write; 0 keeps the source's. Returns `MISUSED` if the handle
/// is open, which it stays, or if a number is out of its range, and `NO_MEMORY`; in both of these last cases the handle stays closed.
#[unsafe(no_mangle)]
pub extern "C" fn gq_extractor_open(
    alloc: Global,
    handle: &mut Handle,
    index: u32,
    temporal_id: u8,
    level: u8,
) -> u8
    ensures { Opens Extractor handle.old.state handle.new.state (IsTask index temporal_id)
        (λ c. IsFresh c (task_of index temporal_id level)) result }
{
    open_with!(handle, alloc, opened(alloc, index, temporal_id, level))
}

/// Pushes the next bytes, and sets `taken` to how many of them were taken.
///
/// Returns `MISUSED` if the handle isn't that of an extractor; `taken` is then 0.
#[unsafe(no_mangle)]
pub extern "C" fn gq_extractor_push(
    alloc: Global,
    handle: &mut Handle,
    bytes: &[u8],
    taken: &mut usize,
) -> u8
    ensures call { Calls Extractor handle.old.state handle.new.state result
        (λ c later. Pushes c later bytes.now taken.new result) }
    ensures none { ((c : Cutting) → handle.old.state ≡ Some (Extractor c) → ⊥) → taken.new ≡ 0 }
{
    *taken = 0;
    call_on!(
        handle,
        alloc,
        Extractor,
        MISUSED,
        |cutter| push(cutter, bytes, taken)
    )
}

/// Declares the last unit pushed complete.
///
/// Returns `MISUSED` if the handle isn't that of an extractor; nothing changes.
#[unsafe(no_mangle)]
pub extern "C" fn gq_extractor_flush(alloc: Global, handle: &mut Handle) -> u8
    ensures { Calls Extractor handle.old.state handle.new.state result
        (λ c later. HandsOver c later (with_zeros c.intake) result) }
{
    call_on!(handle, alloc, Extractor, MISUSED, |cutter| flush(cutter))
}

/// Declares that there are no more bytes.
///
/// Returns `MISUSED` if the handle isn't that of an extractor; nothing changes.
#[unsafe(no_mangle)]
pub extern "C" fn gq_extractor_end(alloc: Global, handle: &mut Handle) -> u8
    ensures { Calls Extractor handle.old.state handle.new.state result
        (λ c later. HandsOver c later with_end result) }
{
    call_on!(handle, alloc, Extractor, MISUSED, |cutter| end(cutter))
}

/// Advances as far as the bytes allow.
///
/// - `DONE`: a picture is to be taken, and `picture` describes it.
/// - `WAITS`: bytes are needed.
/// - `ENDED`: there are no more pictures.
/// - `REFUSED`: a rule is broken.
/// - `NO_MEMORY`: there is no memory.
/// - `MISUSED`: the handle isn't that of an extractor.
///
/// Only `DONE` changes `picture`.
#[unsafe(no_mangle)]
pub extern "C" fn gq_extractor_next(
    alloc: Global,
    handle: &mut Handle,
    picture: &mut GqPicture,
) -> u8
    ensures call { Calls Extractor handle.old.state handle.new.state result (λ c later. Advances c later picture.old picture.new result) }
    ensures none { ((c : Cutting) → handle.old.state ≡ Some (Extractor c) → ⊥) → picture.new ≡ picture.old }
{
    call_on!(
        handle,
        alloc,
        Extractor,
        MISUSED,
        |cutter| advance(cutter, picture)
    )
}

/// Copies the picture that is to be taken to the beginning of `into`, and gives it up.
///
/// Returns `NO_ROOM` if `into` is too short, and `MISUSED` if there is no picture or the handle isn't that of an extractor; `into` is
/// then unchanged, and a picture stays.
#[unsafe(no_mangle)]
pub extern "C" fn gq_extractor_take(alloc: Global, handle: &mut Handle, into: &mut [u8]) -> u8
    ensures call { Calls Extractor handle.old.state handle.new.state result (λ c later. TakesPicture c later into.old into.new result) }
    ensures none { ((c : Cutting) → handle.old.state ≡ Some (Extractor c) → ⊥) → into.new ≡ into.old }
{
    call_on!(
        handle,
        alloc,
        Extractor,
        MISUSED,
        |cutter| take(cutter, into)
    )
}

/// Writes the line that says why it stopped to `into`, and returns the line's length.
///
/// The line is cut to the length of `into`. Returns 0 if the extractor isn't stopped, if there is no memory for the line, or if the
/// handle isn't that of an extractor.
#[unsafe(no_mangle)]
pub extern "C" fn gq_extractor_line(alloc: Global, handle: &mut Handle, into: &mut [u8]) -> usize
    ensures kept { handle.new.state ≡ handle.old.state }
    ensures line { (c : Cutting) → handle.old.state ≡ Some (Extractor c) → TellsLine (stop_in c.end) into.old into.new result }
    ensures none { ((c : Cutting) → handle.old.state ≡ Some (Extractor c) → ⊥) → TellsNone into.old into.new result }
{
    call_on!(
        handle,
        alloc,
        Extractor,
        0,
        |cutter| line(alloc, cutter, into)
    )
}

/// Frees all that the handle holds, and closes it.
#[unsafe(no_mangle)]
pub extern "C" fn gq_extractor_close(alloc: Global, handle: &mut Handle)
    ensures { handle.new.state ≡ None }
{
    drop(handle.take(alloc));
}
