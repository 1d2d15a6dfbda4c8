//! The program's commands over streams in memory.
ghost use Rattle.std.specs.Prelude.{◌≡◌, ◌≢◌, ◌≤◌, ◌⊎◌, ◌↔◌, [], length, take, IfOk, IfSome, IfNone};
ghost use Rattle.std.specs.List.{sum};
ghost use Rattle.vx_io.specs.Memory.{fresh_plan};
ghost use Rattle.vx_run.specs.Grammar.{IsUnderstood, NamesFiles};
ghost use Rattle.vx_c.specs.InMemory.{IsMisused, TellsWhy};
ghost use Rattle.vx_c.specs.InMemory as caller;

use crate::memory::{put, sources_in, words_in};
use crate::status::{MISUSED, NO_MEMORY};
use std::alloc::{AllocError, Global};
use vx_io::{MemorySink, Source};
use vx_run::{file_count, run, status_2_is_exact};

/// The status of a run, and what it wrote.
#[derive(Drop)]
struct Ran {
    status: u8,
    out: MemorySink,
    err: MemorySink,
}

/// Makes a sink in memory with `room` bytes of room.
fn sink(alloc: Global, room: usize) -> Result<MemorySink, AllocError>
    ensures { IfOk result (λ made. made ≡ record { taken = []; room = room; plan = fresh_plan [] [] }) }
{
    MemorySink::new(alloc, room, Vec::new(alloc), Vec::new(alloc))
}

/// Runs the command over the streams; `None` if the arguments are misused.
#[tactic(auto, using(crate::proofs::Streams::sized, crate::proofs::Streams::unlike))]
fn run_in_memory(
    alloc: Global,
    words: &[u8],
    bytes: &[u8],
    lengths: &[usize],
    out_room: usize,
    err_room: usize,
) -> Result<Option<Ran>, AllocError>
    ensures words { IfOk result (λ all. IfSome all (λ ran. (ran.status ≡ 2) ↔ ¬ IsUnderstood (caller.words_in words.now))) }
    ensures files { IfOk result (λ all. IfSome all (λ ran. NamesFiles (caller.words_in words.now) (length lengths.now))) }
    ensures lengths { IfOk result (λ all. IfSome all (λ ran. sum lengths.now ≡ length bytes.now)) }
    ensures tells { IfOk result (λ all. IfSome all (λ ran. TellsWhy ran.status ran.err.taken)) }
    ensures none { IfOk result (λ all. IfNone all (IsMisused words.now bytes.now lengths.now)) }
{
    let Some(words) = words_in(alloc, words)? else {
        return Ok(None);
    };
    if file_count(&words) != lengths.len() {
        return Ok(None);
    }
    let Some(streams) = sources_in(alloc, bytes, lengths)? else {
        return Ok(None);
    };
    let mut sources: Vec<Box<dyn Source>> = Vec::new(alloc);
    for stream in streams {
        sources.push(Box::new(alloc, stream)?)?;
    }
    let mut out = sink(alloc, out_room)?;
    let mut err = sink(alloc, err_room)?;
    let status = run(alloc, &words, &mut sources, &mut out, &mut err);
    status_2_is_exact::<Box<dyn Source>, MemorySink, MemorySink>();
    Ok(Some(Ran { status, out, err }))
}

/// Runs one of the program's commands on streams in memory. `err` receives the status line, `out` the output.
///
/// Never writes past the room given. `MISUSED` is returned only in the following cases; then always, except for lack of memory:
///
/// - the arguments aren't valid UTF-8 or aren't understood,
/// - the streams aren't as many as the arguments name,
/// - the lengths don't add up to the bytes.
///
/// The contract covers the status line and all lengths, not the content of `out`: that is `run`'s contract, which can't be restated here
/// because the sources are boxed.
#[tactic(auto, using(crate::proofs::Telling::why_misused, crate::proofs::Telling::why_no_memory))]
#[unsafe(no_mangle)]
pub extern "C" fn gq_run(
    alloc: Global,
    words: &[u8],
    bytes: &[u8],
    lengths: &[usize],
    out: &mut [u8],
    written: &mut usize,
    err: &mut [u8],
    told: &mut usize,
) -> u8
    ensures written { written.new ≤ length out.old }
    ensures told { told.new ≤ length err.old }
    ensures words { ¬ IsUnderstood (caller.words_in words.now) → (result ≡ MISUSED) ⊎ (result ≡ NO_MEMORY) }
    ensures files { ¬ NamesFiles (caller.words_in words.now) (length lengths.now) → (result ≡ MISUSED) ⊎ (result ≡ NO_MEMORY) }
    ensures lengths { sum lengths.now ≢ length bytes.now → (result ≡ MISUSED) ⊎ (result ≡ NO_MEMORY) }
    ensures misused { result ≡ MISUSED → IsMisused words.now bytes.now lengths.now }
    ensures tells { TellsWhy result (take told.new err.new) }
{
    *written = 0;
    *told = 0;
    match run_in_memory(alloc, words, bytes, lengths, out.len(), err.len()) {
        Ok(Some(ran)) => {
            *written = put(ran.out.bytes(), out);
            *told = put(ran.err.bytes(), err);
            ran.status
        }
        Ok(None) => MISUSED,
        Err(_) => NO_MEMORY,
    }
}
