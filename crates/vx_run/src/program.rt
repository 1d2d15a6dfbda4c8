//! The program: one command over sources and sinks.

ghost use Rattle.std.specs.Prelude.{◌≡◌, ◌≤◌, vec_len};
ghost use Rattle.vx_run.specs.Change.{change, sources_change};
ghost use Rattle.vx_run.specs.Extract.{task_of as task_by};
ghost use Rattle.vx_run.specs.Grammar.{IsTid, NamesFiles, texts};
ghost use Rattle.vx_run.specs.Run.{Performs, Runs};

use crate::about::{explain, help, version, write_text};
use crate::conclude::conclude;
use crate::extract::{Task, check_extract, extract};
use crate::merge::{check_merge, merge};
use crate::play::play;
use crate::show::show;
use crate::stop::Stop;
use crate::trial::trial;
use crate::verify::verify;
use crate::words::{Command, command_of};
use std::alloc::Global;
use vx_io::{Sink, Source};

/// Runs the command that the arguments ask for, and returns the exit status.
///
/// There is one source for each file that the arguments name, in order; `words` are the arguments without the program's name. Writes to
/// `out` what the command makes, and to `err` one line if it isn't done. The status is 0 for done, 1 for a broken rule, 2 for arguments
/// that are not understood, 3 for a failed read or write, 4 for lack of memory. [`status_is_exact`](crate::status_is_exact) and the laws
/// beside it say, command by command, which status comes when.
pub fn run<K: Sink, E: Sink>(
    alloc: Global,
    words: &[String],
    sources: &mut Vec<Box<dyn Source>>,
    out: &mut K,
    err: &mut E,
) -> u8
    requires { NamesFiles (texts words.now) (vec_len sources.old) }
    ensures ends { Runs (texts words.now) (sources_change bytes_left read_faults sources.old.items sources.new.items)
        (change K.bytes_taken K.write_faults out.old out.new) result (change E.bytes_taken E.write_faults err.old err.new) }
    ensures list { vec_len sources.new ≡ vec_len sources.old }
{
    match perform(alloc, words, sources, out) {
        Ok(()) => 0,
        Err(stop) => conclude(alloc, stop, err),
    }
}

/// Runs the command that the arguments ask for.
fn perform<K: Sink>(
    alloc: Global,
    words: &[String],
    sources: &mut Vec<Box<dyn Source>>,
    out: &mut K,
) -> Result<(), Stop>
    requires { NamesFiles (texts words.now) (vec_len sources.old) }
    ensures performs { Performs (texts words.now)
        (sources_change bytes_left read_faults sources.old.items sources.new.items)
        (change K.bytes_taken K.write_faults out.old out.new) result }
    ensures list { vec_len sources.new ≡ vec_len sources.old }
{
    match command_of(words) {
        Some(Command::Show { fields, inputs, .. }) => show(
            alloc,
            fields,
            inputs,
            &mut sources[0],
            out,
        ),
        Some(
            Command::Extract {
                tid,
                level,
                index,
                ..
            },
        ) => extract(alloc, task_of(tid, level, index), &mut sources[0], out),
        Some(Command::CheckExtract { tid, index, .. }) => {
            check_extract(alloc, task_of(tid, None, index), &mut sources[0], out)
        }
        Some(Command::Merge { level, placings }) => merge(alloc, level, placings, sources, out),
        Some(Command::Play { level, placings }) => play(alloc, level, placings, sources, out),
        Some(Command::CheckMerge { placings }) => check_merge(alloc, placings, sources, out),
        Some(Command::Verify { placings, .. }) => verify(alloc, placings, sources, out),
        Some(
            Command::Trial {
                seed,
                sources,
                pictures,
            },
        ) => trial(alloc, seed, sources, pictures, out),
        Some(Command::Help) => write_text(help(), out),
        Some(Command::Version) => write_text(version(), out),
        Some(Command::Explain { word }) => explain(word, out),
        None => Err(Stop::NotUnderstood),
    }
}

/// The highest TemporalId.
const ALL: u8 = 6;

/// Returns the task of an extraction with these options.
fn task_of(tid: Option<u8>, level: Option<u8>, index: u32) -> Task
    ensures task { result ≡ task_by tid level index }
    ensures tid { IsTid tid → result.tid ≤ 6 }
{
    Task {
        target: index,
        level,
        tid: tid.unwrap_or(ALL),
    }
}
