//! The program `goosequince`: runs `vx_run` on the system's files, standard output and standard error.
//!
//! `main` takes the arguments without the program's name, `open` opens the files that they name, and `files` runs the command on them. A
//! file that can't be opened becomes a source whose reads fail. Definitions in `specs`: `Opened`.
#![tactic(auto)]

mod files;
mod open;
mod opened;

ghost use Rattle.std.specs.Prelude.{◌≡◌, ◌≢◌, ◌↔◌, IfOk, OnErr};
ghost use Rattle.std.specs.IoError.{error_kind};
ghost use Rattle.vx_run.specs.Grammar.{IsUnderstood, texts};

use crate::files::run_on_files;
use std::alloc::AllocError;
use std::env;
use std::io::{self, BufWriter, ErrorKind};
use std::process::ExitCode;
use vx_io::WriterSink;
use vx_run::GatherSink;

fn main(rt: HostRuntime) -> ExitCode {
    ExitCode::from(status(&rt))
}

/// Runs the program and returns its exit status. Nothing is written if the arguments can't be had, or if memory runs out before the
/// command starts.
fn status(rt: &HostRuntime) -> u8 {
    match words_of(rt) {
        Ok(words) => status_with_words(run_on_system(rt, &words)),
        Err(error) => status_without_words(&error),
    }
}

/// Returns the program's arguments, without its name.
fn words_of(rt: &HostRuntime) -> io::Result<Vec<String>> {
    let mut args = env::args(rt)?;
    let _name = args.next();
    Ok(args.collect(rt.alloc())?)
}

/// Returns the exit status once the arguments are known: the command's, or 4 if memory ran out before it started.
fn status_with_words(run: Result<u8, AllocError>) -> u8
    ensures ran { IfOk run (λ status. result ≡ status) }
    ensures memory { OnErr run (result ≡ 4) }
{
    run.unwrap_or(4)
}

/// Returns the exit status without arguments: 4 for lack of memory, 2 if an argument isn't text.
fn status_without_words(error: &io::Error) -> u8
    ensures memory { error_kind error.now ≡ ErrorKind.OutOfMemory → result ≡ 4 }
    ensures text { error_kind error.now ≢ ErrorKind.OutOfMemory → result ≡ 2 }
{
    if error.kind() == ErrorKind::OutOfMemory {
        4
    } else {
        2
    }
}

/// Runs the command on the files that the arguments name, with the process's standard output and standard error.
fn run_on_system(rt: &HostRuntime, words: &[String]) -> Result<u8, AllocError>
    ensures { IfOk result (λ status. (status ≡ 2) ↔ ¬ IsUnderstood (texts words.now)) }
{
    let Ok(stdout) = BufWriter::with_capacity(rt.alloc(), write_len(words), rt.stdout()) else {
        return Err(AllocError);
    };
    let mut out = GatherSink::new(stdout);
    let mut err = WriterSink::new(rt.stderr());
    run_on_files(rt, words, &mut out, &mut err)
}

/// Returns how many bytes the output buffer holds.
///
/// They are 0 for `show`, so that its lines between two reads are written at once, before the next read.
fn write_len(words: &[String]) -> usize {
    match words.first() {
        Some(word) if word.as_str() == "show" => 0,
        _ => 8192,
    }
}
