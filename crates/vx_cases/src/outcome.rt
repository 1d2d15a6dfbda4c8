//! The result of a case.

ghost use Rattle.std.specs.Prelude.{◌≡◌, ◌≢◌, [], IfOk, map, vec_len};
ghost use Rattle.vx_io.specs.Memory.{fresh_plan};
ghost use Rattle.vx_run.specs.Grammar.{NamesFiles, texts};
ghost use Rattle.vx_cases.specs.Said.{said_of};
ghost use Rattle.vx_cases.specs.declared.setup.End.TheVariants.{Source as OfSource};

use crate::setup::{End, Setup};
use crate::streams::Streams;
use anyhow::{Context, Result};
use std::alloc::{AllocError, Global};
use vx_io::{ClosedSource, MemorySink, MemorySource, Source};
use vx_run::{file_count, file_word, run};

/// The status of a run, and what it wrote.
#[derive(Drop)]
pub(crate) struct Outcome {
    pub status: u8,
    pub err: Vec<u8>,
    pub out: Vec<u8>,
}

/// The room for the output of a case, and for its line.
const OUT_ROOM: usize = 1 << 24;

const LINE_ROOM: usize = 400;

const BLANK: u8 = b' ';

/// Runs the program with these arguments over named bytes.
pub(crate) fn outcome_of(
    alloc: Global,
    streams: &Streams,
    setup: &Setup,
    words: &[&str],
) -> Result<Outcome> {
    let words = strings_of(alloc, words)?;
    let mut sources: Vec<Box<dyn Source>> = Vec::new(alloc);
    for k in 0..file_count(&words) {
        let source: Box<dyn Source> = if setup.is_closed(k) {
            Box::new(alloc, ClosedSource::new())?
        } else {
            Box::new(alloc, source_of(alloc, streams, setup, &words, k)?)?
        };
        sources.push(source)?;
    }
    run_on(alloc, setup, &words, &mut sources)
}

/// Runs the program with these arguments over sources.
fn run_on(
    alloc: Global,
    setup: &Setup,
    words: &[String],
    sources: &mut Vec<Box<dyn Source>>,
) -> Result<Outcome>
    requires { NamesFiles (texts words.now) (vec_len sources.old) }
{
    let mut out = sink_of(alloc, setup, End::Out, OUT_ROOM)?;
    let mut err = sink_of(alloc, setup, End::Err, LINE_ROOM)?;
    let status = run(alloc, words, sources, &mut out, &mut err);
    Ok(Outcome {
        status,
        err: Vec::from_slice(alloc, err.bytes())?,
        out: Vec::from_slice(alloc, out.bytes())?,
    })
}

/// Returns each argument as a string of its own.
fn strings_of(alloc: Global, words: &[&str]) -> Result<Vec<String>, AllocError>
    ensures { IfOk result (λ strings. texts strings.items ≡ map (λ word. word.now) words.now) }
{
    let mut strings = Vec::new(alloc);
    for word in words {
        strings.push(String::from_str(alloc, word)?)?;
    }
    Ok(strings)
}

/// Makes the source of the bytes that file `k` names, read as the case says.
fn source_of(
    alloc: Global,
    streams: &Streams,
    setup: &Setup,
    words: &[String],
    k: usize,
) -> Result<MemorySource>
    ensures plan { IfOk result (λ source. source.plan
        ≡ fresh_plan (said_of (OfSource k) setup.now.pieces.items) (said_of (OfSource k) setup.now.failing.items)) }
{
    let bytes = streams.get(file_word(words, k).context("no file")?)?;
    Ok(MemorySource::new(
        bytes.clone()?,
        setup.pieces_of(alloc, End::Source(k))?,
        setup.failing_of(alloc, End::Source(k))?,
    ))
}

/// Makes a sink that takes what is written as the case says.
fn sink_of(alloc: Global, setup: &Setup, end: End, room: usize) -> Result<MemorySink, AllocError>
    ensures { IfOk result (λ sink. sink ≡ record {
      taken = [];
      room = room;
      plan = fresh_plan (said_of end setup.now.pieces.items) (said_of end setup.now.failing.items);
    }) }
{
    let pieces = setup.pieces_of(alloc, end)?;
    MemorySink::new(alloc, room, pieces, setup.failing_of(alloc, end)?)
}

/// Makes the line of a result. Output that is kept isn't in it.
pub(crate) fn told(alloc: Global, outcome: &Outcome, is_kept: bool) -> Result<String, AllocError> {
    let status = outcome.status;
    let err = told_err(alloc, &outcome.err)?;
    let out = match &outcome.out {
        _ if is_kept => String::from_str(alloc, "kept")?,
        out if out.is_empty() => String::from_str(alloc, "-")?,
        out => hex::encode(alloc, out.as_slice())?,
    };
    format!(in alloc; "status={status} err={err} out={out}")
}

/// Returns a line without its line feed, with its blanks as `_`: `-` for none, and `~` after one that was cut short.
fn told_err(alloc: Global, line: &[u8]) -> Result<String, AllocError> {
    if line.is_empty() {
        return String::from_str(alloc, "-");
    }
    let (line, end) = match line.strip_suffix(b"\n") {
        Some(line) => (line, ""),
        None => (line, "~"),
    };
    let mut text: String = line.iter().map(|byte| told_byte(*byte)).collect(alloc)?;
    text.push_str(end)?;
    Ok(text)
}

fn told_byte(byte: u8) -> char
    ensures blank { result ≢ BLANK }
    ensures other { byte ≢ BLANK → result ≡ byte }
{
    if byte == BLANK { '_' } else { char::from(byte) }
}
