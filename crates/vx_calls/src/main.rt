//! A test program: makes the calls of lower crates that its input lines name, and prints one line for each result.
//!
//! A line names one call, or several calls on one object. They cover bits and codes, lists, sources and sinks, byte streams, layouts,
//! placements, tables, RBSPs, and units that are written. `rt ci` compares the output with the file stdout, which a script makes without
//! this program. A line that can't be read, or whose call would break its precondition, ends the program with status 2. Empty lines and
//! lines that begin with `#` are skipped.
//!
//! Bytes are hexadecimal digits, `HEX*N` for N repetitions, several such parts joined by `+`, or `-` for none. More than 64 bytes are
//! printed as their number and their Adler-32. `sum` before a line does the same for its whole result.
#![tactic(auto)]

mod bits;
mod claims;
mod composite;
mod fit;
mod layout;
mod lists;
mod memory;
mod rbsps;
mod reader;
mod sets;
mod splitter;
mod structures;
mod tables;
mod texts;
mod unit;
mod words;

use crate::words::push_sum;
use anyhow::{Context, Result, bail};
use std::alloc::Global;
use std::io::{self, BufRead, BufReader, BufWriter, Write};
use std::process::ExitCode;

fn main(rt: HostRuntime) -> ExitCode {
    match answer_lines(&rt) {
        Ok(()) => ExitCode::SUCCESS,
        Err(error) => {
            let _ = eprintln!(rt; "{error:#}");
            ExitCode::from(2)
        }
    }
}

/// Prints the results of the lines of the input.
fn answer_lines(rt: &(impl Input + Print + AllocGlobal)) -> Result<()> {
    let alloc = rt.alloc();
    let mut answers = BufWriter::new(alloc, io::writer(rt))?;
    let mut text = String::new(alloc);
    for (at, line) in BufReader::new(alloc, rt.reader())?.lines(alloc).enumerate() {
        let line = line?;
        text.clear();
        let calls = answer_line(&mut text, alloc, line.as_str());
        if calls.context(format_args!("line {}", at + 1))? {
            writeln!(answers, "{text}")?;
        }
    }
    answers.flush()?;
    Ok(())
}

/// Appends the result of a line, if it is one of calls.
fn answer_line(text: &mut String, alloc: Global, line: &str) -> Result<bool> {
    let words: Vec<&str> = line.split_ascii_whitespace().collect(alloc)?;
    answer_words(text, alloc, &words)
}

/// Appends the result of the words of a line, if they are those of calls.
fn answer_words(text: &mut String, alloc: Global, words: &[&str]) -> Result<bool> {
    match words {
        [] | ["#", ..] => return Ok(false),
        ["sum", verb, words @ ..] => tell_sum(text, alloc, verb, words)?,
        [verb, words @ ..] => answer(text, alloc, verb, words)?,
    }
    Ok(true)
}

/// Appends the length and the checksum of a result.
fn tell_sum(text: &mut String, alloc: Global, verb: &str, words: &[&str]) -> Result<()> {
    let mut whole = String::new(alloc);
    answer(&mut whole, alloc, verb, words)?;
    Ok(push_sum(text, whole.as_bytes())?)
}

/// Appends the result of a line that begins with this word.
fn answer(text: &mut String, alloc: Global, verb: &str, words: &[&str]) -> Result<()> {
    match verb {
        "bits" | "code" | "codes" => bits::answer(text, alloc, verb, words),
        "fields" | "bytes" | "short" => lists::answer(text, alloc, verb, words),
        "text" => texts::answer(text, words),
        "bounds" | "has" | "precedes" | "layout" => layout::answer(text, alloc, verb, words),
        "fit" | "lines" => fit::answer(text, alloc, verb, words),
        _ => answer_of_units(text, alloc, verb, words),
    }
}

/// Appends the result of a line of units or of structures.
fn answer_of_units(text: &mut String, alloc: Global, verb: &str, words: &[&str]) -> Result<()> {
    match verb {
        "split" | "waits" => splitter::answer(text, alloc, verb, words),
        "take" => reader::answer(text, alloc, words),
        "source" | "sink" | "grow" => memory::answer(text, alloc, verb, words),
        "header" | "emulation" | "escape" | "unescape" | "places" | "units" => {
            unit::answer(text, alloc, verb, words)
        }
        "sps" | "pps" | "aps" | "sei" => sets::answer(text, alloc, verb, words),
        "messages" | "spell" | "set" => rbsps::answer(text, alloc, verb, words),
        _ => structures::answer(text, alloc, verb, words),
    }
}
