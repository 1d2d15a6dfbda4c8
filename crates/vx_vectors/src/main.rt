//! A test program: reads sets, headers and NAL units line by line, and prints what it finds in each.
//!
//! - A line `vps`, `sps`, `pps` or `aps` has the RBSP of a set.
//! - A line `stream` begins a stream, `unit` has its next NAL unit, and `pictures` prints its pictures.
//! - Other lines call one function of a library; module `calls` lists them.
//!
//! `rt ci` compares the output with the file stdout, which a script writes from the answers of an independent model.
#![tactic(auto)]

mod alone;
mod calls;
mod counts;
mod differences;
mod fault;
mod feeds;
mod frame;
mod headers;
mod inputs;
mod kept;
mod levels;
mod line;
mod lines;
mod lists;
mod meaning;
mod pictures;
mod question;
mod reshaped_line;
mod reshaped_ph;
mod reshaped_pps;
mod reshaped_sps;
mod sets;
mod slices;
mod stream;
mod text;
mod words;

use crate::alone::answer_slice_alone;
use crate::calls::told_of_call;
use crate::fault::{Fault, LineFault};
use crate::line::Line;
use crate::pictures::answer_pictures;
use crate::question::answer_question;
use crate::stream::Stream;
use crate::text::write_refusal;
use std::alloc::Global;
use std::io::{self, BufRead, BufReader, BufWriter, Write};
use std::process::ExitCode;

fn main(rt: HostRuntime) -> ExitCode {
    match answer_lines(&rt) {
        Ok(()) => ExitCode::SUCCESS,
        Err(fault) => {
            let _ = eprintln!(rt; "{fault}");
            ExitCode::from(fault.status())
        }
    }
}

/// Prints the results of the lines of the input.
fn answer_lines(rt: &(impl Input + Print + AllocGlobal)) -> Result<(), Fault> {
    let mut answers = BufWriter::new(rt.alloc(), io::writer(rt))?;
    write_answers(&mut answers, rt)?;
    answers.flush()?;
    Ok(())
}

/// Writes the results for the lines of the input.
fn write_answers(answers: &mut impl Write, rt: &(impl Input + AllocGlobal)) -> Result<(), Fault> {
    let mut stream = Stream::new(rt.alloc());
    answer_each(answers, rt, &mut stream)
}

/// Writes the result for each line of the input. `stream` has what earlier lines said.
fn answer_each(
    answers: &mut impl Write,
    rt: &(impl Input + AllocGlobal),
    stream: &mut Stream,
) -> Result<(), Fault> {
    let alloc = rt.alloc();
    let mut number = 0u64;
    for line in BufReader::new(alloc, rt.reader())?.lines(alloc) {
        number = number.saturating_add(1);
        answer_line(answers, alloc, stream, number, line?.as_str())?;
    }
    Ok(())
}

/// Writes the result for the line of this number. `stream` has what earlier lines said.
fn answer_line(
    answers: &mut impl Write,
    alloc: Global,
    stream: &mut Stream,
    number: u64,
    line: &str,
) -> Result<(), Fault> {
    let mut text = String::new(alloc);
    match write_answer(&mut text, alloc, stream, line) {
        Ok(()) => Ok(writeln!(answers, "{text}")?),
        Err(fault) => Err(Fault::Line { number, fault }),
    }
}

/// Appends the result for a line.
fn write_answer(
    text: &mut String,
    alloc: Global,
    stream: &mut Stream,
    line: &str,
) -> Result<(), LineFault> {
    if told_of_call(text, alloc, line)? {
        return Ok(());
    }
    let line = Line::parse(alloc, line)?;
    write_told(text, alloc, stream, &line)
}

/// Appends what a line asks about, or only the refusal.
fn write_told(
    text: &mut String,
    alloc: Global,
    stream: &mut Stream,
    line: &Line,
) -> Result<(), LineFault> {
    match tell(text, alloc, stream, line) {
        Err(LineFault::Refused(refusal)) => {
            text.clear();
            Ok(write_refusal(text, refusal)?)
        }
        answer => answer,
    }
}

/// Appends what a line asks about.
///
/// *Errors:* the first refusal, perhaps after part of the result; lack of memory; a question that can't be asked.
fn tell(
    text: &mut String,
    alloc: Global,
    stream: &mut Stream,
    line: &Line,
) -> Result<(), LineFault> {
    match line {
        Line::Stream(number) => {
            *stream = Stream::new(alloc);
            Ok(write!(text, "stream {number}")?)
        }
        Line::Pictures => answer_pictures(text, alloc, stream.bytes()),
        Line::Slice(nal_type, rbsp) => {
            answer_slice_alone(text, alloc, stream, *nal_type, rbsp.as_slice())
        }
        Line::Bytes(question, bytes) => answer_question(text, alloc, stream, *question, bytes),
    }
}
