//! A test program: runs the program's commands over sources and sinks in memory, case by case, and prints each result.
//!
//! Input lines consist of words. A line that can't be read ends the program with status 2.
//!
//! - `stream NAME PART ..` names bytes. A part is bytes in hexadecimal, such bytes repeated, as `5aa7*100`, or `-` for none.
//! - `case WORD ..` runs the program with these arguments; a file is the name of bytes. It prints a line such as `status=1
//!   err=E1_picture_0 out=-`: the status, the line on `err`, and the output in hexadecimal. The line on `err` has `_` for each blank, and
//!   ends with `~` if it was cut short. Either is `-` if it is empty.
//! - `pieces END NUMBER ..` sets how many bytes the calls of a source or sink transfer, in turn, and `fail END NUMBER ..` sets which
//!   calls fail, counted from 0. END is `out`, `err`, the number of a source, or `all` for each source.
//! - `closed NUMBER` makes each read of this source fail.
//! - `keep NAME` names the bytes written on `out`, and the line has `out=kept` in their place.
//! - `generated SEED SOURCES PICTURES NUMBER` prints in hexadecimal the bytes of stream NUMBER of the SOURCES streams that are generated
//!   from SEED.
//! - `pushed LENGTH ORDER WORD ..` runs the `merge` or `extract` of these arguments with sources that are pushed in pieces of LENGTH
//!   bytes. ORDER `turns` pushes a piece of each source in turn, `sources` pushes of one source after another all that is taken. The line
//!   is like that of a case.
//! - `#` begins a comment line.
//!
//! All lines except `stream`, `generated` and `pushed` apply only to the next case.
#![tactic(auto)]

mod generated;
mod outcome;
mod pushed;
mod script;
mod setup;
mod streams;

use anyhow::{Context, Result};
use script::Script;
use std::io::{BufRead, BufReader};
use std::process::ExitCode;

fn main(rt: HostRuntime) -> ExitCode {
    match tell_cases(&rt) {
        Ok(()) => ExitCode::SUCCESS,
        Err(error) => {
            let _ = eprintln!(rt; "{error:#}");
            ExitCode::from(2)
        }
    }
}

/// Runs each case of the input, and prints its result.
fn tell_cases(rt: &(impl Input + Print + AllocGlobal)) -> Result<()> {
    let alloc = rt.alloc();
    let mut script = Script::new(alloc);
    for (at, line) in BufReader::new(alloc, rt.reader())?.lines(alloc).enumerate() {
        let line = line?;
        let told = script
            .take(alloc, line.as_str())
            .context(format_args!("line {}", at + 1))?;
        if let Some(told) = told {
            println!(rt; "{told}")?;
        }
    }
    Ok(())
}
