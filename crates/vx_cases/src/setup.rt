//! How the calls of a case go.

ghost use Rattle.std.specs.Prelude.{◌≡◌, ◌↔◌, ◌⊎◌, [], None, IsTrue, IfOk, Contains, string_bytes, option_map, option_copied};
ghost use Rattle.vx_cases.specs.Said.{covers, said_of, SaysOf, SaysMore};

use anyhow::{Context, Result, bail};
use std::alloc::{AllocError, Global};

/// What is read or written: a source by its number, or a sink.
#[derive(Clone, Copy, PartialEq, Eq)]
pub(crate) enum End {
    Source(usize),
    EachSource,
    Out,
    Err,
}

impl End {
    /// Returns whether what is said of this end is said of `other`.
    fn covers(self, other: End) -> bool
        ensures { result ≡ covers self other }
    {
        self == other || (self == End::EachSource && matches!(other, End::Source(_)))
    }
}

/// What the lines have said about the next case.
#[derive(Drop)]
pub(crate) struct Setup {
    pieces: Vec<(End, u32)>,
    failing: Vec<(End, u64)>,
    closed: Vec<usize>,
    kept: Option<String>,
}

impl Setup {
    /// Makes a setup of which nothing is said.
    pub(crate) fn new(alloc: Global) -> Setup
        ensures pieces { result.pieces.items ≡ [] }
        ensures failing { result.failing.items ≡ [] }
        ensures closed { result.closed.items ≡ [] }
        ensures kept { result.kept ≡ None }
    {
        Setup {
            pieces: Vec::new(alloc),
            failing: Vec::new(alloc),
            closed: Vec::new(alloc),
            kept: None,
        }
    }

    /// Takes a line about the case: `pieces END NUMBER ..`, `fail END NUMBER ..`, `closed NUMBER` or `keep NAME`.
    pub(crate) fn say(&mut self, alloc: Global, verb: &str, words: &[&str]) -> Result<()>
        ensures { SaysMore self.old self.new }
    {
        match (verb, words) {
            ("pieces", [end, numbers @ ..]) => self.cut(end_of(end)?, numbers),
            ("fail", [end, numbers @ ..]) => self.fail(end_of(end)?, numbers),
            ("closed", [source]) => Ok(self.closed.push(source.parse::<usize>()?)?),
            ("keep", [name]) => {
                self.kept = Some(String::from_str(alloc, name)?);
                Ok(())
            }
            _ => bail!("not understood"),
        }
    }

    /// Takes more numbers of bytes that the calls of an end transfer.
    fn cut(&mut self, end: End, numbers: &[&str]) -> Result<()>
        ensures more { SaysOf end self.old.pieces.items self.new.pieces.items }
        ensures rest { self.new ≡ record self.old { pieces = self.new.pieces } }
    {
        for number in numbers {
            self.pieces.push((end, number.parse::<u32>()?))?;
        }
        Ok(())
    }

    /// Takes more numbers of calls of an end that fail.
    fn fail(&mut self, end: End, numbers: &[&str]) -> Result<()>
        ensures more { SaysOf end self.old.failing.items self.new.failing.items }
        ensures rest { self.new ≡ record self.old { failing = self.new.failing } }
    {
        for number in numbers {
            self.failing.push((end, number.parse::<u64>()?))?;
        }
        Ok(())
    }

    /// Returns how many bytes the calls of this end transfer, in turn.
    pub(crate) fn pieces_of(&self, alloc: Global, end: End) -> Result<Vec<u32>, AllocError>
        ensures { IfOk result (λ pieces. pieces.items ≡ said_of end self.now.pieces.items) }
    {
        let pieces = self.pieces.iter().filter(|(said, _)| said.covers(end));
        pieces.map(|(_, piece)| *piece).collect(alloc)
    }

    /// Returns the calls of this end that fail.
    pub(crate) fn failing_of(&self, alloc: Global, end: End) -> Result<Vec<u64>, AllocError>
        ensures { IfOk result (λ calls. calls.items ≡ said_of end self.now.failing.items) }
    {
        let failing = self.failing.iter().filter(|(said, _)| said.covers(end));
        failing.map(|(_, call)| *call).collect(alloc)
    }

    /// Returns whether this source always fails.
    pub(crate) fn is_closed(&self, source: usize) -> bool
        ensures { IsTrue result ↔ Contains self.now.closed.items source }
    {
        self.closed.contains(&source)
    }

    /// Returns the name of what is written on `out`, if it has one.
    pub(crate) fn kept(&self) -> Option<&str>
        ensures { option_copied result ≡ option_map string_bytes self.now.kept }
    {
        self.kept.as_ref().map(|name| name.as_str())
    }
}

/// Parses `out`, `err`, `all`, or the number of a source.
fn end_of(word: &str) -> Result<End> {
    match word {
        "out" => Ok(End::Out),
        "err" => Ok(End::Err),
        "all" => Ok(End::EachSource),
        _ => Ok(End::Source(word.parse::<usize>().context("no end")?)),
    }
}
