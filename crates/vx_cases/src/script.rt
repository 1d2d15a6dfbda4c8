//! The lines of the input, one after another.

use crate::generated::generated;
use crate::outcome::{outcome_of, told};
use crate::pushed::pushed;
use crate::setup::Setup;
use crate::streams::Streams;
use anyhow::{Context, Result};
use std::alloc::Global;
use std::mem;

/// What the lines so far have said: the bytes that have names, and how the calls of the next case go.
#[derive(Drop)]
pub(crate) struct Script {
    streams: Streams,
    setup: Setup,
}

impl Script {
    pub(crate) fn new(alloc: Global) -> Script {
        Script {
            streams: Streams::new(alloc),
            setup: Setup::new(alloc),
        }
    }

    /// Does what a line says, and returns the line that it prints, if it prints one.
    pub(crate) fn take(&mut self, alloc: Global, line: &str) -> Result<Option<String>> {
        let words: Vec<&str> = line.split_ascii_whitespace().collect(alloc)?;
        let Some((verb, rest)) = words.split_first() else {
            return Ok(None);
        };
        match *verb {
            "case" => return Ok(Some(self.run(alloc, rest)?)),
            "generated" => return Ok(Some(generated(alloc, rest)?)),
            "pushed" => {
                let outcome = pushed(alloc, &self.streams, rest)?;
                return Ok(Some(told(alloc, &outcome, false)?));
            }
            "stream" => self.name_stream(alloc, rest)?,
            "#" => (),
            _ => self.setup.say(alloc, verb, rest)?,
        }
        Ok(None)
    }

    /// Does `stream NAME PART ..`.
    fn name_stream(&mut self, alloc: Global, words: &[&str]) -> Result<()> {
        let (name, parts) = words.split_first().context("a stream without a name")?;
        self.streams.spell(alloc, name, parts)
    }

    /// Does `case WORD ..`.
    fn run(&mut self, alloc: Global, words: &[&str]) -> Result<String> {
        let setup = mem::replace(&mut self.setup, Setup::new(alloc));
        let outcome = outcome_of(alloc, &self.streams, &setup, words)?;
        let line = told(alloc, &outcome, setup.kept().is_some())?;
        if let Some(name) = setup.kept() {
            self.streams.insert(alloc, name, outcome.out)?;
        }
        Ok(line)
    }
}
