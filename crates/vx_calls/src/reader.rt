//! Units that are taken from a source.
ghost use Rattle.std.specs.Prelude.{◌≡◌, true, Some, Ok};
ghost use Rattle.vx_annexb.specs.declared.unit_reader.Closed.TheVariants.{Failed};

use crate::memory::source_of;
use crate::words::{push_gap, push_refusal, push_unit};
use anyhow::{Result, bail};
use std::alloc::{AllocError, Global};
use vx_annexb::{TakeFault, UnitReader};
use vx_io::MemorySource;

/// `take TIMES PIECES FAILING BYTES` takes units this many times from a source that gives pieces of these sizes in turn, and whose calls
/// of these numbers fail. It prints what each call returns; a failed read is the last.
pub(crate) fn answer(text: &mut String, alloc: Global, words: &[&str]) -> Result<()> {
    let [times, pieces, failing, bytes] = words else {
        bail!("no such call of a reader");
    };
    let times = times.parse::<u32>()?;
    let mut source = source_of(alloc, pieces, failing, bytes)?;
    Ok(tell_taken(text, alloc, &mut source, times)?)
}

/// Appends what a new reader of a source returns, at most this many times.
fn tell_taken(
    text: &mut String,
    alloc: Global,
    source: &mut MemorySource,
    times: u32,
) -> Result<(), AllocError> {
    let mut reader = UnitReader::new(alloc)?;
    take_units(text, &mut reader, source, times)
}

/// Appends what a reader of a source returns, at most this many times.
fn take_units(
    text: &mut String,
    reader: &mut UnitReader,
    source: &mut MemorySource,
    times: u32,
) -> Result<(), AllocError>
    requires { reader.old.closed ≡ Some Failed → ⊥ }
{
    for _ in 0..times {
        if !take_unit(text, reader, source)? {
            return Ok(());
        }
    }
    Ok(())
}

/// Appends what a reader of a source returns; and returns whether it may be asked again.
fn take_unit(
    text: &mut String,
    reader: &mut UnitReader,
    source: &mut MemorySource,
) -> Result<bool, AllocError>
    requires { reader.old.closed ≡ Some Failed → ⊥ }
    ensures { result ≡ Ok true → reader.new.closed ≡ Some Failed → ⊥ }
{
    match reader.take(source) {
        Ok(Some(span)) => push_unit(text, span.offset, reader.bytes(span))?,
        Ok(None) => tell(text, "end")?,
        Err(TakeFault::Refused(refusal)) => {
            push_gap(text)?;
            push_refusal(text, refusal)?;
        }
        Err(TakeFault::SourceFailed) => {
            tell(text, "failed")?;
            return Ok(false);
        }
        Err(TakeFault::Memory) => return Err(AllocError),
    }
    Ok(true)
}

/// Appends a word.
fn tell(text: &mut String, word: &str) -> Result<(), AllocError> {
    push_gap(text)?;
    text.push_str(word)
}
