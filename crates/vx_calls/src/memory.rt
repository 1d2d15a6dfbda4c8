//! Sources and sinks in memory.

use crate::words::{bytes_of, numbers_of, push_bytes, push_gap};
use anyhow::{Context, Result, bail};
use std::alloc::Global;
use vx_io::{ClosedSource, GrowSink, MemorySink, MemorySource, Sink, Source, read_at, write_all};

/// The most bytes that are read at once.
const MOST_ROOM: usize = 64;

/// - `source PIECES FAILING BYTES K:ROOM ..` makes reads of two sources, each into so much room: 0 is closed, and 1 gives these bytes in
///   pieces of these sizes in turn, and its calls of these numbers fail. It prints the bytes of each read.
/// - `sink ROOM PIECES FAILING BYTES ..` writes to a sink with this room, that takes pieces of these sizes in turn, and whose calls of
///   these numbers fail. It prints how many bytes each call takes, for `all:BYTES` whether all are written, and the bytes in the end.
/// - `grow BYTES ..` writes to a sink that grows, and prints the same of it.
pub(crate) fn answer(text: &mut String, alloc: Global, verb: &str, words: &[&str]) -> Result<()> {
    match (verb, words) {
        ("source", [pieces, failing, bytes, reads @ ..]) => {
            tell_source(
                text,
                alloc,
                source_of(alloc, pieces, failing, bytes)?,
                reads,
            )
        }
        ("sink", [room, pieces, failing, writes @ ..]) => {
            tell_sink(
                text,
                alloc,
                &mut sink_of(alloc, room, pieces, failing)?,
                writes,
            )
        }
        ("grow", writes) => tell_grown(text, alloc, writes),
        _ => bail!("no such call of a source or a sink"),
    }
}

/// Returns a source that gives bytes in pieces of these sizes in turn, and whose calls of these numbers fail.
pub(crate) fn source_of(
    alloc: Global,
    pieces: &str,
    failing: &str,
    bytes: &str,
) -> Result<MemorySource> {
    let (pieces, failing) = (numbers_of(alloc, pieces)?, numbers_of(alloc, failing)?);
    Ok(MemorySource::new(bytes_of(alloc, bytes)?, pieces, failing))
}

/// Returns a sink with this room that takes pieces of these sizes in turn, and whose calls of these numbers fail.
pub(crate) fn sink_of(
    alloc: Global,
    room: &str,
    pieces: &str,
    failing: &str,
) -> Result<MemorySink> {
    let (pieces, failing) = (numbers_of(alloc, pieces)?, numbers_of(alloc, failing)?);
    Ok(MemorySink::new(alloc, room.parse::<usize>()?, pieces, failing)?)
}

/// Appends what reads of a closed source and of this one give.
fn tell_source(
    text: &mut String,
    alloc: Global,
    source: MemorySource,
    reads: &[&str],
) -> Result<()> {
    let mut sources: Vec<Box<dyn Source>> = Vec::new(alloc);
    sources.push(Box::new(alloc, ClosedSource::new())?)?;
    sources.push(Box::new(alloc, source)?)?;
    tell_reads(text, &mut sources, reads)
}

/// Appends what these reads of some sources give.
fn tell_reads(text: &mut String, sources: &mut Vec<Box<dyn Source>>, reads: &[&str]) -> Result<()> {
    for read in reads {
        let (at, room) = read.split_once(':').context("no room")?;
        tell_read(text, sources, at.parse::<usize>()?, room.parse::<usize>()?)?;
    }
    Ok(())
}

/// Appends what a read of a source of a list gives.
fn tell_read(
    text: &mut String,
    sources: &mut Vec<Box<dyn Source>>,
    at: usize,
    room: usize,
) -> Result<()> {
    if at >= sources.len() || room > MOST_ROOM {
        bail!("no such read");
    }
    push_gap(text)?;
    let mut buffer = [0; MOST_ROOM];
    match read_at(sources, at, &mut buffer[..room]) {
        Ok(count) => push_bytes(text, &buffer[..count])?,
        Err(_) => text.push_str("failed")?,
    }
    Ok(())
}

/// Appends what writes to a sink give, and its bytes in the end.
fn tell_sink(
    text: &mut String,
    alloc: Global,
    sink: &mut MemorySink,
    writes: &[&str],
) -> Result<()> {
    tell_writes(text, alloc, sink, writes)?;
    Ok(push_bytes(text, sink.bytes())?)
}

/// Appends what writes to a sink that grows give, and its bytes in the end.
fn tell_grown(text: &mut String, alloc: Global, writes: &[&str]) -> Result<()> {
    let mut sink = GrowSink::new(alloc);
    tell_writes(text, alloc, &mut sink, writes)?;
    Ok(push_bytes(text, sink.bytes())?)
}

/// Appends what writes give, with a blank after each.
fn tell_writes<K: Sink>(
    text: &mut String,
    alloc: Global,
    sink: &mut K,
    writes: &[&str],
) -> Result<()> {
    for write in writes {
        match taken(alloc, sink, write)? {
            Some(count) => write!(text, "{count} ")?,
            None => text.push_str("failed ")?,
        }
    }
    Ok(())
}

/// Returns how many bytes a write takes, if it doesn't fail.
fn taken<K: Sink>(alloc: Global, sink: &mut K, write: &str) -> Result<Option<usize>> {
    match write.strip_prefix("all:") {
        Some(bytes) => Ok(write_whole(sink, &bytes_of(alloc, bytes)?)),
        None => Ok(sink.write(&bytes_of(alloc, write)?).ok()),
    }
}

/// Returns the number of bytes, if all of them are written.
fn write_whole<K: Sink>(sink: &mut K, bytes: &[u8]) -> Option<usize> {
    write_all(sink, bytes).ok()?;
    Some(bytes.len())
}
