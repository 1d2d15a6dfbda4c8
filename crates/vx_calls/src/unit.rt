//! Single units: their headers, their emulation prevention bytes, and writing them to a sink.

use crate::memory::sink_of;
use crate::words::{bytes_of, mark, push_bytes, push_gap};
use anyhow::{Context, Result, bail};
use std::alloc::{AllocError, Global};
use vx_annexb::{
    NalHeader, emulation_fault, escape, read_header, unescape, unit_place, write_unit,
};
use vx_io::MemorySink;

/// - `header BYTES` prints the header of a unit, or `none`.
/// - `emulation BYTES` prints the place of the byte that breaks a rule of emulation prevention, or `none`.
/// - `escape BYTES` prints the unit of bytes that don't end in 00.
/// - `unescape BYTES` prints the bytes of a unit that keeps the rules, and `places BYTES` the place after each of them.
/// - `units ROOM PIECES FAILING FRONT/REST ..` writes units to a sink with this room, that takes pieces of these sizes in turn, and whose
///   calls of these numbers fail. It prints after each what the sink has then.
pub(crate) fn answer(text: &mut String, alloc: Global, verb: &str, words: &[&str]) -> Result<()> {
    if let ("units", [room, pieces, failing, units @ ..]) = (verb, words) {
        let mut sink = sink_of(alloc, room, pieces, failing)?;
        return write_units(text, alloc, &mut sink, units);
    }
    let [bytes] = words else {
        bail!("no such call of a unit");
    };
    tell_unit(text, alloc, verb, &bytes_of(alloc, bytes)?)
}

/// Appends what a call of these bytes returns.
fn tell_unit(text: &mut String, alloc: Global, verb: &str, bytes: &[u8]) -> Result<()> {
    match verb {
        "header" => Ok(tell_header(text, read_header(bytes))?),
        "emulation" => Ok(tell_fault(text, emulation_fault(bytes))?),
        "escape" => tell_escaped(text, alloc, bytes),
        "unescape" => tell_unescaped(text, alloc, bytes),
        "places" => tell_places(text, alloc, bytes),
        _ => bail!("no such call of a unit"),
    }
}

fn tell_header(text: &mut String, header: Option<NalHeader>) -> Result<(), AllocError> {
    let Some(
        NalHeader {
            reserved,
            layer_id,
            nal_type,
            temporal_id,
        },
    ) = header
    else {
        return text.push_str("none");
    };
    write!(text, "reserved={} ", u8::from(reserved))?;
    write!(text, "layer={layer_id} type={nal_type} tid={temporal_id}")
}

fn tell_fault(text: &mut String, fault: Option<usize>) -> Result<(), AllocError> {
    match fault {
        Some(place) => write!(text, "{place}"),
        None => text.push_str("none"),
    }
}

fn tell_escaped(text: &mut String, alloc: Global, bytes: &[u8]) -> Result<()> {
    if !bytes.is_empty() && bytes[bytes.len() - 1] == 0 {
        bail!("ends in 00");
    }
    Ok(push_bytes(text, &escape(alloc, bytes)?)?)
}

fn tell_unescaped(text: &mut String, alloc: Global, unit: &[u8]) -> Result<()> {
    let None = emulation_fault(unit) else {
        bail!("breaks a rule");
    };
    Ok(push_bytes(text, &unescape(alloc, unit)?)?)
}

fn tell_places(text: &mut String, alloc: Global, unit: &[u8]) -> Result<()> {
    let None = emulation_fault(unit) else {
        bail!("breaks a rule");
    };
    let bytes = unescape(alloc, unit)?;
    if bytes.is_empty() {
        text.push_str("-")?;
    }
    for n in 0..bytes.len() {
        write!(text, "{}{}", mark(n, ","), unit_place(unit, n + 1))?;
    }
    Ok(())
}

/// Appends units that are written to a sink one after another.
fn write_units(
    text: &mut String,
    alloc: Global,
    sink: &mut MemorySink,
    units: &[&str],
) -> Result<()> {
    for unit in units {
        let (front, rest) = unit.split_once('/').context("no rest")?;
        let is_written = writes_unit(alloc, sink, front, rest)?;
        push_gap(text)?;
        text.push_str(if is_written { "ok:" } else { "failed:" })?;
        push_bytes(text, sink.bytes())?;
    }
    Ok(())
}

/// Returns whether the unit of these two parts is written.
fn writes_unit(alloc: Global, sink: &mut MemorySink, front: &str, rest: &str) -> Result<bool> {
    let (front, rest) = (bytes_of(alloc, front)?, bytes_of(alloc, rest)?);
    Ok(write_unit(sink, &front, &rest).is_ok())
}
