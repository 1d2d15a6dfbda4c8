//! Units of parameter sets, and of messages.

use crate::bits::MOST_READ;
use crate::rbsps::messages_of;
use crate::words::{bytes_of, push_bytes};
use anyhow::{Context, Result, bail};
use std::alloc::Global;
use vx_aps::read_aps;
use vx_pps::read_pps;
use vx_sps::read_sps;
use vx_write::{aps_unit, pps_unit, sei_unit, sps_unit};

/// - `sps RBSP`, `pps TID RBSP` and `aps TID RBSP` read a set, and print the unit that is written of it, for a picture of this
///   TemporalId.
/// - `sei TID TYPE=PAYLOAD ..` prints the unit of messages, or `none`.
pub(crate) fn answer(text: &mut String, alloc: Global, verb: &str, words: &[&str]) -> Result<()> {
    let unit = match (verb, words) {
        ("sps", [rbsp]) => Some(written_sps(alloc, rbsp)?),
        ("pps", [tid, rbsp]) => Some(written_pps(alloc, tid.parse::<u8>()?, rbsp)?),
        ("aps", [tid, rbsp]) => Some(written_aps(alloc, tid.parse::<u8>()?, rbsp)?),
        ("sei", [tid, messages @ ..]) => written_sei(alloc, tid.parse::<u8>()?, messages)?,
        _ => bail!("no such set"),
    };
    match unit {
        Some(unit) => Ok(push_bytes(text, &unit)?),
        None => Ok(text.push_str("none")?),
    }
}

/// Returns the unit of an SPS.
fn written_sps(alloc: Global, rbsp: &str) -> Result<Vec<u8>> {
    let rbsp = bytes_of(alloc, rbsp)?;
    if rbsp.len() > MOST_READ {
        bail!("too many bytes");
    }
    Ok(sps_unit(alloc, &read_sps(alloc, &rbsp)?)?)
}

/// Returns the unit of a PPS.
fn written_pps(alloc: Global, tid: u8, rbsp: &str) -> Result<Vec<u8>> {
    let rbsp = bytes_of(alloc, rbsp)?;
    if rbsp.len() > MOST_READ || tid > 6 {
        bail!("too many bytes, or no TemporalId");
    }
    Ok(pps_unit(alloc, &read_pps(alloc, &rbsp)?, tid)?)
}

/// Returns the unit of an adaptation parameter set.
fn written_aps(alloc: Global, tid: u8, rbsp: &str) -> Result<Vec<u8>> {
    if tid > 6 {
        bail!("no TemporalId");
    }
    let aps = read_aps(alloc, &bytes_of(alloc, rbsp)?)?.context("dropped")?;
    if aps.id > 31 {
        bail!("no id");
    }
    Ok(aps_unit(alloc, aps.kind, aps.id, aps.body.as_slice(), tid)?)
}

/// Returns the unit of messages.
fn written_sei(alloc: Global, tid: u8, messages: &[&str]) -> Result<Option<Vec<u8>>> {
    if tid > 6 {
        bail!("no TemporalId");
    }
    Ok(sei_unit(alloc, &messages_of(alloc, messages)?, tid)?)
}
