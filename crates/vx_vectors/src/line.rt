//! The lines of the input.
ghost use Rattle.std.specs.Prelude.{◌≤◌, length};
ghost use Rattle.vx_bits.specs.Limits.{unit_limit};

use crate::fault::LineFault;
use crate::question::Question;
use std::alloc::{AllocError, Global};

/// How many bytes a line may have: as many as a NAL unit.
const MOST: usize = 1 << 23;

/// The bytes of a line.
#[derive(Drop)]
pub(crate) struct LineBytes {
    bytes: Vec<u8>,
    ghost few: { length bytes.items ≤ unit_limit },
}

impl LineBytes {
    ghost use Rattle.std.specs.Prelude.{◌≡◌, ◌<◌, ◌≤◌, length, IfOk, IfErr};
    ghost use Rattle.vx_bits.specs.Limits.{unit_limit};

    /// Returns these bytes, if they aren't too many.
    pub(crate) fn new(bytes: Vec<u8>) -> Result<LineBytes, LineFault>
        ensures bytes { IfOk result (λ line. line.bytes ≡ bytes) }
        ensures many { IfErr result (λ _. unit_limit < length bytes.items) }
    {
        if bytes.len() > MOST {
            return Err(LineFault::Bytes);
        }
        Ok(LineBytes { bytes })
    }

    /// Returns the bytes that hexadecimal digits name, or none for `-`.
    pub(crate) fn parse(alloc: Global, digits: &str) -> Result<LineBytes, LineFault> {
        if digits == "-" {
            return LineBytes::new(Vec::new(alloc));
        }
        match hex::decode(alloc, digits) {
            Ok(bytes) => LineBytes::new(bytes),
            Err(_) => Err(LineFault::Bytes),
        }
    }

    /// Returns the bytes.
    pub(crate) fn as_slice(&self) -> &[u8]
        ensures bytes { result.now ≡ self.now.bytes.items }
        ensures few { length result.now ≤ unit_limit }
    {
        self.bytes.as_slice()
    }
}

/// Returns the bytes that several words name.
fn all_bytes(alloc: Global, words: &str) -> Result<Vec<LineBytes>, LineFault> {
    let mut all = Vec::new(alloc);
    for digits in words.split(' ') {
        let bytes = LineBytes::parse(alloc, digits)?;
        all.push(bytes).map_err(AllocError::from)?;
    }
    Ok(all)
}

/// What a line asks about.
#[derive(Drop)]
pub(crate) enum Line {
    /// Here a stream begins, of this number.
    Stream(u32),
    /// The pictures of the stream.
    Pictures,
    /// A slice header by itself, of a unit of this type.
    Slice(u8, LineBytes),
    /// Sets, headers or units of these bytes.
    Bytes(Question, Vec<LineBytes>),
}

impl Line {
    /// Returns what a line asks about.
    ///
    /// *Errors:* an unknown word, or other arguments than belong to it.
    pub(crate) fn parse(alloc: Global, line: &str) -> Result<Line, LineFault> {
        let (word, rest) = line.split_once(' ').unwrap_or((line, ""));
        match word {
            "stream" => Ok(Line::Stream(rest.parse::<u32>()?)),
            "pictures" => Ok(Line::Pictures),
            "slice" => Line::parse_slice(alloc, rest),
            _ => Ok(Line::Bytes(Question::parse(word)?, all_bytes(alloc, rest)?)),
        }
    }

    /// Returns a slice header, after the type of its unit.
    fn parse_slice(alloc: Global, words: &str) -> Result<Line, LineFault> {
        let (nal_type, rbsp) = words.split_once(' ').ok_or(LineFault::Bytes)?;
        let nal_type = nal_type.parse::<u8>()?;
        Ok(Line::Slice(nal_type, LineBytes::parse(alloc, rbsp)?))
    }
}
