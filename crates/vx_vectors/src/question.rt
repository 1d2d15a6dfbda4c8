//! What lines ask about bytes.
ghost use Rattle.std.specs.Prelude.{◌≤◌, length};
ghost use Rattle.vx_bits.specs.Limits.{unit_limit};

use crate::alone::answer_header_alone;
use crate::fault::LineFault;
use crate::kept::{answer_kept, answer_numbers};
use crate::line::LineBytes;
use crate::reshaped_line::answer_header_like;
use crate::reshaped_pps::answer_reshaped_pps;
use crate::reshaped_sps::answer_reshaped_sps;
use crate::sets::{answer_aps, answer_pps, answer_sps, answer_vps};
use crate::stream::Stream;
use std::alloc::Global;

/// What a line asks of bytes.
#[derive(Clone, Copy)]
pub(crate) enum Question {
    /// What is read of a video parameter set.
    Vps,
    /// What is read of a sequence parameter set.
    Sps,
    /// What is read of a picture parameter set.
    Pps,
    /// What is read of an adaptation parameter set.
    Aps,
    /// What the next NAL unit of the stream is.
    Unit,
    /// The kept items of a PPS.
    KeptPps,
    /// The numbers of an SPS, which may be a large one.
    SpsNumbers,
    /// An SPS, rewritten to say what another one says.
    SpsLike,
    /// A PPS, rewritten to say what that of other sets says, an SPS and a PPS.
    PpsLike {
        /// Whether it is for a frame of several sources.
        merged: bool,
    },
    /// A picture header, rewritten to say what another one says.
    HeaderLike {
        /// Whether it comes after a first bit.
        inside: bool,
    },
    /// A picture header by itself.
    Header,
}

impl Question {
    /// Returns what a word asks.
    ///
    /// *Errors:* an unknown word.
    pub(crate) fn parse(word: &str) -> Result<Question, LineFault> {
        match word {
            "vps" => Ok(Question::Vps),
            "sps" => Ok(Question::Sps),
            "pps" => Ok(Question::Pps),
            "aps" => Ok(Question::Aps),
            "unit" => Ok(Question::Unit),
            "pps-kept" => Ok(Question::KeptPps),
            "sps-numbers" => Ok(Question::SpsNumbers),
            "sps-like" => Ok(Question::SpsLike),
            "pps-region" => Ok(Question::PpsLike { merged: false }),
            "pps-frame" => Ok(Question::PpsLike { merged: true }),
            "header-like" => Ok(Question::HeaderLike { inside: false }),
            "inside-like" => Ok(Question::HeaderLike { inside: true }),
            "header" => Ok(Question::Header),
            _ => Err(LineFault::Word),
        }
    }
}

/// Appends the result for what is asked of bytes after the units of a stream.
///
/// *Errors:* the first refusal; a set that can't be; a set that hasn't come; too many or too few bytes; lack
/// of memory.
pub(crate) fn answer_question(
    text: &mut String,
    alloc: Global,
    stream: &mut Stream,
    question: Question,
    bytes: &[LineBytes],
) -> Result<(), LineFault> {
    match (question, bytes) {
        (Question::Unit, [unit]) => stream.answer_unit(text, alloc, unit.as_slice()),
        (Question::Header, [rbsp]) => answer_header_alone(text, alloc, stream, rbsp.as_slice()),
        (Question::HeaderLike { inside }, bytes) => answer_header_like(text, alloc, bytes, inside),
        (question, [rbsp]) => answer_set(text, alloc, question, rbsp.as_slice()),
        (Question::SpsLike, [source, like]) => {
            answer_reshaped_sps(text, alloc, source.as_slice(), like.as_slice())
        }
        (Question::PpsLike { merged }, [source, sps, pps]) => {
            let like = (sps.as_slice(), pps.as_slice());
            answer_reshaped_pps(text, alloc, source.as_slice(), like, merged)
        }
        _ => Err(LineFault::Bytes),
    }
}

/// Appends the result for what is asked of the RBSP of a set.
///
/// *Errors:* the first refusal; too few bytes; lack of memory.
fn answer_set(
    text: &mut String,
    alloc: Global,
    question: Question,
    rbsp: &[u8],
) -> Result<(), LineFault>
    requires { length rbsp.now ≤ unit_limit }
{
    match question {
        Question::Vps => answer_vps(text, alloc, rbsp),
        Question::Sps => answer_sps(text, alloc, rbsp),
        Question::Pps => answer_pps(text, alloc, rbsp),
        Question::Aps => answer_aps(text, alloc, rbsp),
        Question::KeptPps => answer_kept(text, alloc, rbsp),
        Question::SpsNumbers => answer_numbers(text, alloc, rbsp),
        _ => Err(LineFault::Bytes),
    }
}
