//! Lines that call one function of a library, each with a name and the arguments of the call.
//!
//! - `structures WEIGHTED ITEMS`: the structures of reference picture lists that items of an SPS state.
//! - `structure NUMBERS INDEX,COUNT BYTES`: reads a structure; NUMBERS are four, as in `RplNumbers`.
//! - `spell NUMBERS ITEMS`: writes a structure.
//! - `lists NUMBERS ITEMS BYTES`: the two lists of a header, under the structures that items of an SPS state.
//! - `weights NUMBERS BYTES`: prediction weights; NUMBERS are seven, as in `WeightNumbers`.
//! - `ptl SUBLAYER BYTES`, `dpb SUBLAYER,EACH BYTES`, `timing SUBLAYER,EACH BYTES`: structures of levels, DPBs and timing, up to this
//!   highest sublayer; `levels`: whether their tables keep no field.
//! - `count BITS,LSB CYCLE CLVSS LSB POC`: the picture order count after that of a previous picture, with a cycle or `-`.
//! - `differ ITEM ADDRESS BYTES ITEM ADDRESS BYTES`: where two decoding inputs differ.
//! - `feed PIECE CALLS BYTES`: what a feed returns over bytes in pieces of this length; CALLS fail, or none for `-`.
//! - `unit-line`, `picture-line` and `refusal-line`: lines that the program prints.
//!
//! Items are written as `179=64;301=1,304=0,305=1*64`.

use crate::counts::answer_count;
use crate::differences::answer_differ;
use crate::fault::LineFault;
use crate::feeds::answer_feed;
use crate::levels::{Asked, answer_asked, answer_levels};
use crate::lines::{answer_picture_line, answer_refusal_line, answer_unit_line};
use crate::lists::{
    answer_lists, answer_spell, answer_structure, answer_structures, answer_weights,
};
use std::alloc::Global;

/// Appends the result for the call of a name with these words.
///
/// *Errors:* `Word` if there is no such call, before anything is appended; else as the call has it.
fn answer_call(
    text: &mut String,
    alloc: Global,
    name: &str,
    words: &[&str],
) -> Result<(), LineFault> {
    match name {
        "structures" => answer_structures(text, alloc, words),
        "structure" => answer_structure(text, alloc, words),
        "spell" => answer_spell(text, alloc, words),
        "lists" => answer_lists(text, alloc, words),
        "weights" => answer_weights(text, alloc, words),
        "ptl" => answer_asked(text, alloc, Asked::Ptl, words),
        "dpb" => answer_asked(text, alloc, Asked::Dpb, words),
        "timing" => answer_asked(text, alloc, Asked::Timing, words),
        "levels" => answer_levels(text),
        "count" => answer_count(text, alloc, words),
        "differ" => answer_differ(text, alloc, words),
        "feed" => answer_feed(text, alloc, words),
        "unit-line" => answer_unit_line(text, alloc, words),
        "picture-line" => answer_picture_line(text, alloc, words),
        "refusal-line" => answer_refusal_line(text, alloc, words),
        _ => Err(LineFault::Word),
    }
}

/// Appends the result of the call that a line asks for; returns `false` if its word names no call.
pub(crate) fn told_of_call(
    text: &mut String,
    alloc: Global,
    line: &str,
) -> Result<bool, LineFault> {
    let (name, rest) = line.split_once(' ').unwrap_or((line, ""));
    let words: Vec<&str> = rest.split(' ').collect(alloc)?;
    match answer_call(text, alloc, name, &words) {
        Ok(()) => Ok(true),
        Err(LineFault::Word) => {
            text.clear();
            Ok(false)
        }
        Err(fault) => Err(fault),
    }
}
