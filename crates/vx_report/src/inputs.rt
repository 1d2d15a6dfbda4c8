//! The lines of `show` for the slices of a picture, with their decoding inputs.

ghost use Rattle.std.specs.Prelude.{◌≡◌, ◌<◌, ◌++◌, length, slice_get, IfOk, IfSome, OnOk};
ghost use Rattle.vx_report.specs.InputLines.{input_text, input_text_at, inputs_text};

use crate::slice::{SliceNumbers, slice_line};
use std::alloc::{AllocError, Global};
use vx_pic::{Picture, decoding_input};

/// Appends the JSON lines of the slices of a picture to `lines`, in order. `before` is the number of pictures before it.
///
/// *Errors:* [`AllocError`] if memory runs out; some of the lines may then be appended.
#[tactic(auto, using(crate::proofs::InputsText::inputs_none, crate::proofs::InputsText::inputs_more, crate::proofs::InputsText::inputs_all))]
pub fn input_lines(
    lines: &mut Vec<u8>,
    alloc: Global,
    before: u64,
    picture: &Picture<'_>,
) -> Result<(), AllocError>
    ensures { OnOk result (lines.new.items ≡ lines.old.items ++ inputs_text before picture.now) }
{
    for i in 0..picture.slice_count() {
        put_input(lines, alloc, before, picture, i)?;
    }
    Ok(())
}

/// Appends the line of slice `i`.
fn put_input(
    lines: &mut Vec<u8>,
    alloc: Global,
    before: u64,
    picture: &Picture<'_>,
    i: u32,
) -> Result<(), AllocError>
    requires { i < length picture.now.slices }
    ensures { OnOk result (lines.new.items ≡ lines.old.items ++ input_text_at before picture.now i) }
{
    let line = line_at(alloc, before, picture, i)?;
    lines.extend_from_slice(&line)
}

/// Makes the line of slice `i`.
fn line_at(alloc: Global, before: u64, picture: &Picture<'_>, i: u32) -> Result<Vec<u8>, AllocError>
    requires { i < length picture.now.slices }
    ensures { IfOk result (λ line. line.items ≡ input_text_at before picture.now i) }
{
    let input = decoding_input(alloc, picture, i)?;
    slice_line(alloc, SliceNumbers::of(before, picture, i), &input)
}
