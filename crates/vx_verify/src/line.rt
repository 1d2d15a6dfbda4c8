//! The line that names a mismatch.
ghost use Rattle.std.specs.Prelude.{◌≡◌, string_bytes, IfOk};
ghost use Rattle.vx_verify.specs.Line as line;
ghost use Rattle.vx_verify.specs.Line.{mismatch_text};

use crate::mismatch::Mismatch;
use std::alloc::{AllocError, Global};
use vx_pic::Difference;

/// Makes the line of a mismatch in a picture, with its line feed.
///
/// A line is `C2 picture 5 source 1`, and of a slice `C4 picture 5 source 1 slice 0 part 10 field 0`. `picture` counts from 0, and the
/// source is the number of the file. *Errors:* [`AllocError`] if memory runs out.
pub fn mismatch_line(alloc: Global, mismatch: Mismatch, picture: u64) -> Result<Vec<u8>, AllocError>
    ensures { IfOk result (λ line. line.items ≡ mismatch_text mismatch picture) }
{
    let text = match mismatch {
        Mismatch::Count(file) => file_line(alloc, 1, picture, file),
        Mismatch::Rect(file) => file_line(alloc, 2, picture, file),
        Mismatch::Slices(file) => file_line(alloc, 3, picture, file),
        Mismatch::Input {
            file,
            slice,
            difference,
        } => input_line(alloc, picture, file, slice, difference),
        Mismatch::Length(file) => file_line(alloc, 5, picture, file),
    }?;
    Ok(text.into_bytes())
}

/// Makes the line of a file.
fn file_line(alloc: Global, code: u8, picture: u64, file: u16) -> Result<String, AllocError>
    ensures { IfOk result (λ text. string_bytes text ≡ line.file_text code picture file) }
{
    format!(in alloc; "C{code} picture {picture} source {file}\n")
}

/// Makes the line of a slice.
fn input_line(
    alloc: Global,
    picture: u64,
    file: u16,
    slice: u32,
    difference: Difference,
) -> Result<String, AllocError>
    ensures { IfOk result (λ text. string_bytes text ≡ line.input_text picture file slice difference) }
{
    format!(in alloc;
        "C4 picture {picture} source {file} slice {slice} part {} field {}\n",
        difference.part, difference.field
    )
}
