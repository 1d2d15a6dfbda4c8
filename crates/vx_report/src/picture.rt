//! The line of `show` for a picture.

ghost use Rattle.std.specs.Prelude.{◌≡◌, string_bytes, IfOk};
ghost use Rattle.serde_json.specs.View.{view};
ghost use Rattle.vx_report.specs.PictureLine.{picture_object, picture_json, picture_text};

use serde_json::{Value, json};
use std::alloc::{AllocError, Global};
use vx_pic::Picture;

/// The numbers that `show` prints of a picture.
#[derive(Clone, Copy, PartialEq, Eq)]
pub struct PictureNumbers {
    /// How many pictures came before it.
    pub picture: u64,
    /// Whether it starts a coded layer video sequence.
    pub clvss: bool,
    /// PicOrderCntVal (H.266 8.3.1).
    pub poc: i32,
    /// How many slices it has.
    pub slices: u32,
    /// How many subpictures it has.
    pub subpictures: u32,
}

impl PictureNumbers {
    ghost use Rattle.std.specs.Prelude.{◌≡◌};
    ghost use Rattle.vx_report.specs.PictureLine.{picture_numbers};

    /// Returns the numbers of a picture, before which there were `before`.
    pub fn of(before: u64, picture: &Picture<'_>) -> PictureNumbers
        ensures { result ≡ picture_numbers before picture.now }
    {
        let kind = picture.kind();
        PictureNumbers {
            picture: before,
            clvss: kind.clvss,
            poc: kind.poc,
            slices: picture.slice_count(),
            subpictures: picture.sps().subpics(),
        }
    }
}

/// Makes the JSON line of a picture, with a line feed.
///
/// It has whether the picture starts a coded layer video sequence, its number, its picture order count, and its numbers of slices and
/// subpictures. *Errors:* [`AllocError`] if memory runs out.
pub fn picture_line(alloc: Global, picture: PictureNumbers) -> Result<Vec<u8>, AllocError>
    ensures { IfOk result (λ line. line.items ≡ picture_text picture) }
{
    let mut text = json_text(alloc, picture)?;
    text.push('\n')?;
    Ok(text.into_bytes())
}

/// Makes the line without its line feed.
fn json_text(alloc: Global, picture: PictureNumbers) -> Result<String, AllocError>
    ensures { IfOk result (λ text. string_bytes text ≡ picture_json picture) }
{
    let value = picture_value(alloc, picture)?;
    value.to_string(alloc)
}

/// Makes the JSON value of a picture.
fn picture_value(alloc: Global, picture: PictureNumbers) -> Result<Value, AllocError>
    ensures { IfOk result (λ value. view value ≡ picture_object picture) }
{
    json!(in alloc; {
        "clvss": picture.clvss,
        "picture": picture.picture,
        "poc": picture.poc,
        "slices": picture.slices,
        "subpictures": picture.subpictures,
    })
}
