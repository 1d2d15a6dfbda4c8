//! The line of `show` for a NAL unit.

ghost use Rattle.std.specs.Prelude.{◌≡◌, string_bytes, IfOk};
ghost use Rattle.serde_json.specs.View.{view};
ghost use Rattle.vx_report.specs.UnitLine.{unit_object, unit_json, unit_text};

use serde_json::{Value, json};
use std::alloc::{AllocError, Global};
use vx_annexb::NalHeader;

/// Makes the JSON line of a NAL unit, with a line feed.
///
/// It has the unit's length in bytes, the offset of its first byte in the byte stream, its TemporalId and its nal_unit_type. *Errors:*
/// [`AllocError`] if memory runs out.
pub fn unit_line(
    alloc: Global,
    header: NalHeader,
    offset: u64,
    bytes: u64,
) -> Result<Vec<u8>, AllocError>
    ensures { IfOk result (λ line. line.items ≡ unit_text header offset bytes) }
{
    let mut text = json_text(alloc, header, offset, bytes)?;
    text.push('\n')?;
    Ok(text.into_bytes())
}

/// Makes the line without its line feed.
fn json_text(
    alloc: Global,
    header: NalHeader,
    offset: u64,
    bytes: u64,
) -> Result<String, AllocError>
    ensures { IfOk result (λ text. string_bytes text ≡ unit_json header offset bytes) }
{
    let value = unit_value(alloc, header, offset, bytes)?;
    value.to_string(alloc)
}

/// Makes the JSON value of a unit.
fn unit_value(
    alloc: Global,
    header: NalHeader,
    offset: u64,
    bytes: u64,
) -> Result<Value, AllocError>
    ensures { IfOk result (λ value. view value ≡ unit_object header offset bytes) }
{
    json!(in alloc; {
        "bytes": bytes,
        "offset": offset,
        "tid": header.temporal_id,
        "type": header.nal_type,
    })
}
