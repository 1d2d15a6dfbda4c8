//! Lists of fields and of bytes, and copies of short RBSPs.

use crate::words::{bytes_of, item_of, push_bytes, push_gap, push_sum};
use anyhow::{Result, bail};
use std::alloc::{AllocError, Global};
use vx_bits::{ByteLists, Bytes, Fields, Item, Kept, is_rbsp, short_rbsp};

/// - `fields CALL ..` makes calls of a list of fields: `FIELD=VALUE` pushes an item, and `numbered:N` one for each field below N, with
///   its number; `first:FIELD`, `item:I`, and `kept` for a list of all of them as kept ones, print results.
/// - `bytes BYTES BYTE` appends these bytes and then the byte, and prints a list of that one byte string.
/// - `short BYTES` prints the copy that is kept of a short RBSP, or `none` of a longer one, and whether it is known by these bytes.
pub(crate) fn answer(text: &mut String, alloc: Global, verb: &str, words: &[&str]) -> Result<()> {
    match (verb, words) {
        ("fields", calls) => field_calls(text, alloc, calls),
        ("bytes", [bytes, byte]) => list_bytes(text, alloc, bytes, byte),
        ("short", [rbsp]) => tell_short(text, alloc, rbsp),
        _ => bail!("no such call of lists"),
    }
}

/// Appends what calls of a list of fields return.
fn field_calls(text: &mut String, alloc: Global, calls: &[&str]) -> Result<()> {
    let mut fields = Fields::new(alloc);
    for call in calls {
        field_call(text, alloc, &mut fields, call)?;
    }
    Ok(())
}

/// Makes one call of a list of fields, and prints what it returns.
fn field_call(text: &mut String, alloc: Global, fields: &mut Fields, call: &str) -> Result<()> {
    match call.split_once(':') {
        Some(("numbered", count)) => Ok(push_numbered(fields, count.parse::<u16>()?)?),
        Some((told, number)) => tell_of(text, fields, told, number.parse::<u16>()?),
        None if call == "kept" => Ok(tell_kept(text, alloc, fields)?),
        None => Ok(fields.push(item_of(call)?)?),
    }
}

/// Appends each field below this one, with its number.
fn push_numbered(fields: &mut Fields, count: u16) -> Result<(), AllocError> {
    for field in 0..count {
        fields.push(Item {
            field,
            value: i64::from(field),
        })?;
    }
    Ok(())
}

/// Appends the first item of a field, or the item of an index.
fn tell_of(text: &mut String, fields: &Fields, told: &str, number: u16) -> Result<()> {
    push_gap(text)?;
    match told {
        "first" => Ok(write!(text, "{:?}", fields.first(number))?),
        "item" => tell_item(text, fields, usize::from(number)),
        _ => bail!("no such call of fields"),
    }
}

/// Appends the item of an index.
fn tell_item(text: &mut String, fields: &Fields, index: usize) -> Result<()> {
    if index >= fields.len() {
        bail!("no such item");
    }
    let Item { field, value } = fields.item(index);
    Ok(write!(text, "{field}={value}")?)
}

/// Appends how many kept fields there are if all are kept, and whether they are the same.
fn tell_kept(text: &mut String, alloc: Global, fields: &Fields) -> Result<(), AllocError> {
    let mut kept = Kept::new(alloc);
    for item in fields.iter() {
        kept.push(*item)?;
    }
    let same = kept.as_slice() == fields.as_slice();
    push_gap(text)?;
    write!(text, "{} of {} kept, {same}", kept.len(), fields.len())
}

/// Appends a list of one byte string, these bytes and this byte.
fn list_bytes(text: &mut String, alloc: Global, front: &str, byte: &str) -> Result<()> {
    let mut bytes = Bytes::new(alloc);
    bytes.extend_from_slice(&bytes_of(alloc, front)?)?;
    bytes.push(byte.parse::<u8>()?)?;
    let mut lists = ByteLists::new(alloc);
    lists.push(bytes)?;
    Ok(tell_lists(text, &lists)?)
}

/// Appends byte strings, and how many they are.
fn tell_lists(text: &mut String, lists: &ByteLists) -> Result<(), AllocError> {
    for i in 0..lists.len() {
        push_sum(text, lists.item(i).as_slice())?;
    }
    write!(text, " of {}", lists.len())
}

/// Appends the copy of an RBSP.
fn tell_short(text: &mut String, alloc: Global, rbsp: &str) -> Result<()> {
    let rbsp = bytes_of(alloc, rbsp)?;
    let copy = short_rbsp(alloc, &rbsp)?;
    Ok(tell_copy(text, copy.as_ref(), &rbsp)?)
}

/// Appends a copy, if there is one, and whether it is known by these bytes.
fn tell_copy(text: &mut String, copy: Option<&Bytes>, rbsp: &[u8]) -> Result<(), AllocError> {
    match copy {
        Some(bytes) => push_bytes(text, bytes.as_slice())?,
        None => text.push_str("none")?,
    }
    write!(text, " {}", is_rbsp(copy, rbsp))
}
