//! The line of `show --fields` for the fields of a set or header.

ghost use Rattle.std.specs.Prelude.{◌≡◌, ◌++◌, decimal, OnOk};
ghost use Rattle.vx_report.specs.FieldsLine as line;
ghost use Rattle.vx_report.specs.FieldsLine.{fields_text};

use itoa::Buffer;
use std::alloc::AllocError;
use vx_bits::{Fields, Item};
use vx_fields::name_of;
use vx_pic::{Structure, StructureFields};

/// Appends the JSON line of the fields of a unit to `lines`, with a line feed. Appends nothing if the unit is no set and no header.
///
/// A line: `{"bit":0,"fields":[["sps_seq_parameter_set_id",0],..],"structure":"SPS","unit":3}`. `unit` is the number of units before it.
/// An adaptation parameter set also has `"body":N`, the bytes of its body, if they are known. A unit that is refused at a field also has
/// `"refused":FIELD`.
///
/// *Errors:* [`AllocError`] if memory runs out; a part of the line may then be appended.
#[tactic(auto, unfolding(crate::specs::FieldsLine::fields_text))]
pub fn fields_line(
    lines: &mut Vec<u8>,
    unit: u64,
    fields: &StructureFields,
    refused: Option<u16>,
) -> Result<(), AllocError>
    ensures { OnOk result (lines.new.items ≡ lines.old.items ++ fields_text unit fields.now refused) }
{
    match fields.structure {
        Some(structure) => put_line(lines, unit, structure, fields, refused),
        None => Ok(()),
    }
}

/// Appends the line of a structure.
fn put_line(
    lines: &mut Vec<u8>,
    unit: u64,
    structure: Structure,
    fields: &StructureFields,
    refused: Option<u16>,
) -> Result<(), AllocError>
    ensures { OnOk result (lines.new.items ≡ lines.old.items
        ++ line.line_text unit refused structure fields.now.items fields.now.body) }
{
    put_start(lines, fields.body)?;
    put_items(lines, &fields.items)?;
    put_end(lines, refused, structure, unit)?;
    Ok(())
}

/// Appends what comes before the fields.
fn put_start(lines: &mut Vec<u8>, body: Option<usize>) -> Result<(), AllocError>
    ensures { OnOk result (lines.new.items ≡ lines.old.items ++ line.start_json body) }
{
    lines.extend_from_slice(b"{\"bit\":0")?;
    put_body(lines, body)?;
    lines.extend_from_slice(b",\"fields\":[")?;
    Ok(())
}

/// Appends how many bytes the body has.
fn put_body(lines: &mut Vec<u8>, body: Option<usize>) -> Result<(), AllocError>
    ensures { OnOk result (lines.new.items ≡ lines.old.items ++ line.body_json body) }
{
    match body {
        Some(bytes) => put_number(lines, b",\"body\":", bytes as u64),
        None => Ok(()),
    }
}

/// Appends the fields, with commas between them.
#[tactic(auto, using(crate::proofs::FieldsText::items_none, crate::proofs::FieldsText::items_first, crate::proofs::FieldsText::items_on, crate::proofs::FieldsText::items_all))]
fn put_items(lines: &mut Vec<u8>, items: &Fields) -> Result<(), AllocError>
    ensures { OnOk result (lines.new.items ≡ lines.old.items ++ line.items_json items.now) }
{
    if items.len() == 0 {
        return Ok(());
    }
    put_item(lines, items.item(0))?;
    for i in 1..items.len() {
        lines.push(b',')?;
        put_item(lines, items.item(i))?;
    }
    Ok(())
}

/// Appends a field and its value.
fn put_item(lines: &mut Vec<u8>, item: Item) -> Result<(), AllocError>
    ensures { OnOk result (lines.new.items ≡ lines.old.items ++ line.item_json item) }
{
    let mut buffer = Buffer::new();
    lines.extend_from_slice(b"[\"")?;
    lines.extend_from_slice(name_of(item.field).unwrap_or_default())?;
    lines.extend_from_slice(b"\",")?;
    lines.extend_from_slice(buffer.format(item.value).as_bytes())?;
    lines.push(b']')?;
    Ok(())
}

/// Appends what comes after the fields.
fn put_end(
    lines: &mut Vec<u8>,
    refused: Option<u16>,
    structure: Structure,
    unit: u64,
) -> Result<(), AllocError>
    ensures { OnOk result (lines.new.items ≡ lines.old.items ++ line.end_json refused structure unit) }
{
    lines.push(b']')?;
    put_refused(lines, refused)?;
    lines.extend_from_slice(b",\"structure\":\"")?;
    lines.extend_from_slice(word_of(structure).as_bytes())?;
    put_number(lines, b"\",\"unit\":", unit)?;
    lines.extend_from_slice(b"}\n")?;
    Ok(())
}

/// Appends the field that is refused, if there is one.
fn put_refused(lines: &mut Vec<u8>, refused: Option<u16>) -> Result<(), AllocError>
    ensures { OnOk result (lines.new.items ≡ lines.old.items ++ line.refused_json refused) }
{
    match refused {
        Some(field) => put_number(lines, b",\"refused\":", u64::from(field)),
        None => Ok(()),
    }
}

/// Appends a text and a number.
fn put_number(lines: &mut Vec<u8>, before: &[u8], number: u64) -> Result<(), AllocError>
    ensures { OnOk result (lines.new.items ≡ lines.old.items ++ (before.now ++ decimal number)) }
{
    let mut buffer = Buffer::new();
    lines.extend_from_slice(before)?;
    lines.extend_from_slice(buffer.format(number).as_bytes())
}

/// Returns the name of a structure.
fn word_of(structure: Structure) -> &'static str
    ensures { result.now ≡ line.structure_word structure }
{
    match structure {
        Structure::Vps => "VPS",
        Structure::Sps => "SPS",
        Structure::Pps => "PPS",
        Structure::Aps => "APS",
        Structure::PictureHeader => "PH",
        Structure::SliceHeader => "SH",
    }
}
