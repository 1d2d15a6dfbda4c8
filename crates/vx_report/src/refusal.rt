//! The line that names a broken rule and its place.

ghost use Rattle.std.specs.Prelude.{◌≡◌, codes, string_bytes, IfOk};
ghost use Rattle.vx_report.specs.RefusalLine as line;
ghost use Rattle.vx_report.specs.RefusalLine.{refusal_text};

use std::alloc::{AllocError, Global};
use vx_aps::{ALF, LMCS, SCALING};
use vx_bits::rules::{
    LAYOUT, LONG_SOURCE, PICTURE_HEADER, PPS_TOOLS, SET_MISSING, SPS_TOOLS, TOO_MANY_FILES,
    TOO_MANY_SOURCES,
};
use vx_bits::{BitCause, Refusal};
use vx_pic::SPS;

/// Where a rule was broken.
#[derive(Clone, Copy, PartialEq, Eq)]
pub struct Where {
    /// The source, from 0.
    pub source: u16,
    /// The NAL unit of that source, from 0; at its end, its number of units.
    pub unit: u64,
    /// The picture, from 0.
    pub picture: u64,
    /// Whether the rule is about what was to be written, not about what was read.
    pub written: bool,
}

/// Makes the line of a broken rule, with its line feed.
///
/// | rule | line |
/// |---|---|
/// | framing | `F3 source 0 byte 5` |
/// | syntax | `Y source 0 unit 0 field 22 bit 40 Short` |
/// | profile | `P4 source 0 unit 3` |
/// | structure | `S4 source 0 unit 3`, `S1 source 0 unit 1 PPS 3` with the set, `S12 source 0 unit 2 layout 3` with the fault |
/// | limit on what is read | `L1 source 0 unit 3`, `L3 source 0` of a whole source |
/// | limit on what is to be written | `L6 picture 5` |
/// | limit on what the arguments name | `L4` |
/// | extraction | `E2 picture 5` |
/// | merging | `M3 picture 5 source 1`, `M7 picture 5 source 1 field 439` with the field |
///
/// *Errors:* [`AllocError`] if memory runs out.
pub fn refusal_line(alloc: Global, refusal: Refusal, place: Where) -> Result<Vec<u8>, AllocError>
    ensures { IfOk result (λ line. line.items ≡ refusal_text refusal place) }
{
    let text = match refusal {
        Refusal::Framing { code, byte } => framing_line(alloc, code, byte, place),
        Refusal::Syntax { field, bit, cause } => syntax_line(alloc, field, bit, cause, place),
        Refusal::Profile { code } => profile_line(alloc, code, place),
        Refusal::Limit { code } => limit_line(alloc, code, place),
        Refusal::Structure { code, kind, id } => structure_line(alloc, code, kind, id, place),
        Refusal::Extract { code } => extract_line(alloc, code, place),
        Refusal::Merge {
            code,
            source,
            field,
        } => merge_line(alloc, code, source, field, place),
    }?;
    Ok(text.into_bytes())
}

fn framing_line(alloc: Global, code: u8, byte: u64, place: Where) -> Result<String, AllocError>
    ensures { IfOk result (λ text. string_bytes text ≡ line.framing_text code byte place) }
{
    format!(in alloc; "F{code} source {} byte {byte}\n", place.source)
}

fn syntax_line(
    alloc: Global,
    field: u16,
    bit: u32,
    cause: BitCause,
    place: Where,
) -> Result<String, AllocError>
    ensures { IfOk result (λ text. string_bytes text ≡ line.syntax_text field bit cause place) }
{
    let cause = cause_word(cause);
    format!(in alloc;
        "Y source {} unit {} field {field} bit {bit} {cause}\n",
        place.source, place.unit
    )
}

/// Returns the name of a cause.
fn cause_word(cause: BitCause) -> &'static str
    ensures { result.now ≡ line.cause_word cause }
{
    match cause {
        BitCause::Short => "Short",
        BitCause::LongCode => "LongCode",
        BitCause::BadTrailing => "BadTrailing",
        BitCause::BadAlignment => "BadAlignment",
        BitCause::OutOfRange => "OutOfRange",
    }
}

fn profile_line(alloc: Global, code: u8, place: Where) -> Result<String, AllocError>
    ensures { IfOk result (λ text. string_bytes text ≡ line.refused_unit_text (codes "P") code place) }
{
    format!(in alloc; "P{code} source {} unit {}\n", place.source, place.unit)
}

fn limit_line(alloc: Global, code: u8, place: Where) -> Result<String, AllocError>
    ensures { IfOk result (λ text. string_bytes text ≡ line.limit_text code place) }
{
    if is_of_words(code) {
        return words_limit_line(alloc, code);
    }
    if place.written {
        return written_limit_line(alloc, code, place);
    }
    match code {
        LONG_SOURCE => source_limit_line(alloc, code, place),
        _ => unit_limit_line(alloc, code, place),
    }
}

/// Returns whether it is a limit on what the arguments name.
fn is_of_words(code: u8) -> bool
    ensures { result ≡ line.is_of_words code }
{
    matches!(code, TOO_MANY_SOURCES | TOO_MANY_FILES)
}

fn words_limit_line(alloc: Global, code: u8) -> Result<String, AllocError>
    ensures { IfOk result (λ text. string_bytes text ≡ line.words_limit_text code) }
{
    format!(in alloc; "L{code}\n")
}

fn written_limit_line(alloc: Global, code: u8, place: Where) -> Result<String, AllocError>
    ensures { IfOk result (λ text. string_bytes text ≡ line.written_limit_text code place) }
{
    format!(in alloc; "L{code} picture {}\n", place.picture)
}

fn source_limit_line(alloc: Global, code: u8, place: Where) -> Result<String, AllocError>
    ensures { IfOk result (λ text. string_bytes text ≡ line.source_limit_text code place) }
{
    format!(in alloc; "L{code} source {}\n", place.source)
}

fn unit_limit_line(alloc: Global, code: u8, place: Where) -> Result<String, AllocError>
    ensures { IfOk result (λ text. string_bytes text ≡ line.refused_unit_text (codes "L") code place) }
{
    format!(in alloc; "L{code} source {} unit {}\n", place.source, place.unit)
}

fn structure_line(
    alloc: Global,
    code: u8,
    kind: u8,
    id: u8,
    place: Where,
) -> Result<String, AllocError>
    ensures { IfOk result (λ text. string_bytes text ≡ line.structure_text code kind id place) }
{
    match code {
        SET_MISSING => missing_line(alloc, kind, id, place),
        LAYOUT => layout_line(alloc, id, place),
        _ => order_line(alloc, code, place),
    }
}

/// Makes the line of a rule on the order of units.
fn order_line(alloc: Global, code: u8, place: Where) -> Result<String, AllocError>
    ensures { IfOk result (λ text. string_bytes text ≡ line.refused_unit_text (codes "S") code place) }
{
    format!(in alloc; "S{code} source {} unit {}\n", place.source, place.unit)
}

fn missing_line(alloc: Global, kind: u8, id: u8, place: Where) -> Result<String, AllocError>
    ensures { IfOk result (λ text. string_bytes text ≡ line.missing_text kind id place) }
{
    let word = set_word(kind);
    format!(in alloc;
        "S{SET_MISSING} source {} unit {} {word} {id}\n",
        place.source, place.unit
    )
}

/// Returns the name of a type of sets.
fn set_word(kind: u8) -> &'static str
    ensures { result.now ≡ line.set_word kind }
{
    match kind {
        ALF => "ALF",
        LMCS => "LMCS",
        SCALING => "SCALING",
        SPS => "SPS",
        _ => "PPS",
    }
}

fn layout_line(alloc: Global, fault: u8, place: Where) -> Result<String, AllocError>
    ensures { IfOk result (λ text. string_bytes text ≡ line.layout_text fault place) }
{
    format!(in alloc;
        "S{LAYOUT} source {} unit {} layout {fault}\n",
        place.source, place.unit
    )
}

fn extract_line(alloc: Global, code: u8, place: Where) -> Result<String, AllocError>
    ensures { IfOk result (λ text. string_bytes text ≡ line.extract_text code place) }
{
    format!(in alloc; "E{code} picture {}\n", place.picture)
}

fn merge_line(
    alloc: Global,
    code: u8,
    source: u16,
    field: u16,
    place: Where,
) -> Result<String, AllocError>
    ensures { IfOk result (λ text. string_bytes text ≡ line.merge_text code source field place) }
{
    if names_field(code) {
        return round_field_line(alloc, code, source, field, place);
    }
    round_line(alloc, code, source, place)
}

/// Returns whether the rule compares fields.
fn names_field(code: u8) -> bool
    ensures { result ≡ line.names_field code }
{
    matches!(code, SPS_TOOLS | PPS_TOOLS | PICTURE_HEADER)
}

fn round_line(alloc: Global, code: u8, source: u16, place: Where) -> Result<String, AllocError>
    ensures { IfOk result (λ text. string_bytes text ≡ line.round_text code source place) }
{
    format!(in alloc; "M{code} picture {} source {source}\n", place.picture)
}

fn round_field_line(
    alloc: Global,
    code: u8,
    source: u16,
    field: u16,
    place: Where,
) -> Result<String, AllocError>
    ensures { IfOk result (λ text. string_bytes text ≡ line.round_field_text code source field place) }
{
    format!(in alloc;
        "M{code} picture {} source {source} field {field}\n",
        place.picture
    )
}
