//! Structures that are coded by their tables, and claims on them.
ghost use Rattle.std.specs.Prelude.{◌≤◌, length};
ghost use Rattle.vx_bits.specs.Limits.{unit_limit};

use crate::bits::MOST_READ;
use crate::claims::claimed;
use crate::composite;
use crate::tables::coded;
use crate::words::{
    bytes_of, items_of, numbers_of, push_bytes, push_gap, push_items, push_refusal,
};
use anyhow::{Context, Result, bail};
use std::alloc::{AllocError, Global};
use vx_bits::{BitReader, BitWriter, Fields, ReadError, Refusal};
use vx_table::{
    Part, Rewriter, Row, Scope, SpellError, Unwritten, depends_only_on, keep_parts, keep_table,
    keeps_only, parts_depend_only_on, parts_keep_only, pass_parts, pass_table, read_parts,
    read_table, read_value, rewrite_parts, rewrite_table, write_parts, write_table,
};

/// A structure: a table, tables some of which are there on a condition or in turns, or the one that has a part in direct style.
#[derive(Drop)]
pub(crate) enum Structure {
    Table(&'static [Row]),
    Parts(Vec<Part<'static>>),
    Composite,
}

/// - `value NAME BYTES` prints the items of the value of a table, or why there is none.
/// - `read NAME BYTES FIELD ..` also prints the items before a refusal, and after all the place, and the latest numbers of fields.
/// - `pass NAME BYTES FIELD ..` prints the same except the items.
/// - `write NAME ITEM ..` prints the bytes that items spell, `keep NAME ITEM ..` the items of kept fields, and `rewrite NAME FIELDS ITEM
///   .. / ITEM ..` the items that are put together of those of some fields and those of the others. `left` says that items are left.
/// - `depends NAME GIVEN SHOWN` prints whether fields depend only on shown ones, where given numbers are known, and `stars NAME GIVEN
///   SHOWN` whether the shown ones are those without a star.
pub(crate) fn answer(text: &mut String, alloc: Global, verb: &str, words: &[&str]) -> Result<()> {
    match (verb, words) {
        ("depends" | "stars", [name, given, shown]) => {
            tell_claim(
                text,
                alloc,
                verb == "depends",
                &claimed(alloc, name)?,
                given,
                shown,
            )
        }
        (_, [name, words @ ..]) => tell_coded(text, alloc, verb, &coded(alloc, name)?, words),
        _ => bail!("no such call"),
    }
}

/// Appends the result of a line of a structure.
fn tell_coded(
    text: &mut String,
    alloc: Global,
    verb: &str,
    structure: &Structure,
    words: &[&str],
) -> Result<()> {
    match (verb, words) {
        ("value", [bytes]) => tell_value(text, alloc, structure, bytes),
        ("read", [bytes, fields @ ..]) => tell_read(text, alloc, structure, bytes, fields),
        ("pass", [bytes, fields @ ..]) => tell_passed(text, alloc, structure, bytes, fields),
        ("write", items) => tell_written(text, alloc, structure, &items_of(alloc, items)?),
        ("keep", items) => tell_kept(text, alloc, structure, &items_of(alloc, items)?),
        ("rewrite", [fields, items @ ..]) => rewrite_words(text, alloc, structure, fields, items),
        _ => bail!("no such call of a structure"),
    }
}

/// Appends whether a claim holds.
fn tell_claim(
    text: &mut String,
    alloc: Global,
    depends: bool,
    structure: &Structure,
    given: &str,
    shown: &str,
) -> Result<()> {
    let (given, shown) = (numbers_of(alloc, given)?, numbers_of(alloc, shown)?);
    let holds = holds(depends, structure, &given, &shown)?;
    Ok(write!(text, "{holds}")?)
}

/// Returns whether a claim holds: of what fields depend on, or else of stars.
fn holds(depends: bool, structure: &Structure, given: &[u16], shown: &[u16]) -> Result<bool> {
    match structure {
        Structure::Table(rows) if depends => Ok(depends_only_on(rows, given, shown)),
        Structure::Table(rows) => Ok(keeps_only(rows, given, shown)),
        Structure::Parts(parts) if depends => Ok(parts_depend_only_on(parts, given, shown)),
        Structure::Parts(parts) => Ok(parts_keep_only(parts, given, shown)),
        Structure::Composite => bail!("nothing is claimed of it here"),
    }
}

/// Returns the bytes of a word, if they aren't too many.
fn rbsp_of(alloc: Global, word: &str) -> Result<Rbsp> {
    let bytes = bytes_of(alloc, word)?;
    if bytes.len() > MOST_READ {
        bail!("too many bytes");
    }
    Ok(Rbsp { bytes })
}

/// Bytes that can be read.
#[derive(Drop)]
struct Rbsp {
    bytes: Vec<u8>,
    ghost few: { length bytes.items ≤ unit_limit },
}

/// Reads a structure.
fn read(
    structure: &Structure,
    scope: &mut Scope,
    bits: &mut BitReader<'_>,
    items: &mut Fields,
) -> Result<(), ReadError> {
    match structure {
        Structure::Table(rows) => read_table(rows, scope, bits, items),
        Structure::Parts(parts) => read_parts(parts, scope, bits, items),
        Structure::Composite => composite::read(scope, bits, items),
    }
}

/// Skips a structure.
fn pass(structure: &Structure, scope: &mut Scope, bits: &mut BitReader<'_>) -> Result<(), Refusal> {
    match structure {
        Structure::Table(rows) => pass_table(rows, scope, bits),
        Structure::Parts(parts) => pass_parts(parts, scope, bits),
        Structure::Composite => composite::pass(scope, bits),
    }
}

/// Writes a structure.
fn write(
    structure: &Structure,
    bits: &mut BitWriter,
    items: &mut Unwritten<'_>,
) -> Result<(), SpellError> {
    let mut scope = Scope::new();
    match structure {
        Structure::Table(rows) => write_table(rows, &mut scope, bits, items),
        Structure::Parts(parts) => write_parts(parts, &mut scope, bits, items),
        Structure::Composite => composite::write(&mut scope, bits, items),
    }
}

/// Sifts the items of a structure.
fn keep(
    structure: &Structure,
    items: &mut Unwritten<'_>,
    into: &mut Fields,
) -> Result<(), SpellError> {
    let mut scope = Scope::new();
    match structure {
        Structure::Table(rows) => keep_table(rows, &mut scope, items, into),
        Structure::Parts(parts) => keep_parts(parts, &mut scope, items, into),
        Structure::Composite => composite::keep(&mut scope, items, into),
    }
}

/// Rewrites a structure.
fn rewrite(
    structure: &Structure,
    rewriter: &mut Rewriter<'_>,
    into: &mut Fields,
) -> Result<(), SpellError> {
    let mut scope = Scope::new();
    match structure {
        Structure::Table(rows) => rewrite_table(rows, &mut scope, rewriter, into),
        Structure::Parts(parts) => rewrite_parts(parts, &mut scope, rewriter, into),
        Structure::Composite => composite::rewrite(&mut scope, rewriter, into),
    }
}

/// Appends the value of a table.
fn tell_value(text: &mut String, alloc: Global, structure: &Structure, bytes: &str) -> Result<()> {
    let Structure::Table(rows) = structure else {
        bail!("no table");
    };
    let rbsp = rbsp_of(alloc, bytes)?;
    match read_value(alloc, rows, &mut Scope::new(), &rbsp.bytes) {
        Ok(items) => Ok(push_items(text, &items)?),
        Err(ReadError::Refused(refusal)) => Ok(push_refusal(text, refusal)?),
        Err(ReadError::Memory) => bail!("out of memory"),
    }
}

/// Appends a structure that is read.
fn tell_read(
    text: &mut String,
    alloc: Global,
    structure: &Structure,
    bytes: &str,
    fields: &[&str],
) -> Result<()> {
    let rbsp = rbsp_of(alloc, bytes)?;
    let mut scope = Scope::new();
    let mut bits = BitReader::new(&rbsp.bytes);
    let mut items = Fields::new(alloc);
    let read = read(structure, &mut scope, &mut bits, &mut items);
    push_items(text, &items)?;
    push_reading(text, read, &bits)?;
    push_latest(text, &scope, fields)
}

/// Appends how reading ended, if memory sufficed.
fn push_reading(
    text: &mut String,
    read: Result<(), ReadError>,
    bits: &BitReader<'_>,
) -> Result<()> {
    match read {
        Ok(()) => Ok(push_end(text, None, bits)?),
        Err(ReadError::Refused(refusal)) => Ok(push_end(text, Some(refusal), bits)?),
        Err(ReadError::Memory) => bail!("out of memory"),
    }
}

/// Appends a structure that is skipped.
fn tell_passed(
    text: &mut String,
    alloc: Global,
    structure: &Structure,
    bytes: &str,
    fields: &[&str],
) -> Result<()> {
    let rbsp = rbsp_of(alloc, bytes)?;
    let mut scope = Scope::new();
    let mut bits = BitReader::new(&rbsp.bytes);
    let passed = pass(structure, &mut scope, &mut bits);
    push_end(text, passed.err(), &bits)?;
    push_latest(text, &scope, fields)
}

/// Appends how reading ended, and where.
fn push_end(
    text: &mut String,
    refusal: Option<Refusal>,
    bits: &BitReader<'_>,
) -> Result<(), AllocError> {
    push_gap(text)?;
    match refusal {
        Some(refusal) => push_refusal(text, refusal)?,
        None => text.push_str("ok")?,
    }
    write!(text, "@{}", bits.at())
}

/// Appends the latest numbers of fields.
fn push_latest(text: &mut String, scope: &Scope, fields: &[&str]) -> Result<()> {
    for field in fields {
        let of = field.parse::<u16>()?;
        write!(text, " {of}:{}", scope.latest(of))?;
    }
    Ok(())
}

/// Appends a structure that is written.
fn tell_written(
    text: &mut String,
    alloc: Global,
    structure: &Structure,
    items: &Fields,
) -> Result<()> {
    let mut bits = BitWriter::new(alloc);
    let mut unwritten = Unwritten::new(items, 0, items.len());
    let written = write(structure, &mut bits, &mut unwritten);
    if spelled(text, written, unwritten.is_empty())? {
        push_bytes(text, &bits.close()?)?;
    }
    Ok(())
}

/// Appends a structure whose items are sifted.
fn tell_kept(
    text: &mut String,
    alloc: Global,
    structure: &Structure,
    items: &Fields,
) -> Result<()> {
    let mut into = Fields::new(alloc);
    let mut unwritten = Unwritten::new(items, 0, items.len());
    let kept = keep(structure, &mut unwritten, &mut into);
    if spelled(text, kept, unwritten.is_empty())? {
        push_items(text, &into)?;
    }
    Ok(())
}

/// Appends a structure that is rewritten, from these words.
fn rewrite_words(
    text: &mut String,
    alloc: Global,
    structure: &Structure,
    fields: &str,
    items: &[&str],
) -> Result<()> {
    let slash = items.iter().position(|word| *word == "/").context("no /")?;
    let (shown, others) = items.split_at(slash);
    let (shown, others) = (items_of(alloc, shown)?, items_of(alloc, &others[1..])?);
    let names = numbers_of(alloc, fields)?;
    tell_rewritten(text, alloc, structure, &names, &shown, &others)
}

/// Appends a structure that is rewritten: from the items of these fields, and from the others.
fn tell_rewritten(
    text: &mut String,
    alloc: Global,
    structure: &Structure,
    names: &[u16],
    shown: &Fields,
    others: &Fields,
) -> Result<()> {
    let mut rewriter = Rewriter::new(
        names,
        Unwritten::new(shown, 0, shown.len()),
        Unwritten::new(others, 0, others.len()),
    );
    let mut into = Fields::new(alloc);
    let rewritten = rewrite(structure, &mut rewriter, &mut into);
    if spelled(text, rewritten, rewriter.is_empty())? {
        push_items(text, &into)?;
    }
    Ok(())
}

/// Returns whether items were written; appends why not, and whether some are left.
fn spelled(text: &mut String, spelled: Result<(), SpellError>, all: bool) -> Result<bool> {
    match spelled {
        Ok(()) if all => Ok(true),
        Ok(()) => {
            text.push_str("left ")?;
            Ok(true)
        }
        Err(SpellError::NoValue) => {
            text.push_str("no value")?;
            Ok(false)
        }
        Err(SpellError::Memory) => bail!("out of memory"),
    }
}
