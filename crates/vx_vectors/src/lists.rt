//! Results for structures of reference picture lists, for the lists of headers, and for prediction weights.
ghost use Rattle.std.specs.Prelude.{◌≤◌, IfOk};

use crate::fault::LineFault;
use crate::inputs::write_list;
use crate::line::LineBytes;
use crate::meaning::write_table;
use crate::text::{write_bytes, write_same};
use crate::words::{flag, items, numbers, write_reading, write_refused};
use std::alloc::{AllocError, Global};
use vx_bits::{BitReader, BitWriter, Fields};
use vx_fields::names::rpl::{ENTRIES_0, ENTRIES_1};
use vx_rpl::{
    RefLists, RplNumbers, RplTable, WeightNumbers, code_lists, read_lists, read_struct,
    read_weights, write_lists, write_struct, write_weights,
};
use vx_table::SpellError;

/// Returns what sets in force say of lists: whether there are long-term entries, whether there are weights, the bits of a count, and
/// whether list 1 has an index of its own.
fn rpl_numbers(alloc: Global, word: &str) -> Result<RplNumbers, LineFault>
    ensures { IfOk result (λ numbers. (4 ≤ numbers.lsb_bits) × (numbers.lsb_bits ≤ 16)) }
{
    let numbers = numbers(alloc, word)?;
    let [long_term, weighted, lsb_bits, rpl1_idx_present] = numbers.as_slice() else {
        return Err(LineFault::Words);
    };
    if *lsb_bits < 4 || 16 < *lsb_bits {
        return Err(LineFault::Number);
    }
    Ok(RplNumbers {
        long_term: *long_term != 0,
        weighted: *weighted != 0,
        lsb_bits: *lsb_bits,
        rpl1_idx_present: *rpl1_idx_present != 0,
    })
}

/// Returns the structures of both lists, as items state them.
fn table(alloc: Global, numbers: &RplNumbers, word: &str) -> Result<Box<RplTable>, LineFault> {
    let items = items(alloc, word)?;
    let table = RplTable::new(alloc, numbers, &items, 0, items.len())?;
    Ok(Box::new(alloc, table).map_err(AllocError::from)?)
}

/// `structures WEIGHTED ITEMS`: the structures of list 0 and of list 1 that items of an SPS state.
pub(crate) fn answer_structures(
    text: &mut String,
    alloc: Global,
    words: &[&str],
) -> Result<(), LineFault> {
    let [weighted, items] = words else {
        return Err(LineFault::Words);
    };
    let numbers = RplNumbers {
        long_term: false,
        weighted: flag(weighted)?,
        lsb_bits: 8,
        rpl1_idx_present: true,
    };
    let table = table(alloc, &numbers, items)?;
    write_table(text, &table)
}

/// Returns the index of a structure, and how many there are.
fn place(alloc: Global, word: &str) -> Result<(u32, u32), LineFault> {
    let numbers = numbers(alloc, word)?;
    match numbers.as_slice() {
        [index, count] => Ok((*index, *count)),
        _ => Err(LineFault::Words),
    }
}

/// Appends what is read of a structure at a place.
fn write_structure(
    text: &mut String,
    alloc: Global,
    in_force: &RplNumbers,
    place: (u32, u32),
    bytes: &LineBytes,
) -> Result<(), LineFault>
    requires { (4 ≤ in_force.now.lsb_bits) × (in_force.now.lsb_bits ≤ 16) }
{
    let (index, count) = place;
    let mut bits = BitReader::new(bytes.as_slice());
    let mut read = Fields::new(alloc);
    match read_struct(&mut bits, in_force, index, count, &mut read) {
        Ok(()) => write_reading(text, bits.at(), &read),
        Err(error) => write_refused(text, bits.at(), &read, error),
    }
}

/// `structure NUMBERS INDEX,COUNT BYTES`: what is read of structure INDEX of COUNT of an SPS, or of one in a header.
pub(crate) fn answer_structure(
    text: &mut String,
    alloc: Global,
    words: &[&str],
) -> Result<(), LineFault> {
    let [in_force, at, bytes] = words else {
        return Err(LineFault::Words);
    };
    let place = place(alloc, at)?;
    let in_force = rpl_numbers(alloc, in_force)?;
    let bytes = LineBytes::parse(alloc, bytes)?;
    write_structure(text, alloc, &in_force, place, &bytes)
}

/// Returns the bytes of what was written, with a one and zeros after it; `None` if the items weren't those of a value.
fn closed(spelled: Result<(), SpellError>, bits: BitWriter) -> Result<Option<Vec<u8>>, LineFault> {
    match spelled {
        Ok(()) => Ok(Some(bits.close()?)),
        Err(SpellError::NoValue) => Ok(None),
        Err(SpellError::Memory) => Err(LineFault::Memory),
    }
}

/// Appends whether what was written is this.
fn write_again(text: &mut String, written: Option<&Vec<u8>>, read: &[u8]) -> Result<(), LineFault> {
    match written {
        Some(written) => Ok(write_same(text, written.as_slice(), read)?),
        None => Ok(text.push_str(" | no value")?),
    }
}

/// Appends the bytes of a structure of these items.
fn write_spelled(
    text: &mut String,
    alloc: Global,
    in_force: &RplNumbers,
    told: &Fields,
) -> Result<(), LineFault>
    requires { (4 ≤ in_force.now.lsb_bits) × (in_force.now.lsb_bits ≤ 16) }
{
    let mut bits = BitWriter::new(alloc);
    let spelled = write_struct(&mut bits, told, 0, told.len(), in_force);
    match closed(spelled, bits)? {
        Some(bytes) => Ok(write_bytes(text, bytes.as_slice())?),
        None => Ok(text.push_str("no value")?),
    }
}

/// `spell NUMBERS ITEMS`: the bits of a structure of these items.
pub(crate) fn answer_spell(
    text: &mut String,
    alloc: Global,
    words: &[&str],
) -> Result<(), LineFault> {
    let [in_force, told] = words else {
        return Err(LineFault::Words);
    };
    let in_force = rpl_numbers(alloc, in_force)?;
    let told = items(alloc, told)?;
    write_spelled(text, alloc, &in_force, &told)
}

/// Appends the entries of both lists.
fn write_lists_read(text: &mut String, lists: &RefLists) -> Result<(), AllocError> {
    text.push_str(" | ")?;
    write_list(text, &lists.first)?;
    text.push_str("|")?;
    write_list(text, &lists.second)
}

/// Appends how many entries of list 0 and of list 1 a walk over lists counts.
fn write_entries_walked(
    text: &mut String,
    in_force: &RplNumbers,
    table: &RplTable,
    bytes: &LineBytes,
) -> Result<(), LineFault>
    requires { (4 ≤ in_force.now.lsb_bits) × (in_force.now.lsb_bits ≤ 16) }
{
    let mut scope = in_force.scope();
    let mut bits = BitReader::new(bytes.as_slice());
    code_lists(table, &mut scope, &mut bits, &mut ())?;
    let (first, second) = (scope.latest(ENTRIES_0), scope.latest(ENTRIES_1));
    write!(text, " | entries={first},{second}")?;
    Ok(())
}

/// Returns what is written of the items of lists.
fn lists_written(
    alloc: Global,
    in_force: &RplNumbers,
    table: &RplTable,
    read: &Fields,
) -> Result<Option<Vec<u8>>, LineFault>
    requires { (4 ≤ in_force.now.lsb_bits) × (in_force.now.lsb_bits ≤ 16) }
{
    let mut bits = BitWriter::new(alloc);
    let spelled = write_lists(&mut bits, read, 0, read.len(), in_force, table);
    closed(spelled, bits)
}

/// Appends lists that were read: their entries, how many a walk counts, and what is written of their items.
fn write_lists_told(
    text: &mut String,
    alloc: Global,
    in_force: &RplNumbers,
    table: &RplTable,
    bytes: &LineBytes,
    read: &Fields,
    lists: &RefLists,
) -> Result<(), LineFault>
    requires { (4 ≤ in_force.now.lsb_bits) × (in_force.now.lsb_bits ≤ 16) }
{
    write_lists_read(text, lists)?;
    write_entries_walked(text, in_force, table, bytes)?;
    let written = lists_written(alloc, in_force, table, read)?;
    write_again(text, written.as_ref(), bytes.as_slice())
}

/// Appends what is read of lists, and what they give.
fn write_lists_of(
    text: &mut String,
    alloc: Global,
    in_force: &RplNumbers,
    table: &RplTable,
    bytes: &LineBytes,
) -> Result<(), LineFault>
    requires { (4 ≤ in_force.now.lsb_bits) × (in_force.now.lsb_bits ≤ 16) }
{
    let mut bits = BitReader::new(bytes.as_slice());
    let mut read = Fields::new(alloc);
    match read_lists(alloc, &mut bits, in_force, table, &mut read) {
        Ok(lists) => {
            write_reading(text, bits.at(), &read)?;
            write_lists_told(text, alloc, in_force, table, bytes, &read, &lists)
        }
        Err(error) => write_refused(text, bits.at(), &read, error),
    }
}

/// `lists NUMBERS ITEMS BYTES`: what is read of the two lists of a header, under the structures that items of an SPS state.
pub(crate) fn answer_lists(
    text: &mut String,
    alloc: Global,
    words: &[&str],
) -> Result<(), LineFault> {
    let [in_force, structures, bytes] = words else {
        return Err(LineFault::Words);
    };
    let in_force = rpl_numbers(alloc, in_force)?;
    let table = table(alloc, &in_force, structures)?;
    let bytes = LineBytes::parse(alloc, bytes)?;
    write_lists_of(text, alloc, &in_force, &table, &bytes)
}

/// Returns what the sets in force and the lists say of weights.
fn weight_numbers(alloc: Global, word: &str) -> Result<WeightNumbers, LineFault> {
    let numbers = numbers(alloc, word)?;
    let [
        chroma,
        in_header,
        bipred,
        first,
        second,
        in_first,
        in_second,
    ] = numbers.as_slice()
    else {
        return Err(LineFault::Words);
    };
    Ok(WeightNumbers {
        chroma: *chroma != 0,
        in_header: *in_header != 0,
        bipred: *bipred != 0,
        entries: [*first, *second],
        active: [*in_first, *in_second],
    })
}

/// Returns what is written of the items of weights.
fn weights_written(
    alloc: Global,
    numbers: &WeightNumbers,
    read: &Fields,
) -> Result<Option<Vec<u8>>, LineFault> {
    let mut bits = BitWriter::new(alloc);
    let spelled = write_weights(&mut bits, read, 0, read.len(), numbers);
    closed(spelled, bits)
}

/// Appends the items of weights that were read up to a place, and what is written of them.
fn write_weights_told(
    text: &mut String,
    alloc: Global,
    numbers: &WeightNumbers,
    at: u32,
    read: &Fields,
    bytes: &[u8],
) -> Result<(), LineFault> {
    write_reading(text, at, read)?;
    let written = weights_written(alloc, numbers, read)?;
    write_again(text, written.as_ref(), bytes)
}

/// Appends what is read of weights, and what is written of it.
fn write_weights_of(
    text: &mut String,
    alloc: Global,
    numbers: &WeightNumbers,
    bytes: &LineBytes,
) -> Result<(), LineFault> {
    let mut bits = BitReader::new(bytes.as_slice());
    let mut read = Fields::new(alloc);
    match read_weights(&mut bits, numbers, &mut read) {
        Ok(()) => write_weights_told(text, alloc, numbers, bits.at(), &read, bytes.as_slice()),
        Err(error) => write_refused(text, bits.at(), &read, error),
    }
}

/// `weights NUMBERS BYTES`: what is read of prediction weights, and what is written of it.
pub(crate) fn answer_weights(
    text: &mut String,
    alloc: Global,
    words: &[&str],
) -> Result<(), LineFault> {
    let [numbers, bytes] = words else {
        return Err(LineFault::Words);
    };
    let numbers = weight_numbers(alloc, numbers)?;
    let bytes = LineBytes::parse(alloc, bytes)?;
    write_weights_of(text, alloc, &numbers, &bytes)
}
