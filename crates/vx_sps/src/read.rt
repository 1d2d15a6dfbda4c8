//! Reading and writing of a sequence parameter set, and selection of its kept fields.

ghost use Rattle.std.specs.Prelude.{◌≡◌, ◌≤◌, length, IfOk};
ghost use Rattle.vx_table.specs.Kept.{Keeps};
ghost use Rattle.vx_bits.specs.Place.{Place};
ghost use Rattle.vx_bits.specs.Limits.{unit_limit};
ghost use Rattle.vx_table.specs.Reading.{Reads, ReadsValue, at_front};
ghost use Rattle.vx_table.specs.Writing.{Writes};
ghost use Rattle.vx_sps.specs.Structure.{sps_form};
ghost use Rattle.vx_sps.specs.Set.{IsSpsSpelling};
ghost use Rattle.vx_sps.specs.Depends.{kept_sps_items};

use crate::sps::Sps;
use crate::walk::code_sps;
use std::alloc::{AllocError, Global};
use vx_bits::{BitReader, BitWriter, Fields, ReadError, short_rbsp};
use vx_table::{Scope, SpellError, Unwritten, only_memory};

/// Reads a set's items, and appends them.
fn read_fields(bits: &mut BitReader<'_>, items: &mut Fields) -> Result<(), ReadError>
    ensures { Reads sps_form bits.old items.old result bits.new items.new }
{
    code_sps(&mut Scope::new(), bits, items)
}

/// Writes the set whose items come next.
fn write_fields(bits: &mut BitWriter, items: &mut Unwritten<'_>) -> Result<(), SpellError>
    ensures { Writes sps_form bits.old items.old result bits.new items.new }
{
    code_sps(&mut Scope::new(), bits, items)
}

/// Selects from the set whose items come next: appends those of its kept fields.
fn keep_fields(items: &mut Unwritten<'_>, kept: &mut Fields) -> Result<(), SpellError>
    ensures { Keeps sps_form kept.old items.old result kept.new items.new }
{
    code_sps(&mut Scope::new(), items, kept)
}

/// Reads the fields of a sequence parameter set, `seq_parameter_set_rbsp()` (clause 7.3.2.4), and appends their items.
///
/// The RBSP has at most 2^23 bytes.
///
/// # Errors
///
/// - `Refused` with the first refusal.
/// - `Memory` if memory runs out.
///
/// After an error, `into` has gained the fields read before.
pub fn read_sps_fields(rbsp: &[u8], into: &mut Fields) -> Result<(), ReadError>
    requires { length rbsp.now ≤ unit_limit }
    ensures { (new : Place) × Reads sps_form (at_front rbsp.now) into.old result new into.new }
{
    let mut bits = BitReader::new(rbsp);
    read_fields(&mut bits, into)
}

/// Reads the items of a set.
fn read_items(alloc: Global, rbsp: &[u8]) -> Result<Fields, ReadError>
    requires { length rbsp.now ≤ unit_limit }
    ensures { ReadsValue sps_form rbsp.now result }
{
    let mut items = Fields::new(alloc);
    read_sps_fields(rbsp, &mut items)?;
    Ok(items)
}

/// Reads a sequence parameter set, `seq_parameter_set_rbsp()` (clause 7.3.2.4), from an RBSP of at most 2^23 bytes.
///
/// # Errors
///
/// - `Refused` with the first refusal.
/// - `Memory` if memory runs out.
pub fn read_sps(alloc: Global, rbsp: &[u8]) -> Result<Sps, ReadError>
    requires { length rbsp.now ≤ unit_limit }
    ensures { ReadsValue sps_form rbsp.now result }
{
    let items = read_items(alloc, rbsp)?;
    let short = short_rbsp(alloc, rbsp)?;
    Ok(Sps::new(alloc, items, short)?)
}

/// Returns the RBSP of a sequence parameter set (clause 7.3.2.4).
///
/// # Errors
///
/// `AllocError` if memory runs out.
pub fn write_sps(alloc: Global, sps: &Sps) -> Result<Vec<u8>, AllocError>
    ensures { IfOk result (λ bytes. IsSpsSpelling sps.now bytes.items) }
{
    let fields = sps.fields();
    let mut bits = BitWriter::new(alloc);
    let mut items = Unwritten::new(fields, 0, fields.len());
    match write_fields(&mut bits, &mut items) {
        Ok(()) => Ok(bits.into_bytes()),
        Err(error) => Err(only_memory(error)),
    }
}

/// Returns the items of a set's kept fields, in order. A set rewritten from it has the same, whatever its shape.
///
/// # Errors
///
/// `AllocError` if memory runs out.
pub fn keep_sps(alloc: Global, sps: &Sps) -> Result<Fields, AllocError>
    ensures { IfOk result (λ kept. kept ≡ kept_sps_items sps.now) }
{
    let fields = sps.fields();
    let mut kept = Fields::new(alloc);
    let mut items = Unwritten::new(fields, 0, fields.len());
    match keep_fields(&mut items, &mut kept) {
        Ok(()) => Ok(kept),
        Err(error) => Err(only_memory(error)),
    }
}
