//! Reading and writing of a picture parameter set, and selection of its kept fields.
ghost use Rattle.std.specs.Prelude.{◌≡◌, ◌≤◌, length, IfOk, Ok};
ghost use Rattle.vx_bits.specs.Limits.{unit_limit};
ghost use Rattle.vx_table.specs.Reading.{ReadsValue};
ghost use Rattle.vx_pps.specs.Pps.{IsPps, IsPpsSpelling, ReadsFields, kept_pps_items, pps_form};

use crate::halt::{Halt, memory_of};
use crate::partition::Partition;
use crate::pps::Pps;
use crate::walk::code_pps;
use std::alloc::{AllocError, Global};
use vx_bits::{BitReader, BitWriter, Fields, ReadError, short_rbsp};
use vx_table::Unwritten;

/// Returns the set of items that were read from an RBSP.
fn set_of(
    alloc: Global,
    fields: Fields,
    partition: Partition,
    rbsp: &[u8],
) -> Result<Pps, AllocError>
    requires set { IsPps fields partition }
    requires read { ReadsValue pps_form rbsp.now (Ok fields) }
    ensures { IfOk result (λ made. made ≡ fields) }
{
    let short = short_rbsp(alloc, rbsp)?;
    Pps::new(alloc, fields, partition, short)
}

/// Reads a picture parameter set, `pic_parameter_set_rbsp()` (clause 7.3.2.5), from an RBSP of at most 2^23 bytes.
///
/// # Errors
///
/// - `Refused` with the first refusal.
/// - `Memory` if memory runs out.
pub fn read_pps(alloc: Global, rbsp: &[u8]) -> Result<Pps, ReadError>
    requires { length rbsp.now ≤ unit_limit }
    ensures { ReadsValue pps_form rbsp.now result }
{
    let mut bits = BitReader::new(rbsp);
    let mut fields = Fields::new(alloc);
    match code_pps(alloc, &mut bits, &mut fields) {
        Ok(partition) => match set_of(alloc, fields, partition, rbsp) {
            Ok(pps) => Ok(pps),
            Err(_) => Err(ReadError::Memory),
        },
        Err(Halt::Memory) => Err(ReadError::Memory),
        Err(Halt::Refused(error)) => Err(error),
    }
}

/// Reads the fields of a picture parameter set, `pic_parameter_set_rbsp()` (clause 7.3.2.5), and appends their items.
///
/// The RBSP has at most 2^23 bytes.
///
/// # Errors
///
/// - `Refused` with the first refusal. `into` has then gained the fields read before.
/// - `Memory` if memory runs out.
pub fn read_pps_fields(alloc: Global, rbsp: &[u8], into: &mut Fields) -> Result<(), ReadError>
    requires { length rbsp.now ≤ unit_limit }
    ensures { ReadsFields rbsp.now into.old result into.new }
{
    let mut bits = BitReader::new(rbsp);
    match code_pps(alloc, &mut bits, into) {
        Ok(_) => Ok(()),
        Err(Halt::Memory) => Err(ReadError::Memory),
        Err(Halt::Refused(error)) => Err(error),
    }
}

/// Returns the RBSP of a picture parameter set (clause 7.3.2.5).
///
/// # Errors
///
/// `AllocError` if memory runs out.
pub fn write_pps(alloc: Global, pps: &Pps) -> Result<Vec<u8>, AllocError>
    ensures { IfOk result (λ bytes. IsPpsSpelling pps.now bytes.items) }
{
    let fields = pps.fields();
    let mut bits = BitWriter::new(alloc);
    let mut items = Unwritten::new(fields, 0, fields.len());
    match code_pps(alloc, &mut bits, &mut items) {
        Ok(_) => Ok(bits.into_bytes()),
        Err(halt) => Err(memory_of(halt)),
    }
}

/// Returns the items of a set's kept fields. Those that say what is in picture headers are included even if they are absent,
/// as 0.
///
/// # Errors
///
/// `AllocError` if memory runs out.
pub fn keep_pps(alloc: Global, pps: &Pps) -> Result<Fields, AllocError>
    ensures { IfOk result (λ kept. kept ≡ kept_pps_items pps.now) }
{
    let fields = pps.fields();
    let mut kept = Fields::new(alloc);
    let mut items = Unwritten::new(fields, 0, fields.len());
    match code_pps(alloc, &mut items, &mut kept) {
        Ok(_) => Ok(kept),
        Err(halt) => Err(memory_of(halt)),
    }
}
