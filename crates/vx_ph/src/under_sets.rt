//! Picture headers under the sets in force.
ghost use Rattle.std.specs.Prelude.{◌≤◌, length, IfOk, OnOk, OnErr};
ghost use Rattle.vx_bits.specs.Place.{Place};
ghost use Rattle.vx_bits.specs.Limits.{unit_limit};
ghost use Rattle.vx_table.specs.Reading.{Reads, at_front};
ghost use Rattle.vx_ph.specs.Header.{header_form};
ghost use Rattle.vx_ph.specs.InForce.{in_force, structures};
ghost use Rattle.vx_ph.specs.Picture.{IsHeader, ReadsHeader, ReadsUnit, IsPictureHeaderSpelling, IsPictureHeaderFront, IsPictureHeaderUnit, unit_form};

use crate::header::PictureHeader;
use crate::read::{read_fields, read_header_at};
use crate::scope::in_force;
use crate::unit::{read_unit, read_unit_at};
use crate::write::{write_header_at, write_unit_at};
use std::alloc::{AllocError, Global};
use vx_bits::{BitReader, BitWriter, Fields, ReadError};
use vx_pps::Pps;
use vx_sps::Sps;

/// Reads a picture header, `picture_header_structure()` (clause 7.3.2.8). The end of a unit isn't read.
///
/// # Errors
///
/// - `Refused` with the first refusal. `bits` is then at its field.
/// - `Memory` if memory runs out.
pub fn read_ph(
    alloc: Global,
    bits: &mut BitReader<'_>,
    sps: &Sps,
    pps: &Pps,
) -> Result<PictureHeader, ReadError>
    ensures answer { ReadsHeader (structures sps.now) (in_force sps.now pps.now) bits.old result bits.new }
    ensures value { IfOk result (λ header. IsHeader (structures sps.now) (in_force sps.now pps.now) header) }
{
    read_header_at(alloc, bits, sps.table(), &in_force(sps, pps))
}

/// Reads the RBSP of a picture header unit, `picture_header_rbsp()` (clause 7.3.2.7), with its trailing bits.
///
/// The RBSP has at most 2^23 bytes.
///
/// # Errors
///
/// - `Refused` with the first refusal, also of the trailing bits.
/// - `Memory` if memory runs out.
pub fn read_ph_unit(
    alloc: Global,
    rbsp: &[u8],
    sps: &Sps,
    pps: &Pps,
) -> Result<PictureHeader, ReadError>
    requires { length rbsp.now ≤ unit_limit }
    ensures answer { ReadsUnit (structures sps.now) (in_force sps.now pps.now) rbsp.now result }
    ensures value { IfOk result (λ header. IsHeader (structures sps.now) (in_force sps.now pps.now) header) }
{
    read_unit_at(alloc, rbsp, sps.table(), &in_force(sps, pps))
}

/// Reads the fields of a picture header, `picture_header_structure()` (clause 7.3.2.8), and appends their items.
///
/// # Errors
///
/// - `Refused` with the first refusal.
/// - `Memory` if memory runs out.
///
/// After an error, `into` has gained the fields read before, and `bits` is at the next field.
pub fn read_ph_fields(
    bits: &mut BitReader<'_>,
    sps: &Sps,
    pps: &Pps,
    into: &mut Fields,
) -> Result<(), ReadError>
    ensures { Reads (header_form (structures sps.now) (in_force sps.now pps.now)) bits.old into.old result bits.new into.new }
{
    read_fields(bits, sps.table(), in_force(sps, pps), into)
}

/// Reads the fields of a picture header unit, `picture_header_rbsp()` (clause 7.3.2.7), and appends their items.
///
/// The RBSP has at most 2^23 bytes.
///
/// # Errors
///
/// - `Refused` with the first refusal, also of the trailing bits.
/// - `Memory` if memory runs out.
///
/// After an error, `into` has gained the fields read before.
pub fn read_ph_unit_fields(
    rbsp: &[u8],
    sps: &Sps,
    pps: &Pps,
    into: &mut Fields,
) -> Result<(), ReadError>
    requires { length rbsp.now ≤ unit_limit }
    ensures { (new : Place)
        × Reads (unit_form (structures sps.now) (in_force sps.now pps.now)) (at_front rbsp.now) into.old result new into.new }
{
    let mut bits = BitReader::new(rbsp);
    read_unit(&mut bits, sps.table(), in_force(sps, pps), into)
}

/// Writes a picture header without trailing bits (clause 7.3.2.8).
///
/// # Errors
///
/// `AllocError` if memory runs out. `bits` has then gained a prefix of the header's bits.
pub fn write_header(
    bits: &mut BitWriter,
    header: &PictureHeader,
    sps: &Sps,
    pps: &Pps,
) -> Result<(), AllocError>
    requires { IsHeader (structures sps.now) (in_force sps.now pps.now) header.now }
    ensures ok { OnOk result (IsPictureHeaderSpelling (structures sps.now) (in_force sps.now pps.now) header.now bits.old bits.new) }
    ensures err { OnErr result (IsPictureHeaderFront (structures sps.now) (in_force sps.now pps.now) header.now bits.old bits.new) }
{
    write_header_at(bits, header, sps.table(), &in_force(sps, pps))
}

/// Returns the RBSP of a picture header unit, `picture_header_rbsp()` (clause 7.3.2.7).
///
/// # Errors
///
/// `AllocError` if memory runs out.
pub fn write_ph(
    alloc: Global,
    header: &PictureHeader,
    sps: &Sps,
    pps: &Pps,
) -> Result<Vec<u8>, AllocError>
    requires { IsHeader (structures sps.now) (in_force sps.now pps.now) header.now }
    ensures { IfOk result (λ bytes. IsPictureHeaderUnit (structures sps.now) (in_force sps.now pps.now) header.now bytes.items) }
{
    write_unit_at(alloc, header, sps.table(), &in_force(sps, pps))
}
