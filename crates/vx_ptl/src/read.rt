//! Reading of the structures.

ghost use Rattle.std.specs.Prelude.{◌≡◌, ◌≤◌, length, slice_set};
ghost use Rattle.vx_bits.specs.Place.{Place};
ghost use Rattle.vx_bits.specs.Limits.{unit_limit};
ghost use Rattle.vx_table.specs.Reading.{Reads, ReadsValue, at_front};
ghost use Rattle.vx_ptl.specs.Structures.{sublayers, vps, ptl, dpb_form, timing_form, sublayer_timing};

use crate::tables::{DPB, PTL, SUBLAYER_TIMING, TIMING, VPS};
use std::alloc::Global;
use vx_bits::{BitReader, Fields, ReadError};
use vx_fields::sps::{
    sps_max_sublayers_minus1, sps_sublayer_cpb_params_present_flag, sps_sublayer_dpb_params_flag,
};
use vx_table::{Scope, read_table, read_value};

/// Returns the scope of a structure of sublayers: the highest one, and under a field's number whether each has an
/// entry.
fn at_sublayers(mut scope: Scope, max: u32, field: u16, each: bool) -> Scope
    ensures { result ≡ sublayers scope max field each }
{
    scope.set(sps_max_sublayers_minus1, max);
    scope.set(field, u32::from(each));
    scope
}

/// Reads the first three fields of a VPS, numbers 1 to 3 (clause 7.3.2.3).
///
/// # Errors
///
/// - `Refused` with the first refusal.
/// - `Memory` if memory runs out.
pub fn read_vps(alloc: Global, rbsp: &[u8]) -> Result<Fields, ReadError>
    requires { length rbsp.now ≤ unit_limit }
    ensures { ReadsValue vps rbsp.now result }
{
    read_value(alloc, &VPS, &mut Scope::new(), rbsp)
}

/// Reads what [`read_vps`] reads, and appends the items.
///
/// # Errors
///
/// - `Refused` with the first refusal.
/// - `Memory` if memory runs out.
///
/// After an error, `into` has gained the fields read before.
pub fn read_vps_fields(rbsp: &[u8], into: &mut Fields) -> Result<(), ReadError>
    requires { length rbsp.now ≤ unit_limit }
    ensures { (new : Place) × Reads vps (at_front rbsp.now) into.old result new into.new }
{
    let mut bits = BitReader::new(rbsp);
    let mut scope = Scope::new();
    read_table(&VPS, &mut scope, &mut bits, into)
}

/// Reads profile, tier and level, fields 11 to 23 (clause 7.3.3.1); `max` is the highest sublayer, field 102.
///
/// # Errors
///
/// - `Refused` with the first refusal.
/// - `Memory` if memory runs out.
///
/// After an error, `into` has gained the fields read before.
pub fn read_ptl(bits: &mut BitReader<'_>, max: u32, into: &mut Fields) -> Result<(), ReadError>
    requires { max ≤ 6 }
    ensures { Reads (ptl max) bits.old into.old result bits.new into.new }
{
    let mut scope = Scope::new();
    scope.set(sps_max_sublayers_minus1, max);
    read_table(&PTL, &mut scope, bits, into)
}

/// Reads DPB parameters, fields 31 to 33 (clause 7.3.4); `each` is field 140.
///
/// # Errors
///
/// As [`read_ptl`].
pub fn read_dpb(
    bits: &mut BitReader<'_>,
    max: u32,
    each: bool,
    into: &mut Fields,
) -> Result<(), ReadError>
    requires { max ≤ 6 }
    ensures { Reads (dpb_form max each) bits.old into.old result bits.new into.new }
{
    let mut scope = at_sublayers(Scope::new(), max, sps_sublayer_dpb_params_flag, each);
    read_table(&DPB, &mut scope, bits, into)
}

/// Reads general timing and HRD parameters, fields 41 to 51 (clause 7.3.5.1), whose rows use neither `max` nor `each`.
///
/// # Errors
///
/// As [`read_ptl`].
pub fn read_timing(
    bits: &mut BitReader<'_>,
    max: u32,
    each: bool,
    into: &mut Fields,
) -> Result<(), ReadError>
    requires { max ≤ 6 }
    ensures { Reads (timing_form max each) bits.old into.old result bits.new into.new }
{
    let mut scope = at_sublayers(
        Scope::new(),
        max,
        sps_sublayer_cpb_params_present_flag,
        each,
    );
    read_table(&TIMING, &mut scope, bits, into)
}

/// Reads sublayer timing and HRD parameters, fields 52 to 60 (clauses 7.3.5.2 and 7.3.5.3).
///
/// `each` is field 225, and `into` has fields 43, 44, 46 and 51 of the general ones.
///
/// # Errors
///
/// As [`read_ptl`].
pub fn read_sublayer_timing(
    bits: &mut BitReader<'_>,
    max: u32,
    each: bool,
    into: &mut Fields,
) -> Result<(), ReadError>
    requires { max ≤ 6 }
    ensures { Reads (sublayer_timing into.old max each) bits.old into.old result bits.new into.new }
{
    let mut scope = Scope::new();
    scope.load(into);
    let mut scope = at_sublayers(scope, max, sps_sublayer_cpb_params_present_flag, each);
    read_table(&SUBLAYER_TIMING, &mut scope, bits, into)
}
