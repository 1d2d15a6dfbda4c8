//! The id of the PPS to which a picture header refers.
ghost use Rattle.std.specs.Prelude.{◌≡◌, IfOk, OnOk};
ghost use Rattle.vx_table.specs.Parts.{sections_form};
ghost use Rattle.vx_table.specs.Reading.{LeadsTo, PassesOver, Reads};
ghost use Rattle.vx_ph.specs.Id.{pps_id_form, to_id, IsId};

use crate::walk::code_to_id;
use vx_bits::{BitReader, Fields, ReadError, Refusal};
use vx_fields::ph::ph_pic_parameter_set_id;
use vx_table::Scope;

/// Takes the fields up to the id of the PPS, and sets their numbers in the scope.
fn pass_to_id(scope: &mut Scope, bits: &mut BitReader<'_>) -> Result<(), Refusal>
    ensures answer { PassesOver (sections_form to_id scope.old) bits.old result bits.new }
    ensures scope { OnOk result (LeadsTo (sections_form to_id scope.old) bits.old scope.new) }
{
    code_to_id(scope, bits, &mut ())
}

/// Returns the id of the PPS, 0 to 63, in the picture header that comes next. Takes the bits up to it, and no memory.
///
/// The id determines the sets with which the header is to be read.
///
/// # Errors
///
/// The first refusal among these fields. `bits` is then at its field.
pub fn read_pps_id(bits: &mut BitReader<'_>) -> Result<u8, Refusal>
    ensures answer { PassesOver pps_id_form bits.old result bits.new }
    ensures id { IfOk result (λ id. IsId bits.old id) }
{
    let mut scope = Scope::new();
    pass_to_id(&mut scope, bits)?;
    Ok(scope.latest(ph_pic_parameter_set_id) as u8)
}

/// Reads the fields of the next picture header, up to the id of the PPS, and appends their items.
///
/// # Errors
///
/// - `Refused` with the first refusal.
/// - `Memory` if memory runs out.
///
/// After an error, `into` has gained the fields read before, and `bits` is at the next field.
pub fn read_pps_id_fields(bits: &mut BitReader<'_>, into: &mut Fields) -> Result<(), ReadError>
    ensures { Reads pps_id_form bits.old into.old result bits.new into.new }
{
    let mut scope = Scope::new();
    code_to_id(&mut scope, bits, into)
}
