//! Reading of the RBSP of an adaptation parameter set.
ghost use Rattle.std.specs.Prelude.{◌≡◌};
ghost use Rattle.vx_bits.specs.declared.refusal.ReadError.TheVariants.{Refused as IsRefusedFor};
ghost use Rattle.vx_bits.specs.declared.refusal.Refusal.TheVariants.{Syntax as SyntaxOf};
ghost use Rattle.vx_aps.specs.Aps.{ids_of_type, AnswersAps};

use crate::aps::{Aps, LMCS, SCALING};
use std::alloc::Global;
use vx_bits::rules::APS_ID;
use vx_bits::{BitCause, Bytes, ReadError, Refusal};
use vx_fields::aps::{aps_body, aps_params_type};

/// Returns the refusal of a field that can't be read, and where it begins.
fn missed(field: u16, bit: u32, cause: BitCause) -> ReadError
    ensures { result ≡ IsRefusedFor (SyntaxOf field bit cause) }
{
    ReadError::Refused(Refusal::Syntax { field, bit, cause })
}

/// Returns the number of ids of a type (clause 7.4.3.6).
pub(crate) fn ids(kind: u8) -> u8
    ensures { result ≡ ids_of_type kind }
{
    if kind == LMCS { 4 } else { 8 }
}

/// Reads the RBSP of an adaptation parameter set, `adaptation_parameter_set_rbsp()` (clause 7.3.2.6).
///
/// Returns `None` exactly for the types 3 to 7, which are dropped whatever follows. The body is copied, and not parsed.
///
/// # Errors
///
/// - `Refused` if the first byte is missing, the id is outside the range of its type, the body is empty, or it ends in
///   00.
/// - `Memory` if memory runs out.
pub fn read_aps(alloc: Global, rbsp: &[u8]) -> Result<Option<Aps>, ReadError>
    ensures { AnswersAps rbsp.now result }
{
    let Some((first, behind)) = rbsp.split_first() else {
        return Err(missed(aps_params_type, 0, BitCause::Short));
    };
    let kind = first / 32;
    let id = first % 32;
    if kind > SCALING {
        return Ok(None);
    }
    if id >= ids(kind) {
        return Err(ReadError::Refused(Refusal::Profile { code: APS_ID }));
    }
    if behind.is_empty() {
        return Err(missed(aps_body, 8, BitCause::Short));
    }
    if behind[behind.len() - 1] == 0 {
        return Err(missed(aps_body, 8, BitCause::BadTrailing));
    }
    let mut body = Bytes::new(alloc);
    body.extend_from_slice(behind)?;
    Ok(Some(Aps { kind, id, body }))
}
