//! Writing of the RBSP of an adaptation parameter set.
ghost use Rattle.std.specs.Prelude.{◌≡◌, IfOk};
ghost use Rattle.vx_aps.specs.Aps.{IsValid, spelled};

use crate::aps::Aps;
use std::alloc::{AllocError, Global};

/// Returns the RBSP of an adaptation parameter set (clause 7.3.2.6).
///
/// Requires one of the three types, an id of its type, and a body that can end a unit.
///
/// # Errors
///
/// `AllocError` if memory runs out.
pub fn write_aps(alloc: Global, aps: &Aps) -> Result<Vec<u8>, AllocError>
    requires { IsValid aps.now }
    ensures { IfOk result (λ rbsp. rbsp.items ≡ spelled aps.now.kind aps.now.id aps.now.body) }
{
    let mut rbsp = Vec::new(alloc);
    rbsp.push(32 * aps.kind + aps.id)?;
    rbsp.extend_from_slice(aps.body.as_slice())?;
    Ok(rbsp)
}
