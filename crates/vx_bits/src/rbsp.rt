//! Copies of short RBSPs, kept with what was read from them, so that an equal RBSP need not be read again.
ghost use Rattle.std.specs.Prelude.{◌≡◌, ◌≤◌, length, Some, IfOk, IfSome, option_copied};
ghost use Rattle.std.specs.Bool.{OnTrue, OnFalse};

use crate::list::{Bytes, CopyList};
use std::alloc::{AllocError, Global};

/// The greatest number of bytes of a short RBSP.
const MOST: usize = 1024;

/// Returns a copy of an RBSP of at most 1,024 bytes, or `None` for a longer one.
///
/// # Errors
///
/// `AllocError` if memory runs out.
pub fn short_rbsp(alloc: Global, rbsp: &[u8]) -> Result<Option<Bytes>, AllocError>
    ensures copy { IfOk result (λ copy. IfSome copy (λ bytes. bytes ≡ rbsp.now)) }
    ensures there { length rbsp.now ≤ 1024 → IfOk result (λ copy. copy ≡ Some rbsp.now) }
{
    if rbsp.len() > MOST {
        return Ok(None);
    }
    let copy = CopyList::from_slice(alloc, rbsp)?;
    Ok(Some(copy))
}

/// Returns whether an RBSP is known and has these bytes. Takes no memory.
pub fn is_rbsp(known: Option<&Bytes>, rbsp: &[u8]) -> bool
    ensures same { OnTrue result (option_copied known.entry ≡ Some rbsp.now) }
    ensures other { OnFalse result (¬ (option_copied known.entry ≡ Some rbsp.now)) }
{
    match known {
        Some(bytes) => bytes.as_slice() == rbsp,
        None => false,
    }
}
