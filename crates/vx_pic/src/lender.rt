//! The trait of what may hold a picture.
ghost use Rattle.std.specs.Prelude.{◌≡◌, All, map, IfOk};

use crate::picture::Picture;
use std::alloc::{AllocError, Global};

/// A place that may hold a picture, and lends it.
pub trait Lender {
    ghost use Rattle.std.specs.Prelude.{◌≡◌};
    ghost use Rattle.vx_pic.specs.Parts.{Parts};

    /// Whether it holds a picture.
    ghost holds: { Self → Type 0 };

    /// The picture that it holds.
    ghost lent: { Self → Parts };

    /// Returns the picture that it holds. Takes no memory.
    fn picture(&self) -> Picture<'_>
        requires { holds self.now }
        ensures { result ≡ lent self.now };
}

/// Returns the pictures that all `lenders` lend.
///
/// # Errors
///
/// `AllocError` if memory runs out.
pub fn lent<L: Lender>(alloc: Global, lenders: &[L]) -> Result<Vec<Picture<'_>>, AllocError>
    requires { All L.holds lenders.now }
    ensures { IfOk result (λ round. round.items ≡ map L.lent lenders.now) }
{
    let mut round = Vec::new(alloc);
    for lender in lenders {
        round.push(lender.picture())?;
    }
    Ok(round)
}
