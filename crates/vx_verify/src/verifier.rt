//! A verifier: round after round is compared.
ghost use Rattle.std.specs.Prelude.{◌≡◌, ◌≤◌, All, length, map};
ghost use Rattle.vx_verify.specs.Verifying.{Judges};

use crate::checks::mismatch;
use crate::mismatch::{VerifyError, VerifyFirst, first_of};
use crate::spot::Spot;
use std::alloc::{AllocError, Global};
use std::marker::Model;
use vx_pic::{Lender, Picture, lent};

/// Verifies round after round that a finished stream is the merge of its sources.
///
/// A round is one picture of the finished stream and of each source, and is judged by itself. After a mismatch or lack of memory every
/// call returns [`VerifyError::Stopped`] with it.
pub struct Verifier {
    alloc: Global,
    spots: Vec<Spot>,
    first: Option<VerifyFirst>,
}

impl Drop for Verifier {
    fn drop(self) {
        let Verifier {
            alloc: _,
            spots: _,
            first: _,
        } = self;
    }
}

impl Model for Verifier {
    ghost use Rattle.std.specs.Prelude.{◌≤◌, length};
    ghost use Rattle.vx_verify.specs.Verifying.{Verifying};

    ghost Value = { Verifying };

    ghost view = { λ v. record { spots = v.spots.items; first = v.first } };

    ghost invariant = { λ v. length v.spots.items ≤ 64 };
}

/// Compares a finished picture with the lent pictures.
fn judge<L: Lender>(
    alloc: Global,
    spots: &[Spot],
    finished: &Picture<'_>,
    lenders: &[L],
) -> Result<(), VerifyError>
    requires few { length spots.now ≤ 64 }
    requires count { length lenders.now ≡ length spots.now }
    requires holds { All L.holds lenders.now }
    ensures { Judges spots.now finished.now (map L.lent lenders.now) result }
{
    let round = lent(alloc, lenders)?;
    let found = mismatch(alloc, spots, finished, round.as_slice())?;
    match found {
        Some(mismatch) => Err(VerifyError::Refused(mismatch)),
        None => Ok(()),
    }
}

impl Verifier {
    ghost use Rattle.std.specs.Prelude.{◌≡◌, ◌≤◌, All, map, length, None, Some, Err, IfErr, IfOk, OnOk};
    ghost use Rattle.vx_verify.specs.Verifying as spec;
    ghost use Rattle.vx_verify.specs.Verifying.{Judges};
    ghost use Rattle.vx_verify.specs.declared.mismatch.VerifyError.TheVariants.{Stopped};
    ghost use Rattle.vx_verify.specs.declared.mismatch.VerifyFirst.{VerifyFirst as First};

    /// Makes a verifier of sources that are to be at these places.
    ///
    /// There are at most 64 places, with coordinates of at most 16,383 luma samples. *Errors:* [`AllocError`] if memory runs out.
    pub fn new(alloc: Global, spots: &[Spot]) -> Result<Verifier, AllocError>
        requires { length spots.now ≤ 64 }
        ensures { IfOk result (λ v. v ≡ record { spots = spots.now; first = None }) }
    {
        let mut own = Vec::new(alloc);
        own.extend_from_slice(spots)?;
        Ok(Verifier {
            alloc,
            spots: own,
            first: None,
        })
    }

    /// Verifies that a finished picture is the merge of the sources' pictures.
    ///
    /// `lenders` has one lender for each place, in order, and each holds its picture. Any finished picture is allowed. *Errors:*
    /// `Refused`: the first difference, by its code and then by the lowest file. `Memory`. After an error every call returns `Stopped`
    /// with it.
    pub fn round<L: Lender>(
        &mut self,
        finished: &Picture<'_>,
        lenders: &[L],
    ) -> Result<(), VerifyError>
        requires count { length lenders.now ≡ length self.old.spots }
        requires holds { All L.holds lenders.now }
        ensures answer { self.old.first ≡ None → Judges self.old.spots finished.now (map L.lent lenders.now) result }
        ensures task { self.new.spots ≡ self.old.spots }
        ensures first { IfErr result (λ e. self.new.first ≡ Some (spec.first_of e)) }
        ensures stays { OnOk result (self.new ≡ self.old) }
        ensures stopped { (f : First) → self.old.first ≡ Some f → (result ≡ Err (Stopped f)) × (self.new ≡ self.old) }
    {
        if let Some(first) = self.first {
            return Err(VerifyError::Stopped(first));
        }
        match judge(self.alloc, &self.spots, finished, lenders) {
            Ok(()) => Ok(()),
            Err(error) => {
                self.first = Some(first_of(error));
                Err(error)
            }
        }
    }
}
