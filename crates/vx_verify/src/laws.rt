//! Laws of verified rounds. Each function does nothing and has its law as its contract.
ghost use Rattle.vx_verify.specs.Verified.{MismatchIsOne, VerifiedHasNone};

/// If a round is verified, then it has no mismatch.
pub fn verified_has_none()
    ensures { VerifiedHasNone }
{}

/// If a round has two mismatches, then these are equal.
pub fn mismatch_is_one()
    ensures { MismatchIsOne }
{}
