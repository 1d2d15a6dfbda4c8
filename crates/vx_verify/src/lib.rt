//! Verifies that a finished stream is a merge of given sources, picture by picture.
//!
//! - [`Verifier::round`] compares one picture of the finished stream with one of each source: each subpicture must be at its source's
//!   [`Spot`] and have the decoding inputs of the source's picture. It returns the first [`Mismatch`].
//! - [`mismatch_line`] makes the line of a mismatch.
//! - Laws: [`mismatch_is_one`], [`verified_has_none`].
//!
//! File 0 is the finished stream; the sources are numbered from 1. Definitions in `specs`: `Verified`.
#![tactic(auto)]

mod checks;
mod inputs;
mod laws;
mod line;
mod mismatch;
mod places;
mod spot;
mod verifier;

pub use laws::{mismatch_is_one, verified_has_none};
pub use line::mismatch_line;
pub use mismatch::{Mismatch, VerifyError, VerifyFirst};
pub use spot::Spot;
pub use verifier::Verifier;
