//! The kinds of sets that a refusal for a missing set names.

/// A sequence parameter set. Lower numbers are the types of adaptation parameter sets.
pub const SPS: u8 = 3;
/// A picture parameter set.
pub const PPS: u8 = 4;
