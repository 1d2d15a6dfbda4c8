//! Names in the tables of profile, tier and level, DPB parameters and timing: numbers 800 to 839.

/// The number of a turn.
pub const TURN: u16 = 800;
/// The number of a CPB.
pub const CPB: u16 = 801;
/// The number of a kind of HRD parameters: NAL or VCL.
pub const KIND: u16 = 802;
/// The number of sublayers that have a level.
pub const WITH_LEVEL: u16 = 803;
/// The number of sublayers below the highest that have an entry.
pub const LOWER: u16 = 804;
/// Whether there are HRD parameters.
pub const HRD: u16 = 805;
/// The number of kinds of HRD parameters that are present, out of NAL and VCL.
pub const KINDS: u16 = 806;

/// The numbers above, in their order.
pub const ALL: [u16; 7] = [TURN, CPB, KIND, WITH_LEVEL, LOWER, HRD, KINDS];
