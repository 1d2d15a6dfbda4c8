//! Adaptation parameter sets.

use vx_bits::Bytes;

/// aps_params_type of the parameters of the adaptive loop filter.
pub const ALF: u8 = 0;
/// aps_params_type of luma mapping with chroma scaling.
pub const LMCS: u8 = 1;
/// aps_params_type of scaling lists.
pub const SCALING: u8 = 2;

/// An adaptation parameter set: its type, its id and its body.
#[derive(Drop)]
pub struct Aps {
    /// aps_params_type: [`ALF`], [`LMCS`] or [`SCALING`].
    pub kind: u8,
    /// aps_adaptation_parameter_set_id: at most 3 for [`LMCS`], at most 7 for the others.
    pub id: u8,
    /// The bytes of the RBSP after the first; the last isn't 00.
    pub body: Bytes,
}
