//! Fields of weights, clause 7.3.8; those of both lists have the name without `_l0` and `_l1`.

/// The binary logarithm of the denominator of luma weights.
pub const luma_log2_weight_denom: u16 = 321;
/// That of chroma weights, as a difference.
pub const delta_chroma_log2_weight_denom: u16 = 322;
/// The number of weights of list 0.
pub const num_l0_weights: u16 = 323;
/// Whether an entry has a luma weight: `luma_weight_l0_flag`, `luma_weight_l1_flag`.
pub const luma_weight_flag: u16 = 324;
/// Whether an entry has chroma weights: `chroma_weight_l0_flag`, `chroma_weight_l1_flag`.
pub const chroma_weight_flag: u16 = 325;
/// A luma weight, as a difference: `delta_luma_weight_l0`, `delta_luma_weight_l1`.
pub const delta_luma_weight: u16 = 326;
/// A luma offset: `luma_offset_l0`, `luma_offset_l1`.
pub const luma_offset: u16 = 327;
/// A chroma weight, as a difference: `delta_chroma_weight_l0`, `delta_chroma_weight_l1`.
pub const delta_chroma_weight: u16 = 328;
/// A chroma offset, as a difference: `delta_chroma_offset_l0`, `delta_chroma_offset_l1`.
pub const delta_chroma_offset: u16 = 329;
/// The number of weights of list 1.
pub const num_l1_weights: u16 = 330;

/// The numbers above, in their order.
pub const ALL: [u16; 10] = [
    luma_log2_weight_denom,
    delta_chroma_log2_weight_denom,
    num_l0_weights,
    luma_weight_flag,
    chroma_weight_flag,
    delta_luma_weight,
    luma_offset,
    delta_chroma_weight,
    delta_chroma_offset,
    num_l1_weights,
];
