//! Fields of profile, tier and level, clause 7.3.3.1, and of its general constraints, clause 7.3.3.2.

/// The profile.
pub const general_profile_idc: u16 = 11;
/// The tier: 1 for High.
pub const general_tier_flag: u16 = 12;
/// The level: 16 for each major number and 3 for each minor one, so 51 is 3.1.
pub const general_level_idc: u16 = 13;
/// Whether all pictures are frames.
pub const ptl_frame_only_constraint_flag: u16 = 14;
/// Whether there may be several layers.
pub const ptl_multilayer_enabled_flag: u16 = 15;
/// Whether general constraints follow.
pub const gci_present_flag: u16 = 16;
/// Each of the 71 bits of the constraints from `gci_intra_only_constraint_flag` on.
pub const gci_constraint_bit: u16 = 17;
/// The number of further bits of constraints.
pub const gci_num_additional_bits: u16 = 18;
/// Each of these further bits.
pub const gci_reserved_bit: u16 = 19;
/// Whether a sublayer has a level of its own; also the zeros before the first.
pub const ptl_sublayer_level_present_flag: u16 = 20;
/// The level of a sublayer; also the zeros before the first.
pub const sublayer_level_idc: u16 = 21;
/// The number of sub-profiles.
pub const ptl_num_sub_profiles: u16 = 22;
/// A sub-profile.
pub const general_sub_profile_idc: u16 = 23;

/// The numbers above, in their order.
pub const ALL: [u16; 13] = [
    general_profile_idc,
    general_tier_flag,
    general_level_idc,
    ptl_frame_only_constraint_flag,
    ptl_multilayer_enabled_flag,
    gci_present_flag,
    gci_constraint_bit,
    gci_num_additional_bits,
    gci_reserved_bit,
    ptl_sublayer_level_present_flag,
    sublayer_level_idc,
    ptl_num_sub_profiles,
    general_sub_profile_idc,
];
