//! Fields of a video parameter set, clause 7.3.2.3.

/// The id of the video parameter set.
pub const vps_video_parameter_set_id: u16 = 1;
/// The greatest number of layers, less 1.
pub const vps_max_layers_minus1: u16 = 2;
/// The greatest number of sublayers, less 1.
pub const vps_max_sublayers_minus1: u16 = 3;

/// The numbers above, in their order.
pub const ALL: [u16; 3] = [
    vps_video_parameter_set_id,
    vps_max_layers_minus1,
    vps_max_sublayers_minus1,
];
