//! Fields of an adaptation parameter set, clause 7.3.2.6.

/// The type: 0 for ALF, 1 for LMCS, 2 for scaling lists.
pub const aps_params_type: u16 = 501;
/// The id of the set among those of its type.
pub const aps_adaptation_parameter_set_id: u16 = 502;
/// The bytes after the first.
pub const aps_body: u16 = 503;

/// The numbers above, in their order.
pub const ALL: [u16; 3] = [aps_params_type, aps_adaptation_parameter_set_id, aps_body];
