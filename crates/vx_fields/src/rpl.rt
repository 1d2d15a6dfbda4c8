//! Fields of reference picture lists, clause 7.3.9, and of their structures, clause 7.3.10.

/// The number of entries of a structure.
pub const num_ref_entries: u16 = 301;
/// Whether the low bits of its long-term entries are in headers.
pub const ltrp_in_header_flag: u16 = 302;
/// Whether an entry is short-term; 1 if absent.
pub const st_ref_pic_flag: u16 = 303;
/// The distance of a short-term entry.
pub const abs_delta_poc_st: u16 = 304;
/// The sign of that distance.
pub const strp_entry_sign_flag: u16 = 305;
/// The low bits of the order count of a long-term entry.
pub const rpls_poc_lsb_lt: u16 = 306;
/// Whether a list is a structure of the SPS.
pub const rpl_sps_flag: u16 = 307;
/// The index of that structure.
pub const rpl_idx: u16 = 308;
/// The low bits of the order count of a long-term entry, in a header.
pub const poc_lsb_lt: u16 = 309;
/// Whether the cycle of its high bits follows.
pub const delta_poc_msb_cycle_present_flag: u16 = 310;
/// That cycle, as a difference.
pub const delta_poc_msb_cycle_lt: u16 = 311;

/// The numbers above, in their order.
pub const ALL: [u16; 11] = [
    num_ref_entries,
    ltrp_in_header_flag,
    st_ref_pic_flag,
    abs_delta_poc_st,
    strp_entry_sign_flag,
    rpls_poc_lsb_lt,
    rpl_sps_flag,
    rpl_idx,
    poc_lsb_lt,
    delta_poc_msb_cycle_present_flag,
    delta_poc_msb_cycle_lt,
];
