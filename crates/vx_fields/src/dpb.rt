//! Fields of DPB parameters, clause 7.3.4.

/// The pictures that a decoder stores, less 1.
pub const dpb_max_dec_pic_buffering_minus1: u16 = 31;
/// The number of pictures that may be decoded before a picture and shown after it.
pub const dpb_max_num_reorder_pics: u16 = 32;
/// The increase of latency, plus 1; 0 if there is no limit.
pub const dpb_max_latency_increase_plus1: u16 = 33;

/// The numbers above, in their order.
pub const ALL: [u16; 3] = [
    dpb_max_dec_pic_buffering_minus1,
    dpb_max_num_reorder_pics,
    dpb_max_latency_increase_plus1,
];
