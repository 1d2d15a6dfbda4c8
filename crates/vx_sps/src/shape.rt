//! The shape of a rewritten sequence parameter set.

use vx_layout::RectList;

/// A description of a rewritten sequence parameter set: the numbers that aren't its source's.
#[derive(Drop)]
pub struct SpsShape {
    /// Its id: `sps_seq_parameter_set_id`.
    pub id: u8,
    /// The largest width of a picture, in luma samples.
    pub width: u32,
    /// The largest height of a picture, in luma samples.
    pub height: u32,
    /// The conformance window's offsets: left, right, top and bottom.
    pub window: [u32; 4],
    /// The level: `general_level_idc`.
    pub level: u8,
    /// The DPB parameters of the highest sublayer: `dpb_max_dec_pic_buffering_minus1`, `dpb_max_num_reorder_pics` and
    /// `dpb_max_latency_increase_plus1`.
    pub dpb: [u32; 3],
    /// The subpictures.
    pub subpics: SubpicPlan,
}

/// A description of the subpictures of a rewritten sequence parameter set.
#[derive(Drop)]
pub enum SubpicPlan {
    /// The set doesn't describe subpictures.
    Absent,
    /// One subpicture, whose id is mapped.
    One {
        /// `sps_subpic_id_len_minus1`.
        id_len: u32,
        /// Its id, if it is in the set; otherwise it is in the picture parameter sets.
        id: Option<u32>,
    },
    /// Subpictures with these rectangles of CTUs, each treated as a picture; the id of each is its index.
    Many(RectList),
}
