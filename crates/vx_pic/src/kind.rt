//! The kind of a picture among the pictures of its stream.

/// The kind of a picture among the pictures of its stream: its type, its TemporalId and its order count.
#[derive(Clone, Copy, PartialEq, Eq)]
pub struct Kind {
    /// nal_unit_type of its slices.
    pub nal_type: u8,
    /// TemporalId.
    pub temporal_id: u8,
    /// Whether it starts a coded layer video sequence: an IDR picture, or a CRA or GDR picture that is the first, or the first
    /// after an end of sequence (H.266 7.4.2.4.2).
    pub clvss: bool,
    /// Whether an end of sequence comes between the picture before it and this one.
    pub after_eos: bool,
    /// PicOrderCntVal (H.266 8.3.1).
    pub poc: i32,
}
