//! The shape of a rewritten picture header.

/// The LMCS fields of a picture header that has luma mapping with chroma scaling on.
#[derive(Clone, Copy)]
pub struct LmcsShape {
    /// The id of its set.
    pub id: u8,
    /// Whether chroma residuals are scaled.
    pub scales_chroma: bool,
}

/// A description of the picture header that is sent for a frame of several sources, as far as it isn't copied from one.
#[derive(Clone, Copy)]
pub struct PhShape {
    /// The id of its PPS.
    pub pps_id: u8,
    /// Luma mapping with chroma scaling, if it is on.
    pub lmcs: Option<LmcsShape>,
    /// The id of the set of its scaling lists, if these are on.
    pub scaling: Option<u8>,
}
