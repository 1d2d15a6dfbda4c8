//! The result of taking a unit.

/// What a NAL unit was that was taken.
#[derive(Clone, Copy, Debug, PartialEq, Eq)]
pub enum Accepted {
    /// Nothing to report: a unit that is dropped, a header, messages, an end of sequence, or a slice that isn't the last.
    Nothing,
    /// A video parameter set.
    Vps,
    /// A sequence parameter set, with this id.
    Sps(u8),
    /// A picture parameter set, with this id.
    Pps(u8),
    /// An adaptation parameter set, with this type and id.
    Aps(u8, u8),
    /// The last slice of a picture.
    PictureDone,
}
