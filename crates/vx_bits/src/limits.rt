//! Size limits of what is read and written: our own limits, each with its refusal in [`rules`](crate::rules).

/// The greatest number of bytes of a NAL unit.
pub const UNIT_LIMIT: usize = 1 << 23;

/// The greatest number of bytes of a picture header and its slices.
pub const PICTURE_LIMIT: usize = 1 << 25;

/// The greatest number of bytes of a source, and of a stream that is written.
pub const SOURCE_LIMIT: u64 = 1 << 40;
