//! The place of a unit in the bytes that a splitter holds.

/// A NAL unit among the bytes that a [`Splitter`](crate::Splitter) holds.
#[derive(Clone, Copy, PartialEq, Eq)]
pub struct Span {
    /// The place of its first byte in the bytes held.
    pub start: usize,
    /// The place after its last byte in the bytes held.
    pub end: usize,
    /// The place of its first byte in all bytes fed.
    pub offset: u64,
}
