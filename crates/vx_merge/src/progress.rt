//! The state of a merger.
use vx_frame::Frame;
use vx_write::Slots;

/// The state that a merger keeps from round to round.
#[derive(Drop)]
pub(crate) struct Progress {
    /// The frame of the last round.
    pub(crate) frame: Option<Box<Frame>>,
    /// The last sets that were sent.
    pub(crate) slots: Slots,
    /// How many bytes were written.
    pub(crate) bytes: u64,
}
