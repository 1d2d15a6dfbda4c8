//! Merges several streams into one: each merged picture has one picture of each source as a subpicture (H.266 6.3.1).
//!
//! - [`Merger::round`] writes the merged picture of a round, which is one picture of each source, or returns the first rule that the
//!   round breaks.
//! - [`Merger::check`] checks a round by the same rules and writes nothing.
//! - [`Merger::joined_round`] writes a round after an end of sequence.
//! - [`lengths`] reports which sources have ended.
//! - [`merged_is_one`] is the law that a round determines what is written.
//!
//! Definitions: the rules of a round are in `specs` of `vx_frame`, those of a join and the limits in `specs` of this crate.
#![tactic(auto)]

mod ended;
mod ending;
mod fronts;
mod ids;
mod joins;
mod laws;
mod limits;
mod merger;
mod needed;
mod output;
mod picture_header;
mod progress;
mod round;
mod send;
mod slice_shape;

pub use ended::Lengths;
pub use ending::lengths;
pub use laws::merged_is_one;
pub use merger::Merger;
pub use vx_frame::Corner;
pub use vx_write::{WriteError, WriteFirst};
