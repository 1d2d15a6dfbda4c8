//! Checks whether a round, one picture of each source, can become one picture, and makes its frame (H.266 6.3.1).
//!
//! - [`sound_frame`] returns the first rule that a round breaks, or its [`Frame`]: layout, SPS and PPS. A kept frame serves later rounds
//!   with the same sets.
//! - [`round_bodies`] collects what the rules, and the sets that are sent, need of the adaptation parameter sets.
//! - [`Corner`] is where a region begins in the frame.
//! - [`verdict_is_one`] is the law that the rules determine the verdict.
//!
//! The rules are defined in `specs`, `Rules`.
#![tactic(auto)]

mod bodies;
mod borders;
mod collocated;
mod corner;
mod filters;
mod frame;
mod frame_sets;
mod geometry;
mod headers;
mod items;
mod laws;
mod laws_shapes;
mod regions;
mod sets;
mod shapes;
mod slices;
mod sought;
mod sound;
mod told;
mod verdict;

pub use bodies::{RoundBodies, round_bodies};
pub use collocated::Collocated;
pub use corner::Corner;
pub use filters::{RoundFilters, same_bytes};
pub use frame::{Frame, have_pps, pps_under};
pub use geometry::FrameGeometry;
pub use headers::{header_number, is_chroma_scaled, lmcs_body, scaling_body};
pub use laws::verdict_is_one;
pub use shapes::init_qp;
pub use sound::sound_frame;
pub use told::{lowest_of, lowest_source, of_source};
