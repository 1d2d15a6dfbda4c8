//! Placement of regions in one frame, and the tile lines of that frame (H.266 6.3.1, 6.5.1).
//!
//! [`fit_regions`] checks that [`Placed`] regions fill a frame on the grid of CTUs, and in an allowed order;
//! if they don't, it returns a [`FitFault`]. [`fit_lines`] computes the tile lines of the frame from those of
//! its regions.
//!
//! `specs/Placing.antt` and `specs/FitFaults.antt` define placements and their faults, and
//! `specs/FrameLines.antt` the lines of the frame.
#![tactic(auto)]

mod laws;
mod lines;
mod placed;
mod regions;

pub use laws::{
    border_is_regions, faultless_fits, fit_fault_is_one, frame_of_regions, lines_are_one,
};
pub use lines::{LineError, fit_lines};
pub use placed::{FitFault, Placed};
pub use regions::fit_regions;
