//! Merges and extracts streams whose bytes the caller pushes as they arrive, and returns the output picture by picture.
//!
//! - A [`Mixer`] merges, a [`Cutter`] extracts. Both hold at most one picture of output, a [`WrittenPicture`], until the caller takes it.
//! - An [`Intake`] is one source: it takes bytes instead of reading them, and stops at each picture. What it finds depends on the bytes,
//!   not on how they are cut into pieces.
//! - [`stop_line`] makes the line that says why there are no more pictures, and [`are_corners`] checks the corners for a mixer.
//! - [`mixed_is_merged`] is a law: a mixer writes what `merge` writes.
//!
//! Definitions in `specs`: `Handed` and `Comes` for an intake, `Mixing` for a mixer, `Cutting` for a cutter.
#![tactic(auto)]

mod corners;
mod cutter;
mod intake;
mod line;
mod mixer;
mod seek;
mod store;

pub use corners::are_corners;
pub use cutter::{Cut, Cutter};
pub use intake::{Intake, State};
pub use line::stop_line;
pub use mixer::{Mixed, Mixer, NoSource, mixed_is_merged};
pub use store::WrittenPicture;
