//! Tests the whole chain: generates streams from a number, merges them side by side in memory, and extracts each region.
//!
//! [`trial`] does this and returns a [`Tally`]: counts of pictures, slices and bytes, and a weight of all bytes. Definitions in `specs`:
//! `Trial`.
#![tactic(auto)]

mod feeds;
mod laws;
mod merge;
mod outcome;
mod regions;
mod tally;
mod weight;

pub use tally::{Tally, trial};
