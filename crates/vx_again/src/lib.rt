//! States laws of merged streams: what is written for the rounds of several sources is read again as their merge.
//!
//! They hold for all readers of H.266. [`merge_is_read_again`] is the law of whole merges. This crate has only laws; its statements are
//! in `specs`.
#![tactic(auto)]

mod laws_rounds;
mod laws_sources;
mod laws_streams;
mod laws_whole;

pub use laws_rounds::{
    merged_has_its_bodies, merged_is_alike, merged_is_whole, merged_keeps_inputs,
    merged_sends_its_sets, merged_sets_are_in_force, merged_units_are_read, sets_make_the_frame,
};
pub use laws_sources::{pictures_can_be_merged, played_can_be_merged};
pub use laws_streams::{
    merged_are_planned, merged_keeps_messages, merged_reads_again, merged_units_can_stand,
};
pub use laws_whole::{merge_is_read_again, planned_are_of_merge};
