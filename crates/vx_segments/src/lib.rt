//! States laws of merges of segments: merging segment by segment and joining the results is merging the joined streams.
//!
//! [`merges_are_one`] has the premises: each segment begins with an IRAP or GDR picture and ends without messages, no segment has an end
//! of sequence, and no rule refuses a segment or the joined streams. This crate has only laws; its statements are in `specs`.
#![tactic(auto)]

mod laws;
mod laws_streams;

pub use laws::{
    alike_are_written_alike, barred_alike, merges_are_one, segment_is_barred_alike,
    segments_are_one_merge, segments_join, segments_split, streams_begin_anew,
};
pub use laws_streams::{
    bytes_join, cut_is_joined, joined_rests, rounds_are_read_alike, segment_is_read_alike,
};
