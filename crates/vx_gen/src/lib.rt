//! Generates streams from a number: small pictures with drawn slice data.
//!
//! Their sets differ from stream to stream in a QP. [`generate`] makes the bytes. Laws say what they are: [`generated_are_read`],
//! [`generated_break_no_rule`], [`generated_are_merged`] and those beside them. Definitions in `specs`: `Streams` for the bytes,
//! `Pictures` for what they mean.
#![tactic(auto)]

mod draws;
mod laws;
mod streams;
mod units;

pub use laws::{
    corners_are_there, generated_are_merged, generated_are_not_barred, generated_are_read,
    generated_break_no_rule, planned_are_shown, planned_make_rounds,
};
pub use streams::generate;
