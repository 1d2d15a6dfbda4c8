//! Extracts one subpicture of each picture of a stream, and writes it as a stream of its own (H.266 C.7).
//!
//! - [`Extractor`] takes picture after picture. It keeps picture headers and slices as they are, rewrites the SPS and PPS for the
//!   subpicture, and sends parameter sets that a receiver doesn't have.
//! - [`WriteError`] is why a picture isn't written, [`WriteFirst`] what later pictures are refused with.
//! - Laws say what is written, what stays, and that the whole is read again: [`extraction_reads_again`].
//!
//! Definitions in `specs`: `Rules` has the rules, `Written` what is written of a picture, `Whole` what is written of a stream.
#![tactic(auto)]

mod extractor;
mod laws;
mod laws_kept;
mod laws_ready;
mod laws_whole;
mod needed;
mod output;
mod rewritten;
mod rules;
mod send;
mod shapes;
mod task;

pub use extractor::Extractor;
pub use laws::{
    extracted_are_planned, extracted_has_its_bodies, extracted_is_whole, extracted_reads_again,
    extracted_sends_its_sets, extracted_units_are_read, rewritten_agree, rewritten_keep_fields,
    rewritten_make_region, rewritten_read_alike,
};
pub use laws_kept::{
    all_keep_inputs, extracted_keeps_bodies, extracted_keeps_inputs, extracted_keeps_messages,
    rewritten_keep_places,
};
pub use laws_ready::{pictures_are_in_force, pictures_are_ready, pictures_have_their_readings};
pub use laws_whole::{extracted_units_read_again, extraction_reads_again};
pub use vx_write::{WriteError, WriteFirst};
