//! The sequence parameter set of H.266 (clause 7.3.2.4).
//!
//! Its syntax is in tables, cut into groups of fields that a rewritten set copies from its source or replaces.
//! [`read_sps`] reads a set, [`write_sps`] writes it, and [`keep_sps`] returns its kept fields. [`Sps`] holds
//! what headers, layouts and rewriting need. [`reshape_sps`] makes the set of a region or a frame, as an
//! [`SpsShape`] describes it.
//!
//! `specs/Set.antt` and `specs/Structure.antt` define a set and its bits, and `specs/Reshaped.antt` a rewritten
//! one.
#![tactic(auto)]

mod laws;
mod laws_reshaped;
mod read;
mod reshape;
mod shape;
mod sps;
mod subpictures;
mod tables;
mod taken;
mod walk;

pub use laws::{
    kept_and_others_tell, kept_are_sifted, kept_depends_on_kept, no_proper_prefix,
    spelling_is_short, written_is_read,
};
pub use laws_reshaped::{reshaped_keeps, reshaped_says, reshaped_signals};
pub use read::{keep_sps, read_sps, read_sps_fields, write_sps};
pub use reshape::reshape_sps;
pub use shape::{SpsShape, SubpicPlan};
pub use sps::Sps;
pub use tables::{
    CHROMA_QP, COUNTS, CTUS, END, FILTERS, IDS, INTER, INTRA, LIST_1, PARTITIONS, PLACE,
    REFERENCES, RESAMPLING, SCALING, SIZE, START, SUBLAYER_CPB, SUBLAYER_DPB, SUBPIC_IDS,
    SUBPICTURES, TIMED, TRANSFORMS,
};
pub use walk::code_sps;
