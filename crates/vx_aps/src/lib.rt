//! Adaptation parameter sets of H.266 (clause 7.3.2.6): their type and id, and their body, which is copied
//! unchanged.
//!
//! [`read_aps`] reads the [`Aps`] of an RBSP, and [`write_aps`] returns the RBSP of an [`Aps`].
//! [`read_aps_fields`] returns the fields for display.
//!
//! `specs/Aps.antt` defines a set and its bytes, and `specs/Fields.antt` its fields.
#![tactic(auto)]

mod aps;
mod fields;
mod laws;
mod read;
mod write;

pub use aps::{ALF, Aps, LMCS, SCALING};
pub use fields::{ApsFields, read_aps_fields};
pub use laws::{one_answer, spelled_is_aps};
pub use read::read_aps;
pub use write::write_aps;
