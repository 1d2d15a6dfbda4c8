//! Profile, tier and level, DPB parameters and timing of H.266, and the fields of a VPS that are read.
//!
//! Each structure has a table ([`PTL`], [`DPB`] ..), a walk over it, and one function that reads it.
//! Parameter sets that contain these structures include the tables as parts of their own, or build on the
//! walks ([`code_ptl`], [`code_dpb`] ..).
//!
//! `specs/Structures.antt` defines the forms of the structures, and `specs/Spelling.antt` their bits.
#![tactic(auto)]

mod laws;
mod laws_depends;
mod read;
mod run;
mod tables;
mod walk;

pub use laws::{runs_are_spelled, structures_are_spelled, writes_what_was_read};
pub use laws_depends::{
    dpb_depends, fields_are_coded_once, ptl_depends, sublayer_timing_depends, timing_depends,
    timing_if_present_depends,
};
pub use read::{read_dpb, read_ptl, read_sublayer_timing, read_timing, read_vps, read_vps_fields};
pub use run::{is_run, write_run};
pub use tables::{DPB, NO_TIMING, PTL, SUBLAYER_TIMING, TIMING, VPS};
pub use walk::{code_dpb, code_ptl, code_sublayer_timing, code_timing};
