//! The fields of H.266's syntax structures by name, each with its number.
//!
//! A field is `vx_fields::sps::sps_alf_enabled_flag`: the full name that H.266 gives it, in lower case as
//! there. Items, scopes and refusals identify a field by its number. docs/generated/FIELDS.md lists the
//! numbers in order, and [`name_of`] returns the name of a number as text. [`names`] holds the names that
//! tables give to numbers of their own, in upper case. No two constants have the same number, and each number
//! is below 1024, the size of a scope.
#![tactic(auto)]
#![allow(non_upper_case_globals)]

pub mod alf;
pub mod aps;
pub mod dpb;
mod laws;
pub mod names;
pub mod ph;
pub mod pps;
pub mod ptl;
pub mod rpl;
pub mod sh;
mod spelled;
pub mod sps;
mod text;
pub mod timing;
pub mod vps;
pub mod weights;

pub use laws::{fields_have_names, names_are_distinct, numbers_are_distinct, numbers_fit_a_scope};
pub use spelled::name_of;
