//! Makes units of parameter sets and messages, tracks the sets that a receiver has, and writes units.
//!
//! Extraction and merging share this crate (H.266 7.4.2, Annex B).
//!
//! - [`sps_unit`], [`pps_unit`], [`aps_unit`] and [`sei_unit`] make units. [`sets_in_force`] states what is known of the SPS and PPS that
//!   are rewritten.
//! - [`Slots`] holds the last set that was sent of each type and id. [`send`] makes the unit of a set that the receiver doesn't have, and
//!   [`forget_before`] forgets all sets before a picture where a receiver may begin.
//! - [`write_all_of`], [`write_one`], [`write_some`] and [`write_end`] write units with their start codes.
//! - [`WriteError`] is why a picture isn't written.
//!
//! Definitions in `specs`: `Units`, `Sets`, `Slots`, `Sending`, `Writing`, `Faults`.
#![tactic(auto)]

mod fault;
mod in_force;
mod laws;
mod output;
mod sending;
mod slots;
mod units;
mod written;

pub use fault::{WriteError, WriteFirst, first_of};
pub use in_force::{in_pps, in_sps, own_level, sets_in_force};
pub use laws::{set_units_are_read, units_stand};
pub use output::{write_all_of, write_end, write_one, write_some};
pub use sending::{forget_before, send};
pub use slots::Slots;
pub use units::{aps_unit, plain_unit, pps_unit, sei_unit, sps_unit};
pub use written::{NeededAps, NeededSet, tid_of_unit, unit_of};
