//! The picture header of H.266 (clauses 7.3.2.7 and 7.3.2.8).
//!
//! [`read_ph`] reads the header at the start of bits, [`read_ph_unit`] that of a picture header unit, and
//! [`write_header`] and [`write_ph`] write them. [`read_pps_id`] reads only up to the id of the PPS, which
//! the rest of the header needs. [`PictureHeader`] holds what slices and rewriting need; [`PhShape`]
//! describes a rewritten header.
//!
//! `specs/Header.antt` defines the header's bits, `specs/InForce.antt` the numbers in force for it, and
//! `specs/Reshaped.antt` a rewritten one.
#![tactic(auto)]

mod header;
mod laws;
mod pps_id;
mod read;
mod reshape;
mod scope;
mod shape;
mod tables;
mod under_sets;
mod unit;
mod walk;
mod write;

pub use header::PictureHeader;
pub use laws::{
    fields_are_coded_once, filter_goes_again, filter_names_once, header_depends, header_has_id,
    header_is_enabled, header_keeps, header_read_again, header_rewrites, same_kept_agree,
    sets_agree, spelling_is_short, unit_has_id, unit_is_read,
};
pub use pps_id::{read_pps_id, read_pps_id_fields};
pub use read::read_header_at;
pub use reshape::reshape_ph;
pub use scope::{both_sets, in_force};
pub use shape::{LmcsShape, PhShape};
pub use tables::{
    ALF, FILTERS, INTER, INTRA, LMCS_AND_SCALING, ORDER_COUNT, OUTPUT, PICTURE, PPS_ID, QP,
    STARRED, TRAILING,
};
pub use under_sets::{
    read_ph, read_ph_fields, read_ph_unit, read_ph_unit_fields, write_header, write_ph,
};
pub use unit::read_unit_at;
pub use walk::code_header;
pub use write::{write_header_at, write_unit_at};
