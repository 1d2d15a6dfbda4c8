//! Names for numbers that tables compute: conditions, counts, counters of turns. H.266 has none of them, so they are in
//! upper case. Each crate with tables has its own range, so that two tables that share a scope never use the same number
//! for two things.

pub mod ph;
pub mod pps;
pub mod ptl;
pub mod rpl;
pub mod sh;
pub mod sps;
