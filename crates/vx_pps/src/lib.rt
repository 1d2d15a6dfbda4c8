//! The picture parameter set and its slice list (H.266 7.3.2.5, 6.5.1).
//!
//! [`read_pps`] reads a set, [`write_pps`] writes it, and [`keep_pps`] returns its kept items. [`Pps`] holds
//! what headers, layouts and rewriting need. [`reshape_pps`] makes the set of a region or a frame, as a
//! [`PpsShape`] describes it. [`Tiles`] finds tiles by index, and [`Partition`] holds tile bounds and slices.
//! The laws state which groups the slices of a picture form so that a slice list can describe them: slices of
//! whole tiles, and slices within one tile.
//!
//! `specs/Pps.antt` defines a set, `specs/Slices.antt` and `specs/Tiles.antt` its slice list, and
//! `specs/Reshaped.antt` a rewritten set.
#![tactic(auto)]
#![allow(non_upper_case_globals)]

mod grid;
mod groups;
mod halt;
mod laws;
mod laws_reshaped;
mod laws_sets;
mod list;
mod list_items;
mod numbers;
mod partition;
mod pps;
mod read;
mod reshape;
mod shape;
mod tables;
mod taken;
mod tiles;
mod walk;

pub use laws::{
    bounds_are_read_back, few_are_read_back, few_fall_into_groups, layouts_are_lists,
    list_gives_slices, lists_fall_into_groups, slices_are_read_back,
};
pub use laws_reshaped::{frame_keeps, region_keeps, reshaped_has_its_tiles, reshaped_tells};
pub use laws_sets::{
    kept_and_others_tell, kept_depends_on_kept, kept_tells_numbers, no_proper_prefix,
    read_slices_are_listable, sets_tell_partitions, spelling_is_short, tiles_are_in_limits,
    written_is_read,
};
pub use list::Listed;
pub use partition::Partition;
pub use pps::Pps;
pub use read::{keep_pps, read_pps, read_pps_fields, write_pps};
pub use reshape::reshape_pps;
pub use shape::PpsShape;
pub use tables::{
    DBF_CONTROL, DBF_INFO, DBF_OFFSETS, END, HEADER_INFO, IDS, INIT_QP, NAL_TYPES, OUTPUT,
    PREDICTION, QP_OFFSETS, SIZE, SUBPIC_IDS,
};
pub use tiles::Tiles;
