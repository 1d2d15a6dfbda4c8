//! The pictures of a stream of NAL units (H.266 7.4.2.4, 8.3.1).
//!
//! [`Picture`] is one picture with its sets, header and slices, and [`DecodingInput`] what the decoding of a
//! slice depends on. Mergers and extractors compare pictures by [`Kind`], [`same_input`] and [`SetsKey`].
//! [`StructureFields`] holds the fields of a unit's structure for display.
//!
//! `specs/Rules.antt` defines how each unit is read after those before it, `specs/Readings.antt` the state that
//! follows, `specs/Streams.antt` and `specs/Bytes.antt` the pictures of units and of bytes, and
//! `specs/Inputs.antt` decoding inputs. The laws hold whatever sets and headers are read as.
#![tactic(auto)]

mod accepted;
mod aps_list;
mod compare;
mod count;
mod in_force;
mod input;
mod kept_fields;
mod kind;
mod laws;
mod laws_joined;
mod laws_readers;
mod laws_sublayers;
mod laws_whole;
mod layouts;
mod lender;
mod numbers;
mod picture;
mod place;
mod sets;
mod sets_key;
mod structure;
mod unit_types;

pub use accepted::Accepted;
pub use aps_list::ApsList;
pub use compare::{Difference, differing_field, same_body, same_input, same_items, same_lists};
pub use count::{CountFields, PrevTid0, picture_order_count};
pub use in_force::{AlfInForce, alf_in_force, body_named, filter_fields, luma_bodies};
pub use input::{DecodingInput, decoding_input};
pub use kept_fields::{header_fields, kept_among, kept_of_header};
pub use kind::Kind;
pub use laws::{
    alike_is_next, current_by_places, edits_are_planned, gathered_by_places, needed_is_body,
    needed_is_stored, pictures_are_finished, pictures_are_unique, pictures_exist, pictures_stay,
    plans_read_again, previous_by_places, reading_goes_on, seen_pictures_stay, stored_by_places,
    written_has_pictures, written_reads_again,
};
pub use laws_joined::{begins_where_first, joined_are_finished, played_are_finished};
pub use laws_readers::{readers_answer_as_programs, readers_are_unique, readers_exist};
pub use laws_sublayers::{all_are_kept, kept_are_finished};
pub use laws_whole::{inputs_are_shown, pictures_have_sets, subpictures_have_slices};
pub use layouts::{CTU_SIZE_FAULT, IDS_FAULT, picture_ids, picture_layout};
pub use lender::{Lender, lent};
pub use numbers::number_of;
pub use picture::{Picture, PictureParts, SliceSlot, SliceSlots, SliceView};
pub use place::{Place, luma_size_of, several_slices, several_tiles};
pub use sets::{PPS, SPS};
pub use sets_key::SetsKey;
pub use structure::{Structure, StructureFields};
pub use unit_types::{
    CRA_NUT, EOB_NUT, EOS_NUT, GDR_NUT, IDR_N_LP, IDR_W_RADL, PH_NUT, PPS_NUT, PREFIX_APS_NUT,
    PREFIX_SEI_NUT, RADL_NUT, RASL_NUT, SPS_NUT, STSA_NUT, SUFFIX_APS_NUT, TRAIL_NUT, VPS_NUT,
    is_cra_or_gdr, is_idr, is_irap_or_gdr,
};
