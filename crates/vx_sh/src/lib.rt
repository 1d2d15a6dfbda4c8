//! The slice header of H.266 (clause 7.3.7).
//!
//! [`read_sh`] reads a header under the sets and the picture header in force, and [`write_sh`] writes it.
//! [`SliceHeader`] holds what layouts, pictures and rewriting need, and [`SliceNumbers`] the sets and picture
//! header under which it is read. [`SliceSender`] writes the headers of a rewritten picture, as a [`ShShape`]
//! describes them.
//!
//! `specs/Slice.antt` and `specs/Whole.antt` define the header's bits, `specs/InForce.antt` the numbers in
//! force, and `specs/Reshaped.antt` a rewritten header.
#![tactic(auto)]

mod context;
mod front;
mod header;
mod laws;
mod numbers;
mod read;
mod reshape;
mod send;
mod shape;
mod tables;
mod walk;
mod write;

pub use header::SliceHeader;
pub use laws::{
    addresses_are_below, first_bit_is_inside, no_proper_prefix, no_slice_filter, numbers_are_told,
    read_can_be_written, reshaped_is_read_again, slice_has_filter, slice_read_elsewhere,
    slice_scopes_agree, slices_agree_on_kept, slices_depend, slices_go_again, slices_keep,
    spelling_is_read, spelling_is_short,
};
pub use numbers::{SliceNumbers, read_sh, read_sh_at, read_sh_fields, write_sh};
pub use send::SliceSender;
pub use shape::ShShape;
pub use tables::{
    ACTIVE, ADDRESS, ALIGNMENT, CHROMA_QP_AND_FILTERS, END, FILTER_HERE, HEADER_INSIDE, INTER,
    KNOWN_SUBPIC, LISTS_HERE, LMCS_AND_SCALING, QP, STARRED, SUBPIC_ID, TYPE,
};
pub use walk::{EntryPoints, code_rest};
