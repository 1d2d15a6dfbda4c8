//! Bits, Exp-Golomb codes and field lists of H.266: the base of every reader and writer of its syntax.
//!
//! A [`BitReader`] takes codes from the start of bytes, and a [`BitWriter`] appends them. A read succeeds
//! exactly if the bits begin with a code of the wanted kind, and then returns its number. [`Fields`] is the
//! value of a syntax structure; [`CopyList`] and [`LentList`] carry all list types. [`Refusal`] names the
//! rule that a stream breaks, by a number of [`rules`].
//!
//! The codes are defined in `specs/Codes.antt` (H.266 7.2, 9.2), and places in the bits in
//! `specs/Place.antt`.
#![tactic(auto)]

mod kept;
mod laws;
pub mod limits;
mod list;
mod rbsp;
mod reader;
mod refusal;
pub mod rules;
mod window;
mod writer;

pub use kept::Kept;
pub use laws::{
    bits_begin_in_one_way, exp_golomb_is_parsed, exp_golomb_tells_apart, fixed_is_binary,
    fixed_tells_apart, signed_exp_golomb_is_mapped, signed_exp_golomb_tells_apart,
};
pub use list::{
    BodyList, ByReference, ByValue, ByteLists, Bytes, CopyList, Entries, Fields, IdList, Item,
    LentList,
};
pub use rbsp::{is_rbsp, short_rbsp};
pub use reader::BitReader;
pub use refusal::{BitCause, ReadError, Refusal};
pub use writer::BitWriter;
