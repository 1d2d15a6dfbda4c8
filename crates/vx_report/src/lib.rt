//! Makes the lines that the program prints: the lines of `show`, and the lines that name a broken rule.
//!
//! - [`unit_line`], [`set_line`], [`picture_line`] and [`fields_line`] make the JSON lines of `show`, from a NAL unit's header and place,
//!   from [`SetNumbers`], from [`PictureNumbers`], and from the fields of a set or header.
//! - [`refusal_line`] makes the line of a broken rule and its place, a [`Where`].
//!
//! The texts are defined in `specs`, one file for each kind of line.
#![tactic(auto)]

mod fields;
mod inputs;
mod picture;
mod refusal;
mod set;
mod slice;
mod unit;

pub use fields::fields_line;
pub use inputs::input_lines;
pub use picture::{PictureNumbers, picture_line};
pub use refusal::{Where, refusal_line};
pub use set::{SetNumbers, set_line};
pub use slice::{SliceNumbers, slice_line};
pub use unit::unit_line;
