//! SEI messages that describe how pictures are to be shown, read and written (H.266 7.3.2.9, 7.3.6).
//!
//! An SEI RBSP is one or more messages and the byte 80. [`read_sei`] returns those of its messages that are
//! copied to the output, and [`write_sei`] the RBSP of messages.
//!
//! `specs/Sei.antt` defines messages, their RBSP, and which of them are copied.
#![tactic(auto)]

mod laws;
mod message;
mod read;
mod write;

pub use laws::{carried_is_shorter, sei_ends_in_80, sei_is_unique, written_is_read};
pub use message::{
    ALTERNATIVE_TRANSFER_CHARACTERISTICS, CONTENT_LIGHT_LEVEL_INFO,
    MASTERING_DISPLAY_COLOUR_VOLUME, Message, MessageList,
};
pub use read::read_sei;
pub use write::write_sei;
