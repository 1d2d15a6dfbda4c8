//! Reads the pictures of a stream one at a time: each picture is returned with its last slice.
//!
//! A [`Feed`] reads a source, and a [`MemoryFeed`] units in memory. Both pass units in order to an
//! [`Assembler`]. An assembler keeps what later units are read under: the sets in force, the picture that was
//! begun, and what the picture order counts of later pictures need.
//!
//! `specs/Feed.antt` and `specs/Memory.antt` relate these types to the stream that they have read, and
//! `specs/Held.antt` an assembler to the units that it has taken.
#![tactic(auto)]

mod assembler;
mod begin;
mod current;
mod fault;
mod feed;
mod fields;
mod first_slice;
mod gather;
mod in_force;
mod items;
mod join;
mod keep;
mod memory_feed;
mod readers;
mod refusals;
mod sets;
mod shared;
mod slices;
mod state;
mod unit;
mod units;
mod view;

pub use assembler::Assembler;
pub use fault::{AssembleFault, First};
pub use feed::{Feed, FeedFault, Step, Taken};
pub use memory_feed::MemoryFeed;
pub use view::UnitView;
pub use vx_pic::Accepted;
