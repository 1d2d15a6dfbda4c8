//! NAL units in a byte stream (H.266 Annex B): where each begins and ends, and what its header contains.
//!
//! A [`UnitReader`] reads a source and returns its units one at a time; a [`Splitter`] does so for bytes that
//! are fed to it. [`write_unit`] writes a unit after a start code. [`escape`] and [`unescape`] insert and
//! remove emulation prevention bytes, and [`read_header`] reads the two bytes of a unit's header.
//!
//! `specs/ByteStream.antt` defines the units of a stream and the rules on them, `specs/Emulation.antt` the
//! emulation prevention, and `specs/NalUnit.antt` the header. `specs/Reading.antt` relates a reader to its
//! source.
#![tactic(auto)]

mod emulation;
mod header;
mod laws;
mod queue;
mod rules;
mod search;
mod span;
mod splitter;
mod unit_reader;
mod write;

pub use emulation::{emulation_fault, escape, unescape, unit_place};
pub use header::{NalHeader, read_header};
pub use laws::{
    annex_b_is_stream, escaped_exists, escaped_is_inverse, escaped_is_short, escaped_is_unique,
    escaped_joins, escaped_splits, later_unseen, seen_stays, stray_ends_stream, stream_exists,
    stream_goes_on, stream_is_annex_b, stream_is_unique, unescaped_joins, units_can_stand,
    written_is_annex_b, written_is_stream,
};
pub use span::Span;
pub use splitter::Splitter;
pub use unit_reader::{Closed, ReadFault, TakeFault, UnitReader};
pub use write::write_unit;
