//! Laws of what is written for the rounds of several streams. Each function does nothing and has its law as its contract.
ghost use Rattle.vx_again.specs.Streams.{MergedArePlanned, MergedKeepsMessages, MergedReadsAgain};
ghost use Rattle.vx_again.specs.Whole.{MergedUnitsCanStand};

use crate::laws_rounds::{
    merged_has_its_bodies, merged_is_alike, merged_is_whole, merged_sends_its_sets,
    merged_units_are_read,
};
use vx_annexb::escaped_joins;
use vx_pic::written_reads_again;
use vx_write::set_units_are_read;

/// If the rounds of streams are written, then their plans are valid, with the kinds of each stream's pictures.
pub fn merged_are_planned()
    ensures { MergedArePlanned }
{
    merged_units_are_read();
    merged_is_whole();
    merged_sends_its_sets();
    merged_has_its_bodies();
    merged_is_alike();
    set_units_are_read();
}

/// If the rounds of streams are written, then exactly the written pictures are read again, and all are whole.
pub fn merged_reads_again()
    ensures { MergedReadsAgain }
{
    merged_are_planned();
    written_reads_again();
}

/// If the rounds of streams are written, then the pictures have the messages of the first stream's pictures.
pub fn merged_keeps_messages()
    ensures { MergedKeepsMessages }
{}

/// If the rounds of streams are written, then their units can stand in a byte stream (H.266 Annex B).
pub fn merged_units_can_stand()
    ensures { MergedUnitsCanStand }
{
    escaped_joins();
}
