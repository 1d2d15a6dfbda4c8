//! Laws of whole merges. Each function does nothing and has its law as its contract.
ghost use Rattle.vx_again.specs.Regions.{PlannedAreOfMerge};
ghost use Rattle.vx_again.specs.Whole.{MergeIsReadAgain};

use crate::laws_rounds::{merged_keeps_inputs, merged_sends_its_sets, sets_make_the_frame};
use crate::laws_streams::{
    merged_are_planned, merged_keeps_messages, merged_reads_again, merged_units_can_stand,
};
use vx_extract::extraction_reads_again;
use vx_pic::{pictures_are_finished, written_has_pictures};
use vx_pps::{read_slices_are_listable, sets_tell_partitions};

/// If the rounds of streams are written, then the written pictures are those of the streams' merge.
///
/// Each has a subpicture at each corner, and subpicture k has the kinds and the decoding inputs of stream k's pictures.
pub fn planned_are_of_merge()
    ensures { PlannedAreOfMerge }
{
    sets_tell_partitions();
    read_slices_are_listable();
    merged_are_planned();
    sets_make_the_frame();
    merged_sends_its_sets();
    merged_keeps_inputs();
}

/// If the rounds of streams are written as a merge, then the bytes are read again as that merge.
///
/// The readers are any readers of H.266. Each region can be extracted, with the kinds and the decoding inputs of its stream (H.266 Annex
/// B, C.7).
pub fn merge_is_read_again()
    ensures { MergeIsReadAgain }
{
    merged_reads_again();
    merged_units_can_stand();
    written_has_pictures();
    pictures_are_finished();
    planned_are_of_merge();
    merged_keeps_messages();
    extraction_reads_again();
}
