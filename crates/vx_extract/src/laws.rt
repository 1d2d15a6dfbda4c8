//! Laws of what is written. Each function does nothing and has its law as its contract.
ghost use Rattle.vx_extract.specs.Again.{ExtractedArePlanned, ExtractedHasItsBodies, ExtractedIsAlike, ExtractedIsWhole, ExtractedReadsAgain, ExtractedSendsItsSets, ExtractedUnitsAreRead, RewrittenAgree, RewrittenKeepFields, RewrittenKeepIds, RewrittenMakeRegion, RewrittenReadAlike};

use vx_layout::{region_is_layout, region_is_listable, region_keeps_slices, regions_nest};
use vx_ph::sets_agree;
use vx_pic::{edits_are_planned, readers_are_unique, written_reads_again};
use vx_pps::{
    read_slices_are_listable, region_keeps, reshaped_has_its_tiles, sets_tell_partitions,
};
use vx_rpl::{lists_follow_items, tables_follow_items};
use vx_sh::{numbers_are_told, slice_read_elsewhere, slice_scopes_agree};
use vx_sps::{reshaped_keeps, reshaped_says};
use vx_write::set_units_are_read;

/// If sets are rewritten for a subpicture, then they make up its region, as a picture with one subpicture.
///
/// That subpicture has the target's id (H.266 7.4.3.4, 7.4.3.5). The sets have the ids of those that they replace.
pub fn rewritten_make_region()
    ensures made { RewrittenMakeRegion }
    ensures ids { RewrittenKeepIds }
{
    sets_tell_partitions();
    read_slices_are_listable();
    region_is_layout();
    region_is_listable();
    reshaped_says();
    reshaped_has_its_tiles();
}

/// If sets are rewritten for a subpicture, then their kept fields are the source's.
pub fn rewritten_keep_fields()
    ensures { RewrittenKeepFields }
{
    sets_tell_partitions();
    read_slices_are_listable();
    region_is_layout();
    region_is_listable();
    reshaped_keeps();
    region_keeps();
}

/// If sets are rewritten for a subpicture, then headers find in them all that they find in the source's sets.
pub fn rewritten_agree()
    ensures { RewrittenAgree }
{
    sets_agree();
    slice_scopes_agree();
    tables_follow_items();
    lists_follow_items();
}

/// If sets are rewritten for a subpicture, then the picture's units are read alike under them.
///
/// The units are the picture header and each slice of the subpicture; they are read under the picture's own sets and under the rewritten
/// ones, by readers of H.266.
pub fn rewritten_read_alike()
    ensures { RewrittenReadAlike }
{
    rewritten_make_region();
    rewritten_agree();
    region_is_layout();
    region_keeps_slices();
    regions_nest();
    slice_read_elsewhere();
    slice_scopes_agree();
    numbers_are_told();
    readers_are_unique();
}

/// If the subpicture of a whole picture is written, then its header and slices are read as planned.
pub fn extracted_units_are_read()
    ensures { ExtractedUnitsAreRead }
{
    rewritten_make_region();
    rewritten_read_alike();
}

/// If a picture is whole, in order and not too long, then so is its written subpicture.
pub fn extracted_is_whole()
    ensures { ExtractedIsWhole }
{}

/// If a subpicture is written, then the needed sets that aren't resident are sent, and no others.
///
/// No two needed sets have the same type and id. The written header agrees with the picture's in all that picture order counts depend on.
pub fn extracted_sends_its_sets()
    ensures sets { ExtractedSendsItsSets }
    ensures counts { ExtractedIsAlike }
{}

/// If a picture's adaptation parameter sets can be written, then the needed ones can be read again.
///
/// All that the slices name are among them. The premises include that those that slices name are there.
pub fn extracted_has_its_bodies()
    ensures { ExtractedHasItsBodies }
{}

/// If subpictures of a stream's pictures are written, then their plans are valid and have the pictures' counts.
pub fn extracted_are_planned()
    ensures { ExtractedArePlanned }
{
    sets_tell_partitions();
    extracted_units_are_read();
    extracted_is_whole();
    extracted_sends_its_sets();
    extracted_has_its_bodies();
    set_units_are_read();
    edits_are_planned();
}

/// If subpictures of a stream's pictures are written, then exactly these are read again, and all are whole.
pub fn extracted_reads_again()
    ensures { ExtractedReadsAgain }
{
    extracted_are_planned();
    written_reads_again();
}
