//! Laws of what extraction keeps. Each function does nothing and has its law as its contract.
ghost use Rattle.vx_extract.specs.Kept.{AllKeepInputs, AllKeepMessages, ExtractedKeepsBodies, ExtractedKeepsInputs, ExtractedKeepsMessages, RewrittenKeepPlaces};

use crate::laws::{
    extracted_reads_again, extracted_sends_its_sets, rewritten_agree, rewritten_keep_fields,
};
use vx_layout::{region_is_layout, region_is_listable, regions_nest};
use vx_pic::needed_is_body;
use vx_pps::{read_slices_are_listable, reshaped_has_its_tiles, sets_tell_partitions};
use vx_sps::reshaped_says;

/// If sets are rewritten for a subpicture, then slices keep their places in it (H.266 7.4.3.5).
///
/// A place is width and height, tiles and slices, and whether in-loop filters cross their borders.
pub fn rewritten_keep_places()
    ensures { RewrittenKeepPlaces }
{
    sets_tell_partitions();
    read_slices_are_listable();
    region_is_layout();
    region_is_listable();
    regions_nest();
    reshaped_says();
    reshaped_has_its_tiles();
}

/// If a subpicture is written, then the adaptation parameter sets that its slices name keep their bodies.
pub fn extracted_keeps_bodies()
    ensures { ExtractedKeepsBodies }
{
    needed_is_body();
    extracted_sends_its_sets();
}

/// If a subpicture is written, then its slices have the source's decoding inputs when read again.
pub fn extracted_keeps_inputs()
    ensures { ExtractedKeepsInputs }
{
    rewritten_agree();
    rewritten_keep_fields();
    rewritten_keep_places();
    extracted_keeps_bodies();
}

/// If a subpicture is written, then it has the picture's messages when read again.
pub fn extracted_keeps_messages()
    ensures { ExtractedKeepsMessages }
{}

/// If a subpicture of all pictures is written, then they keep decoding inputs and messages, in order.
pub fn all_keep_inputs()
    ensures inputs { AllKeepInputs }
    ensures messages { AllKeepMessages }
{
    extracted_keeps_inputs();
    extracted_keeps_messages();
    extracted_reads_again();
}
