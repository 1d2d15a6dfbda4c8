//! Laws of the sets and slices of pictures. A law is a function that does nothing; its contract states it.
ghost use Rattle.vx_pic.specs.Inputs.{InputsAreShown};
ghost use Rattle.vx_pic.specs.Whole.{PicturesHaveSets, SlicesAreShown, SubpicturesAreWhole, SubpicturesHaveSlices};

use vx_pps::sets_tell_partitions;
use vx_sh::{addresses_are_below, slice_scopes_agree};

/// The sets in force for a picture were read.
pub fn pictures_have_sets()
    ensures { PicturesHaveSets }
{}

/// If a picture was read, then for each subpicture it has the slices of its layout, in the order of their addresses, and so at
/// least one.
pub fn subpictures_have_slices()
    ensures some { SubpicturesHaveSlices }
    ensures all { SubpicturesAreWhole }
    ensures shown { SlicesAreShown }
{
    sets_tell_partitions();
    addresses_are_below();
    slice_scopes_agree();
}

/// The decoding inputs of a picture of a stream are those of its model.
pub fn inputs_are_shown()
    ensures { InputsAreShown }
{}
