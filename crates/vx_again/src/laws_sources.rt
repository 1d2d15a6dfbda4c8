//! Laws of the pictures of sources. Each function does nothing and has its law as its contract.
ghost use Rattle.vx_again.specs.Played.{PlayedCanBeMerged};
ghost use Rattle.vx_again.specs.Sources.{PicturesCanBeMerged};

use vx_annexb::escaped_splits;
use vx_extract::{pictures_are_in_force, pictures_have_their_readings};
use vx_ph::header_is_enabled;
use vx_pic::{pictures_are_finished, played_are_finished, subpictures_have_slices};
use vx_sh::{no_slice_filter, numbers_are_told, slice_scopes_agree};

/// If units can stand in a byte stream, then the pictures read from them can be merged with others.
pub fn pictures_can_be_merged()
    ensures { PicturesCanBeMerged }
{
    escaped_splits();
    slice_scopes_agree();
    numbers_are_told();
    header_is_enabled();
    no_slice_filter();
    pictures_are_finished();
    pictures_are_in_force();
    pictures_have_their_readings();
    subpictures_have_slices();
}

/// If the pictures of files can be merged, then so can those of the files played one after another.
///
/// Each picture that is joined may come first after a join.
pub fn played_can_be_merged()
    ensures { PlayedCanBeMerged }
{
    played_are_finished();
}
