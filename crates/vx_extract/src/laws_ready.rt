//! Laws of the pictures of a stream, for extraction. Each function does nothing and has its law as its contract.
ghost use Rattle.vx_extract.specs.Ready.{PicturesAreInForce, PicturesAreReady, PicturesHaveTheirReadings};

use vx_pic::{pictures_are_finished, pictures_have_sets, subpictures_have_slices};
use vx_pps::sets_tell_partitions;

/// If readers of H.266 read pictures from units, then each picture's sets make up its layout.
pub fn pictures_are_in_force()
    ensures { PicturesAreInForce }
{
    sets_tell_partitions();
    pictures_are_finished();
    pictures_have_sets();
}

/// If readers of H.266 read pictures from units, then their adaptation parameter sets can be written.
///
/// Those that slices name are there, and the pictures' messages are carried.
pub fn pictures_have_their_readings()
    ensures { PicturesHaveTheirReadings }
{
    pictures_are_finished();
}

/// If each picture up to a TemporalId has the subpicture, then it can be written and is read again.
pub fn pictures_are_ready()
    ensures { PicturesAreReady }
{
    pictures_are_in_force();
    pictures_have_their_readings();
    subpictures_have_slices();
}
