//! Laws of the pictures of a stream. A law is a function that does nothing; its contract states it. They hold whatever sets and
//! headers are read as.
ghost use Rattle.vx_pic.specs.Alike.{AlikeIsNext};
ghost use Rattle.vx_pic.specs.laws.Edited.{EditsArePlanned};
ghost use Rattle.vx_pic.specs.Finished.{PicturesAreFinished};
ghost use Rattle.vx_pic.specs.Resident.{NeededIsStored, NeededIsBody, WrittenReadsAgain};
ghost use Rattle.vx_pic.specs.laws.Pictures.{ReadingGoesOn, PicturesStay, PicturesAreUnique, PicturesExist, SeenPicturesStay};
ghost use Rattle.vx_pic.specs.laws.Pictures.{StoredByPlaces, GatheredByPlaces, CurrentByPlaces, PreviousByPlaces};
ghost use Rattle.vx_pic.specs.laws.Pictures.{PlansReadAgain, WrittenHasPictures};

/// If no unit before is refused, then more units are read after those before them.
pub fn reading_goes_on()
    ensures { ReadingGoesOn }
{}

/// If units go on, then pictures that are done remain.
pub fn pictures_stay()
    ensures { PicturesStay }
{}

/// The bytes determine the pictures, and where and why they are refused.
pub fn pictures_are_unique()
    ensures { PicturesAreUnique }
{}

/// All bytes have pictures and an ending.
pub fn pictures_exist()
    ensures { PicturesExist }
{}

/// If bytes go on, then pictures that were seen remain.
pub fn seen_pictures_stay()
    ensures { SeenPicturesStay }
{}

/// The sets in force are those of the last units with their ids.
pub fn stored_by_places()
    ensures { StoredByPlaces }
{}

/// Messages are gathered from the units since the last slice, in the order of the units.
pub fn gathered_by_places()
    ensures { GatheredByPlaces }
{}

/// The picture that was begun last has the slice with which it began, and all slices after it, in the order of the units.
pub fn current_by_places()
    ensures { CurrentByPlaces }
{}

/// prevTid0Pic is the last picture that can be it (H.266 8.3.1).
pub fn previous_by_places()
    ensures { PreviousByPlaces }
{}

/// If a picture takes the place of one in another stream, and their headers agree on what counts depend on, then it has that
/// picture's count and kind.
pub fn alike_is_next()
    ensures { AlikeIsNext }
{}

/// If the units of a picture are written where a stream can go on, then they are read as that picture.
pub fn plans_read_again()
    ensures { PlansReadAgain }
{}

/// If a written picture needs a set, then the set is in force for its header. It is sent unless it is resident.
pub fn needed_is_stored()
    ensures { NeededIsStored }
{}

/// If a written picture needs an adaptation parameter set, then it is one of those of the picture that is read again.
pub fn needed_is_body()
    ensures { NeededIsBody }
{}

/// If pictures are written one after another, then exactly these are read again, and all are whole.
pub fn written_reads_again()
    ensures { WrittenReadsAgain }
{}

/// If units are written to a stream, then the stream has the pictures that their list has.
pub fn written_has_pictures()
    ensures { WrittenHasPictures }
{}

/// If a picture was read, then it has what is required of a picture that is written.
pub fn pictures_are_finished()
    ensures { PicturesAreFinished }
{}

/// If plans take the places of pictures that were read, then they are as plans must be, and their pictures have the same counts.
pub fn edits_are_planned()
    ensures { EditsArePlanned }
{}
