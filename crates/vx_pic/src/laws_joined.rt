//! Laws of pictures that are joined after ends of sequence. A law is a function that does nothing; its contract states it.
ghost use Rattle.vx_pic.specs.Joined.{BeginsWhereFirst, JoinedAreFinished, PlayedAreFinished};

/// If pictures begin with the start of a coded layer video sequence and come after an end of sequence, then they can follow any
/// others, and keep their counts.
pub fn joined_are_finished()
    ensures { JoinedAreFinished }
{}

/// If files are joined, then their pictures have what is required of a picture that is written.
pub fn played_are_finished()
    ensures { PlayedAreFinished }
{}

/// A picture is the first of its file if and only if none of this file comes before it.
pub fn begins_where_first()
    ensures { BeginsWhereFirst }
{}
