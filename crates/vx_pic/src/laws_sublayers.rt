//! Laws of the pictures up to a TemporalId (H.266 C.6). A law is a function that does nothing; its contract states it.
ghost use Rattle.vx_pic.specs.Sublayers.{AllAreKept, KeptAreFinished};

/// If no IRAP or GDR picture is left out, then each picture that is kept has what is required of a picture that is written, after
/// those that are kept before it.
pub fn kept_are_finished()
    ensures { KeptAreFinished }
{}

/// If the limit is TemporalId 6, then all pictures are kept.
pub fn all_are_kept()
    ensures { AllAreKept }
{}
