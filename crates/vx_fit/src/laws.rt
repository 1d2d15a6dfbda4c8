//! Laws on regions and their lines. A law is a function that does nothing; its contract states it.
ghost use Rattle.vx_fit.specs.laws.Fitting.{BorderIsRegions, FaultlessFits, FitFaultIsOne, FittingHasNoFault, FrameOfRegions, KeepingHasNoFault, LinesAreOne, LinesFaultIsOne};

/// If regions have a fault, then they have no other one, and if they fit together, then they have none.
pub fn fit_fault_is_one()
    ensures one { FitFaultIsOne }
    ensures none { FittingHasNoFault }
{}

/// If regions have no fault, then they fit together.
pub fn faultless_fits()
    ensures { FaultlessFits }
{}

/// If regions fit together and aren't empty, then the CTUs of each have its samples, cut only at the frame's right and
/// lower border.
pub fn border_is_regions()
    ensures { BorderIsRegions }
{}

/// If a region is the lowest that doesn't keep its lines, then no other one is, and if all keep them, then none is. The
/// lines then make up one list of columns and one of rows.
pub fn lines_are_one()
    ensures one { LinesFaultIsOne }
    ensures none { KeepingHasNoFault }
    ensures bounds { LinesAreOne }
{}

/// If regions fit together, and sources of their sizes in them all keep their lines, then the frame is a layout, also as
/// one subpicture. Its slices can be listed tile by tile, and its region k is source k.
pub fn frame_of_regions()
    ensures { FrameOfRegions }
{}
