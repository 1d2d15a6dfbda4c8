//! Laws of what the structures depend on. A law is a function that does nothing; its contract states it.
ghost use Rattle.vx_ptl.specs.laws.Depends.{PtlDepends, DpbDepends, TimingDepends, SublayerTimingDepends, TimingIfPresentDepends, FieldsAreCodedOnce};

/// Profile, tier and level depend only on the highest sublayer.
pub fn ptl_depends()
    ensures { PtlDepends }
{}

/// DPB parameters depend only on the highest sublayer, and on whether each sublayer has an entry.
pub fn dpb_depends()
    ensures { DpbDepends }
{}

/// General timing depends on no number of the scope.
pub fn timing_depends()
    ensures { TimingDepends }
{}

/// Sublayer timing depends only on the highest sublayer, whether each has an entry, and four fields of general timing.
pub fn sublayer_timing_depends()
    ensures { SublayerTimingDepends }
{}

/// Timing of a set that may lack it depends only on whether it is present, the highest sublayer, and whether each has
/// an entry.
pub fn timing_if_present_depends()
    ensures { TimingIfPresentDepends }
{}

/// No field is coded by two rows.
pub fn fields_are_coded_once()
    ensures { FieldsAreCodedOnce }
{}
