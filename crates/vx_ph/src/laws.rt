//! Laws of picture headers. A law is a function that does nothing; its contract states it.
ghost use Rattle.vx_ph.specs.Depends.{KeptDepend, AllDepend, KeepsKept, ShowsAll, FieldsAreCodedOnce, HeaderReadAgain, HeaderRewrites};
ghost use Rattle.vx_ph.specs.laws.Enabled.{NoLmcs, NoScaling, NoChromaScaling, NoFilter};
ghost use Rattle.vx_ph.specs.Filter.{FilterGoesAgain, FilterNamesOnce, HeaderHasFilter};
ghost use Rattle.vx_ph.specs.Id.{HeaderHasId, UnitHasId};
ghost use Rattle.vx_ph.specs.InForce.{SetsAgree};
ghost use Rattle.vx_ph.specs.Picture.{UnitIsRead};
ghost use Rattle.vx_ph.specs.Reshaped.{SameKeptAgree};
ghost use Rattle.vx_ph.specs.laws.Sizes.{SetsAreBounded, SpellingIsShort};

/// If sets give some fields the same numbers, then their scopes agree on these.
pub fn sets_agree()
    ensures { SetsAgree }
{}

/// The kept fields of a header depend only on kept fields of the sets and of the header, for any structures of the SPS. All
/// its fields depend in addition on two fields of the PPS.
pub fn header_depends()
    ensures kept { KeptDepend }
    ensures all { AllDepend }
{}

/// No field is coded by two rows.
pub fn fields_are_coded_once()
    ensures { FieldsAreCodedOnce }
{}

/// A header keeps exactly the kept fields, and all fields that it has are named.
pub fn header_keeps()
    ensures kept { KeepsKept }
    ensures all { ShowsAll }
{}

/// If the same bits are read under sets that agree on what a header depends on, then they are the same header or the same
/// refusal.
pub fn header_read_again()
    ensures { HeaderReadAgain }
{}

/// If other sets keep what kept fields depend on, then a header can be rewritten under them, with its kept fields, another id of
/// the PPS, and other LMCS and scaling lists.
pub fn header_rewrites()
    ensures { HeaderRewrites }
{}

/// If bits begin with a header, then the id in the bits is its id, for any sets.
pub fn header_has_id()
    ensures { HeaderHasId }
{}

/// If sets have the same kept fields, then they are the same for headers.
pub fn same_kept_agree()
    ensures { SameKeptAgree }
{}

/// If a unit is written, then it is read as its header.
pub fn unit_is_read()
    ensures { UnitIsRead }
{}

/// If a filter goes through, then it does so again with other ids of its sets; and that of a picture header goes through.
pub fn filter_goes_again()
    ensures again { FilterGoesAgain }
    ensures header { HeaderHasFilter }
{}

/// A filter names at most one set for chroma, one for Cb and one for Cr.
pub fn filter_names_once()
    ensures { FilterNamesOnce }
{}

/// If a unit has a header, then a reader of the id returns the header's, for any sets.
pub fn unit_has_id()
    ensures { UnitHasId }
{}

/// If the SPS doesn't enable LMCS, scaling lists, chroma or the filter, then a header has none of it.
pub fn header_is_enabled()
    ensures lmcs { NoLmcs }
    ensures scaling { NoScaling }
    ensures chroma { NoChromaScaling }
    ensures filter { NoFilter }
{}

/// If the sets have at most 32 extra bits, then a unit of a picture header has at most 2^17 bytes.
pub fn spelling_is_short()
    ensures short { SpellingIsShort }
    ensures sets { SetsAreBounded }
{}
