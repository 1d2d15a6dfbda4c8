//! Laws of sequence parameter sets. A law is a function that does nothing; its contract states it.
ghost use Rattle.vx_sps.specs.Set.{WrittenIsRead, NoProperPrefix, SpellingIsShort};
ghost use Rattle.vx_sps.specs.Depends.{KeptDependsOnKept, StarsTellKept, KeptAreSifted, KeptAndOthersTell};

/// If a set is written, then its bytes are read as the set.
pub fn written_is_read()
    ensures { WrittenIsRead }
{}

/// If two sets have different spellings, then neither is a proper prefix of the other.
pub fn no_proper_prefix()
    ensures { NoProperPrefix }
{}

/// The spelling of a set has at most 2^17 bytes, by the ranges of the fields that count others.
pub fn spelling_is_short()
    ensures { SpellingIsShort }
{}

/// The kept fields of a set are those without a star, and depend only on kept fields.
pub fn kept_depends_on_kept()
    ensures depends { KeptDependsOnKept }
    ensures stars { StarsTellKept }
{}

/// The items of kept fields are what [`crate::keep_sps`] selects: they include no absent field.
pub fn kept_are_sifted()
    ensures { KeptAreSifted }
{}

/// If two sets have the same kept fields and the same others, then they are the same.
pub fn kept_and_others_tell()
    ensures { KeptAndOthersTell }
{}
