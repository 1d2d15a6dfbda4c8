//! Laws of picture parameter sets. A law is a function that does nothing; its contract states it.
ghost use Rattle.vx_pps.specs.laws.Sets.{WrittenIsRead, NoProperPrefix, SpellingIsShort, StarsTellKept, KeptDependsOnKept, KeptAndOthersTell, KeptTellsNumbers, TilesAreInLimits, SetsTellPartitions, ReadSlicesAreListable};

/// If a set is written, then its bytes are read as the set.
pub fn written_is_read()
    ensures { WrittenIsRead }
{}

/// If two sets have different spellings, then neither is a proper prefix of the other.
pub fn no_proper_prefix()
    ensures { NoProperPrefix }
{}

/// The spelling of a set has at most 2^16 bytes, by its limits on tiles and slices and the ranges of the fields that count
/// others.
pub fn spelling_is_short()
    ensures { SpellingIsShort }
{}

/// The kept fields of a set are those without a star, and depend only on kept fields and on pps_no_pic_partition_flag.
pub fn kept_depends_on_kept()
    ensures depends { KeptDependsOnKept }
    ensures stars { StarsTellKept }
{}

/// If two sets have the same kept fields and the same others, then they are the same.
pub fn kept_and_others_tell()
    ensures { KeptAndOthersTell }
{}

/// If two sets have the same kept items, including those in place of absent fields, then they give each kept field the same
/// number.
pub fn kept_tells_numbers()
    ensures { KeptTellsNumbers }
{}

/// If a picture is partitioned, then its tiles are within the limits of a layout.
pub fn tiles_are_in_limits()
    ensures { TilesAreInLimits }
{}

/// If a set is partitioned, then it determines the tiles, and the slices unless each subpicture is one: bounds and slices as
/// a layout requires them (H.266 6.5.1).
pub fn sets_tell_partitions()
    ensures { SetsTellPartitions }
{}

/// If the slices of a slice list cover the picture once, then they can be listed again (H.266 6.3.1, 7.3.2.5). They are
/// whole tiles or whole rows of one tile, and those in one tile are next to each other.
pub fn read_slices_are_listable()
    ensures { ReadSlicesAreListable }
{}
