//! A law of the number of bits of a structure. A law is a function that does nothing; its contract states it.
ghost use Rattle.vx_table.specs.laws.Sizes.{TablesAreShort, SectionsAreShort};

/// If the numbers of fields and names have bounds that the rows keep, then the values of a table have at most as many bits
/// as its rows give.
pub fn bits_at_most()
    ensures table { TablesAreShort }
    ensures sections { SectionsAreShort }
{}
