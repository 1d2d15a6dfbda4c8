//! Laws of the bits of all tables. A law is a function that does nothing; its contract states it.
ghost use Rattle.vx_table.specs.laws.Spelling.{ReadsOneWay, AnswersOneWay, AnswersAlways, SpellsBothWays, ReachesBothWays, ReadsBack, SpellsApart, ItemsApart, FollowsTogether, ItemsTogether, BitsTogether, SpellsTogether};
ghost use Rattle.vx_table.specs.laws.Bounds.{LieInRange, PartsLieInRange};
ghost use Rattle.vx_table.specs.laws.Trailing.{ClosesWithoutTrailing, ClosesAtTheEnd, PartsCloseWithoutTrailing, PartsCloseAtTheEnd, TablesStop, SectionsStop, StopsTogether, StopsAtBoundary, StopsInNoZero};

/// If bits begin with a spelling, then they determine the values and what follows.
pub fn one_reading()
    ensures { ReadsOneWay }
{}

/// If bits begin with a spelling, then they are not refused; and bits are refused at one field and in one way.
pub fn one_answer()
    ensures { AnswersOneWay }
{}

/// All bits begin with a spelling, or a field is refused after a prefix of them.
pub fn every_answer()
    ensures { AnswersAlways }
{}

/// Bits spell values if and only if the values follow the form and the bits are their codes, one after another; so also up
/// to a field.
pub fn spelled_both_ways()
    ensures values { SpellsBothWays }
    ensures fronts { ReachesBothWays }
{}

/// If values follow the form, then they are read back from their spelling, whatever follows that may follow.
pub fn read_back()
    ensures { ReadsBack }
{}

/// If a table has no trailing, then anything may follow its values; if it ends in one, then the bits may end.
pub fn what_may_follow()
    ensures anything { ClosesWithoutTrailing }
    ensures nothing { ClosesAtTheEnd }
    ensures parts_anything { PartsCloseWithoutTrailing }
    ensures parts_nothing { PartsCloseAtTheEnd }
{}

/// No spelling of values is a proper prefix of another's.
pub fn no_proper_prefix()
    ensures { SpellsApart }
{}

/// If items begin with those of values, then they determine the values that are written, and what follows.
pub fn one_writing()
    ensures { ItemsApart }
{}

/// If values follow two structures one after the other, then they split where the first ends; so do their items and their
/// bits.
pub fn one_behind_another()
    ensures values { FollowsTogether }
    ensures items { ItemsTogether }
    ensures bits { BitsTogether }
    ensures spellings { SpellsTogether }
{}

/// If each row of a field gives it the same range in numbers, then the field's items lie in it.
pub fn items_in_range()
    ensures table { LieInRange }
    ensures parts { PartsLieInRange }
{}

/// If a structure's last field is a one and zeros up to a byte boundary, or a trailing, then its bits end with these, at
/// the boundary, and its last byte isn't 00.
pub fn ends_in_stop()
    ensures table { TablesStop }
    ensures sections { SectionsStop }
    ensures together { StopsTogether }
    ensures boundary { StopsAtBoundary }
    ensures last { StopsInNoZero }
{}
