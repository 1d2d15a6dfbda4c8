//! Laws of lists, structures and weights. A law is a function that does nothing; its contract states it.
ghost use Rattle.vx_rpl.specs.Depends.{ListsDepend, StructureDepends, WeightsDepend, FieldsAreCodedOnce, ListsCarry, ListsShow, ListsKeep, ListsLeave, ListsFollowItems, TablesFollowItems};
ghost use Rattle.vx_rpl.specs.laws.Lengths.{EntriesAreCounted};
ghost use Rattle.vx_rpl.specs.Written.{StructuresWrittenAlike};

/// Lists depend on five numbers of the parameter sets, for any structures of the SPS.
pub fn lists_depend()
    ensures { ListsDepend }
{}

/// A structure depends on four numbers of the SPS, its index, and the number of structures.
pub fn structure_depends()
    ensures { StructureDepends }
{}

/// Weights depend on whether there is chroma, two flags of the PPS, and the numbers of entries of the lists.
pub fn weights_depend()
    ensures { WeightsDepend }
{}

/// No field is coded by two rows.
pub fn fields_are_coded_once()
    ensures { FieldsAreCodedOnce }
{}

/// If the test over their tables holds, then lists carry what is known.
pub fn lists_carry()
    ensures { ListsCarry }
{}

/// If each row passes the test, then all fields of the lists are shown, or kept exactly if they are shown; and names to
/// which no row gives a number are left unchanged.
pub fn lists_pass()
    ensures show { ListsShow }
    ensures keep { ListsKeep }
    ensures leave { ListsLeave }
{}

/// If scopes agree on what lists depend on and the items of their fields are the same, then the lists are the same.
pub fn lists_follow_items()
    ensures { ListsFollowItems }
{}

/// If the items of structures and of their numbers are the same, then the structures of an SPS are the same.
pub fn tables_follow_items()
    ensures { TablesFollowItems }
{}

/// If a structure is written, then its bits don't depend on the index and the count with which it was read.
pub fn structures_written_alike()
    ensures { StructuresWrittenAlike }
{}

/// If a structure is read, then it has as many entries as num_ref_entries, and as many long-term ones as a walk counts.
pub fn entries_are_counted()
    ensures { EntriesAreCounted }
{}
