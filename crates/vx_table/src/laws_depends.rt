//! Laws of what fields depend on. A law is a function that does nothing; its contract states it.
ghost use Rattle.vx_table.specs.laws.Chains.{TablesCarry, SectionsCarry, SetsCarry, StepsCarry, CarriesTogether, CarriesPresent, ChainsDepend};
ghost use Rattle.vx_table.specs.Shown.{CellsFollowItems, CellsFollowKept, KeptTellsKept, ScopesFollowItems, AlikeTogether};

/// If values of two alike forms have the same items of shown fields, then they have the same shown fields, each with the
/// same coding and range, and leave scopes that agree.
pub fn cells_follow_items()
    ensures { CellsFollowItems }
{}

/// If items have the same shown items and are loaded into scopes that agree, then the scopes agree again.
pub fn scopes_follow_items()
    ensures { ScopesFollowItems }
{}

/// If structures are alike and those before them are alike, then both together are alike.
pub fn alike_together()
    ensures { AlikeTogether }
{}

/// If values of two alike forms that keep exactly the shown fields have the same kept items, then they have the same kept
/// fields, each with the same coding and range, and leave scopes that agree.
pub fn cells_follow_kept()
    ensures { CellsFollowKept }
{}

/// If a structure keeps what is shown, and what is shown depends only on the given numbers, then the kept fields depend
/// only on kept fields and the given numbers.
pub fn kept_tells_kept()
    ensures { KeptTellsKept }
{}

/// If the test holds for tables, then numbers that are known before them are known after them.
pub fn tables_carry()
    ensures table { TablesCarry }
    ensures sections { SectionsCarry }
{}

/// If a step sets a number under a name, or keeps scopes in agreement, then what is known before it is known after it.
pub fn steps_carry()
    ensures set { SetsCarry }
    ensures step { StepsCarry }
{}

/// If parts carry what is known, then so do one part after another, and a part whose number of repetitions is known.
pub fn chains_carry()
    ensures together { CarriesTogether }
    ensures present { CarriesPresent }
{}

/// If a walk carries what is known in this way, then it depends only on the given numbers.
pub fn chains_depend()
    ensures { ChainsDepend }
{}
