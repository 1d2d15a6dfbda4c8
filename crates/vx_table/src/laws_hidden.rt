//! Laws of fields that numbers hide. A law is a function that does nothing; its contract states it.
ghost use Rattle.vx_table.specs.laws.Absence.{TablesHide, SectionsHide, HiddenTogether, HiddenPresent, SetsHide, LeftHide, HiddenHaveNoItems};

/// If some numbers are 0, then a table has no field under conditions which are then 0, and neither has a structure.
pub fn fields_hidden()
    ensures table { TablesHide }
    ensures sections { SectionsHide }
{}

/// If parts hide fields, then so do one part after another, a repeated part, a name that is given a number, and a form that
/// leaves all of these unchanged.
pub fn hidden_parts()
    ensures together { HiddenTogether }
    ensures present { HiddenPresent }
    ensures set { SetsHide }
    ensures left { LeftHide }
{}

/// If fields are hidden, then a structure has no items of them.
pub fn hidden_have_no_items()
    ensures { HiddenHaveNoItems }
{}
