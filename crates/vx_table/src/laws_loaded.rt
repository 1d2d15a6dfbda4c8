//! Laws of the numbers that items give to fields. A law is a function that does nothing; its contract states it.
ghost use Rattle.vx_table.specs.Loaded.{NumberOfLast, NumberOfNone, NumberOfShown, LoadsTogether, TablesLoad, SectionsLoad, ItemsBelow, NumberBelow, TablesStayBelow, SectionsStayBelow};

/// If a field has items, then its number is that of its last item, and otherwise 0; the items of any set that has the field
/// give it the same number.
pub fn number_of_items()
    ensures last { NumberOfLast }
    ensures none { NumberOfNone }
    ensures shown { NumberOfShown }
{}

/// If a structure has ended, then fields have the numbers that its items give them.
pub fn items_load()
    ensures table { TablesLoad }
    ensures sections { SectionsLoad }
    ensures together { LoadsTogether }
{}

/// If a field's code or its range gives a bound, then the field's items and its number are below it.
pub fn number_below()
    ensures items { ItemsBelow }
    ensures form { NumberBelow }
    ensures table { TablesStayBelow }
    ensures sections { SectionsStayBelow }
{}
