//! Laws of what a table means, row by row. A law is a function that does nothing; its contract states it.
ghost use Rattle.vx_table.specs.laws.Rows.{EndsWithoutRows, BeginsWithField, BeginsWithBlock, BeginsWithName};

/// A table is its first row and then the rest: a field, a block with the rows after it, or a name.
pub fn first_row_first()
    ensures none { EndsWithoutRows }
    ensures field { BeginsWithField }
    ensures block { BeginsWithBlock }
    ensures name { BeginsWithName }
{}
