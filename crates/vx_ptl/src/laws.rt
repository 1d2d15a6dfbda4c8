//! Laws of the structures. A law is a function that does nothing; its contract states it.
ghost use Rattle.vx_ptl.specs.Spelling.{StructuresAreSpelled, RunsAreSpelled, WritesWhatWasRead};

/// If values follow a structure, then their items are written as the structure's spelling of them.
pub fn structures_are_spelled()
    ensures { StructuresAreSpelled }
{}

/// If items are those of several structures in a row, then they are written as the structures' spellings, one after
/// another.
pub fn runs_are_spelled()
    ensures { RunsAreSpelled }
{}

/// If structures were read, then their items are written at the same place as the bits from which they were read.
pub fn writes_what_was_read()
    ensures { WritesWhatWasRead }
{}
