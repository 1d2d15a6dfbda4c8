//! Laws of rewriting. A law is a function that does nothing; its contract states it.
ghost use Rattle.vx_table.specs.Rewrites.{WhatGoesIsRewritten, CopiedRewrites, ReplacedRewrites, MixedRewrites, GivenGoes, RewritesTogether, AbsentRewrites, PresentRewrites, NothingRewrites, ValuesTake, TakesAgain, TakesTogether, TurnsTake, RewrittenIsRead, TablesLeave, SectionsLeave, LeavesTogether, LeavesPresent, LeavesAgree, SectionsTogether};
ghost use Rattle.vx_table.specs.Sent.{SentAsRewritten, SendsRewritten};
ghost use Rattle.vx_table.specs.Rewritten.{RewritesOneWay, RewrittenKeeps, SectionsFillNone, MakesRewritten, MadeIsRewritten};

/// If two values have the same items of some fields and of all others, then they are the same structure.
pub fn rewrites_one_way()
    ensures { RewritesOneWay }
{}

/// If a rewriter is given these items, then it makes that structure unless memory runs out; and what it makes of all items
/// is that structure.
pub fn makes_rewritten()
    ensures makes { MakesRewritten }
    ensures made { MadeIsRewritten }
{}

/// If a rewritten structure is written, then it is read again, with the same items of the fields that were copied.
pub fn rewritten_is_read()
    ensures { RewrittenIsRead }
{}

/// If a structure can be rewritten, then a rewritten one exists.
pub fn what_goes_is_rewritten()
    ensures { WhatGoesIsRewritten }
{}

/// If all fields of a part are copied, or all are replaced, or a part of both kinds admits the others or their given
/// values, then it can be rewritten. So can a part that is absent or present in both, and one part after another.
pub fn parts_rewrite()
    ensures copied { CopiedRewrites }
    ensures replaced { ReplacedRewrites }
    ensures mixed { MixedRewrites }
    ensures given { GivenGoes }
    ensures absent { AbsentRewrites }
    ensures present { PresentRewrites }
    ensures nothing { NothingRewrites }
    ensures together { RewritesTogether }
{}

/// These items can replace a part: values that its fields may have; what goes through at one scope, at each that agrees;
/// one part after another; and the turns of a block.
pub fn items_take()
    ensures values { ValuesTake }
    ensures again { TakesAgain }
    ensures together { TakesTogether }
    ensures turns { TurnsTake }
{}

/// If the test holds for the rows of structures, then they leave names unchanged. So do parts, one after another or on a
/// condition, and at the end these names have the numbers that they had.
pub fn parts_leave()
    ensures table { TablesLeave }
    ensures sections { SectionsLeave }
    ensures together { LeavesTogether }
    ensures present { LeavesPresent }
    ensures agree { LeavesAgree }
{}

/// Sections are one structure after another, wherever they are cut.
pub fn sections_together()
    ensures { SectionsTogether }
{}

/// If each kept field is copied, then the rewritten structure has the same kept items.
pub fn rewritten_keeps()
    ensures keeps { RewrittenKeeps }
    ensures test { SectionsFillNone }
{}

/// A sender does what a rewriter followed by a writer does, so it writes the rewritten structure.
pub fn sent_as_rewritten()
    ensures both { SentAsRewritten }
    ensures writes { SendsRewritten }
{}
