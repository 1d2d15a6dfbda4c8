//! The law of the text. The function does nothing and has its law as its contract.
ghost use Rattle.vx_explain.specs.Explained.{RulesAndFieldsAreExplained};

/// If a word is a rule or the number of a field, then it has an explanation; others have none.
pub fn rules_and_fields_are_explained()
    ensures { RulesAndFieldsAreExplained }
{}
