//! Laws of the numbers. A law is a function that does nothing; its contract states it.
ghost use Rattle.vx_fields.specs.Names.{FieldsHaveNames, NamesAreDistinct};
ghost use Rattle.vx_fields.specs.laws.Numbers.{NumbersAreDistinct, NumbersFitAScope};

/// No two fields or names have the same number.
pub fn numbers_are_distinct()
    ensures { NumbersAreDistinct }
{}

/// Each number is within a scope.
pub fn numbers_fit_a_scope()
    ensures { NumbersFitAScope }
{}

/// Each field has a name as text, and no other number has one.
#[tactic(auto, using(crate::proofs::Naming::fields_named))]
pub fn fields_have_names()
    ensures { FieldsHaveNames }
{}

/// No two numbers have the same name.
#[tactic(auto, using(crate::proofs::Naming::names_differ))]
pub fn names_are_distinct()
    ensures { NamesAreDistinct }
{}
