//! The law on the values that constant expressions have.

ghost use Rattle.declarations_well_formed.specs.constants.Laws.{ConstantLaw};

/// What a constant expression gives is a value of its type, where the names of constants mean such values.
pub fn constant_value_law()
    ensures { ConstantLaw }
{}
