//! The law, the contract of a function that does nothing.

ghost use Rattle.bodies_well_formed.specs.expressions.Laws.{ExpressionLaw};

/// Where what is known agrees with what trees may name, the node of an expression is typed, or nil.
pub fn checked_expression_law()
    ensures { ExpressionLaw }
{}
