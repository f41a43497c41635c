//! The law, the contract of a function that does nothing.

ghost use Rattle.bodies_well_formed.specs.statements.Laws.{StatementLaw};

/// Where what is known agrees with what trees may name, the node of a statement is well formed.
pub fn checked_statement_law()
    ensures { StatementLaw }
{}
