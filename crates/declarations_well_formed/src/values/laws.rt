//! The law on what parts of declarations declare.

ghost use Rattle.declarations_well_formed.specs.values.Laws.{ValueLaw};

use imported_types_agree::tables_closed::types::closing_laws;

/// What a part of declarations puts names to is there: a type of the table, a constant that is a value of its type, or a variable.
pub fn declared_value_law()
    ensures { ValueLaw }
{
    closing_laws();
}
