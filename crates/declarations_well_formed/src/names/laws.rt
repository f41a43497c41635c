//! The laws, the contract of a function that does nothing.

ghost use Rattle.declarations_well_formed.specs.names.Laws.{TypeLaw, PartLaw};

/// A type, and a part of type declarations, add types at the end of the table, and to the innermost block names of types, and of values
/// of enumerations, each with a number that its type holds. Nothing else in the scope changes.
pub fn type_name_laws()
    ensures types { TypeLaw }
    ensures parts { PartLaw }
{}
