//! The law, the contract of a function that does nothing.

ghost use Rattle.declarations_well_formed.specs.parts.Laws.{PartLaw};

/// A part of constants, types or variables adds types at the end of the table, variables behind those that there were, and to the
/// innermost block a name for each thing that it declares: a type, a constant, or a variable under its number.
pub fn part_law()
    ensures { PartLaw }
{}
