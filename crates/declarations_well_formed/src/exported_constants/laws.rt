//! The law on constants that units show.

ghost use Rattle.declarations_well_formed.specs.exported_constants.Laws.{ShownConstants};

/// The constants that a unit shows are values of their types in a table into which its interface comes, where the table knows the types
/// of the interface as they are.
pub fn shown_constant_law()
    ensures { ShownConstants }
{}
