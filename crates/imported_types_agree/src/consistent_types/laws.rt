//! The laws on tables that tell of the types of units what their interfaces tell.

ghost use Rattle.imported_types_agree.specs.consistent_types.Laws.{AreToldOn};

/// A table tells of types what the interfaces of their units tell as it begins, and stays so with the types of such interfaces and
/// with those that a unit declares; then it knows the types of such an interface as they are, and what a unit shows of it is such an interface.
pub fn consistency_laws()
    ensures { AreToldOn }
{}
