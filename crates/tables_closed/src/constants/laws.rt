//! The laws on types that names, headers and constants have.

ghost use Rattle.tables_closed.specs.constants.Bounds.{AreBounded};

/// The type that a name means, those of a header and that of a constant have ids below each bound of the scope that they are
/// read over.
pub fn bound_laws()
    ensures { AreBounded }
{}
