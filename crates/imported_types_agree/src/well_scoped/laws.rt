//! The laws on closed scopes of units that use others.

ghost use Rattle.imported_types_agree.specs.well_scoped.Scopes.{AreWellScoped};

/// A scope is complete at its beginning, and stays so where it uses units whose interfaces are closed and fit.
pub fn scope_laws()
    ensures { AreWellScoped }
{}
